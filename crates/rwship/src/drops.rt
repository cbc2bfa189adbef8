//! What `send` says of the samples that it has not sent, or that were refused.

use rw_metrics::{Drops, SendCounters};

/// Returns what to do about samples that were refused with this status.
pub fn advice(status: u16) -> &'static str {
    match status {
        300..=399 => "a redirect is not followed; send to the address that it names",
        400 => {
            "the receiver finds them not valid, or holds later ones; if it takes nothing at all, give --snappy"
        }
        401 | 403 => "the receiver wants to know who sends; dist/tls.md shows a proxy that says so",
        404 | 405 => "see whether --to and send.path name the path that takes remote-write",
        413 => "give --max-batch-bytes, or raise the limit of the receiver",
        415 => "give --snappy or leave it out, as the receiver takes bodies",
        _ => "see what the receiver, or a proxy before it, says of this status",
    }
}

/// Prints a line for each reason for which samples were dropped, but for those without a series.
pub fn explain_drops(rt: &HostRuntime, drops: &Drops) {
    let (labels, order) = (drops.bad_labels, drops.not_rising);
    if labels > 0 {
        let _ = eprintln!(rt; "  samples of series whose labels are not valid: {labels}");
    }
    if order > 0 {
        let _ = eprintln!(rt;
            "  samples that are not later than the last one of their series: {order}"
        );
    }
    for (status, count) in &drops.refused {
        let next = advice(*status);
        let _ = eprintln!(rt; "  samples refused with status {status}: {count}; next: {next}");
    }
}

/// Prints how many of the refused samples the receiver may hold, if there are some.
pub fn explain_unsure(rt: &HostRuntime, counters: &SendCounters) {
    let count = counters.unsure();
    if count > 0 {
        let _ = eprintln!(rt;
            "  unsure: {count} of the samples refused with status 400 may be held by the receiver, which did not answer an earlier attempt; next: docs/OPERATING.md, 'Repeats'"
        );
    }
}

/// Prints what the receiver last said of a batch that it did not take, if it said anything.
pub fn explain_reply(rt: &HostRuntime, counters: &SendCounters) {
    if let Ok(Some((status, text))) = counters.last_reply(rt.alloc()) {
        let _ = eprintln!(rt; "  receiver said with status {status}: {text}");
    }
}

//! The page of a sender for people.

ghost use Rattle.std.specs.Prelude.{◌≡◌, ◌++◌, IfOk, OnOk};
ghost use Rattle.rw_metrics.specs.SendHtml.{attempts_table, drops_table, reading_table, samples_table, send_html, state};

use crate::html::{push_page_end, push_page_start, push_table};
use crate::lines::{lag, percent};
use crate::rows::{Shown, Table, push_text};
use crate::send_numbers::{Drops, SendNumbers};
use std::alloc::{AllocError, Global};

const SAMPLES: Table = (
    "Samples",
    &[
        "Read",
        "Acknowledged by the receiver",
        "Dropped",
        "Filtered by the rules",
        "In flight",
        "Seconds from the newest acknowledged to the newest in flight",
    ],
    "",
);

const DROPPED: Table = (
    "Dropped samples",
    &[
        "All",
        "No series was logged before them",
        "Labels that may not be sent",
        "Not later than the last one of their series",
    ],
    "Batch refused with status ",
);

const ATTEMPTS: Table = (
    "Attempts to send a batch",
    &[
        "All",
        "Failed",
        "Failed since one succeeded",
        "The last cause",
        "connect: no connection was made",
        "timeout: not done in time",
        "broken: the connection broke",
        "ended: the connection ended before a status",
        "bad_reply: the answer is not HTTP",
        "memory: out of memory",
    ],
    "Answered with status ",
);

const LOG: Table = (
    "Log",
    &[
        "Segment that is read",
        "Newest segment",
        "Entries read",
        "Bytes read",
        "Percent of the folder",
        "Records of histograms, not shipped",
        "Records of float histograms, not shipped",
        "Records of histograms with custom buckets, not shipped",
        "Records of float histograms with custom buckets, not shipped",
        "Records of an unknown type, not shipped",
        "Running shards",
    ],
    "",
);

/// Returns what the sender is doing.
#[tactic(auto, unfolding(crate::specs::SendHtml::state))]
fn state(n: &SendNumbers) -> &'static str
    ensures { result.now ≡ state n.now }
{
    if n.failures.in_a_row > 0 {
        "<p class=\"bad\">Waiting for the receiver: attempts to send fail.</p>\n"
    } else if n.in_flight > 0 {
        "<p>Sending. Samples are in flight.</p>\n"
    } else {
        "<p>Reading the log. No sample is in flight.</p>\n"
    }
}

/// Adds how far the samples have come.
fn push_samples(out: &mut Vec<u8>, n: &SendNumbers) -> Result<(), AllocError>
    ensures { OnOk result (out.new.items ≡ out.old.items ++ samples_table n.now) }
{
    let numbers = [
        Shown::Count(n.read),
        Shown::Count(n.acknowledged),
        Shown::Count(n.drops.all),
        Shown::Count(n.filtered),
        Shown::Count(n.in_flight),
        Shown::Known(lag(n.newest_read, n.newest_acknowledged)),
    ];
    push_table(out, &SAMPLES, &numbers, &[])?;
    Ok(())
}

/// Adds the dropped samples, by reason.
fn push_drops(out: &mut Vec<u8>, d: &Drops) -> Result<(), AllocError>
    ensures { OnOk result (out.new.items ≡ out.old.items ++ drops_table d.now) }
{
    let numbers = [
        Shown::Count(d.all),
        Shown::Count(d.no_series),
        Shown::Count(d.bad_labels),
        Shown::Count(d.not_rising),
    ];
    push_table(out, &DROPPED, &numbers, d.refused.as_slice())
}

/// Adds the attempts, and those that failed, by cause.
fn push_attempts(out: &mut Vec<u8>, n: &SendNumbers) -> Result<(), AllocError>
    ensures { OnOk result (out.new.items ≡ out.old.items ++ attempts_table n.now) }
{
    let f = &n.failures;
    let numbers = [
        Shown::Count(n.attempts),
        Shown::Count(f.all),
        Shown::Count(f.in_a_row),
        Shown::Last(f.last),
        Shown::Count(f.connect),
        Shown::Count(f.timeout),
        Shown::Count(f.broken),
        Shown::Count(f.ended),
        Shown::Count(f.bad_reply),
        Shown::Count(f.memory),
    ];
    push_table(out, &ATTEMPTS, &numbers, f.statuses.as_slice())
}

/// Adds how far the log is read, and which of its records are lost.
fn push_reading(out: &mut Vec<u8>, n: &SendNumbers) -> Result<(), AllocError>
    ensures { OnOk result (out.new.items ≡ out.old.items ++ reading_table n.now) }
{
    let skipped = &n.skipped;
    let numbers = [
        Shown::Count(n.segment),
        Shown::Count(n.newest_segment),
        Shown::Count(n.entries),
        Shown::Count(n.bytes),
        Shown::Known(percent(n.bytes, n.folder_bytes)),
        Shown::IfAny(skipped.histograms),
        Shown::IfAny(skipped.float_histograms),
        Shown::IfAny(skipped.custom_histograms),
        Shown::IfAny(skipped.custom_float_histograms),
        Shown::IfAny(skipped.unknown),
        Shown::Count(n.shards),
    ];
    push_table(out, &LOG, &numbers, &[])?;
    Ok(())
}

/// Returns the page of a sender with these numbers for people, in HTML.
pub fn send_html(alloc: Global, numbers: &SendNumbers) -> Result<Vec<u8>, AllocError>
    ensures { IfOk result (λ page. page.items ≡ send_html numbers.now) }
{
    let mut out = Vec::new(alloc);
    push_page_start(&mut out, "rwship send")?;
    push_text(&mut out, state(numbers))?;
    push_samples(&mut out, numbers)?;
    push_drops(&mut out, &numbers.drops)?;
    push_attempts(&mut out, numbers)?;
    push_reading(&mut out, numbers)?;
    push_page_end(&mut out)?;
    Ok(out)
}

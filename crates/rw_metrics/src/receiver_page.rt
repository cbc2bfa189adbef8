//! The page of a receiver.

ghost use Rattle.std.specs.Prelude.{◌≡◌, ◌++◌, IfOk, OnOk};
ghost use Rattle.rw_metrics.specs.ReceivePage.{connections_page, held_page, kept_page, log_page, memory_page, receive_page, recent_page, refused_page, requests_page, skipped_page};

use crate::exposition::{Family, Metric, metrics, push_family, push_metrics};
use crate::receive_numbers::{KeptNumbers, MemoryNumbers, ReceiveNumbers};
use crate::refusals::{REFUSALS, RefusedSamples};
use crate::rows::Shown;
use crate::skipped_parts::{KINDS, SkippedParts};
use std::alloc::{AllocError, Global};

/// The connections.
const CONNECTIONS: [Metric; 3] = metrics! {
    "rwship_receive_connections" "gauge" "Open connections."
    "rwship_receive_connections_total" "counter" "Connections that were accepted."
    "rwship_receive_accepts_failed_total" "counter" "Accepts that failed."
};

/// The requests, by status.
const REQUESTS: Family = (
    "rwship_receive_requests_total",
    "Requests that were answered, by status.",
    "{code=\"",
    "",
);

/// The samples of refused requests, by reason.
const REFUSED: Family = (
    "rwship_receive_refused_samples_total",
    "Samples of requests that were refused, by reason.",
    "{reason=\"",
    "",
);

/// What acknowledged requests had that is not held, by kind.
const SKIPPED: Family = (
    "rwship_receive_skipped_total",
    "Parts of acknowledged requests that are not held, by kind.",
    "{kind=\"",
    "",
);

/// What is held.
const HELD: [Metric; 4] = metrics! {
    "rwship_receive_samples_held" "gauge" "Samples that are held."
    "rwship_receive_label_sets" "gauge" "Label sets that are held."
    "rwship_receive_max_samples" "gauge" "Limit of held samples; 0 if none."
    "rwship_receive_max_label_sets" "gauge" "Limit of label sets; 0 if none."
};

/// What is in memory, if only the latest samples are.
const MEMORY: [Metric; 2] = metrics! {
    "rwship_receive_samples_in_memory" "gauge" "Samples that are in memory."
    "rwship_receive_too_old_series_total" "counter"
        "Series of which a sample came that is too old for memory, at each look."
};

/// How far the log of a folder was read at the start, and what was written to it.
const LOG: [Metric; 8] = metrics! {
    "rwship_receive_log_segments_found" "gauge" "Segments of the log that were there at the start."
    "rwship_receive_log_segments_read" "gauge"
        "How many of them were read. Nothing is answered before that is all."
    "rwship_receive_opening_bytes" "gauge" "Bytes of the segments that were read at the start."
    "rwship_receive_log_bytes_written_total" "counter" "Bytes that were written to the log."
    "rwship_receive_log_syncs_total" "counter" "Syncs of the log to the disk."
    "rwship_receive_log_sync_seconds_total" "counter" "Seconds that syncs of the log took."
    "rwship_receive_log_segments_total" "counter" "Segments of the log that were begun."
    "rwship_receive_log_writes_failed_total" "counter"
        "Writes, syncs and new segments of the log that failed."
};

/// Adds the connections.
fn push_connections(out: &mut Vec<u8>, n: &ReceiveNumbers) -> Result<(), AllocError>
    ensures { OnOk result (out.new.items ≡ out.old.items ++ connections_page n.now) }
{
    push_metrics(
        out,
        &CONNECTIONS,
        &[
            Shown::Count(n.connections),
            Shown::Count(n.accepted),
            Shown::Count(n.refused),
        ],
    )
}

/// Adds the requests, by status.
fn push_requests(out: &mut Vec<u8>, n: &ReceiveNumbers) -> Result<(), AllocError>
    ensures { OnOk result (out.new.items ≡ out.old.items ++ requests_page n.now) }
{
    push_family(out, &REQUESTS, &[], &[], n.statuses.as_slice())
}

/// Adds the samples of refused requests, by reason.
fn push_refused(out: &mut Vec<u8>, r: &RefusedSamples) -> Result<(), AllocError>
    ensures { OnOk result (out.new.items ≡ out.old.items ++ refused_page r.now) }
{
    push_family(out, &REFUSED, &REFUSALS, &r.by_reason(), &[])
}

/// Adds what acknowledged requests had that is not held, by kind.
fn push_skipped(out: &mut Vec<u8>, s: &SkippedParts) -> Result<(), AllocError>
    ensures { OnOk result (out.new.items ≡ out.old.items ++ skipped_page s.now) }
{
    push_family(out, &SKIPPED, &KINDS, &s.by_kind(), &[])
}

/// Adds what is held.
fn push_held(out: &mut Vec<u8>, n: &ReceiveNumbers) -> Result<(), AllocError>
    ensures { OnOk result (out.new.items ≡ out.old.items ++ held_page n.now) }
{
    push_metrics(
        out,
        &HELD,
        &[
            Shown::Count(n.samples),
            Shown::Count(n.label_sets),
            Shown::Count(n.max_samples),
            Shown::Count(n.max_label_sets),
        ],
    )
}

/// Adds what is in memory.
#[tactic(auto, unfolding(crate::specs::ReceivePage::memory_page))]
fn push_memory(out: &mut Vec<u8>, n: &MemoryNumbers) -> Result<(), AllocError>
    ensures { OnOk result (out.new.items ≡ out.old.items ++ memory_page n.now) }
{
    push_metrics(
        out,
        &MEMORY,
        &[Shown::Count(n.samples), Shown::Count(n.asked)],
    )
}

/// Adds what is in memory, if only the latest samples are.
#[tactic(auto, unfolding(crate::specs::ReceivePage::recent_page))]
fn push_recent(out: &mut Vec<u8>, memory: &Option<MemoryNumbers>) -> Result<(), AllocError>
    ensures { OnOk result (out.new.items ≡ out.old.items ++ recent_page memory.now) }
{
    match memory {
        None => Ok(()),
        Some(numbers) => push_memory(out, numbers),
    }
}

/// Adds how far the log of a folder was read, and what was written to it.
#[tactic(auto, unfolding(crate::specs::ReceivePage::log_page))]
fn push_log(out: &mut Vec<u8>, n: &KeptNumbers) -> Result<(), AllocError>
    ensures { OnOk result (out.new.items ≡ out.old.items ++ log_page n.now) }
{
    push_metrics(
        out,
        &LOG,
        &[
            Shown::Count(n.found),
            Shown::Count(n.read),
            Shown::Count(n.opening_bytes),
            Shown::Count(n.bytes),
            Shown::Count(n.syncs),
            Shown::Micros(n.sync_micros),
            Shown::Count(n.segments),
            Shown::Count(n.failed),
        ],
    )
}

/// Adds the log of a folder, if the receiver has one.
#[tactic(auto, unfolding(crate::specs::ReceivePage::kept_page))]
fn push_kept(out: &mut Vec<u8>, kept: &Option<KeptNumbers>) -> Result<(), AllocError>
    ensures { OnOk result (out.new.items ≡ out.old.items ++ kept_page kept.now) }
{
    match kept {
        None => Ok(()),
        Some(numbers) => push_log(out, numbers),
    }
}

/// Returns the page of a receiver with these numbers.
pub fn receive_page(alloc: Global, numbers: &ReceiveNumbers) -> Result<Vec<u8>, AllocError>
    ensures { IfOk result (λ page. page.items ≡ receive_page numbers.now) }
{
    let mut out = Vec::new(alloc);
    push_connections(&mut out, numbers)?;
    push_requests(&mut out, numbers)?;
    push_refused(&mut out, &numbers.refused_samples)?;
    push_skipped(&mut out, &numbers.skipped)?;
    push_held(&mut out, numbers)?;
    push_recent(&mut out, &numbers.memory)?;
    push_kept(&mut out, &numbers.kept)?;
    Ok(out)
}

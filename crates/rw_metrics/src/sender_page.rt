//! The page of a sender.

ghost use Rattle.std.specs.Prelude.{◌≡◌, ◌++◌, IfOk, OnOk};
ghost use Rattle.rw_metrics.specs.SendPage.{attempts_page, drops_page, progress_page, send_page, skipped_page};

use crate::exposition::{Family, Metric, metrics, push_family, push_metrics};
use crate::rows::Shown;
use crate::send_numbers::{CAUSES, Drops, REASONS, SendNumbers, Skipped, TYPES};
use std::alloc::{AllocError, Global};

/// How far the log is read, how far behind the sender is, and how far the samples have come: those
/// that were read are acknowledged, dropped, filtered or in flight.
const PROGRESS: [Metric; 16] = metrics! {
    "rwship_send_entries_read_total" "counter" "Entries of the log that were read."
    "rwship_send_bytes_read_total" "counter" "Bytes of the log that were read."
    "rwship_send_folder_bytes" "gauge" "Bytes of the segments in the folder; 0 if unknown."
    "rwship_send_segment" "gauge" "Number of the segment that is read."
    "rwship_send_segment_bytes_read" "gauge" "Bytes of that segment that were read."
    "rwship_send_newest_segment" "gauge" "Number of the newest segment in the folder; 0 if unknown."
    "rwship_send_highest_timestamp_in_seconds" "gauge"
        "Highest timestamp of the samples that were put into a queue, in seconds since 1970; 0 if there is none."
    "rwship_send_highest_acknowledged_timestamp_in_seconds" "gauge"
        "Highest timestamp of the samples that the receiver has acknowledged, in seconds since 1970; 0 if there is none."
    "rwship_send_samples_read_total" "counter" "Samples that were read."
    "rwship_send_samples_acknowledged_total" "counter" "Samples that the receiver has acknowledged."
    "rwship_send_samples_filtered_total" "counter" "Samples that the rules drop."
    "rwship_send_samples_in_flight" "gauge"
        "Samples that were put into a queue and have no answer yet."
    "rwship_send_samples_placed_total" "counter" "Samples that were put into a queue."
    "rwship_send_samples_resolved_total" "counter"
        "Samples that the receiver has acknowledged or refused permanently."
    "rwship_send_backlog_samples" "gauge"
        "Samples in flight that do not only wait for a full batch."
    "rwship_send_shards" "gauge" "Running shards."
};

/// The attempts, and the samples of which they leave it open whether the receiver holds them.
const ATTEMPTS: [Metric; 2] = metrics! {
    "rwship_send_samples_unsure_total" "counter"
        "Dropped samples that the receiver may hold: it answered 400, and had not answered an earlier attempt."
    "rwship_send_attempts_total" "counter" "Attempts to send a batch."
};

/// The dropped samples, by reason.
const DROPPED: Family = (
    "rwship_send_samples_dropped_total",
    "Samples that were dropped, by reason.",
    "{reason=\"",
    "status_",
);

/// The records that were skipped, by type.
const SKIPPED: Family = (
    "rwship_send_records_skipped_total",
    "Records of the log that were skipped, by type.",
    "{type=\"",
    "",
);

/// The attempts that failed, by cause.
const FAILED: Family = (
    "rwship_send_attempts_failed_total",
    "Attempts to send a batch that failed, by cause.",
    "{cause=\"",
    "status_",
);

/// Adds how far the log is read, and the samples have come.
#[tactic(auto, unfolding(crate::specs::SendPage::progress_page))]
fn push_progress(out: &mut Vec<u8>, n: &SendNumbers) -> Result<(), AllocError>
    ensures { OnOk result (out.new.items ≡ out.old.items ++ progress_page n.now) }
{
    push_metrics(
        out,
        &PROGRESS,
        &[
            Shown::Count(n.entries),
            Shown::Count(n.bytes),
            Shown::Count(n.folder_bytes),
            Shown::Count(n.segment),
            Shown::Count(n.segment_bytes),
            Shown::Count(n.newest_segment),
            Shown::Count(n.newest_read),
            Shown::Count(n.newest_acknowledged),
            Shown::Count(n.read),
            Shown::Count(n.acknowledged),
            Shown::Count(n.filtered),
            Shown::Count(n.in_flight),
            Shown::Count(n.placed),
            Shown::Count(n.resolved),
            Shown::Count(n.waiting),
            Shown::Count(n.shards),
        ],
    )
}

/// Adds the dropped samples.
fn push_drops(out: &mut Vec<u8>, d: &Drops) -> Result<(), AllocError>
    ensures { OnOk result (out.new.items ≡ out.old.items ++ drops_page d.now) }
{
    push_family(
        out,
        &DROPPED,
        &REASONS,
        &d.by_reason(),
        d.refused.as_slice(),
    )
}

/// Adds the records that were skipped.
fn push_skipped(out: &mut Vec<u8>, s: &Skipped) -> Result<(), AllocError>
    ensures { OnOk result (out.new.items ≡ out.old.items ++ skipped_page s.now) }
{
    push_family(out, &SKIPPED, &TYPES, &s.by_type(), &[])
}

/// Adds the attempts.
fn push_attempts(out: &mut Vec<u8>, n: &SendNumbers) -> Result<(), AllocError>
    ensures { OnOk result (out.new.items ≡ out.old.items ++ attempts_page n.now) }
{
    let failures = &n.failures;
    let counts = [Shown::Count(n.unsure), Shown::Count(n.attempts)];
    push_metrics(out, &ATTEMPTS, &counts)?;
    push_family(
        out,
        &FAILED,
        &CAUSES,
        &failures.by_cause(),
        failures.statuses.as_slice(),
    )
}

/// Returns the page of a sender with these numbers.
pub fn send_page(alloc: Global, numbers: &SendNumbers) -> Result<Vec<u8>, AllocError>
    ensures { IfOk result (λ page. page.items ≡ send_page numbers.now) }
{
    let mut out = Vec::new(alloc);
    push_progress(&mut out, numbers)?;
    push_drops(&mut out, &numbers.drops)?;
    push_skipped(&mut out, &numbers.skipped)?;
    push_attempts(&mut out, numbers)?;
    Ok(out)
}

//! Lines of progress.

ghost use Rattle.std.specs.Prelude.{◌≡◌, ◌++◌, ◌≤◌, IfOk, OnOk, length};
ghost use Rattle.rw_metrics.specs.Lines.{drops_line, kept_words, lag, line_text, log_words, percent, receive_line, send_line, skipped_line};
ghost use Rattle.rw_metrics.specs.inner.Rows.{table_of};

use crate::receive_numbers::{KeptNumbers, ReceiveNumbers};
use crate::rows::{Form, Shown, Table, push_rows, push_statuses, push_text};
use crate::send_numbers::{Drops, REASONS, SendNumbers, Skipped, TYPES};
use rw_text::push_number;
use std::alloc::{AllocError, Global};

/// ` WORD N` of a line.
pub(crate) const WORDS: Form<'static> = Form {
    metric: "",
    start: " ",
    between: " ",
    end: "",
    zeros: false,
};

const SENT: Table = (
    "entries",
    &[
        "read",
        "acknowledged",
        "dropped",
        "filtered",
        "in_flight",
        "lag",
        "shards",
        "attempts",
        "failed",
        "last",
        "segment",
        "bytes",
        "newest",
        "percent",
    ],
    "",
);

const RECEIVED: Table = ("connections", &["accepted", "samples"], "status_");

const LOG: [&str; 4] = ["bytes", "syncs", "segments", "failed"];

const DROPPED: Table = ("dropped", &REASONS, "status_");

const SKIPPED: &str = "skipped";

/// Returns the percentage of `all` bytes that were read, at most 100, if there are any.
pub(crate) fn percent(bytes: u64, all: u64) -> Option<u64>
    ensures { result ≡ percent bytes all }
{
    if all == 0 {
        return None;
    }
    Some((bytes as u128 * 100 / all as u128).min(100) as u64)
}

/// Returns by how many seconds the newest acknowledged sample is older than the newest one that was
/// read, if a sample was acknowledged.
pub(crate) fn lag(read: u64, acknowledged: u64) -> Option<u64>
    ensures { result ≡ lag read acknowledged }
{
    if acknowledged == 0 {
        return None;
    }
    Some(read.saturating_sub(acknowledged))
}

/// Returns a line: its first word with `first`, the others with their numbers, and the statuses.
#[tactic(auto, unfolding(crate::specs::Lines::line_text))]
fn line_of(
    alloc: Global,
    line: &Table,
    first: u64,
    numbers: &[Shown],
    counts: &[(u16, u64)],
) -> Result<Vec<u8>, AllocError>
    requires { length line.now.1.now ≤ length numbers.now }
    ensures { IfOk result
        (λ text. text.items ≡ line_text (table_of line.now) first numbers.now counts.now) }
{
    let (word, words, status) = *line;
    let mut out = Vec::new(alloc);
    push_text(&mut out, word)?;
    push_text(&mut out, " ")?;
    push_number(&mut out, first)?;
    push_rows(&mut out, &WORDS, words, numbers)?;
    push_statuses(&mut out, &WORDS, status, counts)?;
    Ok(out)
}

/// Returns the progress of a sender with these numbers, in one line: `entries N read N acknowledged
/// N dropped N filtered N in_flight N`, ` lag N` if a sample was acknowledged, ` shards N attempts
/// N failed N`, ` last CAUSE` if an attempt has failed, ` segment N bytes N`, ` newest N` if the
/// newest segment is known and not 0, and ` percent N` if the bytes of the folder are known.
pub fn send_line(alloc: Global, numbers: &SendNumbers) -> Result<Vec<u8>, AllocError>
    ensures { IfOk result (λ line. line.items ≡ send_line numbers.now) }
{
    let n = numbers;
    let counts = [
        Shown::Count(n.read),
        Shown::Count(n.acknowledged),
        Shown::Count(n.drops.all),
        Shown::Count(n.filtered),
        Shown::Count(n.in_flight),
        Shown::Known(lag(n.newest_read, n.newest_acknowledged)),
        Shown::Count(n.shards),
        Shown::Count(n.attempts),
        Shown::Count(n.failures.all),
        Shown::Last(n.failures.last),
        Shown::Count(n.segment),
        Shown::Count(n.segment_bytes),
        Shown::IfAny(n.newest_segment),
        Shown::Known(percent(n.bytes, n.folder_bytes)),
    ];
    let out = line_of(alloc, &SENT, n.entries, &counts, &[])?;
    Ok(out)
}

/// Adds ` bytes N syncs N segments N failed N`.
#[tactic(auto, unfolding(crate::specs::Lines::log_words))]
fn push_log(out: &mut Vec<u8>, n: &KeptNumbers) -> Result<(), AllocError>
    ensures { OnOk result (out.new.items ≡ out.old.items ++ log_words n.now) }
{
    let numbers = [
        Shown::Count(n.bytes),
        Shown::Count(n.syncs),
        Shown::Count(n.segments),
        Shown::Count(n.failed),
    ];
    push_rows(out, &WORDS, &LOG, &numbers)
}

/// Adds what was written to the log of a folder, if the receiver has one.
#[tactic(auto, unfolding(crate::specs::Lines::kept_words))]
fn push_kept(out: &mut Vec<u8>, kept: &Option<KeptNumbers>) -> Result<(), AllocError>
    ensures { OnOk result (out.new.items ≡ out.old.items ++ kept_words kept.now) }
{
    match kept {
        None => Ok(()),
        Some(numbers) => push_log(out, numbers),
    }
}

/// Returns the progress of a receiver with these numbers, in one line: `connections N accepted N
/// samples N`, ` status_NNN N` for each status, and ` bytes N syncs N segments N failed N` of what
/// was written to its log, if it has one.
pub fn receive_line(alloc: Global, numbers: &ReceiveNumbers) -> Result<Vec<u8>, AllocError>
    ensures { IfOk result (λ line. line.items ≡ receive_line numbers.now) }
{
    let counts = [
        Shown::Count(numbers.accepted),
        Shown::Count(numbers.samples),
    ];
    let statuses = numbers.statuses.as_slice();
    let mut out = line_of(alloc, &RECEIVED, numbers.connections, &counts, statuses)?;
    push_kept(&mut out, &numbers.kept)?;
    Ok(out)
}

/// Returns how many samples a sender has dropped, in one line: `dropped N noseries N badlabels N
/// notrising N`, and ` status_NNN N` for each status.
pub fn drops_line(alloc: Global, drops: &Drops) -> Result<Vec<u8>, AllocError>
    ensures { IfOk result (λ line. line.items ≡ drops_line drops.now) }
{
    line_of(
        alloc,
        &DROPPED,
        drops.all,
        &drops.by_reason(),
        drops.refused.as_slice(),
    )
}

/// Returns which records of the log a sender has skipped, in one line: `skipped`, and ` TYPE N` for
/// each type of which there are some, those first that may hold samples.
pub fn skipped_line(alloc: Global, skipped: &Skipped) -> Result<Vec<u8>, AllocError>
    ensures { IfOk result (λ line. line.items ≡ skipped_line skipped.now) }
{
    let mut out = Vec::new(alloc);
    push_text(&mut out, SKIPPED)?;
    push_rows(&mut out, &WORDS, &TYPES, &skipped.by_type())?;
    Ok(out)
}

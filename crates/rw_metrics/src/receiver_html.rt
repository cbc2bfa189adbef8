//! The page of a receiver for people.

ghost use Rattle.std.specs.Prelude.{◌≡◌, ◌++◌, IfOk, OnOk};
ghost use Rattle.rw_metrics.specs.ReceiveHtml.{connections_table, held_table, kept_table, log_table, memory_table, receive_html, recent_table, skipped_table};

use crate::html::{push_page_end, push_page_start, push_table};
use crate::receive_numbers::{KeptNumbers, MemoryNumbers, ReceiveNumbers};
use crate::rows::{Shown, Table};
use crate::skipped_parts::SkippedParts;
use std::alloc::{AllocError, Global};

const HELD: Table = (
    "Held",
    &["Samples", "Series", "Limit of samples", "Limit of series"],
    "",
);

const MEMORY: Table = (
    "Memory",
    &["Samples in memory", "Series asked for that are too old"],
    "",
);

const CONNECTIONS: Table = (
    "Connections",
    &["Served now", "Accepted in all", "Accepts that failed"],
    "",
);

const ANSWERS: Table = ("Requests answered", &[], "With status ");

const SKIPPED: Table = (
    "Acknowledged, but not held",
    &["Native histograms", "Exemplars", "Metadata"],
    "",
);

const LOG: Table = (
    "Log",
    &[
        "Segments at the start",
        "Segments of these read",
        "Bytes written",
        "Syncs",
        "Milliseconds in syncs",
        "Segments begun",
        "Writes and syncs that failed",
    ],
    "",
);

/// Adds what is held, and how much may be.
fn push_held(out: &mut Vec<u8>, n: &ReceiveNumbers) -> Result<(), AllocError>
    ensures { OnOk result (out.new.items ≡ out.old.items ++ held_table n.now) }
{
    let numbers = [
        Shown::Count(n.samples),
        Shown::Count(n.label_sets),
        Shown::IfAny(n.max_samples),
        Shown::IfAny(n.max_label_sets),
    ];
    push_table(out, &HELD, &numbers, &[])
}

/// Adds what is in memory.
#[tactic(auto, unfolding(crate::specs::ReceiveHtml::memory_table))]
fn push_memory(out: &mut Vec<u8>, n: &MemoryNumbers) -> Result<(), AllocError>
    ensures { OnOk result (out.new.items ≡ out.old.items ++ memory_table n.now) }
{
    let numbers = [Shown::Count(n.samples), Shown::Count(n.asked)];
    push_table(out, &MEMORY, &numbers, &[])
}

/// Adds what is in memory, if only the latest samples are.
#[tactic(auto, unfolding(crate::specs::ReceiveHtml::recent_table))]
fn push_recent(out: &mut Vec<u8>, memory: &Option<MemoryNumbers>) -> Result<(), AllocError>
    ensures { OnOk result (out.new.items ≡ out.old.items ++ recent_table memory.now) }
{
    match memory {
        None => Ok(()),
        Some(numbers) => push_memory(out, numbers),
    }
}

/// Adds the connections.
fn push_connections(out: &mut Vec<u8>, n: &ReceiveNumbers) -> Result<(), AllocError>
    ensures { OnOk result (out.new.items ≡ out.old.items ++ connections_table n.now) }
{
    let numbers = [
        Shown::Count(n.connections),
        Shown::Count(n.accepted),
        Shown::Count(n.refused),
    ];
    push_table(out, &CONNECTIONS, &numbers, &[])
}

/// Adds what acknowledged requests had that is not held, if there is any of it.
#[tactic(auto, unfolding(crate::specs::ReceiveHtml::skipped_table))]
fn push_skipped(out: &mut Vec<u8>, s: &SkippedParts) -> Result<(), AllocError>
    ensures { OnOk result (out.new.items ≡ out.old.items ++ skipped_table s.now) }
{
    if !s.is_some() {
        return Ok(());
    }
    let numbers = [
        Shown::IfAny(s.histograms),
        Shown::IfAny(s.exemplars),
        Shown::IfAny(s.metadata),
    ];
    push_table(out, &SKIPPED, &numbers, &[])
}

/// Adds what was written to the log of a folder.
#[tactic(auto, unfolding(crate::specs::ReceiveHtml::log_table))]
fn push_log(out: &mut Vec<u8>, n: &KeptNumbers) -> Result<(), AllocError>
    ensures { OnOk result (out.new.items ≡ out.old.items ++ log_table n.now) }
{
    let numbers = [
        Shown::Count(n.found),
        Shown::Count(n.read),
        Shown::Count(n.bytes),
        Shown::Count(n.syncs),
        Shown::Count(n.sync_micros / 1_000),
        Shown::Count(n.segments),
        Shown::Count(n.failed),
    ];
    push_table(out, &LOG, &numbers, &[])
}

/// Adds what was written to the log of a folder, if the receiver has one.
#[tactic(auto, unfolding(crate::specs::ReceiveHtml::kept_table))]
fn push_kept(out: &mut Vec<u8>, kept: &Option<KeptNumbers>) -> Result<(), AllocError>
    ensures { OnOk result (out.new.items ≡ out.old.items ++ kept_table kept.now) }
{
    match kept {
        None => Ok(()),
        Some(numbers) => push_log(out, numbers),
    }
}

/// Returns the page of a receiver with these numbers for people, in HTML.
pub fn receive_html(alloc: Global, numbers: &ReceiveNumbers) -> Result<Vec<u8>, AllocError>
    ensures { IfOk result (λ page. page.items ≡ receive_html numbers.now) }
{
    let mut out = Vec::new(alloc);
    push_page_start(&mut out, "rwship receive")?;
    push_held(&mut out, numbers)?;
    push_recent(&mut out, &numbers.memory)?;
    push_connections(&mut out, numbers)?;
    push_table(&mut out, &ANSWERS, &[], numbers.statuses.as_slice())?;
    push_skipped(&mut out, &numbers.skipped)?;
    push_kept(&mut out, &numbers.kept)?;
    push_page_end(&mut out)?;
    Ok(out)
}

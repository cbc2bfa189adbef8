//! Logs whose samples no head holds, and logs after whose references there may be none left.

use crate::appends::{definitions_of, samples_at};
use crate::life::read_head;
use Outcome::{Foreign, NoReferenceLeft, Opened};
use rw_head::Limits;
use rw_kept_head::{KeptHead, OpenError};
use rw_kept_log::{AppendError, Journal, LogEnd, MemoryJournal};
use std::alloc::Global;
use std::test::Fail;

/// What becomes of a log that is opened.
#[derive(Clone, Copy, Debug, PartialEq, Eq)]
enum Outcome {
    /// How many samples are held.
    Opened(u64),
    /// The position of the first entry that is refused.
    Foreign(u64),
    NoReferenceLeft,
    Failed,
}

/// The entries of a log: metric names that are defined, each with its reference, and after them
/// samples, each as (reference, timestamp in milliseconds). And what becomes of it.
struct Row {
    name: &'static str,
    names: &'static [(u64, &'static [u8])],
    times: &'static [(u64, i64)],
    outcome: Outcome,
}

static ROWS: [Row; 9] = [
    Row {
        name: "samples of two series",
        names: &[(1, b"up"), (2, b"go")],
        times: &[(1, 1000), (2, 1000), (1, 2000)],
        outcome: Opened(3),
    },
    Row {
        name: "two samples that are earlier than the last one",
        names: &[(1, b"up")],
        times: &[(1, 2000), (1, 1000), (1, 3000), (1, 500)],
        outcome: Foreign(2),
    },
    Row {
        name: "a repeat after a sample of another series",
        names: &[(1, b"up"), (2, b"go")],
        times: &[(1, 1000), (2, 1000), (1, 1000)],
        outcome: Foreign(4),
    },
    Row {
        name: "a sample of labels that are not UTF-8",
        names: &[(1, b"\xff")],
        times: &[(1, 1000)],
        outcome: Foreign(1),
    },
    Row {
        name: "labels that are not UTF-8, without a sample",
        names: &[(1, b"\xff"), (2, b"up")],
        times: &[(2, 1000)],
        outcome: Opened(1),
    },
    Row {
        name: "a sample without a definition",
        names: &[],
        times: &[(1, 1000)],
        outcome: Opened(0),
    },
    Row {
        name: "the greatest reference that is taken",
        names: &[(0x7fff_ffff_ffff_ffff, b"up")],
        times: &[(0x7fff_ffff_ffff_ffff, 1000)],
        outcome: Opened(1),
    },
    Row {
        name: "the least reference that is refused",
        names: &[(0x8000_0000_0000_0000, b"up")],
        times: &[],
        outcome: NoReferenceLeft,
    },
    Row {
        name: "a refused sample under a reference that is refused",
        names: &[(0x8000_0000_0000_0000, b"\xff")],
        times: &[(0x8000_0000_0000_0000, 1000)],
        outcome: Foreign(1),
    },
];

/// Returns what an error says of a log.
fn refusal_of(error: &OpenError) -> Outcome {
    match error {
        OpenError::Foreign(at) => Foreign(*at),
        OpenError::NoReferenceLeft => NoReferenceLeft,
        OpenError::Log(_) => Outcome::Failed,
    }
}

/// Opens a journal with the log of a row.
fn outcome_of(alloc: Global, row: &Row) -> Result<Outcome, AppendError> {
    let definitions = definitions_of(alloc, row.names)?;
    let samples = samples_at(alloc, row.times)?;
    let (bytes, _) = LogEnd::new(1).append(alloc, &definitions, &samples)?;
    let limits = Limits::standard(alloc)?;
    let mut journal = MemoryJournal::new(alloc);
    let Ok(()) = journal.append(&bytes) else {
        return Ok(Outcome::Failed);
    };
    let Ok(()) = journal.sync() else {
        return Ok(Outcome::Failed);
    };
    let Ok(reading) = read_head(alloc, &limits, &journal) else {
        return Ok(Outcome::Failed);
    };
    match KeptHead::open(reading, journal, 1) {
        Ok(opened) => Ok(Opened(opened.kept.head().total())),
        Err((error, _journal)) => Ok(refusal_of(&error)),
    }
}

/// Returns the first row with another outcome, and that outcome.
fn first_wrong(alloc: Global) -> Result<Option<(&'static str, Outcome)>, AppendError> {
    for row in &ROWS {
        let outcome = outcome_of(alloc, row)?;
        if outcome != row.outcome {
            return Ok(Some((row.name, outcome)));
        }
    }
    Ok(None)
}

#[test]
fn foreign_logs_are_refused(rt: HostRuntime) -> Result<(), Fail> {
    let wrong = first_wrong(rt.alloc());
    assert_eq!(rt; wrong, Ok(None));
    Ok(())
}

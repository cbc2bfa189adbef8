//! Logs that are opened, and logs that are refused.

ghost use Rattle.rw_kept_log.specs.Journal.{Only};
ghost use Rattle.rw_kept_log.specs.Memory.{image_segments, IsLeftOf};

use crate::entry_counter::{UP, reopen};
use Outcome::{Opened, Refused};
use rw_kept_log::{Journal, JournalError, KeptLogDamage, MemoryJournal, ReopenError};
use rw_wal_tail::{FaultPlace, TailFault};
use std::alloc::{AllocError, Global};
use std::test::Fail;

/// The bytes of a segment: some records of `UP`, some bytes, and then one byte many times.
struct Text {
    records: &'static [u8],
    bytes: &'static [u8],
    fill: u8,
    count: usize,
}

#[derive(Clone, Copy, Debug, PartialEq, Eq)]
enum Outcome {
    /// How many entries there are, where the last segment was cut, how many bytes were cut off, and
    /// the greatest reference.
    Opened(u64, usize, usize, u64),
    Refused(TailFault, u64, u64),
    Failed,
}

struct Row {
    name: &'static str,
    first: Text,
    last: Text,
    outcome: Outcome,
}

const NONE: Text = Text {
    records: &[],
    bytes: &[],
    fill: 0,
    count: 0,
};

const WHOLE: Text = Text {
    records: &UP,
    bytes: &[],
    fill: 0,
    count: 0,
};

static ROWS: [Row; 13] = [
    Row {
        name: "empty segments",
        first: NONE,
        last: NONE,
        outcome: Opened(0, 0, 0, 0),
    },
    Row {
        name: "whole segments",
        first: WHOLE,
        last: WHOLE,
        outcome: Opened(4, 63, 0, 1),
    },
    Row {
        name: "an empty segment after a whole one",
        first: WHOLE,
        last: NONE,
        outcome: Opened(2, 0, 0, 1),
    },
    Row {
        name: "a fragment that is torn in its header",
        first: WHOLE,
        last: Text {
            records: &UP,
            bytes: &[1, 0],
            fill: 0,
            count: 0,
        },
        outcome: Opened(4, 63, 2, 1),
    },
    Row {
        name: "a fragment that is torn in its data",
        first: WHOLE,
        last: Text {
            records: &UP,
            bytes: &[1, 0, 22, 0x39, 0x19, 0x94, 0xf3, 1, 0, 0],
            fill: 0,
            count: 0,
        },
        outcome: Opened(4, 63, 10, 1),
    },
    Row {
        name: "a fragment whose data is lost",
        first: WHOLE,
        last: Text {
            records: &UP,
            bytes: &[1, 0, 22, 0x39, 0x19, 0x94, 0xf3],
            fill: 0,
            count: 22,
        },
        outcome: Opened(4, 63, 29, 1),
    },
    Row {
        name: "a record whose last part is missing",
        first: NONE,
        last: Text {
            records: &UP,
            bytes: &[2, 0, 1, 0x52, 0x7d, 0x53, 0x51, 0],
            fill: 0,
            count: 0,
        },
        outcome: Opened(2, 63, 8, 1),
    },
    Row {
        name: "zeros up to the end of the page",
        first: WHOLE,
        last: Text {
            records: &UP,
            bytes: &[],
            fill: 0,
            count: 32_705,
        },
        outcome: Opened(4, 32_768, 0, 1),
    },
    Row {
        name: "other bytes up to the end of the page",
        first: WHOLE,
        last: Text {
            records: &UP,
            bytes: &[],
            fill: 9,
            count: 32_705,
        },
        outcome: Opened(4, 63, 32_705, 1),
    },
    Row {
        name: "one byte more than the page",
        first: WHOLE,
        last: Text {
            records: &UP,
            bytes: &[],
            fill: 9,
            count: 32_706,
        },
        outcome: Refused(TailFault::Compressed, 1, 63),
    },
    Row {
        name: "two pages after the last whole record",
        first: WHOLE,
        last: Text {
            records: &UP,
            bytes: &[9],
            fill: 0,
            count: 65_536,
        },
        outcome: Refused(TailFault::Compressed, 1, 63),
    },
    Row {
        name: "damage in an earlier segment",
        first: Text {
            records: &UP,
            bytes: &[9],
            fill: 0,
            count: 0,
        },
        last: WHOLE,
        outcome: Refused(TailFault::Compressed, 0, 63),
    },
    Row {
        name: "an earlier segment that is torn",
        first: Text {
            records: &UP,
            bytes: &[1, 0],
            fill: 0,
            count: 0,
        },
        last: NONE,
        outcome: Refused(TailFault::TornSegment, 0, 63),
    },
];

/// Returns the bytes of a segment.
fn text_of(alloc: Global, text: &Text) -> Result<Vec<u8>, AllocError> {
    let mut out = Vec::new(alloc);
    out.extend_from_slice(text.records)?;
    out.extend_from_slice(text.bytes)?;
    for _ in 0..text.count {
        out.push(text.fill)?;
    }
    Ok(out)
}

/// Opens the log in a journal.
fn outcome_of(alloc: Global, journal: &mut MemoryJournal) -> Outcome
    requires { Only (image_segments journal.old.image) (IsLeftOf journal.old.image) }
{
    match reopen(alloc, journal) {
        Ok((count, end)) => Opened(count, end.whole, end.torn.len(), end.greatest),
        Err(
            ReopenError::Damaged(
                KeptLogDamage {
                    fault,
                    place: FaultPlace { segment, offset },
                },
            ),
        ) => Refused(fault, segment, offset),
        Err(_) => Outcome::Failed,
    }
}

/// Opens the log of a row, and opens it again.
fn opens_twice(alloc: Global, row: &Row) -> Result<bool, JournalError> {
    let first = text_of(alloc, &row.first)?;
    let last = text_of(alloc, &row.last)?;
    let mut journal = MemoryJournal::new(alloc);
    journal.append(&first)?;
    journal.sync()?;
    journal.begin()?;
    journal.append(&last)?;
    journal.sync()?;
    if outcome_of(alloc, &mut journal) != row.outcome {
        return Ok(false);
    }
    match row.outcome {
        Opened(entries, whole, _, greatest) => {
            journal.sync()?;
            let again = outcome_of(alloc, &mut journal);
            Ok(
                again == Opened(entries, 0, 0, greatest)
                    && journal.count() == 4
                    && journal.read(alloc, 1)?.as_slice() == &last[..whole.min(last.len())],
            )
        }
        _ => Ok(journal.count() == 2 && journal.read(alloc, 1)?.as_slice() == last.as_slice()),
    }
}

/// Returns the first row that does not hold.
fn first_wrong(alloc: Global) -> Result<Option<&'static str>, JournalError> {
    for row in &ROWS {
        if !opens_twice(alloc, row)? {
            return Ok(Some(row.name));
        }
    }
    Ok(None)
}

#[test]
fn logs_are_opened_or_refused(rt: HostRuntime) -> Result<(), Fail> {
    let wrong = first_wrong(rt.alloc());
    assert_eq!(rt; wrong, Ok(None));
    Ok(())
}

/// Returns where the record after the fault begins, if a byte of the record before it is damaged.
fn record_after_damage(alloc: Global) -> Result<Option<usize>, ReopenError> {
    let mut journal = MemoryJournal::new(alloc);
    let mut text = UP.to_vec(alloc)?;
    text[20] ^= 0xff;
    journal.append(&text)?;
    journal.sync()?;
    let (_, end) = reopen(alloc, &mut journal)?;
    Ok(end.follows)
}

#[test]
fn a_record_after_a_fault_is_reported(rt: HostRuntime) -> Result<(), Fail> {
    assert_eq!(rt; record_after_damage(rt.alloc()), Ok(Some(29)));
    Ok(())
}

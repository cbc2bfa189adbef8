//! The references of a log over the lives of a head, and logs that define a label set again.

use crate::appends::{definitions_of, samples_at};
use crate::entry_counter::{UP, reopen};
use crate::life::{Life, Wrong, live, read_head};
use crate::plain::{Sample, body_of};
use crate::plan::{Plan, Row};
use rw_head::{Admission, Capacity, Limits};
use rw_kept_head::{KeptHead, Oddities};
use rw_kept_log::{Journal, LogEnd, MemoryJournal};
use std::alloc::{AllocError, Global};
use std::test::Fail;

/// Two new series in the first life, a third one in the second, and samples of all three in the
/// third.
static ROWS: [Row; 3] = [
    (2, Admission::Answered(204)),
    (1, Admission::Answered(204)),
    (3, Admission::Answered(204)),
];

/// Returns how many entries a log has, and its greatest reference.
fn read_again(alloc: Global, mut journal: MemoryJournal) -> Result<(u64, u64), Wrong> {
    journal.sync()?;
    match reopen(alloc, &mut journal) {
        Ok((count, end)) => Ok((count, end.greatest)),
        Err(_) => Err(Wrong::NotOpened),
    }
}

/// Asks each request in a life of its own.
fn after_three_lives(alloc: Global) -> Result<(u64, u64), Wrong> {
    let mut plan = Plan::new(alloc, 3, 1)?;
    plan.push_rows(alloc, &ROWS)?;
    let mut journal = MemoryJournal::new(alloc);
    for number in 0..ROWS.len() {
        let life = Life::whole(number, number.saturating_add(1));
        let (left, answered) = live(alloc, &plan, journal, life);
        answered?;
        journal = left;
    }
    read_again(alloc, journal)
}

/// Three definitions and six samples: a Prometheus that reads the log forgets the samples of a
/// label set when it is defined again.
#[test]
fn lives_define_each_label_set_once(rt: HostRuntime) -> Result<(), Fail> {
    assert_eq!(rt; after_three_lives(rt.alloc()), Ok((9, 3)));
    Ok(())
}

/// The body of a request with a sample of `{__name__="up"}` at 2000.
fn up_at_2000(alloc: Global) -> Result<Vec<u8>, AllocError> {
    let mut names = Vec::new(alloc);
    names.push(String::from_str(alloc, "up")?)?;
    let sample = Sample {
        series: 0,
        time: 2000,
        value: 1,
    };
    body_of(alloc, &names, &[sample])
}

/// Opens a journal, and asks for a sample of `{__name__="up"}`.
fn ask_for_up(
    alloc: Global,
    mut journal: MemoryJournal,
) -> Result<(Oddities, MemoryJournal), Wrong> {
    journal.sync()?;
    let limits = Limits::standard(alloc)?;
    let body = up_at_2000(alloc)?;
    let reading = read_head(alloc, &limits, &journal)?;
    match KeptHead::open(reading, journal, 1) {
        Ok(opened) => {
            let oddities = opened.oddities;
            let mut kept = opened.kept;
            if kept.admit(&body, &Capacity::unlimited()) != Admission::Answered(204) {
                return Err(Wrong::Answer);
            }
            Ok((oddities, kept.into_journal()))
        }
        Err(_) => Err(Wrong::NotOpened),
    }
}

/// A crash leaves the definition of a message, and none of its samples.
fn after_a_torn_message(alloc: Global) -> Result<(u64, u64), Wrong> {
    let mut journal = MemoryJournal::new(alloc);
    journal.append(&UP)?;
    journal.crash(&UP[..29])?;
    let (_, journal) = ask_for_up(alloc, journal)?;
    read_again(alloc, journal)
}

#[test]
fn a_definition_that_a_crash_left_is_used(rt: HostRuntime) -> Result<(), Fail> {
    assert_eq!(rt; after_a_torn_message(rt.alloc()), Ok((2, 1)));
    Ok(())
}

/// A log of two lives of an earlier version: both define the label set, and a sample has a
/// reference that neither defines.
fn after_two_definitions(alloc: Global) -> Result<(Oddities, u64, u64), Wrong> {
    let Ok(definitions) = definitions_of(alloc, &[(1, b"up"), (2, b"up")]) else {
        return Err(Wrong::OutOfMemory);
    };
    let samples = samples_at(alloc, &[(1, 1000), (2, 1500), (3, 1700)])?;
    let Ok((bytes, _)) = LogEnd::new(1).append(alloc, &definitions, &samples) else {
        return Err(Wrong::OutOfMemory);
    };
    let mut journal = MemoryJournal::new(alloc);
    journal.append(&bytes)?;
    journal.sync()?;
    let (oddities, journal) = ask_for_up(alloc, journal)?;
    let (count, greatest) = read_again(alloc, journal)?;
    Ok((oddities, count, greatest))
}

#[test]
fn definitions_of_earlier_versions_are_counted(rt: HostRuntime) -> Result<(), Fail> {
    let oddities = Oddities {
        repeated_definitions: 1,
        samples_without_series: 1,
    };
    assert_eq!(rt; after_two_definitions(rt.alloc()), Ok((oddities, 6, 2)));
    Ok(())
}

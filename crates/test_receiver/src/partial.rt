//! What a head can take of messages.

use crate::messages::{DOWN, FALLING, Parts, UP, WIDE, asked, message, narrow};
use crate::rows::none_is_wrong;
use rw_head::{Head, Verdict};
use rw_write_request::encode;
use std::alloc::Global;

/// A name, a message, what a head that takes one label and holds (`UP` 10=1, 20=2) can take of it,
/// and how many samples are new then.
type Row = (&'static str, Parts<'static>, Parts<'static>, u64);

static ROWS: [Row; 10] = [
    ("no series", &[], &[], 0),
    (
        "a series without samples",
        &[(DOWN, &[])],
        &[(DOWN, &[])],
        0,
    ),
    (
        "later samples and a repeat",
        &[(UP, &[(20, 2), (30, 3)]), (DOWN, &[(5, 1)])],
        &[(UP, &[(20, 2), (30, 3)]), (DOWN, &[(5, 1)])],
        2,
    ),
    (
        "good, older, good",
        &[(UP, &[(30, 3), (25, 9), (40, 4)])],
        &[(UP, &[(30, 3), (40, 4)])],
        2,
    ),
    (
        "another value at a timestamp that is held, and at one that was just taken",
        &[(UP, &[(20, 3), (30, 3), (30, 4), (30, 3)])],
        &[(UP, &[(30, 3), (30, 3)])],
        1,
    ),
    (
        "a later series is judged after an earlier one of the same label set",
        &[(UP, &[(40, 4)]), (UP, &[(30, 3)]), (UP, &[(50, 5)])],
        &[(UP, &[(40, 4)]), (UP, &[]), (UP, &[(50, 5)])],
        2,
    ),
    (
        "labels that are not sorted",
        &[(FALLING, &[(10, 1)]), (UP, &[(30, 3)])],
        &[(UP, &[(30, 3)])],
        1,
    ),
    (
        "labels that are not sorted, without samples",
        &[(FALLING, &[])],
        &[],
        0,
    ),
    (
        "labels over the limit, and a new label set whose second sample is older",
        &[(WIDE, &[(10, 1)]), (DOWN, &[(10, 1), (9, 1), (11, 1)])],
        &[(DOWN, &[(10, 1), (11, 1)])],
        2,
    ),
    ("nothing", &[(UP, &[(5, 1), (15, 1)])], &[(UP, &[])], 0),
];

/// Returns whether a head can take just these parts of a message, does not change by being asked,
/// and then takes them whole.
fn takes_just(alloc: Global, head: &mut Head, row: &Row) -> Option<bool> {
    let part = head.takeable(message(alloc, row.1).ok()?).ok()?;
    let is_held = head.total() == 2 && head.places() == 1;
    let wanted = message(alloc, row.2).ok()?;
    let is_same = encode(alloc, &part).ok()? == encode(alloc, &wanted).ok()?;
    let verdict = head.apply(&part);
    Some(
        is_held && is_same && part.series.len() == row.2.len() && verdict == Verdict::Stored(row.3),
    )
}

/// Returns the first row of which a head takes something else.
fn wrong_row(alloc: Global) -> Option<&'static str> {
    for row in &ROWS {
        let Ok(mut head) = narrow(alloc) else {
            return Some("a head");
        };
        if asked(alloc, &mut head, &[(UP, &[(10, 1), (20, 2)])]) != Verdict::Stored(2) {
            return Some("what it holds first");
        }
        if takes_just(alloc, &mut head, row) != Some(true) {
            return Some(row.0);
        }
    }
    None
}

#[test]
fn of_a_message_is_taken_what_can_be_taken(rt: HostRuntime) {
    none_is_wrong(&rt, wrong_row(rt.alloc()));
}

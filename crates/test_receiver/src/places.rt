//! Series that come in one order and then in another: what the head expects next changes nothing
//! that it answers.

use crate::messages::{DOWN, FALLING, Labels, Row, Samples, UP, first_wrong, narrow};
use crate::rows::none_is_wrong;
use Verdict::{BadLabels, OutOfOrder, Stored};
use rw_head::Verdict;
use std::alloc::Global;

const IDLE: Labels<'static> = &[("__name__", "idle")];

const NEW: Labels<'static> = &[("__name__", "new")];

const OTHER: Labels<'static> = &[("__name__", "other")];

/// What the head holds at the end.
static LAST: [(Labels<'static>, Samples<'static>); 5] = [
    (UP, &[(10, 1), (20, 1), (30, 1), (40, 1), (50, 1), (60, 1)]),
    (DOWN, &[(10, 2), (20, 2), (30, 2), (50, 2), (60, 2)]),
    (IDLE, &[(10, 3), (20, 3), (30, 3), (40, 3), (50, 3)]),
    (OTHER, &[(10, 9)]),
    (NEW, &[(10, 7)]),
];

/// Messages one after the other, each with its verdict and how many samples of these label sets the
/// head holds after it.
static ROWS: [Row; 9] = [
    (
        "three series",
        &[(UP, &[(10, 1)]), (DOWN, &[(10, 2)]), (IDLE, &[(10, 3)])],
        Stored(3),
        &[1, 1, 1, 0, 0],
    ),
    (
        "the same order",
        &[(UP, &[(20, 1)]), (DOWN, &[(20, 2)]), (IDLE, &[(20, 3)])],
        Stored(3),
        &[2, 2, 2, 0, 0],
    ),
    (
        "another order",
        &[(IDLE, &[(30, 3)]), (DOWN, &[(30, 2)]), (UP, &[(30, 1)])],
        Stored(3),
        &[3, 3, 3, 0, 0],
    ),
    (
        "one is left out, and one comes twice",
        &[
            (UP, &[(40, 1)]),
            (IDLE, &[(40, 3)]),
            (IDLE, &[(40, 3), (50, 3)]),
        ],
        Stored(3),
        &[4, 3, 5, 0, 0],
    ),
    (
        "a refused message with a new series",
        &[
            (UP, &[(50, 1)]),
            (NEW, &[(10, 7)]),
            (DOWN, &[(50, 2)]),
            (FALLING, &[(10, 8)]),
        ],
        BadLabels,
        &[4, 3, 5, 0, 0],
    ),
    (
        "the known ones in the same order",
        &[(UP, &[(50, 1)]), (DOWN, &[(50, 2)])],
        Stored(2),
        &[5, 4, 5, 0, 0],
    ),
    (
        "a new series where the refused one came",
        &[(UP, &[(60, 1)]), (OTHER, &[(10, 9)]), (DOWN, &[(60, 2)])],
        Stored(3),
        &[6, 5, 5, 1, 0],
    ),
    (
        "the refused one where the other one is expected",
        &[(UP, &[(60, 1)]), (NEW, &[(10, 7)])],
        Stored(1),
        &[6, 5, 5, 1, 1],
    ),
    (
        "a late sample of the series that is expected",
        &[(UP, &[(70, 1)]), (DOWN, &[(45, 2)])],
        OutOfOrder,
        &[6, 5, 5, 1, 1],
    ),
];

/// Returns the first wrong row. In the end the head has five places.
fn wrong_row(alloc: Global) -> Option<&'static str> {
    let Ok(mut head) = narrow(alloc) else {
        return Some("a head");
    };
    match first_wrong(alloc, &mut head, &ROWS, &LAST) {
        None if head.places() != 5 => Some("the places in the end"),
        wrong => wrong,
    }
}

#[test]
fn series_come_in_any_order(rt: HostRuntime) {
    none_is_wrong(&rt, wrong_row(rt.alloc()));
}

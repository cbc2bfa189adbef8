//! Messages, their verdicts, and what the head holds after them.

use crate::messages::{
    DOWN, FALLING, Labels, Row, Samples, UP, WIDE, are_same, asked, first_wrong, label_set, narrow,
    standard,
};
use crate::rows::{holds, none_is_wrong};
use Verdict::{BadLabels, OutOfOrder, OverLimit, Stored};
use rw_head::{Head, HeldSeries, Verdict};
use rw_types::LabelSet;
use std::alloc::Global;

/// What the head holds at the end.
static LAST: [(Labels<'static>, Samples<'static>); 2] = [
    (UP, &[(10, 1), (20, 2), (30, 3), (40, 4), (50, 5)]),
    (DOWN, &[]),
];

/// Messages one after the other, each with its verdict and how many samples of `up` and `down` the
/// head holds after it.
static ROWS: [Row; 16] = [
    ("new ones", &[(UP, &[(10, 1), (20, 2)])], Stored(2), &[2, 0]),
    ("no series", &[], Stored(0), &[2, 0]),
    (
        "a later one",
        &[(UP, &[(20, 2), (30, 3)])],
        Stored(1),
        &[3, 0],
    ),
    (
        "a late one",
        &[(UP, &[(40, 4), (25, 1)])],
        OutOfOrder,
        &[3, 0],
    ),
    ("another value", &[(UP, &[(30, 5)])], OutOfOrder, &[3, 0]),
    (
        "repeats before the last",
        &[(UP, &[(10, 1), (20, 2), (10, 1)])],
        Stored(0),
        &[3, 0],
    ),
    (
        "a good series, and one out of order",
        &[(UP, &[(40, 4)]), (DOWN, &[(20, 1), (10, 1)])],
        OutOfOrder,
        &[3, 0],
    ),
    (
        "a good series, and bad labels",
        &[(UP, &[(40, 4)]), (FALLING, &[(10, 1)])],
        BadLabels,
        &[3, 0],
    ),
    (
        "a good series, and a label more",
        &[(UP, &[(40, 4)]), (WIDE, &[(10, 1)])],
        OverLimit,
        &[3, 0],
    ),
    (
        "the first fault decides",
        &[(UP, &[(25, 1)]), (FALLING, &[(10, 1)])],
        OutOfOrder,
        &[3, 0],
    ),
    (
        "labels first",
        &[(FALLING, &[(20, 1), (10, 1)])],
        BadLabels,
        &[3, 0],
    ),
    (
        "wide first",
        &[(WIDE, &[(20, 1), (10, 1)])],
        OverLimit,
        &[3, 0],
    ),
    ("bad labels alone", &[(FALLING, &[])], BadLabels, &[3, 0]),
    ("no samples", &[(DOWN, &[])], Stored(0), &[3, 0]),
    (
        "a series twice, out of order",
        &[(UP, &[(50, 5)]), (DOWN, &[(1, 1)]), (UP, &[(40, 4)])],
        OutOfOrder,
        &[3, 0],
    ),
    (
        "a series twice, in order",
        &[(UP, &[(40, 4)]), (UP, &[(40, 4), (50, 5)])],
        Stored(2),
        &[5, 0],
    ),
];

fn wrong_message(alloc: Global) -> Option<&'static str> {
    match narrow(alloc) {
        Ok(mut head) => first_wrong(alloc, &mut head, &ROWS, &LAST),
        Err(_) => Some("a head"),
    }
}

#[test]
fn messages_are_taken_whole_or_not_at_all(rt: HostRuntime) {
    none_is_wrong(&rt, wrong_message(rt.alloc()));
}

/// Returns whether a label set is that of these labels.
fn is_of(alloc: Global, set: &LabelSet, labels: Labels<'_>) -> bool {
    match label_set(alloc, labels) {
        Ok(wanted) => *set == wanted,
        Err(_) => false,
    }
}

/// Returns whether the head's label sets are these, in this order.
fn has_label_sets(alloc: Global, head: &Head, list: &[Labels<'_>]) -> bool {
    let mut sets = head.label_sets();
    for labels in list {
        match sets.next() {
            Some(set) if is_of(alloc, set, labels) => {}
            _ => return false,
        }
    }
    sets.next().is_none()
}

/// Returns whether a series has these labels and samples. The answer is no if memory runs out.
fn is_series(
    alloc: Global,
    series: &HeldSeries<'_>,
    labels: Labels<'_>,
    samples: Samples<'_>,
) -> bool {
    match series.samples(alloc) {
        Ok(held) => is_of(alloc, series.labels(), labels) && are_same(&held, samples),
        Err(_) => false,
    }
}

/// Returns whether the head's series are these, in this order.
fn has_series(alloc: Global, head: &Head, list: &[(Labels<'_>, Samples<'_>)]) -> bool {
    let mut all = head.series();
    for (labels, samples) in list {
        match all.next() {
            Some(series) if is_series(alloc, &series, labels, samples) => {}
            _ => return false,
        }
    }
    all.next().is_none()
}

const SHORT: Labels<'static> = &[("a", "b")];

/// A value that goes on with the least byte.
const ZERO: Labels<'static> = &[("a", "b\0")];

/// Series in another order than that of their label sets, and one without samples.
static SERIES: [(Labels<'static>, Samples<'static>); 6] = [
    (ZERO, &[(1, 4)]),
    (WIDE, &[(1, 1)]),
    (UP, &[(1, 1), (2, 3)]),
    (&[], &[]),
    (SHORT, &[(1, 5)]),
    (DOWN, &[(1, 1)]),
];

/// Those of them that have samples, in byte order of their label sets.
static HELD: [(Labels<'static>, Samples<'static>); 5] = [
    (DOWN, &[(1, 1)]),
    (UP, &[(1, 1), (2, 3)]),
    (WIDE, &[(1, 1)]),
    (SHORT, &[(1, 5)]),
    (ZERO, &[(1, 4)]),
];

fn come_in_byte_order(alloc: Global) -> bool {
    let Ok(mut head) = standard(alloc) else {
        return false;
    };
    has_label_sets(alloc, &head, &[])
        && has_series(alloc, &head, &[])
        && asked(alloc, &mut head, &SERIES) == Verdict::Stored(6)
        && has_label_sets(alloc, &head, &[DOWN, UP, WIDE, SHORT, ZERO])
        && has_series(alloc, &head, &HELD)
}

#[test]
fn label_sets_come_in_byte_order(rt: HostRuntime) {
    holds(&rt, come_in_byte_order(rt.alloc()));
}

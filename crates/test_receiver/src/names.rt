//! Names of labels, which a head accepts by its setting.

use crate::messages::{FALLING, Labels, Row, Samples, UP, first_wrong};
use crate::rows::none_is_wrong;
use Verdict::{BadLabels, Stored};
use rw_head::{Head, Limits, Verdict};
use rw_types::Names;
use std::alloc::{AllocError, Global};

const RATE: Labels<'static> = &[("__name__", "http.rate"), ("säge", "1")];

const DIGIT: Labels<'static> = &[("9x", "1")];

const UNNAMED: Labels<'static> = &[("", "1")];

/// An empty name of a metric.
const NO_METRIC: Labels<'static> = &[("__name__", "")];

/// What the heads hold of these at the end, or less.
static LAST: [(Labels<'static>, Samples<'static>); 3] = [
    (UP, &[(10, 1)]),
    (RATE, &[(10, 1)]),
    (DIGIT, &[(10, 2), (20, 3)]),
];

/// Messages to a head that takes any name.
static UTF8: [Row; 6] = [
    (
        "a dot and a digit first",
        &[(RATE, &[(10, 1)]), (DIGIT, &[(10, 2)])],
        Stored(2),
        &[0, 1, 1],
    ),
    (
        "a repeat and a later sample",
        &[(DIGIT, &[(10, 2), (20, 3)])],
        Stored(1),
        &[0, 1, 2],
    ),
    ("no name", &[(UNNAMED, &[(20, 1)])], BadLabels, &[0, 1, 2]),
    (
        "no metric",
        &[(NO_METRIC, &[(20, 1)])],
        BadLabels,
        &[0, 1, 2],
    ),
    ("falling", &[(FALLING, &[(20, 1)])], BadLabels, &[0, 1, 2]),
    ("a legacy name", &[(UP, &[(10, 1)])], Stored(1), &[1, 1, 2]),
];

/// Messages to a head that takes legacy names.
static LEGACY: [Row; 4] = [
    ("a dot", &[(RATE, &[(10, 1)])], BadLabels, &[0, 0, 0]),
    ("a digit", &[(DIGIT, &[(10, 2)])], BadLabels, &[0, 0, 0]),
    (
        "a legacy name before another",
        &[(UP, &[(10, 1)]), (DIGIT, &[(10, 2)])],
        BadLabels,
        &[0, 0, 0],
    ),
    ("a legacy name", &[(UP, &[(10, 1)])], Stored(1), &[1, 0, 0]),
];

/// Returns a head that accepts these names.
fn head_of(alloc: Global, names: Names) -> Result<Head, AllocError> {
    let mut limits = Limits::standard(alloc)?;
    limits.names = names;
    Ok(Head::new(alloc, &limits))
}

/// Returns the first row that a head that accepts these names answers differently.
fn wrong_message(alloc: Global, names: Names, rows: &[Row]) -> Option<&'static str> {
    match head_of(alloc, names) {
        Ok(mut head) => first_wrong(alloc, &mut head, rows, &LAST),
        Err(_) => Some("a head"),
    }
}

#[test]
fn names_are_taken_by_setting(rt: HostRuntime) {
    none_is_wrong(&rt, wrong_message(rt.alloc(), Names::Utf8, &UTF8));
    none_is_wrong(&rt, wrong_message(rt.alloc(), Names::Legacy, &LEGACY));
}

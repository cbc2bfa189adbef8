//! Bodies with sorted labels.

use crate::messages::{FALLING, Labels, Parts, UP, WIDE, message};
use crate::rows::{holds, none_is_wrong};
use rw_sorted_labels::{label_set_is_found, sorted_body};
use rw_write_request::encode;
use std::alloc::{AllocError, Global};

/// A name, a message, and the message with sorted labels if it has any that are not sorted.
type Row = (&'static str, Parts<'static>, Option<Parts<'static>>);

const REPEATED: Labels<'static> = &[("job", "x"), ("a", "2"), ("job", "x"), ("a", "1")];

/// By byte order capitals come before the underscore, and that before small letters.
const MIXED: Labels<'static> = &[("a", "1"), ("_", "2"), ("B", "3"), ("aa", "4"), ("a_", "5")];

static ROWS: [Row; 7] = [
    ("no series", &[], None),
    ("sorted labels", &[(UP, &[(5, 1)]), (WIDE, &[])], None),
    ("no labels", &[(&[], &[(5, 1)])], None),
    (
        "labels that are not sorted",
        &[(FALLING, &[(5, 1), (4, 2)])],
        Some(&[(WIDE, &[(5, 1), (4, 2)])]),
    ),
    (
        "the last series alone",
        &[(UP, &[(5, 1)]), (WIDE, &[(6, 1)]), (FALLING, &[])],
        Some(&[(UP, &[(5, 1)]), (WIDE, &[(6, 1)]), (WIDE, &[])]),
    ),
    (
        "by byte order",
        &[(MIXED, &[])],
        Some(&[(
            &[("B", "3"), ("_", "2"), ("a", "1"), ("a_", "5"), ("aa", "4")],
            &[],
        )]),
    ),
    (
        "a repeated name stays",
        &[(REPEATED, &[(7, 1)])],
        Some(&[(
            &[("a", "1"), ("a", "2"), ("job", "x"), ("job", "x")],
            &[(7, 1)],
        )]),
    ),
];

/// Returns whether the body of a message has just this body with sorted labels.
fn is_sorted_to(alloc: Global, row: &Row) -> Result<bool, AllocError> {
    let found = sorted_body(alloc, &encode(alloc, &message(alloc, row.1)?)?)?;
    Ok(match (found, row.2) {
        (None, None) => true,
        (Some(text), Some(wanted)) => text == encode(alloc, &message(alloc, wanted)?)?,
        _ => false,
    })
}

/// Returns the first row whose body is sorted to another one.
fn wrong_row(alloc: Global) -> Option<&'static str> {
    for row in &ROWS {
        if is_sorted_to(alloc, row) != Ok(true) {
            return Some(row.0);
        }
    }
    None
}

#[test]
fn labels_are_sorted_by_name(rt: HostRuntime) {
    label_set_is_found();
    none_is_wrong(&rt, wrong_row(rt.alloc()));
}

#[test]
fn what_is_no_message_stays(rt: HostRuntime) {
    holds(&rt, sorted_body(rt.alloc(), b"x") == Ok(None));
}

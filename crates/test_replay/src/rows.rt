//! The assertion after each table.

use std::process::Abort;

/// Stops at the first row of a table that is wrong, by its name, if there is one.
pub(crate) fn none_is_wrong(rt: &impl Abort, row: Option<&'static str>) {
    assert_eq!(rt; row, None);
}

/// Stops at the first number for which something is wrong, if there is one.
pub(crate) fn no_number_is_wrong(rt: &impl Abort, number: Option<usize>) {
    assert_eq!(rt; number, None);
}

//! The assertion after each table.

use std::process::Abort;

/// Stops at the first row of a table that is wrong, by its name, if there is one.
pub(crate) fn none_is_wrong(rt: &impl Abort, row: Option<&'static str>) {
    assert_eq!(rt; row, None);
}

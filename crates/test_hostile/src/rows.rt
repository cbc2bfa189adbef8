//! The assertion about changed texts.

use std::process::Abort;

/// Stops at the first byte of a text that is read differently, if there is one.
pub(crate) fn no_byte_is_wrong(rt: &impl Abort, byte: Option<usize>) {
    assert_eq!(rt; byte, None);
}

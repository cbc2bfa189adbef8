//! A body with each byte changed to each other value, and cut at each length: read, and judged if
//! it is.

use crate::changed::{Reader, wrong_byte};
use crate::plain_body::plain_spelling;
use crate::rows::no_byte_is_wrong;
use rw_test_parts::UP_MESSAGE;
use rw_write_request::{WireFault, check_message, decode, encode};
use std::alloc::Global;

/// `up` with the value 1 at 1000 ms.
static ONE: [u8; 32] = UP_MESSAGE;

/// Returns the canonical spelling of what a body is read as, or its fault.
fn spelling(alloc: Global, body: &[u8]) -> Result<Vec<u8>, WireFault> {
    let message = decode(alloc, body)?;
    Ok(encode(alloc, &message)?)
}

/// Returns whether a body is taken, and read as the message of this canonical spelling.
fn is_spelled(alloc: Global, body: &[u8], wanted: &[u8]) -> bool {
    match spelling(alloc, body) {
        Ok(found) => check_message(body).is_ok() && found.as_slice() == wanted,
        Err(_) => false,
    }
}

/// Returns whether a body has this fault, both when it is read and when it is judged.
fn is_refused(alloc: Global, body: &[u8], wanted: WireFault) -> bool {
    check_message(body) == Err(wanted) && spelling(alloc, body).err() == Some(wanted)
}

/// Returns whether a body is read and judged as expected.
pub(crate) fn is_read(alloc: Global, body: &[u8]) -> bool {
    match plain_spelling(alloc, body) {
        Ok(wanted) => is_spelled(alloc, body, &wanted),
        Err(fault) => is_refused(alloc, body, fault),
    }
}

/// Returns the bytes of that body.
pub(crate) fn one() -> &'static [u8; 32] {
    &ONE
}

#[test]
fn each_byte_changed_and_cut(rt: HostRuntime) {
    no_byte_is_wrong(&rt, wrong_byte(Reader::Bodies, rt.alloc(), one()));
}

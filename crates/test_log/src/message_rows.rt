//! The spelling of messages, which several tests look at.

use rw_write_request::{Message, encode};
use std::alloc::{AllocError, Global};

/// Returns the message's canonical spelling. If memory runs out, it is spelled again.
fn encoded(alloc: Global, message: &Message) -> Result<Vec<u8>, AllocError> {
    match encode(alloc, message) {
        Err(_) => encode(alloc, message),
        answer => answer,
    }
}

/// Returns whether these bytes are the message's canonical spelling.
pub fn is_spelled(alloc: Global, message: &Message, bytes: &[u8]) -> bool {
    match encoded(alloc, message) {
        Ok(found) => found.as_slice() == bytes,
        Err(_) => false,
    }
}

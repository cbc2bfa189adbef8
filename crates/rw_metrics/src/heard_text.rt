//! What a receiver said of a batch that it did not take.

use crate::body::reply_body;
use std::alloc::{AllocError, Global};
use std::sync::Mutex;

/// The most bytes of a reply's body that are kept.
const KEPT: usize = 200;

/// The first bytes of the body of a reply.
#[derive(Clone, Copy)]
struct Said {
    status: u16,
    len: usize,
    bytes: [u8; KEPT],
}

/// Keeps the first bytes of the last reply that did not take its batch and had a body. Threads
/// share it, and nobody waits: a reply that comes while another one is kept may be passed over.
#[derive(Drop)]
pub(crate) struct HeardText {
    last: Mutex<Said>,
}

/// Returns the printable character that stands for a byte: a space for one that is not ASCII text.
fn printable(byte: u8) -> char {
    if byte < 32 || byte > 126 {
        return ' ';
    }
    byte as char
}

/// Returns these bytes as one line of printable characters, without spaces at its ends.
fn line_of(alloc: Global, bytes: &[u8]) -> Result<String, AllocError> {
    let mut line = String::new(alloc);
    for byte in bytes {
        line.push(printable(*byte))?;
    }
    String::from_str(alloc, line.as_str().trim())
}

/// Returns the first 200 bytes of the body of a reply, as one line of printable characters. `reply`
/// is what was read of it, from its head on.
pub fn reply_text(alloc: Global, reply: &[u8]) -> Result<String, AllocError> {
    let body = reply_body(reply);
    line_of(alloc, &body[..body.len().min(KEPT)])
}

impl HeardText {
    /// Returns what it is before the first reply.
    pub(crate) fn new() -> HeardText {
        HeardText {
            last: Mutex::new(Said {
                status: 0,
                len: 0,
                bytes: [0; KEPT],
            }),
        }
    }

    /// Keeps the first bytes of this body, unless it is empty.
    pub(crate) fn keep(&self, status: u16, body: &[u8]) {
        let len = body.len().min(KEPT);
        if len == 0 {
            return;
        }
        let mut bytes = [0; KEPT];
        bytes[..len].copy_from_slice(&body[..len]);
        if let Some(mut last) = self.last.try_lock() {
            *last = Said { status, len, bytes };
        }
    }

    /// Returns the status of the last reply that was kept, and its text in one line of printable
    /// characters; `None` if there is none.
    pub(crate) fn read(&self, alloc: Global) -> Result<Option<(u16, String)>, AllocError> {
        let said = match self.last.try_lock() {
            Some(last) => *last,
            None => return Ok(None),
        };
        let Some(bytes) = said.bytes.get(..said.len) else {
            return Ok(None);
        };
        let line = line_of(alloc, bytes)?;
        if line.is_empty() {
            return Ok(None);
        }
        Ok(Some((said.status, line)))
    }
}

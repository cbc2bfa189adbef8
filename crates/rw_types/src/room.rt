//! A writer over memory that was reserved when it was made.

ghost use Rattle.std.specs.Prelude.{◌≡◌, ◌≤◌, [], false, IfOk, vec_capacity};
ghost use Rattle.rw_types.specs.Memory.{Reserved};

use crate::device::{Failed, Sink};
use std::alloc::{AllocError, Global};
use std::marker::Model;

/// A writer that takes no memory after it was made. It fails at the first write that does not fit,
/// and writes nothing of it.
#[derive(Debug, Drop)]
pub struct Room {
    bytes: Vec<u8>,
    left: usize,
    failed: bool,
}

impl Model for Room {
    ghost use Rattle.std.specs.Prelude.{◌+◌, ◌≤◌, vec_len, vec_capacity};
    ghost use Rattle.rw_types.specs.Memory.{Reserved};

    ghost Value = { Reserved };

    ghost view = { λ r. record { bytes = r.bytes.items; room = r.left; has_failed = r.failed } };

    ghost invariant = { λ r. vec_len r.bytes + r.left ≤ vec_capacity r.bytes };
}

impl Room {
    /// Returns an empty writer with room for `room` bytes.
    pub fn new(alloc: Global, room: usize) -> Result<Room, AllocError>
        ensures { IfOk result (λ r. r ≡ record { bytes = []; room = room; has_failed = false }) }
    {
        Ok(Room {
            bytes: Vec::with_capacity(alloc, room)?,
            left: room,
            failed: false,
        })
    }

    /// Returns the bytes that were written.
    pub fn as_slice(&self) -> &[u8]
        ensures { result.now ≡ self.now.bytes }
    {
        self.bytes.as_slice()
    }

    /// Returns the bytes that were written, without a copy.
    pub fn into_bytes(self) -> Vec<u8>
        ensures { result.items ≡ self.bytes }
    {
        let Room {
            bytes,
            left: _,
            failed: _,
        } = self;
        bytes
    }
}

impl Sink for Room {
    ghost use Rattle.std.specs.Prelude.{Some};

    ghost contents = { λ r. Some r.bytes };

    ghost has_failed = { λ r. r.has_failed };

    ghost room = { λ r. r.room };

    fn write(&mut self, bytes: &[u8]) -> Result<usize, Failed> {
        if self.failed || self.left < bytes.len() || self.bytes.extend_from_slice(bytes).is_err() {
            self.failed = true;
            return Err(Failed);
        }
        self.left -= bytes.len();
        Ok(bytes.len())
    }
}

//! A writer that keeps what it is given in memory.

ghost use Rattle.std.specs.Prelude.{◌≡◌, [], false, IfOk};
ghost use Rattle.rw_kept_log.specs.inner.Buffers.{Buffered};

use rw_types::{Failed, Sink};
use std::alloc::{AllocError, Global};
use std::marker::Model;

/// A writer that keeps what it is given in memory, and fails if memory runs out. Contracts see the
/// bytes, and whether it failed.
#[derive(Drop)]
pub(crate) struct Buffer {
    bytes: Vec<u8>,
    failed: bool,
}

impl Model for Buffer {
    ghost use Rattle.rw_kept_log.specs.inner.Buffers.{Buffered};

    ghost Value = { Buffered };

    ghost view = { λ b. record { bytes = b.bytes.items; has_failed = b.failed } };
}

impl Buffer {
    /// Returns an empty buffer with room for some bytes; it grows for more.
    pub(crate) fn new(alloc: Global, room: usize) -> Result<Buffer, AllocError>
        ensures { IfOk result (λ b. b ≡ record { bytes = []; has_failed = false }) }
    {
        Ok(Buffer {
            bytes: Vec::with_capacity(alloc, room)?,
            failed: false,
        })
    }

    /// Returns the bytes that were written.
    pub(crate) fn into_bytes(self) -> Vec<u8>
        ensures { result.items ≡ self.bytes }
    {
        let Buffer { bytes, failed: _ } = self;
        bytes
    }
}

impl Sink for Buffer {
    ghost use Rattle.std.specs.Prelude.{Some};

    ghost contents = { λ b. Some b.bytes };

    ghost has_failed = { λ b. b.has_failed };

    // It is never sure: memory may run out at any byte.
    ghost room = { λ b. 0 };

    fn write(&mut self, bytes: &[u8]) -> Result<usize, Failed> {
        if self.failed || self.bytes.extend_from_slice(bytes).is_err() {
            self.failed = true;
            return Err(Failed);
        }
        Ok(bytes.len())
    }
}

//! A writer over memory that grows.

use rw_types::{Failed, Sink};
use std::alloc::Global;

/// A writer into memory, which grows as it takes bytes, and fails if memory runs out.
#[derive(Debug, Drop)]
pub(crate) struct Growing {
    pub(crate) bytes: Vec<u8>,
    pub(crate) failed: bool,
}

impl Growing {
    ghost use Rattle.std.specs.Prelude.{◌≡◌, [], false};

    /// Returns a writer that holds nothing.
    pub(crate) fn new(alloc: Global) -> Growing
        ensures bytes { result.bytes.items ≡ [] }
        ensures sound { result.failed ≡ false }
    {
        Growing {
            bytes: Vec::new(alloc),
            failed: false,
        }
    }
}

impl Sink for Growing {
    ghost use Rattle.std.specs.Prelude.{Some};

    ghost contents = { λ g. Some g.bytes.items };

    ghost has_failed = { λ g. g.failed };

    ghost room = { λ g. 0 };

    fn write(&mut self, bytes: &[u8]) -> Result<usize, Failed> {
        if self.failed || self.bytes.extend_from_slice(bytes).is_err() {
            self.failed = true;
            return Err(Failed);
        }
        Ok(bytes.len())
    }
}

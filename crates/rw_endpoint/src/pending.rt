//! The bytes of a connection that were read and are not used yet.

ghost use Rattle.std.specs.Prelude.{◌≡◌, ◌+◌, ◌≤◌, ◌++◌, [], length, drop};

use std::marker::Model;

/// The most bytes of a head, its last line and the empty lines before it included.
pub(crate) const MAX_HEAD_BYTES: usize = 8192;

/// The bytes of a connection that were read and are not used yet, at most as many as a head has.
/// They take no memory from an allocator, so a head is read and judged even when memory is
/// exhausted.
#[derive(Drop)]
pub(crate) struct Pending {
    bytes: [u8; MAX_HEAD_BYTES],
    len: usize,
}

impl Model for Pending {
    ghost use Rattle.std.specs.Prelude.{ℕ, List, ◌≤◌, take};

    ghost Value = { List ℕ };

    ghost view = { λ p. take p.len p.bytes };

    ghost invariant = { λ p. p.len ≤ 8192 };
}

impl Pending {
    /// Returns a buffer without bytes.
    pub(crate) fn new() -> Pending
        ensures { result ≡ [] }
    {
        Pending {
            bytes: [0; MAX_HEAD_BYTES],
            len: 0,
        }
    }

    /// Returns how many bytes there are.
    pub(crate) fn len(&self) -> usize
        ensures len { result ≡ length self.now }
        ensures few { result ≤ 8192 }
    {
        self.len
    }

    /// Returns the bytes.
    pub(crate) fn as_slice(&self) -> &[u8]
        ensures bytes { result.now ≡ self.now }
        ensures few { length self.now ≤ 8192 }
    {
        &self.bytes[..self.len]
    }

    /// Appends these bytes.
    pub(crate) fn append(&mut self, more: &[u8])
        requires { length self.old + length more.now ≤ 8192 }
        ensures { self.new ≡ self.old ++ more.now }
    {
        let len = self.len;
        self.bytes[len..len + more.len()].copy_from_slice(more);
        self.len = len + more.len();
    }

    /// Removes the first `n` bytes.
    pub(crate) fn drop_front(&mut self, n: usize)
        requires { n ≤ length self.old }
        ensures { self.new ≡ drop n self.old }
    {
        let len = self.len;
        self.bytes.copy_within(n..len, 0);
        self.len = len - n;
    }
}

//! Both ends of a connection whose other side sends what it has, and then waits for the replies.

use rw_types::{Failed, Sink, Source};
use std::alloc::Global;
use std::cell::Cell;

/// Gives an input byte by byte. It notes whether it was asked for more before all replies were
/// written.
#[derive(Drop)]
pub(crate) struct Waiting<'a> {
    left: &'a [u8],
    /// The bytes of all replies, and how many of them are written.
    due: usize,
    heard: &'a Cell<usize>,
    pub(crate) waited: bool,
}

impl<'a> Waiting<'a> {
    pub(crate) fn new(input: &'a [u8], due: usize, heard: &'a Cell<usize>) -> Waiting<'a> {
        Waiting {
            left: input,
            due,
            heard,
            waited: false,
        }
    }
}

impl Source for Waiting<'_> {
    ghost use Rattle.std.specs.Prelude.{None, false};

    ghost remaining = { λ _. None };

    ghost has_failed = { λ _. false };

    ghost is_sure = { λ _. false };

    fn read(&mut self, buf: &mut [u8]) -> Result<usize, Failed> {
        if self.left.is_empty() && self.heard.get() < self.due {
            self.waited = true;
        }
        let n = buf.len().min(self.left.len()).min(1);
        let (front, rest) = self.left.split_at(n);
        buf[..n].copy_from_slice(front);
        self.left = rest;
        Ok(n)
    }
}

/// Keeps what is written, and counts its bytes.
#[derive(Drop)]
pub(crate) struct Hearing<'a> {
    pub(crate) taken: Vec<u8>,
    heard: &'a Cell<usize>,
    failed: bool,
}

impl<'a> Hearing<'a> {
    pub(crate) fn new(alloc: Global, heard: &'a Cell<usize>) -> Hearing<'a> {
        Hearing {
            taken: Vec::new(alloc),
            heard,
            failed: false,
        }
    }
}

impl Sink for Hearing<'_> {
    ghost use Rattle.std.specs.Prelude.{None};

    ghost contents = { λ _. None };

    ghost has_failed = { λ s. s.failed };

    ghost room = { λ _. 0 };

    fn write(&mut self, bytes: &[u8]) -> Result<usize, Failed> {
        if self.failed || self.taken.extend_from_slice(bytes).is_err() {
            self.failed = true;
            return Err(Failed);
        }
        self.heard.set(self.taken.len());
        Ok(bytes.len())
    }
}

//! A reader and a writer that give and take a few bytes at each call, and fail in mid-stream.

use rw_types::{Failed, Sink, Source};
use std::alloc::Global;
use std::cell::Cell;

/// Counts a call down, and returns whether it is the one that fails: the one for which the count is
/// 1. So no call fails if the count is 0.
fn is_failing(calls: &Cell<usize>) -> bool {
    let left = calls.get();
    calls.set(left.saturating_sub(1));
    left == 1
}

/// Gives a text. Several devices may share their count of calls: one of these calls fails, and its
/// device then fails permanently.
#[derive(Drop)]
pub struct Giving<'a> {
    left: &'a [u8],
    most: usize,
    calls: &'a Cell<usize>,
    pub failed: bool,
}

impl<'a> Giving<'a> {
    /// Returns a reader that gives at most `most` bytes at each call.
    pub fn new(text: &'a [u8], most: usize, calls: &'a Cell<usize>) -> Giving<'a> {
        Giving {
            left: text,
            most,
            calls,
            failed: false,
        }
    }
}

impl Source for Giving<'_> {
    ghost use Rattle.std.specs.Prelude.{None, false};

    ghost remaining = { λ _. None };

    ghost has_failed = { λ s. s.failed };

    ghost is_sure = { λ _. false };

    fn read(&mut self, buf: &mut [u8]) -> Result<usize, Failed> {
        if self.failed || is_failing(self.calls) {
            self.failed = true;
            return Err(Failed);
        }
        let n = buf.len().min(self.left.len()).min(self.most);
        let (front, rest) = self.left.split_at(n);
        buf[..n].copy_from_slice(front);
        self.left = rest;
        Ok(n)
    }
}

/// Takes a text. It fails as a `Giving` does, and if there is no memory for the text.
#[derive(Drop)]
pub struct Taking<'a> {
    pub taken: Vec<u8>,
    most: usize,
    calls: &'a Cell<usize>,
    pub failed: bool,
}

impl<'a> Taking<'a> {
    /// Returns a writer that takes at most `most` bytes at each call, and at least one.
    pub fn new(alloc: Global, most: usize, calls: &'a Cell<usize>) -> Taking<'a> {
        Taking {
            taken: Vec::new(alloc),
            most,
            calls,
            failed: false,
        }
    }
}

impl Sink for Taking<'_> {
    ghost use Rattle.std.specs.Prelude.{None};

    ghost contents = { λ _. None };

    ghost has_failed = { λ s. s.failed };

    ghost room = { λ _. 0 };

    fn write(&mut self, bytes: &[u8]) -> Result<usize, Failed> {
        if self.failed {
            return Err(Failed);
        }
        if bytes.is_empty() {
            return Ok(0);
        }
        let len = bytes.len().min(self.most.max(1));
        if is_failing(self.calls) || self.taken.extend_from_slice(&bytes[..len]).is_err() {
            self.failed = true;
            return Err(Failed);
        }
        Ok(len)
    }
}

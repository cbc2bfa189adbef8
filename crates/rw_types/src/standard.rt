//! The readers and writers of Rust's `std::io` as devices.

ghost use Rattle.std.specs.Prelude.{◌≡◌, ◌<◌, false, IfOk};
ghost use Rattle.std.specs.Io.{ReadsAtMost, WritesAtMost};
ghost use Rattle.std.specs.Io.KnownBytes.{ReadConsumes, WriteAppends};

use crate::device::{Failed, Sink, Source};
use std::io::{self, ErrorKind};
use std::marker::Model;

/// A reader or a writer of `std::io` that stays failed once it has failed. A call that was
/// interrupted is repeated, and a write that takes no byte counts as a failure. Contracts see the
/// reader or writer, and whether it has failed.
#[derive(Drop)]
pub struct Std<T> {
    inner: T,
    failed: bool,
}

impl<T> Model for Std<T> {
    ghost use Rattle.std.specs.Prelude.{Bool};

    ghost Value = { T × Bool };

    ghost view = { λ s. (s.inner, s.failed) };
}

impl<T> Std<T> {
    /// Wraps a reader or writer of `std::io` that has not failed.
    pub fn new(inner: T) -> Std<T>
        ensures { result ≡ (inner, false) }
    {
        Std {
            inner,
            failed: false,
        }
    }

    /// Returns the reader or writer of `std::io`, failed or not.
    pub fn into_inner(self) -> T
        ensures { result ≡ self.0 }
    {
        let Std { inner, failed: _ } = self;
        inner
    }
}

/// Reads as `read` does, and repeats the call when it was interrupted.
fn read_uninterrupted<R: io::Read>(reader: &mut R, buf: &mut [u8]) -> Result<usize, Failed>
    ensures bound { ReadsAtMost result buf.new }
    ensures bytes { ReadConsumes (R.remaining reader.old) (R.remaining reader.new) result buf.new }
{
    for _ in 0..u64::MAX {
        match reader.read(buf) {
            Ok(n) => return Ok(n),
            Err(e) => {
                if e.kind() != ErrorKind::Interrupted {
                    return Err(Failed);
                }
            }
        }
    }
    Err(Failed)
}

/// Writes at least one byte, and repeats the call when it was interrupted.
fn write_uninterrupted<W: io::Write>(writer: &mut W, bytes: &[u8]) -> Result<usize, Failed>
    ensures bound { WritesAtMost result bytes.now }
    ensures bytes { WriteAppends (W.contents writer.old) (W.contents writer.new) result bytes.now }
    ensures progress { IfOk result (λ n. 0 < n) }
{
    for _ in 0..u64::MAX {
        match writer.write(bytes) {
            Ok(0) => return Err(Failed),
            Ok(n) => return Ok(n),
            Err(e) => {
                if e.kind() != ErrorKind::Interrupted {
                    return Err(Failed);
                }
            }
        }
    }
    Err(Failed)
}

impl<R: io::Read> Source for Std<R> {
    ghost remaining = { λ s. R.remaining s.0 };

    ghost has_failed = { λ s. s.1 };

    ghost is_sure = { λ _. false };

    fn read(&mut self, buf: &mut [u8]) -> Result<usize, Failed> {
        if self.failed {
            return Err(Failed);
        }
        let result = read_uninterrupted(&mut self.inner, buf);
        self.failed = result.is_err();
        result
    }
}

impl<W: io::Write> Sink for Std<W> {
    ghost contents = { λ s. W.contents s.0 };

    ghost has_failed = { λ s. s.1 };

    ghost room = { λ _. 0 };

    fn write(&mut self, bytes: &[u8]) -> Result<usize, Failed> {
        if self.failed {
            return Err(Failed);
        }
        if bytes.is_empty() {
            return Ok(0);
        }
        let result = write_uninterrupted(&mut self.inner, bytes);
        self.failed = result.is_err();
        result
    }
}

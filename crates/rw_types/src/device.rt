//! Readers and writers of bytes, which may fail and then stay failed.

ghost use Rattle.std.specs.Prelude.{◌≡◌, ℕ, ◌+◌, ◌<◌, ◌≤◌, List, Bool, true, false, not, length, Option, is_ok, IsOk, IfOk};
ghost use Rattle.std.specs.Io.{ReadsAtMost, WritesAtMost};
ghost use Rattle.std.specs.Io.KnownBytes.{ReadConsumes, WriteAppends};

use std::error::Error;
use std::fmt;

/// The error of a device: it failed in this call or in an earlier one.
#[derive(Clone, Copy, Debug, PartialEq, Eq)]
pub struct Failed;

impl fmt::Display for Failed {
    fn fmt<W: fmt::Write>(&self, f: &mut fmt::Formatter<W>) -> fmt::Result {
        f.write_str("a device failed")
    }
}

impl Error for Failed {}

/// A reader of bytes. A failure is permanent: after one `Err` each later call returns `Err`.
pub trait Source {
    /// The bytes that reads will return from here on, if they are known.
    ghost remaining: { Self → Option (List ℕ) };
    /// Whether the device has failed.
    ghost has_failed: { Self → Bool };
    /// Whether no read from here on fails.
    ghost is_sure: { Self → Bool };

    /// Reads some bytes into the front of `buf`, and returns how many. `Ok(0)` for a buffer that is
    /// not empty means the end of the input.
    fn read(&mut self, buf: &mut [u8]) -> Result<usize, Failed>
        ensures bound { ReadsAtMost result buf.new }
        ensures bytes { ReadConsumes (remaining self.old) (remaining self.new) result buf.new }
        ensures failed { is_ok result ≡ not (has_failed self.new) }
        ensures stays { has_failed self.old ≡ true → has_failed self.new ≡ true }
        ensures sure { is_sure self.old ≡ true → IsOk result }
        ensures sure_stays { is_sure self.old ≡ true → is_sure self.new ≡ true };
}

/// A writer of bytes. A failure is permanent: after one `Err` each later call returns `Err`.
pub trait Sink {
    /// The bytes that it holds, if they are known.
    ghost contents: { Self → Option (List ℕ) };
    /// Whether the device has failed.
    ghost has_failed: { Self → Bool };
    /// How many more bytes it is certain to take, as long as it has not failed.
    ghost room: { Self → ℕ };

    /// Writes a prefix of `bytes`, at least one byte if there is one, and returns how many bytes it
    /// wrote. An `Err` has written nothing.
    fn write(&mut self, bytes: &[u8]) -> Result<usize, Failed>
        ensures bound { WritesAtMost result bytes.now }
        ensures bytes { WriteAppends (contents self.old) (contents self.new) result bytes.now }
        ensures progress { IfOk result (λ n. 0 < length bytes.now → 0 < n) }
        ensures failed { is_ok result ≡ not (has_failed self.new) }
        ensures stays { has_failed self.old ≡ true → has_failed self.new ≡ true }
        ensures fits { has_failed self.old ≡ false → length bytes.now ≤ room self.old
            → IsOk result }
        ensures room_left { IfOk result (λ n. room self.old ≤ room self.new + n) };
}

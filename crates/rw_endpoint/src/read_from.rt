//! How readers are read, and what is known of their bytes: of those to come, and of those that have
//! come.

ghost use Rattle.std.specs.Prelude.{◌≡◌, List, ℕ, Bool, true, not, take, Option, is_ok, IsOk, IfOk};
ghost use Rattle.std.specs.Io.{ReadsAtMost};
ghost use Rattle.std.specs.Io.KnownBytes.{ReadConsumes};
ghost use Rattle.rw_endpoint.specs.inner.Reading.{ReadsMore};

use crate::recording::Recording;
use rw_types::{Failed, Source};

/// How readers of one type are read, and what is known of their bytes.
pub(crate) trait ReadFrom<R> {
    /// The bytes that reads will return from here on, if they are known.
    ghost remaining: { R → Option (List ℕ) };
    /// The bytes that reads have returned so far, if they are recorded.
    ghost past: { R → Option (List ℕ) };
    /// Whether the device has failed.
    ghost has_failed: { R → Bool };
    /// Whether no read from here on fails.
    ghost is_sure: { R → Bool };

    /// Reads some bytes into the front of `buf`, and returns how many.
    fn read(reader: &mut R, buf: &mut [u8]) -> Result<usize, Failed>
        ensures bound { ReadsAtMost result buf.new }
        ensures bytes { ReadConsumes (remaining reader.old) (remaining reader.new) result buf.new }
        ensures recorded { ReadsMore (past reader.old) (past reader.new)
            (λ more. IfOk result (λ n. more ≡ take n buf.new)) }
        ensures failed { is_ok result ≡ not (has_failed reader.new) }
        ensures stays { has_failed reader.old ≡ true → has_failed reader.new ≡ true }
        ensures sure { is_sure reader.old ≡ true → IsOk result }
        ensures sure_stays { is_sure reader.old ≡ true → is_sure reader.new ≡ true };
}

/// Reads from a source whose bytes to come may be known.
pub(crate) struct FromSource;

impl<R: Source> ReadFrom<R> for FromSource {
    ghost use Rattle.std.specs.Prelude.{None};

    ghost remaining = { R.remaining };

    ghost past = { λ _. None };

    ghost has_failed = { R.has_failed };

    ghost is_sure = { R.is_sure };

    fn read(reader: &mut R, buf: &mut [u8]) -> Result<usize, Failed> {
        reader.read(buf)
    }
}

/// Reads from a source that records what it has returned.
pub(crate) struct FromRecording;

impl<R: Source> ReadFrom<Recording<R>> for FromRecording {
    ghost use Rattle.std.specs.Prelude.{Some};

    ghost remaining = { λ r. R.remaining r.device };

    ghost past = { λ r. Some r.past };

    ghost has_failed = { λ r. R.has_failed r.device };

    ghost is_sure = { λ r. R.is_sure r.device };

    fn read(reader: &mut Recording<R>, buf: &mut [u8]) -> Result<usize, Failed> {
        reader.read(buf)
    }
}

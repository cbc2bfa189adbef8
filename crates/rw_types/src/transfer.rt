//! Reads an input to its end, and writes whole byte strings.

ghost use Rattle.std.specs.Prelude.{◌≡◌, ◌+◌, ◌<◌, ◌≤◌, ℕ, length, take, true, false, vec_len, IsOk, IfOk, OnOk, OnErr};
ghost use Rattle.std.specs.Io.KnownBytes.{Appends, IsAtEnd};
ghost use Rattle.rw_types.specs.Memory.{ReadsOnto};

use crate::device::{Failed, Sink, Source};
use std::alloc::{AllocError, Global};
use std::error::Error;
use std::fmt;

/// Why an input was not read to its end.
#[derive(Clone, Copy, Debug, PartialEq, Eq)]
pub enum ReadFault {
    /// Memory ran out.
    OutOfMemory,
    /// The reader failed.
    Failed,
}

impl fmt::Display for ReadFault {
    fn fmt<W: fmt::Write>(&self, f: &mut fmt::Formatter<W>) -> fmt::Result {
        f.write_str(match self {
            ReadFault::OutOfMemory => "out of memory",
            ReadFault::Failed => "reading failed",
        })
    }
}

impl Error for ReadFault {}

impl From<AllocError> for ReadFault {
    ghost use Rattle.std.specs.Prelude.{◌≡◌};
    ghost use Rattle.rw_types.specs.declared.transfer.ReadFault.TheVariants.{OutOfMemory};

    ghost from_gives = { λ _ e. e ≡ OutOfMemory };

    fn from(_e: AllocError) -> ReadFault {
        ReadFault::OutOfMemory
    }
}

/// Writes all of `bytes`. After an `Err` the device has failed, and has taken a prefix of them.
pub fn write_all<W: Sink>(sink: &mut W, bytes: &[u8]) -> Result<(), Failed>
    ensures ok { OnOk result (Appends (W.contents sink.old) (W.contents sink.new) bytes.now) }
    ensures part { OnErr result ((n : ℕ) × (n ≤ length bytes.now)
        × Appends (W.contents sink.old) (W.contents sink.new) (take n bytes.now)) }

    ensures failed { OnErr result (W.has_failed sink.new ≡ true) }
    ensures sound { OnOk result (W.has_failed sink.old ≡ false → W.has_failed sink.new ≡ false) }
    ensures fits { W.has_failed sink.old ≡ false → length bytes.now ≤ W.room sink.old
        → IsOk result }
    ensures room_left { OnOk result (W.room sink.old ≤ W.room sink.new + length bytes.now) }
{
    let mut at = 0;
    while at < bytes.len() {
        at += sink.write(&bytes[at..])?;
    }
    Ok(())
}

/// How many bytes one read asks for.
const CHUNK: usize = 64 * 1024;

fn zeros(alloc: Global, len: usize) -> Result<Vec<u8>, AllocError>
    ensures { IfOk result (λ v. vec_len v ≡ len) }
{
    vec![in alloc; 0; len]
}

/// Appends what one read returns to `out`, and returns how many bytes came. The space is reserved
/// before the read, so no byte is lost.
fn read_some<S: Source>(
    source: &mut S,
    chunk: &mut [u8],
    out: &mut Vec<u8>,
) -> Result<usize, ReadFault>
    requires { 0 < length chunk.old }
    ensures bytes { ReadsOnto (S.remaining source.old)
        (S.remaining source.new) out.old.items out.new.items }
    ensures some { IfOk result (λ n. vec_len out.old + n ≤ vec_len out.new) }
    ensures end { result ≡ Ok 0 → IsAtEnd (S.remaining source.new) }
    ensures sound { OnOk result (S.has_failed source.new ≡ false) }
    ensures failed { result ≡ Err ReadFault.Failed → S.has_failed source.new ≡ true }
    ensures memory { result ≡ Err ReadFault.OutOfMemory
        → S.has_failed source.new ≡ S.has_failed source.old }
{
    out.reserve(chunk.len())?;
    match source.read(chunk) {
        Ok(n) => {
            out.extend_from_slice(&chunk[..n])?;
            Ok(n)
        }
        Err(_) => Err(ReadFault::Failed),
    }
}

/// Reads to the end of the input, and appends the bytes to `out`. After an `Err`, `out` has the
/// bytes that were read before it.
pub fn read_to_end<S: Source>(
    alloc: Global,
    source: &mut S,
    out: &mut Vec<u8>,
) -> Result<(), ReadFault>
    ensures bytes { ReadsOnto (S.remaining source.old)
        (S.remaining source.new) out.old.items out.new.items }
    ensures end { OnOk result (IsAtEnd (S.remaining source.new)) }
    ensures sound { OnOk result (S.has_failed source.new ≡ false) }
    ensures failed { result ≡ Err ReadFault.Failed → S.has_failed source.new ≡ true }
    ensures memory { result ≡ Err ReadFault.OutOfMemory → S.has_failed source.old ≡ false
        → S.has_failed source.new ≡ false }
{
    let mut chunk = zeros(alloc, CHUNK)?;
    while read_some(source, &mut chunk, out)? > 0 {}
    Ok(())
}

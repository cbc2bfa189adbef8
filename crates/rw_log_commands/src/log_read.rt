//! The entries of a log, taken as its bytes come.

ghost use Rattle.std.specs.Prelude.{◌≡◌, ℕ, List, [], ◌∷◌, false, Err, None, IfOk, IfErr, OnOk};
ghost use Rattle.rw_follow.specs.Meals.{no_meal};
ghost use Rattle.rw_types.specs.declared.transfer.ReadFault.TheVariants.{Failed};
ghost use Rattle.rw_wal_format.specs.Pieces.{entries};
ghost use Rattle.rw_wal_format.specs.declared.tail_fault.TailFault.{TailFault};
ghost use Rattle.rw_text.specs.declared.tool_fault.ToolFault.TheVariants.{Log, Line, SegmentFull, Device};
ghost use Rattle.rw_log_read.specs.Logs.{ReadsInto, fault_in, log_in};
ghost use Rattle.rw_log_commands.specs.Taking.{CannotRead};
ghost use Rattle.rw_log_commands.specs.inner.Taking.{ReadsSegment, StopsReading};

use rw_follow::{SegmentError, Segments};
use rw_log_read::{LogRead, read_into};
use rw_text::ToolFault;
use rw_types::{ReadFault, Source};
use rw_wal_tail::Taker;
use std::alloc::Global;

/// Reads a log to its end or to its first fault, and lets its entries be taken, as its bytes come.
/// Its records may be Snappy blocks if `may_compress` says so. One that lacks a segment cannot be
/// read.
pub(crate) fn read_log<L: Segments, T: Taker + Drop>(
    alloc: Global,
    log: &mut L,
    may_compress: bool,
    taker: T,
) -> Result<(LogRead, T), ToolFault>
    requires { T.taken taker ≡ [] }
    ensures ok { IfOk result (λ read. (start : L.Start) → L.gave log.old start no_meal
        → ReadsInto false may_compress (L.gave log.new start) (L.had_all log.new start)
        (L.is_read log.new) (T.taken read.1) read.0.segments.items (fault_in read.0.damage)) }
    ensures fixed { IfOk result (λ read. T.fixed read.1 ≡ T.fixed taker) }
    ensures sound { IfOk result (λ read. fault_in read.0.damage ≡ None → L.is_sound log.new) }
    ensures no_log { (f : TailFault) → result ≡ Err (Log f) → ⊥ }
    ensures no_line { (n : ℕ) → result ≡ Err (Line n) → ⊥ }
    ensures no_full { result ≡ Err SegmentFull → ⊥ }
    ensures device { result ≡ Err Device
        → CannotRead (L.may_fail log.old Failed) (L.has_failed log.new) (L.lacks log.new) }
{
    match read_into(alloc, log, false, may_compress, taker) {
        Ok(read) => Ok(read),
        Err(SegmentError::Unreadable(ReadFault::OutOfMemory)) => Err(ToolFault::OutOfMemory),
        Err(SegmentError::Unreadable(ReadFault::Failed)) => Err(ToolFault::Device),
        Err(SegmentError::Missing(_)) => Err(ToolFault::Device),
    }
}

/// Reads a log segment (wal.md) to its end, and lets all its entries be taken, as its bytes come.
pub(crate) fn read_segment<R: Source, T: Taker + Drop>(
    alloc: Global,
    reader: &mut R,
    may_compress: bool,
    taker: T,
) -> Result<T, ToolFault>
    requires { T.taken taker ≡ [] }
    ensures ok { IfOk result (λ t. (segment : List ℕ)
        × ReadsSegment may_compress None (R.remaining reader.old) (R.remaining reader.new) segment
        × (T.taken t ≡ entries (log_in may_compress (segment ∷ [])))) }
    ensures fixed { IfOk result (λ t. T.fixed t ≡ T.fixed taker) }
    ensures sound { OnOk result (R.has_failed reader.new ≡ false) }
    ensures err { IfErr result
        (StopsReading may_compress (R.remaining reader.old) (R.remaining reader.new)
        (R.has_failed reader.new)) }
{
    let (read, taker) = read_log(alloc, reader, may_compress, taker)?;
    match read.damage {
        Some(damage) => Err(ToolFault::from(damage.fault)),
        None => Ok(taker),
    }
}

//! A segment, read to its end or to its first fault.

ghost use Rattle.std.specs.Prelude.{◌≡◌, ◌<◌, ◌+◌, ℕ, [], length, true, false, Err, Ok, Some, None, IfOk, OnOk};
ghost use Rattle.rw_follow.specs.Meals.{Meal};
ghost use Rattle.rw_follow.specs.declared.follower.SegmentError.TheVariants.{Unreadable, Missing};
ghost use Rattle.rw_types.specs.declared.transfer.ReadFault.TheVariants.{Failed};
ghost use Rattle.rw_wal_tail.specs.Taking.{HasTaken};
ghost use Rattle.rw_log_read.specs.inner.Reading.{FeedsMore, GivesMore, ReadsText};

use rw_follow::{Ahead, SegmentError, Segments};
use rw_types::ReadFault;
use rw_wal_tail::{Tail, TailFault, Taker, take_all};
use std::alloc::AllocError;

/// How far a segment was read.
#[derive(Clone, Copy)]
pub(crate) struct TextRead {
    pub(crate) bytes: u64,
    pub(crate) fault: Option<TailFault>,
    /// Whether a segment was seen to come after it.
    pub(crate) is_followed: bool,
}

/// Feeds what one read returns, and returns how many bytes that was; `None` means that nothing is
/// left of the segment.
fn feed_some<L: Segments>(
    log: &mut L,
    chunk: &mut [u8],
    tail: &mut Tail,
) -> Result<Option<u64>, ReadFault>
    requires room { 0 < length chunk.old }
    ensures more { (n : ℕ) → result ≡ Ok (Some n)
        → FeedsMore (L.gave log.old) (L.gave log.new) tail.old tail.new n }
    ensures end { result ≡ Ok None → GivesMore (L.gave log.old) (L.gave log.new) []
        × L.is_read log.new × (tail.new ≡ tail.old) }
    ensures followed { L.is_followed log.old → L.is_followed log.new }
    ensures sound { OnOk result (L.is_sound log.new) }
    ensures failed { result ≡ Err Failed → L.has_failed log.new }
    ensures fails { result ≡ Err Failed → L.may_fail log.old Failed }
    ensures later { L.may_fail log.new Failed → L.may_fail log.old Failed }
{
    let count = log.read(chunk)?;
    if count == 0 {
        return Ok(None);
    }
    tail.feed(&chunk[..count])?;
    Ok(Some(count as u64))
}

/// Returns whether a segment comes after the current one.
fn has_next<L: Segments>(log: &mut L) -> Result<bool, SegmentError>
    ensures stays { (start : L.Start) (meal : Meal) → L.gave log.old start meal
        → L.gave log.new start meal }
    ensures all { result ≡ Ok false → L.is_read log.old → (start : L.Start) (meal : Meal)
        → L.gave log.old start meal → L.had_all log.new start meal }
    ensures followed { result ≡ Ok true → L.is_followed log.new }
    ensures missing { (n : ℕ) → result ≡ Err (Missing n) → L.lacks log.new n }
    ensures sound { L.is_sound log.old → OnOk result (L.is_sound log.new) }
    ensures failed { result ≡ Err (Unreadable Failed) → L.has_failed log.new }
    ensures fails { result ≡ Err (Unreadable Failed) → L.may_fail log.old Failed }
    ensures later { L.may_fail log.new Failed → L.may_fail log.old Failed }
{
    match log.look()? {
        Ahead::Nothing => Ok(false),
        Ahead::Segment => Ok(true),
        Ahead::Missing(number) => Err(SegmentError::Missing(number)),
    }
}

/// Returns the sum of two numbers of bytes. A sum that does not fit counts as out of memory.
fn sum(bytes: u64, more: u64) -> Result<u64, AllocError>
    ensures { IfOk result (λ n. n ≡ bytes + more) }
{
    bytes.checked_add(more).ok_or(AllocError)
}

/// Reads the current segment to its end or, unless `past_fault` is set, to its first fault, counts
/// its bytes, and lets its entries be taken. It is at its end if nothing is left of it and no
/// segment comes after it, or nothing after one was seen to come.
pub(crate) fn read_text<L: Segments, T: Taker>(
    log: &mut L,
    past_fault: bool,
    chunk: &mut [u8],
    tail: &mut Tail,
    taker: &mut T,
) -> Result<TextRead, SegmentError>
    requires room { 0 < length chunk.old }
    requires taken { HasTaken tail.old (T.taken taker.old) }
    ensures ok { IfOk result
        (ReadsText past_fault (L.gave log.old) (L.gave log.new) (L.had_all log.new)
        (L.is_read log.new) (L.is_followed log.new) tail.old tail.new (T.taken taker.old)
        (T.taken taker.new)) }
    ensures fixed { OnOk result (T.fixed taker.new ≡ T.fixed taker.old) }
    ensures missing { (n : ℕ) → result ≡ Err (Missing n) → L.lacks log.new n }
    ensures sound { IfOk result (λ found. found.fault ≡ None → L.is_sound log.new) }
    ensures failed { result ≡ Err (Unreadable Failed) → L.has_failed log.new }
    ensures fails { result ≡ Err (Unreadable Failed) → L.may_fail log.old Failed }
    ensures later { OnOk result (L.may_fail log.new Failed → L.may_fail log.old Failed) }
{
    let mut bytes = 0;
    let mut is_followed = false;
    for _ in 0..u64::MAX {
        let fault = take_all(tail, taker)?;
        let so_far = TextRead {
            bytes,
            fault,
            is_followed,
        };
        if fault.is_some() && !past_fault {
            return Ok(so_far);
        }
        if let Some(more) = feed_some(log, chunk, tail)? {
            bytes = sum(bytes, more)?;
            continue;
        }
        if fault.is_some() || is_followed {
            return Ok(so_far);
        }
        if !has_next(log)? {
            return Ok(so_far);
        }
        is_followed = true;
    }
    Err(SegmentError::from(AllocError))
}

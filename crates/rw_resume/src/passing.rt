//! The first bytes of a segment that were read by an earlier run.

ghost use Rattle.std.specs.Prelude.{◌≡◌, ◌≢◌, ◌<◌, ◌≤◌, ◌++◌, ◌∷◌, [], ℕ, List, Bool, length, true, false, Ok, Err, None, Some, IfOk};
ghost use Rattle.rw_follow.specs.Meals.{no_meal};
ghost use Rattle.rw_resume.specs.Goings.{EndsRecord};
ghost use Rattle.rw_resume.specs.Midway.{HasPassed, HasReadBytes, IsWithin};
ghost use Rattle.rw_resume.specs.declared.passing.Passed.TheVariants as Passed;
ghost use Rattle.rw_resume.specs.inner.Passing.{AreText, FeedsMore, IsDrained, IsFed, PassesTo};
ghost use Rattle.rw_types.specs.declared.transfer.ReadFault.TheVariants.{Failed};
ghost use Rattle.rw_wal_format.specs.Pieces.{page_size};
ghost use Rattle.rw_wal_format.specs.Segments.{between, segment_in};
ghost use Rattle.rw_wal_tail.specs.Places.{stop_offset_in};
ghost use Rattle.rw_wal_tail.specs.Taking.{HasTaken};
ghost use Rattle.rw_wal_tail.specs.declared.place.FaultPlace.{FaultPlace};

use rw_follow::Segments;
use rw_kept_log::Definitions;
use rw_types::ReadFault;
use rw_wal_tail::layout_laws::segments_are_read;
use rw_wal_tail::{FaultPlace, Tail, take_all};
use std::alloc::{AllocError, Global};

/// The most bytes that are read at once.
const MOST_AT_ONCE: usize = 65_536;

/// A byte that begins no item of a segment.
const NO_ITEM: u8 = 255;

/// What comes after the bytes that were passed over.
#[derive(Clone, Copy, Debug, PartialEq, Eq)]
pub enum Passed {
    /// A record ends with them: the log can be read on there.
    Record,
    /// No record ends there, or the segment is damaged before.
    Within,
    /// Nothing: the segment has only this many bytes.
    Short(u64),
}

/// Returns a reader that was fed nothing.
fn new_tail(alloc: Global, may_compress: bool) -> Result<Tail, AllocError>
    ensures text { IfOk result (λ t. AreText may_compress [] t.pieces) }
    ensures taken { IfOk result (λ t. HasTaken t []) }
{
    if may_compress {
        return Tail::for_compressed(alloc);
    }
    Ok(Tail::new(alloc))
}

/// Reads some bytes, of which this many are wanted at most, and feeds them to the reader. Returns
/// how many: 0 if the segment has no more.
fn feed_some<S: Segments>(
    log: &mut S,
    buf: &mut [u8],
    wanted: u64,
    tail: &mut Tail,
) -> Result<u64, ReadFault>
    requires room { 0 < length buf.old }
    requires wanted { 0 < wanted }
    ensures feeds { IfOk result (λ n.
        FeedsMore (S.gave log.old) (S.gave log.new) tail.old tail.new n) }
    ensures most { IfOk result (λ n. n ≤ wanted) }
    ensures end { result ≡ Ok 0 → S.is_read log.new }
    ensures failed { result ≡ Err Failed → S.has_failed log.new }
    ensures fails { result ≡ Err Failed → S.may_fail log.old Failed }
    ensures later { S.may_fail log.new Failed → S.may_fail log.old Failed }
{
    let most = wanted.min(buf.len() as u64) as usize;
    let read = log.read(&mut buf[..most])?;
    tail.feed(&buf[..read])?;
    Ok(read as u64)
}

/// Feeds `count` bytes to the reader, up to the first fault, and takes the entries among them.
/// Returns `None` if all of them were fed and have no fault.
fn feed_all<S: Segments>(
    log: &mut S,
    buf: &mut [u8],
    count: u64,
    tail: &mut Tail,
    definitions: &mut Definitions,
) -> Result<Option<Passed>, ReadFault>
    requires room { 0 < length buf.old }
    requires taken { HasTaken tail.old [] }
    ensures all { result ≡ Ok None → (c : Bool) → AreText c [] tail.old.pieces
        → PassesTo (S.gave log.old) (S.gave log.new) count c tail.new definitions.old
        definitions.new }
    ensures record { result ≢ Ok (Some Passed.Record) }
    ensures within { result ≡ Ok (Some Passed.Within) → (c : Bool)
        → AreText c [] tail.old.pieces → (start : S.Start) → S.gave log.old start no_meal
        → IsWithin c count (S.gave log.new start) }
    ensures short { (n : ℕ) → result ≡ Ok (Some (Passed.Short n)) → (n < count)
        × S.is_read log.new
        × ((c : Bool) → AreText c [] tail.old.pieces
        → IsFed (S.gave log.old) (S.gave log.new) n c tail.new) }
    ensures failed { result ≡ Err Failed → S.has_failed log.new }
    ensures fails { result ≡ Err Failed → S.may_fail log.old Failed }
{
    let mut passed = 0;
    while passed < count {
        let read = feed_some(log, buf, count - passed, tail)?;
        if read == 0 {
            return Ok(Some(Passed::Short(passed)));
        }
        passed += read;
        if take_all(tail, definitions)?.is_some() {
            return Ok(Some(Passed::Within));
        }
    }
    Ok(None)
}

/// Returns whether a fault is at an offset.
fn is_at(place: Option<FaultPlace>, offset: u64) -> bool
    ensures yes { result ≡ true
        → (at : FaultPlace) × (place ≡ Some at) × (at.offset ≡ offset) }
    ensures no { result ≡ false → (at : FaultPlace) → place ≡ Some at → at.offset ≢ offset }
{
    match place {
        Some(at) => at.offset == offset,
        None => false,
    }
}

/// Returns whether the `count` bytes that were fed do not end within an item of the segment.
fn item_ends(alloc: Global, tail: &Tail, count: u64) -> Result<bool, AllocError>
    ensures yes { result ≡ Ok true → (c : Bool) (text : List ℕ) → IsDrained c text tail.now
        → stop_offset_in c page_size (text ++ 255 ∷ []) ≡ count }
    ensures no { result ≡ Ok false → (c : Bool) (text : List ℕ) → IsDrained c text tail.now
        → length text ≡ count → EndsRecord c page_size text → ⊥ }
{
    let mut probe = tail.copy()?;
    probe.feed(&[NO_ITEM])?;
    let mut rest = Vec::new(alloc);
    take_all(&mut probe, &mut rest)?;
    Ok(is_at(probe.fault_place(), count))
}

/// Returns whether no record is open after the bytes that were fed.
fn none_is_open(alloc: Global, tail: &mut Tail) -> Result<bool, AllocError>
    ensures yes { result ≡ Ok true → (c : Bool) (text : List ℕ) → IsDrained c text tail.old
        → (segment_in c page_size text).stop ≡ between }
    ensures no { result ≡ Ok false → (c : Bool) (text : List ℕ) → IsDrained c text tail.old
        → (segment_in c page_size text).stop ≢ between }
{
    tail.next_segment();
    let mut rest = Vec::new(alloc);
    let fault = take_all(tail, &mut rest)?;
    Ok(fault.is_none())
}

/// Returns whether a record ends with the `count` bytes that were fed.
fn record_ends(alloc: Global, tail: &mut Tail, count: u64) -> Result<bool, AllocError>
    ensures yes { result ≡ Ok true → (c : Bool) (text : List ℕ) → IsDrained c text tail.old
        → length text ≡ count → EndsRecord c page_size text }
    ensures no { result ≡ Ok false → (c : Bool) (text : List ℕ) → IsDrained c text tail.old
        → length text ≡ count → EndsRecord c page_size text → ⊥ }
{
    segments_are_read();
    if !item_ends(alloc, tail, count)? {
        return Ok(false);
    }
    none_is_open(alloc, tail)
}

/// Reads `count` bytes of the first segment of a log, of which nothing was read, and takes the
/// definitions among their entries. It stops at the first fault of the segment. Unless the result
/// is `Record`, `definitions` may have taken only some of them.
pub fn pass_over<S: Segments>(
    alloc: Global,
    log: &mut S,
    count: u64,
    may_compress: bool,
    definitions: &mut Definitions,
) -> Result<Passed, ReadFault>
    ensures record { result ≡ Ok Passed.Record → (start : S.Start)
        → S.gave log.old start no_meal
        → HasPassed may_compress count (S.gave log.new start) definitions.old definitions.new }
    ensures within { result ≡ Ok Passed.Within → (start : S.Start)
        → S.gave log.old start no_meal
        → IsWithin may_compress count (S.gave log.new start) }
    ensures short { (n : ℕ) → result ≡ Ok (Passed.Short n) → (n < count) × S.is_read log.new
        × ((start : S.Start) → S.gave log.old start no_meal
        → HasReadBytes (S.gave log.new start) n) }
    ensures failed { result ≡ Err Failed → S.has_failed log.new }
    ensures fails { result ≡ Err Failed → S.may_fail log.old Failed }
{
    let mut buf = vec![in alloc; 0; MOST_AT_ONCE]?;
    let mut tail = new_tail(alloc, may_compress)?;
    if let Some(passed) = feed_all(log, &mut buf, count, &mut tail, definitions)? {
        return Ok(passed);
    }
    if record_ends(alloc, &mut tail, count)? {
        return Ok(Passed::Record);
    }
    Ok(Passed::Within)
}

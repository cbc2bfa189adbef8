//! The first segments of a log that have no sample later than a floor, so that they may give way to
//! their definitions.

ghost use Rattle.std.specs.Prelude.{◌≡◌, ◌<◌, [], false, true, flat_map, IfOk, IfSome, OnOk, IsErrOf};
ghost use Rattle.std.specs.List.{AllByRecursion};
ghost use Rattle.rw_kept_log.specs.Checkpoints.{IsOld, LacksOld};
ghost use Rattle.rw_kept_log.specs.Definitions.{definitions_in};
ghost use Rattle.rw_kept_log.specs.Journal.{Only, LeavesOnly};
ghost use Rattle.rw_kept_log.specs.Logs.{entries_of, IsWholeText};
ghost use Rattle.rw_kept_log.specs.declared.journal.JournalError.TheVariants.{Failed};
ghost use Rattle.rw_kept_log.specs.declared.retire_error.RetireError.TheVariants.{Journal, Unwritten};
ghost use Rattle.rw_kept_log.specs.inner.Old.{IsOldIfSome};
ghost use Rattle.rw_wal_format.specs.Pieces.{page_size};

use crate::checkpoint::retire_segments;
use crate::definitions::Definitions;
use crate::retire_error::RetireError;
use crate::retiring_journal::RetiringJournal;
use crate::segment_read::read_segment;
use crate::segment_taker::SegmentTaker;
use rw_history::History;
use rw_types::{Entry, RawLabels};
use rw_wal_tail::Taker;
use std::alloc::{AllocError, Global};
use std::marker::Model;

/// Keeps the definitions among entries, and whether a sample is later than a floor.
#[derive(Drop)]
struct Aged {
    definitions: Definitions,
    floor: i64,
    has_later: bool,
}

impl Model for Aged {
    ghost use Rattle.std.specs.Prelude.{◌≡◌, false};
    ghost use Rattle.std.specs.List.{AllByRecursion};
    ghost use Rattle.rw_kept_log.specs.Checkpoints.{IsOld};
    ghost use Rattle.rw_kept_log.specs.inner.Old.{AgedEntries};

    ghost Value = { AgedEntries };

    ghost view = { λ a. record {
      taken = a.definitions;
      floor = a.floor;
      has_later = a.has_later;
    } };

    ghost invariant = { λ a. a.has_later ≡ false → AllByRecursion (IsOld a.floor) a.definitions };
}

/// Returns whether an entry is a sample that is later than a floor.
fn is_later_sample(entry: &Entry, floor: i64) -> bool
    ensures { result ≡ false → IsOld floor entry.now }
{
    match entry {
        Entry::Sample { t, .. } => floor < *t,
        Entry::Def { .. } => false,
    }
}

impl Aged {
    /// Returns one that has taken nothing.
    fn new(alloc: Global, floor: i64) -> Aged
        ensures taken { result.taken ≡ [] }
        ensures floor { result.floor ≡ floor }
    {
        Aged {
            definitions: Definitions::new(alloc),
            floor,
            has_later: false,
        }
    }

    /// Returns the definitions, if no sample is later than the floor.
    fn into_old(self) -> Option<Vec<(u64, RawLabels)>>
        ensures { IfSome result (λ v. (v.items ≡ definitions_in self.taken)
            × AllByRecursion (IsOld self.floor) self.taken) }
    {
        let Aged {
            definitions,
            floor: _,
            has_later,
        } = self;
        if has_later {
            return None;
        }
        Some(definitions.into_found())
    }
}

impl Taker for Aged {
    ghost use Rattle.std.specs.Prelude.{ℤ};

    ghost taken = { λ a. a.taken };

    ghost Fixed = { ℤ };

    ghost fixed = { λ a. a.floor };

    fn take(&mut self, entry: Entry) -> Result<(), AllocError> {
        let is_later = is_later_sample(&entry, self.floor);
        self.definitions.take(entry)?;
        if is_later {
            self.has_later = true;
        }
        Ok(())
    }
}

/// Reads a segment, and returns its definitions if it is whole and no sample of it is later than
/// the floor.
fn read_old(
    alloc: Global,
    text: &[u8],
    floor: i64,
) -> Result<Option<Vec<(u64, RawLabels)>>, AllocError>
    ensures { IfOk result (IsOldIfSome floor text.now) }
{
    let mut aged = Aged::new(alloc, floor);
    let read = read_segment(alloc, text, &mut aged)?;
    if read.fault.is_some() {
        return Ok(None);
    }
    Ok(aged.into_old())
}

/// Reads a segment as `read_old` does, if all segments before it are old.
fn read_next_old(
    alloc: Global,
    all: bool,
    text: &[u8],
    floor: i64,
) -> Result<Option<Vec<(u64, RawLabels)>>, AllocError>
    ensures old { IfOk result (IsOldIfSome floor text.now) }
    ensures all { IfOk result (λ found. IfSome found (λ v. all ≡ true)) }
{
    if all {
        read_old(alloc, text, floor)
    } else {
        Ok(None)
    }
}

/// The first segments of a log, up to the first one with a sample that is later than a floor, with
/// their definitions. It takes the segments as they are loaded, and keeps none. Contracts see the
/// segments and the floor.
#[derive(Drop)]
pub struct OldSegments {
    alloc: Global,
    floor: i64,
    segments: History<History<u8>>,
    /// The definitions of each segment that is old, and that comes after old ones alone.
    found: Vec<Vec<(u64, RawLabels)>>,
    /// Whether all segments so far are old.
    all: bool,
}

impl Model for OldSegments {
    ghost use Rattle.std.specs.Prelude.{◌≡◌, length, true};
    ghost use Rattle.rw_kept_log.specs.inner.Old.{AreOldTexts};
    ghost use Rattle.rw_kept_log.specs.Old.{OldTaken};

    ghost Value = { OldTaken };

    ghost view = { λ o. record { segments = o.segments; floor = o.floor } };

    ghost invariant = { λ o. AreOldTexts o.floor o.segments o.found.items
        × (o.all ≡ true → length o.found.items ≡ length o.segments) };
}

impl OldSegments {
    /// Begins with no segment.
    pub fn new(alloc: Global, floor: i64) -> OldSegments
        ensures { result ≡ record { segments = []; floor = floor } }
    {
        OldSegments {
            alloc,
            floor,
            segments: History::new(),
            found: Vec::new(alloc),
            all: true,
        }
    }
}

impl SegmentTaker for OldSegments {
    ghost use Rattle.std.specs.Prelude.{ℤ};

    ghost taken = { λ o. o.segments };

    ghost Fixed = { ℤ };

    ghost fixed = { λ o. o.floor };

    fn take(&mut self, text: &[u8]) -> Result<(), AllocError> {
        let found = read_next_old(self.alloc, self.all, text, self.floor)?;
        self.found.reserve(1)?;
        self.segments.push(&History::of(text));
        self.all = found.is_some();
        if let Some(definitions) = found {
            self.found.push_reserved(definitions);
        }
        Ok(())
    }
}

/// Returns all these definitions, in their order.
fn join_all(
    alloc: Global,
    found: Vec<Vec<(u64, RawLabels)>>,
) -> Result<Vec<(u64, RawLabels)>, AllocError>
    ensures { IfOk result (λ v. v.items ≡ flat_map (λ p. p.items) found.items) }
{
    let mut all = Vec::new(alloc);
    for part in found {
        let mut definitions = part;
        all.append(&mut definitions)?;
    }
    Ok(all)
}

/// Has the first segments give way to their definitions, as long as no sample of them is later than
/// the floor: they are those that were read. The last segment stays. Returns how many segments gave
/// way. A crash at any moment leaves the log as it was, or the one that is to be.
pub fn retire_old_segments<J: RetiringJournal>(
    alloc: Global,
    old: OldSegments,
    journal: &mut J,
) -> Result<usize, RetireError>
    // After a restart, what is read is what is on the disk.
    requires synced { Only (J.seen journal.old) (J.may_leave journal.old) }
    requires read { old.segments ≡ J.seen journal.old }

    // The log has what it had, less samples that are not later than the floor.
    ensures lacks { OnOk result (LacksOld old.floor (J.seen journal.old) (J.seen journal.new)) }
    ensures synced { OnOk result (Only (J.seen journal.new) (J.may_leave journal.new)) }
    ensures any_moment { LeavesOnly J.moment J.left_since journal.old journal.new
        (LacksOld old.floor (J.seen journal.old)) }
    ensures unwritten { IsErrOf result Unwritten → journal.new ≡ journal.old }
    ensures failed { IsErrOf result (Journal Failed) → J.faults journal.old < J.faults journal.new }
{
    let OldSegments {
        alloc: _,
        floor: _,
        segments: _,
        mut found,
        all: _,
    } = old;
    let n = found.len().min(journal.count().saturating_sub(1));
    if n == 0 {
        return Ok(0);
    }
    found.truncate(n);
    let definitions = join_all(alloc, found)?;
    retire_segments(alloc, journal, n, &definitions)?;
    Ok(n)
}

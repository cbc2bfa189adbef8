//! Opens a log after a crash.

ghost use Rattle.std.specs.Prelude.{◌≡◌, ◌++◌, [], ◌∷◌, List, length, true, false, IfOk, OnOk, OnErr, IfErr, IfSome, IsErrOf};
ghost use Rattle.rw_types.specs.declared.entry.Entry.{Entry};
ghost use Rattle.rw_kept_log.specs.Journal.{Segments};
ghost use Rattle.rw_wal_format.specs.Pieces.{page_size};
ghost use Rattle.rw_kept_log.specs.Logs.{entries_of, IsWholeText};
ghost use Rattle.rw_kept_log.specs.TornLogs.{AllBefore};
ghost use Rattle.rw_kept_log.specs.Reading.{greatest_after};
ghost use Rattle.rw_kept_log.specs.Reopening.{HasDamage, HasRecordAfter, IsEnd};
ghost use Rattle.rw_kept_log.specs.inner.Reopening.{EndsLog, IsFound, IsReadBefore};

use crate::error::{KeptLogDamage, ReopenError};
use crate::greatest::Greatest;
use crate::last_segment::{LastSegment, read_last};
use crate::segment_taker::SegmentTaker;
use rw_history::History;
use rw_wal_tail::Taker;
use std::alloc::{AllocError, Global};
use std::marker::Model;

/// The end of a log that was read again.
#[derive(Debug, Drop)]
pub struct ReadEnd {
    /// Where its last segment is to be cut: after its last whole record.
    pub whole: usize,
    /// The bytes after that place, which a crash left of a write.
    pub torn: Vec<u8>,
    /// Where the first whole record after the fault at which reading stops begins, if there is
    /// one. Then the fault may be damage, and what is cut off may have been acknowledged.
    pub follows: Option<usize>,
    /// The greatest reference that the log defines; 0 if it defines none.
    pub greatest: u64,
}

/// What was found of the segments so far.
#[derive(Debug, Drop)]
pub(crate) enum Found {
    /// There is no segment yet.
    Nothing,
    /// All segments are whole but the last one, of which this was found.
    Last(LastSegment),
    /// A segment before the last one is not whole. No further one is read.
    Broken(KeptLogDamage),
}

/// Returns why no further segment is read, if a next one comes.
fn damage_before(found: &Found) -> Option<KeptLogDamage>
    ensures { (ss : Segments) (taken : List Entry) → IsFound ss taken found.now
        → IsReadBefore ss taken result }
{
    match found {
        Found::Nothing => None,
        Found::Last(last) => last.fault,
        Found::Broken(damage) => Some(*damage),
    }
}

/// Reads the next segment, unless one before it is not whole, and returns what was found.
fn read_next<S: Taker>(
    alloc: Global,
    found: &Found,
    text: &[u8],
    sink: &mut S,
    segment: usize,
) -> Result<Found, AllocError>
    ensures found { IfOk result (λ next. (ss : Segments) → segment ≡ length ss
        → IsFound ss (S.taken sink.old) found.now
        → IsFound (ss ++ text.now ∷ []) (S.taken sink.new) next) }
    ensures fixed { OnOk result (S.fixed sink.new ≡ S.fixed sink.old) }
{
    match damage_before(found) {
        Some(damage) => Ok(Found::Broken(damage)),
        None => Ok(Found::Last(read_last(alloc, text, sink, segment)?)),
    }
}

/// Returns the fault of the last segment, and where a whole record begins after it, if there are
/// both.
fn record_after(found: &Found) -> Option<(KeptLogDamage, usize)>
    ensures { IfSome result (λ r. (ss : Segments) (taken : List Entry)
        → IsFound ss taken found.now → HasRecordAfter ss r.0 r.1) }
{
    match found {
        Found::Last(last) => last.record_after_fault(),
        _ => None,
    }
}

/// Returns the end of a log of which this was found.
fn end_log(alloc: Global, found: Found, greatest: u64) -> Result<ReadEnd, ReopenError>
    ensures end { IfOk result (λ end. (ss : Segments) (taken : List Entry)
        → greatest ≡ greatest_after 0 taken → IsFound ss taken found → EndsLog ss taken end) }
    ensures damaged { IfErr result (λ e. (ss : Segments) (taken : List Entry)
        → IsFound ss taken found → HasDamage ss e) }
    ensures found { IsErrOf result ReopenError.Failed → ⊥ }
{
    match found {
        Found::Nothing => Ok(ReadEnd {
            whole: 0,
            torn: Vec::new(alloc),
            follows: None,
            greatest,
        }),
        Found::Last(last) => {
            let LastSegment {
                fault: _,
                cut,
                torn,
                follows,
            } = last;
            match cut {
                Ok(whole) => Ok(ReadEnd {
                    whole,
                    torn,
                    follows,
                    greatest,
                }),
                Err(damage) => Err(ReopenError::Damaged(damage)),
            }
        }
        Found::Broken(damage) => Err(ReopenError::Damaged(damage)),
    }
}

/// Reads a log again after a crash, as its segments are loaded one after the other, and lets a sink
/// take its entries. It keeps no segment. Contracts see the segments, the sink, and whether memory
/// ran out, after which there is no end.
///
/// The log then has to be closed by `close_torn` at `whole`. Before that the caller may keep a copy
/// of the bytes that it cuts, which are `torn`.
#[derive(Drop)]
pub struct LogReading<S: Taker> {
    alloc: Global,
    segments: History<History<u8>>,
    count: usize,
    sink: Greatest<S>,
    found: Found,
    /// Whether memory ran out while a segment was taken.
    failed: bool,
}

impl<S: Taker> Model for LogReading<S> {
    ghost use Rattle.std.specs.Prelude.{◌≡◌, length, false};
    ghost use Rattle.std.specs.Coded.{codes};
    ghost use Rattle.std.specs.FinMap as map;
    ghost use Rattle.rw_kept_log.specs.Taken.{LogTaken};
    ghost use Rattle.rw_kept_log.specs.inner.Reopening.{IsFound};

    ghost Value = { LogTaken S };

    ghost coded = { Prim.hlevel (codes, map.code) };

    ghost view = { λ l. record { segments = l.segments; sink = l.sink.taker; failed = l.failed } };

    ghost invariant = { λ l. l.failed ≡ false → (l.count ≡ length l.segments)
        × IsFound l.segments (S.taken l.sink.taker) l.found };
}

impl<S: Taker + Drop> LogReading<S> {
    /// Begins with no segment, and a sink that has taken nothing.
    pub fn new(alloc: Global, sink: S) -> LogReading<S>
        requires nothing { S.taken sink ≡ [] }
        ensures segments { result.segments ≡ [] }
        ensures sink { result.sink ≡ sink }
        ensures ready { result.failed ≡ false }
    {
        LogReading {
            alloc,
            segments: History::new(),
            count: 0,
            sink: Greatest::new(sink),
            found: Found::Nothing,
            failed: false,
        }
    }

    /// Returns the fault of the last segment, and where a whole record begins after it, if there
    /// are both. The fault may then be damage, and what follows it may have been acknowledged;
    /// `finish` takes it for the end of a torn write.
    pub fn record_after_fault(&self) -> Option<(KeptLogDamage, usize)>
        ensures { IfSome result (λ r. HasRecordAfter self.now.segments r.0 r.1) }
    {
        if self.failed {
            return None;
        }
        record_after(&self.found)
    }

    /// Returns the sink, which has taken the entries of the log, and how the log ends.
    ///
    /// `Damaged` is returned if a segment before the last one is not whole, or if the last one goes
    /// on after the page in which reading stops, and only then: no crash leaves such a log.
    pub fn finish(self) -> Result<(S, ReadEnd), ReopenError>
        ensures sink { IfOk result (λ r. r.0 ≡ self.sink) }
        ensures entries { IfOk result
            (λ r. S.taken r.0 ≡ entries_of page_size self.segments) }
        ensures end { IfOk result (λ r. IsEnd self.segments r.1) }
        ensures whole { OnOk result (AllBefore (IsWholeText page_size) self.segments) }
        ensures ready { OnOk result (self.failed ≡ false) }

        // An error comes only from memory or the log.
        ensures damaged { IfErr result (HasDamage self.segments) }
        ensures found { IsErrOf result ReopenError.Failed → ⊥ }
    {
        let LogReading {
            alloc,
            segments: _,
            count: _,
            sink,
            found,
            failed,
        } = self;
        if failed {
            return Err(ReopenError::OutOfMemory);
        }
        match end_log(alloc, found, sink.greatest()) {
            Ok(end) => Ok((sink.into_taker(), end)),
            Err(error) => Err(error),
        }
    }
}

impl<S: Taker> SegmentTaker for LogReading<S> {
    ghost taken = { λ l. l.segments };

    ghost Fixed = { S.Fixed };

    ghost fixed = { λ l. S.fixed l.sink };

    fn take(&mut self, text: &[u8]) -> Result<(), AllocError>
        ensures taken { OnOk result (self.new.segments ≡ self.old.segments ++ text.now ∷ []) }
        ensures fixed { OnOk result (S.fixed self.new.sink ≡ S.fixed self.old.sink) }
        ensures failed { OnErr result (self.new.failed ≡ true) }
        ensures ready { OnOk result ((self.old.failed ≡ false) × (self.new.failed ≡ false)) }
    {
        let had_failed = self.failed;
        self.failed = true;
        if had_failed || self.count == usize::MAX {
            return Err(AllocError);
        }
        self.found = read_next(self.alloc, &self.found, text, &mut self.sink, self.count)?;
        self.segments.push(&History::of(text));
        self.count += 1;
        self.failed = false;
        Ok(())
    }
}

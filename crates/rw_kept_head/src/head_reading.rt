//! A head, opened from the log in a journal.

ghost use Rattle.std.specs.Prelude.{◌≡◌, ◌<◌, ◌≤◌, ◌++◌, [], ◌∷◌, length, take, None, IfOk, OnOk, IfErr, IsErrOf, IfSome};
ghost use Rattle.rw_kept_log.specs.Journal.{on_last, Only, LeavesOnly};
ghost use Rattle.rw_kept_log.specs.Logs.{entries_of};
ghost use Rattle.rw_kept_log.specs.Ends.{EndsAt};
ghost use Rattle.rw_kept_log.specs.References.{IsNoted};
ghost use Rattle.rw_wal_format.specs.Pieces.{page_size};
ghost use Rattle.rw_kept_log.specs.Reopening.{HasRecordAfter, IsEnd};
ghost use Rattle.rw_kept_log.specs.declared.error.ReopenError.TheVariants.{Failed};
ghost use Rattle.rw_kept_head.specs.Kept.{SaysWhat, KeepsStore, StaysDefinedOnce};
ghost use Rattle.rw_head.specs.Store.{list_of};
ghost use Rattle.rw_kept_head.specs.Admitted.{MayHold, label_limits};
ghost use Rattle.rw_kept_head.specs.Opening.{HasForeignPlace, HasOpeningCause, HasSameEntries, IsRefusedRightly};
ghost use Rattle.rw_kept_head.specs.declared.open_error.OpenError.TheVariants.{Log};

use crate::kept_head::KeptHead;
use crate::log_writer::LogWriter;
use crate::noted_references::note_all;
use crate::oddities::Oddities;
use crate::open_error::OpenError;
use crate::reading_memory::KeepFor;
use crate::restoring::{RestoredParts, Restoring};
use rw_head::{AllSamples, Head, Limits, Memory, RecentSamples};
use rw_kept_log::append_laws::an_empty_segment_ends_at_0;
use rw_kept_log::{
    Journal, KeptLogDamage, LogEnd, LogReading, ReadEnd, References, ReopenError, SegmentTaker,
    close_torn,
};
use rw_types::RequestPath;
use std::alloc::{AllocError, Global};
use std::marker::Model;

/// The first reference that is not given: a log that has it is refused.
const MAX_REFERENCE: u64 = 1 << 63;

/// A log that was read: the head that it says and its limits, the references that it defines, how
/// it ended, and what is odd of it.
#[derive(Drop)]
struct ReadLog<M: Memory> {
    head: Head<M>,
    limits: Limits,
    references: References,
    end: ReadEnd,
    oddities: Oddities,
}

/// Ends the reading of a log, closes what a crash left of a write, and begins a next segment.
fn open_log<J: Journal, M: Memory>(
    reading: HeadReading<M>,
    journal: &mut J,
) -> Result<ReadLog<M>, OpenError>
    requires synced { Only (J.seen journal.old) (J.may_leave journal.old) }
    requires read { reading.segments ≡ J.seen journal.old }
    ensures says { IfOk result (λ r. SaysWhat (J.seen journal.old) r.head.store) }
    ensures says_still { IfOk result (λ r. SaysWhat (J.seen journal.new) r.head.store) }
    ensures limits { IfOk result (λ r. r.head.limits ≡ reading.setup.limits) }
    ensures busy { IfOk result (λ r. r.head.busy ≡ reading.setup.busy) }
    ensures holds { IfOk result (λ r. MayHold r.head.limits (list_of r.head.store)) }
    ensures noted { IfOk result (λ r. IsNoted (entries_of page_size (J.seen journal.new))
        r.references) }
    ensures none_else { IfOk result (λ r. r.references.fresh ≡ []) }
    ensures end { IfOk result (λ r. IsEnd (J.seen journal.old) r.end) }
    ensures segments { IfOk result (λ r. J.seen journal.new
        ≡ on_last (take r.end.whole) (J.seen journal.old) ++ [] ∷ []) }
    ensures entries { OnOk result (HasSameEntries (J.seen journal.old) (J.seen journal.new)) }
    ensures ends { IfOk result (λ r. EndsAt (J.seen journal.new) 0) }
    ensures synced { IfOk result (λ r. Only (J.seen journal.new) (J.may_leave journal.new)) }
    ensures any_moment { LeavesOnly J.moment J.left_since journal.old journal.new
        (HasSameEntries (J.seen journal.old)) }
    ensures refused { IfErr result (IsRefusedRightly (J.seen journal.old) (J.seen journal.new)) }
    ensures cause { IfErr result (HasOpeningCause reading.setup.limits (J.seen journal.old)) }
    ensures place { IfErr result (HasForeignPlace reading.setup.limits (J.seen journal.old)) }
    ensures failed { IsErrOf result (Log Failed) → J.faults journal.old < J.faults journal.new }
{
    an_empty_segment_ends_at_0();
    let HeadReading { alloc, limits, log } = reading;
    let (restoring, end) = log.finish()?;
    let accepted = restoring.accepted();
    let Some(parts) = restoring.into_parts() else {
        return Err(OpenError::Foreign(accepted));
    };
    if end.greatest >= MAX_REFERENCE {
        return Err(OpenError::NoReferenceLeft);
    }
    let RestoredParts {
        head,
        series,
        mut oddities,
    } = parts;
    let Ok(references) = note_all(alloc, series, end.greatest + 1, &mut oddities) else {
        return Err(OpenError::Log(ReopenError::OutOfMemory));
    };
    close_torn(journal, end.whole)?;
    Ok(ReadLog {
        head,
        limits,
        references,
        end,
        oddities,
    })
}

/// Returns limits that make the same heads as these.
fn limits_of(alloc: Global, limits: &Limits) -> Result<Limits, AllocError>
    ensures limits { IfOk result (λ l. label_limits l ≡ label_limits limits.now) }
    ensures busy { IfOk result (λ l. l.busy_first ≡ limits.now.busy_first) }
{
    Ok(Limits {
        path: RequestPath::api_v1_write(alloc)?,
        max_body_bytes: limits.max_body_bytes,
        names: limits.names,
        max_labels: limits.max_labels,
        max_label_bytes: limits.max_label_bytes,
        busy_first: limits.busy_first,
        snappy: limits.snappy,
    })
}

/// A head that was opened, and what was read of its log.
#[derive(Drop)]
pub struct OpenedHead<J: Journal, M: Memory = AllSamples> {
    pub kept: KeptHead<J, M>,
    /// How many segments were read.
    pub segments: usize,
    /// How the log ended: what a crash had left of a write, which was cut off, and where.
    pub end: ReadEnd,
    /// How often the log has what a log that began with this version never has.
    pub oddities: Oddities,
}

/// Reads the log of a head as its segments are loaded, one after the other, and makes the head that
/// it says. It keeps no segment. Contracts see the segments, and the limits of the head.
#[derive(Drop)]
pub struct HeadReading<M: Memory = AllSamples> {
    alloc: Global,
    limits: Limits,
    log: LogReading<Restoring<M>>,
}

impl<M: Memory> Model for HeadReading<M> {
    ghost use Rattle.std.specs.Prelude.{◌≡◌, false};
    ghost use Rattle.std.specs.Coded.{codes};
    ghost use Rattle.std.specs.FinMap as map;
    ghost use Rattle.rw_kept_head.specs.Admitted.{label_limits};
    ghost use Rattle.rw_kept_head.specs.Reading.{HeadTaken};
    ghost use Rattle.rw_kept_head.specs.inner.Opening.{IsMadeWith};

    ghost Value = { HeadTaken };

    ghost coded = { Prim.hlevel (codes, map.code) };

    ghost view = { λ r. record {
      segments = r.log.segments;
      setup = record { limits = label_limits r.limits; busy = r.limits.busy_first };
    } };

    ghost invariant = { λ r. r.log.failed ≡ false
        → IsMadeWith r.log.sink (label_limits r.limits) r.limits.busy_first };
}

impl HeadReading {
    /// Begins with no segment, for a head with these limits.
    pub fn new(alloc: Global, limits: &Limits) -> Result<HeadReading, AllocError>
        ensures segments { IfOk result (λ r. r.segments ≡ []) }
        ensures limits { IfOk result (λ r. r.setup.limits ≡ label_limits limits.now) }
        ensures busy { IfOk result (λ r. r.setup.busy ≡ limits.now.busy_first) }
    {
        HeadReading::with_memory(alloc, limits, None)
    }
}

impl HeadReading<RecentSamples> {
    /// Begins with no segment, for a head with these limits that may forget. While the log is read,
    /// samples stay in memory for as long as is said.
    pub fn recent(
        alloc: Global,
        limits: &Limits,
        keep: KeepFor,
    ) -> Result<HeadReading<RecentSamples>, AllocError>
        ensures segments { IfOk result (λ r. r.segments ≡ []) }
        ensures limits { IfOk result (λ r. r.setup.limits ≡ label_limits limits.now) }
        ensures busy { IfOk result (λ r. r.setup.busy ≡ limits.now.busy_first) }
    {
        HeadReading::with_memory(alloc, limits, Some(keep))
    }
}

impl<M: Memory> HeadReading<M> {
    /// Begins with no segment, for a head with these limits.
    fn with_memory(
        alloc: Global,
        limits: &Limits,
        keep: Option<KeepFor>,
    ) -> Result<HeadReading<M>, AllocError>
        ensures segments { IfOk result (λ r. r.segments ≡ []) }
        ensures limits { IfOk result (λ r. r.setup.limits ≡ label_limits limits.now) }
        ensures busy { IfOk result (λ r. r.setup.busy ≡ limits.now.busy_first) }
    {
        let own = limits_of(alloc, limits)?;
        let restoring = Restoring::new(alloc, &own, keep);
        Ok(HeadReading {
            alloc,
            limits: own,
            log: LogReading::new(alloc, restoring),
        })
    }

    /// Returns the fault at which reading stops in the last segment, and where a whole record
    /// begins after it, if there are both. The fault may then be damage, and what follows it may
    /// have been acknowledged: `KeptHead::open` cuts it off as the end of a torn write.
    pub fn record_after_fault(&self) -> Option<(KeptLogDamage, usize)>
        ensures { IfSome result (λ r. HasRecordAfter self.now.segments r.0 r.1) }
    {
        self.log.record_after_fault()
    }
}

impl<M: Memory> SegmentTaker for HeadReading<M> {
    ghost use Rattle.rw_kept_head.specs.Reading.{HeadSetup};

    ghost taken = { λ r. r.segments };

    ghost Fixed = { HeadSetup };

    ghost fixed = { λ r. r.setup };

    fn take(&mut self, text: &[u8]) -> Result<(), AllocError> {
        self.log.take(text)
    }
}

impl<J: Journal, M: Memory> KeptHead<J, M> {
    /// Opens a journal with the log of a head, whose segments were read as they were loaded: makes
    /// the head that it says, cuts off what a crash left of a write, and begins a next segment. A
    /// segment has at most `pages` pages of 32 KiB; 4096 are 128 MiB.
    ///
    /// A log that is damaged, or that no head with these limits has written, is refused, and
    /// nothing is changed.
    pub fn open(
        reading: HeadReading<M>,
        journal: J,
        pages: usize,
    ) -> Result<OpenedHead<J, M>, (OpenError, J)>
        // After a restart, what is read is what is on the disk.
        requires synced { Only (J.seen journal) (J.may_leave journal) }
        requires read { reading.segments ≡ J.seen journal }
        requires some { 1 ≤ pages }
        requires most { pages ≤ 4096 }

        // The head has what the log had, and the log still has it.
        ensures says { IfOk result (λ o. SaysWhat (J.seen journal) o.kept.head.store) }
        ensures kept { IfOk result (λ o. KeepsStore (J.may_leave o.kept.journal)
            (J.seen o.kept.journal) o.kept.head.store) }
        ensures open { IfOk result (λ o. o.kept.fault ≡ None) }
        ensures pages { IfOk result (λ o. o.kept.pages ≡ pages) }

        // The head has the limits that it was given, and holds what a head with them may hold.
        ensures limits { IfOk result (λ o. o.kept.head.limits ≡ reading.setup.limits) }
        ensures busy { IfOk result (λ o. o.kept.head.busy ≡ reading.setup.busy) }
        ensures holds { IfOk result (λ o. MayHold o.kept.head.limits (list_of o.kept.head.store)) }

        // What is reported: how many segments there were, and what was cut off.
        ensures count { IfOk result (λ o. o.segments ≡ length (J.seen journal)) }
        ensures end { IfOk result (λ o. IsEnd (J.seen journal) o.end) }
        ensures segments { IfOk result (λ o. J.seen o.kept.journal
            ≡ on_last (take o.end.whole) (J.seen journal) ++ [] ∷ []) }

        // The log defines each label set once if it did so before; so it does after each `admit`.
        ensures once { IfOk result
            (λ o. StaysDefinedOnce (J.seen journal) (J.seen o.kept.journal)) }

        // A crash at any moment leaves a log with the same entries, also if it is not opened.
        ensures any_moment { IfOk result (λ o. LeavesOnly J.moment J.left_since journal
            o.kept.journal (HasSameEntries (J.seen journal))) }
        ensures any_moment_before_an_error { IfErr result (λ e. LeavesOnly J.moment J.left_since
            journal e.1 (HasSameEntries (J.seen journal))) }

        // A log that is refused is as it was, and has the cause that the error says.
        ensures refused { IfErr result
            (λ e. IsRefusedRightly (J.seen journal) (J.seen e.1) e.0) }
        ensures cause { IfErr result
            (λ e. HasOpeningCause reading.setup.limits (J.seen journal) e.0) }
        ensures place { IfErr result
            (λ e. HasForeignPlace reading.setup.limits (J.seen journal) e.0) }
        ensures failed { IfErr result
            (λ e. e.0 ≡ Log Failed → J.faults journal < J.faults e.1) }
    {
        let mut journal = journal;
        let segments = journal.count();
        let alloc = reading.alloc;
        match open_log(reading, &mut journal) {
            Ok(read) => {
                let ReadLog {
                    head,
                    limits,
                    references,
                    end,
                    oddities,
                } = read;
                let log = LogWriter {
                    alloc,
                    journal,
                    references,
                    end: LogEnd::new(pages),
                    pages,
                    fault: None,
                };
                let kept = KeptHead {
                    alloc,
                    limits,
                    head,
                    log,
                };
                kept.log.conforms();
                Ok(OpenedHead {
                    kept,
                    segments,
                    end,
                    oddities,
                })
            }
            Err(error) => Err((error, journal)),
        }
    }
}

//! The log of a head, which is being written.

ghost use Rattle.std.specs.Prelude.{◌≡◌, ◌<◌, ◌≤◌, ◌++◌, true, false, None, Some, map, if◌then◌else◌, IfOk, OnOk, IsErrOf};
ghost use Rattle.std.specs.List.{AllByRecursion};
ghost use Rattle.rw_kept_log.specs.Journal.{with_more, Only, IsBegun, LeavesOnly};
ghost use Rattle.rw_kept_log.specs.declared.journal.JournalError.TheVariants.{Failed};
ghost use Rattle.rw_wal_format.specs.Laws.{sample_entry};
ghost use Rattle.rw_wal_format.specs.Pieces.{page_size};
ghost use Rattle.rw_kept_log.specs.Additions.{definition_entry};
ghost use Rattle.rw_kept_log.specs.Logs.{entries_of, IsWholeText};
ghost use Rattle.rw_kept_log.specs.Ends.{EndsAt};
ghost use Rattle.rw_kept_log.specs.References.{only_defined};
ghost use Rattle.rw_kept_head.specs.Kept.{SaysWhat, IsLastWithin, IsLeft, StaysDefinedOnce};
ghost use Rattle.rw_kept_head.specs.inner.Inner.{ended_if, IsWritable, IsWritten, GoesOn, Keeps};
ghost use Rattle.rw_kept_head.specs.declared.keep_error.KeepError.TheVariants.{Unspelled, Journal};

use crate::added::collect;
use crate::keep_error::KeepError;
use rw_head::{Memory, StagedHead};
use rw_kept_log::append_laws::{a_next_segment_may_begin, new_samples_are_read};
use rw_kept_log::laws::segments_add_up;
use rw_kept_log::{AppendError, Journal, JournalError, LogEnd, References, write_in_pages};
use rw_types::{RawLabels, Word};
use rw_wal_format::PAGE_BYTES;
use std::alloc::Global;
use std::marker::Model;

/// Returns the bytes that add definitions and samples to a log, and where it ends after them.
/// Begins a next segment if the last one has no room for them and is not empty.
fn spell<J: Journal>(
    alloc: Global,
    journal: &mut J,
    end: &mut LogEnd,
    pages: usize,
    definitions: &[(u64, RawLabels)],
    samples: &[(u64, i64, Word)],
) -> Result<(Vec<u8>, LogEnd), KeepError>
    requires some { 1 ≤ pages }
    requires most { pages ≤ 4096 }
    requires pages { end.old.pages ≡ pages }
    requires ends { EndsAt (J.seen journal.old) end.old.offset }
    requires synced { Only (J.seen journal.old) (J.may_leave journal.old) }

    ensures entries { IfOk result (λ r.
        entries_of page_size (with_more (J.seen journal.new) r.0.items)
        ≡ entries_of page_size (J.seen journal.new)
        ++ map definition_entry definitions.now ++ map sample_entry samples.now) }
    ensures end { IfOk result
        (λ r. EndsAt (with_more (J.seen journal.new) r.0.items) r.1.offset) }
    ensures ok { OnOk result (GoesOn (J.seen journal.old) (J.seen journal.new)
        (J.may_leave journal.new) end.new.offset) }
    ensures unspelled { IsErrOf result Unspelled → GoesOn (J.seen journal.old) (J.seen journal.new)
        (J.may_leave journal.new) end.new.offset }
    ensures any_moment { LeavesOnly J.moment J.left_since journal.old journal.new
        (IsBegun (J.seen journal.old)) }
    ensures failed { IsErrOf result (Journal Failed) → J.faults journal.old < J.faults journal.new }
    ensures faults { J.faults journal.old ≤ J.faults journal.new }

    // Each segment gets the pages that are asked for.
    ensures pages { end.new.pages ≡ pages }
    ensures pages_after { IfOk result (λ r. r.1.pages ≡ pages) }
{
    a_next_segment_may_begin();
    segments_add_up();
    match end.append(alloc, definitions, samples) {
        Ok(spelled) => return Ok(spelled),
        Err(AppendError::SegmentFull) if end.offset() > 0 => {}
        Err(_) => return Err(KeepError::Unspelled),
    }
    journal.begin()?;
    *end = LogEnd::new(pages);
    match end.append(alloc, definitions, samples) {
        Ok(spelled) => Ok(spelled),
        Err(_) => Err(KeepError::Unspelled),
    }
}

/// Writes what a staged message adds to the end of a log, and syncs it.
fn write_added<J: Journal, M: Memory>(
    alloc: Global,
    journal: &mut J,
    references: &mut References,
    end: &mut LogEnd,
    pages: usize,
    staged: &StagedHead<M>,
) -> Result<(), KeepError>
    requires some { 1 ≤ pages }
    requires most { pages ≤ 4096 }
    requires pages { end.old.pages ≡ pages }
    requires writable { IsWritable (J.seen journal.old) (J.may_leave journal.old) references.old
        end.old.offset }
    requires says { SaysWhat (J.seen journal.old) staged.now.before.store }
    ensures ok { OnOk result (Keeps (J.seen journal.new) (J.may_leave journal.new) references.new
        end.new.offset staged.now.after.store) }
    ensures unspelled { IsErrOf result Unspelled → Keeps (J.seen journal.new)
        (J.may_leave journal.new) (only_defined references.new) end.new.offset
        staged.now.before.store }
    ensures any_moment { LeavesOnly J.moment J.left_since journal.old journal.new
        (IsLeft J.tears (ended_if result (J.seen journal.new)) staged.now.after.store
        (J.seen journal.old)) }
    ensures failed { IsErrOf result (Journal Failed) → J.faults journal.old < J.faults journal.new }
    ensures pages { end.new.pages ≡ pages }

    // A definition is written once, and a label set keeps its reference.
    ensures written { OnOk result (IsWritten references.old references.new
        (entries_of page_size (J.seen journal.old)) (entries_of page_size (J.seen journal.new))) }
    ensures undone { IsErrOf result Unspelled → only_defined references.new ≡ references.old }
    ensures once { OnOk result (StaysDefinedOnce (J.seen journal.old) (J.seen journal.new)) }
    ensures once_unspelled { IsErrOf result Unspelled
        → StaysDefinedOnce (J.seen journal.old) (J.seen journal.new) }
{
    new_samples_are_read();
    let samples = collect(alloc, references, staged)?;
    let definitions = references.undefined(alloc)?;
    let (bytes, after) = spell(alloc, journal, end, pages, &definitions, &samples)?;
    after.conforms();
    write_in_pages(journal, PAGE_BYTES, end.offset(), &bytes)?;
    references.commit();
    *end = after;
    Ok(())
}

/// Writes the log of a head to a journal. Contracts see the journal, the references, where the log
/// ends, the most pages of a segment, and the fault after which nothing is written any more.
#[derive(Drop)]
pub(crate) struct LogWriter<J: Journal> {
    pub(crate) alloc: Global,
    pub(crate) journal: J,
    pub(crate) references: References,
    pub(crate) end: LogEnd,
    pub(crate) pages: usize,
    pub(crate) fault: Option<JournalError>,
}

impl<J: Journal> Model for LogWriter<J> {
    ghost use Rattle.std.specs.Prelude.{◌≡◌, ◌≤◌, None};
    ghost use Rattle.rw_kept_head.specs.inner.Inner.{Writing, IsWritable};

    ghost Value = { Writing J };

    ghost view = { λ w. record {
      journal = w.journal;
      references = w.references;
      end = w.end;
      pages = w.pages;
      fault = w.fault;
    } };

    ghost invariant = { λ w. (1 ≤ w.pages) × (w.pages ≤ 4096) × (w.end.pages ≡ w.pages)
        × (w.fault ≡ None
        → IsWritable (J.seen w.journal) (J.may_leave w.journal) w.references w.end.offset) };
}

impl<J: Journal> LogWriter<J> {
    /// Law: if nothing has failed, the segments are whole, no other log is on the disk, and the
    /// last segment has no more bytes than its pages. The call does nothing.
    pub(crate) fn conforms(&self)
        ensures whole { self.now.fault ≡ None
            → AllByRecursion (IsWholeText page_size) (J.seen self.now.journal) }
        ensures synced { self.now.fault ≡ None
            → Only (J.seen self.now.journal) (J.may_leave self.now.journal) }
        ensures last { self.now.fault ≡ None
            → IsLastWithin self.now.pages (J.seen self.now.journal) }
    {
        a_next_segment_may_begin();
        self.end.conforms();
    }

    /// Returns the fault after which nothing is written any more, if there was one.
    pub(crate) fn fault(&self) -> Option<JournalError>
        ensures { result ≡ self.now.fault }
    {
        self.fault
    }

    /// Writes what a staged message adds, and syncs it. Returns whether that succeeded.
    pub(crate) fn keep<M: Memory>(&mut self, staged: &StagedHead<M>) -> bool
        requires open { self.old.fault ≡ None }
        requires says { SaysWhat (J.seen self.old.journal) staged.now.before.store }
        ensures open { result ≡ true → self.new.fault ≡ None }
        ensures kept { result ≡ true → SaysWhat (J.seen self.new.journal) staged.now.after.store }
        ensures unkept { result ≡ false → self.new.fault ≡ None
            → SaysWhat (J.seen self.new.journal) staged.now.before.store }
        ensures any_moment { LeavesOnly J.moment J.left_since self.old.journal self.new.journal
            (IsLeft J.tears (if result then Some (J.seen self.new.journal) else None)
            staged.now.after.store (J.seen self.old.journal)) }
        ensures failed { self.new.fault ≡ Some Failed
            → J.faults self.old.journal < J.faults self.new.journal }
        ensures pages { self.new.pages ≡ self.old.pages }
        ensures written { result ≡ true → IsWritten self.old.references self.new.references
            (entries_of page_size (J.seen self.old.journal))
            (entries_of page_size (J.seen self.new.journal)) }
        ensures forgotten { result ≡ false → self.new.fault ≡ None
            → self.new.references ≡ self.old.references }
        ensures once { self.new.fault ≡ None
            → StaysDefinedOnce (J.seen self.old.journal) (J.seen self.new.journal) }
    {
        let written = write_added(
            self.alloc,
            &mut self.journal,
            &mut self.references,
            &mut self.end,
            self.pages,
            staged,
        );
        match written {
            Ok(()) => true,
            Err(KeepError::Unspelled) => {
                self.references.abort();
                false
            }
            Err(KeepError::Journal(error)) => {
                self.fault = Some(error);
                false
            }
        }
    }
}

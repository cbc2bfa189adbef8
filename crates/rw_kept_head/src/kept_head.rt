//! A head whose log is in a journal.

ghost use Rattle.std.specs.Prelude.{◌≡◌, ◌≢◌, ◌<◌, ◌≤◌, ◌⊎◌, None, Some, true, IfOk};
ghost use Rattle.rw_types.specs.Beginnings.{Begins};
ghost use Rattle.rw_types.specs.Labels.{Labels};
ghost use Rattle.rw_kept_log.specs.Journal.{LeavesOnly};
ghost use Rattle.rw_kept_log.specs.declared.journal.JournalError.{JournalError};
ghost use Rattle.rw_kept_log.specs.declared.journal.JournalError.TheVariants.{Failed};
ghost use Rattle.rw_head.specs.declared.capacity.Admission.TheVariants.{Full};
ghost use Rattle.rw_head.specs.Capacity.{exceeds, status_of_admission, unlimited, StaysWithin};
ghost use Rattle.rw_head.specs.Growth.{EachRises, HasStoredBody};
ghost use Rattle.rw_head.specs.Head.{answer, IsStatus, SpellsMessage};
ghost use Rattle.rw_head.specs.Partial.{takeable};
ghost use Rattle.rw_head.specs.Store.{list_of, total};
ghost use Rattle.rw_kept_head.specs.Kept.{ended_with, KeepsStore, IsLastWithin, IsLeft, StaysDefinedOnce};

use crate::admit_kept::admit_kept;
use crate::log_writer::LogWriter;
use rw_head::{Admission, AllSamples, Capacity, Head, InMemory, Limits, Memory};
use rw_kept_log::{Journal, JournalError};
use rw_write_request::Message;
use std::alloc::{AllocError, Global};
use std::marker::Model;
use std::mem;

/// A head whose samples are in a journal, as a log. Contracts see the head, the journal, the most
/// pages of a segment, and the fault after which nothing more is kept. Samples of a head with the
/// memory `RecentSamples` may be gone from memory; they are in the journal all the same.
#[derive(Drop)]
pub struct KeptHead<J: Journal, M: Memory = AllSamples> {
    pub(crate) alloc: Global,
    pub(crate) limits: Limits,
    pub(crate) head: Head<M>,
    pub(crate) log: LogWriter<J>,
}

impl<J: Journal, M: Memory> Model for KeptHead<J, M> {
    ghost use Rattle.std.specs.Prelude.{◌≡◌, None};
    ghost use Rattle.std.specs.Coded.{codes};
    ghost use Rattle.std.specs.FinMap as map;
    ghost use Rattle.rw_kept_head.specs.Kept.{Kept, SaysWhat};

    ghost Value = { Kept J };

    ghost coded = { Prim.hlevel (codes, map.code) };

    ghost view = { λ k. record {
      head = k.head;
      journal = k.log.journal;
      pages = k.log.pages;
      fault = k.log.fault;
    } };

    ghost invariant = { λ k. k.log.fault ≡ None → SaysWhat (J.seen k.log.journal) k.head.store };
}

impl<J: Journal, M: Memory> KeptHead<J, M> {
    /// Answers the body of a request as `Head::admit` does, and 204 only once all samples that it
    /// brings are in the journal and synced.
    ///
    /// 503 means that the head is full, that memory ran out, or that a call of the journal failed.
    /// What the head holds is then as it was. After a failed call of the journal no request is
    /// answered 204, until the journal is opened again: one that the head would take is answered
    /// 503.
    pub fn admit(&mut self, body: &[u8], capacity: &Capacity) -> Admission
        // The answer is that of a head without a journal, or 503.
        ensures status { status_of_admission result ≢ 503
            → status_of_admission result ≡ (answer self.old.head body.now).status }
        ensures head { status_of_admission result ≢ 503
            → self.new.head ≡ (answer self.old.head body.now).head }
        ensures unavailable { status_of_admission result ≡ 503
            → (self.new.head ≡ self.old.head) × (self.old.head.busy ≡ 0) }
        ensures readable { status_of_admission result ≡ 503 → SpellsMessage body.now }
        ensures statuses { IsStatus (status_of_admission result) }
        ensures refused { status_of_admission result ≢ 204
            → self.new.head.store ≡ self.old.head.store }
        ensures taken { status_of_admission result ≡ 204
            → HasStoredBody body.now self.old.head.store self.new.head.store }
        ensures more { total self.old.head.store ≤ total self.new.head.store }
        ensures rises { EachRises self.new.head.store }
        ensures within { StaysWithin capacity.now self.old.head.store self.new.head.store }
        ensures full { result ≡ Full → exceeds capacity.now self.old.head.store
            (answer self.old.head body.now).head.store ≡ true }
        ensures limited { result ≡ Full → capacity.now ≢ unlimited }

        // What is held is in the journal, and survives every crash from now on.
        ensures acknowledged { status_of_admission result ≡ 204
            → KeepsStore (J.may_leave self.new.journal)
            (J.seen self.new.journal) self.new.head.store }
        ensures kept { self.new.fault ≡ None → KeepsStore (J.may_leave self.new.journal)
            (J.seen self.new.journal) self.new.head.store }

        // A crash at any moment leaves what was held, and after it a torn part of what is to be
        // held: of just the bytes that are in the journal once the answer is 204.
        ensures any_moment { self.old.fault ≡ None
            → LeavesOnly J.moment J.left_since self.old.journal self.new.journal
            (IsLeft J.tears (ended_with (status_of_admission result) (J.seen self.new.journal))
            (answer self.old.head body.now).head.store (J.seen self.old.journal)) }
        ensures begins { (l : Labels) → Begins (list_of self.old.head.store l)
            (list_of (answer self.old.head body.now).head.store l) }

        // No label set is defined again: the log defines each one once if it did so before.
        ensures once { self.new.fault ≡ None
            → StaysDefinedOnce (J.seen self.old.journal) (J.seen self.new.journal) }

        // No segment gets more pages than were asked for.
        ensures pages { self.new.pages ≡ self.old.pages }
        ensures last { self.new.fault ≡ None
            → IsLastWithin self.new.pages (J.seen self.new.journal) }

        // After a fault of the journal nothing more is kept, and there is none without a cause.
        ensures closed { (e : JournalError) → self.old.fault ≡ Some e
            → (status_of_admission result ≢ 204)
            × (self.new.journal ≡ self.old.journal) × (self.new.fault ≡ self.old.fault) }
        ensures failed { self.new.fault ≡ Some Failed → (self.old.fault ≡ Some Failed)
            ⊎ (J.faults self.old.journal < J.faults self.new.journal) }
    {
        let blank = Head::with_memory(self.alloc, &self.limits);
        let head = mem::replace(&mut self.head, blank);
        let (head, admission) = admit_kept(head, &mut self.log, body, capacity);
        self.head = head;
        self.log.conforms();
        admission
    }

    /// Returns what the head can take of a message, as `Head::takeable` does. Nothing is written.
    pub fn takeable(&mut self, message: Message) -> Result<Message, AllocError>
        ensures same { self.new ≡ self.old }
        ensures takeable { IfOk result (λ m. m
            ≡ takeable self.old.head.limits self.old.head.store message) }
    {
        self.head.takeable(message)
    }

    /// Lets samples go from memory that are earlier than `before`, in milliseconds since the Unix
    /// epoch, as `Head::forget` does. What is in the journal stays there. Returns what is left in
    /// memory.
    pub fn forget(&mut self, before: i64) -> InMemory
        ensures { self.new ≡ self.old }
    {
        self.head.forget(before)
    }

    /// Returns the head.
    pub fn head(&self) -> &Head<M>
        ensures { result.now ≡ self.now.head }
    {
        &self.head
    }

    /// Returns the journal.
    pub fn journal(&self) -> &J
        ensures { result.now ≡ self.now.journal }
    {
        &self.log.journal
    }

    /// Returns the journal, for a caller that opens it again.
    pub fn into_journal(self) -> J
        ensures { result ≡ self.journal }
    {
        let KeptHead {
            alloc: _,
            limits: _,
            head: _,
            log,
        } = self;
        let LogWriter {
            alloc: _,
            journal,
            references: _,
            end: _,
            pages: _,
            fault: _,
        } = log;
        journal
    }

    /// Returns the fault after which nothing more is kept, if there was one.
    pub fn fault(&self) -> Option<JournalError>
        ensures fault { result ≡ self.now.fault }
        ensures kept { result ≡ None → KeepsStore (J.may_leave self.now.journal)
            (J.seen self.now.journal) self.now.head.store }
    {
        self.log.conforms();
        self.log.fault()
    }
}

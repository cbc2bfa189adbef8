//! The entries of a log, one after the other.

ghost use Rattle.std.specs.Prelude.{◌≡◌, ◌≢◌, ◌⊎◌, ◌<◌, ◌≤◌, ◌^◌, ◌++◌, ◌∷◌, [], length, Some, OnOk, OnErr, IfOk, IfSome};
ghost use Rattle.rw_types.specs.Beginnings.{Begins};
ghost use Rattle.rw_types.specs.declared.entry.Entry.{Entry};
ghost use Rattle.rw_external_labels.specs.External.{labelled_entry};
ghost use Rattle.rw_wal_format.specs.Pieces.{entries};
ghost use Rattle.rw_wal_tail.specs.Fed.{piece_of, size_of};
ghost use Rattle.rw_wal_tail.specs.Places.{fault_place};
ghost use Rattle.rw_series_cache.specs.Routing.{TakesMemory};
ghost use Rattle.rw_sender.specs.Logs.{named, dropped, filtered};
ghost use Rattle.rw_wal_tail.specs.Taking.{HasTaken};
ghost use Rattle.rw_sender.specs.Feeders.{log_of, ReadsNext, IsDropped, IsDroppedSample, IsToBeSent, Judges, HasPlaced};

use rw_external_labels::ExternalLabels;
use rw_history::History;
use rw_ledger::{Ledger, Reason};
use rw_relabel::Choice;
use rw_series_cache::{Routed, RoutedSample, Router};
use rw_types::Entry;
use rw_wal_tail::{FaultPlace, Piece, SkippedType, Tail, TailFault, is_out_of_memory};
use std::alloc::{AllocError, Global};
use std::marker::Model;

/// What comes next in a log.
#[derive(Debug, Drop)]
pub enum Next {
    /// An entry, which is to be placed.
    Entry(Entry),
    /// Nothing, as far as the log has come.
    End,
    /// Nothing any more: the log has this fault.
    Damaged(TailFault),
}

/// Reads the entries of a log and routes them: it names the samples that are dropped, counts those
/// whose series the rules drop, and returns the others with their series.
///
/// It keeps no sample. Contracts see the rules, the external labels, the pieces of the log, the
/// entries that were placed, and those that were read and are to be placed; these entries have the
/// external labels.
#[derive(Drop)]
pub struct Feeder {
    alloc: Global,
    tail: Tail,
    labels: ExternalLabels,
    router: Router,
    part: Ledger,
    /// How many entries were placed.
    count: u64,
    /// The latest timestamp of the samples that were put, or the earliest that there can be.
    newest: i64,
    read: History<Entry>,
}

impl Model for Feeder {
    ghost use Rattle.std.specs.Prelude.{take, drop};
    ghost use Rattle.rw_sender.specs.Feeders.{Sorting};
    ghost use Rattle.rw_sender.specs.inner.Feeders.{IsFeeder};
    ghost use Rattle.rw_external_labels.specs.External.{labelled};

    ghost Value = { Sorting };

    ghost view = { λ f. record {
      choice = f.router.cache.choice;
      labels = f.labels;
      pieces = f.tail.pieces;
      placed = labelled f.labels (take f.count f.read);
      hand = labelled f.labels (drop f.count f.read);
    } };

    ghost invariant = { λ f. IsFeeder f.labels f.tail f.router f.part.names f.count (take f.count f.read)
        (drop f.count f.read) };
}

impl Feeder {
    /// Returns a feeder before the first piece of a log. This takes no memory.
    pub fn new(alloc: Global, choice: Choice) -> Feeder
        ensures { result
            ≡ record { choice = choice; labels = []; pieces = []; placed = []; hand = [] } }
    {
        Feeder::with_tail(alloc, choice, ExternalLabels::none(), Tail::new(alloc))
    }

    /// Returns a feeder that adds these labels, and reads a log with this reader, of which nothing
    /// was taken. This takes no memory.
    pub(crate) fn with_tail(
        alloc: Global,
        choice: Choice,
        labels: ExternalLabels,
        tail: Tail,
    ) -> Feeder
        requires { HasTaken tail [] }
        ensures { result
            ≡ record {
              choice = choice;
              labels = labels;
              pieces = tail.pieces;
              placed = [];
              hand = [];
            } }
    {
        Feeder {
            alloc,
            tail,
            labels,
            router: Router::new(alloc, choice),
            part: Ledger::new(alloc),
            count: 0,
            newest: i64::MIN,
            read: History::new(),
        }
    }

    /// Takes the next piece of the log.
    pub fn feed(&mut self, piece: &Piece) -> Result<(), AllocError>
        ensures ok { OnOk result
            (self.new ≡ record self.old { pieces = self.old.pieces ++ piece_of piece.now ∷ [] }) }
        ensures err { OnErr result (self.new ≡ self.old) }
    {
        self.tail.feed_piece(piece)
    }

    /// Returns the next entry as it is in the log. It is to be placed with the external labels, as
    /// `label` returns it.
    pub fn read(&mut self) -> Result<Next, AllocError>
        requires { self.old.hand ≡ [] }
        ensures ok { IfOk result (λ next. ReadsNext self.old self.new next) }
        ensures err { OnErr result (self.new ≡ self.old) }
        ensures certain { OnErr result ((length self.old.placed < length (entries self.old.pieces))
            ⊎ (2 ^ 60 ≤ size_of self.old.pieces)) }
    {
        match self.tail.next_entry() {
            Ok(Some(entry)) => {
                self.read.push(&entry);
                Ok(Next::Entry(entry))
            }
            Ok(None) => Ok(Next::End),
            Err(fault) => {
                if is_out_of_memory(fault) {
                    return Err(AllocError);
                }
                Ok(Next::Damaged(fault))
            }
        }
    }

    /// Returns an entry with the external labels. Without external labels this takes no memory.
    pub fn label(&self, entry: Entry) -> Result<Entry, AllocError>
        ensures ok { IfOk result (λ e. e ≡ labelled_entry self.now.labels entry) }
        ensures free { OnErr result (self.now.labels ≢ []) }
    {
        self.labels.label(self.alloc, entry)
    }

    /// Returns where the fault is that `read` has reported, or `None` before it has reported one.
    pub fn fault_place(&self) -> Option<FaultPlace>
        ensures { IfSome result (λ place. fault_place self.now.pieces ≡ Some place) }
    {
        self.tail.fault_place()
    }

    /// Names the sample that comes next as dropped, for `reason`.
    fn name(&mut self, reason: Reason) -> Result<(), AllocError>
        requires { IsDropped self.old reason }
        ensures ok { OnOk result (HasPlaced self.old self.new) }
        ensures err { OnErr result (self.new ≡ self.old) }
    {
        self.part.room(1)?;
        self.part.name(self.count, reason);
        self.count = self.tail.entries_read();
        Ok(())
    }

    /// Notes that the sample that `place` returned was put: one of the series of this number, at
    /// this time.
    pub fn sent(&mut self, series: u64, t: i64)
        requires { IsToBeSent self.old series t }
        ensures { HasPlaced self.old self.new }
    {
        self.router.sent(series, t);
        self.newest = self.newest.max(t);
        self.count = self.tail.entries_read();
    }

    /// Places the entry that was read, or returns the sample that is to be sent.
    pub fn place(&mut self, entry: Entry) -> Result<Option<RoutedSample>, AllocError>
        requires { self.old.hand ≡ entry ∷ [] }
        ensures ok { IfOk result (λ found. Judges self.old self.new entry found) }
        ensures err { OnErr result (self.new ≡ self.old) }
        ensures sound { OnErr result (TakesMemory self.old.choice self.old.placed entry
            ⊎ IsDroppedSample self.old) }
    {
        let read = self.tail.entries_read();
        match self.router.place(self.count, entry)? {
            Routed::Placed => {
                self.count = read;
                Ok(None)
            }
            Routed::Dropped(reason) => {
                self.name(reason)?;
                Ok(None)
            }
            Routed::Sample(sample) => Ok(Some(sample)),
        }
    }

    /// Returns how many entries were placed.
    pub fn count(&self) -> u64
        ensures { result ≡ length self.now.placed }
    {
        self.count
    }

    /// Returns how many records of a type the log reader has skipped.
    pub fn skipped_of(&self, kind: SkippedType) -> u64 {
        self.tail.skipped_of(kind)
    }

    /// Returns the latest timestamp of the samples for which `sent` was called, in milliseconds. It
    /// is best effort: no clause says what it is.
    pub fn newest(&self) -> i64 {
        self.newest
    }

    /// Returns the samples that were dropped so far. This takes no memory, and constant time.
    pub fn dropped(&self) -> &Ledger
        ensures { result.now.names ≡ named (dropped self.now.choice self.now.placed) }
    {
        &self.part
    }

    /// Returns how many samples were placed so far whose series the rules drop.
    pub fn filtered(&self) -> u64
        ensures { result ≡ length (filtered self.now.choice self.now.placed) }
    {
        self.router.filtered()
    }

    /// Returns the samples that were dropped, and how many samples were placed whose series the
    /// rules drop.
    pub fn finish(self) -> (Ledger, u64)
        ensures names { result.0.names ≡ named (dropped self.choice self.placed) }
        ensures filtered { result.1 ≡ length (filtered self.choice self.placed) }
        ensures begins { Begins (self.placed ++ self.hand) (log_of self) }
    {
        let Feeder { part, router, .. } = self;
        (part, router.filtered())
    }
}

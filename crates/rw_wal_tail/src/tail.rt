//! Follows a log that grows.

ghost use Rattle.std.specs.Prelude.{◌≡◌, ◌⊎◌, ◌≤◌, ◌<◌, ◌^◌, List, [], ◌∷◌, ◌++◌, length, Err, Some, None, IfOk, OnOk, OnErr};
ghost use Rattle.rw_types.specs.declared.entry.Entry.{Entry};
ghost use Rattle.rw_wal_format.specs.Laws.{Extends};
ghost use Rattle.rw_wal_format.specs.Pieces.{bytes, next_segment, may_compress, entries, fault, page_size, reading};
ghost use Rattle.rw_wal_format.specs.Skipped.{count_of};
ghost use Rattle.rw_wal_format.specs.declared.tail_fault.TailFault.{TailFault};
ghost use Rattle.rw_wal_format.specs.declared.tail_fault.TailFault.TheVariants.{OutOfMemory};
ghost use Rattle.rw_wal_tail.specs.Fed.{next_of, after_answer, size_of, piece_of, is_out_of_memory, CutsDoNotMatter};
ghost use Rattle.rw_wal_tail.specs.Places.{told_place};
ghost use Rattle.rw_wal_tail.specs.Taking.{HasTaken, TakesNext};

use crate::input::COUNT_END;
use crate::piece::{Piece, Told};
use crate::place::FaultPlace;
use crate::reader::{Reader, Step};
use crate::skips::Skips;
use rw_history::History;
use rw_types::Entry;
use rw_wal_format::{SkippedType, TailFault};
use std::alloc::{AllocError, Global};
use std::marker::Model;

/// Returns whether the fault is `OutOfMemory`, which is not one of the log.
pub fn is_out_of_memory(fault: TailFault) -> bool
    ensures { result ≡ is_out_of_memory fault }
{
    match fault {
        TailFault::OutOfMemory => true,
        _ => false,
    }
}

/// Follows a Prometheus write-ahead log (wal.md) that comes in pieces, and returns its entries.
///
/// It holds what it was fed and has not read yet, and one record. Contracts see the pieces that it
/// was fed, how many entries it has returned, how many records it had skipped when it last found no
/// entry, and the fault that it has reported.
#[derive(Drop)]
pub struct Tail {
    reader: Reader,
    pieces: History<Told>,
    given: History<Entry>,
    count: u64,
    skipped: Skips,
    /// The fault that was reported, if one was.
    told: Option<TailFault>,
}

impl Model for Tail {
    ghost use Rattle.std.specs.Prelude.{map};
    ghost use Rattle.rw_wal_tail.specs.Fed.{Fed};

    ghost Value = { Fed };

    ghost use Rattle.rw_wal_tail.specs.Fed.{told_of};
    ghost use Rattle.rw_wal_tail.specs.inner.Fed.{IsTail};

    ghost view = { λ t. record {
      pieces = map told_of t.pieces;
      given = t.count;
      skipped = t.skipped;
      fault = t.told;
    } };

    ghost invariant = { λ t. IsTail t.reader (map told_of t.pieces) t.given t.count t.told };
}

impl Tail {
    /// Returns a reader at the start of a segment, which was fed nothing. This takes no memory.
    pub fn new(alloc: Global) -> Tail
        ensures new { result ≡ record { pieces = []; given = 0; skipped = []; fault = None } }
        ensures taken { HasTaken result [] }
    {
        Tail {
            reader: Reader::new(alloc),
            pieces: History::new(),
            given: History::new(),
            count: 0,
            skipped: Skips::new(),
            told: None,
        }
    }

    /// Returns a reader at the start of a log that may have records that are Snappy blocks, as
    /// Prometheus writes them by default. It takes memory for one decoded record, `MOST_DECODED`
    /// bytes, so that no fault and no end of the log waits for memory later.
    pub fn for_compressed(alloc: Global) -> Result<Tail, AllocError>
        ensures new { IfOk result (λ t. t
            ≡ record { pieces = may_compress ∷ []; given = 0; skipped = []; fault = None }) }
        ensures taken { IfOk result (λ t. HasTaken t []) }
    {
        let reader = Reader::for_compressed(alloc)?;
        let mut pieces = History::new();
        pieces.push(&Told::MayCompress);
        Ok(Tail {
            reader,
            pieces,
            given: History::new(),
            count: 0,
            skipped: Skips::new(),
            told: None,
        })
    }

    /// Takes more bytes of the current segment, cut anywhere. An `Err` changes nothing; it is also
    /// the result if a count would reach 2^60.
    pub fn feed(&mut self, piece: &[u8]) -> Result<(), AllocError>
        ensures ok { OnOk result
            (self.new ≡ record self.old { pieces = self.old.pieces ++ bytes piece.now ∷ [] }) }
        ensures err { OnErr result (self.new ≡ self.old) }
        ensures goes_on { OnOk result
            (Extends (reading page_size self.old.pieces) (reading page_size self.new.pieces)) }
        ensures cut_anywhere { OnOk result
            (CutsDoNotMatter self.old.pieces self.new.pieces piece.now) }
        ensures taken { OnOk result
            ((taken : List Entry) → HasTaken self.old taken → HasTaken self.new taken) }
    {
        self.reader.feed(piece)?;
        self.pieces.push(&Told::Bytes(History::of(piece)));
        Ok(())
    }

    /// Ends the current segment: what comes next belongs to the next one. This takes no memory.
    pub fn next_segment(&mut self)
        ensures next { self.new
            ≡ record self.old { pieces = self.old.pieces ++ next_segment ∷ [] } }
        ensures goes_on { Extends (reading page_size self.old.pieces)
            (reading page_size self.new.pieces) }
        ensures taken { (taken : List Entry) → HasTaken self.old taken → HasTaken self.new taken }
    {
        self.reader.next_segment();
        self.pieces.push(&Told::NextSegment);
    }

    /// Takes the next piece of the log. An `Err` changes nothing.
    pub fn feed_piece(&mut self, piece: &Piece) -> Result<(), AllocError>
        ensures ok { OnOk result
            (self.new ≡ record self.old { pieces = self.old.pieces ++ piece_of piece.now ∷ [] }) }
        ensures err { OnErr result (self.new ≡ self.old) }
        ensures goes_on { OnOk result
            (Extends (reading page_size self.old.pieces) (reading page_size self.new.pieces)) }
        ensures taken { OnOk result
            ((taken : List Entry) → HasTaken self.old taken → HasTaken self.new taken) }
    {
        match piece {
            Piece::Bytes(bytes) => self.feed(bytes),
            Piece::NextSegment => {
                self.next_segment();
                Ok(())
            }
        }
    }

    /// Returns the next entry, or `None` if what was fed ends before another one. A fault is
    /// reported after all entries before it, and then again by each later call.
    ///
    /// After `OutOfMemory` the same call may be made again. It is also the result if a count would
    /// reach 2^60.
    pub fn next_entry(&mut self) -> Result<Option<Entry>, TailFault>
        ensures answer { (result ≡ Err OutOfMemory)
            ⊎ (result ≡ next_of self.old.pieces self.old.given) }
        ensures after { self.new ≡ after_answer self.old result }
        ensures stays { (f : TailFault) → self.old.fault ≡ Some f → result ≡ Err f }
        ensures takes { (taken : List Entry) → HasTaken self.old taken
            → TakesNext taken result self.new }
        ensures pieces { self.new.pieces ≡ self.old.pieces }

        // Memory runs out only if an entry comes next, or if a count has come to its end: neither a
        // fault nor the end of the log waits for memory.
        ensures certain { result ≡ Err OutOfMemory
            → (self.old.given < length (entries self.old.pieces))
            ⊎ (2 ^ 60 ≤ size_of self.old.pieces) }
    {
        if let Some(fault) = self.told {
            self.skipped = self.reader.passed.again();
            return Err(fault);
        }
        match self.reader.run() {
            Err(AllocError) => Err(TailFault::OutOfMemory),
            Ok(Step::Waits) => {
                self.skipped = self.reader.passed.again();
                Ok(None)
            }
            Ok(Step::Failed(fault)) => {
                self.skipped = self.reader.passed.again();
                self.told = Some(fault);
                Err(fault)
            }
            Ok(Step::More) => {
                if self.count + 1 == COUNT_END {
                    return Err(TailFault::OutOfMemory);
                }
                let entry = self.reader.take_entry();
                self.given.push(&entry);
                self.count += 1;
                Ok(Some(entry))
            }
        }
    }

    /// Returns how many entries were returned.
    pub fn entries_read(&self) -> u64
        ensures count { result ≡ self.now.given }
        ensures within { result ≤ length (entries self.now.pieces) }
        ensures small { result < 2 ^ 60 }
    {
        self.count
    }

    /// Returns how many records were skipped, since they are empty or of another type, up to the
    /// point at which `next_entry` last found no entry.
    pub fn skipped(&self) -> u64
        ensures { result ≡ length self.now.skipped }
    {
        self.skipped.len()
    }

    /// Returns how many of these records are of a type. The numbers of all types add up to
    /// `skipped`.
    pub fn skipped_of(&self, kind: SkippedType) -> u64
        ensures { result ≡ count_of kind self.now.skipped }
    {
        self.skipped.count_of(kind)
    }

    /// Returns where the fault is that `next_entry` has reported, or `None` before it has reported
    /// one. This takes no memory.
    pub fn fault_place(&self) -> Option<FaultPlace>
        ensures place { result ≡ told_place self.now.fault self.now.pieces }
        ensures is_fault { (f : TailFault) → self.now.fault ≡ Some f
            → fault self.now.pieces ≡ Some f }
    {
        match self.told {
            Some(_) => Some(self.reader.place()),
            None => None,
        }
    }

    /// Returns a copy of the reader, at the same place, for a caller who may have to go back.
    pub fn copy(&self) -> Result<Tail, AllocError>
        ensures { IfOk result (λ t. t ≡ self.now) }
    {
        Ok(Tail {
            reader: self.reader.copy()?,
            pieces: self.pieces.again(),
            given: self.given.again(),
            count: self.count,
            skipped: self.skipped.again(),
            told: self.told,
        })
    }
}

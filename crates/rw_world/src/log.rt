//! The log, as far as it was read.

ghost use Rattle.std.specs.Prelude.{◌≡◌, ◌<◌, ◌+◌, ◌^◌, ◌++◌, ◌∷◌, [], Some, length, take, slice_get, IfOk, OnOk, OnErr};
ghost use Rattle.rw_wal_format.specs.Laws.{Extends};
ghost use Rattle.rw_wal_format.specs.Pieces.{entries, fault, reading, page_size};
ghost use Rattle.rw_wal_tail.specs.Fed.{piece_of};
ghost use Rattle.rw_wal_tail.specs.Taking.{HasTaken, HasTakenAll};
ghost use Rattle.rw_world.specs.Positions.{ahead_of};

use rw_types::Entry;
use rw_wal_format::TailFault;
use rw_wal_tail::{Piece, Tail, is_out_of_memory};
use std::alloc::{AllocError, Global};
use std::marker::Model;

/// A log that comes in pieces, and its entries. Contracts see the pieces.
#[derive(Drop)]
pub struct LogInPieces {
    alloc: Global,
    tail: Tail,
    entries: Vec<Entry>,
    fault: Option<TailFault>,
}

impl Model for LogInPieces {
    ghost use Rattle.std.specs.Prelude.{List};
    ghost use Rattle.rw_wal_format.specs.Pieces.{Piece};
    ghost use Rattle.rw_wal_tail.specs.Taking.{HasTakenAll};

    ghost Value = { List Piece };

    ghost view = { λ l. l.tail.pieces };

    ghost invariant = { λ l. HasTakenAll l.tail l.entries.items l.fault };
}

/// What comes at a position of a log.
#[derive(Clone, Copy)]
pub enum Ahead {
    /// No entry: the log is not read that far, or ends there.
    Nothing,
    /// The definition of a series.
    Definition,
    /// A sample of this reference, and its timestamp.
    Sample(u64, i64),
}

/// Returns what an entry is.
fn ahead_of(entry: &Entry) -> Ahead
    ensures { result ≡ ahead_of (Some entry.now) }
{
    match entry {
        Entry::Def { .. } => Ahead::Definition,
        Entry::Sample { reference, t, .. } => Ahead::Sample(*reference, *t),
    }
}

/// Takes all entries that there are, after those that were taken, and returns the fault after them.
fn drain(tail: &mut Tail, entries: &mut Vec<Entry>) -> Result<Option<TailFault>, AllocError>
    requires { HasTaken tail.old entries.old.items }
    ensures ok { IfOk result (λ f. HasTakenAll tail.new entries.new.items f) }
    ensures pieces { tail.new.pieces ≡ tail.old.pieces }
    ensures begins { take (length entries.old.items) entries.new.items ≡ entries.old.items }
{
    'entries: for _ in 0..u64::MAX {
        entries.reserve(1)?;
        match tail.next_entry() {
            Ok(Some(entry)) => entries.push_reserved(entry),
            Ok(None) => return Ok(None),
            Err(fault) => {
                if is_out_of_memory(fault) {
                    return Err(AllocError);
                }
                return Ok(Some(fault));
            }
        }
    }
    Err(AllocError)
}

impl LogInPieces {
    /// Returns a log of which no piece has come.
    pub fn new(alloc: Global) -> LogInPieces
        ensures { result ≡ [] }
    {
        LogInPieces {
            alloc,
            tail: Tail::new(alloc),
            entries: Vec::new(alloc),
            fault: None,
        }
    }

    /// Reads the next piece.
    pub fn feed(&mut self, piece: &Piece) -> Result<(), AllocError>
        ensures ok { OnOk result (self.new ≡ self.old ++ piece_of piece.now ∷ []) }
        ensures err { OnErr result (self.new ≡ self.old) }
        ensures goes_on { OnOk result
            (Extends (reading page_size self.old) (reading page_size self.new)) }
    {
        let mut tail = self.tail.copy()?;
        tail.feed_piece(piece)?;
        let before = self.entries.len();
        match drain(&mut tail, &mut self.entries) {
            Ok(fault) => {
                self.tail = tail;
                self.fault = fault;
                Ok(())
            }
            Err(refused) => {
                self.entries.truncate(before);
                Err(refused)
            }
        }
    }

    /// Returns how many entries there are.
    pub fn len(&self) -> u64
        ensures len { result ≡ length (entries self.now) }
        ensures small { result < 2 ^ 60 }
    {
        self.tail.entries_read()
    }

    /// Returns the entry at a position.
    pub fn entry(&self, pos: u64) -> Result<Option<Entry>, AllocError>
        ensures { IfOk result (λ e. e ≡ slice_get (entries self.now) pos) }
    {
        match self.entries.get(pos as usize) {
            Some(entry) => Ok(Some(entry.copy(self.alloc)?)),
            None => Ok(None),
        }
    }

    /// Returns what comes at a position.
    pub fn ahead(&self, pos: u64) -> Ahead
        ensures { result ≡ ahead_of (slice_get (entries self.now) pos) }
    {
        match self.entries.get(pos as usize) {
            Some(entry) => ahead_of(entry),
            None => Ahead::Nothing,
        }
    }

    /// Returns the fault at which reading ended, if it did.
    pub fn fault(&self) -> Option<TailFault>
        ensures { result ≡ fault self.now }
    {
        self.fault
    }
}

//! Takers of the entries of a log, and the loop that lets them take all that a reader has left.

ghost use Rattle.std.specs.Prelude.{◌≡◌, ◌⊎◌, ◌<◌, ◌≤◌, ◌^◌, ◌++◌, ◌∷◌, [], List, length, Ok, Some, IfOk, OnOk, OnErr};
ghost use Rattle.rw_types.specs.Beginnings.{Begins};
ghost use Rattle.rw_types.specs.declared.entry.Entry.{Entry};
ghost use Rattle.rw_wal_format.specs.Pieces.{entries};
ghost use Rattle.rw_wal_format.specs.declared.tail_fault.TailFault.{TailFault};
ghost use Rattle.rw_wal_tail.specs.Fed.{size_of};
ghost use Rattle.rw_wal_tail.specs.Taking.{TakesAll};

use crate::tail::{Tail, is_out_of_memory};
use rw_types::Entry;
use rw_wal_format::TailFault;
use std::alloc::AllocError;

/// Takes the entries of a log, one after the other. Contracts see all entries that it has taken.
pub trait Taker {
    /// The entries so far.
    ghost taken: { Self → List Entry };

    /// What stays as it is while entries are taken, unless memory runs out.
    ghost Fixed: { Type 0 };

    ghost fixed: { Self → Self.Fixed };

    /// Takes the next entry. An `Err` means out of memory, and that the entry was not taken.
    fn take(&mut self, entry: Entry) -> Result<(), AllocError>
        ensures taken { OnOk result (taken self.new ≡ taken self.old ++ entry ∷ []) }
        ensures err { OnErr result (taken self.new ≡ taken self.old) }
        ensures fixed { OnOk result (Self.fixed self.new ≡ Self.fixed self.old) };
}

/// A `Vec` keeps the entries that it takes.
impl Taker for Vec<Entry> {
    ghost taken = { λ entries. entries.items };

    ghost Fixed = { Unit {0} };

    ghost fixed = { λ _. tt };

    fn take(&mut self, entry: Entry) -> Result<(), AllocError> {
        self.reserve(1)?;
        self.push_reserved(entry);
        Ok(())
    }
}

/// Lets a taker take the entries that a reader has left, and returns the fault after them, if there
/// is one. After an `Err` the taker has taken some of them, and the next one may be lost.
pub fn take_all<T: Taker>(tail: &mut Tail, taker: &mut T) -> Result<Option<TailFault>, AllocError>
    ensures all { IfOk result
        (TakesAll tail.old tail.new (T.taken taker.old) (T.taken taker.new)) }
    ensures begins { Begins (T.taken taker.old) (T.taken taker.new) }
    ensures pieces { tail.new.pieces ≡ tail.old.pieces }
    ensures told { (f : TailFault) → result ≡ Ok (Some f) → tail.new.fault ≡ Some f }
    ensures fixed { OnOk result (T.fixed taker.new ≡ T.fixed taker.old) }

    // Memory runs out only if an entry is left, or if a count has come to its end.
    ensures certain { OnErr result ((tail.old.given < length (entries tail.old.pieces))
        ⊎ (2 ^ 60 ≤ size_of tail.old.pieces)) }
{
    'entries: for _ in 0..u64::MAX {
        match tail.next_entry() {
            Ok(Some(entry)) => taker.take(entry)?,
            Ok(None) => return Ok(None),
            Err(fault) => {
                if is_out_of_memory(fault) {
                    return Err(AllocError);
                }
                return Ok(Some(fault));
            }
        }
    }
    Err(AllocError)
}

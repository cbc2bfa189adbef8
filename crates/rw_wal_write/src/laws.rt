//! A law of writing and reading. The function has an empty body: its contract is the law.

ghost use Rattle.std.specs.Prelude.{◌≡◌, ℕ, List, [], ◌∷◌, None, All, map, flat_map};
ghost use Rattle.std.specs.Io.KnownBytes.{Appends};
ghost use Rattle.rw_types.specs.declared.entry.Entry.{Entry};
ghost use Rattle.rw_wal_format.specs.Pieces.{bytes, entries, fault};
ghost use Rattle.rw_wal_write.specs.Segment.{Segment, AreLogged, HoldsEntries};

use rw_types::Sink;

/// Law: the records of a segment that was written from its beginning on are read back: their
/// entries in their order, and no fault.
pub fn entries_are_read<W: Sink>()
    ensures { (old new : Segment W) (records : List (List ℕ × List Entry)) → old.offset ≡ 0
        → All HoldsEntries records
        → AreLogged W.contents W.has_failed W.room old new (map (λ r. r.0) records)
        → (text : List ℕ) × Appends (W.contents old.sink) (W.contents new.sink) text
        × (entries (bytes text ∷ []) ≡ flat_map (λ r. r.1) records)
        × (fault (bytes text ∷ []) ≡ None) }
{}

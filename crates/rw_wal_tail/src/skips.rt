//! The skipped records, counted by type.

ghost use Rattle.std.specs.Prelude.{◌≡◌, ◌<◌, ◌+◌, ◌^◌, ◌++◌, ◌∷◌, [], length};
ghost use Rattle.rw_wal_format.specs.Skipped.{count_of};

use rw_history::History;
use rw_wal_format::SkippedType;
use std::marker::Model;

/// How many records were skipped, in all and of each type. Contracts see their types, in order.
#[derive(Drop)]
pub(crate) struct Skips {
    types: History<SkippedType>,
    all: u64,
    /// At each type's number, how many are of this type.
    of_type: [u64; 11],
}

impl Model for Skips {
    ghost use Rattle.std.specs.Prelude.{List};
    ghost use Rattle.rw_wal_format.specs.declared.skipped_type.SkippedType.{SkippedType};
    ghost use Rattle.rw_wal_tail.specs.inner.Skips.{AreCounted};

    ghost Value = { List SkippedType };

    ghost view = { λ s. s.types };

    ghost invariant = { λ s. AreCounted s.types s.all s.of_type };
}

impl Skips {
    pub(crate) fn new() -> Skips
        ensures { result ≡ [] }
    {
        Skips {
            types: History::new(),
            all: 0,
            of_type: [0; 11],
        }
    }

    /// Counts one more record, of this type.
    pub(crate) fn push(&mut self, kind: SkippedType)
        requires { length self.old + 1 < 2 ^ 60 }
        ensures { self.new ≡ self.old ++ kind ∷ [] }
    {
        self.types.push(&kind);
        self.all += 1;
        self.of_type[kind.number() as usize] += 1;
    }

    /// Returns how many records there are.
    pub(crate) fn len(&self) -> u64
        ensures { result ≡ length self.now }
    {
        self.all
    }

    /// Returns how many of them are of this type.
    pub(crate) fn count_of(&self, kind: SkippedType) -> u64
        ensures { result ≡ count_of kind self.now }
    {
        self.of_type[kind.number() as usize]
    }

    /// Returns a second value with the same counts.
    pub(crate) fn again(&self) -> Skips
        ensures { result ≡ self.now }
    {
        Skips {
            types: self.types.again(),
            all: self.all,
            of_type: self.of_type,
        }
    }
}

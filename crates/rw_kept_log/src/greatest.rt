//! The greatest reference that is defined.

ghost use Rattle.std.specs.Prelude.{◌≡◌, []};
ghost use Rattle.rw_kept_log.specs.Reading.{greater, greatest_after};

use rw_types::Entry;
use rw_wal_tail::Taker;
use std::alloc::AllocError;
use std::marker::Model;

/// Returns the greatest reference that is defined, with one more entry.
fn greater(greatest: u64, entry: &Entry) -> u64
    ensures { result ≡ greater greatest entry.now }
{
    match entry {
        Entry::Def { reference, .. } => {
            if greatest < *reference {
                *reference
            } else {
                greatest
            }
        }
        Entry::Sample { .. } => greatest,
    }
}

/// A taker, and the greatest reference that the entries that it has taken define; 0 if they define
/// none. Contracts see the taker.
#[derive(Drop)]
pub(crate) struct Greatest<T: Taker> {
    taker: T,
    greatest: u64,
}

impl<T: Taker> Model for Greatest<T> {
    ghost use Rattle.std.specs.Prelude.{◌≡◌};
    ghost use Rattle.std.specs.Coded.{codes};
    ghost use Rattle.std.specs.FinMap as map;
    ghost use Rattle.rw_kept_log.specs.Reading.{greatest_after};
    ghost use Rattle.rw_kept_log.specs.inner.Reading.{Watched};

    ghost Value = { Watched T };

    ghost coded = { Prim.hlevel (codes, map.code) };

    ghost view = { λ g. record { taker = g.taker } };

    ghost invariant = { λ g. g.greatest ≡ greatest_after 0 (T.taken g.taker) };
}

impl<T: Taker> Greatest<T> {
    /// Begins with a taker that has taken nothing.
    pub(crate) fn new(taker: T) -> Greatest<T>
        requires { T.taken taker ≡ [] }
        ensures { result.taker ≡ taker }
    {
        Greatest { taker, greatest: 0 }
    }

    /// Returns the greatest reference.
    pub(crate) fn greatest(&self) -> u64
        ensures { result ≡ greatest_after 0 (T.taken self.now.taker) }
    {
        self.greatest
    }

    /// Returns the taker.
    pub(crate) fn into_taker(self) -> T
        ensures { result ≡ self.taker }
    {
        let Greatest { taker, greatest: _ } = self;
        taker
    }
}

impl<T: Taker> Taker for Greatest<T> {
    ghost taken = { λ g. T.taken g.taker };

    ghost Fixed = { T.Fixed };

    ghost fixed = { λ g. T.fixed g.taker };

    fn take(&mut self, entry: Entry) -> Result<(), AllocError> {
        let greatest = greater(self.greatest, &entry);
        self.taker.take(entry)?;
        self.greatest = greatest;
        Ok(())
    }
}

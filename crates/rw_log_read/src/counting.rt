//! A taker whose entries are counted, segment by segment.

ghost use Rattle.std.specs.Prelude.{◌≡◌, ◌++◌, [], List};
ghost use Rattle.rw_types.specs.declared.entry.Entry.{Entry};
ghost use Rattle.rw_log_read.specs.Sums.{sums_of};

use crate::sums::Sums;
use rw_history::History;
use rw_types::Entry;
use rw_wal_tail::Taker;
use std::alloc::AllocError;
use std::marker::Model;

/// A taker, and the totals of the entries that it has taken since the current segment began.
/// Contracts see the taker, and the entries before that segment.
#[derive(Drop)]
pub(crate) struct Counting<T: Taker> {
    taker: T,
    taken: History<Entry>,
    before: History<Entry>,
    sums: Sums,
}

impl<T: Taker> Model for Counting<T> {
    ghost use Rattle.std.specs.Coded.{codes};
    ghost use Rattle.std.specs.FinMap as map;
    ghost use Rattle.rw_log_read.specs.inner.Counted.{Counted, AreCounted};

    ghost Value = { Counted T };

    ghost coded = { Prim.hlevel (codes, map.code) };

    ghost view = { λ c. record { taker = c.taker; before = c.before } };

    ghost invariant = { λ c. AreCounted (T.taken c.taker) c.taken c.before c.sums };
}

impl<T: Taker> Counting<T> {
    /// Begins with a taker that has taken nothing.
    pub(crate) fn new(taker: T) -> Counting<T>
        requires { T.taken taker ≡ [] }
        ensures { result.taker ≡ taker }
    {
        Counting {
            taker,
            taken: History::new(),
            before: History::new(),
            sums: Sums::new(),
        }
    }

    /// Begins a segment: the totals are those of an empty log.
    pub(crate) fn begin(&mut self)
        ensures taker { self.new.taker ≡ self.old.taker }
        ensures before { self.new.before ≡ T.taken self.new.taker }
    {
        self.before = self.taken.again();
        self.sums = Sums::new();
    }

    /// Returns the totals of the entries that were taken since the segment began.
    pub(crate) fn sums(&self) -> Sums
        ensures { (more : List Entry) → T.taken self.now.taker ≡ self.now.before ++ more
            → result ≡ sums_of more }
    {
        self.sums
    }

    /// Returns the taker.
    pub(crate) fn into_taker(self) -> T
        ensures { result ≡ self.taker }
    {
        let Counting {
            taker,
            taken: _,
            before: _,
            sums: _,
        } = self;
        taker
    }
}

impl<T: Taker> Taker for Counting<T> {
    ghost use Rattle.rw_log_read.specs.inner.Counted.{Unmoved};

    ghost taken = { λ c. T.taken c.taker };

    ghost Fixed = { Unmoved T.Fixed };

    ghost fixed = { λ c. record { before = c.before; fixed = T.fixed c.taker } };

    fn take(&mut self, entry: Entry) -> Result<(), AllocError> {
        let sums = self.sums.with(&entry)?;
        let mut taken = self.taken.again();
        taken.push(&entry);
        self.taker.take(entry)?;
        self.taken = taken;
        self.sums = sums;
        Ok(())
    }
}

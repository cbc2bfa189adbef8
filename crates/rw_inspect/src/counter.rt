//! Counts the entries of a log, one after the other.

ghost use Rattle.std.specs.Prelude.{◌≡◌, ◌++◌, ◌∷◌, [], take, OnOk, OnErr};
ghost use Rattle.rw_inspect.specs.Counting.{log_counts};
ghost use Rattle.rw_inspect.specs.inner.Counting.{CanBeNoted, IsJudged, IsPlaced};
ghost use Rattle.rw_inspect.specs.Troubles.{not_rising, troubles_of};

use crate::counts::Counts;
use crate::troubles::{Trouble, Troubles};
use rw_history::History;
use rw_log_read::{Sums, one_more};
use rw_relabel::Choice;
use rw_series_cache::{Cache, Known};
use rw_types::Entry;
use rw_wal_tail::Taker;
use std::alloc::{AllocError, Global};
use std::marker::Model;

/// What becomes of a sample.
#[derive(Clone, Copy, Debug)]
pub(crate) enum Judged {
    InTrouble(Trouble),
    Filtered,
    /// It is later than all samples of the series of this number.
    Rising(u64),
}

/// Counts the entries of a log. It keeps no sample. Contracts see the entries.
#[derive(Drop)]
pub struct Counter {
    taken: History<Entry>,
    /// How many were taken.
    count: u64,
    cache: Cache,
    sums: Sums,
    troubles: Troubles,
}

impl Model for Counter {
    ghost use Rattle.std.specs.Prelude.{List};
    ghost use Rattle.rw_types.specs.declared.entry.Entry.{Entry};
    ghost use Rattle.rw_inspect.specs.inner.Counting.{IsCounter};

    ghost Value = { List Entry };

    ghost view = { λ c. c.taken };

    ghost invariant = { λ c. IsCounter c.taken c.count c.cache c.sums c.troubles };
}

/// Returns what becomes of a sample with this reference and timestamp, if all label sets are kept.
fn judge(cache: &Cache, reference: u64, t: i64) -> Judged
    ensures judged { IsJudged cache.now reference t result }
    ensures noted { CanBeNoted cache.now t result }
{
    match cache.look(reference) {
        Known::Unknown => Judged::InTrouble(Trouble::NoSeries),
        Known::Bad(_) => Judged::InTrouble(Trouble::BadLabels),
        Known::Filtered => Judged::Filtered,
        Known::Kept(number, _) => {
            if cache.rises(number, t) {
                Judged::Rising(number)
            } else {
                Judged::InTrouble(Trouble::NotRising)
            }
        }
    }
}

/// Places the sample at a position: it is noted if it is later than those before it.
fn place(
    cache: &mut Cache,
    troubles: &mut Troubles,
    position: u64,
    reference: u64,
    t: i64,
) -> Result<(), AllocError>
    ensures ok { OnOk result
        (IsPlaced cache.old cache.new troubles.old troubles.new position reference t) }
    ensures err { OnErr result ((cache.new ≡ cache.old) × (troubles.new ≡ troubles.old)) }
{
    match judge(cache, reference, t) {
        Judged::InTrouble(trouble) => troubles.push(position, trouble),
        Judged::Filtered => Ok(()),
        Judged::Rising(number) => {
            cache.note(number, t);
            Ok(())
        }
    }
}

impl Counter {
    /// Returns a counter before the first entry. This takes no memory.
    pub fn new(alloc: Global) -> Counter
        ensures { result ≡ [] }
    {
        Counter {
            taken: History::new(),
            count: 0,
            cache: Cache::new(alloc, Choice::legacy(alloc)),
            sums: Sums::new(),
            troubles: Troubles::new(alloc),
        }
    }

    /// Takes the next entry.
    pub fn take(&mut self, entry: Entry) -> Result<(), AllocError>
        ensures ok { OnOk result (self.new ≡ self.old ++ entry ∷ []) }
        ensures err { OnErr result (self.new ≡ self.old) }
    {
        let count = one_more(self.count)?;
        let sums = self.sums.with(&entry)?;
        let mut taken = self.taken.again();
        taken.push(&entry);
        match entry {
            Entry::Def { reference, labels } => self.cache.define(reference, labels)?,
            Entry::Sample { reference, t, .. } => place(
                &mut self.cache,
                &mut self.troubles,
                self.count,
                reference,
                t,
            )?,
        }
        self.taken = taken;
        self.count = count;
        self.sums = sums;
        Ok(())
    }

    /// Returns what is counted of all entries.
    pub fn counts(&self) -> Counts
        ensures { result ≡ log_counts self.now }
    {
        Counts {
            sums: self.sums,
            label_sets: self.cache.series_count() as u64,
            without_series: self.troubles.without_series(),
            bad_labels: self.troubles.bad_labels(),
            not_rising: self.troubles.not_rising(),
        }
    }

    /// Returns the positions of the first ten samples that are not later than the last one of their
    /// series.
    pub fn first_not_rising(&self) -> &[u64]
        ensures { result.now ≡ take 10 (not_rising (troubles_of self.now)) }
    {
        self.troubles.first_not_rising()
    }
}

impl Taker for Counter {
    ghost taken = { λ c. c };

    ghost Fixed = { Unit {0} };

    ghost fixed = { λ _. tt };

    fn take(&mut self, entry: Entry) -> Result<(), AllocError> {
        Counter::take(self, entry)
    }
}

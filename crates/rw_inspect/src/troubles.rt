//! Counts the samples that a sender would drop.

ghost use Rattle.std.specs.Prelude.{◌≡◌, ◌++◌, ◌∷◌, [], ℕ, count_by, length, take, OnOk, OnErr};
ghost use Rattle.rw_inspect.specs.Troubles.{has_bad_labels, has_no_series, not_rising};

use rw_history::History;
use rw_log_read::one_more;
use std::alloc::{AllocError, Global};
use std::marker::Model;

/// The number of positions that are kept of samples that are not later than the last one of their
/// series.
const MOST_POSITIONS: u64 = 10;

/// Why a sender would drop a sample.
#[derive(Clone, Copy, Debug, PartialEq, Eq)]
pub(crate) enum Trouble {
    /// No series was defined under its reference before it.
    NoSeries,
    /// The labels of its series are not a label set.
    BadLabels,
    /// An earlier sample of its label set has the same timestamp or a later one.
    NotRising,
}

/// Samples that a sender would drop, counted. Contracts see all of them, each with its position; of
/// those that are not later than the last one of their series the first ten positions are kept.
#[derive(Drop)]
pub(crate) struct Troubles {
    all: History<(u64, Trouble)>,
    without_series: u64,
    bad_labels: u64,
    not_rising: u64,
    first: Vec<u64>,
}

impl Model for Troubles {
    ghost use Rattle.std.specs.Prelude.{ℕ, List};
    ghost use Rattle.rw_inspect.specs.declared.troubles.Trouble.{Trouble};
    ghost use Rattle.rw_inspect.specs.inner.Troubles.{AreCounted};

    ghost Value = { List (ℕ × Trouble) };

    ghost view = { λ t. t.all };

    ghost invariant = { λ t. AreCounted t.all t.without_series t.bad_labels t.not_rising
        t.first.items };
}

impl Troubles {
    /// Returns counts that are all 0. This takes no memory.
    pub(crate) fn new(alloc: Global) -> Troubles
        ensures { result ≡ [] }
    {
        Troubles {
            all: History::new(),
            without_series: 0,
            bad_labels: 0,
            not_rising: 0,
            first: Vec::new(alloc),
        }
    }

    /// Counts one more sample.
    pub(crate) fn push(&mut self, position: u64, trouble: Trouble) -> Result<(), AllocError>
        ensures ok { OnOk result (self.new ≡ self.old ++ (position, trouble) ∷ []) }
        ensures err { OnErr result (self.new ≡ self.old) }
    {
        match trouble {
            Trouble::NoSeries => self.without_series = one_more(self.without_series)?,
            Trouble::BadLabels => self.bad_labels = one_more(self.bad_labels)?,
            Trouble::NotRising => {
                if self.not_rising < MOST_POSITIONS {
                    self.first.push(position)?;
                    self.not_rising += 1;
                } else {
                    self.not_rising = one_more(self.not_rising)?;
                }
            }
        }
        self.all.push(&(position, trouble));
        Ok(())
    }

    pub(crate) fn without_series(&self) -> u64
        ensures { result ≡ count_by has_no_series self.now }
    {
        self.without_series
    }

    pub(crate) fn bad_labels(&self) -> u64
        ensures { result ≡ count_by has_bad_labels self.now }
    {
        self.bad_labels
    }

    pub(crate) fn not_rising(&self) -> u64
        ensures { result ≡ length (not_rising self.now) }
    {
        self.not_rising
    }

    /// Returns the positions of the first ten samples that are not later than the last one of their
    /// series.
    pub(crate) fn first_not_rising(&self) -> &[u64]
        ensures { result.now ≡ take 10 (not_rising self.now) }
    {
        &self.first
    }
}

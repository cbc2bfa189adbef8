//! What acknowledged requests held that a receiver does not hold.

ghost use Rattle.std.specs.Prelude.{◌≡◌};
ghost use Rattle.rw_metrics.specs.ReceiveCounts.{by_kind, is_skipping};

use crate::atomics::{add, read};
use crate::body_contents::BodyContents;
use crate::rows::Shown;
use std::sync::atomic::AtomicU64;

/// The kinds of what is not held, as the metrics have them.
pub(crate) const KINDS: [&str; 3] = ["histogram", "exemplar", "metadata"];

/// How much acknowledged requests held that a receiver does not hold, by kind.
#[derive(Clone, Copy, Debug, PartialEq, Eq)]
pub struct SkippedParts {
    /// Samples of native histograms.
    pub histograms: u64,
    pub exemplars: u64,
    /// The type, unit and help of metrics.
    pub metadata: u64,
}

impl SkippedParts {
    /// Returns how many there are for each of [`KINDS`].
    pub(crate) fn by_kind(&self) -> [Shown; 3]
        ensures { result ≡ by_kind self.now }
    {
        [
            Shown::Count(self.histograms),
            Shown::Count(self.exemplars),
            Shown::Count(self.metadata),
        ]
    }

    /// Returns whether there are any.
    pub(crate) fn is_some(&self) -> bool
        ensures { result ≡ is_skipping self.now }
    {
        self.histograms > 0 || self.exemplars > 0 || self.metadata > 0
    }
}

/// Counters of what acknowledged requests held that is not held.
#[derive(Default, Drop)]
pub(crate) struct SkippedPartCounters {
    histograms: AtomicU64,
    exemplars: AtomicU64,
    metadata: AtomicU64,
}

impl SkippedPartCounters {
    /// Counts what a body holds beside its samples.
    pub(crate) fn count(&self, contents: &BodyContents) {
        add(&self.histograms, contents.histograms);
        add(&self.exemplars, contents.exemplars);
        add(&self.metadata, contents.metadata);
    }

    /// Returns the values of the counters.
    pub(crate) fn read(&self) -> SkippedParts {
        SkippedParts {
            histograms: read(&self.histograms),
            exemplars: read(&self.exemplars),
            metadata: read(&self.metadata),
        }
    }
}

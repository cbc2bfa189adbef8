//! The entries of a write-ahead log.

ghost use Rattle.std.specs.Prelude.{◌≡◌, IfOk};

use crate::raw_labels::RawLabels;
use crate::word::Word;
use std::alloc::{AllocError, Global};

/// An entry of a write-ahead log: the definition of a series, or a sample.
#[derive(Debug, Drop)]
pub enum Entry {
    /// Defines a series: from here on `reference` stands for the series with these labels.
    Def { reference: u64, labels: RawLabels },
    /// A sample of the series that `reference` stands for: its time `t` in milliseconds since the
    /// Unix epoch, and its value `word`.
    Sample { reference: u64, t: i64, word: Word },
}

impl Entry {
    /// Returns a copy of the entry.
    pub fn copy(&self, alloc: Global) -> Result<Entry, AllocError>
        ensures { IfOk result (λ e. e ≡ self.now) }
    {
        match self {
            Entry::Def { reference, labels } => Ok(Entry::Def {
                reference: *reference,
                labels: labels.copy(alloc)?,
            }),
            Entry::Sample { reference, t, word } => Ok(Entry::Sample {
                reference: *reference,
                t: *t,
                word: *word,
            }),
        }
    }
}

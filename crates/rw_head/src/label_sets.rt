//! The label sets that have samples.

ghost use Rattle.std.specs.Prelude.{◌≡◌, map};
ghost use Rattle.std.specs.Iterator.{YieldsFirstRef, item_count};

use crate::series::AllSeries;
use rw_types::LabelSet;
use std::marker::Model;

/// An iterator over the label sets that have samples, by byte order of their lists of (name,
/// value). Contracts see those that are still to come.
#[derive(Drop)]
pub struct LabelSets<'a> {
    series: AllSeries<'a>,
}

impl<'a> Model for LabelSets<'a> {
    ghost use Rattle.std.specs.Prelude.{ℕ, List, map};

    ghost Value = { List (List (List ℕ × List ℕ)) };

    ghost view = { λ s. map (λ e. e.0) s.series };
}

impl<'a> LabelSets<'a> {
    /// Returns the label sets of these series.
    pub(crate) fn new(series: AllSeries<'a>) -> LabelSets<'a>
        ensures { result ≡ map (λ e. e.0) series.entry }
    {
        LabelSets { series }
    }
}

impl<'a> Iterator for LabelSets<'a> {
    type Item = &'a LabelSet;

    ghost next_gives = { YieldsFirstRef (λ s. s) };

    ghost remaining = { item_count (λ s. s) };

    fn next(&mut self) -> Option<&'a LabelSet> {
        match self.series.next() {
            Some(series) => Some(series.labels()),
            None => None,
        }
    }
}

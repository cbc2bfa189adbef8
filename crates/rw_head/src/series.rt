//! The series that have samples.

ghost use Rattle.std.specs.Prelude.{◌≡◌, length, IfOk};
ghost use Rattle.rw_head.specs.Lists.{with_samples};
ghost use Rattle.rw_head.specs.inner.Forgetting.{AreWhole};
ghost use Rattle.rw_head.specs.inner.Lists.{AreWithin};
ghost use Rattle.std.specs.Iterator.{YieldsFirst, item_count};

use crate::name::Name;
use crate::sample_list::SampleList;
use rw_types::{LabelSet, Word};
use std::alloc::{AllocError, Global};
use std::collections::btree_map;
use std::marker::Model;

/// A label set that has samples, with them. Contracts see both.
#[derive(Drop)]
pub struct HeldSeries<'a> {
    labels: &'a LabelSet,
    samples: &'a SampleList,
}

impl<'a> Model for HeldSeries<'a> {
    ghost use Rattle.std.specs.Prelude.{◌≡◌, ℕ, List, []};
    ghost use Rattle.rw_head.specs.Order.{Point};

    ghost Value = { List (List ℕ × List ℕ) × List Point };

    ghost view = { λ s. (s.labels.now, s.samples.now.kept) };

    ghost invariant = { λ s. s.samples.now.gone ≡ [] };
}

impl<'a> HeldSeries<'a> {
    /// Returns the label set.
    pub fn labels(&self) -> &'a LabelSet
        ensures { result.now ≡ self.now.0 }
    {
        self.labels
    }

    /// Returns a copy of the samples in order, as (timestamp in milliseconds since the Unix epoch,
    /// value).
    pub fn samples(&self, alloc: Global) -> Result<Vec<(i64, Word)>, AllocError>
        ensures { IfOk result (λ v. v.items ≡ self.now.1) }
    {
        self.samples.to_vec(alloc)
    }
}

/// An iterator over the series that have samples, by byte order of their label sets' lists of
/// (name, value). Contracts see those that are still to come.
#[derive(Drop)]
pub struct AllSeries<'a> {
    places: btree_map::Iter<'a, Name, usize>,
    lists: &'a [SampleList],
}

impl<'a> Model for AllSeries<'a> {
    ghost use Rattle.std.specs.Prelude.{ℕ, List, length};
    ghost use Rattle.rw_head.specs.Lists.{with_samples};
    ghost use Rattle.rw_head.specs.inner.Forgetting.{AreWhole};
    ghost use Rattle.rw_head.specs.inner.Lists.{AreWithin};
    ghost use Rattle.rw_head.specs.Order.{Point};

    ghost Value = { List (List (List ℕ × List ℕ) × List Point) };

    ghost view = { λ s. with_samples s.lists.now s.places };

    ghost invariant = { λ s. AreWithin (length s.lists.now) s.places × AreWhole s.lists.now };
}

impl<'a> AllSeries<'a> {
    /// Returns the series of these label sets whose lists keep samples.
    pub(crate) fn new(
        places: btree_map::Iter<'a, Name, usize>,
        lists: &'a [SampleList],
    ) -> AllSeries<'a>
        requires within { AreWithin (length lists.now) places }
        requires whole { AreWhole lists.now }
        ensures { result ≡ with_samples lists.entry.now places.entry }
    {
        AllSeries { places, lists }
    }
}

impl<'a> Iterator for AllSeries<'a> {
    type Item = HeldSeries<'a>;

    ghost next_gives = { YieldsFirst (λ s. s) };

    ghost remaining = { item_count (λ s. s) };

    fn next(&mut self) -> Option<HeldSeries<'a>> {
        let lists = self.lists;
        while let Some((name, place)) = self.places.next() {
            let samples = &lists[*place];
            if samples.has_samples() {
                return Some(HeldSeries {
                    labels: name.labels(),
                    samples,
                });
            }
        }
        None
    }
}

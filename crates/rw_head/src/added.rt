//! What a message adds to a head.

ghost use Rattle.std.specs.Prelude.{◌≡◌, ◌<◌, length, All, OnOk};
ghost use Rattle.std.specs.Iterator.{YieldsFirst, item_count};
ghost use Rattle.rw_head.specs.Lists.{added_of};

use crate::place::Place;
use crate::sample_list::SampleList;
use rw_types::{LabelSet, Word};
use std::alloc::AllocError;
use std::marker::Model;

/// A label set to which a message adds samples. Contracts see its place, the label set and these
/// samples.
#[derive(Drop)]
pub struct AddedSeries<'a> {
    place: usize,
    labels: &'a LabelSet,
    list: &'a SampleList,
}

impl<'a> Model for AddedSeries<'a> {
    ghost use Rattle.rw_head.specs.Added.{Added};
    ghost use Rattle.rw_head.specs.Lists.{more_of};

    ghost Value = { Added };

    ghost view = { λ s. record {
      place = s.place;
      labels = s.labels.now;
      samples = more_of s.list.now;
    } };
}

impl<'a> AddedSeries<'a> {
    /// Returns the place of the label set in the head: the number of label sets that had one when
    /// it came. It keeps its place as long as the head holds samples of it, but no clause says so.
    pub fn place(&self) -> usize
        ensures { result ≡ self.now.place }
    {
        self.place
    }

    /// Returns the label set.
    pub fn labels(&self) -> &'a LabelSet
        ensures { result.now ≡ self.now.labels }
    {
        self.labels
    }

    /// Overwrites `samples` with the new samples in order, each as (timestamp in milliseconds since
    /// the Unix epoch, value).
    pub fn copy_samples(&self, samples: &mut Vec<(i64, Word)>) -> Result<(), AllocError>
        ensures { OnOk result (samples.new.items ≡ self.now.samples) }
    {
        self.list.copy_staged(samples)
    }
}

/// An iterator over the label sets to which a message adds samples, in the order in which the first
/// of them came. Contracts see those that are still to come.
#[derive(Drop)]
pub struct AllAdded<'a> {
    touched: &'a [usize],
    names: &'a [Place],
    lists: &'a [SampleList],
}

impl<'a> Model for AllAdded<'a> {
    ghost use Rattle.std.specs.Prelude.{◌≡◌, ◌<◌, List, length, All};
    ghost use Rattle.rw_head.specs.Added.{Added};
    ghost use Rattle.rw_head.specs.Lists.{added_of};

    ghost Value = { List Added };

    ghost view = { λ s. added_of s.names.now s.lists.now s.touched.now };

    ghost invariant = { λ s. All (λ n. n < length s.lists.now) s.touched.now
        × (length s.names.now ≡ length s.lists.now) };
}

impl<'a> AllAdded<'a> {
    /// Returns the label sets of these places, with what is staged in their lists.
    pub(crate) fn new(
        touched: &'a [usize],
        names: &'a [Place],
        lists: &'a [SampleList],
    ) -> AllAdded<'a>
        requires within { All (λ n. n < length lists.now) touched.now }
        requires same { length names.now ≡ length lists.now }
        ensures { result ≡ added_of names.entry.now lists.entry.now touched.entry.now }
    {
        AllAdded {
            touched,
            names,
            lists,
        }
    }
}

impl<'a> Iterator for AllAdded<'a> {
    type Item = AddedSeries<'a>;

    ghost next_gives = { YieldsFirst (λ s. s) };

    ghost remaining = { item_count (λ s. s) };

    fn next(&mut self) -> Option<AddedSeries<'a>> {
        let (names, lists) = (self.names, self.lists);
        match self.touched.split_first() {
            Some((place, rest)) => {
                let place = *place;
                self.touched = rest;
                Some(AddedSeries {
                    place,
                    labels: names[place].labels(),
                    list: &lists[place],
                })
            }
            None => None,
        }
    }
}

//! Samples that are grouped by label set as they come.

ghost use Rattle.std.specs.Prelude.{◌≡◌, ◌↔◌, ◌∷◌, [], ◌++◌, ◌==◌, false, length, map, Some, slice_get, IfOk, IfSome, IfNone, OnOk, OnErr, IsTrue};
ghost use Rattle.std.specs.List.{IsDistinct, list_any};
ghost use Rattle.rw_types.specs.Labels.{text_label};
ghost use Rattle.rw_types.specs.LabelOrder.{labels_eq};
ghost use Rattle.rw_batch.specs.Grouping.{with_sample, labels_of_series};
ghost use Rattle.rw_batch.specs.Groups.{StandsFor, with_number};

use indexmap::IndexSet;
use rw_types::{LabelSet, Word};
use rw_write_request::{Message, Series};
use std::alloc::{AllocError, Global};
use std::marker::Model;

/// Samples grouped by label set: a message that grows sample by sample.
///
/// Each sample comes with the number of its series, by which the series is found without comparing
/// labels.
#[derive(Debug, Drop)]
pub struct Grouping {
    numbers: IndexSet<u64>,
    series: Vec<Series>,
    /// The place of the last sample's series, unless it opened one: only a hint.
    last: usize,
}

impl Model for Grouping {
    ghost use Rattle.std.specs.Prelude.{◌≡◌, length};
    ghost use Rattle.std.specs.List.{IsDistinct};
    ghost use Rattle.rw_types.specs.LabelOrder.{labels_eq};
    ghost use Rattle.rw_batch.specs.Grouping.{labels_of_series};
    ghost use Rattle.rw_batch.specs.Groups.{Groups};

    ghost Value = { Groups };

    ghost view = { λ g. record { numbers = g.numbers.keys; series = g.series.items } };

    ghost invariant = { λ g. (length g.numbers.keys ≡ length g.series.items)
        × IsDistinct labels_eq (labels_of_series g.series.items) };
}

/// Returns a copy of labels.
fn copy_of(alloc: Global, labels: &[(String, String)]) -> Result<Vec<(String, String)>, AllocError>
    ensures { IfOk result (λ v. map text_label v.items ≡ map text_label labels.now) }
{
    let mut copy = Vec::with_capacity(alloc, labels.len())?;
    for (name, value) in labels {
        copy.push((name.clone()?, value.clone()?))?;
    }
    Ok(copy)
}

/// Returns a series with one sample.
fn series_of(alloc: Global, labels: &LabelSet, sample: (Word, i64)) -> Result<Series, AllocError>
    ensures { IfOk result (λ s. s ≡ record { labels = labels.now; samples = sample ∷ [] }) }
{
    let labels = copy_of(alloc, labels.as_slice())?;
    let mut samples = Vec::new(alloc);
    samples.push(sample)?;
    Ok(Series { labels, samples })
}

/// Puts a sample after those of a series.
fn push_sample(series: &mut Series, sample: (Word, i64)) -> Result<(), AllocError>
    ensures ok { OnOk result (series.new
        ≡ record { labels = series.old.labels; samples = series.old.samples ++ sample ∷ [] }) }
    ensures labels { series.new.labels ≡ series.old.labels }
    ensures err { OnErr result (series.new ≡ series.old) }
{
    series.samples.push(sample)?;
    Ok(())
}

impl Grouping {
    /// Returns a message without samples.
    pub fn new(alloc: Global) -> Grouping
        ensures { result ≡ record { numbers = []; series = [] } }
    {
        Grouping {
            numbers: IndexSet::new(alloc),
            series: Vec::new(alloc),
            last: 0,
        }
    }

    /// Returns how many series there are.
    pub fn len(&self) -> usize
        ensures len { result ≡ length self.now.series }
        ensures numbers { result ≡ length self.now.numbers }
        ensures distinct { IsDistinct labels_eq (labels_of_series self.now.series) }
    {
        self.series.len()
    }

    /// Returns whether there is no sample yet.
    pub fn is_empty(&self) -> bool
        ensures { IsTrue result ↔ (self.now.series ≡ []) }
    {
        self.series.is_empty()
    }

    /// Adds a sample of value `word`, at time `t` in milliseconds since the Unix epoch, to the
    /// series that `number` stands for. Its labels are copied if that series is new. An `Err`
    /// changes nothing.
    pub fn add(
        &mut self,
        number: u64,
        labels: &LabelSet,
        t: i64,
        word: Word,
    ) -> Result<(), AllocError>
        requires { StandsFor number labels.now self.old }
        ensures series { OnOk result
            (self.new.series ≡ with_sample labels.now (word, t) self.old.series) }
        ensures numbers { OnOk result (self.new.numbers ≡ with_number number self.old.numbers) }
        ensures err { OnErr result (self.new ≡ self.old) }
    {
        match self.place_of(number) {
            Some(place) => {
                self.last = place;
                push_sample(&mut self.series[place], (word, t))
            }
            None => self.open(number, labels, (word, t)),
        }
    }

    /// Returns whether the series at this place has the number.
    fn is_at(&self, place: usize, number: u64) -> bool
        ensures { IsTrue result → slice_get self.now.numbers place ≡ Some number }
    {
        match self.numbers.get_index(place) {
            Some(known) => *known == number,
            None => false,
        }
    }

    /// Returns the place of the series of a number. The place of the last sample is tried first,
    /// and then the next one: samples of a series come together, or the series of a log come in the
    /// same order again and again.
    fn place_of(&self, number: u64) -> Option<usize>
        ensures some { IfSome result (λ place. slice_get self.now.numbers place ≡ Some number) }
        ensures none { IfNone result (list_any (λ m. number == m) self.now.numbers ≡ false) }
    {
        let next = self.last.wrapping_add(1);
        if self.is_at(self.last, number) {
            Some(self.last)
        } else if self.is_at(next, number) {
            Some(next)
        } else {
            self.numbers.get_index_of(&number)
        }
    }

    /// Opens a series with its first sample.
    fn open(
        &mut self,
        number: u64,
        labels: &LabelSet,
        sample: (Word, i64),
    ) -> Result<(), AllocError>
        requires unknown { list_any (λ m. number == m) self.old.numbers ≡ false }
        requires fits { StandsFor number labels.now self.old }
        ensures series { OnOk result
            (self.new.series ≡ with_sample labels.now sample self.old.series) }
        ensures numbers { OnOk result (self.new.numbers ≡ with_number number self.old.numbers) }
        ensures err { OnErr result (self.new ≡ self.old) }
    {
        let series = series_of(*self.series.allocator(), labels, sample)?;
        self.series.reserve(1)?;
        self.numbers.insert(number)?;
        self.series.push(series)?;
        Ok(())
    }

    /// Returns the message that holds the samples.
    pub fn into_message(self) -> Message
        ensures { result ≡ self.series }
    {
        let Grouping { series, .. } = self;
        Message { series }
    }
}

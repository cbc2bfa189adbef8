//! Samples by their series.

ghost use Rattle.std.specs.Prelude.{◌≡◌, ℕ, ◌<◌, ◌≤◌, List, [], ◌∷◌, ◌++◌, length, IfOk};
ghost use Rattle.std.specs.Vec.{vec_capacity};
ghost use Rattle.std.specs.List.{AllByRecursion, flat_map};
ghost use Rattle.rw_write_request.specs.Canon.{sample_fields};
ghost use Rattle.rw_batch.specs.Grouping.{message};
ghost use Rattle.rw_batch.specs.inner.Grouping.{series_at};
ghost use Rattle.rw_batch.specs.inner.Kept.{samples_alone, field_at, IsTrail};

use crate::found::{NOWHERE, place_of};
use indexmap::IndexSet;
use rw_history::History;
use rw_types::{LabelSet, Word};
use std::alloc::{AllocError, Global};
use std::marker::Model;
use std::sync::Arc;

/// A sample, and the labels of its series.
#[derive(Drop)]
pub(crate) struct Labelled {
    pub(crate) labels: Arc<LabelSet>,
    pub(crate) sample: (Word, i64),
}

impl Model for Labelled {
    ghost use Rattle.rw_batch.specs.Grouping.{LabelledSample};

    ghost Value = { LabelledSample };

    ghost view = { λ x. record { labels = x.labels.value; sample = x.sample } };
}

/// The samples of a series, of which there is at least one.
#[derive(Clone, Copy, Drop)]
pub(crate) struct Line {
    /// The number of its last sample.
    pub(crate) last: usize,
    /// How many samples it has.
    pub(crate) count: usize,
    /// How many bytes their fields take.
    pub(crate) bytes: usize,
}

/// Samples by their series, in room that was made before.
#[derive(Drop)]
pub(crate) struct Rows {
    room: usize,
    /// The label sets, in the order of first samples.
    series: IndexSet<Arc<LabelSet>>,
    /// For the remainder of a series' number, where its label set may be.
    hints: Vec<usize>,
    /// The line of each label set.
    lines: Vec<Line>,
    /// For each sample, the number of the one before it in its series, if there is one.
    before: Vec<usize>,
    samples: History<Labelled>,
}

impl Model for Rows {
    ghost use Rattle.indexmap.specs.IndexSet.{spare};
    ghost use Rattle.rw_batch.specs.inner.Kept.{Rowed, AreRows};

    ghost Value = { Rowed };

    ghost view = { λ r. record { room = r.room; samples = r.samples } };

    ghost invariant = { λ r. AreRows r.room r.series.keys
        (spare r.series) r.lines r.before r.samples };
}

/// Puts the numbers of the samples of a line into an empty row, the last one first.
fn walk_back(before: &[usize], line: Line, row: &mut Vec<usize>)
    requires trail { (back : List ℕ) × IsTrail before.now line.last back
        × (line.count ≡ length back) }
    requires short { length before.now ≤ 10000 }
    requires empty { row.old.items ≡ [] }
    requires room { line.count ≤ vec_capacity row.old }
    ensures back { (back : List ℕ) → IsTrail before.now line.last back → line.count ≡ length back
        → row.new.items ≡ back }
    ensures capacity { vec_capacity row.new ≡ vec_capacity row.old }
{
    let mut at = line.last;
    for _ in 0..line.count {
        row.push_reserved(at);
        at = before[at];
    }
}

impl Rows {
    /// Returns an empty list of samples, with room for `room` of them.
    pub(crate) fn new(alloc: Global, room: usize) -> Result<Rows, AllocError>
        requires { room ≤ 10000 }
        ensures { IfOk result (λ r. r ≡ record { room = room; samples = [] }) }
    {
        Ok(Rows {
            room,
            series: IndexSet::with_capacity(alloc, room)?,
            hints: vec![in alloc; NOWHERE; 2 * room + 1]?,
            lines: Vec::with_capacity(alloc, room)?,
            before: Vec::with_capacity(alloc, room)?,
            samples: History::new(),
        })
    }

    /// Adds one more sample, whose field takes `bytes` bytes, after those of its series. The number
    /// of the series is a hint.
    pub(crate) fn push(&mut self, series: u64, sample: Labelled, bytes: usize)
        requires room { length self.old.samples < self.old.room }
        requires bytes { bytes ≡ length (sample_fields (sample.sample ∷ [])) }
        ensures { self.new ≡ record self.old { samples = self.old.samples ++ sample ∷ [] } }
    {
        let number = self.before.len();
        self.samples.push(&sample);
        let Labelled { labels, sample: _ } = sample;
        let (place, is_new) = place_of(&mut self.series, &mut self.hints, series, labels);
        if is_new {
            self.lines.push_reserved(Line {
                last: number,
                count: 1,
                bytes,
            });
            self.before.push_reserved(number);
            return;
        }
        let line = self.lines[place];
        self.before.push_reserved(line.last);
        self.lines[place] = Line {
            last: number,
            count: line.count + 1,
            bytes: line.bytes + bytes,
        };
    }

    /// Returns how many series the samples have.
    pub(crate) fn len(&self) -> usize
        ensures { result ≡ length (message self.now.samples) }
    {
        self.lines.len()
    }

    /// Returns the labels of series number `place` of the message.
    pub(crate) fn labels(&self, place: usize) -> &LabelSet
        requires { place < length (message self.now.samples) }
        ensures { result.now ≡ (series_at self.now.samples place).labels }
    {
        &self.series.as_slice()[place]
    }

    /// Returns how many bytes the fields of the samples of series number `place` take.
    pub(crate) fn sample_bytes(&self, place: usize) -> usize
        requires { place < length (message self.now.samples) }
        ensures { result ≡ length (sample_fields (series_at self.now.samples place).samples) }
    {
        self.lines[place].bytes
    }

    /// Puts the numbers of the samples of series number `place` into `row`, in order.
    pub(crate) fn numbers(&self, place: usize, row: &mut Vec<usize>)
        requires place { place < length (message self.now.samples) }
        requires room { length self.now.samples ≤ vec_capacity row.old }
        ensures fields { flat_map (field_at (samples_alone self.now.samples)) row.new.items
            ≡ sample_fields (series_at self.now.samples place).samples }
        ensures within { AllByRecursion (λ j. j < length self.now.samples) row.new.items }
        ensures capacity { vec_capacity row.new ≡ vec_capacity row.old }
    {
        row.clear();
        walk_back(&self.before, self.lines[place], row);
        row.reverse();
    }
}

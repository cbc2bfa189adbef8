//! What a head can take of a message.

ghost use Rattle.std.specs.Prelude.{◌≡◌, ◌≢◌, ◌++◌, ◌∷◌, [], if◌then◌else◌, None, IfOk, IfErr, IsTrue, OnOk, is_some, map, Ok};
ghost use Rattle.rw_types.specs.Labels.{text_label};
ghost use Rattle.rw_head.specs.Partial.{one_of, held_after, held_with, taken_samples, takeable_series, takeable};
ghost use Rattle.rw_head.specs.Verdicts.{refusal, taken};
ghost use Rattle.rw_head.specs.inner.Growth.{HoldsNoneRefused};
ghost use Rattle.rw_head.specs.inner.Partial.{IsRefusedUnless, IsJudged};

use crate::head::Head;
use crate::label_bounds::{LabelBounds, Texts};
use crate::memory::Memory;
use crate::table::Table;
use crate::verdict::Verdict;
use rw_types::Word;
use rw_write_request::{Message, Series};
use std::alloc::{AllocError, Global};

/// Returns whether the labels are a label set that the head takes.
fn takes_labels(
    alloc: Global,
    bounds: &LabelBounds,
    labels: &[(String, String)],
) -> Result<bool, AllocError>
    ensures { IfOk result (λ yes. IsRefusedUnless yes
        (refusal bounds.now (map text_label labels.now))) }
{
    match bounds.judge(alloc, Texts::Lent(labels)) {
        Ok(()) => Ok(true),
        Err(verdict) if verdict == Verdict::NoMemory => Err(AllocError),
        Err(_) => Ok(false),
    }
}

/// Stages a sample if it is taken, and returns whether it is. If it is not, nothing changes.
fn stage_one(
    table: &mut Table,
    bounds: &LabelBounds,
    labels: &[(String, String)],
    sample: (Word, i64),
) -> Result<bool, AllocError>
    requires { HoldsNoneRefused bounds.now table.old.staged }
    ensures kept { table.new.kept ≡ table.old.kept }
    ensures placed { table.new.placed ≡ table.old.placed }
    ensures forgets { table.new.forgets ≡ table.old.forgets }
    ensures staged { IfOk result (λ yes. IsJudged yes table.old.staged
        (taken bounds.now table.old.staged (one_of (map text_label labels.now) sample))
        table.new.staged) }
{
    match table.stage(bounds, Texts::Lent(labels), &[sample]) {
        Ok(()) => Ok(true),
        Err(verdict) if verdict == Verdict::NoMemory => Err(AllocError),
        Err(_) => Ok(false),
    }
}

/// Appends a sample if it is taken.
fn put_if(
    into: &mut Vec<(Word, i64)>,
    sample: (Word, i64),
    is_taken: bool,
) -> Result<(), AllocError>
    ensures { OnOk result (into.new.items ≡ into.old.items
        ++ (if is_taken then sample ∷ [] else [])) }
{
    if is_taken {
        into.push(sample)?;
    }
    Ok(())
}

/// Stages the samples of a label set that are taken, one after the other, and appends them to
/// `into`.
fn stage_each(
    table: &mut Table,
    bounds: &LabelBounds,
    labels: &[(String, String)],
    samples: &[(Word, i64)], // in their order
    into: &mut Vec<(Word, i64)>,
) -> Result<(), AllocError>
    requires { HoldsNoneRefused bounds.now table.old.staged }
    ensures kept { table.new.kept ≡ table.old.kept }
    ensures placed { table.new.placed ≡ table.old.placed }
    ensures forgets { table.new.forgets ≡ table.old.forgets }
    ensures within { OnOk result (HoldsNoneRefused bounds.now table.new.staged) }
    ensures staged { OnOk result (table.new.staged
        ≡ held_with bounds.now table.old.staged (map text_label labels.now) samples.now) }
    ensures taken { OnOk result (into.new.items ≡ into.old.items
        ++ taken_samples bounds.now table.old.staged (map text_label labels.now) samples.now) }
{
    for sample in samples {
        let is_taken = stage_one(table, bounds, labels, *sample)?;
        put_if(into, *sample, is_taken)?;
    }
    Ok(())
}

/// Stages the samples of a series that are taken, and appends the series with these to `message`,
/// unless its labels are refused.
fn stage_part(
    table: &mut Table,
    bounds: &LabelBounds,
    series: Series,
    message: &mut Vec<Series>,
) -> Result<(), AllocError>
    requires { HoldsNoneRefused bounds.now table.old.staged }
    ensures kept { table.new.kept ≡ table.old.kept }
    ensures placed { table.new.placed ≡ table.old.placed }
    ensures forgets { table.new.forgets ≡ table.old.forgets }
    ensures within { OnOk result (HoldsNoneRefused bounds.now table.new.staged) }
    ensures staged { OnOk result (table.new.staged
        ≡ held_with bounds.now table.old.staged series.labels series.samples) }
    ensures taken { OnOk result (message.new.items ≡ message.old.items
        ++ takeable_series bounds.now table.old.staged series) }
{
    let alloc = table.allocator();
    let Series { labels, samples } = series;
    if !takes_labels(alloc, bounds, &labels)? {
        return Ok(());
    }
    let mut taken = Vec::with_capacity(alloc, samples.len())?;
    stage_each(table, bounds, &labels, &samples, &mut taken)?;
    message.push(Series {
        labels,
        samples: taken,
    })?;
    Ok(())
}

/// Stages what is taken of a message, and returns it.
fn stage_message(
    table: &mut Table,
    bounds: &LabelBounds,
    message: Message,
) -> Result<Message, AllocError>
    requires { HoldsNoneRefused bounds.now table.old.staged }
    ensures kept { table.new.kept ≡ table.old.kept }
    ensures placed { table.new.placed ≡ table.old.placed }
    ensures forgets { table.new.forgets ≡ table.old.forgets }
    ensures taken { IfOk result (λ m. m ≡ takeable bounds.now table.old.staged message) }
{
    let alloc = table.allocator();
    let mut taken = Vec::with_capacity(alloc, message.series.len())?;
    for series in message.series {
        stage_part(table, bounds, series, &mut taken)?;
    }
    Ok(Message { series: taken })
}

impl<M: Memory> Head<M> {
    /// Returns what the head can take of a message: the message with just those samples that it
    /// takes one after the other, each judged after the ones before it, and without the series
    /// whose labels it refuses. The head does not change. An error means that memory ran out, or
    /// that the head cannot tell any more whether a sample is a repeat.
    pub fn takeable(&mut self, message: Message) -> Result<Message, AllocError>
        ensures same { self.new ≡ self.old }
        ensures takeable { IfOk result (λ m. m
            ≡ takeable self.old.limits self.old.store message) }
    {
        let taken = stage_message(&mut self.table, &self.bounds, message);
        self.table.abort();
        taken
    }
}

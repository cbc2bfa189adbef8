//! Label sets of one label, and samples. The calls that take memory are made again if they fail.

ghost use Rattle.std.specs.Prelude.{◌≡◌, ◌∷◌, [], codes, IfOk};
ghost use Rattle.rw_plain_queue.specs.declared.item.Item.TheVariants as item;

use rw_plain_queue::Item;
use rw_types::{LabelFault, LabelSet, Place, RawLabels, Word};
use std::alloc::Global;
use std::sync::Arc;

/// A metric's name, a word and a time.
pub(crate) type Row = (&'static str, u64, i64);

/// Returns the label set of a metric's name alone.
fn metric_once(alloc: Global, name: &str) -> Result<LabelSet, LabelFault>
    ensures { IfOk result (λ s. s ≡ (codes "__name__", name.now) ∷ []) }
{
    let mut labels = RawLabels::new(alloc);
    labels.push(b"__name__", name.as_bytes())?;
    LabelSet::check(alloc, &labels)
}

pub(crate) fn metric(alloc: Global, name: &str) -> Result<LabelSet, LabelFault>
    ensures { IfOk result (λ s. s ≡ (codes "__name__", name.now) ∷ []) }
{
    match metric_once(alloc, name) {
        Err(LabelFault::OutOfMemory) => metric_once(alloc, name),
        answer => answer,
    }
}

/// Returns the label set of a metric's name alone, to be shared.
pub(crate) fn shared_metric(alloc: Global, name: &str) -> Result<Arc<LabelSet>, LabelFault> {
    match Arc::new(alloc, metric(alloc, name)?) {
        Ok(labels) => Ok(labels),
        Err(refused) => match Arc::new(alloc, refused.value) {
            Ok(labels) => Ok(labels),
            Err(_) => Err(LabelFault::OutOfMemory),
        },
    }
}

/// Returns the sample numbered `seq` of shard 1 of epoch 3, at this position. Its number of series
/// is 0.
pub(crate) fn sample_item(seq: u64, pos: u64, t: i64, word: Word, labels: Arc<LabelSet>) -> Item
    ensures { result ≡ item.Sample
        (record { epoch = 3; shard = 1; seq = seq; pos = pos; series = 0 }) t word labels }
{
    let place = Place {
        epoch: 3,
        shard: 1,
        seq,
        pos,
        series: 0,
    };
    Item::Sample(place, t, word, labels)
}

/// Returns the same, with its own label set.
pub(crate) fn sample(alloc: Global, seq: u64, pos: u64, row: Row) -> Result<Item, LabelFault> {
    let (name, word, t) = row;
    Ok(sample_item(seq, pos, t, Word(word), shared_metric(alloc, name)?))
}

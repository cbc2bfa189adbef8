//! What a queue between threads is fed.

ghost use Rattle.std.specs.Prelude.{◌≡◌, [], IfSome};

use crate::samples::sample_item;
use rw_shard_queue::{Ended, Feed, Item, Kind, Open};
use rw_types::{LabelSet, Word};
use std::sync::{Arc, Wait};

/// Puts a sample of this value, and an End of this kind.
pub(crate) fn one<R: Wait>(
    rt: &R,
    feed: Feed<Open>,
    labels: Arc<LabelSet>,
    word: Word,
    kind: Kind,
) -> Option<Feed<Ended>>
    requires { (feed.queue.epoch ≡ 3) × (feed.queue.shard ≡ 1) × (feed.put ≡ []) }
    ensures { IfSome result (λ f. f.queue ≡ feed.queue) }
{
    let mut feed = feed;
    feed.put(rt, sample_item(0, 5, 1000, word, labels)).ok()?;
    feed.end(rt, kind).ok()
}

/// Puts two samples of this value with a Flush between, and ends.
pub(crate) fn two<R: Wait>(
    rt: &R,
    feed: Feed<Open>,
    labels: Arc<LabelSet>,
    word: Word,
) -> Option<Feed<Ended>>
    requires { (feed.queue.epoch ≡ 3) × (feed.queue.shard ≡ 1) × (feed.put ≡ []) }
    ensures { IfSome result (λ f. f.queue ≡ feed.queue) }
{
    let copy = Arc::try_clone(&labels).ok()?;
    let mut feed = feed;
    feed.put(rt, sample_item(0, 5, 1000, word, copy)).ok()?;
    feed.put(rt, Item::Flush).ok()?;
    feed.put(rt, sample_item(1, 9, 2000, word, labels)).ok()?;
    feed.end(rt, Kind::Orderly).ok()
}

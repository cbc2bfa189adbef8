//! What goes through the queue of a shard.

use rw_types::{LabelSet, Place, Word};
use std::sync::Arc;

/// Why a queue was ended.
#[derive(Clone, Copy, Debug, PartialEq, Eq)]
pub enum Kind {
    /// All samples were put.
    Orderly,
    /// The number of shards changes.
    Reshard,
    /// The sender stops at once, and abandons what is not sent.
    Hard,
}

/// An item of the queue of a shard: a sample on its way to the receiver, or a mark.
#[derive(Debug, Drop)]
pub enum Item {
    /// A sample: its place, its time in milliseconds since the Unix epoch, its value, and the
    /// labels of its series.
    Sample(Place, i64, Word, Arc<LabelSet>),
    /// A mark: the samples before it are to be sent without waiting for more.
    Flush,
    /// A mark: the last item of the queue.
    End(Kind),
}

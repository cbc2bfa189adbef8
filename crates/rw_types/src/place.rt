//! The place of a sample in the sender.

/// A sample that was put into the queue of a shard: its shard, its number there, and its position
/// in the log.
#[derive(Clone, Copy, Debug, PartialEq, Eq)]
pub struct Place {
    /// The epoch of its shard: how often the number of shards had changed before the sample was
    /// put.
    pub epoch: u64,
    /// The shard in that epoch, counted from 0.
    pub shard: u32,
    /// How many samples were put into that shard in that epoch before this one.
    pub seq: u64,
    /// The position of its entry in the log, counted from 0.
    pub pos: u64,
    /// The number of its series, counted from 0 in the order in which label sets were first kept.
    pub series: u64,
}

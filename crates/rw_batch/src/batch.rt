//! A batch that was frozen, and its id.

ghost use Rattle.std.specs.Prelude.{◌≡◌, ◌<◌, length};
ghost use Rattle.rw_batch.specs.Batches.{IsStretch, id_of};

use bytes::Bytes;
use rw_types::Place;
use std::marker::Model;

/// What identifies a batch: the place of its first sample.
#[derive(Clone, Copy, Debug, PartialEq, Eq)]
pub struct BatchId {
    /// The epoch of its shard.
    pub epoch: u64,
    /// The number of its shard in that epoch.
    pub shard: u32,
    /// How many samples were put into that shard in that epoch before its first sample.
    pub seq: u64,
}

/// Consecutive samples of one shard. Its id and its body do not change: each attempt to send it
/// uses the same body.
#[derive(Drop)]
pub struct Batch {
    pub(crate) places: Vec<Place>,
    pub(crate) body: Bytes,
}

impl Model for Batch {
    ghost use Rattle.std.specs.Prelude.{◌<◌, length};
    ghost use Rattle.rw_batch.specs.Batches.{Frozen, IsStretch};

    ghost Value = { Frozen };

    ghost view = { λ b. record { places = b.places.items; body = b.body } };

    ghost invariant = { λ b. (0 < length b.places.items) × IsStretch b.places.items };
}

impl Batch {
    /// Returns the id, which is the place of the first sample.
    pub fn id(&self) -> BatchId
        ensures { result ≡ id_of self.now.places }
    {
        let first = self.places[0];
        BatchId {
            epoch: first.epoch,
            shard: first.shard,
            seq: first.seq,
        }
    }

    /// Returns the places of its samples, in order. There is at least one.
    pub fn places(&self) -> &[Place]
        ensures places { result.now ≡ self.now.places }
        ensures some { 0 < length self.now.places }
        ensures stretch { IsStretch self.now.places }
    {
        self.places.as_slice()
    }

    /// Returns the bytes of its message.
    pub fn body(&self) -> &Bytes
        ensures { result.now ≡ self.now.body }
    {
        &self.body
    }
}

//! The shards of all epochs that have ended.

ghost use Rattle.std.specs.Prelude.{◌≡◌, ◌+◌, ◌<◌, ◌≤◌, [], ◌∷◌, ◌++◌, length, map, drop, take, OnOk};
ghost use Rattle.std.specs.List.{sum_by};
ghost use Rattle.rw_worker.specs.Report.{counted_to};
ghost use Rattle.rw_fleet.specs.Loads.{load_of, resolved_in, left_in_shard};
ghost use Rattle.rw_fleet.specs.Stopped.{abandoned_in, names_in_parts, part_of};
ghost use Rattle.rw_fleet.specs.Work.{AreResolved};
ghost use Rattle.rw_fleet.specs.inner.Work.{HasUnresolved};

use crate::joined::{Resolution, StoppedShard};
use crate::lists::{load_with, push_parts, resolution_of};
use crate::load::Load;
use rw_history::History;
use rw_ledger::Reason;
use rw_worker::Transport;
use std::alloc::{AllocError, Global};
use std::marker::Model;

/// The shards of all epochs that have ended, oldest first, with room for more of them.
///
/// Once all samples of an epoch are resolved its shards are folded: only sums are kept of them, and
/// their refused samples. So the memory that past epochs take, and the time to sum them up, does
/// not grow with their number. Contracts see all shards, how many of the first ones are folded, and
/// the room.
#[derive(Drop)]
pub struct StoppedShards<T> {
    folded: History<StoppedShard<T>>,
    /// How far the samples of the folded shards have come.
    load: Load,
    /// The refused samples of the folded shards, each with the status of its batch.
    refused: Vec<(u64, Reason)>,
    kept: Vec<StoppedShard<T>>,
}

impl<T> Model for StoppedShards<T> {
    ghost use Rattle.std.specs.Prelude.{◌≡◌, ◌-◌, ◌++◌, length, map, vec_len, vec_capacity};
    ghost use Rattle.std.specs.Coded.{codes};
    ghost use Rattle.std.specs.FinMap as names;
    ghost use Rattle.std.specs.List.{sum_by};
    ghost use Rattle.rw_fleet.specs.Loads.{load_of, resolved_in, left_in_shard};
    ghost use Rattle.rw_fleet.specs.Stopped.{StoppedList, names_in_parts, part_of};
    ghost use Rattle.rw_fleet.specs.Work.{AreResolved};

    ghost Value = { StoppedList T };

    ghost coded = { Prim.hlevel (codes, names.code) };

    ghost view = { λ s. record {
      items = s.folded ++ s.kept.items;
      folded = length s.folded;
      room = vec_capacity s.kept - vec_len s.kept;
    } };

    ghost invariant = { λ s. AreResolved s.folded
        × (s.load ≡ load_of (sum_by resolved_in s.folded) (sum_by left_in_shard s.folded))
        × (s.refused.items ≡ names_in_parts (map part_of s.folded)) };
}

impl<T> StoppedShards<T> {
    /// Returns no shards, without room. This takes no memory.
    pub(crate) fn new(alloc: Global) -> StoppedShards<T>
        ensures items { result.items ≡ [] }
        ensures folded { result.folded ≡ 0 }
    {
        StoppedShards {
            folded: History::new(),
            load: Load::none(),
            refused: Vec::new(alloc),
            kept: Vec::new(alloc),
        }
    }

    /// Makes room for `shards` shards more.
    pub(crate) fn reserve(&mut self, shards: usize) -> Result<(), AllocError>
        ensures items { self.new.items ≡ self.old.items }
        ensures folded { self.new.folded ≡ self.old.folded }
        ensures room { self.old.room ≤ self.new.room }
        ensures ok { OnOk result (shards ≤ self.new.room) }
    {
        self.kept.reserve(shards)
    }

    /// Adds a shard. It takes no memory.
    pub(crate) fn push(&mut self, shard: StoppedShard<T>)
        requires { 0 < self.old.room }
        ensures items { self.new.items ≡ self.old.items ++ shard ∷ [] }
        ensures folded { self.new.folded ≡ self.old.folded }
        ensures room { self.new.room + 1 ≡ self.old.room }
    {
        self.kept.push_reserved(shard);
    }

    /// Returns how far the samples of all shards have come.
    pub(crate) fn load(&self) -> Load
        ensures { result ≡ load_of (sum_by resolved_in self.now.items)
            (sum_by left_in_shard self.now.items) }
    {
        load_with(self.load, &self.kept)
    }

    /// Returns how many samples of all shards are resolved, or `u64::MAX` if there are more.
    pub fn resolved(&self) -> u64
        ensures { result ≡ counted_to (sum_by resolved_in self.now.items) }
    {
        self.load().resolved
    }

    /// Returns the refused samples of the folded shards, each with the status of its batch, in the
    /// order of the shards.
    pub fn refused_before(&self) -> &[(u64, Reason)]
        ensures { result.now
            ≡ names_in_parts (map part_of (take self.now.folded self.now.items)) }
    {
        self.refused.as_slice()
    }

    /// Returns the shards that are not folded. No other shard left a sample that is not resolved.
    pub fn kept(&self) -> &[StoppedShard<T>]
        ensures kept { result.now ≡ drop self.now.folded self.now.items }
        ensures abandoned { abandoned_in result.now ≡ abandoned_in self.now.items }
    {
        self.kept.as_slice()
    }

    /// Returns the shards that are not folded.
    pub fn into_kept(self) -> Vec<StoppedShard<T>>
        ensures { result.items ≡ drop self.folded self.items }
    {
        self.kept
    }

    /// Appends the refused samples of all shards to `names`, in the order of the shards.
    pub fn push_refused(&self, names: &mut Vec<(u64, Reason)>) -> Result<(), AllocError>
        ensures { OnOk result (names.new.items
            ≡ names.old.items ++ names_in_parts (map part_of self.now.items)) }
    {
        names.extend_from_slice(&self.refused)?;
        push_parts(&self.kept, names)
    }
}

impl<T: Transport + Drop> StoppedShards<T> {
    /// Returns whether all that was put into the queues of these shards is resolved. If it is, all
    /// of them are folded, unless memory for the refused samples runs out.
    pub(crate) fn fold_resolved(self) -> (StoppedShards<T>, Resolution)
        ensures items { result.0.items ≡ self.items }
        ensures folded { result.0.folded ≤ length result.0.items }
        ensures all { result.1 ≡ Resolution.All → AreResolved self.items }
        ensures not_all { result.1 ≡ Resolution.NotAll → HasUnresolved self.items }
    {
        match self.resolution() {
            Resolution::All => (self.fold(), Resolution::All),
            Resolution::NotAll => (self, Resolution::NotAll),
        }
    }

    /// Returns whether all that was put into the queues of these shards is resolved.
    pub(crate) fn resolution(&self) -> Resolution
        ensures all { result ≡ Resolution.All → AreResolved self.now.items }
        ensures not_all { result ≡ Resolution.NotAll → HasUnresolved self.now.items }
    {
        resolution_of(&self.kept)
    }

    /// Folds all shards. If memory for their refused samples runs out, they stay as they are.
    fn fold(self) -> StoppedShards<T>
        requires { AreResolved self.items }
        ensures items { result.items ≡ self.items }
        ensures folded { result.folded ≤ length result.items }
    {
        let StoppedShards {
            mut folded,
            load,
            mut refused,
            mut kept,
        } = self;
        let count = refused.len();
        if push_parts(&kept, &mut refused).is_err() {
            refused.truncate(count);
            return StoppedShards {
                folded,
                load,
                refused,
                kept,
            };
        }
        let load = load_with(load, &kept);
        folded.extend(&kept);
        kept.clear();
        StoppedShards {
            folded,
            load,
            refused,
            kept,
        }
    }
}

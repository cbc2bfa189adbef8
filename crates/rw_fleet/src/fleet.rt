//! The shards of all epochs.

ghost use Rattle.std.specs.Prelude.{◌≡◌, ◌+◌, ◌<◌, ◌≤◌, ◌^◌, ℕ, [], length, map, OnOk, OnErr, Some, Err, false, slice_get};
ghost use Rattle.rw_types.specs.declared.place.Place.{Place};
ghost use Rattle.rw_plain_queue.specs.Items.{places_in};
ghost use Rattle.rw_fleet.specs.ShardHistories.{ShardHistory, AreFresh, AreSame, AreSetUp, IsMarked, IsPut, IsUsedUp, marked};
ghost use Rattle.rw_worker.specs.Report.{is_hard};
ghost use Rattle.rw_fleet.specs.Work.{AreResolved, AreWorked, HasCut, lane_of, finished_of};
ghost use Rattle.rw_fleet.specs.Fleets.{AreAll, EndBy, HasClosed};
ghost use Rattle.rw_fleet.specs.Loads.{window_of, IsLoad};

use crate::connect::Connect;
use crate::joined::Resolution;
use crate::lists::{end_all, hand_over_all, join_all, load_at_work, mark_all, open_all};
use crate::load::Load;
use crate::running_shard::{Fault, RunningShard, StoppingShard};
use crate::stopped::StoppedShards;
use rw_series_cache::RoutedSample;
use rw_shard_core::Config;
use rw_shard_queue::Kind;
use rw_worker::StopFlag;
use std::alloc::{AllocError, Global};
use std::marker::Model;
use std::mem::replace;
use std::sync::Wait;
use std::thread::Threads;

/// The shards at work, and those that have ended, in the order of their epochs. A shard set has to
/// be ended by `finish`.
pub struct ShardSet<C: Connect + Drop> {
    alloc: Global,
    config: Config,
    connect: C,
    stop: StopFlag,
    epoch: u64,
    running: Vec<RunningShard<C::T>>,
    /// It has room for each shard at work.
    ending: Vec<StoppingShard<C::T>>,
    joined: StoppedShards<C::T>,
}

impl<C: Connect + Drop> Model for ShardSet<C> {
    ghost use Rattle.std.specs.Prelude.{◌≡◌, ◌≤◌, [], length, map, vec_len, vec_capacity};
    ghost use Rattle.std.specs.Coded.{codes};
    ghost use Rattle.std.specs.FinMap as names;
    ghost use Rattle.rw_fleet.specs.ShardHistories.{AreSetUp};
    ghost use Rattle.rw_fleet.specs.Work.{AreWorked, lane_of};
    ghost use Rattle.rw_fleet.specs.inner.Work.{AreSoft};
    ghost use Rattle.rw_fleet.specs.Fleets.{Shards};

    ghost Value = { Shards C.T };

    ghost coded = { Prim.hlevel (codes, names.code) };

    ghost view = { λ f. record {
      config = f.config;
      epoch = f.epoch;
      current = f.running.items;
      ended = f.joined.items;
    } };

    ghost invariant = { λ f. AreWorked C.T.tells C.T.seen C.T.is_for f.joined.items
        × AreSetUp f.config (map lane_of f.joined.items)
        × AreSetUp f.config f.running.items
        × (vec_len f.running ≤ f.joined.room)
        × (vec_len f.running ≤ vec_capacity f.ending)
        × (f.ending.items ≡ [])
        × (vec_len f.running ≤ 1000)
        × AreSoft (map lane_of f.joined.items)
        × (f.joined.folded ≤ length f.joined.items) };
}

impl<C: Connect + Drop> ShardSet<C> {
    /// Returns a shard set before epoch 0 is opened: it has no shard. The workers of all epochs
    /// look at `stop`: if another thread sets it, they abandon what is not sent and let go of their
    /// queues, so that nobody waits for room in them.
    pub fn new(alloc: Global, config: Config, connect: C, stop: StopFlag) -> ShardSet<C>
        ensures { result ≡ record { config = config; epoch = 0; current = []; ended = [] } }
    {
        ShardSet {
            alloc,
            config,
            connect,
            stop,
            epoch: 0,
            running: Vec::new(alloc),
            ending: Vec::new(alloc),
            joined: StoppedShards::new(alloc),
        }
    }

    /// Returns how many shards are at work.
    pub fn len(&self) -> usize
        ensures len { result ≡ length self.now.current }
        ensures within { result ≤ 1000 }
    {
        self.running.len()
    }

    /// Returns the epoch: how often the number of shards has changed.
    pub fn epoch(&self) -> u64
        ensures { result ≡ self.now.epoch }
    {
        self.epoch
    }

    /// Returns how many of the samples that one shard was put may wait to be resolved: as many as
    /// its queue holds, and a batch.
    pub fn window(&self) -> usize
        ensures { result ≡ window_of self.now.config }
    {
        let fields = self.config.fields();
        fields.capacity.get() as usize + fields.batch.get() as usize
    }

    /// Returns how far the samples of all shards have come, as of the last updates of the workers.
    /// Those that only wait for a full batch count as resolved.
    pub fn load(&self) -> Load
        ensures { IsLoad self.now result }
    {
        let batch = self.config.fields().batch.get();
        load_at_work(
            self.joined.load(),
            &self.running,
            batch,
            self.window() as u64,
        )
    }

    /// Opens the queues of `shards` shards, and starts a worker for each. After an `Err` some of
    /// them may be at work.
    pub fn open<R: Threads + Wait + Copy + Send + 'static>(
        &mut self,
        rt: &R,
        shards: u32,
    ) -> Result<(), AllocError>
        requires none { self.old.current ≡ [] }
        requires most { shards ≤ 1000 }
        ensures rest { self.new ≡ record self.old { current = self.new.current } }
        ensures fresh { AreFresh self.new.epoch self.new.current }
        ensures most { length self.new.current ≤ shards }
        ensures all { OnOk result (length self.new.current ≡ shards) }
    {
        self.joined.reserve(shards as usize)?;
        self.ending.reserve(shards as usize)?;
        let mut none = Vec::new(self.alloc);
        if let Err(refused) = none.reserve(shards as usize) {
            none.destroy_empty();
            return Err(refused);
        }
        let (running, opened) = open_all(
            rt,
            self.alloc,
            &self.config,
            self.epoch,
            shards,
            &mut self.connect,
            &self.stop,
            none,
        );
        replace(&mut self.running, running).destroy_empty();
        opened
    }

    /// Puts a sample into the queue of shard number `shard`. It may wait for room. An `Err` changes
    /// nothing.
    pub fn put<R: Wait>(&mut self, rt: &R, shard: usize, sample: RoutedSample) -> Result<(), Fault>
        requires within { shard < length self.old.current }
        requires later { (lane : ShardHistory) (k : ℕ) (o : Place)
            → slice_get self.old.current shard ≡ Some lane
            → slice_get (places_in lane.put) k ≡ Some o → o.pos < sample.pos }
        ensures rest { self.new ≡ record self.old { current = self.new.current } }
        ensures ok { OnOk result (IsPut shard sample self.old.current self.new.current) }
        ensures err { OnErr result (self.new ≡ self.old) }
        ensures memory { result ≡ Err Fault.OutOfMemory → IsUsedUp shard self.old.current }
    {
        if let Err(fault) = self.running[shard].put(rt, sample) {
            return Err(fault);
        }
        Ok(())
    }

    /// Puts a Flush into the queue of shard number `shard`. It may wait for room. An `Err` changes
    /// nothing.
    pub fn mark_one<R: Wait>(&mut self, rt: &R, shard: usize) -> Result<(), Fault>
        requires { shard < length self.old.current }
        ensures rest { self.new ≡ record self.old { current = self.new.current } }
        ensures ok { OnOk result (IsMarked shard self.old.current self.new.current) }
        ensures err { OnErr result (self.new ≡ self.old) }
        ensures same { AreSame self.old.current self.new.current }
        ensures memory { result ≡ Err Fault.OutOfMemory → ⊥ }
    {
        if let Err(fault) = self.running[shard].mark(rt) {
            return Err(fault);
        }
        Ok(())
    }

    /// Puts a Flush into the queue of each shard at work. It may wait for room. After an `Err` some
    /// may have one.
    pub fn mark<R: Wait>(&mut self, rt: &R) -> Result<(), Fault>
        ensures rest { self.new ≡ record self.old { current = self.new.current } }
        ensures marked { OnOk result (self.new.current ≡ map marked self.old.current) }
        ensures same { AreSame self.old.current self.new.current }
        ensures memory { result ≡ Err Fault.OutOfMemory → ⊥ }
    {
        mark_all(rt, &mut self.running)
    }

    /// Hands over what the queues hold back, so that no worker waits for it. It may wait for room.
    pub fn hand_over<R: Wait>(&mut self, rt: &R)
        ensures { self.new ≡ self.old }
    {
        hand_over_all(rt, &mut self.running);
    }

    /// Ends all shards at work once all that was put is resolved, and waits for their workers; the
    /// next epoch has no shard yet. Returns whether all that was put in all epochs is resolved;
    /// then only sums are kept of these shards, and their refused samples.
    pub fn close<R: Threads + Wait>(&mut self, rt: &R) -> Resolution
        requires { self.old.epoch + 1 < 2 ^ 64 }
        ensures closed { HasClosed self.old self.new }
        ensures worked { AreWorked C.T.tells C.T.seen C.T.is_for self.new.ended }
        ensures setup { AreSetUp self.new.config (map lane_of self.new.ended) }
        ensures resolved { result ≡ Resolution.All → AreResolved self.new.ended }
        ensures cut { result ≡ Resolution.NotAll → HasCut self.new.ended }
    {
        let running = replace(&mut self.running, Vec::new(self.alloc));
        let ending = replace(&mut self.ending, Vec::new(self.alloc));
        let joined = replace(&mut self.joined, StoppedShards::new(self.alloc));
        let ending = end_all(rt, running, ending, Kind::Reshard);
        let (joined, resolution) = join_all(rt, ending, joined).fold_resolved();
        self.joined = joined;
        self.epoch += 1;
        resolution
    }

    /// Ends all shards at work, and waits for their workers, which are stopped at once if `kind` is
    /// `Hard`. Returns the shards of all epochs, and whether all that was put into them is
    /// resolved.
    pub fn finish<R: Threads + Wait>(self, rt: &R, kind: Kind) -> (StoppedShards<C::T>, Resolution)
        ensures all { AreAll self result.0.items }
        ensures worked { AreWorked C.T.tells C.T.seen C.T.is_for result.0.items }
        ensures setup { AreSetUp self.config (map lane_of result.0.items) }
        ensures ended { EndBy kind self (map finished_of result.0.items) }
        ensures folded { result.0.folded ≤ length self.ended }
        ensures resolved { result.1 ≡ Resolution.All → AreResolved result.0.items }
        ensures cut { is_hard kind ≡ false → result.1 ≡ Resolution.NotAll
            → HasCut result.0.items }
    {
        let ShardSet {
            running,
            ending,
            joined,
            stop,
            alloc: _,
            config: _,
            connect: _,
            epoch: _,
        } = self;
        if kind == Kind::Hard {
            stop.set();
        }
        let ending = end_all(rt, running, ending, kind);
        let joined = join_all(rt, ending, joined);
        let resolution = joined.resolution();
        (joined, resolution)
    }
}

//! A shard at work, and one that is to end.

ghost use Rattle.std.specs.Prelude.{◌≡◌, ◌<◌, ◌≤◌, ◌^◌, ℕ, [], ◌∷◌, ◌++◌, length, IfOk, OnOk, MatchResult, Err, Some, slice_get};
ghost use Rattle.rw_types.specs.declared.place.Place.{Place};
ghost use Rattle.rw_plain_queue.specs.Items.{samples_in, places_in};
ghost use Rattle.rw_fleet.specs.ShardHistories.{IsSetUp, put_as, item_as, marks_in};
ghost use Rattle.rw_fleet.specs.Loads.{count_in, left_at_work};
ghost use Rattle.rw_fleet.specs.Work.{lane_of, IsEndedBy, IsWorked};

use crate::ends::{Fed, end_of, meet};
use crate::joined::{Finished, StoppedShard};
use crate::window::Window;
use rw_series_cache::RoutedSample;
use rw_shard_core::Config;
use rw_shard_queue::{Feed, Item, Kind, Open, open};
use rw_types::Place;
use rw_worker::{Begun, Pause, StopFlag, Tally, Transport, Worker, WorkerReport, spawn};
use std::alloc::{AllocError, Global};
use std::error::Error;
use std::fmt;
use std::marker::Model;
use std::snapshot::Snapshot;
use std::sync::Wait;
use std::thread::{PromisedHandle, Threads};

/// Why an item was not put into the queue of a shard.
#[derive(Clone, Copy, Debug, PartialEq, Eq)]
pub enum Fault {
    /// The shard was put 2^60 samples, and no more are counted.
    OutOfMemory,
    /// The worker of the shard has gone.
    Gone,
}

impl fmt::Display for Fault {
    fn fmt<W: fmt::Write>(&self, f: &mut fmt::Formatter<W>) -> fmt::Result {
        f.write_str(match self {
            Fault::OutOfMemory => "out of memory",
            Fault::Gone => "the worker has stopped",
        })
    }
}

impl Error for Fault {}

/// A shard at work, which has to be ended and joined. Contracts see what its worker is set up with,
/// and what was put into its queue.
pub(crate) struct RunningShard<T: Transport + Send + Drop + 'static> {
    epoch: u64,
    shard: u32,
    feed: Feed<Open>,
    /// The positions of the samples that were put.
    window: Window,
    /// Counts those that the worker has resolved.
    tally: Tally,
    worker: Snapshot<Worker>,
    handle: PromisedHandle<WorkerReport<T>, Begun<T>>,
}

impl<T: Transport + Send + Drop + 'static> Model for RunningShard<T> {
    ghost use Rattle.std.specs.Prelude.{◌≡◌, ◌+◌, []};
    ghost use Rattle.rw_fleet.specs.ShardHistories.{ShardHistory};
    ghost use Rattle.rw_fleet.specs.Work.{positions_in};
    ghost use Rattle.rw_fleet.specs.inner.Work.{IsUnended};

    ghost Value = { ShardHistory };

    ghost view = { λ r. record { setup = r.worker.value; put = r.feed.put } };

    ghost invariant = { λ r. (r.window.all ≡ positions_in r.feed.put)
        × (r.epoch ≡ r.feed.queue.epoch)
        × (r.shard ≡ r.feed.queue.shard)
        × (r.worker.value.queue ≡ r.feed.queue)
        × (r.handle.promise.worker.value ≡ r.worker.value)
        × (T.seen r.handle.promise.transport.value ≡ [])
        × IsUnended r.feed.put
        × (r.window.most ≡ r.worker.value.queue.capacity + r.worker.value.batch)
        × T.is_for r.worker.value.queue.epoch r.worker.value.queue.shard
        r.handle.promise.transport.value };
}

/// A shard that is to end, which has to be joined. Contracts see what its worker is set up with,
/// and what was put into its queue.
pub(crate) struct StoppingShard<T: Transport + Send + Drop + 'static> {
    fed: Fed,
    window: Window,
    worker: Snapshot<Worker>,
    handle: PromisedHandle<WorkerReport<T>, Begun<T>>,
}

impl<T: Transport + Send + Drop + 'static> Model for StoppingShard<T> {
    ghost use Rattle.std.specs.Prelude.{◌≡◌, ◌+◌, []};
    ghost use Rattle.rw_fleet.specs.ShardHistories.{ShardHistory};
    ghost use Rattle.rw_fleet.specs.Work.{feeding, positions_in};

    ghost Value = { ShardHistory };

    ghost view = { λ r. record { setup = r.worker.value; put = (feeding r.fed).put } };

    ghost invariant = { λ r. (r.window.all ≡ positions_in (feeding r.fed).put)
        × (r.worker.value.queue ≡ (feeding r.fed).queue)
        × (r.handle.promise.worker.value ≡ r.worker.value)
        × (T.seen r.handle.promise.transport.value ≡ [])
        × (r.window.most ≡ r.worker.value.queue.capacity + r.worker.value.batch)
        × T.is_for r.worker.value.queue.epoch r.worker.value.queue.shard
        r.handle.promise.transport.value };
}

impl<T: Transport + Send + Drop + 'static> RunningShard<T> {
    /// Opens a queue, and starts its worker. The transport has made no exchange yet.
    pub(crate) fn open<P: Pause + Send + Drop + 'static, R: Threads + Wait + Copy + Send + 'static>(
        rt: &R,
        alloc: Global,
        config: &Config,
        epoch: u64,
        shard: u32,
        transport: T,
        pause: P,
        stop: StopFlag,
    ) -> Result<RunningShard<T>, AllocError>
        requires unused { T.seen transport ≡ [] }
        requires made { T.is_for epoch shard transport }
        ensures queue { IfOk result
            (λ r. (r.setup.queue.epoch ≡ epoch) × (r.setup.queue.shard ≡ shard)) }
        ensures setup { IfOk result (λ r. IsSetUp config.now r.setup) }
        ensures empty { IfOk result (λ r. r.put ≡ []) }
    {
        let fields = config.fields();
        let capacity = fields.capacity.get() as usize;
        let window = Window::new(alloc, capacity + fields.batch.get() as usize)?;
        let (feed, drain) = open(alloc, epoch, shard, capacity)?;
        let Ok(worker) = Worker::new(alloc, config, epoch, shard, drain) else {
            return Err(AllocError);
        };
        let tally = worker.tally()?;
        let begun = Snapshot::of(&worker);
        let handle = spawn(rt, worker, transport, pause, stop)?;
        Ok(RunningShard {
            epoch,
            shard,
            feed,
            window,
            tally,
            worker: begun,
            handle,
        })
    }

    /// Returns how many samples were put.
    pub(crate) fn count(&self) -> u64
        ensures { result ≡ count_in self.now }
    {
        self.window.len()
    }

    /// Returns how many samples wait to be resolved, as of the last update of the worker: at most
    /// `most`, and none if they only wait for the `batch` samples of a full batch.
    pub(crate) fn waiting(&self, batch: u64, most: u64) -> u64
        ensures { result ≤ left_at_work most self.now }
    {
        let waiting = self.count().saturating_sub(self.tally.read());
        if waiting < batch && !self.tally.is_sending() {
            0
        } else {
            waiting.min(most)
        }
    }

    /// Puts a sample. It may wait for room.
    pub(crate) fn put<R: Wait>(&mut self, rt: &R, sample: RoutedSample) -> Result<(), Fault>
        requires later { (k : ℕ) (o : Place) → slice_get (places_in self.old.put) k ≡ Some o
            → o.pos < sample.pos }
        ensures setup { self.new.setup ≡ self.old.setup }
        ensures put { MatchResult result (λ _. samples_in self.new.put
            ≡ samples_in self.old.put ++ put_as self.old sample ∷ []) (λ _. self.new ≡ self.old) }
        ensures marks { marks_in self.new.put ≡ marks_in self.old.put }
        ensures items { OnOk result (self.new.put ≡ self.old.put ++ item_as self.old sample ∷ []) }
        ensures memory { result ≡ Err Fault.OutOfMemory → 2 ^ 60 ≤ length (places_in self.old.put) }
    {
        let RoutedSample {
            pos,
            series,
            t,
            word,
            labels,
        } = sample;
        let seq = self.window.len();
        if seq >= 1 << 60 {
            return Err(Fault::OutOfMemory);
        }
        let place = Place {
            epoch: self.epoch,
            shard: self.shard,
            seq,
            pos,
            series,
        };
        let item = Item::Sample(place, t, word, labels);
        if let Err(_) = self.feed.put(rt, item) {
            return Err(Fault::Gone);
        }
        self.window.push(pos);
        Ok(())
    }

    /// Puts a Flush. It may wait for room.
    pub(crate) fn mark<R: Wait>(&mut self, rt: &R) -> Result<(), Fault>
        ensures setup { self.new.setup ≡ self.old.setup }
        ensures put { MatchResult result (λ _. self.new.put
            ≡ self.old.put ++ Item.Flush ∷ []) (λ _. self.new ≡ self.old) }
        ensures memory { result ≡ Err Fault.OutOfMemory → ⊥ }
    {
        if let Err(_) = self.feed.put(rt, Item::Flush) {
            return Err(Fault::Gone);
        }
        Ok(())
    }

    /// Hands over what was put and is held back, if the worker still takes. It may wait for room.
    pub(crate) fn hand_over<R: Wait>(&mut self, rt: &R)
        ensures { self.new ≡ self.old }
    {
        let _ = self.feed.hand_over(rt);
    }

    /// Puts an End if the worker still takes. It may wait for room.
    pub(crate) fn end<R: Wait>(self, rt: &R, kind: Kind) -> StoppingShard<T>
        ensures setup { result.setup ≡ self.setup }
        ensures put { samples_in result.put ≡ samples_in self.put }
        ensures ended { IsEndedBy kind result.put }
    {
        let RunningShard {
            epoch: _,
            shard: _,
            feed,
            window,
            tally: _,
            worker,
            handle,
        } = self;
        let fed = end_of(rt, feed, kind);
        StoppingShard {
            fed,
            window,
            worker,
            handle,
        }
    }
}

impl<T: Transport + Send + Drop + 'static> StoppingShard<T> {
    /// Waits for the worker to end.
    pub(crate) fn join<R: Threads>(self, rt: &R) -> StoppedShard<T>
        ensures lane { lane_of result ≡ self }
        ensures worked { IsWorked T.tells T.seen T.is_for result }
    {
        let StoppingShard {
            fed,
            window,
            worker,
            handle,
        } = self;
        let WorkerReport {
            end,
            resolved,
            stopped,
            gone: _,
            ledger,
            transport,
        } = handle.join(rt);
        let ends = meet(rt, fed, end);
        let abandoned = window.behind(resolved);
        StoppedShard {
            worker,
            abandoned,
            part: ledger,
            finished: Finished {
                ends,
                transport,
                resolved,
                stopped,
            },
        }
    }
}

//! The samples that are not resolved, and the room to list them.

ghost use Rattle.std.specs.Prelude.{◌≡◌, ◌⊎◌, ◌+◌, ◌≤◌, ◌++◌, [], length, Err, OnOk, vec_len, vec_capacity};
ghost use Rattle.rw_fleet.specs.ShardHistories.{AreFresh};
ghost use Rattle.rw_fleet.specs.Stopped.{abandoned_in};
ghost use Rattle.rw_fleet.specs.Work.{AreResolved, HasCut};
ghost use Rattle.rw_sender.specs.Feeders.{Sorting};
ghost use Rattle.rw_sender.specs.Placement.{IsShardCount};
ghost use Rattle.rw_sender.specs.Shipping.{HasCompared, PlacesAll};
ghost use Rattle.rw_sender.specs.inner.Reports.{HasListed, IsRoomFor};

use rw_fleet::{Connect, Fault, Resolution, ShardSet, StoppedShard, StoppedShards};
use rw_shard_queue::Kind;
use std::alloc::AllocError;
use std::sync::Wait;
use std::thread::Threads;

/// Appends the positions of the samples of these shards that are not resolved, for which there is
/// room.
fn list_all<T>(shards: &[StoppedShard<T>], samples: &mut Vec<u64>)
    requires { vec_len samples.old + length (abandoned_in shards.now) ≤ vec_capacity samples.old }
    ensures { samples.new.items ≡ samples.old.items ++ abandoned_in shards.now }
{
    for shard in shards {
        samples
            .extend_from_slice(shard.abandoned.as_slice())
            .unwrap();
    }
}

/// Opens the queues of `shards` shards, and starts their workers, with room in `samples` for those
/// that they may leave. After an `Err` some may be at work.
pub(crate) fn open_listed<C: Connect + Drop, R: Threads + Wait + Copy + Send + 'static>(
    rt: &R,
    fleet: &mut ShardSet<C>,
    samples: &mut Vec<u64>,
    shards: u32,
) -> Result<(), AllocError>
    requires none { fleet.old.current ≡ [] }
    requires most { shards ≤ 1000 }
    requires resolved { AreResolved fleet.old.ended }
    requires room { IsRoomFor fleet.old samples.old }
    ensures rest { fleet.new ≡ record fleet.old { current = fleet.new.current } }
    ensures fresh { AreFresh fleet.new.epoch fleet.new.current }
    ensures all { OnOk result (length fleet.new.current ≡ shards) }
    ensures room { IsRoomFor fleet.new samples.new }
{
    let Some(count) = (shards as usize).checked_mul(fleet.window()) else {
        return Err(AllocError);
    };
    samples.reserve(count)?;
    fleet.open(rt, shards)
}

/// Ends the epoch, once all that was put is resolved, and opens the next one with `shards` shards.
pub(crate) fn begin_epoch<C: Connect + Drop, R: Threads + Wait + Copy + Send + 'static>(
    rt: &R,
    fleet: &mut ShardSet<C>,
    samples: &mut Vec<u64>,
    shards: u32,
) -> Result<(), Fault>
    requires most { shards ≤ 1000 }
    requires room { IsRoomFor fleet.old samples.old }
    ensures config { fleet.new.config ≡ fleet.old.config }
    ensures opened { OnOk result ((fleet.new.epoch ≡ fleet.old.epoch + 1)
        × (length fleet.new.current ≡ shards) × AreFresh fleet.new.epoch fleet.new.current) }
    ensures drained { OnOk result (AreResolved fleet.new.ended) }
    ensures gone { result ≡ Err Fault.Gone → HasCut fleet.new.ended }
    ensures compared { (fleet.new ≡ fleet.old) ⊎ HasCompared fleet.old fleet.new }
    ensures next { OnOk result (HasCompared fleet.old fleet.new) }
    ensures room { IsRoomFor fleet.new samples.new }
    ensures places { (log : Sorting) → IsShardCount (length fleet.old.current)
        → PlacesAll log fleet.old → PlacesAll log fleet.new }
{
    if fleet.epoch() == u64::MAX {
        return Err(Fault::OutOfMemory);
    }
    let Resolution::All = fleet.close(rt) else {
        return Err(Fault::Gone);
    };
    if open_listed(rt, fleet, samples, shards).is_err() {
        return Err(Fault::OutOfMemory);
    }
    Ok(())
}

/// Ends all shards at work and waits for their workers, which are stopped at once if the end is
/// hard. Lists in `samples` those that are not resolved.
pub(crate) fn finish_listed<C: Connect + Drop, R: Threads + Wait>(
    rt: &R,
    fleet: ShardSet<C>,
    mut samples: Vec<u64>,
    kind: Kind,
) -> (StoppedShards<C::T>, Vec<u64>, Resolution)
    requires { IsRoomFor fleet samples }
    ensures { HasListed C.T.tells C.T.seen C.T.is_for fleet result.0 result.1.items kind result.2 }
{
    let (ended, resolution) = fleet.finish(rt, kind);
    list_all(ended.kept(), &mut samples);
    (ended, samples, resolution)
}

//! Calls for all shards of an epoch.

ghost use Rattle.std.specs.Prelude.{◌≡◌, ◌+◌, ◌≤◌, ℕ, List, [], ◌++◌, map, OnOk, Err, vec_len, vec_capacity};
ghost use Rattle.std.specs.List.{sum_by};
ghost use Rattle.rw_fleet.specs.ShardHistories.{AreFresh, AreSame, AreSetUp, marked, put_into};
ghost use Rattle.rw_fleet.specs.Loads.{load_of, resolved_in, left_in_shard, IsAdvised};
ghost use Rattle.rw_fleet.specs.Stopped.{names_in_parts, part_of};
ghost use Rattle.rw_fleet.specs.Work.{AreResolved, AreEndedBy, AreWorked, lane_of};
ghost use Rattle.rw_fleet.specs.inner.Work.{HasUnresolved};

use crate::connect::Connect;
use crate::joined::{Resolution, StoppedShard};
use crate::load::Load;
use crate::running_shard::{Fault, RunningShard, StoppingShard};
use crate::stopped::StoppedShards;
use rw_ledger::Reason;
use rw_shard_core::Config;
use rw_shard_queue::Kind;
use rw_worker::{StopFlag, Transport};
use std::alloc::{AllocError, Global};
use std::sync::Wait;
use std::thread::Threads;

/// Opens the queues of an epoch, and starts their workers, until one cannot be started.
pub(crate) fn open_all<C: Connect, R: Threads + Wait + Copy + Send + 'static>(
    rt: &R,
    alloc: Global,
    config: &Config,
    epoch: u64,
    shards: u32,
    connect: &mut C,
    stop: &StopFlag,
    mut running: Vec<RunningShard<C::T>>,
) -> (Vec<RunningShard<C::T>>, Result<(), AllocError>)
    requires none { running.items ≡ [] }
    requires room { shards ≤ vec_capacity running }
    ensures fresh { AreFresh epoch result.0.items }
    ensures setup { AreSetUp config.now result.0.items }
    ensures len { vec_len result.0 ≤ shards }
    ensures all { OnOk result.1 (vec_len result.0 ≡ shards) }
{
    for shard in 0..shards {
        let Ok(flag) = stop.share() else {
            return (running, Err(AllocError));
        };
        let Ok((transport, pause)) = connect.transport(epoch, shard) else {
            return (running, Err(AllocError));
        };
        let Ok(opened) = RunningShard::open(rt, alloc, config, epoch, shard, transport, pause, flag)
        else {
            return (running, Err(AllocError));
        };
        running.push_reserved(opened);
    }
    (running, Ok(()))
}

/// Puts a Flush into each queue, as far as the workers still take.
pub(crate) fn mark_all<T: Transport + Send + Drop + 'static, R: Wait>(
    rt: &R,
    running: &mut Vec<RunningShard<T>>,
) -> Result<(), Fault>
    ensures same { AreSame running.old.items running.new.items }
    ensures len { vec_len running.new ≡ vec_len running.old }
    ensures capacity { vec_capacity running.new ≡ vec_capacity running.old }
    ensures all { OnOk result (running.new.items ≡ map marked running.old.items) }
    ensures memory { result ≡ Err Fault.OutOfMemory → ⊥ }
{
    for k in 0..running.len() {
        running[k].mark(rt)?;
    }
    Ok(())
}

/// Hands over what the queues hold back, as far as the workers still take.
pub(crate) fn hand_over_all<T: Transport + Send + Drop + 'static, R: Wait>(
    rt: &R,
    running: &mut Vec<RunningShard<T>>,
)
    ensures items { running.new.items ≡ running.old.items }
    ensures len { vec_len running.new ≡ vec_len running.old }
    ensures capacity { vec_capacity running.new ≡ vec_capacity running.old }
{
    for k in 0..running.len() {
        running[k].hand_over(rt);
    }
}

/// Puts an End into each queue.
pub(crate) fn end_all<T: Transport + Send + Drop + 'static, R: Wait>(
    rt: &R,
    running: Vec<RunningShard<T>>,
    mut ending: Vec<StoppingShard<T>>,
    kind: Kind,
) -> Vec<StoppingShard<T>>
    requires none { ending.items ≡ [] }
    requires room { vec_len running ≤ vec_capacity ending }
    ensures len { vec_len result ≡ vec_len running }
    ensures same { AreSame running.items result.items }
    ensures ended { AreEndedBy kind (map put_into result.items) }
{
    let mut rest = running.into_iter();
    while let Some(shard) = rest.next() {
        ending.push_reserved(shard.end(rt, kind));
    }
    rest.destroy_empty();
    ending
}

/// Waits for each worker.
pub(crate) fn join_all<T: Transport + Send + Drop + 'static, R: Threads>(
    rt: &R,
    ending: Vec<StoppingShard<T>>,
    mut joined: StoppedShards<T>,
) -> StoppedShards<T>
    requires room { vec_len ending ≤ joined.room }
    requires worked { AreWorked T.tells T.seen T.is_for joined.items }
    ensures folded { result.folded ≡ joined.folded }
    ensures same { (more : List _) × (result.items ≡ joined.items ++ more)
        × (map lane_of more ≡ ending.items) }
    ensures worked { AreWorked T.tells T.seen T.is_for result.items }
{
    let mut rest = ending.into_iter();
    while let Some(shard) = rest.next() {
        joined.push(shard.join(rt));
    }
    rest.destroy_empty();
    joined
}

/// Returns whether all that was put into these queues is resolved.
pub(crate) fn resolution_of<T: Transport>(joined: &Vec<StoppedShard<T>>) -> Resolution
    ensures all { result ≡ Resolution.All → AreResolved joined.now.items }
    ensures not_all { result ≡ Resolution.NotAll → HasUnresolved joined.now.items }
{
    for shard in joined.iter() {
        if !shard.is_resolved() {
            return Resolution::NotAll;
        }
    }
    Resolution::All
}

/// Returns the load `before`, and that of these shards, which have ended.
pub(crate) fn load_with<T>(before: Load, joined: &Vec<StoppedShard<T>>) -> Load
    ensures { (r l : ℕ) → before ≡ load_of r l → result
        ≡ load_of (r + sum_by resolved_in joined.now.items)
        (l + sum_by left_in_shard joined.now.items) }
{
    let mut load = before;
    for shard in joined.iter() {
        load = load.with(shard.finished.resolved, shard.abandoned.len() as u64);
    }
    load
}

/// Appends the refused samples of these shards to `names`. After an `Err` it may have some of them.
pub(crate) fn push_parts<T>(
    joined: &Vec<StoppedShard<T>>,
    names: &mut Vec<(u64, Reason)>,
) -> Result<(), AllocError>
    ensures all { OnOk result (names.new.items
        ≡ names.old.items ++ names_in_parts (map part_of joined.now.items)) }
    ensures grown { (more : List _) × (names.new.items ≡ names.old.items ++ more) }
{
    for shard in joined.iter() {
        names.extend_from_slice(shard.part.iter().as_slice())?;
    }
    Ok(())
}

/// Returns the load `ended`, and that of these shards at work, which send batches of `batch`
/// samples. Of each shard at most `window` samples may wait.
pub(crate) fn load_at_work<T: Transport + Send + Drop + 'static>(
    ended: Load,
    running: &Vec<RunningShard<T>>,
    batch: u64,
    window: u64,
) -> Load
    ensures { (r l : ℕ) → ended ≡ load_of r l → IsAdvised window running.now.items r l result }
{
    let mut load = ended;
    for shard in running.iter() {
        let waiting = shard.waiting(batch, window);
        load = load.with(shard.count() - waiting, waiting);
    }
    load
}

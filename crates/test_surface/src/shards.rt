//! The parts of a sender: its configuration, the core of a shard, a set of shards.

use rw_sender::{
    Config, ConfigFields, Connect, Pause, ShardCore, ShardSet, StopFlag, StoppedShard,
    StoppedShards, Tally, Target, Transport, Worker, spawn,
};
use std::sync::Wait;
use std::thread::Threads;

/// The calls of a configuration.
pub fn of_configs() {
    let _ = (Config::new, Config::standard, Config::fields);
    let _ = (Config::into_fields, ConfigFields::standard);
    let _ = (Config::conforms, ShardCore::conforms);
    let _ = (ConfigFields::into_choice, ConfigFields::is_ordered);
    let _ = Target::standard;
}

/// What the core of a shard returns.
pub fn of_cores() {
    let _ = (ShardCore::is_empty, ShardCore::has_ended);
    let _ = (ShardCore::batch_id, ShardCore::may_take);
    let _ = (ShardCore::open_samples, ShardCore::pending_places);
    let _ = (ShardCore::has_room_in, ShardCore::is_waiting);
}

/// The calls of a stop flag and of what a worker counts.
pub fn of_flags<T: Transport>() {
    let _ = (StopFlag::new, StopFlag::share, StopFlag::set);
    let _ = (Tally::read, Tally::is_sending, Worker::tally);
    let _ = StoppedShard::<T>::is_resolved;
}

/// What a set of shards returns.
pub fn of_sets<C: Connect + Drop>() {
    let _ = (ShardSet::<C>::new, ShardSet::<C>::len);
    let _ = (ShardSet::<C>::epoch, ShardSet::<C>::window);
    let _ = ShardSet::<C>::load;
}

/// What a set of shards is given.
pub fn of_filled_sets<C: Connect + Drop, R: Wait>() {
    let _ = (ShardSet::<C>::put::<R>, ShardSet::<C>::mark::<R>);
    let _ = (ShardSet::<C>::mark_one::<R>, ShardSet::<C>::hand_over::<R>);
}

/// How a set of shards begins.
pub fn of_opened_sets<C: Connect + Drop, R: Threads + Wait + Copy + Send + 'static>() {
    let _ = ShardSet::<C>::open::<R>;
}

/// How a set of shards ends.
pub fn of_ended_sets<C: Connect + Drop, R: Threads + Wait>() {
    let _ = (ShardSet::<C>::close::<R>, ShardSet::<C>::finish::<R>);
}

/// What the shards that have ended leave.
pub fn of_stopped_shards<T>() {
    let _ = (StoppedShards::<T>::resolved, StoppedShards::<T>::kept);
    let _ = (
        StoppedShards::<T>::refused_before,
        StoppedShards::<T>::into_kept,
    );
    let _ = StoppedShards::<T>::push_refused;
}

/// The start of a worker on its own thread.
pub fn of_started_workers<
    T: Transport + Send + Drop + 'static,
    P: Pause + Send + Drop + 'static,
    R: Threads + Wait + Copy + Send + 'static,
>() {
    let _ = spawn::<T, P, R>;
}

//! The upper half of the sender: shards, workers, shippers.

use rw_sender::{
    Attempt, Config, Connect, Cuts, FeedFault, Feeder, Finished, Load, LogOptions, Lost, Outcome,
    Pause, Reply, ReplyRead, Report, ShardCore, Shipper, StopFlag, Target, Transport, Worker,
    WorkerReport, read_reply, request_bytes,
};
use std::sync::Wait;
use std::thread::Threads;

/// The types of rw_sender.
pub type Types<T> = (
    (Config, Target, ShardCore, Attempt, ReplyRead, Outcome),
    (Reply, Lost, StopFlag, Worker, WorkerReport<T>),
    (Load, Finished<T>, FeedFault, Report<T>),
);

/// The calls of a shard.
pub fn of_shards() {
    let _ = (
        ShardCore::new,
        ShardCore::can_take,
        ShardCore::take,
        ShardCore::due,
    );
    let _ = (ShardCore::freeze, ShardCore::attempt, ShardCore::reply);
    let _ = (ShardCore::lost, ShardCore::kill, request_bytes, read_reply);
}

/// How a worker is made.
pub fn of_new_workers() {
    let _ = Worker::new;
}

/// The run of a worker, and what it runs with.
pub fn of_workers<T: Transport + Drop, P: Pause, R: Wait>() {
    let _ = (T::exchange, P::pause);
    let _ = Worker::run::<T, P, R>;
}

/// The calls of what a shipper feeds its shards with.
pub fn of_feeders() {
    let _ = (Feeder::new, Feeder::feed, Feeder::read, Feeder::place);
    let _ = (Feeder::sent, Feeder::count, Feeder::dropped);
    let _ = (Feeder::filtered, Feeder::finish);
    let _ = (
        Feeder::skipped_of,
        Feeder::newest,
        Feeder::fault_place,
        Feeder::label,
    );
    let _ = (Cuts::within, Cuts::reset, Cuts::count);
}

/// The start of a shipper.
pub fn of_new_shippers<C: Connect + Drop, R: Threads + Wait + Copy + Send + 'static>() {
    let _ = C::transport;
    let _ = (Shipper::<C>::start::<R>, Shipper::<C>::start_within::<R>);
    let _ = (Shipper::<C>::start_with::<R>, LogOptions::without_labels);
}

/// What a shipper is fed.
pub fn of_fed_shippers<C: Connect + Drop, R: Wait>() {
    let _ = Shipper::<C>::feed::<R>;
}

/// The marks of a shipper.
pub fn of_marked_shippers<C: Connect + Drop, R: Wait>() {
    let _ = Shipper::<C>::flush::<R>;
}

/// The epochs of a shipper.
pub fn of_resharded_shippers<C: Connect + Drop, R: Threads + Wait + Copy + Send + 'static>() {
    let _ = Shipper::<C>::reshard::<R>;
    let _ = Shipper::<C>::feed_with_skew::<R>;
}

/// How far a shipper is.
pub fn of_loads<C: Connect + Drop>() {
    let _ = (Shipper::<C>::entries_read, Shipper::<C>::load);
    let _ = Shipper::<C>::conforms;
    let _ = Shipper::<C>::fault_place;
    let _ = (Shipper::<C>::dropped, Shipper::<C>::filtered);
    let _ = (Shipper::<C>::skipped_of, Shipper::<C>::newest);
}

/// What a report lists.
pub fn of_reports<T>() {
    let _ = Report::<T>::dropped_samples;
}

/// The orderly stop.
pub fn of_orderly_stops<C: Connect + Drop, R: Threads + Wait>() {
    let _ = Shipper::<C>::stop_orderly::<R>;
}

/// The hard stop.
pub fn of_hard_stops<C: Connect + Drop, R: Threads + Wait>() {
    let _ = Shipper::<C>::stop_hard::<R>;
}

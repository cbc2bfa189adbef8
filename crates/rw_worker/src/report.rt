//! What a worker reports.

use crate::gone::FeederGone;
use crate::stop::Stopped;
use rw_ledger::Ledger;
use rw_shard_queue::{Drain, Ended, Killed, Kind};

/// The end of its queue that a worker gives back.
#[derive(Drop)]
pub enum TakingEnd {
    /// The End was taken.
    Ended(Kind, Drain<Ended>),
    /// The end was given up: the feeder was gone, or the stop flag was set.
    Killed(Drain<Killed>),
}

/// What a worker has done.
#[derive(Drop)]
pub struct WorkerReport<T> {
    pub end: TakingEnd,
    /// How many samples are resolved: the receiver has them, or has refused them.
    pub resolved: u64,
    /// Present if the worker read the stop flag as set.
    pub stopped: Option<Stopped>,
    /// Present if the worker found its feeder gone.
    pub gone: Option<FeederGone>,
    /// The refused samples, each with the status of its batch.
    pub ledger: Ledger,
    pub transport: T,
}

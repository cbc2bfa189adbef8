//! A shard whose worker has ended.

ghost use Rattle.std.specs.Prelude.{◌≡◌};
ghost use Rattle.rw_fleet.specs.Work.{is_resolved};

use crate::ends::Ends;
use rw_ledger::Ledger;
use rw_worker::{Stopped, Transport, Worker};
use std::snapshot::Snapshot;

/// Whether all samples that were put into the queues of some shards are resolved.
#[derive(Clone, Copy, Debug, PartialEq, Eq)]
pub enum Resolution {
    /// The receiver has each of them, or has refused it.
    All,
    /// One of them was not taken, or its worker does not say that it is resolved.
    NotAll,
}

/// The queue of a shard whose worker has ended, and how far the worker has come.
#[derive(Drop)]
pub struct Finished<T> {
    /// Both ends of the queue.
    pub ends: Ends,
    /// What the worker sent over.
    pub transport: T,
    /// How many of the samples that were put are resolved, counted from the first: the receiver has
    /// them, or has refused them.
    pub resolved: u64,
    /// Present if the worker read the stop flag as set.
    pub stopped: Option<Stopped>,
}

/// A shard whose worker has ended.
#[derive(Drop)]
pub struct StoppedShard<T> {
    /// What the worker was set up with.
    pub worker: Snapshot<Worker>,
    /// The positions of the samples that were put and are not resolved.
    pub abandoned: Vec<u64>,
    /// The refused samples, each with the status of its batch.
    pub part: Ledger,
    /// The queue, and how far the worker has come.
    pub finished: Finished<T>,
}

impl<T: Transport> StoppedShard<T> {
    /// Returns whether all samples that were put were taken, and are resolved.
    pub fn is_resolved(&self) -> bool
        ensures { result ≡ is_resolved self.now }
    {
        if let Ends::Compared(_) = &self.finished.ends {
            return self.abandoned.is_empty();
        }
        false
    }
}

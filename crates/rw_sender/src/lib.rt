//! The sender of Remote-Write 1.0 in threads: a log is read piece by piece, its samples are routed
//! to the queues of many shards, and a worker of each shard sends them in batches of bounded size.
//!
//! The configuration, the state of a shard and the workers come from the crates below and are
//! re-exported here.
#![tactic(auto)]

mod bytes_laws;
mod cuts;
mod epochs;
mod feeder;
mod laws;
mod place;
mod report;
mod shipper;
mod span;
mod unresolved;

pub use bytes_laws::{body_within_its_count, cuts_keep_within, marks_keep_within};
pub use cuts::Cuts;
pub use feeder::{Feeder, Next};
pub use laws::{batches_are_short, queues_stay_within, samples_are_spread};
pub use report::Report;
pub use rw_fleet::{
    Connect, Ends, Fault, Fed, Finished, Load, Resolution, ShardSet, StoppedShard, StoppedShards,
};
pub use rw_shard_core::{
    Attempt, Config, ConfigFields, MAX_FIELDS, MAX_HEAD_BYTES, Outcome, ReplyRead, ShardCore,
    Target, read_reply, request_bytes,
};
pub use rw_worker::{
    Begun, FeederGone, Lost, Pause, Reply, StopFlag, Stopped, TakingEnd, Tally, Transport, Worker,
    WorkerReport, spawn,
};
pub use shipper::{FeedFault, LogOptions, Shipper};

//! The worker of a shard: it takes what comes out of the shard's queue, and sends it batch by
//! batch.
#![tactic(auto)]

mod backoff;
mod begun;
mod exchanged;
mod gone;
mod report;
mod send;
mod state;
mod step;
mod stop;
mod tally;
mod transport;
mod worker;

pub use begun::{Begun, spawn};
pub use exchanged::Exchanged;
pub use gone::FeederGone;
pub use report::{TakingEnd, WorkerReport};
pub use stop::{StopFlag, Stopped};
pub use tally::Tally;
pub use transport::{Lost, Pause, Reply, Transport};
pub use worker::Worker;

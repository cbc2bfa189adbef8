//! The queue of a shard, on one thread or between the two threads of a feeder and a worker.
//!
//! Samples are handed over in blocks. The feeder holds one end of the queue and the worker the
//! other, and the type of an end says what it may still do.
#![tactic(auto)]

mod block;
mod ends;
mod rule;
mod spares;
mod stage;
mod whole;

pub use ends::{Drain, Feed, Gone, Taken, open};
pub use rw_plain_queue::{Item, Kind, PlainQueue, PutFault, histories_go_on};
pub use stage::{Deserted, Ended, Killed, Open, Stage};
pub use whole::{Whole, begins, compare};

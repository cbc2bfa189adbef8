//! The queue between the feeder and the worker of a shard, and what goes through it.
#![tactic(auto)]

mod item;
mod laws;
mod plain;

pub use item::{Item, Kind};
pub use laws::histories_go_on;
pub use plain::{PlainQueue, PutFault};

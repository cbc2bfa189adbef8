//! A sender, the network and a receiving head on one thread, moved by events.
#![tactic(auto)]

mod arrive;
mod engine;
mod laws;
mod log;
mod place;
mod receiver;
mod report;
mod round;
mod sent;
mod shard;
mod shards;
mod step;
mod world;

pub use laws::requests_are_answered_as_bytes;
pub use rw_machine::{Event, How};
pub use rw_shard_core::Outcome;
pub use rw_wal_tail::{Piece, TailFault};
pub use world::{Refused, World};

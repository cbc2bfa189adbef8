//! The shards of a sender, epoch by epoch: how many are wanted, and no new ones before the old ones
//! are drained.
#![tactic(auto)]

mod fleet;
mod shard;
mod stage;
mod wanted;

pub use fleet::{Fleet, NextFault};
pub use shard::{Make, Shard};
pub use stage::{Draining, FleetStage, Running};
pub use wanted::want;

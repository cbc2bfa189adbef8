//! The shards of a sender, each with its queue and a worker in its own thread. They are opened
//! epoch by epoch, are put samples and marks, and are ended and joined.
#![tactic(auto)]

mod connect;
mod ends;
mod fleet;
mod joined;
mod lists;
mod load;
mod running_shard;
mod stopped;
mod window;

pub use connect::Connect;
pub use ends::{Ends, Fed};
pub use fleet::ShardSet;
pub use joined::{Finished, Resolution, StoppedShard};
pub use load::Load;
pub use running_shard::Fault;
pub use stopped::StoppedShards;

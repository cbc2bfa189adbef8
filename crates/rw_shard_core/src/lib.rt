//! The sender of messages: its configuration, the state of one shard, and the bytes of its requests
//! and of the replies to them.
#![tactic(auto)]

mod blank_line;
mod config;
mod outcome;
mod replies;
mod request;
mod shard;

pub use config::{Config, ConfigFields, Target};
pub use outcome::Outcome;
pub use replies::{MAX_FIELDS, MAX_HEAD_BYTES, ReplyRead, read_reply};
pub use request::{body_in_request, request_bytes, snappy_request_bytes};
pub use shard::{Attempt, ShardCore};

//! The command `send`: the segments of a log are shipped over many shards, to its present end or as
//! it grows, and the report is printed.
#![tactic(auto)]

mod connect;
mod counters;
mod feed_error;
mod follow;
mod follow_fault;
mod keeper;
mod live;
mod options;
mod over;
mod printed_report;
mod send;
mod sharding;
mod stopping;
mod until_aborted;

pub use connect::TcpConnect;
pub use counters::FeedContext;
pub use feed_error::FeedError;
pub use follow::{run_follow, run_kept};
pub use follow_fault::{FollowFault, RunFault};
pub use keeper::{Keeper, KeepsPlaces};
pub use options::SendOptions;
pub use rw_external_labels::ExternalLabels;
pub use rw_sender::LogOptions;
pub use rw_tcp::{Access, AccessError, GiveUp, RefusalStop};
pub use rw_worker::StopFlag;
pub use send::run_send;
pub use sharding::{Sharding, resharded, retuned};
pub use until_aborted::UntilAborted;

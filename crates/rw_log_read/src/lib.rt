//! The log, read entry by entry: the one way in which the commands `body`, `plan` and `inspect`
//! read it.
#![tactic(auto)]

mod counting;
mod log;
mod log_read;
mod named;
mod segment_text;
mod skipped;
mod sums;

pub use log::{read_into, read_named};
pub use log_read::{LogRead, Segment};
pub use named::{Named, UnreadLog};
pub use rw_wal_tail::Damage;
pub use skipped::SkippedRecords;
pub use sums::{Sums, one_more};

//! The batches that a shard sends (Remote-Write 1.0): their ids, their messages and their bodies.
#![tactic(auto)]

mod batch;
mod body;
mod builder;
mod fields;
mod found;
mod grouping;
mod laws;
mod rows;

pub use batch::{Batch, BatchId};
pub use builder::{Builder, MAX_BATCH};
pub use grouping::Grouping;
pub use laws::{message_grows, message_keeps_all, numbers_stand_for_labels};

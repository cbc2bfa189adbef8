//! The state of a sender and a receiver as text, one fact a line.
#![tactic(auto)]

mod state;

pub use state::{push_dropped, push_ending, push_filtered, push_received, push_store, push_work};

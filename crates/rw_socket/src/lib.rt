//! TCP connections that are accepted, read and written up to a deadline.
#![tactic(auto)]

mod accepts;
mod deadline;
mod timely;

pub use accepts::{accept, limit_accepts};
pub use deadline::Deadline;
pub use timely::Timely;

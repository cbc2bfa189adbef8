//! How a sender judges a reply, and how long it waits before it sends again (Remote-Write 1.0,
//! "Retries & backoff").
#![tactic(auto)]

mod backoff;
mod judgement;

pub use backoff::delay;
pub use judgement::{Judgement, judge};

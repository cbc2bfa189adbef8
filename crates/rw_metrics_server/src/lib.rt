//! The pages of a sender or of a receiver, served over HTTP.
#![tactic(auto)]

mod asked;
mod client;
mod reply;
mod server;

pub use server::serve_metrics;

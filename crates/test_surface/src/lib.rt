//! The public surface: every call, type, trait and constant of each of the seventeen libraries,
//! named through its own crate. That this compiles is the test; nothing is run.
#![tactic(auto)]

pub mod ends;
pub mod laws;
pub mod log;
pub mod messages;
pub mod names;
pub mod receiver;
pub mod sender;
pub mod shards;
pub mod shippers;
pub mod tools;
pub mod types;

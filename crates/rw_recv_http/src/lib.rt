//! The receiving endpoint of Remote-Write 1.0 over HTTP/1.1, and what lends it a seat of a shared
//! head. The endpoint itself comes from `rw_endpoint` and is re-exported here.
#![tactic(auto)]

mod asking;

pub use asking::Asking;
pub use rw_endpoint::{Answer, ServeEnd, replies_are_determined, replies_are_short, serve};

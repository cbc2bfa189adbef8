//! Requests over TCP, with one connection for each.
#![tactic(auto)]

mod access;
mod asked_pause;
mod doubt;
mod packed;
mod refusal;
mod repeats;
mod reply;
mod route;
mod sleep;
mod transport;

pub use access::{Access, AccessError};
pub use asked_pause::AskedPause;
pub use packed::copy_target;
pub use refusal::RefusalStop;
pub use repeats::GiveUp;
pub use reply::{NoReply, ask, ask_with_fields};
pub use route::{SharedRoute, look_up};
pub use sleep::Sleep;
pub use transport::TcpTransport;

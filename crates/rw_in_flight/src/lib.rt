//! How many bytes of unfinished bodies a service has in memory at one time, and which of them are
//! given up once there is no room for more.
#![tactic(auto)]

mod body;
mod room;
mod sums;

pub use body::Body;
pub use room::{BodyRoom, Intake};

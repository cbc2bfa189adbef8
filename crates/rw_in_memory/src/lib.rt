//! A sender and its receiver in one process: the workers of a shipper ask the seats of a shared
//! head, each request through the receiver's endpoint.
#![tactic(auto)]

mod asker;
mod laws;
mod line;
mod lines;
mod receiver;
mod ship_log;

pub use laws::a_head_in_memory_holds_the_samples;
pub use line::Line;
pub use lines::Lines;
pub use receiver::{Endpoint, Receiver};
pub use ship_log::{Shipped, ship};

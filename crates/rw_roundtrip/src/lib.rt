//! The requests of the sender as the endpoint of the receiver reads them, and an exchange between
//! the two in memory.
#![tactic(auto)]

mod field_laws;
mod in_memory;
mod laws;

pub use field_laws::{requests_with_fields_are_read, snappy_requests_with_fields_are_read};
pub use in_memory::exchange;
pub use laws::{replies_are_read, requests_are_read, snappy_requests_are_read};

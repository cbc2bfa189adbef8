//! The receiving endpoint of Remote-Write 1.0 over HTTP/1.1 (RFC 9112): the bytes of a connection
//! go in, and one reply for each request comes out, in order.
#![tactic(auto)]

mod answer;
mod coding;
mod fields;
mod finding;
mod head;
mod head_answer;
mod input;
mod intake;
mod laws;
mod names;
mod pending;
mod read_from;
mod recording;
mod reply;
mod requests;
mod serve_end;
mod values;

pub use answer::Answer;
pub use laws::{replies_are_determined, replies_are_short};
pub use recording::Recording;
pub use requests::{serve, serve_recorded};
pub use serve_end::ServeEnd;

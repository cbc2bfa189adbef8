//! The command `receive`: connections are served in threads over one head, and what the head holds
//! is printed.
#![tactic(auto)]

mod accepted;
mod bodies;
mod connection;
mod counting_seat;
mod explained_reply;
mod explanation;
mod first_refused;
mod forgetting;
mod graceful_close;
mod held;
mod next_connection;
mod pace;
mod receive;
mod refusal_reason;
mod refused_part;
mod request_trace;
mod seat_pool;
mod seat_request;
mod server_context;
mod service;
mod take_options;
mod timed_stream;
mod until;

pub use bodies::BodyBounds;
pub use explanation::refusal_words;
pub use forgetting::now_ms;
pub use receive::{Received, Service, run_receive, serve_and_print, serve_connections};
pub use take_options::TakeOptions;
pub use until::ServeUntil;

//! What a sender and a receiver are doing: counters that threads share, their page in the text
//! format of Prometheus over HTTP, and lines of progress.
#![tactic(auto)]

mod atomics;
mod body;
mod body_contents;
mod cause;
mod codes;
mod counters;
mod exposition;
mod fields;
mod heard_text;
mod html;
mod kept_counters;
mod lines;
mod memory_counters;
mod page_source;
mod process;
mod process_page;
mod progress;
mod receive_counters;
mod receive_numbers;
mod receiver_html;
mod receiver_page;
mod refusals;
mod rows;
mod send_counters;
mod send_numbers;
mod sender_html;
mod sender_page;
mod skipped_counters;
mod skipped_parts;
mod stalls;

pub use cause::Cause;
pub use counters::Counters;
pub use heard_text::reply_text;
pub use lines::{drops_line, receive_line, send_line, skipped_line};
pub use page_source::PageSource;
pub use progress::{Screen, show_progress, write_end};
pub use receive_counters::ReceiveCounters;
pub use receive_numbers::{KeptNumbers, MemoryNumbers, ReceiveNumbers};
pub use receiver_html::receive_html;
pub use receiver_page::receive_page;
pub use refusals::{RefusalReason, RefusedRequest, RefusedSamples};
pub use send_counters::SendCounters;
pub use send_numbers::{Drops, Failures, SendNumbers, Skipped};
pub use sender_html::send_html;
pub use sender_page::send_page;
pub use skipped_parts::SkippedParts;
pub use stalls::show_stalls;

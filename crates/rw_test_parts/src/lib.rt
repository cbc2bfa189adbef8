//! What several test crates are made of: devices of which one call fails, and a log, a message and
//! labels. Nothing here stops a test; the test itself does.
#![tactic(auto)]

mod devices;
mod samples;

pub use devices::{Giving, Taking};
pub use samples::{UP_MESSAGE, UP_SEGMENT, WORD_OF_ONE, raw_labels};

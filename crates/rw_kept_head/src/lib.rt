//! A head whose samples are in a journal, as a log, before they are acknowledged.
#![tactic(auto)]

mod added;
mod admit;
mod admit_kept;
mod head_reading;
mod keep_error;
mod kept_head;
pub mod laws;
mod log_writer;
mod noted_references;
mod oddities;
mod open_error;
mod reading_memory;
mod restoring;

pub use head_reading::{HeadReading, OpenedHead};
pub use kept_head::KeptHead;
pub use oddities::Oddities;
pub use open_error::OpenError;
pub use reading_memory::KeepFor;

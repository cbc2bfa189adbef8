//! What a log holds, counted: series, samples, timestamps, and the samples that a sender would
//! drop.
#![tactic(auto)]

mod cells;
mod counter;
mod counts;
mod faults;
mod found;
mod json;
mod json_text;
mod log_report;
mod report;
mod sizes;
mod table;
mod troubles;
mod words;

pub use counter::Counter;
pub use counts::Counts;
pub use faults::fault_lines;
pub use found::{Found, find_entries};
pub use json::json_of;
pub use log_report::inspect;
pub use report::LogFindings;
pub use table::table_of;

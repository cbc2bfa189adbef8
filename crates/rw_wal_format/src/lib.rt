//! The grammar of Prometheus' write-ahead log, as definitions that contracts cite, its laws, its
//! sizes and types, and its faults.
#![tactic(auto)]

mod fragment_type;
pub mod laws;
mod record_type;
mod skipped_type;
mod tail_fault;

pub use fragment_type::{FragmentType, HEADER_BYTES, MOST_DECODED, PAGE_BYTES};
pub use record_type::RecordType;
pub use skipped_type::SkippedType;
pub use tail_fault::TailFault;

//! The writer of a Prometheus write-ahead log (wal.md): records, and the segments that hold them.
#![tactic(auto)]

mod fragment;
mod laws;
mod log_fault;
mod record;
mod segment;

pub use laws::entries_are_read;
pub use log_fault::LogFault;
pub use record::{sample_record, series_record};
pub use segment::SegmentWriter;

//! A write-ahead log that a receiver keeps in a journal, a folder of segments that outlives a
//! crash: what the journal's calls promise for each moment, what a crash leaves, how a log is read
//! again and its torn end is closed, and what is added to it.
#![tactic(auto)]

mod append_error;
pub mod append_laws;
mod buffer;
mod checkpoint;
mod cut;
mod definitions;
mod error;
mod greatest;
mod image;
mod journal;
mod last_segment;
pub mod laws;
mod log_end;
mod log_reading;
mod memory;
mod old_segments;
mod pages;
mod record_search;
mod records;
mod references;
mod retire_error;
mod retiring_journal;
mod segment_read;
mod segment_taker;
mod torn_end;
mod whole_records;

pub use append_error::AppendError;
pub use checkpoint::retire_segments;
pub use definitions::{Definitions, write_definitions};
pub use error::{KeptLogDamage, ReopenError};
pub use journal::{Journal, JournalError};
pub use log_end::LogEnd;
pub use log_reading::{LogReading, ReadEnd};
pub use memory::MemoryJournal;
pub use old_segments::{OldSegments, retire_old_segments};
pub use pages::write_in_pages;
pub use references::References;
pub use retire_error::RetireError;
pub use retiring_journal::RetiringJournal;
pub use segment_taker::SegmentTaker;
pub use torn_end::close_torn;
pub use whole_records::whole_len;

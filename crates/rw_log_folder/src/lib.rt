//! The files of a log in a folder: which of them are read, in which order, and the files
//! themselves, opened when they are first read.
//!
//! A log is read from its first segment on, or from its newest checkpoint on and then the segments
//! after it.
#![tactic(auto)]

mod checkpoint;
mod files;
mod folder;
mod folder_call;
mod folder_fault;
mod listing;
mod newest_segment;
mod opened;
mod order;
mod recorded_folder;

pub use checkpoint::{has_checkpoint, log_files};
pub use files::{Gap, SegmentFile, SegmentName, check_folder, segment_files, segment_names};
pub use folder::Folder;
pub use folder_call::FolderCall;
pub use folder_fault::FolderFault;
pub use listing::{Checkpoint, Listing, LogFile, NumberedName};
pub use newest_segment::watch_newest_segment;
pub use opened::{OpenSource, Opened};
pub use order::{OrderFault, log_order};

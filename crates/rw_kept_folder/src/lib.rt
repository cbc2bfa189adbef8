//! A journal in the files of a folder.
#![tactic(auto)]

mod fault;
mod file_call;
mod folder_error;
mod folder_handle;
mod folder_journal;
mod folder_monitor;
mod open_folder;
mod opened_journal;
mod ownership;
mod record;
mod segment_files;
mod server_lock;

pub use fault::{FailedCall, FaultCause, FolderCall};
pub use folder_error::FolderError;
pub use folder_journal::FolderJournal;
pub use folder_monitor::FolderMonitor;
pub use open_folder::OpenFolder;
pub use opened_journal::open_journal;
pub use ownership::FolderRules;
pub use segment_files::SegmentFiles;
pub use server_lock::refuse_running_server;

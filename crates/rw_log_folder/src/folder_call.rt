//! What was asked of a folder whose log is read.

use crate::files::SegmentName;
use rw_history::History;

/// A call that has succeeded, and what it returned. Only contracts see the names and the bytes.
#[derive(Drop)]
pub enum FolderCall {
    /// The folder was listed, and has these segments, in order.
    Listed(History<SegmentName>),
    /// The segment of this number, with a name of this length, was opened and is the current one.
    Opened(u64, usize),
    /// One of the files that were opened in advance, of this number and with a name of this length,
    /// is the current segment.
    TookOpen(u64, usize),
    /// A read of the current segment returned these bytes.
    Read(History<u8>),
}

//! What was asked of the files of a folder.

use rw_history::History;

/// A call that changes the files, or one that has succeeded. Only contracts see the bytes.
#[derive(Drop)]
pub enum FileCall {
    /// A next segment was read, and has these bytes.
    Load(History<u8>),
    /// A file beside the last segment was written with these bytes.
    WriteCopy(History<u8>),
    /// That file was synced.
    SyncCopy,
    /// That file was renamed over the last segment.
    RenameCopy,
    /// Append these bytes to the last segment.
    Append(History<u8>),
    /// Cut the last segment to this length.
    SetLen(usize),
    /// Create the file of a next segment.
    CreateNext,
    /// The bytes of the last segment were synced.
    SyncData,
    /// The folder was synced.
    SyncFolder,
}

//! What was asked of the files of a position.

use rw_history::History;

/// A call that changes the files. Only contracts see the bytes.
#[derive(Drop)]
pub enum PositionCall {
    /// The copy was written with these bytes.
    Write(History<u8>),
    /// The copy could not be written, or not whole.
    Spoil,
    /// The copy was synced.
    Sync,
    /// The copy was renamed over the file, or may have been.
    Rename,
    /// The folder was synced.
    SyncFolder,
}

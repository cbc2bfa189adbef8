//! Why the journal in a folder cannot be opened.

use crate::fault::{FailedCall, FaultCause};
use std::alloc::{AllocError, AllocFailed};
use std::error::Error;
use std::fmt;

/// Why the journal in a folder cannot be opened. Each segment has the bytes that it had; a folder
/// that the rules let the receiver have may have been marked.
#[derive(Clone, Copy, Debug, PartialEq, Eq)]
pub enum FolderError {
    /// Memory ran out.
    OutOfMemory,
    /// The folder cannot be listed.
    Unreadable(FaultCause),
    /// The segment of this number is missing, and a later one is there.
    Missing(u64),
    /// Two files have names of this number.
    Twice(u64),
    /// The folder has a checkpoint: its log is not that of its segments alone.
    Checkpoint,
    /// Another program holds the lock on the file `lock` in the folder above, as a running
    /// Prometheus does.
    ServerRuns,
    /// It is not known whether a Prometheus runs there: that file cannot be opened or locked.
    LockUnreadable(FaultCause),
    /// The folder has segments, and not the mark of a receiver.
    NotReceived,
    /// The folder above has files of a Prometheus, whose log this may be.
    BesideServer,
    /// It is not known whose log this is: one of those files, or the mark, cannot be looked up.
    OwnerUnknown(FaultCause),
    /// The mark cannot be written or synced.
    Unmarked(FaultCause),
    /// The segments from 0 up to this number are missing, and a later one is there.
    StartMissing(u64),
    /// A segment cannot be read or synced, or the last one cannot be written anew.
    Fault(FailedCall),
}

impl From<AllocError> for FolderError {
    ghost use Rattle.std.specs.Prelude.{◌≡◌};
    ghost use Rattle.rw_kept_folder.specs.declared.folder_error.FolderError.TheVariants.{OutOfMemory};

    ghost from_gives = { λ _ e. e ≡ OutOfMemory };

    fn from(_: AllocError) -> FolderError {
        FolderError::OutOfMemory
    }
}

impl<T: Drop> From<AllocFailed<T>> for FolderError {
    ghost use Rattle.std.specs.Prelude.{◌≡◌};
    ghost use Rattle.rw_kept_folder.specs.declared.folder_error.FolderError.TheVariants.{OutOfMemory};

    ghost from_gives = { λ _ e. e ≡ OutOfMemory };

    fn from(_: AllocFailed<T>) -> FolderError {
        FolderError::OutOfMemory
    }
}

/// Writes that the segments up to this number are missing, and what to do.
fn write_missing_start<W: fmt::Write>(f: &mut fmt::Formatter<W>, last: u64) -> fmt::Result {
    if last == 0 {
        f.write_str("segment 0 is missing")?;
    } else {
        write!(f, "segments 0 to {last} are missing")?;
    }
    f.write_str(
        "; copy what is missing there, or give --allow-missing-start to go on without the samples whose labels only that has",
    )
}

impl fmt::Display for FolderError {
    fn fmt<W: fmt::Write>(&self, f: &mut fmt::Formatter<W>) -> fmt::Result {
        match self {
            FolderError::OutOfMemory => f.write_str("out of memory"),
            FolderError::Unreadable(cause) => write!(f, "cannot list the folder: {cause}"),
            FolderError::Missing(number) => write!(f, "segment {number} is missing"),
            FolderError::Twice(number) => write!(f, "two files are segment {number}"),
            FolderError::Checkpoint => f.write_str("the folder has a checkpoint"),
            FolderError::ServerRuns => f.write_str(
                "another program has locked the file 'lock' in the folder above it, as a running Prometheus does; stop that, or choose another folder",
            ),
            FolderError::LockUnreadable(cause) => write!(
                f,
                "cannot see whether a Prometheus writes there, by the file 'lock' in the folder above it: {cause}; permit reading it, or choose another folder"
            ),
            FolderError::NotReceived => f.write_str(
                "it has segments that no receiver wrote; give --adopt to go on there, or choose another folder",
            ),
            FolderError::BesideServer => f.write_str(
                "the folder above it has 'chunks_head' or 'queries.active', as that of a Prometheus has; choose another folder, or give --adopt if no Prometheus writes there",
            ),
            FolderError::OwnerUnknown(cause) => write!(
                f,
                "cannot see whether a receiver writes there, or a Prometheus: {cause}; permit reading it and the folder above it, or choose another folder"
            ),
            FolderError::Unmarked(cause) => {
                write!(f, "cannot write the file 'rwship-receive' there: {cause}")
            }
            FolderError::StartMissing(last) => write_missing_start(f, *last),
            FolderError::Fault(fault) => write!(f, "{fault}"),
        }
    }
}

impl Error for FolderError {}

//! Why a call on the files of a folder failed.

use std::error::Error;
use std::io::ErrorKind;
use std::{fmt, io};

/// What was to be done when a call failed.
#[derive(Clone, Copy, Debug, PartialEq, Eq)]
pub enum FolderCall {
    Read,
    /// Copy the last segment, to write it anew.
    WriteCopy,
    SyncCopy,
    RenameCopy,
    Write,
    Sync,
    SyncFolder,
    Create,
    SetAside,
    Cut,
}

/// Why it failed, as the operating system says.
#[derive(Clone, Copy, Debug, PartialEq, Eq)]
pub enum FaultCause {
    OutOfMemory,
    NotFound,
    NotAFolder,
    NoPermission,
    DiskFull,
    ReadOnly,
    /// The process, or the machine, has as many open files as it may.
    TooManyFiles,
    /// A file that was to be created exists.
    Exists,
    /// The last segment is no longer in its place: it was removed or renamed, or its folder was.
    Removed,
    Other,
}

/// A call that failed, on a folder or on one of its segments.
#[derive(Clone, Copy, Debug, PartialEq, Eq)]
pub struct FailedCall {
    pub call: FolderCall,
    /// The number of the segment that was read, or of the last one.
    pub segment: u64,
    pub cause: FaultCause,
}

/// Returns whether no file can be opened, since as many are open as the process (EMFILE) or the
/// machine (ENFILE) may have.
fn is_file_limit(error: &io::Error) -> bool {
    matches!(error.raw_os_error(), Some(23 | 24))
}

/// Returns the cause that an error of the operating system names.
pub(crate) fn cause_of(error: &io::Error) -> FaultCause {
    match error.kind() {
        ErrorKind::OutOfMemory => FaultCause::OutOfMemory,
        ErrorKind::NotFound => FaultCause::NotFound,
        ErrorKind::NotADirectory => FaultCause::NotAFolder,
        ErrorKind::PermissionDenied => FaultCause::NoPermission,
        ErrorKind::StorageFull | ErrorKind::QuotaExceeded => FaultCause::DiskFull,
        ErrorKind::ReadOnlyFilesystem => FaultCause::ReadOnly,
        ErrorKind::AlreadyExists => FaultCause::Exists,
        _ if is_file_limit(error) => FaultCause::TooManyFiles,
        _ => FaultCause::Other,
    }
}

impl fmt::Display for FolderCall {
    fn fmt<W: fmt::Write>(&self, f: &mut fmt::Formatter<W>) -> fmt::Result {
        f.write_str(match self {
            FolderCall::Read => "read",
            FolderCall::WriteCopy => "copy",
            FolderCall::SyncCopy => "sync the copy of",
            FolderCall::RenameCopy => "rename the copy of",
            FolderCall::Write => "write",
            FolderCall::Sync => "sync",
            FolderCall::SyncFolder => "sync the folder of",
            FolderCall::Create => "create",
            FolderCall::SetAside => "copy the torn end of",
            FolderCall::Cut => "cut",
        })
    }
}

impl fmt::Display for FaultCause {
    fn fmt<W: fmt::Write>(&self, f: &mut fmt::Formatter<W>) -> fmt::Result {
        f.write_str(match self {
            FaultCause::OutOfMemory => "out of memory",
            FaultCause::NotFound => "no such file or folder",
            FaultCause::NotAFolder => "not a folder",
            FaultCause::NoPermission => "permission denied",
            FaultCause::DiskFull => "no space left on the device",
            FaultCause::ReadOnly => "the file system is read-only",
            FaultCause::TooManyFiles => "too many files are open",
            FaultCause::Exists => "the file exists",
            FaultCause::Removed => "the file was removed or renamed",
            FaultCause::Other => "the device failed",
        })
    }
}

impl fmt::Display for FailedCall {
    fn fmt<W: fmt::Write>(&self, f: &mut fmt::Formatter<W>) -> fmt::Result {
        write!(
            f,
            "cannot {} segment {}: {}",
            self.call, self.segment, self.cause
        )
    }
}

impl Error for FailedCall {}

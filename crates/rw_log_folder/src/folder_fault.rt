//! Why the files of a log cannot be read.

use crate::order::OrderFault;
use std::alloc::AllocError;
use std::error::Error;
use std::io::ErrorKind;
use std::{fmt, io};

/// Why the files of a log in a folder cannot be listed or opened.
#[derive(Debug, Drop)]
pub enum FolderFault {
    OutOfMemory,
    /// The segment of this number is missing after the checkpoint.
    Missing(u64),
    /// The folder, or the one of its newest checkpoint, cannot be listed.
    Unreadable,
    /// The file of this name in the folder cannot be opened.
    Closed(String),
}

impl fmt::Display for FolderFault {
    fn fmt<W: fmt::Write>(&self, f: &mut fmt::Formatter<W>) -> fmt::Result {
        match self {
            FolderFault::OutOfMemory => f.write_str("out of memory"),
            FolderFault::Missing(segment) => write!(f, "segment {segment} is missing"),
            FolderFault::Unreadable => f.write_str("the folder cannot be listed"),
            FolderFault::Closed(name) => write!(f, "the file {name} cannot be opened"),
        }
    }
}

impl Error for FolderFault {}

impl From<AllocError> for FolderFault {
    fn from(_e: AllocError) -> FolderFault {
        FolderFault::OutOfMemory
    }
}

impl From<OrderFault> for FolderFault {
    fn from(fault: OrderFault) -> FolderFault {
        match fault {
            OrderFault::OutOfMemory => FolderFault::OutOfMemory,
            OrderFault::Missing(number) => FolderFault::Missing(number),
        }
    }
}

/// Returns the fault of a folder whose listing fails with this error.
pub(crate) fn fault_of(error: &io::Error) -> FolderFault {
    match error.kind() {
        ErrorKind::OutOfMemory => FolderFault::OutOfMemory,
        _ => FolderFault::Unreadable,
    }
}

//! Why the bytes for the end of a log cannot be returned.

ghost use Rattle.std.specs.Prelude.{◌≡◌};
ghost use Rattle.rw_kept_log.specs.declared.append_error.AppendError.TheVariants.{OutOfMemory};

use rw_wal_write::LogFault;
use std::alloc::AllocError;
use std::error::Error;
use std::fmt;

/// Why the bytes for the end of a log cannot be returned.
#[derive(Clone, Copy, Debug, PartialEq, Eq)]
pub enum AppendError {
    /// Memory ran out.
    OutOfMemory,
    /// The last segment has no room for them. An empty segment may have room.
    SegmentFull,
    /// A definition takes more than 16 MiB.
    RecordTooLong,
}

impl fmt::Display for AppendError {
    fn fmt<W: fmt::Write>(&self, f: &mut fmt::Formatter<W>) -> fmt::Result {
        f.write_str(match self {
            AppendError::OutOfMemory => "out of memory",
            AppendError::SegmentFull => "the segment has no room for the message",
            AppendError::RecordTooLong => "a definition has more than 16 MiB",
        })
    }
}

impl Error for AppendError {}

impl From<AllocError> for AppendError {
    ghost from_gives = { λ _ e. e ≡ OutOfMemory };

    fn from(_: AllocError) -> Self {
        AppendError::OutOfMemory
    }
}

impl AppendError {
    /// Returns the error for a record that was not written to memory. There the device fails only
    /// if memory ran out.
    pub(crate) fn of(fault: LogFault) -> AppendError {
        match fault {
            LogFault::SegmentFull => AppendError::SegmentFull,
            LogFault::Device => AppendError::OutOfMemory,
            LogFault::RecordTooLong => AppendError::RecordTooLong,
        }
    }
}

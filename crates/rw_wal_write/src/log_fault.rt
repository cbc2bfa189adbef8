//! Why a record was not written.

use std::error::Error;
use std::fmt;

/// Why a record was not written.
#[derive(Clone, Copy, Debug, PartialEq, Eq)]
pub enum LogFault {
    /// The record does not fit in what is left of the segment. Nothing was written; a shorter one
    /// may fit.
    SegmentFull = 1,
    /// The device failed, in this call or an earlier one. It may hold a prefix of the record.
    Device = 2,
    /// The record has more than 16 MiB. Nothing was written.
    RecordTooLong = 3,
}

impl fmt::Display for LogFault {
    fn fmt<W: fmt::Write>(&self, f: &mut fmt::Formatter<W>) -> fmt::Result {
        f.write_str(match self {
            LogFault::SegmentFull => "segment full",
            LogFault::Device => "device",
            LogFault::RecordTooLong => "a record has more than 16 MiB",
        })
    }
}

impl Error for LogFault {}

//! Why a log cannot be read further.

ghost use Rattle.std.specs.Prelude.{◌≡◌};
ghost use Rattle.rw_wal_format.specs.Faults.{log_fault_number};

use std::error::Error;
use std::fmt;

/// Why the next entry of a log cannot be read. Each fault but `OutOfMemory` is one of the log, and
/// is permanent.
#[derive(Clone, Copy, Debug, PartialEq, Eq)]
pub enum TailFault {
    /// Memory ran out, which is not a fault of the log. The call may be repeated.
    OutOfMemory,
    /// The type byte of a fragment is not one of the format.
    BadType,
    /// The length of a fragment passes the end of its page.
    BadLength,
    /// The CRC-32C in the header of a fragment is not that of its data.
    BadCrc,
    /// The type byte of a fragment is from 8 to 31: it has a flag of compressed data. In a log that
    /// may have Snappy blocks, this is not a type byte with their flag.
    Compressed,
    /// A byte is not zero in the rest of a page, where only zeros are allowed.
    NonzeroPadding,
    /// A fragment begins a record while one is open, or continues one while none is open; or it has
    /// the flag of a Snappy block and the record that is open has not, or the other way round.
    Sequence,
    /// A record of series or of samples is not well-formed, or one that is a Snappy block cannot be
    /// decoded, or to more than `MOST_DECODED` bytes.
    BadRecord,
    /// A segment ends inside a record, and the next segment begins.
    TornSegment,
}

impl fmt::Display for TailFault {
    fn fmt<W: fmt::Write>(&self, f: &mut fmt::Formatter<W>) -> fmt::Result {
        f.write_str(match self {
            TailFault::OutOfMemory => "out of memory",
            TailFault::BadType => "log fault 1: unknown fragment type",
            TailFault::BadLength => "log fault 2: invalid fragment length",
            TailFault::BadCrc => "log fault 3: checksum mismatch",
            TailFault::Compressed => "log fault 4: compressed record",
            TailFault::NonzeroPadding => "log fault 5: nonzero padding",
            TailFault::Sequence => "log fault 6: fragment out of sequence",
            TailFault::BadRecord => "log fault 7: invalid record",
            TailFault::TornSegment => "log fault 8: the segment ends inside a record",
        })
    }
}

impl Error for TailFault {}

impl TailFault {
    /// Returns the number that stands for the fault in text: 1 to 8, or 0 for `OutOfMemory`, which
    /// is not a fault of the log.
    pub fn number(self) -> u8
        ensures { result ≡ log_fault_number self }
    {
        match self {
            TailFault::OutOfMemory => 0,
            TailFault::BadType => 1,
            TailFault::BadLength => 2,
            TailFault::BadCrc => 3,
            TailFault::Compressed => 4,
            TailFault::NonzeroPadding => 5,
            TailFault::Sequence => 6,
            TailFault::BadRecord => 7,
            TailFault::TornSegment => 8,
        }
    }
}

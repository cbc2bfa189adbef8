//! Why a hexadecimal text was not read.

use std::alloc::AllocError;
use std::error::Error;
use std::fmt;

/// Why a hexadecimal text was not read.
#[derive(Clone, Copy, Debug, PartialEq, Eq)]
pub enum HexFault {
    /// Memory ran out.
    OutOfMemory,
    /// The line, counted from 1, of the first character that is neither a digit nor white space; or
    /// else of the last digit, if their number is odd.
    Line(u64),
}

impl fmt::Display for HexFault {
    fn fmt<W: fmt::Write>(&self, f: &mut fmt::Formatter<W>) -> fmt::Result {
        match *self {
            HexFault::OutOfMemory => f.write_str("out of memory"),
            HexFault::Line(line) => write!(f, "line {line}"),
        }
    }
}

impl Error for HexFault {}

impl From<AllocError> for HexFault {
    ghost use Rattle.std.specs.Prelude.{◌≡◌};
    ghost use Rattle.rw_text.specs.declared.hex_fault.HexFault.TheVariants.{OutOfMemory};

    ghost from_gives = { λ _ e. e ≡ OutOfMemory };

    fn from(_e: AllocError) -> HexFault {
        HexFault::OutOfMemory
    }
}

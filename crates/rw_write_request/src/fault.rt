//! Why bytes are not a message.

ghost use Rattle.std.specs.Prelude.{◌≡◌};
ghost use Rattle.rw_write_request.specs.Read.{varint_fault};
ghost use Rattle.rw_write_request.specs.declared.fault.WireFault.TheVariants.{OutOfMemory};

use rw_codes::CodeFault;
use std::alloc::{AllocError, AllocFailed};
use std::error::Error;
use std::fmt;

/// Why bytes are not a message: the first fault in reading order.
#[derive(Clone, Copy, Debug, PartialEq, Eq)]
pub enum WireFault {
    /// Memory ran out. This says nothing about the bytes.
    OutOfMemory = 0,
    /// A varint, a length-delimited field or a fixed-size number passes the end of its message.
    Truncated = 1,
    /// A varint has more than 64 bits, or more than ten bytes.
    VarintTooBig = 2,
    /// A known field has another wire type than its own.
    WrongWire = 3,
    /// A field has the wire type 3 or 4, which are groups, or 6 or 7, which do not exist.
    BadWire = 4,
    /// A field has the number 0.
    FieldZero = 5,
    /// A string is not UTF-8.
    NotUtf8 = 6,
}

impl fmt::Display for WireFault {
    fn fmt<W: fmt::Write>(&self, f: &mut fmt::Formatter<W>) -> fmt::Result {
        f.write_str(match self {
            WireFault::OutOfMemory => "out of memory",
            WireFault::Truncated => "message fault 1: a field passes the end of its message",
            WireFault::VarintTooBig => "message fault 2: a varint has more than 64 bits",
            WireFault::WrongWire => "message fault 3: a field has the wrong wire type",
            WireFault::BadWire => "message fault 4: unknown wire type",
            WireFault::FieldZero => "message fault 5: a field has the number 0",
            WireFault::NotUtf8 => "message fault 6: a string is not UTF-8",
        })
    }
}

impl Error for WireFault {}

impl From<AllocError> for WireFault {
    ghost from_gives = { λ _ e. e ≡ OutOfMemory };

    fn from(_e: AllocError) -> WireFault {
        WireFault::OutOfMemory
    }
}

impl<T: Drop> From<AllocFailed<T>> for WireFault {
    ghost from_gives = { λ _ e. e ≡ OutOfMemory };

    fn from(_e: AllocFailed<T>) -> WireFault {
        WireFault::OutOfMemory
    }
}

impl From<CodeFault> for WireFault {
    ghost from_gives = { λ f e. e ≡ varint_fault f };

    fn from(f: CodeFault) -> WireFault {
        match f {
            CodeFault::Short => WireFault::Truncated,
            CodeFault::TooBig => WireFault::VarintTooBig,
        }
    }
}

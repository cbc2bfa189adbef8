//! What the program prints of a fault.

ghost use Rattle.std.specs.Prelude.{◌≡◌};
ghost use Rattle.rw_text.specs.Printed.{exit_status};

use crate::tool_fault::ToolFault;
use std::error::Error;
use std::fmt;

impl fmt::Display for ToolFault {
    ghost use Rattle.std.specs.Prelude.{Some};
    ghost use Rattle.rw_text.specs.Printed.{fault_text};

    ghost output = { λ f. Some (fault_text f) };

    fn fmt<W: fmt::Write>(&self, f: &mut fmt::Formatter<W>) -> fmt::Result {
        match *self {
            ToolFault::OutOfMemory => write!(f, "out of memory"),
            ToolFault::Log(fault) => {
                let number = fault.number();
                write!(f, "log fault {number}")
            }
            ToolFault::Line(line) => write!(f, "line {line}"),
            ToolFault::SegmentFull => write!(f, "segment full"),
            ToolFault::Device => write!(f, "device"),
        }
    }
}

impl Error for ToolFault {}

impl ToolFault {
    /// Returns the exit status of the program: 1 for a fault of the data, 3 if memory ran out, 4
    /// for a device.
    pub fn exit_status(self) -> u8
        ensures { result ≡ exit_status self }
    {
        match self {
            ToolFault::Log(_) | ToolFault::Line(_) | ToolFault::SegmentFull => 1,
            ToolFault::OutOfMemory => 3,
            ToolFault::Device => 4,
        }
    }
}

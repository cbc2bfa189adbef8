//! Why a command ends.

use crate::hex_fault::HexFault;
use rw_types::{Failed, ReadFault};
use rw_wal_format::TailFault;
use std::alloc::AllocError;

/// Why a command of the program ends.
#[derive(Clone, Copy, Debug, PartialEq, Eq)]
pub enum ToolFault {
    /// Memory ran out.
    OutOfMemory,
    /// The log has this fault, which is not `TailFault::OutOfMemory`.
    Log(TailFault),
    /// The text of the input has a fault in this line, counted from 1.
    Line(u64),
    /// A record has no room in the segment.
    SegmentFull,
    /// A reader or a writer failed.
    Device,
}

impl From<AllocError> for ToolFault {
    ghost use Rattle.std.specs.Prelude.{◌≡◌};
    ghost use Rattle.rw_text.specs.declared.tool_fault.ToolFault.TheVariants.{OutOfMemory};

    ghost from_gives = { λ _ e. e ≡ OutOfMemory };

    fn from(_e: AllocError) -> ToolFault {
        ToolFault::OutOfMemory
    }
}

impl From<TailFault> for ToolFault {
    ghost use Rattle.std.specs.Prelude.{◌≡◌};
    ghost use Rattle.rw_text.specs.ToolFaults.{fault_of_log};

    ghost from_gives = { λ f e. e ≡ fault_of_log f };

    fn from(fault: TailFault) -> ToolFault {
        match fault {
            TailFault::OutOfMemory => ToolFault::OutOfMemory,
            _ => ToolFault::Log(fault),
        }
    }
}

impl From<HexFault> for ToolFault {
    ghost use Rattle.std.specs.Prelude.{◌≡◌};
    ghost use Rattle.rw_text.specs.ToolFaults.{fault_of_hex};

    ghost from_gives = { λ f e. e ≡ fault_of_hex f };

    fn from(fault: HexFault) -> ToolFault {
        match fault {
            HexFault::OutOfMemory => ToolFault::OutOfMemory,
            HexFault::Line(line) => ToolFault::Line(line),
        }
    }
}

impl From<ReadFault> for ToolFault {
    ghost use Rattle.std.specs.Prelude.{◌≡◌};
    ghost use Rattle.rw_text.specs.ToolFaults.{fault_of_reading};

    ghost from_gives = { λ f e. e ≡ fault_of_reading f };

    fn from(fault: ReadFault) -> ToolFault {
        match fault {
            ReadFault::OutOfMemory => ToolFault::OutOfMemory,
            ReadFault::Failed => ToolFault::Device,
        }
    }
}

impl From<Failed> for ToolFault {
    ghost use Rattle.std.specs.Prelude.{◌≡◌};
    ghost use Rattle.rw_text.specs.declared.tool_fault.ToolFault.TheVariants.{Device};

    ghost from_gives = { λ _ e. e ≡ Device };

    fn from(_failed: Failed) -> ToolFault {
        ToolFault::Device
    }
}

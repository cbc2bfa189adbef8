//! What becomes of a message.

use rw_write_request::WireFault;
use std::alloc::AllocError;

/// What becomes of a message: it is stored whole, or it is refused and nothing changes.
#[derive(Clone, Copy, Debug, PartialEq, Eq)]
pub enum Verdict {
    /// It is stored. The number is how many samples were appended; the others were repeats.
    Stored(u64),
    /// The body of the request is not a message.
    BadBody,
    /// The labels of a series are not a label set.
    BadLabels,
    /// A label set has more labels or more bytes than the head takes.
    OverLimit,
    /// A sample is neither later than the last of its series nor a repeat.
    OutOfOrder,
    /// Memory ran out, and nothing is stored.
    NoMemory,
}

impl From<AllocError> for Verdict {
    ghost use Rattle.std.specs.Prelude.{◌≡◌};
    ghost use Rattle.rw_head.specs.declared.verdict.Verdict.TheVariants.{NoMemory};

    ghost from_gives = { λ _ v. v ≡ NoMemory };

    fn from(_e: AllocError) -> Verdict {
        Verdict::NoMemory
    }
}

impl From<WireFault> for Verdict {
    ghost use Rattle.std.specs.Prelude.{◌≡◌};
    ghost use Rattle.rw_head.specs.Bodies.{verdict_of};

    ghost from_gives = { λ e v. v ≡ verdict_of e };

    fn from(fault: WireFault) -> Verdict {
        match fault {
            WireFault::OutOfMemory => Verdict::NoMemory,
            WireFault::Truncated
            | WireFault::VarintTooBig
            | WireFault::WrongWire
            | WireFault::BadWire
            | WireFault::FieldZero
            | WireFault::NotUtf8 => Verdict::BadBody,
        }
    }
}

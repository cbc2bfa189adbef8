//! Why following a log ends early.

ghost use Rattle.std.specs.Prelude.{◌≡◌};
ghost use Rattle.rw_send.specs.RunFaults.{answer_of};

use rw_text::ToolFault;
use rw_wal_tail::FaultPlace;
use std::alloc::AllocError;
use std::error::Error;
use std::fmt;

/// Why the following of a log ends with a fault.
#[derive(Clone, Copy, Debug, PartialEq, Eq)]
pub enum FollowFault {
    /// As a run of the command `send` ends.
    Tool(ToolFault),
    /// The segment of this number is missing.
    Missing(u64),
    /// It was asked to end at once.
    Stopped,
}

impl fmt::Display for FollowFault {
    fn fmt<W: fmt::Write>(&self, f: &mut fmt::Formatter<W>) -> fmt::Result {
        match *self {
            FollowFault::Tool(fault) => fault.fmt(f),
            FollowFault::Missing(segment) => write!(f, "segment {segment} is missing"),
            FollowFault::Stopped => f.write_str("stopped by a hard stop"),
        }
    }
}

impl Error for FollowFault {}

impl From<ToolFault> for FollowFault {
    ghost use Rattle.std.specs.Prelude.{◌≡◌};
    ghost use Rattle.rw_send.specs.declared.follow_fault.FollowFault.TheVariants.{Tool};

    ghost from_gives = { λ f e. e ≡ Tool f };

    fn from(fault: ToolFault) -> FollowFault {
        FollowFault::Tool(fault)
    }
}

impl From<AllocError> for FollowFault {
    ghost use Rattle.std.specs.Prelude.{◌≡◌};
    ghost use Rattle.rw_text.specs.declared.tool_fault.ToolFault.TheVariants.{OutOfMemory};
    ghost use Rattle.rw_send.specs.declared.follow_fault.FollowFault.TheVariants.{Tool};

    ghost from_gives = { λ _ e. e ≡ Tool OutOfMemory };

    fn from(_e: AllocError) -> FollowFault {
        FollowFault::Tool(ToolFault::OutOfMemory)
    }
}

/// Why the shipping of a log ended with a fault, and where in the log the fault is.
#[derive(Clone, Copy, Debug, PartialEq, Eq)]
pub struct RunFault {
    pub fault: FollowFault,
    /// Where a fault of the log was found, if one was.
    pub place: Option<FaultPlace>,
}

impl RunFault {
    /// Returns an answer with the place of the log's fault.
    pub(crate) fn at(
        answer: Result<(), FollowFault>,
        place: Option<FaultPlace>,
    ) -> Result<(), RunFault>
        ensures { answer_of result ≡ answer }
    {
        match answer {
            Ok(()) => Ok(()),
            Err(fault) => Err(RunFault { fault, place }),
        }
    }

    /// Returns an answer without the place.
    pub(crate) fn answer_of(outcome: Result<(), RunFault>) -> Result<(), FollowFault>
        ensures { result ≡ answer_of outcome }
    {
        match outcome {
            Ok(()) => Ok(()),
            Err(fault) => Err(fault.fault),
        }
    }
}

impl From<ToolFault> for RunFault {
    ghost use Rattle.std.specs.Prelude.{◌≡◌, None};
    ghost use Rattle.rw_send.specs.declared.follow_fault.FollowFault.TheVariants.{Tool};

    ghost from_gives = { λ f e. e ≡ record { fault = Tool f; place = None } };

    fn from(fault: ToolFault) -> RunFault {
        RunFault {
            fault: FollowFault::Tool(fault),
            place: None,
        }
    }
}

impl From<AllocError> for RunFault {
    ghost use Rattle.std.specs.Prelude.{◌≡◌, None};
    ghost use Rattle.rw_text.specs.declared.tool_fault.ToolFault.TheVariants.{OutOfMemory};
    ghost use Rattle.rw_send.specs.declared.follow_fault.FollowFault.TheVariants.{Tool};

    ghost from_gives = { λ _ e. e ≡ record { fault = Tool OutOfMemory; place = None } };

    fn from(_e: AllocError) -> RunFault {
        RunFault {
            fault: FollowFault::Tool(ToolFault::OutOfMemory),
            place: None,
        }
    }
}

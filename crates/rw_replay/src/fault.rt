//! Why a script was not read.

use std::alloc::AllocError;
use std::error::Error;
use std::fmt;

/// Why a script was not read.
#[derive(Clone, Copy, Debug, PartialEq, Eq)]
pub enum ScriptFault {
    /// Memory ran out.
    OutOfMemory,
    /// The line of this number, counted from 1, is not a script line, or mixes `log` with `feed` or
    /// `segment`.
    Line(u64),
}

impl fmt::Display for ScriptFault {
    fn fmt<W: fmt::Write>(&self, f: &mut fmt::Formatter<W>) -> fmt::Result {
        match *self {
            ScriptFault::OutOfMemory => f.write_str("out of memory"),
            ScriptFault::Line(line) => write!(f, "line {line}"),
        }
    }
}

impl Error for ScriptFault {}

impl From<AllocError> for ScriptFault {
    ghost use Rattle.std.specs.Prelude.{◌≡◌};
    ghost use Rattle.rw_replay.specs.declared.fault.ScriptFault.TheVariants.{OutOfMemory};

    ghost from_gives = { λ _ e. e ≡ OutOfMemory };

    fn from(_e: AllocError) -> ScriptFault {
        ScriptFault::OutOfMemory
    }
}

//! Why a log cannot be opened.

ghost use Rattle.std.specs.Prelude.{◌≡◌};
ghost use Rattle.rw_kept_log.specs.declared.error.ReopenError.TheVariants.{OutOfMemory};
ghost use Rattle.rw_kept_log.specs.Errors.{of_journal};

use crate::journal::JournalError;
use rw_wal_tail::{FaultPlace, TailFault};
use std::alloc::AllocError;
use std::error::Error;
use std::fmt;

/// KeptLogDamage that no crash leaves.
#[derive(Clone, Copy, Debug, PartialEq, Eq, Drop)]
pub struct KeptLogDamage {
    pub fault: TailFault,
    pub place: FaultPlace,
}

/// Why a log cannot be opened.
#[derive(Clone, Copy, Debug, PartialEq, Eq)]
pub enum ReopenError {
    /// Memory ran out.
    OutOfMemory,
    /// The device failed.
    Failed,
    /// The log is damaged. Nothing was cut.
    Damaged(KeptLogDamage),
}

impl From<AllocError> for ReopenError {
    ghost from_gives = { λ _ e. e ≡ OutOfMemory };

    fn from(_: AllocError) -> Self {
        ReopenError::OutOfMemory
    }
}

impl From<JournalError> for ReopenError {
    ghost from_gives = { λ f e. e ≡ of_journal f };

    fn from(error: JournalError) -> Self {
        match error {
            JournalError::OutOfMemory => ReopenError::OutOfMemory,
            JournalError::Failed => ReopenError::Failed,
        }
    }
}

impl fmt::Display for ReopenError {
    fn fmt<W: fmt::Write>(&self, f: &mut fmt::Formatter<W>) -> fmt::Result {
        match self {
            ReopenError::OutOfMemory => f.write_str("out of memory"),
            ReopenError::Failed => f.write_str("a device failed"),
            ReopenError::Damaged(damage) => write!(
                f,
                "{} in segment {} at byte {}",
                damage.fault, damage.place.segment, damage.place.offset
            ),
        }
    }
}

impl Error for ReopenError {}

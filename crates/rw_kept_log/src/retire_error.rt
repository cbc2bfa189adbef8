//! Why segments were not retired.

ghost use Rattle.std.specs.Prelude.{◌≡◌};
ghost use Rattle.rw_kept_log.specs.declared.retire_error.RetireError.TheVariants.{Unwritten, Journal};

use crate::append_error::AppendError;
use crate::journal::JournalError;
use std::alloc::AllocError;

/// Why segments were not retired.
#[derive(Clone, Copy, Debug, PartialEq, Eq)]
pub enum RetireError {
    /// Memory ran out, or a definition has more than 16 MiB. The journal was not asked for
    /// anything.
    Unwritten,
    /// A call of the journal failed, so it has to be opened again.
    Journal(JournalError),
}

impl From<AllocError> for RetireError {
    ghost from_gives = { λ _ e. e ≡ Unwritten };

    fn from(_: AllocError) -> Self {
        RetireError::Unwritten
    }
}

impl From<AppendError> for RetireError {
    ghost from_gives = { λ _ e. e ≡ Unwritten };

    fn from(_: AppendError) -> Self {
        RetireError::Unwritten
    }
}

impl From<JournalError> for RetireError {
    ghost from_gives = { λ f e. e ≡ Journal f };

    fn from(error: JournalError) -> Self {
        RetireError::Journal(error)
    }
}

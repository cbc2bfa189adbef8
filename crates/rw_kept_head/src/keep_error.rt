//! Why a message was not kept.

ghost use Rattle.std.specs.Prelude.{◌≡◌};
ghost use Rattle.rw_kept_head.specs.declared.keep_error.KeepError.TheVariants.{Unspelled, Journal};

use rw_kept_log::{AppendError, JournalError};
use std::alloc::AllocError;

/// Why a message was not kept.
#[derive(Clone, Copy, Debug, PartialEq, Eq)]
pub(crate) enum KeepError {
    /// Memory ran out, or an empty segment has no room for the message. Nothing of it was written.
    Unspelled,
    /// A call of the journal failed, so what the journal holds is not known.
    Journal(JournalError),
}

impl From<AllocError> for KeepError {
    ghost from_gives = { λ _ e. e ≡ Unspelled };

    fn from(_: AllocError) -> Self {
        KeepError::Unspelled
    }
}

impl From<AppendError> for KeepError {
    ghost from_gives = { λ _ e. e ≡ Unspelled };

    fn from(_: AppendError) -> Self {
        KeepError::Unspelled
    }
}

impl From<JournalError> for KeepError {
    ghost from_gives = { λ f e. e ≡ Journal f };

    fn from(error: JournalError) -> Self {
        KeepError::Journal(error)
    }
}

//! Why a head cannot be opened.

ghost use Rattle.std.specs.Prelude.{◌≡◌};
ghost use Rattle.rw_kept_log.specs.Errors.{of_journal};
ghost use Rattle.rw_kept_head.specs.declared.open_error.OpenError.TheVariants.{Log};

use rw_kept_log::{JournalError, ReopenError};
use std::error::Error;
use std::fmt;

/// Why a head cannot be opened.
#[derive(Clone, Copy, Debug, PartialEq, Eq)]
pub enum OpenError {
    /// The log cannot be opened.
    Log(ReopenError),
    /// The log has samples that no head with these limits holds: their labels are refused, or their
    /// timestamps do not rise. The number is the position of the first such entry, from 0 on.
    Foreign(u64),
    /// The log has a reference from 2^63 on, so no free one may be left after it.
    NoReferenceLeft,
}

impl From<ReopenError> for OpenError {
    ghost from_gives = { λ f e. e ≡ Log f };

    fn from(error: ReopenError) -> Self {
        OpenError::Log(error)
    }
}

impl From<JournalError> for OpenError {
    ghost from_gives = { λ f e. e ≡ Log (of_journal f) };

    fn from(error: JournalError) -> Self {
        OpenError::Log(ReopenError::from(error))
    }
}

impl fmt::Display for OpenError {
    fn fmt<W: fmt::Write>(&self, f: &mut fmt::Formatter<W>) -> fmt::Result {
        match self {
            OpenError::Log(error) => write!(f, "{error}"),
            OpenError::Foreign(at) => {
                write!(
                    f,
                    "the log has an entry that this head refuses, at position {at}"
                )
            }
            OpenError::NoReferenceLeft => f.write_str("the log has a reference from 2^63 on"),
        }
    }
}

impl Error for OpenError {}

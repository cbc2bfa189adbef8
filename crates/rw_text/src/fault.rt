//! Why a text was not read.

use std::alloc::AllocError;
use std::error::Error;
use std::fmt;

/// Why a text was not read.
#[derive(Clone, Copy, Debug, PartialEq, Eq)]
pub enum TextFault {
    /// Memory ran out.
    OutOfMemory,
    /// The text does not have the form that the call reads.
    NotOfForm,
}

impl fmt::Display for TextFault {
    fn fmt<W: fmt::Write>(&self, f: &mut fmt::Formatter<W>) -> fmt::Result {
        f.write_str(match self {
            TextFault::OutOfMemory => "out of memory",
            TextFault::NotOfForm => "the text is not valid",
        })
    }
}

impl Error for TextFault {}

impl From<AllocError> for TextFault {
    ghost use Rattle.std.specs.Prelude.{◌≡◌};
    ghost use Rattle.rw_text.specs.declared.fault.TextFault.TheVariants.{OutOfMemory};

    ghost from_gives = { λ _ e. e ≡ OutOfMemory };

    fn from(_e: AllocError) -> TextFault {
        TextFault::OutOfMemory
    }
}

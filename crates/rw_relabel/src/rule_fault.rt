//! Why a rule is refused.

use std::alloc::AllocError;
use std::error::Error;
use std::fmt;

/// Why a rule was not made. Cast to a number, `OutOfMemory` is 0, `BadPattern` 1 and `NoSource` 2.
#[derive(Clone, Copy, Debug, PartialEq, Eq)]
pub enum RuleFault {
    /// Memory ran out, which is not a fault of the rule.
    OutOfMemory,
    /// The pattern, or its form `^(?s:PATTERN)$`, is not a valid regular expression, is nested too
    /// deeply, or takes too much room when it is compiled.
    BadPattern,
    /// The list of source labels is empty.
    NoSource,
}

impl fmt::Display for RuleFault {
    fn fmt<W: fmt::Write>(&self, f: &mut fmt::Formatter<W>) -> fmt::Result {
        f.write_str(match self {
            RuleFault::OutOfMemory => "out of memory",
            RuleFault::BadPattern => "the regular expression is invalid or too large",
            RuleFault::NoSource => "there is no source label",
        })
    }
}

impl Error for RuleFault {}

impl From<AllocError> for RuleFault {
    ghost use Rattle.std.specs.Prelude.{◌≡◌};
    ghost use Rattle.rw_relabel.specs.declared.rule_fault.RuleFault.TheVariants.{OutOfMemory};

    ghost from_gives = { λ _ e. e ≡ OutOfMemory };

    fn from(_e: AllocError) -> RuleFault {
        RuleFault::OutOfMemory
    }
}

//! Which series of a log are sent.

ghost use Rattle.std.specs.Prelude.{◌≡◌};
ghost use Rattle.rw_relabel.specs.Choices.{legacy};

use crate::rules::Rules;
use rw_types::Names;
use std::alloc::Global;

/// Which series of a log are sent: those whose names are accepted, and that the rules keep.
#[derive(Debug, Drop)]
pub struct Choice {
    /// The names that are accepted. Labels with other names are not a label set.
    pub names: Names,
    /// The rules by which a label set is kept or dropped.
    pub rules: Rules,
}

impl Choice {
    /// Returns all series with legacy names: there are no rules. This takes no memory.
    pub fn legacy(alloc: Global) -> Choice
        ensures { result ≡ legacy }
    {
        Choice {
            names: Names::Legacy,
            rules: Rules::new(Vec::new(alloc)),
        }
    }
}

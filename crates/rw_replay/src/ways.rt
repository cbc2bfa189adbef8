//! The ways in which a script lets its log grow.

use crate::command::Command;
use rw_machine::Event;

/// The ways in which a script lets its log grow: by records, by pieces of its bytes.
#[derive(Clone, Copy, Debug, PartialEq, Eq)]
pub(crate) struct Ways {
    pub(crate) log: bool,
    pub(crate) pieces: bool,
}

impl Ways {
    ghost use Rattle.std.specs.Prelude.{◌≡◌};
    ghost use Rattle.rw_replay.specs.ScriptText.{order_of};
    ghost use Rattle.rw_replay.specs.inner.Ways.{are_both, with_order};

    /// Returns the ways with that of this command.
    pub(crate) fn with(self, command: &Command) -> Ways
        ensures { result ≡ with_order self (order_of command.now) }
    {
        match command {
            Command::Log(_) => Ways { log: true, ..self },
            Command::Event(Event::Feed(_)) => Ways {
                pieces: true,
                ..self
            },
            _ => self,
        }
    }

    /// Returns whether both are used.
    pub(crate) fn are_both(self) -> bool
        ensures { result ≡ are_both self }
    {
        self.log && self.pieces
    }
}

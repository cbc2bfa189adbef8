//! A record of what was asked of the files of a folder, for contracts alone.

ghost use Rattle.std.specs.Prelude.{◌≡◌, ◌+◌, [], ◌∷◌, ◌++◌};

use crate::fault::FailedCall;
use crate::file_call::FileCall;
use rw_history::History;
use std::marker::Model;

/// What was asked, and the faults. It takes no bytes.
#[derive(Drop)]
pub(crate) struct Record {
    calls: History<FileCall>,
    faults: History<FailedCall>,
}

impl Model for Record {
    ghost use Rattle.std.specs.Prelude.{length};
    ghost use Rattle.rw_kept_folder.specs.Noted.{Noted};

    ghost Value = { Noted };

    ghost view = { λ r. record { calls = r.calls; faults = length r.faults } };
}

impl Record {
    /// Returns a record in which nothing was asked.
    pub(crate) fn new() -> Record
        ensures { result ≡ record { calls = []; faults = 0 } }
    {
        Record {
            calls: History::new(),
            faults: History::new(),
        }
    }

    /// Adds a call.
    pub(crate) fn note(&mut self, call: &FileCall)
        ensures { self.new ≡ record self.old { calls = self.old.calls ++ call.now ∷ [] } }
    {
        self.calls.push(call);
    }

    /// Adds a fault.
    pub(crate) fn fail(&mut self, fault: &FailedCall)
        ensures { self.new ≡ record self.old { faults = self.old.faults + 1 } }
    {
        self.faults.push(fault);
    }
}

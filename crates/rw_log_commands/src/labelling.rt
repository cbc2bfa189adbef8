//! The samples of a log, grouped by label set as its entries come.

ghost use Rattle.std.specs.Prelude.{◌≡◌, ◌∷◌, ◌++◌, [], OnOk, OnErr};
ghost use Rattle.rw_batch.specs.Grouping.{message};
ghost use Rattle.rw_log_commands.specs.Labelled.{labelled_samples};

use rw_batch::Grouping;
use rw_history::History;
use rw_relabel::Choice;
use rw_series_cache::{Cache, Known};
use rw_types::Entry;
use rw_write_request::Message;
use std::alloc::{AllocError, Global};
use std::marker::Model;

/// The samples of the entries so far, as a message, and the label set of each reference. Contracts
/// see the entries.
#[derive(Drop)]
pub struct Labelling {
    taken: History<Entry>,
    /// It has no rules, so it keeps every label set with legacy names.
    cache: Cache,
    grouping: Grouping,
}

impl Model for Labelling {
    ghost use Rattle.std.specs.Prelude.{List};
    ghost use Rattle.rw_types.specs.declared.entry.Entry.{Entry};
    ghost use Rattle.rw_log_commands.specs.inner.Labelling.{IsLabelling};

    ghost Value = { List Entry };

    ghost view = { λ l. l.taken };

    ghost invariant = { λ l. IsLabelling l.taken l.cache l.grouping };
}

impl Labelling {
    /// Returns a labelling before the first entry.
    pub fn new(alloc: Global) -> Labelling
        ensures { result ≡ [] }
    {
        Labelling {
            taken: History::new(),
            cache: Cache::new(alloc, Choice::legacy(alloc)),
            grouping: Grouping::new(alloc),
        }
    }

    /// Returns the message of the samples that have a label set.
    pub fn into_message(self) -> Message
        ensures { result ≡ message (labelled_samples self) }
    {
        let Labelling {
            taken: _,
            cache: _,
            grouping,
        } = self;
        grouping.into_message()
    }

    /// Takes the next entry.
    pub fn take(&mut self, entry: Entry) -> Result<(), AllocError>
        ensures ok { OnOk result (self.new ≡ self.old ++ entry ∷ []) }
        ensures err { OnErr result (self.new ≡ self.old) }
    {
        let mut taken = self.taken.again();
        taken.push(&entry);
        match entry {
            Entry::Def { reference, labels } => self.cache.define(reference, labels)?,
            Entry::Sample { reference, t, word } => {
                if let Known::Kept(number, labels) = self.cache.look(reference) {
                    self.grouping.add(number, labels, t, word)?;
                }
            }
        }
        self.taken = taken;
        Ok(())
    }
}

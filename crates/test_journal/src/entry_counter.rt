//! Logs of two records in journals in memory.

ghost use Rattle.std.specs.Prelude.{◌≡◌, ◌++◌, ◌∷◌, [], OnOk};
ghost use Rattle.rw_kept_log.specs.Journal.{Only};
ghost use Rattle.rw_kept_log.specs.Memory.{image_segments, IsLeftOf};

use rw_history::History;
use rw_kept_log::{LogReading, MemoryJournal, ReadEnd, ReopenError, close_torn};
use rw_types::Entry;
use rw_wal_tail::Taker;
use std::alloc::{AllocError, Global};

/// The definition of reference 1 as `{__name__="up"}` in 29 bytes, and a sample of it at 1000 with
/// the value 1 in 34.
pub(crate) const UP: [u8; 63] = [
    1, 0, 22, 0x39, 0x19, 0x94, 0xf3, 1, 0, 0, 0, 0, 0, 0, 0, 1, 1, 8, 95, 95, 110, 97, 109, 101,
    95, 95, 2, 117, 112, 1, 0, 27, 0x2c, 0x51, 0x4c, 0x07, 2, 0, 0, 0, 0, 0, 0, 0, 1, 0, 0, 0, 0,
    0, 0, 0x03, 0xe8, 0, 0, 0x3f, 0xf0, 0, 0, 0, 0, 0, 0,
];

/// Counts the entries that it takes.
#[derive(Drop)]
pub(crate) struct Counter {
    pub(crate) count: u64,
    pub(crate) past: History<Entry>,
}

impl Counter {
    pub(crate) fn new() -> Counter
        ensures { result.past ≡ [] }
    {
        Counter {
            count: 0,
            past: History::new(),
        }
    }
}

impl Taker for Counter {
    ghost taken = { λ c. c.past };

    ghost Fixed = { Unit {0} };

    ghost fixed = { λ _. tt };

    fn take(&mut self, entry: Entry) -> Result<(), AllocError> {
        self.past.push(&entry);
        self.count = self.count.wrapping_add(1);
        Ok(())
    }
}

/// Opens the log in a journal: reads it, cuts what a crash left of a write, and begins a next
/// segment. Returns how many entries it has, and how it ended.
pub(crate) fn reopen(
    alloc: Global,
    journal: &mut MemoryJournal,
) -> Result<(u64, ReadEnd), ReopenError>
    requires { Only (image_segments journal.old.image) (IsLeftOf journal.old.image) }
    ensures { OnOk result (Only (image_segments journal.new.image) (IsLeftOf journal.new.image)) }
{
    let mut reading = LogReading::new(alloc, Counter::new());
    journal.give_all(&mut reading)?;
    let (counter, end) = reading.finish()?;
    close_torn(journal, end.whole)?;
    Ok((counter.count, end))
}

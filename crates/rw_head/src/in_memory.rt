//! What a head that may forget has in memory.

ghost use Rattle.std.specs.Prelude.{◌≡◌, None};

use crate::sample_list::SampleList;

/// What a head that may forget has in memory. No clause says how much that is.
#[derive(Clone, Copy, Debug, PartialEq, Eq)]
pub struct InMemory {
    /// The number of samples in memory.
    pub samples: u64,
    /// The number of series of which samples came since the last count that may be gone.
    pub asked: u64,
    /// The timestamp of the latest sample, in milliseconds since the Unix epoch.
    pub latest: Option<i64>,
}

impl InMemory {
    /// Returns that nothing is in memory.
    pub fn none() -> InMemory
        ensures { result ≡ record { samples = 0; asked = 0; latest = None } }
    {
        InMemory {
            samples: 0,
            asked: 0,
            latest: None,
        }
    }

    /// Adds what a list has in memory.
    pub(crate) fn add(&mut self, list: &mut SampleList)
        ensures { list.new ≡ list.old }
    {
        self.samples = self.samples.saturating_add(list.memory_len() as u64);
        if list.was_asked() {
            self.asked = self.asked.saturating_add(1);
        }
        self.latest = self.latest.max(list.latest());
    }
}

//! Samples that go from memory while a log is read.

ghost use Rattle.std.specs.Prelude.{◌≡◌};

use rw_head::{Head, Memory, PlacedHead, horizon};
use rw_types::Entry;

/// How many samples are read before samples are let go again.
const EVERY: u64 = 1 << 20;

/// How long samples stay in memory while a log is read.
#[derive(Clone, Copy, Debug)]
pub struct KeepFor {
    /// For how many milliseconds, by their timestamps.
    pub span_ms: u64,
    /// The time by the clock, in milliseconds since the Unix epoch.
    pub now_ms: i64,
}

/// The latest timestamp of the samples that were read, and how many came since samples were let go.
#[derive(Drop)]
pub(crate) struct ReadingMemory {
    keep: Option<KeepFor>,
    latest: i64,
    count: u64,
}

impl ReadingMemory {
    /// Returns that of a log of which nothing was read. Without a bound no samples go.
    pub(crate) fn new(keep: Option<KeepFor>) -> ReadingMemory {
        ReadingMemory {
            keep,
            latest: i64::MIN,
            count: 0,
        }
    }

    /// Notes an entry. Returns the timestamp before which samples are to go, if it is time for it.
    fn note(&mut self, entry: &Entry) -> Option<i64> {
        let Entry::Sample { t, .. } = entry else {
            return None;
        };
        let Some(keep) = self.keep else {
            return None;
        };
        self.latest = self.latest.max(*t);
        self.count = self.count.saturating_add(1);
        if self.count < EVERY {
            return None;
        }
        self.count = 0;
        Some(self.before(keep))
    }

    /// Returns the timestamp before which samples are to go, if they stay for so long.
    fn before(&self, keep: KeepFor) -> i64 {
        horizon(self.latest, keep.now_ms, keep.span_ms)
    }
}

/// Lets samples go from memory, once a log was read, that are older than they stay there.
pub(crate) fn let_go_at_end<M: Memory>(memory: &ReadingMemory, head: &mut Head<M>)
    ensures { head.new ≡ head.old }
{
    if let Some(keep) = memory.keep {
        let _left = head.forget(memory.before(keep));
    }
}

/// Notes an entry, and lets samples go from memory that are older than they stay there, if it is
/// time for it.
pub(crate) fn let_go<M: Memory>(memory: &mut ReadingMemory, head: &mut PlacedHead<M>, entry: &Entry)
    ensures { head.new ≡ head.old }
{
    if let Some(before) = memory.note(entry) {
        let _left = head.forget(before);
    }
}

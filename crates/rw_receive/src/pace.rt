//! How much time a request or a reply may take.

ghost use Rattle.std.specs.Prelude.{◌+◌, ◌≤◌, ◌↔◌, IsTrue, IfSome};

use std::time::{Clock, Instant};

/// How many milliseconds a client may be late, or silent, before it can be closed in favour of one
/// that waits for a seat.
pub(crate) const GRACE_MS: u64 = 1_000;

/// Returns whether a request is in time if `len` bytes of it have come and `passed_ms` milliseconds
/// have passed since its first one. It has `base_ms` milliseconds, and one more for each byte. So a
/// client that keeps sending 1,000 bytes a second is always in time.
pub(crate) fn is_in_time(base_ms: u64, len: u64, passed_ms: u64) -> bool
    ensures { IsTrue result ↔ (passed_ms ≤ base_ms + len) }
{
    passed_ms <= base_ms.saturating_add(len)
}

/// Returns whether no more milliseconds have passed than a request may take at most, however many
/// bytes of it have come.
pub(crate) fn is_within_most(most_ms: Option<u64>, passed_ms: u64) -> bool
    ensures { IsTrue result ↔ IfSome most_ms (λ most. passed_ms ≤ most) }
{
    match most_ms {
        Some(most) => passed_ms <= most,
        None => true,
    }
}

/// When a request or a reply began, and how many bytes of it have come since.
#[derive(Clone, Copy, Drop)]
pub(crate) struct Pace<C> {
    clock: C,
    /// `None` if the clock could not be read.
    begun: Option<Instant>,
    len: u64,
}

impl<C: Clock + Copy> Pace<C> {
    /// Returns the pace of what begins now.
    pub(crate) fn new(clock: C) -> Pace<C> {
        let begun = Instant::now(&clock).ok();
        Pace {
            clock,
            begun,
            len: 0,
        }
    }

    /// Counts bytes that have come.
    pub(crate) fn add(&mut self, count: usize) {
        self.len = self.len.saturating_add(count as u64);
    }

    /// Returns the milliseconds since the beginning, or `None` if the clock cannot be read.
    fn passed_ms(&self) -> Option<u64> {
        let passed = self.begun?.elapsed(&self.clock).ok()?;
        u64::try_from(passed.as_millis()).ok()
    }

    /// Returns whether it is in time: it has `base_ms` milliseconds, and one more for each byte,
    /// but not more than `most_ms`, if there is such a limit. It is not in time if the clock cannot
    /// be read.
    pub(crate) fn is_within(&self, base_ms: u64, most_ms: Option<u64>) -> bool {
        match self.passed_ms() {
            Some(passed_ms) => {
                is_within_most(most_ms, passed_ms) && is_in_time(base_ms, self.len, passed_ms)
            }
            None => false,
        }
    }
}

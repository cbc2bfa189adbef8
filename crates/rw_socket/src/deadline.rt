//! A deadline by the clock.

ghost use Rattle.std.specs.Prelude.{◌<◌, IfSome};
ghost use Rattle.std.specs.Duration.{as_nanos};

use std::time::{Clock, Duration, Instant};

/// A point in time by the clock, after which no call waits.
#[derive(Clone, Copy, Drop)]
pub struct Deadline<C> {
    clock: C,
    /// When the deadline was set, or `None` if the clock could not be read.
    begun: Option<Instant>,
    after: Duration,
}

impl<C: Clock> Deadline<C> {
    /// Returns the deadline `after` from now.
    pub fn new(clock: C, after: Duration) -> Deadline<C> {
        let begun = Instant::now(&clock).ok();
        Deadline {
            clock,
            begun,
            after,
        }
    }

    /// Returns the time that is left, or `None` once the deadline has passed, and if the clock
    /// cannot be read.
    pub fn left(&self) -> Option<Duration>
        ensures { IfSome result (λ left. 0 < as_nanos left) }
    {
        let passed = self.begun?.elapsed(&self.clock).ok()?;
        let left = self.after.checked_sub(passed)?;
        if left.is_zero() { None } else { Some(left) }
    }
}

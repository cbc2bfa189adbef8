//! Watches that ask to stop after a number of looks.

ghost use Rattle.std.specs.Prelude.{◌≡◌, ◌<◌};

use rw_follow::{StopRequest, Timed, Watch};
use rw_metrics::SendCounters;
use std::alloc::Global;
use std::time::Clock;

/// Makes this request once it was asked `looks` times. What was fed is flushed at once, or never,
/// and the number of shards is adjusted likewise.
#[derive(Drop)]
pub(crate) struct Countdown {
    pub(crate) looks: u32,
    pub(crate) request: StopRequest,
    pub(crate) flushes: bool,
    pub(crate) reshards: bool,
    pub(crate) said: StopRequest,
    /// The sleeps so far; the greatest number also stands for more.
    pub(crate) sleeps: u32,
}

impl Countdown {
    /// Returns what is asked for at this look.
    fn next(&mut self) -> StopRequest
        ensures { self.new.sleeps ≡ self.old.sleeps }
    {
        if self.looks == 0 {
            return self.request;
        }
        self.looks -= 1;
        StopRequest::Continue
    }
}

impl Watch for Countdown {
    ghost use Rattle.std.specs.Prelude.{false};

    ghost said = { λ c. c.said };

    ghost due = { λ c. c.flushes };

    ghost is_quiet = { λ _. false };

    ghost counts = { λ c. c.sleeps < 4_294_967_295 };

    ghost sleeps = { λ c. c.sleeps };

    fn stop_request(&mut self) -> StopRequest {
        self.said = self.next();
        self.said
    }

    fn sleep(&mut self) {
        self.sleeps = self.sleeps.saturating_add(1);
    }

    fn is_flush_due(&mut self) -> bool {
        self.flushes
    }

    fn is_reshard_due(&mut self) -> bool {
        self.reshards
    }
}

/// Asks to stop after `looks` looks: at once if the counters say then that one sample was placed
/// and none waits, and otherwise to finish. Time passes as `timed` says.
#[derive(Drop)]
pub(crate) struct Onlooker<'a, K> {
    pub(crate) alloc: Global,
    pub(crate) counters: &'a SendCounters,
    pub(crate) looks: u32,
    pub(crate) timed: Timed<K>,
    pub(crate) said: StopRequest,
    pub(crate) is_due: bool,
}

impl<K: Clock> Onlooker<'_, K> {
    /// Returns whether the counters say that one sample was placed and none waits.
    fn has_settled(&self) -> bool {
        match self.counters.numbers(self.alloc) {
            Ok(numbers) => numbers.placed == 1 && numbers.waiting == 0,
            Err(_) => false,
        }
    }

    /// Returns what is asked for at this look.
    fn next(&mut self) -> StopRequest {
        if self.looks > 0 {
            self.looks -= 1;
            return StopRequest::Continue;
        }
        if self.has_settled() {
            StopRequest::Abort
        } else {
            StopRequest::Finish
        }
    }
}

impl<K: Clock> Watch for Onlooker<'_, K> {
    ghost use Rattle.std.specs.Prelude.{false};

    ghost said = { λ o. o.said };

    ghost due = { λ o. o.is_due };

    ghost is_quiet = { λ _. false };

    ghost counts = { λ _. ⊥ };

    ghost sleeps = { λ _. 0 };

    fn stop_request(&mut self) -> StopRequest {
        self.said = self.next();
        self.said
    }

    fn sleep(&mut self) {
        self.timed.sleep();
    }

    fn is_flush_due(&mut self) -> bool {
        self.is_due = self.timed.is_flush_due();
        self.is_due
    }

    fn is_reshard_due(&mut self) -> bool {
        self.timed.is_reshard_due()
    }
}

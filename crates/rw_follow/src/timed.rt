//! A watch by the clock.

use crate::signal::{StopRequest, StopSignal};
use crate::watch::Watch;
use std::alloc::Global;
use std::sync::Arc;
use std::thread;
use std::time::{Clock, Duration, Instant};

/// Polls a stop signal, and lets time pass by a clock.
#[derive(Drop)]
pub struct Timed<K> {
    clock: K,
    signal: Arc<StopSignal, Global>,
    /// The time between two looks.
    poll: Duration,
    /// How long something may wait to be flushed.
    patience: Duration,
    /// Since when something has been waiting.
    waits_since: Option<Instant>,
    /// The time between two adjustments of the number of shards.
    reshard: Duration,
    /// When it was adjusted last.
    asked_at: Option<Instant>,
    said: StopRequest,
    is_due: bool,
}

/// Returns whether `time` has passed since `since`, and clears `since` then. If `since` is `None`,
/// it is set to now. Returns `None` if the clock cannot be read.
fn has_passed<K: Clock>(clock: &K, since: &mut Option<Instant>, time: Duration) -> Option<bool> {
    let Ok(now) = Instant::now(clock) else {
        return None;
    };
    match *since {
        Some(moment) if now.saturating_duration_since(moment) >= time => {
            *since = None;
            Some(true)
        }
        Some(_) => Some(false),
        None => {
            *since = Some(now);
            Some(false)
        }
    }
}

impl<K: Clock> Timed<K> {
    /// Returns a watch that sleeps for `poll` between two looks, flushes what has waited for
    /// `patience`, and has the number of shards adjusted every `reshard`.
    pub fn new(
        clock: K,
        signal: Arc<StopSignal, Global>,
        poll: Duration,
        patience: Duration,
        reshard: Duration,
    ) -> Timed<K> {
        Timed {
            clock,
            signal,
            poll,
            patience,
            waits_since: None,
            reshard,
            asked_at: None,
            said: StopRequest::Continue,
            is_due: false,
        }
    }
}

impl<K: Clock> Watch for Timed<K> {
    ghost use Rattle.std.specs.Prelude.{false};

    ghost said = { λ w. w.said };

    ghost due = { λ w. w.is_due };

    ghost is_quiet = { λ _. false };

    ghost counts = { λ _. ⊥ };

    ghost sleeps = { λ _. 0 };

    fn stop_request(&mut self) -> StopRequest {
        self.said = self.signal.request();
        self.said
    }

    fn sleep(&mut self) {
        thread::sleep(&self.clock, self.poll);
    }

    /// Returns true also if the clock cannot be read.
    fn is_flush_due(&mut self) -> bool {
        self.is_due = has_passed(&self.clock, &mut self.waits_since, self.patience).unwrap_or(true);
        self.is_due
    }

    /// Returns false also if the clock cannot be read.
    fn is_reshard_due(&mut self) -> bool {
        has_passed(&self.clock, &mut self.asked_at, self.reshard).unwrap_or(false)
    }
}

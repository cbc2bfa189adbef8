//! Samples that a service lets go from memory.

use crate::server_context::ServerContext;
use rw_head::horizon;
use rw_recv_head::{Admit, Holding, SharedHead};
use std::sync::Wait;
use std::time::{Clock, Duration, Instant, SystemTime, UNIX_EPOCH};

/// How many seconds pass before samples are let go again.
const EVERY_S: u64 = 60;

/// When a service let samples go last, and the timestamp of the latest sample then.
#[derive(Drop)]
pub(crate) struct Forgetting {
    done: Option<Instant>,
    latest: Option<i64>,
}

/// Returns the time by the clock, in milliseconds since the Unix epoch, if it can be read.
pub fn now_ms<C: Clock>(clock: &C) -> Option<i64> {
    let Ok(now) = SystemTime::now(clock) else {
        return None;
    };
    let Ok(passed) = now.duration_since(UNIX_EPOCH) else {
        return None;
    };
    let Ok(ms) = i64::try_from(passed.as_millis()) else {
        return None;
    };
    Some(ms)
}

impl Forgetting {
    /// Returns that of a service that has not let samples go yet.
    pub(crate) fn new() -> Forgetting {
        Forgetting {
            done: None,
            latest: None,
        }
    }

    /// Returns whether it is time to let samples go, and notes that, if the clock can be read.
    fn is_due<C: Clock>(&mut self, clock: &C) -> bool {
        let Ok(now) = Instant::now(clock) else {
            return false;
        };
        if let Some(done) = self.done {
            if now.duration_since(done) < Duration::from_secs(EVERY_S) {
                return false;
            }
        }
        self.done = Some(now);
        true
    }

    /// Lets samples go from memory that are older than the service keeps them there, if there is
    /// such a bound and it is time for it: older than the latest sample, as it was the last time,
    /// and than the clock. What is left is counted. It may wait for the lock.
    pub(crate) fn step<L: Holding<H>, H: Admit, R: Wait + Clock>(
        &mut self,
        rt: &R,
        context: &ServerContext<'_>,
        shared: &SharedHead<L, H>,
    ) {
        let Some(span_ms) = context.memory_ms else {
            return;
        };
        if !self.is_due(rt) {
            return;
        }
        let before = match (self.latest, now_ms(rt)) {
            (Some(latest), Some(now)) => horizon(latest, now, span_ms),
            _ => i64::MIN,
        };
        let left = shared.forget(rt, before);
        self.latest = left.latest;
        context.counters.hold_in_memory(left.samples, left.asked);
    }
}

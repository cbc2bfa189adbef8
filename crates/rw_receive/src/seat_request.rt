//! A request for seats, which the connections of a service share.

use std::sync::atomic::{AtomicU64, Ordering};

/// How many connections a request asks to end: more than one, since a client seldom waits alone.
const MOST_ENDS: u64 = 8;

/// A request for seats, which is made while a client waits for one. A few connections meet it by
/// ending: those that notice first that they are silent or late.
#[derive(Drop)]
pub struct SeatRequest {
    /// How many more connections it asks to end.
    ends: AtomicU64,
}

impl SeatRequest {
    /// Returns a request that is not made.
    pub fn new() -> SeatRequest {
        SeatRequest {
            ends: AtomicU64::new(0),
        }
    }

    /// Asks up to eight connections to end.
    pub fn make(&self) {
        self.ends.store(MOST_ENDS, Ordering::SeqCst);
    }

    /// Withdraws the request, as far as no connection has met it.
    pub fn withdraw(&self) {
        self.ends.store(0, Ordering::SeqCst);
    }

    /// Returns whether the caller is to end.
    pub(crate) fn meet(&self) -> bool {
        let ends = self.ends.load(Ordering::SeqCst);
        let Some(left) = ends.checked_sub(1) else {
            return false;
        };
        self.ends
            .compare_exchange(ends, left, Ordering::SeqCst, Ordering::SeqCst)
            .is_ok()
    }
}

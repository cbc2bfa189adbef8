//! A stop signal, which one thread sets and others read.

ghost use Rattle.std.specs.Prelude.{◌≡◌, ◌≤◌};

use std::sync::atomic::{AtomicU64, Ordering};

/// What is asked of the work.
#[derive(Clone, Copy, Debug, PartialEq, Eq)]
pub enum StopRequest {
    /// To go on.
    Continue,
    /// To do what has begun, and to end.
    Finish,
    /// To end at once, and to abandon what is not done.
    Abort,
}

/// A stop signal that threads share. It only goes up: from `Continue` to `Finish`, and to `Abort`.
#[derive(Drop)]
pub struct StopSignal {
    /// 0, 1 or 2, for the requests in their order.
    level: AtomicU64,
}

/// Returns the request at a level.
fn request_at(level: u64) -> StopRequest
    ensures work { level ≡ 0 → result ≡ StopRequest.Continue }
    ensures finish { level ≡ 1 → result ≡ StopRequest.Finish }
    ensures abort { 2 ≤ level → result ≡ StopRequest.Abort }
{
    match level {
        0 => StopRequest::Continue,
        1 => StopRequest::Finish,
        _ => StopRequest::Abort,
    }
}

impl StopSignal {
    /// Returns a signal that nobody has set: it says `Continue`.
    pub fn new() -> StopSignal {
        StopSignal {
            level: AtomicU64::new(0),
        }
    }

    /// Returns what is asked for now.
    pub fn request(&self) -> StopRequest {
        request_at(self.level.load(Ordering::SeqCst))
    }

    /// Asks to finish, unless a stop was asked for before.
    pub fn finish(&self) {
        let _ = self
            .level
            .compare_exchange(0, 1, Ordering::SeqCst, Ordering::SeqCst);
    }

    /// Asks to end at once.
    pub fn abort(&self) {
        self.level.store(2, Ordering::SeqCst);
    }
}

//! A watch of a log that is there whole.

use rw_follow::{StopRequest, StopSignal, Watch};
use std::alloc::Global;
use std::sync::Arc;

/// Asks to finish at each look, and so to read a log to its present end, until its signal asks to
/// end at once.
#[derive(Drop)]
pub struct UntilAborted {
    signal: Arc<StopSignal, Global>,
    said: StopRequest,
}

impl UntilAborted {
    /// Returns a watch of this signal.
    pub fn new(signal: Arc<StopSignal, Global>) -> UntilAborted {
        UntilAborted {
            signal,
            said: StopRequest::Finish,
        }
    }
}

impl Watch for UntilAborted {
    ghost use Rattle.std.specs.Prelude.{true, false};

    ghost said = { λ w. w.said };

    ghost due = { λ _. false };

    ghost is_quiet = { λ _. true };

    ghost counts = { λ _. ⊥ };

    ghost sleeps = { λ _. 0 };

    fn stop_request(&mut self) -> StopRequest {
        self.said = match self.signal.request() {
            StopRequest::Abort => StopRequest::Abort,
            StopRequest::Continue | StopRequest::Finish => StopRequest::Finish,
        };
        self.said
    }

    fn sleep(&mut self) {}

    fn is_flush_due(&mut self) -> bool {
        false
    }

    fn is_reshard_due(&mut self) -> bool {
        false
    }
}

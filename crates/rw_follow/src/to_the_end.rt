//! A watch that asks to finish from the start.

use crate::signal::StopRequest;
use crate::watch::Watch;

/// Asks to finish at each look, and for nothing else: so a log is read to its present end.
#[derive(Clone, Copy, Debug, PartialEq, Eq)]
pub struct ToTheEnd;

impl Watch for ToTheEnd {
    ghost use Rattle.std.specs.Prelude.{true, false};
    ghost use Rattle.rw_follow.specs.declared.signal.StopRequest.TheVariants.{Finish};

    ghost said = { λ _. Finish };

    ghost due = { λ _. false };

    ghost is_quiet = { λ _. true };

    ghost counts = { λ _. ⊥ };

    ghost sleeps = { λ _. 0 };

    fn stop_request(&mut self) -> StopRequest {
        StopRequest::Finish
    }

    fn sleep(&mut self) {}

    fn is_flush_due(&mut self) -> bool {
        false
    }

    fn is_reshard_due(&mut self) -> bool {
        false
    }
}

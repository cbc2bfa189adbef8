//! The environment of a follower: the stop signal, and how time passes.

ghost use Rattle.std.specs.Prelude.{◌≡◌, true, false};

use crate::signal::StopRequest;

/// The environment of a follower, and of the caller that feeds what it returns, between two looks
/// at a log.
pub trait Watch {
    ghost use Rattle.std.specs.Prelude.{Bool, ℕ, suc};
    ghost use Rattle.rw_follow.specs.declared.signal.StopRequest.{StopRequest};

    /// The last stop request that it returned.
    ghost said: { Self → StopRequest };

    /// Whether it last said that a flush is due.
    ghost due: { Self → Bool };

    /// Whether it asks from here on neither for a flush nor for another number of shards.
    ghost is_quiet: { Self → Bool };

    /// Whether it has counted each sleep so far. A watch need not count any.
    ghost counts: { Self → Type 0 };

    /// How many sleeps there were so far.
    ghost sleeps: { Self → ℕ };

    /// Returns what is asked for now.
    fn stop_request(&mut self) -> StopRequest
        ensures said { said self.new ≡ result }
        ensures quiet { is_quiet self.old ≡ true → is_quiet self.new ≡ true }
        ensures awake { counts self.new
            → counts self.old × (sleeps self.new ≡ sleeps self.old) };

    /// Sleeps for a short time.
    fn sleep(&mut self)
        ensures quiet { is_quiet self.old ≡ true → is_quiet self.new ≡ true }
        ensures counted { counts self.new
            → counts self.old × (sleeps self.new ≡ suc (sleeps self.old)) };

    /// Returns whether what was fed since the last flush has waited long enough. It is called while
    /// something waits.
    fn is_flush_due(&mut self) -> bool
        ensures due { due self.new ≡ result }
        ensures quiet { is_quiet self.old ≡ true
            → (is_quiet self.new ≡ true) × (result ≡ false) }
        ensures awake { counts self.new
            → counts self.old × (sleeps self.new ≡ sleeps self.old) };

    /// Returns whether the number of shards is to be adjusted again. It is called at each turn.
    fn is_reshard_due(&mut self) -> bool
        ensures quiet { is_quiet self.old ≡ true
            → (is_quiet self.new ≡ true) × (result ≡ false) }
        ensures awake { counts self.new
            → counts self.old × (sleeps self.new ≡ sleeps self.old) };
}

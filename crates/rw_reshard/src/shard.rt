//! A shard, and what makes one.

ghost use Rattle.std.specs.Prelude.{◌≡◌, ℕ, Bool, IfOk};

use std::alloc::AllocError;

/// A shard of a sender.
pub trait Shard {
    /// Whether its queue's end was taken and all its samples are resolved.
    ghost is_drained: { Self → Bool };

    /// Returns whether the End of its queue was taken and all its samples are resolved.
    fn drained(&self) -> bool
        ensures { result ≡ is_drained self.now };
}

/// What makes the shards of an epoch.
pub trait Make {
    /// The shards that are made.
    type S: Shard;

    /// What is a new shard of an epoch, with its number there, from 0.
    ghost is_new: { ℕ → ℕ → Self.S → Type 0 };

    /// Makes shard number `shard` of epoch `epoch`, both counted from 0.
    fn make(&mut self, epoch: u64, shard: u32) -> Result<Self::S, AllocError>
        ensures { IfOk result (λ s. is_new epoch shard s) };
}

//! Whether a head keeps all its samples in memory.

ghost use Rattle.std.specs.Prelude.{◌≡◌};

/// Whether a head keeps all its samples in memory: `AllSamples` or `RecentSamples`.
pub trait Memory {
    ghost use Rattle.std.specs.Prelude.{Bool};

    /// Whether samples may be gone from memory.
    ghost forgets: { Bool };

    /// Returns whether samples may be gone from memory.
    fn forgets() -> bool
        ensures { result ≡ forgets };
}

/// A head has all its samples in memory, and shows them.
#[derive(Clone, Copy, Debug)]
pub struct AllSamples;

/// A head may let samples go from memory, and shows none.
#[derive(Clone, Copy, Debug)]
pub struct RecentSamples;

impl Memory for AllSamples {
    ghost use Rattle.std.specs.Prelude.{false};

    ghost forgets = { false };

    fn forgets() -> bool {
        false
    }
}

impl Memory for RecentSamples {
    ghost use Rattle.std.specs.Prelude.{true};

    ghost forgets = { true };

    fn forgets() -> bool {
        true
    }
}

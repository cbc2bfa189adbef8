//! What the shards of a fleet do, as a type.

ghost use Rattle.std.specs.Prelude.{◌≡◌, ◌≤◌, ℕ};

/// What the shards of a fleet do: `Running` or `Draining`.
pub trait FleetStage {
    /// Whether the stage allows that this many shards of the next epoch were made, if that many are
    /// wanted.
    ghost allows: { ℕ → ℕ → Type 0 };
}

/// The shards take samples.
#[derive(Debug)]
pub struct Running;

impl FleetStage for Running {
    ghost allows = { λ made wanted. made ≡ 0 };
}

/// The shards finish what they have, and the next epoch is to come.
#[derive(Debug)]
pub struct Draining;

impl FleetStage for Draining {
    ghost allows = { λ made wanted. (made ≤ wanted) × (wanted ≤ 1000) };
}

//! How far the samples of all shards have come.

ghost use Rattle.std.specs.Prelude.{◌≡◌, ◌+◌, ℕ};
ghost use Rattle.rw_fleet.specs.Loads.{load_of};

/// How far the samples of all shards have come, as far as is known. It is best effort, and decides
/// how many shards are wanted.
#[derive(Clone, Copy, Debug, PartialEq, Eq)]
pub struct Load {
    /// How many samples were put into queues.
    pub placed: u64,
    /// How many of them are resolved, or only wait for a full batch.
    pub resolved: u64,
    /// How many of them wait to be resolved.
    pub backlog: u64,
}

impl Load {
    pub(crate) fn none() -> Load
        ensures { result ≡ load_of 0 0 }
    {
        Load {
            placed: 0,
            resolved: 0,
            backlog: 0,
        }
    }

    /// Returns the load with one shard more, of whose samples `resolved` are resolved and `left`
    /// may not be.
    pub(crate) fn with(self, resolved: u64, left: u64) -> Load
        ensures { (r l : ℕ) → self ≡ load_of r l → result ≡ load_of (r + resolved) (l + left) }
    {
        Load {
            placed: self.placed.saturating_add(resolved).saturating_add(left),
            resolved: self.resolved.saturating_add(resolved),
            backlog: self.backlog.saturating_add(left),
        }
    }
}

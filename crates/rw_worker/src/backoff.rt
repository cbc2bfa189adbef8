//! How long a worker waits.

ghost use Rattle.std.specs.Prelude.{◌≡◌};
ghost use Rattle.rw_retry.specs.Backoff.{delay_of};

use rw_retry::delay;
use rw_shard_core::Config;
use std::marker::Model;

/// The pause before the first retry of a batch and the longest one, in milliseconds.
#[derive(Drop)]
pub(crate) struct Backoff {
    least: u64,
    most: u64,
}

impl Model for Backoff {
    ghost use Rattle.std.specs.Prelude.{ℕ, ◌≤◌, ◌<◌, ◌^◌};

    ghost Value = { ℕ × ℕ };

    ghost view = { λ b. (b.least, b.most) };

    ghost invariant = { λ b. (b.least ≤ b.most) × (b.most < 2 ^ 64) };
}

impl Backoff {
    pub(crate) fn of(config: &Config) -> Backoff
        ensures { result ≡ (config.now.min_backoff_ms, config.now.max_backoff_ms) }
    {
        let fields = config.fields();
        Backoff {
            least: fields.min_backoff_ms.get(),
            most: fields.max_backoff_ms.get(),
        }
    }

    /// Returns the pause after memory ran out.
    pub(crate) fn least(&self) -> u64
        ensures { result ≡ self.now.0 }
    {
        self.least
    }

    /// Returns the pause before a retry, counted from 0.
    pub(crate) fn before(&self, retry: u64) -> u64
        ensures { result ≡ delay_of self.now.0 self.now.1 retry }
    {
        delay(self.least, self.most, retry)
    }
}

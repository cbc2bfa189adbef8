//! The report.

ghost use Rattle.std.specs.Prelude.{◌≡◌, ◌==◌, IfOk, filter};
ghost use Rattle.std.specs.List.{list_any};
ghost use Rattle.std.specs.List.Sorted.{IsNonDecreasing};
ghost use Rattle.std.specs.Option.{option_map};
ghost use Rattle.rw_machine.specs.Worlds.{is_pending, report, up_to};
ghost use Rattle.rw_shard_core.specs.Endings.{ending_of};

use crate::engine::Engine;
use rw_shard_core::Outcome;
use std::alloc::AllocError;

/// Returns whether the position is one of these.
fn stands(positions: &[u64], pos: u64) -> bool
    requires { IsNonDecreasing positions.now }
    ensures { result ≡ list_any (λ p. p == pos) positions.now }
{
    positions.binary_search(&pos).is_ok()
}

impl Engine {
    /// Returns the positions of the samples that were put and are not resolved.
    fn pending(&self) -> Result<Vec<u64>, AllocError>
        ensures { IfOk result
            (λ v. v.items ≡ filter (is_pending self.now.world) (up_to self.now.world.placed)) }
    {
        let pending = self.senders.pending()?;
        let mut samples = Vec::new(self.alloc);
        for pos in 0..self.placed {
            if stands(&pending, pos) {
                samples.push(pos)?;
            }
        }
        Ok(samples)
    }

    /// Returns how the work has ended, once it has.
    pub(crate) fn report(&self) -> Result<Option<Outcome>, AllocError>
        ensures { IfOk result (λ r. option_map ending_of r ≡ report self.now.world) }
    {
        if self.killed {
            let samples = self.pending()?;
            return Ok(Some(Outcome::Abandoned {
                placed: self.placed,
                samples,
            }));
        }
        if !self.is_over() {
            return Ok(None);
        }
        match self.log.fault() {
            Some(fault) => Ok(Some(Outcome::Damaged(fault))),
            None => Ok(Some(Outcome::Complete(self.placed))),
        }
    }
}

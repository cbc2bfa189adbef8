//! What a shipper has done.

ghost use Rattle.std.specs.Prelude.{◌≡◌, IfOk};
ghost use Rattle.rw_fleet.specs.Stopped.{names_in_parts};
ghost use Rattle.rw_sender.specs.Reports.{parts_of};

use rw_fleet::StoppedShards;
use rw_ledger::{Ledger, Reason};
use rw_shard_core::Outcome;
use std::alloc::{AllocError, Global};

/// What a shipper has done.
#[derive(Drop)]
pub struct Report<T> {
    pub outcome: Outcome,
    /// The samples that were dropped without being put: those that have no series, one whose
    /// labels are not a label set, or a timestamp that is not later than the last one of the
    /// series.
    pub dropped: Ledger,
    /// How many samples were placed whose series the rules drop.
    pub filtered: u64,
    /// One for each queue of each epoch, in order, with its refused samples.
    pub ended: StoppedShards<T>,
}

impl<T> Report<T> {
    /// Returns all dropped samples: first those that were dropped without being put, and then for
    /// each queue its refused samples.
    pub fn dropped_samples(&self, alloc: Global) -> Result<Vec<(u64, Reason)>, AllocError>
        ensures { IfOk result (λ names. names.items ≡ names_in_parts (parts_of self.now)) }
    {
        let mut names = Vec::new(alloc);
        names.extend_from_slice(self.dropped.iter().as_slice())?;
        self.ended.push_refused(&mut names)?;
        Ok(names)
    }
}

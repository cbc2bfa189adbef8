//! Puts the definitions of the first segments of a log in their place.

ghost use Rattle.std.specs.Prelude.{◌≡◌, ◌⊎◌, ◌<◌, length, take, OnOk, IsErrOf};
ghost use Rattle.std.specs.List.{AllByRecursion};
ghost use Rattle.rw_kept_log.specs.Checkpoints.{IsRetired};
ghost use Rattle.rw_kept_log.specs.Definitions.{definitions_in};
ghost use Rattle.rw_kept_log.specs.Journal.{Only, LeavesOnly};
ghost use Rattle.rw_kept_log.specs.Logs.{entries_of, IsWholeText};
ghost use Rattle.rw_kept_log.specs.declared.journal.JournalError.TheVariants.{Failed};
ghost use Rattle.rw_kept_log.specs.declared.retire_error.RetireError.TheVariants.{Journal, Unwritten};
ghost use Rattle.rw_wal_format.specs.Pieces.{page_size};

use crate::definitions::write_definitions;
use crate::retire_error::RetireError;
use crate::retiring_journal::RetiringJournal;
use rw_types::RawLabels;
use std::alloc::Global;

/// Puts a checkpoint in the place of the first `n` segments: their definitions, which the caller
/// has kept as they were read, without their samples. What comes after them is read as before. A
/// crash at any moment leaves the log as it was, or the one that is to be.
pub fn retire_segments<J: RetiringJournal>(
    alloc: Global,
    journal: &mut J,
    n: usize,
    definitions: &[(u64, RawLabels)],
) -> Result<(), RetireError>
    // After a restart, what is read is what is on the disk.
    requires synced { Only (J.seen journal.old) (J.may_leave journal.old) }
    requires before_last { n < length (J.seen journal.old) }
    requires whole { AllByRecursion (IsWholeText page_size) (take n (J.seen journal.old)) }
    requires definitions { definitions.now
        ≡ definitions_in (entries_of page_size (take n (J.seen journal.old))) }

    ensures retired { OnOk result (IsRetired n (J.seen journal.old) (J.seen journal.new)) }
    ensures synced { OnOk result (Only (J.seen journal.new) (J.may_leave journal.new)) }
    ensures unwritten { IsErrOf result Unwritten → journal.new ≡ journal.old }
    ensures failed { IsErrOf result (Journal Failed) → J.faults journal.old < J.faults journal.new }

    ensures any_moment { LeavesOnly J.moment J.left_since journal.old journal.new
        (λ c. (c ≡ J.seen journal.old) ⊎ IsRetired n (J.seen journal.old) c) }
{
    let texts = write_definitions(alloc, definitions)?;
    journal.retire(n, &texts)?;
    Ok(())
}

//! Closes the last segment of a log, and begins a next one.

ghost use Rattle.std.specs.Prelude.{◌≡◌, ◌<◌, ◌++◌, [], ◌∷◌, take, OnOk, IsErrOf};
ghost use Rattle.rw_kept_log.specs.Journal.{on_last, Only, LeavesOnly};
ghost use Rattle.rw_wal_format.specs.Pieces.{page_size};
ghost use Rattle.rw_kept_log.specs.Logs.{entries_of, IsWholeText, IsCleanCut};
ghost use Rattle.rw_kept_log.specs.TornLogs.{last_of, AllBefore};

use crate::journal::{Journal, JournalError};

/// Cuts the last segment after its last whole record, and begins a next one. A crash at any moment
/// leaves a log with the same entries.
pub fn close_torn<J: Journal>(journal: &mut J, at: usize) -> Result<(), JournalError>
    // After a restart, what is read is what is on the disk.
    requires synced { Only (J.seen journal.old) (J.may_leave journal.old) }
    requires whole { AllBefore (IsWholeText page_size) (J.seen journal.old) }
    requires clean { IsCleanCut page_size (last_of (J.seen journal.old)) at }

    ensures segments { OnOk result
        (J.seen journal.new ≡ on_last (take at) (J.seen journal.old) ++ [] ∷ []) }
    ensures entries { OnOk result
        (entries_of page_size (J.seen journal.new) ≡ entries_of page_size (J.seen journal.old)) }
    ensures whole { OnOk result (AllBefore (IsWholeText page_size) (J.seen journal.new)) }
    ensures synced { OnOk result (Only (J.seen journal.new) (J.may_leave journal.new)) }

    // A crash at any moment leaves a log with the same entries.
    ensures any_moment { LeavesOnly J.moment J.left_since journal.old journal.new
        (λ c. entries_of page_size c ≡ entries_of page_size (J.seen journal.old)) }

    // It does not give up by itself.
    ensures failed { IsErrOf result JournalError.Failed
        → J.faults journal.old < J.faults journal.new }
{
    journal.cut(at)?;
    journal.sync()?;
    journal.begin()?;
    Ok(())
}

//! A folder of segments to which bytes are appended: what they hold, and what a crash may leave.

ghost use Rattle.std.specs.Prelude.{◌≡◌, ◌<◌, ◌≤◌, ◌++◌, [], ◌∷◌, ℕ, List, length, take, OnOk};
ghost use Rattle.rw_kept_log.specs.declared.journal.JournalError.TheVariants.{OutOfMemory};
ghost use Rattle.rw_kept_log.specs.Journal.{Segments, on_last, with_more, Only, NoMore, IsTornEnd, IsCutEnd, IsBegun, Elapses, HasCause};

use std::alloc::{AllocError, AllocFailed};

/// Why a call of a journal failed.
#[derive(Clone, Copy, Debug, PartialEq, Eq)]
pub enum JournalError {
    /// Memory ran out.
    OutOfMemory,
    /// The device failed.
    Failed,
}

impl From<AllocError> for JournalError {
    ghost from_gives = { λ _ e. e ≡ OutOfMemory };

    fn from(_: AllocError) -> Self {
        JournalError::OutOfMemory
    }
}

impl<T: Drop> From<AllocFailed<T>> for JournalError {
    ghost from_gives = { λ _ e. e ≡ OutOfMemory };

    fn from(_: AllocFailed<T>) -> Self {
        JournalError::OutOfMemory
    }
}

/// A folder of segments. Bytes are appended to the last segment, and a next one may be begun. A
/// crash may leave anything of the bytes that are not synced.
///
/// After an `Err` the folder has to be opened again: it then holds what a crash may leave.
pub trait Journal {
    /// The segments, in order, with the bytes that they hold.
    ghost seen: { Self → Segments };

    /// What a crash at this moment may leave.
    ghost may_leave: { Self → Segments → Type 0 };

    /// The current moment, as a number that never decreases.
    ghost moment: { Self → ℕ };

    /// What a crash at some moment since that one might have left, during a call or between two
    /// calls.
    ghost left_since: { Self → ℕ → Segments → Type 0 };

    /// What a crash may leave of bytes that are being written.
    ghost tears: { List ℕ → List ℕ → Type 0 };

    /// How often the device has failed.
    ghost faults: { Self → ℕ };

    /// Returns the number of segments.
    fn count(&self) -> usize
        ensures { result ≡ length (seen self.now) };

    /// Appends bytes to the last segment. Everything in the folder must be synced.
    fn append(&mut self, bytes: &[u8]) -> Result<(), JournalError>
        requires { Only (seen self.old) (may_leave self.old) }
        ensures written { OnOk result (seen self.new ≡ with_more (seen self.old) bytes.now) }
        ensures crash { (c : Segments) → may_leave self.new c
            → IsTornEnd tears bytes.now (seen self.old) c }
        ensures time { Elapses (moment self.old) (moment self.new) (left_since self.old)
            (left_since self.new) (may_leave self.new) }
        ensures cause { HasCause (faults self.old) (faults self.new) result };

    /// Cuts the last segment to a length. Everything in the folder must be synced.
    fn cut(&mut self, len: usize) -> Result<(), JournalError>
        requires { Only (seen self.old) (may_leave self.old) }
        ensures cut { OnOk result (seen self.new ≡ on_last (take len) (seen self.old)) }
        ensures crash { (c : Segments) → may_leave self.new c → IsCutEnd len (seen self.old) c }
        ensures time { Elapses (moment self.old) (moment self.new) (left_since self.old)
            (left_since self.new) (may_leave self.new) }
        ensures cause { HasCause (faults self.old) (faults self.new) result };

    /// Syncs the folder: from then on a crash leaves what the segments hold.
    fn sync(&mut self) -> Result<(), JournalError>
        ensures durable { OnOk result (Only (seen self.new) (may_leave self.new)) }
        ensures seen { seen self.new ≡ seen self.old }
        ensures crash { NoMore (may_leave self.old) (may_leave self.new) }
        ensures time { Elapses (moment self.old) (moment self.new) (left_since self.old)
            (left_since self.new) (may_leave self.new) }
        ensures cause { HasCause (faults self.old) (faults self.new) result };

    /// Begins a next segment, which is empty, and syncs it. Everything in the folder must be
    /// synced.
    fn begin(&mut self) -> Result<(), JournalError>
        requires { Only (seen self.old) (may_leave self.old) }
        ensures begun { OnOk result (seen self.new ≡ seen self.old ++ [] ∷ []) }
        ensures durable { OnOk result (Only (seen self.new) (may_leave self.new)) }
        ensures crash { (c : Segments) → may_leave self.new c → IsBegun (seen self.old) c }
        ensures time { Elapses (moment self.old) (moment self.new) (left_since self.old)
            (left_since self.new) (may_leave self.new) }
        ensures cause { HasCause (faults self.old) (faults self.new) result };

    /// The current moment is one of those since an earlier one.
    ghost counts_now: { (journal : Self) (t : ℕ) (c : Segments) → t ≤ moment journal
        → may_leave journal c → left_since journal t c };

    /// Since the current moment there is no other one.
    ghost only_now: { (journal : Self) (c : Segments) → left_since journal (moment journal) c
        → may_leave journal c };

    /// A crash may leave all that was asked.
    ghost leaves_seen: { (journal : Self) → may_leave journal (seen journal) };
}

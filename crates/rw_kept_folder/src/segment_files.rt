//! What is asked of the files of a folder of segments, and what the operating system promises.

ghost use Rattle.std.specs.Prelude.{◌≡◌, ◌<◌, ◌≤◌, ◌++◌, [], ◌∷◌, ℕ, List, length, take, OnOk, OnErr};
ghost use Rattle.rw_kept_log.specs.Journal.{Segments, on_last, with_more, Only, NoMore, IsTornEnd, IsCutEnd, IsBegun, Elapses, HasCause};
ghost use Rattle.rw_kept_folder.specs.Files.{HasAll, IsSureIfAll};

use rw_kept_log::JournalError;

/// The files of a folder of segments. Each call is a step whose order matters for what a crash
/// leaves. After an `Err` each later call fails.
pub trait SegmentFiles {
    /// The segments, in order, with the bytes that they hold.
    ghost seen: { Self → Segments };

    /// What a crash at this moment may leave. Of a segment that was loaded and that this process
    /// has not written anew, it is anything that the crash before may have left: a sync of it makes
    /// sure of nothing.
    ghost may_leave: { Self → Segments → Type 0 };

    /// The current moment, as a number that never decreases.
    ghost moment: { Self → ℕ };

    /// What a crash at some moment since that one might have left.
    ghost left_since: { Self → ℕ → Segments → Type 0 };

    /// What a crash may leave of bytes that are being written.
    ghost tears: { List ℕ → List ℕ → Type 0 };

    /// How often a call has failed.
    ghost faults: { Self → ℕ };

    /// Returns the number of segments.
    fn count(&self) -> usize
        ensures { result ≡ length (seen self.now) };

    /// Appends bytes to the last segment. Everything must be on the disk.
    fn append(&mut self, bytes: &[u8]) -> Result<(), JournalError>
        requires { Only (seen self.old) (may_leave self.old) }
        // Also if it fails: a part of them, or all, may have been written.
        ensures asked { seen self.new ≡ with_more (seen self.old) bytes.now }
        ensures crash { (c : Segments) → may_leave self.new c
            → IsTornEnd tears bytes.now (seen self.old) c }
        ensures time { Elapses (moment self.old) (moment self.new) (left_since self.old)
            (left_since self.new) (may_leave self.new) }
        ensures cause { HasCause (faults self.old) (faults self.new) result };

    /// Copies the bytes of the last segment from this offset on to a file of their own beside the
    /// segments, and syncs it. Nothing is written if there are none.
    fn set_aside(&mut self, len: usize) -> Result<(), JournalError>
        ensures seen { seen self.new ≡ seen self.old }
        ensures crash { NoMore (may_leave self.old) (may_leave self.new) }
        ensures time { Elapses (moment self.old) (moment self.new) (left_since self.old)
            (left_since self.new) (may_leave self.new) }
        ensures cause { HasCause (faults self.old) (faults self.new) result };

    /// Cuts the last segment to a length. Everything must be on the disk.
    fn set_len(&mut self, len: usize) -> Result<(), JournalError>
        requires { Only (seen self.old) (may_leave self.old) }
        // Also if it fails: it may have been cut.
        ensures asked { seen self.new ≡ on_last (take len) (seen self.old) }
        ensures crash { (c : Segments) → may_leave self.new c → IsCutEnd len (seen self.old) c }
        ensures time { Elapses (moment self.old) (moment self.new) (left_since self.old)
            (left_since self.new) (may_leave self.new) }
        ensures cause { HasCause (faults self.old) (faults self.new) result };

    /// Syncs the bytes of the last segment. A file that was just created may still be missing in
    /// the folder after a crash.
    fn sync_data(&mut self) -> Result<(), JournalError>
        ensures durable { OnOk result (IsSureIfAll (seen self.new) (may_leave self.new)) }
        // If it fails, nothing more is certain than before.
        ensures unsure { OnErr result (NoMore (may_leave self.new) (may_leave self.old)) }
        ensures seen { seen self.new ≡ seen self.old }
        ensures crash { NoMore (may_leave self.old) (may_leave self.new) }
        ensures time { Elapses (moment self.old) (moment self.new) (left_since self.old)
            (left_since self.new) (may_leave self.new) }
        ensures cause { HasCause (faults self.old) (faults self.new) result };

    /// Creates the file of a next segment, which is empty. Everything must be on the disk. Until
    /// the folder is synced, a crash may leave it without the file.
    fn create_next(&mut self) -> Result<(), JournalError>
        requires { Only (seen self.old) (may_leave self.old) }
        ensures begun { OnOk result (seen self.new ≡ seen self.old ++ [] ∷ []) }
        ensures crash { (c : Segments) → may_leave self.new c → IsBegun (seen self.old) c }
        ensures time { Elapses (moment self.old) (moment self.new) (left_since self.old)
            (left_since self.new) (may_leave self.new) }
        ensures cause { HasCause (faults self.old) (faults self.new) result };

    /// Syncs the folder: from then on it has the file of each segment.
    fn sync_folder(&mut self) -> Result<(), JournalError>
        ensures all { OnOk result (HasAll (seen self.new) (may_leave self.new)) }
        // If it fails, nothing more is certain than before.
        ensures unsure { OnErr result (NoMore (may_leave self.new) (may_leave self.old)) }
        ensures seen { seen self.new ≡ seen self.old }
        ensures crash { NoMore (may_leave self.old) (may_leave self.new) }
        ensures time { Elapses (moment self.old) (moment self.new) (left_since self.old)
            (left_since self.new) (may_leave self.new) }
        ensures cause { HasCause (faults self.old) (faults self.new) result };

    /// The current moment is one of those since an earlier one.
    ghost counts_now: { (files : Self) (t : ℕ) (c : Segments) → t ≤ moment files
        → may_leave files c → left_since files t c };

    /// Since the current moment there is no other one.
    ghost only_now: { (files : Self) (c : Segments) → left_since files (moment files) c
        → may_leave files c };

    /// A crash may leave all that was asked.
    ghost leaves_seen: { (files : Self) → may_leave files (seen files) };
}

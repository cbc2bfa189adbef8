//! A journal whose first segments may give way to others.

ghost use Rattle.std.specs.Prelude.{◌≡◌, ◌<◌, length, OnOk};
ghost use Rattle.rw_kept_log.specs.Journal.{Segments, Only, Elapses, HasCause};
ghost use Rattle.rw_kept_log.specs.Retiring.{texts_of, with_first, IsWithFirst};

use crate::journal::{Journal, JournalError};

/// A journal whose first segments may give way to others, such as a checkpoint of them.
pub trait RetiringJournal: Journal {
    /// Puts these texts, each as a segment, in the place of the first `n` segments, and syncs that.
    /// Everything in the folder must be synced. A crash leaves all segments as they were, or all
    /// that are to be.
    fn retire(&mut self, n: usize, texts: &[Vec<u8>]) -> Result<(), JournalError>
        requires synced { Only (Self.seen self.old) (Self.may_leave self.old) }
        requires before_last { n < length (Self.seen self.old) }
        ensures replaced { OnOk result (Self.seen self.new
            ≡ with_first n (texts_of texts.now) (Self.seen self.old)) }
        ensures durable { OnOk result (Only (Self.seen self.new) (Self.may_leave self.new)) }
        ensures crash { (c : Segments) → Self.may_leave self.new c
            → IsWithFirst n (texts_of texts.now) (Self.seen self.old) c }
        ensures time { Elapses (Self.moment self.old) (Self.moment self.new)
            (Self.left_since self.old) (Self.left_since self.new) (Self.may_leave self.new) }
        ensures cause { HasCause (Self.faults self.old) (Self.faults self.new) result };
}

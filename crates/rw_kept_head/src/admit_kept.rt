//! Answering a message once it is in the journal.

ghost use Rattle.std.specs.Prelude.{◌≡◌, ◌≢◌, ◌<◌, ◌≤◌, ◌⊎◌, None, Some, true};
ghost use Rattle.rw_types.specs.Beginnings.{Begins};
ghost use Rattle.rw_types.specs.Labels.{Labels};
ghost use Rattle.rw_kept_log.specs.Journal.{LeavesOnly};
ghost use Rattle.rw_kept_log.specs.declared.journal.JournalError.{JournalError};
ghost use Rattle.rw_kept_log.specs.declared.journal.JournalError.TheVariants.{Failed};
ghost use Rattle.rw_head.specs.declared.capacity.Admission.TheVariants.{Full};
ghost use Rattle.rw_head.specs.Capacity.{exceeds, status_of_admission, unlimited, StaysWithin};
ghost use Rattle.rw_head.specs.Growth.{EachRises, HasStoredBody};
ghost use Rattle.rw_head.specs.Head.{answer, IsStatus, SpellsMessage};
ghost use Rattle.rw_head.specs.Store.{list_of, total};
ghost use Rattle.rw_kept_head.specs.Kept.{ended_with, SaysWhat, IsLeft, StaysDefinedOnce};

use crate::log_writer::LogWriter;
use rw_head::{Admission, Capacity, Head, Memory};
use rw_kept_log::Journal;

/// Answers a body as `Head::admit` does: 204 only once all that it brings is in the journal and
/// synced.
pub(crate) fn admit_kept<J: Journal, M: Memory>(
    head: Head<M>,
    log: &mut LogWriter<J>,
    body: &[u8],
    capacity: &Capacity,
) -> (Head<M>, Admission)
    requires says { log.old.fault ≡ None → SaysWhat (J.seen log.old.journal) head.store }

    ensures status { status_of_admission result.1 ≢ 503
        → status_of_admission result.1 ≡ (answer head body.now).status }
    ensures head { status_of_admission result.1 ≢ 503 → result.0 ≡ (answer head body.now).head }
    ensures unavailable { status_of_admission result.1 ≡ 503 → (result.0 ≡ head) × (head.busy ≡ 0) }
    ensures readable { status_of_admission result.1 ≡ 503 → SpellsMessage body.now }
    ensures statuses { IsStatus (status_of_admission result.1) }
    ensures refused { status_of_admission result.1 ≢ 204 → result.0.store ≡ head.store }
    ensures taken { status_of_admission result.1 ≡ 204
        → HasStoredBody body.now head.store result.0.store }
    ensures more { total head.store ≤ total result.0.store }
    ensures rises { EachRises result.0.store }
    ensures begins { (l : Labels) → Begins (list_of head.store l)
        (list_of (answer head body.now).head.store l) }
    ensures within { StaysWithin capacity.now head.store result.0.store }
    ensures full { result.1 ≡ Full
        → exceeds capacity.now head.store (answer head body.now).head.store ≡ true }
    ensures limited { result.1 ≡ Full → capacity.now ≢ unlimited }

    ensures pages { log.new.pages ≡ log.old.pages }
    ensures open { status_of_admission result.1 ≡ 204 → log.new.fault ≡ None }
    ensures says { log.new.fault ≡ None → SaysWhat (J.seen log.new.journal) result.0.store }
    ensures any_moment { log.old.fault ≡ None
        → LeavesOnly J.moment J.left_since log.old.journal log.new.journal
        (IsLeft J.tears (ended_with (status_of_admission result.1) (J.seen log.new.journal))
        (answer head body.now).head.store (J.seen log.old.journal)) }
    ensures once { log.new.fault ≡ None
        → StaysDefinedOnce (J.seen log.old.journal) (J.seen log.new.journal) }
    ensures closed { (e : JournalError) → log.old.fault ≡ Some e
        → (status_of_admission result.1 ≢ 204) × (log.new ≡ log.old) }
    ensures failed { log.new.fault ≡ Some Failed → (log.old.fault ≡ Some Failed)
        ⊎ (J.faults log.old.journal < J.faults log.new.journal) }
{
    log.conforms();
    let has_failed = log.fault().is_some();
    let staged = match head.stage(body) {
        Ok(staged) => staged,
        Err((head, status)) => return (head, Admission::Answered(status)),
    };
    if staged.exceeds(capacity) {
        return (staged.abort(), Admission::Full);
    }
    if has_failed {
        return (staged.abort(), Admission::Answered(503));
    }
    if log.keep(&staged) {
        (staged.commit(), Admission::Answered(204))
    } else {
        (staged.abort(), Admission::Answered(503))
    }
}

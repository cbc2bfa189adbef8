//! Laws of a receiver that many runs of a sender send one list of each label set. Each function has
//! an empty body: its contract is the law.

ghost use Rattle.std.specs.Prelude.{◌≡◌, ◌≢◌, ℕ, Bool, true, List, length, Ok, Err};
ghost use Rattle.rw_types.specs.Labels.{Labels};
ghost use Rattle.rw_types.specs.Rising.{Rises};
ghost use Rattle.rw_write_request.specs.Message.{WriteRequest};
ghost use Rattle.rw_head.specs.Lists.{IsEarlier};
ghost use Rattle.rw_head.specs.Order.{Point};
ghost use Rattle.rw_head.specs.Store.{Store};
ghost use Rattle.rw_head.specs.Verdicts.{LabelLimits, taken_all};
ghost use Rattle.rw_head.specs.declared.verdict.Verdict.{Verdict};
ghost use Rattle.rw_head.specs.Head.{State, answer_to};
ghost use Rattle.rw_restarts.specs.Parts.{NextPartIsAccepted};
ghost use Rattle.rw_restarts.specs.Runs.{SenderRun, AllSendNext};
ghost use Rattle.rw_restarts.specs.Receivers.{ReceiverEvent, ReceiverState};
ghost use Rattle.rw_restarts.specs.Receivers.{IsReceiverOf, HasNoGap, HoldsPrefix};
ghost use Rattle.rw_restarts.specs.Receivers.{CanBeTaken, IsRefusedForCause, AreNeverRefused};
ghost use Rattle.rw_restarts.specs.Refusals.{IsAnyReceiver, HoldsAcknowledged};

/// Law: a head that holds of each label set a prefix of a list that rises takes a message that has
/// of each label set a part of this list, if this part begins no later than what is held ends. Each
/// list of the head is then the longer one of two prefixes: what was held, and all up to the end of
/// the part.
pub fn what_comes_next_is_accepted()
    ensures { (limits : LabelLimits) (whole : Labels → List Point) (store : Store)
        (m : WriteRequest) → NextPartIsAccepted limits whole store m }
{}

/// Law: however often a sender and its receiver are started again, the receiver holds of a label
/// set a prefix of the list that the sender sends, and all that was acknowledged in any run
/// (`holds`), if there is no gap: no message with samples of the label set was refused, and what is
/// earlier than the log of a run was acknowledged. Of other label sets nothing is asked.
///
/// Of label sets that are sent with no others, and that the limits take, no message is refused
/// (`refuses_none`).
pub fn many_runs_fill_one_head()
    ensures holds { (limits : LabelLimits) (whole : List Point) (runs : List SenderRun)
        (events : List ReceiverEvent) (states : ℕ → ReceiverState) (l : Labels)
        → Rises IsEarlier whole → AllSendNext l whole runs
        → IsReceiverOf limits runs events states → HasNoGap runs events states l
        → HoldsPrefix whole runs (states (length events)) l }
    ensures refuses_none { (limits : LabelLimits) (whole : Labels → List Point)
        (runs : List SenderRun) (events : List ReceiverEvent) (states : ℕ → ReceiverState)
        (among : Labels → Bool) → ((l : Labels) → among l ≡ true → Rises IsEarlier (whole l))
        → ((l : Labels) → among l ≡ true → AllSendNext l (whole l) runs)
        → IsReceiverOf limits runs events states → CanBeTaken limits runs events states among
        → IsRefusedForCause limits runs events states among
        → AreNeverRefused runs events states among }
{}

/// Law: a head answers so. A message that it answers with 204 it has taken whole, and one that it
/// answers with 400 it cannot take. If it answers anything but 204, it holds what it held.
pub fn a_head_answers_so()
    ensures taken { (h : State) (m : WriteRequest) → (answer_to h (Ok m)).status ≡ 204
        → taken_all h.limits (Ok h.store) m ≡ Ok (answer_to h (Ok m)).head.store }
    ensures refused { (h : State) (m : WriteRequest) → (answer_to h (Ok m)).status ≡ 400
        → (v : Verdict) × (taken_all h.limits (Ok h.store) m ≡ Err v) }
    ensures kept { (h : State) (m : WriteRequest) → (answer_to h (Ok m)).status ≢ 204
        → (answer_to h (Ok m)).head.store ≡ h.store }
{}

/// Law: whatever was refused, whatever the receiver held before, and whatever the runs sent: each
/// list rises, what was acknowledged before is in its place, and each sample that was acknowledged
/// in a run is held.
pub fn acknowledged_samples_stay()
    ensures { (limits : LabelLimits) (runs : List SenderRun) (events : List ReceiverEvent)
        (states : ℕ → ReceiverState) → IsAnyReceiver limits runs events states
        → HoldsAcknowledged runs (states 0) (states (length events)) }
{}

//! Laws of an endpoint, and of a head over a journal, as a receiver that is started again. Each
//! function has an empty body: its contract is the law.

ghost use Rattle.std.specs.Prelude.{◌≢◌, ℕ};
ghost use Rattle.rw_types.specs.Beginnings.{Begins};
ghost use Rattle.rw_types.specs.Labels.{Labels};
ghost use Rattle.rw_write_request.specs.Message.{WriteRequest};
ghost use Rattle.rw_machine.specs.Worlds.{Setup};
ghost use Rattle.rw_machine.specs.declared.event.How.{How};
ghost use Rattle.rw_worker.specs.Transcript.{Exchange};
ghost use Rattle.rw_restarts.specs.Arrivals.{Receives};
ghost use Rattle.rw_restarts.specs.Runs.{SentMessage};
ghost use Rattle.rw_restarts.specs.Workers.{IsExchangeOfMessage};
ghost use Rattle.rw_retry.specs.Judgements.{judgement_of};
ghost use Rattle.rw_head.specs.Head.{State};
ghost use Rattle.rw_head.specs.Store.{Store, list_of};
ghost use Rattle.rw_kept_log.specs.Journal.{Segments};
ghost use Rattle.rw_kept_head.specs.Kept.{SaysWhat, LiesBetween};
ghost use Rattle.rw_restarts.specs.Receivers.{AnswersAs, IsRestarted, state_of};
ghost use Rattle.rw_restarts.specs.KeptReceivers.{IsAdmission, acknowledged_after};

/// Law: a head over a journal answers as these laws ask of a receiver (`answers`). If it is opened
/// again from what a crash left of its log while it was about to hold a store, it has all that was
/// acknowledged, and at most what it was about to hold (`opened`).
pub fn a_kept_head_is_such_a_receiver()
    ensures answers { (old : State) (m : WriteRequest) (status : ℕ) (new : State)
        (acknowledged : Store) → IsAdmission old m status new
        → AnswersAs old.limits m (judgement_of status) (state_of old.store acknowledged)
        (state_of new.store (acknowledged_after (judgement_of status) acknowledged new.store)) }
    ensures opened { (old most again acknowledged : Store) (left : Segments)
        → ((l : Labels) → Begins (list_of acknowledged l) (list_of old l))
        → LiesBetween old most left → SaysWhat left again
        → IsRestarted (state_of old acknowledged) most (state_of again acknowledged) }
{}

/// Law: what came over the wire is an answer to a message, as these laws ask of a receiver. The
/// receiver read the bytes that the exchange carries, and answered them as its endpoint answers the
/// batch in them, or turned them away without a look at them (`Receives`). It did not find the body
/// too long.
pub fn an_endpoint_is_such_a_receiver()
    ensures { (c : Setup) (how : How) (e : Exchange) (x : SentMessage) (old : State) (status : ℕ)
        (new : State) (acknowledged : Store) → IsExchangeOfMessage c.target e x
        → Receives c how e.request old status new → status ≢ 413
        → AnswersAs old.limits x.message (judgement_of status) (state_of old.store acknowledged)
        (state_of new.store (acknowledged_after (judgement_of status) acknowledged new.store)) }
{}

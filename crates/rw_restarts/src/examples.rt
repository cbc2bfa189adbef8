//! Worked rows of the definitions. Each function has no body but the law that it rests on: its
//! contract is the rows.

ghost use Rattle.std.specs.Prelude.{◌≡◌, true, pos, [], ◌∷◌, map, Some};
ghost use Rattle.std.specs.declared.alloc.Global.{Global};
ghost use Rattle.std.specs.declared.sync.Arc.{Arc};
ghost use Rattle.rw_types.specs.Labels.{Labels};
ghost use Rattle.rw_worker.specs.Setups.{WorkerSetup, start_of};
ghost use Rattle.rw_worker.specs.Steps.{AreSteps};
ghost use Rattle.rw_fleet.specs.ShardHistories.{ShardHistory};
ghost use Rattle.rw_retry.specs.declared.judgement.Judgement.TheVariants.{Done, Again};
ghost use Rattle.rw_head.specs.Store.{list_of};
ghost use Rattle.rw_restarts.specs.Owed.{rising, owed_of};
ghost use Rattle.rw_restarts.specs.Parts.{points_in};
ghost use Rattle.rw_restarts.specs.Runs.{AllSendNext, AreRunsOver, acknowledged_in};
ghost use Rattle.rw_restarts.specs.Receivers.{IsReceiverOf, HasNoGap, CanBeTaken};
ghost use Rattle.rw_restarts.specs.Stopped.{first_of_epoch, IsOpenReceiver};
ghost use Rattle.rw_restarts.specs.WireReceivers.{run_of, receiver_events, receiver_state};
ghost use Rattle.rw_restarts.specs.WireReceivers.{IsWireReceiver, AreShort};
ghost use Rattle.rw_restarts.specs.KeptWireReceivers.{wire_state, IsKeptReceiver};
ghost use Rattle.rw_restarts.specs.Lives.{IsHistoryOf};
ghost use Rattle.rw_restarts.specs.RunLives.{life_of, holding_of};
ghost use Rattle.rw_restarts.specs.Examples as examples;
ghost use Rattle.rw_restarts.specs.LifeExamples as lives;
ghost use Rattle.rw_restarts.specs.RefusedExamples as refused;
ghost use Rattle.rw_restarts.specs.WireExamples as wire;
ghost use Rattle.rw_restarts.specs.KeptExamples as kept;
ghost use Rattle.rw_restarts.specs.OpenExamples as sent;

use rw_roundtrip::requests_are_read;
use rw_write_request::canonical_is_read;

/// Law: of samples at the times 10, 5 and 20 the first and the last rise. A message that is
/// answered with 429 and then with 204 is acknowledged once. A small history, of two runs and a
/// receiver that is started again, is one of those that the laws speak of (`runs`, `receiver`), and
/// no label set has a gap (`no_gap`, `can_be_taken`). After an epoch of two shards the next one
/// begins at place 2 among all shards.
pub fn a_small_history_is_allowed()
    ensures rising { rising ((pos 10, 1) ∷ (pos 5, 2) ∷ (pos 20, 3) ∷ [])
        ≡ (pos 10, 1) ∷ (pos 20, 3) ∷ [] }
    ensures points { points_in examples.example_series (examples.message_of examples.first)
        ≡ examples.first ∷ [] }
    ensures acknowledged { acknowledged_in examples.example_series
        (examples.sent_with examples.first (Some Again)
        ∷ examples.sent_with examples.first (Some Done) ∷ []) ≡ examples.first ∷ [] }
    ensures runs { AreRunsOver examples.whole examples.runs }
    ensures receiver { IsReceiverOf examples.limits examples.runs examples.events examples.states }
    ensures no_gap { (l : Labels) → HasNoGap examples.runs examples.events examples.states l }
    ensures can_be_taken { CanBeTaken examples.limits examples.runs examples.events examples.states
        (λ l. true) }
    ensures places { (a b c : ShardHistory)
        → first_of_epoch ((a ∷ b ∷ []) ∷ (c ∷ []) ∷ []) 1 ≡ 2 }
{}

/// Law: this history is one of those that the law of lives speaks of (`history`). Its log owes two
/// samples (`owed`). The first life of the sender is killed, and the second one reports `complete`.
pub fn a_small_history_of_lives_is_allowed()
    ensures owed { owed_of lives.choice lives.log examples.example_series
        ≡ examples.first ∷ examples.second ∷ [] }
    ensures history { IsHistoryOf lives.choice lives.log examples.example_series
        (life_of examples.example_series lives.killed
        ∷ life_of examples.example_series lives.complete ∷ []) examples.events
        (λ at. holding_of examples.example_series (examples.states at)) }
{}

/// Law: so can they be met if a label set is refused (`receiver`, `sends`). It is above the limits
/// of the receiver, so a message with a sample of it is refused, and there is a gap in it (`gap`).
/// In another one there is none (`no_gap`), and its sample is held (`held`).
pub fn a_small_history_with_a_refusal_is_allowed()
    ensures receiver { IsReceiverOf refused.limits refused.runs refused.events refused.states }
    ensures sends { AllSendNext examples.example_series (examples.first ∷ []) refused.runs }
    ensures gap { HasNoGap refused.runs refused.events refused.states refused.refused_series → ⊥ }
    ensures no_gap { HasNoGap refused.runs refused.events refused.states examples.example_series }
    ensures held { list_of (refused.states 2).store examples.example_series
        ≡ examples.first ∷ [] }
{}

/// Law: so can the premises on what comes over the wire be met. A worker takes one sample, cuts a
/// batch and sends it (`steps`). The request comes to a receiver, which answers 204 and is started
/// again (`receiver`). Its limits take all that is sent (`can_be_taken`, `short`). It then holds
/// the sample (`held`).
pub fn a_small_history_over_the_wire_is_allowed()
    ensures steps { (worker : WorkerSetup) (shared : Arc Labels Global)
        → AreSteps (start_of (wire.setup worker shared)) (wire.steps worker shared) }
    ensures receiver { (worker : WorkerSetup) (shared : Arc Labels Global)
        → IsWireReceiver wire.receiver (wire.run worker shared ∷ []) wire.events wire.states }
    ensures can_be_taken { (worker : WorkerSetup) (shared : Arc Labels Global)
        → CanBeTaken examples.limits (map run_of (wire.run worker shared ∷ []))
        (receiver_events (wire.run worker shared ∷ []) wire.events)
        (λ at. receiver_state (wire.states at)) (λ l. true) }
    ensures short { (worker : WorkerSetup) (shared : Arc Labels Global)
        → AreShort wire.receiver (wire.run worker shared ∷ []) (λ l. true) }
    ensures held { list_of (wire.states 2).head.store examples.example_series
        ≡ examples.first ∷ [] }
{
    canonical_is_read();
}

/// Law: so can the premises on a receiver with a journal be met (`receiver`). It is opened over an
/// empty log. A crash comes before it answers the request of that worker, and leaves a torn part of
/// what it was writing: the definition of the label set, and three bytes of the sample. A second
/// crash comes while it is opened again, after these three bytes were cut off. Then it answers the
/// request with 204, and is started again. Its limits take the label set (`can_be_taken`). It then
/// holds the sample (`held`).
pub fn a_small_history_over_a_folder_is_allowed()
    ensures receiver { (worker : WorkerSetup) (shared : Arc Labels Global)
        → IsKeptReceiver kept.seen kept.may_leave kept.moment kept.left_since kept.tears
        wire.receiver (wire.run worker shared ∷ []) kept.events kept.states }
    ensures can_be_taken { (worker : WorkerSetup) (shared : Arc Labels Global)
        → CanBeTaken examples.limits (map run_of (wire.run worker shared ∷ []))
        (receiver_events (wire.run worker shared ∷ []) kept.events)
        (λ at. receiver_state (wire_state (kept.states at))) (λ l. true) }
    ensures held { list_of (kept.states 3).kept.head.store examples.example_series
        ≡ examples.first ∷ [] }
{
    canonical_is_read();
    requests_are_read();
}

/// Law: so can the premises on a receiver that may be sent anything else in between be met
/// (`receiver`). The request of that worker comes to it once, and is answered 204. It then holds
/// the sample (`held`).
pub fn a_small_open_receiver_is_allowed()
    ensures receiver { (worker : WorkerSetup) (shared : Arc Labels Global)
        → IsOpenReceiver wire.receiver (sent.exchanges worker shared) sent.arrivals sent.heads
        sent.answered }
    ensures held { list_of (sent.heads 1).store examples.example_series ≡ examples.first ∷ [] }
{
    canonical_is_read();
}

//! A law of several senders that share a receiver. It has no body but the law that it rests on.

ghost use Rattle.std.specs.Prelude.{◌≡◌, ◌≢◌, ℕ, List, [], length};
ghost use Rattle.rw_types.specs.Labels.{Labels};
ghost use Rattle.rw_head.specs.Verdicts.{LabelLimits};
ghost use Rattle.rw_restarts.specs.Runs.{SenderRun};
ghost use Rattle.rw_restarts.specs.Receivers.{ReceiverEvent, ReceiverState, IsReceiverOf, HasNoGap};
ghost use Rattle.rw_restarts.specs.Logs.{AreRunsOverLog, HoldsLog};
ghost use Rattle.rw_restarts.specs.SeveralSenders.{LogSender, owed_by};
ghost use Rattle.rw_restarts.specs.SeveralSenders.{AreRunsOfSenders, AreSendersApart, IsOfOneSender};

use crate::logs::many_runs_hold_one_log;

/// Law: several senders, each with rules and a log of its own, may share one receiver. Of a label
/// set of which only one of them owes samples, the runs of all of them are runs over the log of
/// that one (`over`), so each law of one log holds of it: the receiver holds what that sender owes
/// (`holds`), whatever the others send. If no two senders have a label set in common, this is so of
/// each label set of which a sender owes samples (`apart`).
pub fn several_senders_share_a_receiver()
    ensures over { (senders : ℕ → LogSender) (sender_of : ℕ → ℕ) (runs : List SenderRun) (s : ℕ)
        (l : Labels) → AreRunsOfSenders senders sender_of runs l → IsOfOneSender senders s l
        → AreRunsOverLog (senders s).choice (senders s).log runs l }
    ensures holds { (limits : LabelLimits) (senders : ℕ → LogSender) (sender_of : ℕ → ℕ)
        (runs : List SenderRun) (events : List ReceiverEvent) (states : ℕ → ReceiverState) (s : ℕ)
        (l : Labels) → AreRunsOfSenders senders sender_of runs l → IsOfOneSender senders s l
        → IsReceiverOf limits runs events states → HasNoGap runs events states l
        → HoldsLog (senders s).choice (senders s).log runs (states (length events)) l }
    ensures apart { (senders : ℕ → LogSender) (s : ℕ) (l : Labels) → AreSendersApart senders
        → owed_by (senders s) l ≢ [] → IsOfOneSender senders s l }
{
    many_runs_hold_one_log();
}

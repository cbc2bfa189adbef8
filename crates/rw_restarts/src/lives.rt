//! Laws of the lives of a sender and of its receiver. Each function has no body but the laws that
//! it rests on: its contract is the law.

ghost use Rattle.std.specs.Prelude.{◌≡◌, ◌≢◌, ℕ, ℤ, List, [], ◌++◌, length, map, Option, None, Some};
ghost use Rattle.std.specs.Prelude.{slice_get};
ghost use Rattle.rw_types.specs.Beginnings.{Begins};
ghost use Rattle.rw_types.specs.Labels.{Labels};
ghost use Rattle.rw_types.specs.Rising.{Rises};
ghost use Rattle.rw_types.specs.declared.entry.Entry.{Entry};
ghost use Rattle.rw_relabel.specs.declared.choice.Choice.{Choice};
ghost use Rattle.rw_shard_core.specs.declared.outcome.Outcome.{Outcome};
ghost use Rattle.rw_shard_core.specs.declared.outcome.Outcome.TheVariants.{Complete};
ghost use Rattle.rw_worker.specs.Steps.{Step};
ghost use Rattle.rw_fleet.specs.ShardHistories.{ShardHistory};
ghost use Rattle.rw_head.specs.Lists.{IsEarlier};
ghost use Rattle.rw_head.specs.Verdicts.{LabelLimits};
ghost use Rattle.rw_machine.specs.Worlds.{Setup};
ghost use Rattle.rw_restarts.specs.Checkpoints.{IsCheckpointFor, IsInTime};
ghost use Rattle.rw_restarts.specs.Owed.{owed_of};
ghost use Rattle.rw_restarts.specs.Receivers.{ReceiverEvent, ReceiverState, IsReceiverOf};
ghost use Rattle.rw_restarts.specs.Runs.{SentMessage};
ghost use Rattle.rw_restarts.specs.Lives.{SenderLife, Holding, IsHistoryOf};
ghost use Rattle.rw_restarts.specs.Logs.{IsRunFromCheckpoint};
ghost use Rattle.rw_restarts.specs.RunLives.{ReportedRun, reported, reported_from_start};
ghost use Rattle.rw_restarts.specs.RunLives.{sender_run, IsReportedOver, AreLivesOf};
ghost use Rattle.rw_restarts.specs.Shards.{IsRunOfEpochs};
ghost use Rattle.rw_restarts.specs.WireReceivers.{RunOfWorkers, run_of, WireEvent};
ghost use Rattle.rw_restarts.specs.WireReceivers.{receiver_events, receiver_state};
ghost use Rattle.rw_restarts.specs.KeptWireReceivers.{KeptState, wire_state, IsKeptReceiver};

use crate::checkpoints::what_is_owed_rises;
use crate::wire::{
    a_kept_receiver_is_such_a_receiver, what_comes_over_the_wire_is_such_a_receiver,
};
use rw_kept_log::Journal;

/// Law: what a receiver holds of a label set after any lives of its sender and of its own, each of
/// which ended in order or was killed. It is a prefix of what the log owes (`in_order`), which
/// rises (`rises`), so nothing is held twice or out of order. Once a life of the sender has
/// reported `complete`, the receiver holds all that is owed of what this life was fed
/// (`complete`), after what is earlier than that.
pub fn what_is_held_after_all_lives()
    ensures in_order { (choice : Choice) (log : List Entry) (l : Labels) (lives : List SenderLife)
        (events : List ReceiverEvent) (states : ℕ → Holding)
        → IsHistoryOf choice log l lives events states
        → Begins (states (length events)).held (owed_of choice log l) }
    ensures rises { (choice : Choice) (log : List Entry) (l : Labels)
        → Rises IsEarlier (owed_of choice log l) }
    ensures complete { (choice : Choice) (log : List Entry) (l : Labels) (lives : List SenderLife)
        (events : List ReceiverEvent) (states : ℕ → Holding) (i end : ℕ) (life : SenderLife)
        → IsHistoryOf choice log l lives events states → slice_get lives i ≡ Some life
        → life.outcome ≡ Some (Complete end) → owed_of choice life.fed l ≢ []
        → Begins (life.earlier ++ owed_of choice life.fed l) (states (length events)).held }
{
    what_is_owed_rises();
}

/// Law: runs of a sender, and a receiver of their messages, are such a history of each label set
/// that has no gap, if each run is over the log, and what it reports is true.
pub fn runs_are_such_lives()
    ensures { (limits : LabelLimits) (choice : Choice) (log : List Entry) (l : Labels)
        (runs : List ReportedRun) (events : List ReceiverEvent) (states : ℕ → ReceiverState)
        → IsReceiverOf limits (map sender_run runs) events states
        → AreLivesOf choice log l runs events states }
{}

/// Law: the steps of a sender's workers up to a kill are such a run (`killed`). So is what was sent
/// of a log from a checkpoint on, over the whole log (`checkpoint`), of each label set of which the
/// checkpoint has what it should.
pub fn a_killed_sender_has_such_a_life()
    ensures killed { (choice : Choice) (fed log : List Entry) (epochs : List (List ShardHistory))
        (steps : ℕ → ℕ → List Step) (l : Labels) (run : IsRunOfEpochs choice fed epochs steps)
        → Begins fed log → IsReportedOver choice log l (reported_from_start run.sent fed None) }
    ensures checkpoint { (choice : Choice) (full cp later more : List Entry)
        (sent : List SentMessage) (outcome : Option Outcome) (floor : ℤ) (l : Labels)
        (run : IsRunFromCheckpoint choice full cp later more sent)
        → IsReportedOver choice (cp ++ later) l (reported_from_start sent (cp ++ later) outcome)
        → IsCheckpointFor floor l full cp later → IsInTime floor l full later
        → IsReportedOver choice ((full ++ later) ++ more) l
        (reported run.earlier sent (cp ++ later) outcome) }
{
    what_is_owed_rises();
}

/// Law: a receiver whose head is kept in a journal has such lives, from its first start to its last
/// one. What a crash leaves of the log on its disk, what checks that log, and how requests are
/// written and read, are all in `a_kept_receiver_is_such_a_receiver`, on which this rests.
pub fn a_kept_receiver_has_such_lives<J: Journal>()
    ensures { (c : Setup) (workers : List RunOfWorkers) (happened : List WireEvent)
        (states : ℕ → KeptState J) (choice : Choice) (log : List Entry) (l : Labels)
        (runs : List ReportedRun) → IsKeptReceiver J.seen J.may_leave J.moment J.left_since J.tears
        c workers happened states → map sender_run runs ≡ map run_of workers
        → AreLivesOf choice log l runs (receiver_events workers happened)
        (λ (at : ℕ). receiver_state (wire_state (states at))) }
{
    a_kept_receiver_is_such_a_receiver::<J>();
    what_comes_over_the_wire_is_such_a_receiver();
    runs_are_such_lives();
}

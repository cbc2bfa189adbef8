//! Laws of runs of a sender over one log. Each function has no body but the laws that it rests on:
//! its contract is the law.

ghost use Rattle.std.specs.Prelude.{◌≡◌, ◌≢◌, ℕ, Bool, true, List, [], ◌++◌, length, Some, slice_get};
ghost use Rattle.rw_types.specs.Beginnings.{Begins};
ghost use Rattle.rw_types.specs.Labels.{Labels};
ghost use Rattle.rw_types.specs.Rising.{Rises};
ghost use Rattle.rw_types.specs.declared.entry.Entry.{Entry};
ghost use Rattle.rw_relabel.specs.declared.choice.Choice.{Choice};
ghost use Rattle.rw_head.specs.Lists.{IsEarlier};
ghost use Rattle.rw_head.specs.Store.{list_of};
ghost use Rattle.rw_head.specs.Verdicts.{LabelLimits};
ghost use Rattle.rw_restarts.specs.Owed.{owed_of};
ghost use Rattle.rw_restarts.specs.Runs.{SenderRun, SentMessage, IsRunOver, acknowledged_in};
ghost use Rattle.rw_restarts.specs.Stopped.{run_from_start};
ghost use Rattle.rw_restarts.specs.Receivers.{ReceiverEvent, ReceiverState, IsReceiverOf};
ghost use Rattle.rw_restarts.specs.Receivers.{HasNoGap, CanBeTaken};
ghost use Rattle.rw_restarts.specs.Receivers.{IsRefusedForCause, AreNeverRefused};
ghost use Rattle.rw_restarts.specs.Logs.{IsRunOverPart, IsRunFromCheckpoint, AreRunsOverLog, HoldsLog};

use crate::checkpoints::{a_checkpoint_keeps_the_series, what_is_owed_rises};

/// Law: a run that sends what a part of the log owes is a run over what the whole log owes.
pub fn a_run_over_a_part_is_a_run_over_the_log()
    ensures { (choice : Choice) (log : List Entry) (run : SenderRun)
        → IsRunOverPart choice log run → IsRunOver (owed_of choice log) run }
{}

/// Law: a run that was fed a log from a checkpoint on, and what it sent is what this owes, is a run
/// over the whole log, of each label set of which the checkpoint keeps what it should. The samples
/// that are earlier than the log that it was fed are those that come in what the whole log owes
/// before what this log owes. The premises on the checkpoint are those of
/// `a_checkpoint_keeps_the_series`.
pub fn a_run_from_a_checkpoint_is_a_run_over_the_log()
    ensures { (choice : Choice) (full cp later more : List Entry) (sent : List SentMessage)
        → IsRunOverPart choice (cp ++ later) (run_from_start sent)
        → IsRunFromCheckpoint choice full cp later more sent }
{
    a_checkpoint_keeps_the_series();
    what_is_owed_rises();
}

/// Law: what a receiver holds of one label set, whatever becomes of all others, and however often
/// both ends are started again. It is a prefix of what the log owes (`in_order`), which rises, so
/// nothing is held twice or out of order. And once all that a run was fed was acknowledged, as a
/// complete report says, it has all of that, after what is earlier than the log of this run
/// (`complete`).
pub fn what_is_held_of_a_label_set()
    ensures in_order { (limits : LabelLimits) (choice : Choice) (log : List Entry)
        (runs : List SenderRun) (events : List ReceiverEvent) (states : ℕ → ReceiverState)
        (l : Labels) → AreRunsOverLog choice log runs l → IsReceiverOf limits runs events states
        → HasNoGap runs events states l
        → Begins (list_of (states (length events)).store l) (owed_of choice log l) }
    ensures rises { (choice : Choice) (log : List Entry) (l : Labels)
        → Rises IsEarlier (owed_of choice log l) }
    ensures complete { (limits : LabelLimits) (choice : Choice) (log : List Entry)
        (runs : List SenderRun) (events : List ReceiverEvent) (states : ℕ → ReceiverState)
        (l : Labels) (i : ℕ) (run : SenderRun) (fed : List Entry)
        → AreRunsOverLog choice log runs l → IsReceiverOf limits runs events states
        → HasNoGap runs events states l → slice_get runs i ≡ Some run
        → acknowledged_in l run.sent ≡ owed_of choice fed l → owed_of choice fed l ≢ []
        → Begins (run.earlier l ++ owed_of choice fed l)
        (list_of (states (length events)).store l) }
{
    many_runs_hold_one_log();
    what_is_owed_rises();
}

/// Law: however often the sender of a log and its receiver are started again, the receiver holds of
/// a label set a prefix of the samples that the log owes, which rise. If all that the first entries
/// owe was acknowledged in a run from the first segment on, the receiver holds all of it (`holds`).
/// All that is asked is asked of this label set: no message with samples of it was refused, and
/// what is earlier than the log of a run was acknowledged.
///
/// Of label sets that are sent with no others, and that the limits take, no message is refused
/// (`refuses_none`). If these are all label sets, the receiver refuses nothing.
pub fn many_runs_hold_one_log()
    ensures holds { (limits : LabelLimits) (choice : Choice) (log : List Entry)
        (runs : List SenderRun) (events : List ReceiverEvent) (states : ℕ → ReceiverState)
        (l : Labels) → AreRunsOverLog choice log runs l → IsReceiverOf limits runs events states
        → HasNoGap runs events states l → HoldsLog choice log runs (states (length events)) l }
    ensures refuses_none { (limits : LabelLimits) (choice : Choice) (log : List Entry)
        (runs : List SenderRun) (events : List ReceiverEvent) (states : ℕ → ReceiverState)
        (among : Labels → Bool)
        → ((l : Labels) → among l ≡ true → AreRunsOverLog choice log runs l)
        → IsReceiverOf limits runs events states → CanBeTaken limits runs events states among
        → IsRefusedForCause limits runs events states among
        → AreNeverRefused runs events states among }
{
    what_is_owed_rises();
}

//! Laws of a sender that goes on at a position of its log. Each function has no body but the laws
//! that it rests on: its contract is the law.

ghost use Rattle.std.specs.Prelude.{◌≡◌, ℤ, List, ◌++◌};
ghost use Rattle.rw_types.specs.Labels.{Labels};
ghost use Rattle.rw_types.specs.declared.entry.Entry.{Entry};
ghost use Rattle.rw_relabel.specs.declared.choice.Choice.{Choice};
ghost use Rattle.rw_kept_log.specs.Checkpoints.{definitions_of, SaySame};
ghost use Rattle.rw_restarts.specs.Checkpoints.{IsCheckpointFor};
ghost use Rattle.rw_restarts.specs.Logs.{IsRunFromCheckpoint, IsRunOverPart};
ghost use Rattle.rw_restarts.specs.Resumed.{AreBefore};
ghost use Rattle.rw_restarts.specs.Runs.{SentMessage};
ghost use Rattle.rw_restarts.specs.Stopped.{run_from_start};

use crate::logs::a_run_from_a_checkpoint_is_a_run_over_the_log;

/// Law: the definitions before a position are a checkpoint of what is before it: they say of each
/// reference what the log says there (`labels`), and have of a label set its samples from a time
/// on, of which there are none, if all of them are earlier than that time (`checkpoint`).
pub fn definitions_are_a_checkpoint()
    ensures labels { (before later : List Entry)
        → SaySame before (definitions_of before) later }
    ensures checkpoint { (floor : ℤ) (before later : List Entry) (l : Labels)
        → AreBefore floor l before
        → IsCheckpointFor floor l before (definitions_of before) later }
{}

/// Law: a run that was given the definitions before a position and what comes after it is a run
/// over the whole log. What it owes of a label set comes, in what the whole log owes, after what is
/// owed before the position, if no sample after the position is earlier than a time before which
/// all samples before the position are.
pub fn a_resumed_run_is_a_run_over_the_log()
    ensures { (choice : Choice) (before later more : List Entry) (sent : List SentMessage)
        → IsRunOverPart choice (definitions_of before ++ later) (run_from_start sent)
        → IsRunFromCheckpoint choice before (definitions_of before) later more sent }
{
    a_run_from_a_checkpoint_is_a_run_over_the_log();
}

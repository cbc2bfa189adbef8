//! Laws of what `run_send` and `run_follow` ship. Each function has no body but the laws that it
//! rests on: its contract is the law.

ghost use Rattle.std.specs.Prelude.{ℕ, Bool, List, Option, Result};
ghost use Rattle.rw_follow.specs.declared.signal.StopRequest.{StopRequest};
ghost use Rattle.rw_shard_core.specs.declared.config.ConfigFields.{ConfigFields};
ghost use Rattle.rw_sender.specs.declared.report.Report.{Report};
ghost use Rattle.rw_send.specs.Logs.{readers, seen_of};
ghost use Rattle.rw_send.specs.declared.follow_fault.FollowFault.{FollowFault};
ghost use Rattle.rw_sent_held.specs.Held.{SentIsHeld};
ghost use Rattle.rw_sent_held.specs.Lives.{SentHasLife};
ghost use Rattle.rw_sent_held.specs.Restarts.{SentAdds, SentIsRun};

use rw_follow::Segments;
use rw_restarts::{
    a_killed_sender_has_such_a_life, a_run_from_a_checkpoint_is_a_run_over_the_log,
    a_run_over_a_part_is_a_run_over_the_log, a_stopped_shipper_adds_its_samples,
    a_stopped_shipper_is_such_a_sender, many_runs_hold_one_log,
};
use rw_simulation::one_receiver_holds_the_samples;
use rw_worker::Transport;

/// Law: what the contracts of `run_send` (`sent`) and `run_follow` (`followed`) say of a run with
/// these settings is enough to say what one receiver holds of the log. Of each label set that the
/// rules keep it holds a prefix of the samples that were fed, in log order, each once, less exactly
/// those that the report lists as dropped; of other label sets none. If no work was abandoned, it
/// holds all samples that were placed, less those listed. If the outcome is complete, these are the
/// samples of all that was fed. The premises on the network and the receiver are those of
/// `one_receiver_holds_the_samples`.
pub fn one_receiver_holds_what_was_sent<T: Transport, S: Segments>()
    ensures sent { (c : ConfigFields) (limit : Option ℕ) (lefts now : List (Option (List ℕ)))
        (sures : List Bool) (quiet : Bool) (said : StopRequest) (r : Report T)
        (answer : Result (Unit {0}) FollowFault) → SentIsHeld T.tells T.seen T.is_for c limit
        (readers lefts now sures) quiet said r answer }
    ensures followed { (c : ConfigFields) (limit : Option ℕ) (start : S.Start) (before after : S)
        (quiet : Bool) (said : StopRequest) (r : Report T)
        (answer : Result (Unit {0}) FollowFault) → SentIsHeld T.tells T.seen T.is_for c limit
        (seen_of (S.gave after start) (S.had_all after start) (S.lacks after)
        (S.may_fail before)) quiet said r answer }
{
    one_receiver_holds_the_samples::<T>();
}

/// Law: what a run of the command sent, by the contract of `run_send` (`sent`) or of `run_follow`
/// (`followed`), is one run of a sender over each log that begins with what was fed, as the laws of
/// `rw_restarts` ask. So it may be one of many runs into one receiver (`many_runs_hold_one_log`).
/// If the outcome is complete, all that what was fed owes of a label set was acknowledged, if no
/// message was refused of it; and a receiver of these many runs, which refused none of it, holds
/// it. There is no premise on how the run ended.
pub fn a_send_is_such_a_sender<T: Transport, S: Segments>()
    ensures sent { (c : ConfigFields) (limit : Option ℕ) (lefts now : List (Option (List ℕ)))
        (sures : List Bool) (quiet : Bool) (said : StopRequest) (r : Report T)
        (answer : Result (Unit {0}) FollowFault) → SentIsRun T.tells T.seen T.is_for c limit
        (readers lefts now sures) quiet said r answer }
    ensures followed { (c : ConfigFields) (limit : Option ℕ) (start : S.Start) (before after : S)
        (quiet : Bool) (said : StopRequest) (r : Report T)
        (answer : Result (Unit {0}) FollowFault) → SentIsRun T.tells T.seen T.is_for c limit
        (seen_of (S.gave after start) (S.had_all after start) (S.lacks after)
        (S.may_fail before)) quiet said r answer }
{
    a_stopped_shipper_is_such_a_sender::<T>();
    many_runs_hold_one_log();
}

/// Law: a run of the command with a report, by the contract of `run_send` (`sent`) or of
/// `run_follow` (`followed`), is one life of a sender over each log that begins with what was fed,
/// or of which a checkpoint and what comes later was fed. Its outcome is the one that is reported,
/// and if this is `complete`, all that is owed of what was fed was acknowledged. So it may be one
/// of the lives of `what_is_held_after_all_lives` (`runs_are_such_lives`).
pub fn a_send_has_such_a_life<T: Transport, S: Segments>()
    ensures sent { (c : ConfigFields) (limit : Option ℕ) (lefts now : List (Option (List ℕ)))
        (sures : List Bool) (quiet : Bool) (said : StopRequest) (r : Report T)
        (answer : Result (Unit {0}) FollowFault) → SentHasLife T.tells T.seen T.is_for c limit
        (readers lefts now sures) quiet said r answer }
    ensures followed { (c : ConfigFields) (limit : Option ℕ) (start : S.Start) (before after : S)
        (quiet : Bool) (said : StopRequest) (r : Report T)
        (answer : Result (Unit {0}) FollowFault) → SentHasLife T.tells T.seen T.is_for c limit
        (seen_of (S.gave after start) (S.had_all after start) (S.lacks after)
        (S.may_fail before)) quiet said r answer }
{
    a_send_is_such_a_sender::<T, S>();
    a_run_over_a_part_is_a_run_over_the_log();
    a_run_from_a_checkpoint_is_a_run_over_the_log();
    a_killed_sender_has_such_a_life();
}

/// Law: a run of the command adds to any receiver what it was fed. Whatever the receiver held and
/// refuses, it then holds each sample of a kept label set that the report says was placed and lists
/// neither as left nor as dropped. What it held before is in its place, and each list rises, so
/// that nothing is held twice. The premises on the network and the receiver are those of
/// `a_stopped_shipper_adds_its_samples`.
pub fn a_send_adds_its_samples<T: Transport, S: Segments>()
    ensures sent { (c : ConfigFields) (limit : Option ℕ) (lefts now : List (Option (List ℕ)))
        (sures : List Bool) (quiet : Bool) (said : StopRequest) (r : Report T)
        (answer : Result (Unit {0}) FollowFault) → SentAdds T.tells T.seen T.is_for c limit
        (readers lefts now sures) quiet said r answer }
    ensures followed { (c : ConfigFields) (limit : Option ℕ) (start : S.Start) (before after : S)
        (quiet : Bool) (said : StopRequest) (r : Report T)
        (answer : Result (Unit {0}) FollowFault) → SentAdds T.tells T.seen T.is_for c limit
        (seen_of (S.gave after start) (S.had_all after start) (S.lacks after)
        (S.may_fail before)) quiet said r answer }
{
    a_stopped_shipper_adds_its_samples::<T>();
}

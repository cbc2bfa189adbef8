//! Laws of a receiver to which the log of another receiver is sent. Each function has no body but
//! the laws that it rests on: its contract is the law.

ghost use Rattle.std.specs.Prelude.{◌≡◌, true, ℕ, List, length, map};
ghost use Rattle.std.specs.Ordering.{nat_cmp};
ghost use Rattle.std.specs.FinMap.{FinMap};
ghost use Rattle.rw_types.specs.Beginnings.{Begins};
ghost use Rattle.rw_types.specs.Labels.{Labels};
ghost use Rattle.rw_types.specs.declared.entry.Entry.{Entry};
ghost use Rattle.rw_wal_format.specs.Pieces.{page_size};
ghost use Rattle.rw_relabel.specs.declared.choice.Choice.{Choice};
ghost use Rattle.rw_series_cache.specs.Points.{is_kept, kept_points};
ghost use Rattle.rw_ledger.specs.declared.ledger.Reason.{Reason};
ghost use Rattle.rw_kept_log.specs.Journal.{Segments};
ghost use Rattle.rw_kept_log.specs.Logs.{entries_of};
ghost use Rattle.rw_kept_log.specs.Additions.{samples_of_labels};
ghost use Rattle.rw_head.specs.Growth.{EachRises};
ghost use Rattle.rw_head.specs.Store.{Store, list_of};
ghost use Rattle.rw_head.specs.Verdicts.{LabelLimits};
ghost use Rattle.rw_machine.specs.Promises.{owed, pair_of};
ghost use Rattle.rw_kept_head.specs.Kept.{SaysWhat, LiesBetween};
ghost use Rattle.rw_restarts.specs.Runs.{SenderRun};
ghost use Rattle.rw_restarts.specs.Receivers.{ReceiverEvent, ReceiverState};
ghost use Rattle.rw_restarts.specs.Receivers.{IsReceiverOf, HasNoGap};
ghost use Rattle.rw_restarts.specs.Relay.{ReadsSegments, AllReadSegments};
ghost use Rattle.rw_restarts.specs.Relay.{IsRelayed, IsRelayedLess};

use crate::checkpoints::what_is_owed_rises;
use crate::logs::many_runs_hold_one_log;

/// Law: a first receiver keeps what it holds in a log, which a sender sends to a second one.
/// However often all three are started again, the second receiver holds of a label set a prefix of
/// what the first one holds, and nothing if the sender's rules drop it. Else it holds all that the
/// first one holds, once all samples of its log were acknowledged in one run of the sender. What is
/// asked of the label set is that no message with samples of it was refused (`HasNoGap`).
pub fn a_relay_holds_what_the_first_receiver_holds()
    ensures { (limits : LabelLimits) (choice : Choice) (first : Store) (segments : Segments)
        (runs : List SenderRun) (events : List ReceiverEvent) (states : ℕ → ReceiverState)
        (l : Labels) → EachRises first → SaysWhat segments first
        → AllReadSegments choice segments runs → IsReceiverOf limits runs events states
        → HasNoGap runs events states l
        → IsRelayed choice segments runs first (states (length events)).store l }
{
    what_is_owed_rises();
    many_runs_hold_one_log();
}

/// Law: what a run read of the first receiver's log is a part of it also after this receiver took
/// more samples (`grown`), and after a crash (`crash`).
pub fn what_was_read_stays_in_the_log()
    ensures grown { (choice : Choice) (old new : Store) (segments later : Segments)
        (run : SenderRun) → SaysWhat segments old → SaysWhat later new
        → ((l : Labels) → Begins (list_of old l) (list_of new l))
        → ReadsSegments choice segments run → ReadsSegments choice later run }
    ensures crash { (choice : Choice) (old new : Store) (segments left : Segments)
        (run : SenderRun) → SaysWhat segments old → LiesBetween old new left
        → ReadsSegments choice segments run → ReadsSegments choice left run }
{}

/// Law: of one run into a second receiver that began empty, the report says what this receiver
/// lacks. The last premise is what `HoldsAllOf` of `rw_sent_held` says of a run that ended
/// complete. Of each label set that the rules keep, the second receiver then holds the samples that
/// the run read of what the first one holds, less those that the report names.
pub fn a_report_names_what_a_relay_lacks()
    ensures { (choice : Choice) (names : FinMap nat_cmp Reason) (read : List Entry)
        (first second : Store) (segments : Segments) (l : Labels) → SaysWhat segments first
        → Begins (samples_of_labels read l) (samples_of_labels (entries_of page_size segments) l)
        → is_kept choice l ≡ true
        → list_of second l ≡ map pair_of (owed names (kept_points choice read l))
        → IsRelayedLess names read first second l }
{}

//! Laws of what a sender puts of a log. Each function has no body but the laws that it rests on:
//! its contract is the law.

ghost use Rattle.std.specs.Prelude.{◌≡◌, ℕ, List};
ghost use Rattle.rw_types.specs.Labels.{Labels};
ghost use Rattle.rw_types.specs.declared.entry.Entry.{Entry};
ghost use Rattle.rw_relabel.specs.declared.choice.Choice.{Choice};
ghost use Rattle.rw_worker.specs.Steps.{Step};
ghost use Rattle.rw_fleet.specs.ShardHistories.{ShardHistory};
ghost use Rattle.rw_restarts.specs.Owed.{owed_of};
ghost use Rattle.rw_sender.specs.Logs.{sent};
ghost use Rattle.rw_sender.specs.Placement.{Places};
ghost use Rattle.rw_restarts.specs.Senders.{samples_sent};
ghost use Rattle.rw_restarts.specs.Shards.{HaveRun, IsRunOfEpochs};

use crate::checkpoints::what_is_owed_rises;
use crate::workers::a_worker_sends_its_samples;

/// Law: of each label set the samples that a sender puts into the queues of its shards are those
/// that the log owes, in order.
pub fn what_is_put_is_what_is_owed()
    ensures { (choice : Choice) (log : List Entry) (l : Labels)
        → samples_sent l (sent choice log) ≡ owed_of choice log l }
{
    what_is_owed_rises();
}

/// Law: a sender sends what its log owes. The workers of all epochs took the samples that their
/// shards were put, or the first of them, and may have been ended at any point, except that an
/// epoch begins only once the workers of the one before it are done: they have taken all that they
/// were put, and have resolved all of it. If the workers of the last epoch are done too, all that
/// the log owes of a label set of which no message was refused is acknowledged.
pub fn a_sender_is_a_run()
    ensures { (choice : Choice) (log : List Entry) (epochs : List (List ShardHistory))
        (steps : ℕ → ℕ → List Step) → Places 0 epochs (sent choice log) → HaveRun 0 epochs steps
        → IsRunOfEpochs choice log epochs steps }
{
    what_is_put_is_what_is_owed();
    a_worker_sends_its_samples();
}

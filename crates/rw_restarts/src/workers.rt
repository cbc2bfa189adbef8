//! Laws of what a worker sends. Each function has an empty body: its contract is the law.

ghost use Rattle.std.specs.Prelude.{◌≡◌, List, ◌++◌, map};
ghost use Rattle.rw_types.specs.Labels.{Labels};
ghost use Rattle.rw_plain_queue.specs.Items.{Placed};
ghost use Rattle.rw_batch.specs.Grouping.{message};
ghost use Rattle.rw_shard_core.specs.Shard.{labelled};
ghost use Rattle.rw_worker.specs.Setups.{WorkerSetup, start_of};
ghost use Rattle.rw_worker.specs.Steps.{Step, AreSteps};
ghost use Rattle.rw_restarts.specs.Parts.{points_in};
ghost use Rattle.rw_restarts.specs.Runs.{SentMessage};
ghost use Rattle.rw_restarts.specs.Workers.{WorkerSendsInOrder, WorkerSendsSamples};
ghost use Rattle.rw_restarts.specs.Workers.{SendsSamples, samples_in_batch};

/// Law: whatever a worker was answered, and however far it came, each of its requests carries the
/// samples that come next after those of the requests that had a final answer.
pub fn a_worker_sends_in_order()
    ensures { (setup : WorkerSetup) (steps : List Step) → WorkerSendsInOrder setup steps }
{}

/// Law: the message of a batch has of each label set exactly the samples of the batch, in order.
pub fn a_batch_has_its_samples()
    ensures { (batch : List Placed) (l : Labels)
        → points_in l (message (map labelled batch)) ≡ samples_in_batch l batch }
{}

/// Law: whatever a worker was answered, and however far it came, its exchanges are those of
/// messages each of which has of each label set what comes next of the samples that it took after
/// those that were acknowledged, unless a message with this label set was refused. So it is of the
/// samples that its queue was put, of which it took a prefix.
pub fn a_worker_sends_its_samples()
    ensures sends { (setup : WorkerSetup) (steps : List Step) → AreSteps (start_of setup) steps
        → WorkerSendsSamples setup steps }
    ensures more { (taken more : List Placed) (sent : List SentMessage)
        → SendsSamples taken sent → SendsSamples (taken ++ more) sent }
{}

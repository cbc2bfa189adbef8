//! Laws: what the running threads do is a run of the machine of events.

ghost use Rattle.std.specs.Prelude.{ℕ, List};
ghost use Rattle.rw_fleet.specs.declared.joined.StoppedShard.{StoppedShard};
ghost use Rattle.rw_sender.specs.Shipping.{Shipping};
ghost use Rattle.rw_sender.specs.declared.report.Report.{Report};
ghost use Rattle.rw_head.specs.Head.{State};
ghost use Rattle.rw_worker.specs.Transcript.{Exchange};
ghost use Rattle.rw_machine.specs.Worlds.{Setup, World};
ghost use Rattle.rw_simulation.specs.Freely.{Happening};
ghost use Rattle.rw_simulation.specs.FreeLaws.{KeepsLaws};
ghost use Rattle.rw_simulation.specs.WorkerRuns.{IsWorkerRun};
ghost use Rattle.rw_simulation.specs.Tallies.{Earlier, past_by};
ghost use Rattle.rw_simulation.specs.FleetRuns.{IsFleetRun};
ghost use Rattle.rw_simulation.specs.StoppedShards.{StopsAsShard};
ghost use Rattle.rw_simulation.specs.StoppedRuns.{StopsAbandoned, StopsAsRun, StopsInOrder};
ghost use Rattle.rw_simulation.specs.Accounts.{RunAccounts};
ghost use Rattle.rw_simulation.specs.Received.{ReceivesAbandoned, ReceivesInOrder};
ghost use Rattle.rw_head.specs.Store.{Store};
ghost use Rattle.rw_recv_head.specs.Seats.{Seated};
ghost use Rattle.rw_simulation.specs.SharedReceivers.{Coming, SharesAsOne};
ghost use Rattle.rw_simulation.specs.Seatings.{SeatsAsOne};

use rw_worker::Transport;

/// Law: the laws of the sender's part of the machine hold whoever answers its requests, and with
/// whatever status.
pub fn free_runs_keep_the_laws()
    ensures { (c : Setup) (hs : List Happening) → KeepsLaws c hs }
{}

/// Law: the steps of a worker are events of its shard of the machine. The machine's shard comes to
/// the worker's state, with the same bytes sent and the same samples named, and nothing else
/// changes.
pub fn a_worker_is_a_run()
    ensures { (c : Setup) (w : World) (i : ℕ) → IsWorkerRun c w i }
{}

/// Law: what the shards of an epoch were put, and did, is a run of the machine, from their start to
/// the point where each has been put all but its End, whatever the epochs before it have named and
/// sent.
pub fn an_epoch_is_a_run()
    ensures { (c : Setup) (earlier : Earlier) → IsFleetRun c (past_by earlier) }
{}

/// Law: a shard that has stopped is a shard of such an epoch, whether its queue was cut or not.
pub fn a_stopped_shard_is_a_run<T: Transport>()
    ensures { (j : StoppedShard T) → StopsAsShard T.tells T.seen T.is_for j }
{}

/// Law: a shipper that was stopped is a run of the machine that reports the same, names what the
/// parts of its report name together, and sent what its workers exchanged.
///
/// `orderly` is about a shipper that was stopped in order with nothing left. It takes from the
/// shipper's own clauses how its samples were placed and its epochs ended; its premises are that
/// there are 1 to 1000 shards, and that the machine can work. `epochs` is about any epochs over
/// which the samples may have been placed. `abandoned` is about a shipper that left what was not
/// resolved, however it was stopped: the machine is killed, and reports the samples that are left
/// in rising order. Its premise is that the shards of the epochs before had resolved everything.
/// `accounts` is what follows for the report: over all its parts each placed sample is in one
/// class.
pub fn a_stopped_shipper_is_a_run<T: Transport>()
    ensures orderly { (s : Shipping T) (r : Report T) → StopsInOrder T.tells T.seen T.is_for s r }
    ensures epochs { (s : Shipping T) (r : Report T) → StopsAsRun T.tells T.seen T.is_for s r }
    ensures abandoned { (s : Shipping T) (r : Report T)
        → StopsAbandoned T.tells T.seen T.is_for s r }
    ensures accounts { (s : Shipping T) (r : Report T) → RunAccounts T.tells T.seen T.is_for s r }
{}

/// Law: what one receiver holds of the samples of a shipper that was stopped.
///
/// The premises: the requests of its workers come to the receiver in whatever order, each once,
/// often, late or never. No request comes before its exchange began, and a status that a worker
/// read is one that the receiver gave to that exchange. The receiver is one head that began empty,
/// and answers a request as the endpoint answers its batch, whose body reads again.
///
/// Then it holds of each label set that the rules keep a prefix of its samples, in log order, each
/// once, less exactly those that the report names, and of other label sets none. If the shipper
/// left nothing it holds all of them, and otherwise each that the report neither lists as left nor
/// names. `orderly` and `abandoned` have the premises on the shipper that those of
/// `a_stopped_shipper_is_a_run` have.
pub fn one_receiver_holds_the_samples<T: Transport>()
    ensures orderly { (s : Shipping T) (r : Report T)
        → ReceivesInOrder T.tells T.seen T.is_for s r }
    ensures abandoned { (s : Shipping T) (r : Report T)
        → ReceivesAbandoned T.tells T.seen T.is_for s r }
{}

/// Law: a shared head is such a receiver, of a machine whose receiver is not busy by itself.
/// Whatever its seats were asked, in the order in which its lock let them in, they answered as one
/// head does that is asked one request after the other. What a seat was asked is the very body that
/// the request carries, within the limit. What the shared head holds once all seats were returned
/// is what that receiver holds.
pub fn a_shared_head_is_one_receiver()
    ensures { (c : Setup) (exchanges : ℕ → ℕ → List Exchange)
        (opening : State) (comings : List Coming) → SharesAsOne c exchanges opening comings }
{}

/// Law: if each worker of an epoch asks the shared head from its own seat, the head is their one
/// receiver, and the gathered head holds what that receiver holds. There is no premise on a
/// network. Each transport has to record which exchange each question of its seat belongs to
/// (`IsSeatOf`).
pub fn seats_of_one_head_are_one_receiver()
    ensures { (c : Setup) (exchanges : ℕ → ℕ → List Exchange) (opening : State)
        (seats : List Seated) (store : Store) → SeatsAsOne c exchanges opening seats store }
{}

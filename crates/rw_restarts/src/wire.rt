//! Laws of what comes over the wire to a receiver that is started again. Each function has no body
//! but the laws that it rests on: its contract is the law.

ghost use Rattle.std.specs.Prelude.{ℕ, Bool, List};
ghost use Rattle.rw_types.specs.Labels.{Labels};
ghost use Rattle.rw_types.specs.declared.entry.Entry.{Entry};
ghost use Rattle.rw_relabel.specs.declared.choice.Choice.{Choice};
ghost use Rattle.rw_machine.specs.Worlds.{Setup};
ghost use Rattle.rw_sender.specs.Shipping.{Shipping};
ghost use Rattle.rw_sender.specs.declared.report.Report.{Report};
ghost use Rattle.rw_restarts.specs.WireReceivers.{RunOfWorkers, WireEvent, WireState};
ghost use Rattle.rw_restarts.specs.WireReceivers.{IsReceiverByWire, HoldsLogByWire, RefusesNone};
ghost use Rattle.rw_restarts.specs.WireReceivers.{StopsAsWorkers};
ghost use Rattle.rw_head.specs.Store.{Store};
ghost use Rattle.rw_kept_head.specs.Kept.{Kept};
ghost use Rattle.rw_restarts.specs.KeptWireReceivers.{KeptState, IsWireReceiverKept, HoldsLogKept};
ghost use Rattle.rw_restarts.specs.KeptWireReceivers.{RefusesNoneKept};
ghost use Rattle.rw_restarts.specs.ServedReceivers.{ServedRequest, ServesInOrder};

use crate::logs::many_runs_hold_one_log;
use crate::receivers::an_endpoint_is_such_a_receiver;
use rw_kept_head::laws::what_is_left_lies_between;
use rw_kept_log::Journal;
use rw_roundtrip::{requests_are_read, snappy_requests_are_read};
use rw_snappy::laws::limit_only_refuses;
use rw_worker::Transport;

/// Law: a receiver to which the requests of the workers of many runs come over the wire is one of
/// those that the laws of messages speak of (`receiver`). A request comes once, often, late or
/// never, and is answered as the endpoint answers it; in between the receiver is started again any
/// number of times. So it holds what these laws say of a label set and of the log that the runs are
/// over (`holds`), and refuses no label set that they say is not refused, if it takes the bodies in
/// which these label sets come (`refuses_none`).
///
/// Of the network it is asked that it invents no answer, and that nothing comes before its exchange
/// began.
pub fn what_comes_over_the_wire_is_such_a_receiver()
    ensures receiver { (c : Setup) (runs : List RunOfWorkers) (events : List WireEvent)
        (states : ℕ → WireState) → IsReceiverByWire c runs events states }
    ensures holds { (c : Setup) (runs : List RunOfWorkers) (events : List WireEvent)
        (states : ℕ → WireState) (choice : Choice) (log : List Entry) (l : Labels)
        → HoldsLogByWire c runs events states choice log l }
    ensures refuses_none { (c : Setup) (runs : List RunOfWorkers) (events : List WireEvent)
        (states : ℕ → WireState) (choice : Choice) (log : List Entry) (among : Labels → Bool)
        → RefusesNone c runs events states choice log among }
{
    an_endpoint_is_such_a_receiver();
    many_runs_hold_one_log();
}

/// Law: a receiver whose head is kept in a journal is such a receiver (`receiver`), from its first
/// start to its last. It is killed at any moment, and opened again from what the crash left of the
/// log that the head before it wrote. So it holds what the laws say of a label set and of the log
/// that the runs are over (`holds`), and refuses none that they say is not refused
/// (`refuses_none`).
///
/// Of the endpoint it is asked that it asks the head for the body that it reads (`ReadsBody`, by
/// `serve`) in bytes that carry the request: the request itself, or, as `send --snappy` writes it,
/// its body in a Snappy block (`Carries`). By `requests_are_read` and `snappy_requests_are_read`
/// this is the body of the request. Of the head it is
/// asked what `KeptHead::admit` and `KeptHead::open` ensure. Of the disk it is asked that a folder
/// which is opened has what the crash left, and that no checksum in this is right by chance.
pub fn a_kept_receiver_is_such_a_receiver<J: Journal>()
    ensures receiver { (c : Setup) (runs : List RunOfWorkers) (events : List WireEvent)
        (states : ℕ → KeptState J) → IsWireReceiverKept J.seen J.may_leave J.moment J.left_since
        J.tears c runs events states }
    ensures holds { (c : Setup) (runs : List RunOfWorkers) (events : List WireEvent)
        (states : ℕ → KeptState J) (choice : Choice) (log : List Entry) (l : Labels)
        → HoldsLogKept J.seen J.may_leave J.moment J.left_since J.tears c runs events states choice
        log l }
    ensures refuses_none { (c : Setup) (runs : List RunOfWorkers) (events : List WireEvent)
        (states : ℕ → KeptState J) (choice : Choice) (log : List Entry) (among : Labels → Bool)
        → RefusesNoneKept J.seen J.may_leave J.moment J.left_since J.tears c runs events states
        choice log among }
{
    requests_are_read();
    snappy_requests_are_read();
    limit_only_refuses();
    what_is_left_lies_between::<J>();
    what_comes_over_the_wire_is_such_a_receiver();
}

/// Law: what a receiver with a journal was asked between a start and an end that was no crash came
/// to it one request after the other, as the events of such a receiver do. That its head was asked
/// these questions in this order, and nothing else, is what `SharedHead::gather` ensures. That each
/// is the body that the endpoint read in a request (`AreServed`) is a premise: `serve` ensures it
/// of a connection whose bytes are known in advance, and those of a TCP connection are not.
pub fn a_served_receiver_is_asked_in_order<J: Journal>()
    ensures { (c : Setup) (runs : List RunOfWorkers) (requests : List ServedRequest)
        (first last : Kept J) (acknowledged : Store) → ServesInOrder J.seen J.may_leave J.moment
        J.left_since J.tears c runs requests first last acknowledged }
{}

/// Law: a shipper that was stopped is such a run of workers, by the steps that they report.
pub fn a_stopped_shipper_is_a_run_of_workers<T: Transport>()
    ensures { (s : Shipping T) (r : Report T) → StopsAsWorkers T.tells T.seen T.is_for s r }
{}

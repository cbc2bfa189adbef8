//! Laws of a shipper that was stopped, as a run of a sender. Each function has no body but the laws
//! that it rests on: its contract is the law.

ghost use Rattle.rw_sender.specs.Shipping.{Shipping};
ghost use Rattle.rw_sender.specs.declared.report.Report.{Report};
ghost use Rattle.rw_restarts.specs.Stopped.{StopsAsSender, AbandonsAsSender};
ghost use Rattle.rw_restarts.specs.Stopped.{AddsToReceiver, AddsOverWire};

use crate::checkpoints::what_is_owed_rises;
use crate::receivers::an_endpoint_is_such_a_receiver;
use crate::runs::acknowledged_samples_stay;
use crate::senders::a_sender_is_a_run;
use crate::workers::a_worker_sends_its_samples;
use rw_worker::Transport;

/// Law: a shipper that was stopped is a run over the log that it was fed. What it sent is what the
/// steps sent that its workers report. Each sample that it placed and that its report does not list
/// was acknowledged. If no work was abandoned, all its workers are done, so all that the log owes
/// of a label set of which no message was refused was acknowledged.
///
/// `whole` is about a shipper that abandoned nothing, and has no other premise than what
/// `Shipper::stop_orderly` says. `abandoned` is about one that abandoned work, however it was
/// stopped: the shards of the epochs before the last one had resolved all.
pub fn a_stopped_shipper_is_such_a_sender<T: Transport>()
    ensures whole { (s : Shipping T) (r : Report T)
        → StopsAsSender T.tells T.seen T.is_for s r }
    ensures abandoned { (s : Shipping T) (r : Report T)
        → AbandonsAsSender T.tells T.seen T.is_for s r }
{
    a_sender_is_a_run();
    what_is_owed_rises();
}

/// Law: a shipper that was stopped adds its samples to any receiver that answers its messages. The
/// receiver then holds each sample that the shipper placed and that its report does not list. What
/// it held before is in its place, and each list rises, so that nothing is held twice.
///
/// `events` is about a receiver that may be started again meanwhile, and be sent the messages of
/// other runs. Then what it had acknowledged before is in its place. `received` is about what comes
/// over the wire, in whatever order, each once, often, late or never. In between the receiver may
/// be sent anything else, or be started again, if nothing is lost by that. The premises on the
/// network are among those of `one_receiver_holds_the_samples` of `rw_simulation`.
pub fn a_stopped_shipper_adds_its_samples<T: Transport>()
    ensures events { (s : Shipping T) (r : Report T)
        → AddsToReceiver T.tells T.seen T.is_for s r }
    ensures received { (s : Shipping T) (r : Report T)
        → AddsOverWire T.tells T.seen T.is_for s r }
{
    acknowledged_samples_stay();
    a_worker_sends_its_samples();
    an_endpoint_is_such_a_receiver();
}

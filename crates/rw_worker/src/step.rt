//! The steps of a worker.

ghost use Rattle.std.specs.Prelude.{◌≡◌, None, Some, true, false};
ghost use Rattle.rw_shard_core.specs.Shard.{IsCore, can_take, is_empty};
ghost use Rattle.rw_worker.specs.Report.{is_hard, given_back, IsSendingFrom, IsStateFrom, IsProgressFrom, HasStepped, StepsOn};
ghost use Rattle.rw_worker.specs.inner.Report.{IsNotStopped, IsStoppedAt};
ghost use Rattle.rw_worker.specs.declared.state.Progress.TheVariants as progress;

use crate::gone::{Next, take_next};
use crate::report::TakingEnd;
use crate::send::send_once;
use crate::state::{Intake, Progress, Sending, Start};
use crate::stop::{StopFlag, Stopped};
use crate::transport::{Pause, Transport};
use rw_shard_queue::{Drain, Item, Kind, Open};
use std::sync::Wait;

/// Freezes the builder, which is due. If memory runs out, it waits.
fn freeze<T: Transport, P: Pause>(
    _start: &Start<T, P>,
    _intake: &Intake,
    sending: &mut Sending<T>,
    pause: &mut P,
)
    requires state { IsStateFrom T.tells T.seen P.tells P.paused _start.now _intake.now
        sending.old pause.old }
    requires full { can_take sending.old.core ≡ false }
    requires none { is_empty sending.old.core.batch ≡ true }
    ensures state { IsStateFrom T.tells T.seen P.tells P.paused _start.now _intake.now sending.new
        pause.new }
    ensures steps { HasStepped T.tells T.seen P.tells P.paused sending.old sending.new pause.old
        pause.new }
{
    match sending.core.freeze(&mut sending.ledger) {
        Ok(is_cut) => sending.tally.tell_cut(is_cut),
        Err(_) => {
            pause.pause(sending.backoff.least());
        }
    }
}

/// Sends the open batch once. If that does not settle it, or memory runs out, it waits.
fn send<T: Transport, P: Pause>(
    _start: &Start<T, P>,
    _intake: &Intake,
    sending: &mut Sending<T>,
    pause: &mut P,
)
    requires state { IsStateFrom T.tells T.seen P.tells P.paused _start.now _intake.now
        sending.old pause.old }
    requires core { IsCore sending.old.core }
    requires some { is_empty sending.old.core.batch ≡ false }
    ensures state { IsStateFrom T.tells T.seen P.tells P.paused _start.now _intake.now sending.new
        pause.new }
    ensures steps { HasStepped T.tells T.seen P.tells P.paused sending.old sending.new pause.old
        pause.new }
{
    let count = sending.core.pending_places().len() as u64;
    match send_once(
        &mut sending.core,
        &mut sending.ledger,
        &mut sending.transport,
    ) {
        Ok(true) => {
            sending.resolved += count;
            sending.tally.tell(sending.resolved);
            sending.retries = 0;
        }
        Ok(false) => {
            pause.pause(sending.backoff.before(sending.retries));
            sending.retries = sending.retries.saturating_add(1);
        }
        Err(_) => pause.pause(sending.backoff.least()),
    }
}

/// Stops because the stop flag was read as set.
fn give_up<T: Transport, P: Pause>(
    _start: &Start<T, P>,
    intake: Intake,
    _sending: &Sending<T>,
    _pause: &P,
    stopped: Stopped,
) -> Progress
    requires state { IsStateFrom T.tells T.seen P.tells P.paused _start.now
        intake _sending.now _pause.now }
    requires still { stopped.resolved ≡ _sending.now.resolved }
    ensures report { IsProgressFrom T.tells T.seen P.tells P.paused _start.now
        result _sending.now _pause.now }
    ensures still { result ≡ progress.Stops (given_back intake) (Some stopped) None }
{
    Progress::Stops(intake.close(), Some(stopped), None)
}

fn is_hard(kind: Kind) -> bool
    ensures { result ≡ is_hard kind }
{
    matches!(kind, Kind::Hard)
}

/// Takes the next item of the queue.
fn take<T: Transport, P: Pause, R: Wait>(
    rt: &R,
    _start: &Start<T, P>,
    drain: Drain<Open>,
    sending: &mut Sending<T>,
    _pause: &P,
) -> Progress
    requires sending { IsSendingFrom T.tells T.seen P.tells P.paused _start.now drain
        sending.old _pause.now }
    requires can { can_take sending.old.core ≡ true }
    ensures progress { IsProgressFrom T.tells T.seen P.tells P.paused _start.now result
        sending.new _pause.now }
    ensures steps { StepsOn T.tells T.seen P.tells P.paused sending.old result
        sending.new _pause.now _pause.now }
    ensures goes { IsNotStopped result }
{
    match take_next(rt, drain, sending) {
        Next::Item(item, drain) => {
            sending.core.take(item);
            Progress::Goes(Intake::Open(drain))
        }
        Next::End(kind, drain) => {
            if is_hard(kind) {
                return Progress::Stops(TakingEnd::Ended(kind, drain), None, None);
            }
            sending.core.take(Item::End(kind));
            Progress::Goes(Intake::Ended(kind, drain))
        }
        Next::Gone(drain, gone) => Progress::Stops(TakingEnd::Killed(drain), None, Some(gone)),
    }
}

/// Takes the next item if all that was taken is sent or waits for more. After an End everything is
/// resolved.
fn go_on<T: Transport, P: Pause, R: Wait>(
    rt: &R,
    start: &Start<T, P>,
    intake: Intake,
    sending: &mut Sending<T>,
    pause: &P,
    stop: &StopFlag,
) -> Progress
    requires state { IsStateFrom T.tells T.seen P.tells P.paused start.now intake sending.old
        pause.now }
    requires can { can_take sending.old.core ≡ true }
    ensures progress { IsProgressFrom T.tells T.seen P.tells P.paused start.now result sending.new
        pause.now }
    ensures steps { StepsOn T.tells T.seen P.tells P.paused sending.old result sending.new
        pause.now pause.now }
    ensures stopped { IsStoppedAt stop.now intake sending.old result sending.new }
{
    match intake {
        Intake::Ended(kind, drain) => Progress::Stops(TakingEnd::Ended(kind, drain), None, None),
        Intake::Open(drain) => {
            if let Some(stopped) = stop.read(sending) {
                return Progress::Stops(TakingEnd::Killed(drain.kill()), Some(stopped), None);
            }
            take(rt, start, drain, sending, pause)
        }
    }
}

/// Makes one step: the next item is taken, or a builder that is due is frozen, or its batch is
/// sent.
pub(crate) fn step<T: Transport, P: Pause, R: Wait>(
    rt: &R,
    start: &Start<T, P>,
    intake: Intake,
    sending: &mut Sending<T>,
    pause: &mut P,
    stop: &StopFlag,
) -> Progress
    requires { IsStateFrom T.tells T.seen P.tells P.paused start.now intake sending.old pause.old }
    ensures progress { IsProgressFrom T.tells T.seen P.tells P.paused start.now result sending.new
        pause.new }
    ensures steps { StepsOn T.tells T.seen P.tells P.paused sending.old result sending.new
        pause.old pause.new }
    ensures stopped { IsStoppedAt stop.now intake sending.old result sending.new }
{
    if sending.core.can_take() {
        return go_on(rt, start, intake, sending, pause, stop);
    }
    if let Some(stopped) = stop.read(sending) {
        return give_up(start, intake, sending, pause, stopped);
    }
    if sending.core.batch_id().is_some() {
        sending.core.conforms();
        send(start, &intake, sending, pause);
        return Progress::Goes(intake);
    }
    freeze(start, &intake, sending, pause);
    Progress::Goes(intake)
}

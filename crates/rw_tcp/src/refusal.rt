//! A stop for a receiver that refuses whatever it is sent.

ghost use Rattle.std.specs.Prelude.{◌≡◌, true, false};
ghost use Rattle.rw_retry.specs.Judgements.{judgement_of};
ghost use Rattle.rw_tcp.specs.Receptions.{refuses_all};

use http::StatusCode;
use rw_follow::StopSignal;
use rw_retry::{Judgement, judge};
use rw_worker::StopFlag;
use std::alloc::Global;
use std::sync::Arc;
use std::sync::atomic::{AtomicU64, Ordering};

/// What the answers of a receiver have shown so far. The first one that shows something decides.
#[derive(Clone, Copy, Debug, PartialEq, Eq)]
pub(crate) enum Reception {
    /// Nothing yet.
    Unknown,
    /// It takes batches.
    Takes,
    /// It refuses whatever it is sent, with this status.
    Refuses(u16),
}

/// Returns whether a receiver that has taken nothing yet refuses whatever it is sent if it answers
/// with this status.
fn refuses_all(status: u16) -> bool
    ensures { result ≡ refuses_all status }
{
    matches!(status, 400 | 401 | 403 | 404 | 405 | 415)
}

/// Returns what a status shows.
fn shown_by(status: StatusCode) -> Reception
    ensures takes { judgement_of status ≡ Judgement.Done → result ≡ Reception.Takes }
    ensures refuses { refuses_all status ≡ true → result ≡ Reception.Refuses status }
    ensures open { (judgement_of status ≡ Judgement.Done → ⊥) → refuses_all status ≡ false
        → result ≡ Reception.Unknown }
{
    let number = status.as_u16();
    if refuses_all(number) {
        return Reception::Refuses(number);
    }
    match judge(status) {
        Judgement::Done => Reception::Takes,
        Judgement::Again | Judgement::Refused => Reception::Unknown,
    }
}

impl Reception {
    /// Returns what the answers have shown once one with this status has come, too.
    fn after(self, status: StatusCode) -> Reception
        ensures decided { (self ≡ Reception.Unknown → ⊥) → result ≡ self }
        ensures takes { self ≡ Reception.Unknown → judgement_of status ≡ Judgement.Done
            → result ≡ Reception.Takes }
        ensures refuses { self ≡ Reception.Unknown → refuses_all status ≡ true
            → result ≡ Reception.Refuses status }
        ensures open { self ≡ Reception.Unknown → (judgement_of status ≡ Judgement.Done → ⊥)
            → refuses_all status ≡ false → result ≡ Reception.Unknown }
    {
        match self {
            Reception::Unknown => shown_by(status),
            Reception::Takes => Reception::Takes,
            Reception::Refuses(first) => Reception::Refuses(first),
        }
    }

    /// Returns the number by which an atomic word stores this: that of a refusal is its status.
    fn number(self) -> u64 {
        match self {
            Reception::Unknown => 0,
            Reception::Takes => 1,
            Reception::Refuses(status) => status as u64,
        }
    }

    /// Returns what a number stores.
    fn numbered(number: u64) -> Reception {
        match number {
            0 => Reception::Unknown,
            1 => Reception::Takes,
            _ => Reception::Refuses(number.min(999) as u16),
        }
    }
}

/// Stops a run at once if its receiver answers 400, 401, 403, 404, 405 or 415 before it has
/// acknowledged any batch: it would refuse all of the log. The transports of a run share it.
#[derive(Drop)]
pub struct RefusalStop {
    shown: AtomicU64,
    signal: Arc<StopSignal, Global>,
    workers: StopFlag,
}

impl RefusalStop {
    /// Returns a stop that sets this signal, and then this flag of the workers.
    pub fn new(signal: Arc<StopSignal, Global>, workers: StopFlag) -> RefusalStop {
        RefusalStop {
            shown: AtomicU64::new(0),
            signal,
            workers,
        }
    }

    /// Returns what the answers have shown so far.
    fn reception(&self) -> Reception {
        Reception::numbered(self.shown.load(Ordering::SeqCst))
    }

    /// Returns the status with which the receiver refused the first batch, if that has stopped the
    /// run.
    pub fn refusal(&self) -> Option<u16> {
        match self.reception() {
            Reception::Refuses(status) => Some(status),
            Reception::Unknown | Reception::Takes => None,
        }
    }

    /// Takes the status of an answer, and stops the run if the receiver refuses whatever it is
    /// sent.
    pub(crate) fn hear(&self, status: StatusCode) {
        let before = self.reception();
        let after = before.after(status);
        if after != before {
            // Of two answers at once the first one decides.
            let _ = self.shown.compare_exchange(
                before.number(),
                after.number(),
                Ordering::SeqCst,
                Ordering::SeqCst,
            );
        }
        if self.refusal().is_some() {
            self.signal.abort();
            self.workers.set();
        }
    }
}

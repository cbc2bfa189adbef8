//! The end of a worker whose feeder is gone.

ghost use Rattle.rw_worker.specs.inner.Stops.{TakesNext};

use crate::state::Sending;
use rw_shard_queue::{Drain, Ended, Item, Killed, Kind, Open, Taken};
use std::marker::Model;
use std::sync::Wait;

/// The feeder of a queue was found gone. Contracts see how many samples the worker that found this
/// had resolved by then.
#[derive(Drop)]
pub struct FeederGone {
    resolved: u64,
}

impl Model for FeederGone {
    ghost use Rattle.std.specs.Prelude.{ℕ};

    ghost Value = { ℕ };

    ghost view = { λ g. g.resolved };
}

/// What comes next out of a queue, with its end as it then is.
#[derive(Drop)]
pub(crate) enum Next {
    Item(Item, Drain<Open>),
    End(Kind, Drain<Ended>),
    Gone(Drain<Killed>, FeederGone),
}

/// Takes the next item of a worker's queue. It may wait for one. If the feeder is gone, it gives
/// the end of the queue up. Only this call makes a `FeederGone`.
pub(crate) fn take_next<T, R: Wait>(rt: &R, drain: Drain<Open>, sending: &Sending<T>) -> Next
    ensures { TakesNext drain sending.now.resolved result }
{
    match drain.take(rt) {
        Taken::Item(item, drain) => Next::Item(item, drain),
        Taken::End(kind, drain) => Next::End(kind, drain),
        Taken::Gone(drain) => {
            let resolved = sending.resolved;
            Next::Gone(drain.kill(), FeederGone { resolved })
        }
    }
}

//! The state of a worker between two steps.

ghost use Rattle.std.specs.Prelude.{◌≡◌};
ghost use Rattle.rw_worker.specs.Report.{given_back, report_of};

use crate::backoff::Backoff;
use crate::gone::FeederGone;
use crate::report::{TakingEnd, WorkerReport};
use crate::stop::Stopped;
use crate::tally::Tally;
use crate::worker::Worker;
use rw_ledger::Ledger;
use rw_shard_core::ShardCore;
use rw_shard_queue::{Drain, Ended, Kind, Open};
use std::snapshot::Snapshot;

/// What a worker began with, which contracts alone see.
#[derive(Drop)]
pub(crate) struct Start<T, P> {
    pub(crate) worker: Snapshot<Worker>,
    pub(crate) transport: Snapshot<T>,
    pub(crate) pause: Snapshot<P>,
}

/// The end of the queue that is taken from.
#[derive(Drop)]
pub(crate) enum Intake {
    Open(Drain<Open>),
    /// The End was taken: what was taken before is still to be sent.
    Ended(Kind, Drain<Ended>),
}

impl Intake {
    /// Stops taking items.
    pub(crate) fn close(self) -> TakingEnd
        ensures { result ≡ given_back self }
    {
        match self {
            Intake::Open(drain) => TakingEnd::Killed(drain.kill()),
            Intake::Ended(kind, drain) => TakingEnd::Ended(kind, drain),
        }
    }
}

/// What was taken, and how far it is sent.
#[derive(Drop)]
pub(crate) struct Sending<T> {
    pub(crate) core: ShardCore,
    pub(crate) ledger: Ledger,
    pub(crate) backoff: Backoff,
    /// How many samples are resolved.
    pub(crate) resolved: u64,
    /// The same number, shared with other threads.
    pub(crate) tally: Tally,
    /// How often the open batch was sent without success.
    pub(crate) retries: u64,
    pub(crate) transport: T,
}

impl<T: Drop> Sending<T> {
    pub(crate) fn report(
        self,
        end: TakingEnd,
        stopped: Option<Stopped>,
        gone: Option<FeederGone>,
    ) -> WorkerReport<T>
        ensures { result ≡ report_of end stopped gone self }
    {
        let Sending {
            resolved,
            ledger,
            transport,
            ..
        } = self;
        WorkerReport {
            end,
            resolved,
            stopped,
            gone,
            ledger,
            transport,
        }
    }
}

/// What a step results in.
#[derive(Drop)]
pub(crate) enum Progress {
    /// There is more to do.
    Goes(Intake),
    /// The worker reports this end, and what made it stop: the stop flag, or a feeder that is gone.
    Stops(TakingEnd, Option<Stopped>, Option<FeederGone>),
}

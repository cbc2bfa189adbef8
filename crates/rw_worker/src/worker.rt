//! The worker of a shard.

ghost use Rattle.std.specs.Prelude.{◌≡◌, [], IfOk, IfErr, IfSome};
ghost use Rattle.rw_worker.specs.Report.{IsState, HasRun};
ghost use Rattle.rw_worker.specs.Stops.{IsStill, HasReason};

use crate::backoff::Backoff;
use crate::report::WorkerReport;
use crate::state::{Intake, Progress, Sending, Start};
use crate::step::step;
use crate::stop::StopFlag;
use crate::tally::Tally;
use crate::transport::{Pause, Transport};
use rw_ledger::Ledger;
use rw_shard_core::{Config, ShardCore};
use rw_shard_queue::{Drain, Open};
use std::alloc::{AllocError, Global};
use std::marker::Model;
use std::snapshot::Snapshot;
use std::sync::Wait;

/// A worker that has not begun. Contracts see what it is set up with.
#[derive(Drop)]
pub struct Worker {
    drain: Drain<Open>,
    core: ShardCore,
    ledger: Ledger,
    backoff: Backoff,
    tally: Tally,
}

impl Model for Worker {
    ghost use Rattle.std.specs.Prelude.{◌≡◌, ◌<◌, ◌^◌, []};
    ghost use Rattle.std.specs.FinMap.{empty};
    ghost use Rattle.rw_shard_core.specs.Shard.{new_core};
    ghost use Rattle.rw_worker.specs.Setups.{WorkerSetup};

    ghost Value = { WorkerSetup };

    ghost view = { λ w. record {
      queue = w.drain.queue;
      target = w.core.target;
      batch = w.core.full;
      min_backoff = w.backoff.0;
      max_backoff = w.backoff.1;
    } };

    ghost invariant = { λ w. (w.drain.taken ≡ [])
        × (w.core ≡ new_core w.core.target w.drain.queue.epoch w.drain.queue.shard w.core.full)
        × (w.ledger ≡ record { names = empty; room = 0 })
        × (0 < w.core.full)
        × (w.backoff.1 < 2 ^ 64) };
}

impl Worker {
    /// Returns the worker of the shard `shard` of the epoch `epoch`. If memory runs out, its end of
    /// the queue comes back.
    pub fn new(
        alloc: Global,
        config: &Config,
        epoch: u64,
        shard: u32,
        drain: Drain<Open>,
    ) -> Result<Worker, (Drain<Open>, AllocError)>
        requires queue { (drain.queue.epoch ≡ epoch) × (drain.queue.shard ≡ shard) }
        requires untouched { drain.taken ≡ [] }
        ensures queue { IfOk result (λ w. w.queue ≡ drain.queue) }
        ensures target { IfOk result (λ w. w.target ≡ config.now.target) }
        ensures batch { IfOk result (λ w. w.batch ≡ config.now.batch) }
        ensures backoff { IfOk result (λ w. (w.min_backoff ≡ config.now.min_backoff_ms)
            × (w.max_backoff ≡ config.now.max_backoff_ms)) }
        ensures err { IfErr result (λ e. e.0 ≡ drain) }
    {
        let fields = config.fields();
        let batch = fields.batch.get() as usize;
        let Ok(tally) = Tally::new(alloc) else {
            return Err((drain, AllocError));
        };
        match ShardCore::new(alloc, &fields.target, epoch, shard, batch) {
            Ok(core) => Ok(Worker {
                drain,
                core,
                ledger: Ledger::new(alloc),
                backoff: Backoff::of(config),
                tally,
            }),
            Err(refused) => Err((drain, refused)),
        }
    }

    /// Returns a share of the tally in which it counts resolved samples.
    pub fn tally(&self) -> Result<Tally, AllocError> {
        self.tally.share()
    }

    /// Sends what comes out of the queue, batch by batch, until an End, a set stop flag or a lost
    /// feeder. After it has read the stop flag as set or found its feeder gone, it resolves nothing
    /// more.
    ///
    /// It waits between two attempts of a batch, twice as long each time up to the longest pause,
    /// and for the shortest one if memory ran out.
    pub fn run<T: Transport + Drop, P: Pause, R: Wait>(
        self,
        rt: &R,
        transport: T,
        pause: &mut P,
        stop: &StopFlag,
    ) -> WorkerReport<T>
        ensures report { HasRun T.tells T.seen P.tells P.paused self transport pause.old result
            pause.new }
        ensures flag { IfSome result.stopped (λ stopped. stopped.flag ≡ stop.now) }
        ensures still { IsStill result.stopped result.gone result.resolved }
        ensures reason { HasReason result.end result.stopped result.gone }
    {
        let start = Start {
            worker: Snapshot::of(&self),
            transport: Snapshot::of(&transport),
            pause: Snapshot::of(pause),
        };
        let (mut intake, mut sending) = self.begin(transport, pause);
        for _ in rt.forever() {
            match step(rt, &start, intake, &mut sending, pause, stop) {
                Progress::Goes(next) => intake = next,
                Progress::Stops(end, stopped, gone) => return sending.report(end, stopped, gone),
            }
        }
        unreachable!()
    }

    /// Returns the state before the first step.
    fn begin<T: Transport, P: Pause>(self, transport: T, _pause: &P) -> (Intake, Sending<T>)
        ensures { IsState T.tells T.seen P.tells P.paused self transport _pause.now result.0
            result.1 _pause.now }
    {
        let Worker {
            drain,
            core,
            ledger,
            backoff,
            tally,
        } = self;
        let sending = Sending {
            core,
            ledger,
            backoff,
            resolved: 0,
            tally,
            retries: 0,
            transport,
        };
        (Intake::Open(drain), sending)
    }
}

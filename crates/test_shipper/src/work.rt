//! The work of a shipper from its start to its stop.

use crate::logs::{Named, Samples, segment};
use rw_ledger::Reason;
use rw_sender::{
    Connect, Ends, FeedFault, Finished, Load, Outcome, Report, Shipper, StoppedShard, StoppedShards,
};
use rw_shard_core::{Config, ConfigFields};
use rw_types::Bounded;
use rw_wal_tail::{Piece, TailFault};
use rw_worker::{StopFlag, Transport};
use std::alloc::{AllocError, Global};
use std::sync::Wait;
use std::thread::Threads;

/// One call of a shipper.
#[derive(Clone, Copy)]
pub(crate) enum Call<'a> {
    /// Bytes that define these series and have these samples, and then a byte that does not begin a
    /// record, if there is one.
    Feed(&'a [Named], Samples<'a>, Option<u8>),
    NextSegment,
    Flush,
    Reshard(u64),
}

/// A call with what it takes.
#[derive(Drop)]
enum Step {
    Feed(Piece),
    Flush,
    Reshard(Bounded<1, 1_000>),
}

/// How a shipper is stopped.
#[derive(Clone, Copy)]
pub(crate) enum Stop {
    Orderly,
    Hard,
}

/// What a shipper is set to, which calls are made, and how it is stopped.
#[derive(Clone, Copy)]
pub(crate) struct Task<'a> {
    pub(crate) shards: u64,
    /// How many samples a batch has.
    pub(crate) batch: u64,
    pub(crate) calls: &'a [Call<'a>],
    pub(crate) stop: Stop,
    /// How many bytes a batch may take.
    pub(crate) limit: Option<u64>,
}

/// What a shipper did.
#[derive(Drop)]
pub(crate) struct Work {
    /// The result of each call, and the load after it.
    pub(crate) faults: Vec<Option<FeedFault>>,
    pub(crate) loads: Vec<Load>,
    pub(crate) outcome: Outcome,
    pub(crate) filtered: u64,
    /// The samples that were dropped: by no worker (0), by one of the folded shards (1), and by
    /// each other shard (from 2 on), with the position and the reason of each.
    pub(crate) named: Vec<(usize, u64, Reason)>,
    /// How many samples the folded shards resolved together, and then each other one.
    pub(crate) resolved: Vec<u64>,
    /// How many of the others took all that they were put.
    pub(crate) whole: usize,
    /// How many workers said that they were stopped.
    pub(crate) stopped: usize,
}

/// How the work is to end.
#[derive(Clone, Copy)]
pub(crate) enum Ending<'a> {
    Complete(u64),
    /// How many entries were placed, and the positions of the samples that are not resolved.
    Abandoned(u64, &'a [u64]),
    Damaged(TailFault),
}

/// What a shipper is to do.
#[derive(Clone, Copy)]
pub(crate) struct Wanted<'a> {
    pub(crate) faults: &'a [Option<FeedFault>],
    pub(crate) ending: Ending<'a>,
    pub(crate) named: &'a [(usize, u64, Reason)],
    pub(crate) resolved: &'a [u64],
    pub(crate) stopped: usize,
}

pub(crate) fn ends_so(outcome: &Outcome, ending: Ending<'_>) -> bool {
    match (outcome, ending) {
        (Outcome::Complete(placed), Ending::Complete(wanted)) => *placed == wanted,
        (Outcome::Abandoned { placed, samples }, Ending::Abandoned(wanted, positions)) => {
            *placed == wanted && samples.as_slice() == positions
        }
        (Outcome::Damaged(fault), Ending::Damaged(wanted)) => *fault == wanted,
        _ => false,
    }
}

/// Returns whether these are all numbers from one up to another.
fn are_all(numbers: &[u64], from: u64, to: u64) -> bool {
    let mut next = from;
    for number in numbers {
        if *number != next {
            return false;
        }
        next = next.saturating_add(1);
    }
    next == to
}

impl Work {
    /// Returns whether it is as expected. Each worker that was not stopped takes everything.
    pub(crate) fn is(&self, wanted: &Wanted<'_>) -> bool {
        self.faults.as_slice() == wanted.faults
            && ends_so(&self.outcome, wanted.ending)
            && self.named.as_slice() == wanted.named
            && self.resolved.as_slice() == wanted.resolved
            && self.stopped == wanted.stopped
            && self.counts_all()
    }

    /// Returns whether a call failed, and each later one returned the same.
    pub(crate) fn keeps_its_fault(&self) -> bool {
        let mut kept = None;
        for fault in &self.faults {
            if kept.is_some() && *fault != kept {
                return false;
            }
            kept = *fault;
        }
        kept.is_some()
    }

    /// Returns whether no call failed.
    pub(crate) fn has_no_fault(&self) -> bool {
        for fault in &self.faults {
            if fault.is_some() {
                return false;
            }
        }
        true
    }

    /// Returns whether nothing is named, and of the samples after the first `series` entries, which
    /// are all of one series, just those are listed as abandoned that were placed after the
    /// resolved ones.
    pub(crate) fn accounts_for_all(&self, series: u64) -> bool {
        let mut known = series;
        for resolved in &self.resolved {
            known = known.saturating_add(*resolved);
        }
        let is_so = match &self.outcome {
            Outcome::Complete(placed) => *placed == known,
            Outcome::Abandoned { placed, samples } => are_all(
                samples,
                known,
                (*placed).max(series),
            ),
            Outcome::Damaged(_) => false,
        };
        is_so && self.named.is_empty()
    }

    /// Returns whether nothing is filtered, and each shard that is not folded is whole or stopped.
    fn counts_all(&self) -> bool {
        let shards = self.resolved.len().saturating_sub(1);
        self.filtered == 0 && self.whole.saturating_add(self.stopped) == shards
    }
}

/// Returns a configuration of this many shards, and batches of this many samples.
pub(crate) fn config_of(alloc: Global, shards: u64, batch: u64) -> Option<Config> {
    let shards = Bounded::try_new(shards)?;
    let batch = Bounded::try_new(batch)?;
    let mut fields = ConfigFields::standard(alloc).ok()?;
    fields.shards = shards;
    fields.batch = batch;
    Config::new(fields)
}

fn fed(
    alloc: Global,
    series: &[Named],
    samples: Samples<'_>,
    behind: Option<u8>,
) -> Result<Step, AllocError> {
    let mut log = segment(alloc, series, samples)?;
    if let Some(byte) = behind {
        log.push(byte)?;
    }
    Ok(Step::Feed(Piece::Bytes(log)))
}

fn step_of(alloc: Global, call: Call<'_>) -> Result<Step, AllocError> {
    match call {
        Call::Feed(series, samples, behind) => fed(alloc, series, samples, behind),
        Call::NextSegment => Ok(Step::Feed(Piece::NextSegment)),
        Call::Flush => Ok(Step::Flush),
        Call::Reshard(shards) => match Bounded::try_new(shards) {
            Some(shards) => Ok(Step::Reshard(shards)),
            None => Err(AllocError),
        },
    }
}

/// Adds calls with what they take.
fn put_steps(alloc: Global, steps: &mut Vec<Step>, calls: &[Call<'_>]) -> Result<(), AllocError> {
    for call in calls {
        steps.push(step_of(alloc, *call)?)?;
    }
    Ok(())
}

/// Adds the names of the part of this number.
fn put_names(
    named: &mut Vec<(usize, u64, Reason)>,
    number: usize,
    names: &[(u64, Reason)],
) -> Result<(), AllocError> {
    for (pos, reason) in names {
        named.push((number, *pos, *reason))?;
    }
    Ok(())
}

/// Returns the names of all parts.
fn named_in<T>(alloc: Global, report: &Report<T>) -> Result<Vec<(usize, u64, Reason)>, AllocError> {
    let mut named = Vec::new(alloc);
    put_names(&mut named, 0, report.dropped.iter().as_slice())?;
    put_names(&mut named, 1, report.ended.refused_before())?;
    for (i, shard) in report.ended.kept().iter().enumerate() {
        put_names(
            &mut named,
            i.saturating_add(2),
            shard.part.iter().as_slice(),
        )?;
    }
    Ok(named)
}

/// Returns how many samples the folded shards resolved together.
fn resolved_before<T>(ended: &StoppedShards<T>) -> u64 {
    let mut resolved = ended.resolved();
    for shard in ended.kept() {
        resolved = resolved.saturating_sub(shard.finished.resolved);
    }
    resolved
}

/// Counts a shard, and gives its transport.
fn counted<T: Transport>(
    finished: Finished<T>,
    whole: &mut usize,
    stopped: &mut usize,
) -> (u64, T) {
    let Finished {
        ends,
        transport,
        resolved,
        stopped: was_stopped,
    } = finished;
    if was_stopped.is_some() {
        *stopped = stopped.saturating_add(1);
    } else if matches!(ends, Ends::Compared(_)) {
        *whole = whole.saturating_add(1);
    }
    (resolved, transport)
}

/// Returns what a report says, and the transports of the shards that are not folded.
fn work_of<T: Transport + Drop>(
    alloc: Global,
    faults: Vec<Option<FeedFault>>,
    loads: Vec<Load>,
    report: Report<T>,
) -> Result<(Work, Vec<T>), AllocError> {
    let named = named_in(alloc, &report)?;
    let Report {
        outcome,
        dropped: _,
        filtered,
        ended,
    } = report;
    let mut work = Work {
        faults,
        loads,
        outcome,
        filtered,
        named,
        resolved: Vec::new(alloc),
        whole: 0,
        stopped: 0,
    };
    work.resolved.push(resolved_before(&ended))?;
    let mut transports = Vec::new(alloc);
    for shard in ended.into_kept() {
        let StoppedShard { finished, .. } = shard;
        let (resolved, transport) = counted(finished, &mut work.whole, &mut work.stopped);
        work.resolved.push(resolved)?;
        transports.push(transport)?;
    }
    Ok((work, transports))
}

fn fault_of<R: Threads + Wait + Copy + Send + 'static, C: Connect + Drop>(
    rt: &R,
    shipper: &mut Shipper<C>,
    step: Step,
) -> Option<FeedFault> {
    let answer = match step {
        Step::Feed(piece) => shipper.feed(rt, piece),
        Step::Flush => shipper.flush(rt),
        Step::Reshard(shards) => shipper.reshard(rt, shards.get() as u32),
    };
    answer.err()
}

/// Takes these steps, and notes the result of each and the load after it.
fn take_steps<R: Threads + Wait + Copy + Send + 'static, C: Connect + Drop>(
    rt: &R,
    shipper: &mut Shipper<C>,
    steps: Vec<Step>,
    faults: &mut Vec<Option<FeedFault>>,
    loads: &mut Vec<Load>,
) {
    for step in steps {
        let _ = faults.push(fault_of(rt, shipper, step));
        let _ = loads.push(shipper.load());
    }
}

fn report_of<R: Threads + Wait, C: Connect + Drop>(
    rt: &R,
    shipper: Shipper<C>,
    stop: Stop,
) -> Report<C::T> {
    let end = shipper.entries_read();
    match stop {
        Stop::Orderly => shipper.stop_orderly(rt, end),
        Stop::Hard => shipper.stop_hard(rt),
    }
}

/// Starts a shipper, takes these steps, and stops.
fn ship<R: Threads + Wait + Copy + Send + 'static, C: Connect + Drop>(
    rt: &R,
    alloc: Global,
    config: Config,
    connect: C,
    steps: Vec<Step>,
    task: &Task<'_>,
) -> Result<(Work, Vec<C::T>), AllocError> {
    let mut faults = Vec::with_capacity(alloc, steps.len())?;
    let mut loads = Vec::with_capacity(alloc, steps.len())?;
    let stop = StopFlag::new(alloc)?;
    let mut shipper = Shipper::start_within(rt, alloc, config, connect, task.limit, stop)?;
    take_steps(rt, &mut shipper, steps, &mut faults, &mut loads);
    work_of(alloc, faults, loads, report_of(rt, shipper, task.stop))
}

/// Does a task. Returns what was done, and the transports of the shards that are not folded, or
/// `None` if it does not start or memory runs out.
pub(crate) fn done<R: Threads + Wait + Copy + Send + 'static, C: Connect + Drop>(
    rt: &R,
    alloc: Global,
    task: &Task<'_>,
    connect: C,
) -> Option<(Work, Vec<C::T>)> {
    let mut steps = Vec::new(alloc);
    put_steps(alloc, &mut steps, task.calls).ok()?;
    let config = config_of(alloc, task.shards, task.batch)?;
    ship(rt, alloc, config, connect, steps, task).ok()
}

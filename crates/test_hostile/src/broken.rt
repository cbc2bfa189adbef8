//! A worker whose request or reply is cut off by one failing call, at each of the calls, or that
//! runs out of memory: it sends the same bytes again, and the head has each sample once.

ghost use Rattle.std.specs.Prelude.{◌≡◌, []};
ghost use Rattle.rw_plain_queue.specs.declared.item.Item.TheVariants as item;

use crate::line::{Line, Quick};
use rw_head::Limits;
use rw_shard_core::Config;
use rw_shard_queue::{Feed, Item, Kind, Open, open};
use rw_test_parts::raw_labels;
use rw_types::{LabelFault, LabelSet, Place, Word};
use rw_worker::{StopFlag, Worker, WorkerReport};
use std::alloc::Global;
use std::cell::Cell;
use std::sync::{Arc, Wait};

/// More calls than two requests and their replies take.
const MANY: usize = 1_000;

/// What a run has to show: how many exchanges were made, and how many samples were resolved and are
/// in the head.
#[derive(Clone, Copy, PartialEq, Eq)]
struct Shown {
    exchanges: usize,
    resolved: u64,
    held: u64,
    is_same: bool,
    is_named: bool,
}

fn up(alloc: Global) -> Result<Arc<LabelSet>, LabelFault> {
    let labels = LabelSet::check(alloc, &raw_labels(alloc, &[("__name__", "up")])?)?;
    match Arc::new(alloc, labels) {
        Ok(labels) => Ok(labels),
        Err(_) => Err(LabelFault::OutOfMemory),
    }
}

/// Returns the sample of this number, of the queue of shard 0 in epoch 0.
fn sample(seq: u64, t: i64, labels: Arc<LabelSet>) -> Item
    ensures { result ≡ item.Sample
        (record { epoch = 0; shard = 0; seq = seq; pos = seq; series = 0 }) t 1 labels }
{
    let place = Place {
        epoch: 0,
        shard: 0,
        seq,
        pos: seq,
        series: 0,
    };
    Item::Sample(place, t, Word(1), labels)
}

/// Puts two samples with a Flush between, and an End.
fn is_fed<R: Wait>(rt: &R, feed: Feed<Open>, labels: Arc<LabelSet>) -> bool
    requires { (feed.queue.epoch ≡ 0) × (feed.queue.shard ≡ 0) × (feed.put ≡ []) }
{
    let Ok(copy) = Arc::try_clone(&labels) else {
        return false;
    };
    let mut feed = feed;
    feed.put(rt, sample(0, 10, copy)).is_ok()
        && feed.put(rt, Item::Flush).is_ok()
        && feed.put(rt, sample(1, 20, labels)).is_ok()
        && feed.end(rt, Kind::Orderly).is_ok()
}

fn shown_by(report: &WorkerReport<Line<'_>>) -> Shown {
    let line = &report.transport;
    Shown {
        exchanges: line.exchanges,
        resolved: report.resolved,
        held: line.head.total(),
        is_same: line.is_same,
        is_named: report.ledger.total() > 0,
    }
}

/// Returns a worker with such a queue, or `None` if memory runs out.
fn worker_of<R: Wait>(rt: &R, alloc: Global, config: &Config) -> Option<Worker> {
    let labels = up(alloc).ok()?;
    let (feed, drain) = open(alloc, 0, 0, 4).ok()?;
    if !is_fed(rt, feed, labels) {
        return None;
    }
    Worker::new(alloc, config, 0, 0, drain).ok()
}

/// Returns what a worker shows over a line if this call fails, counted from 1, and whether it came
/// to that call.
fn shown_over_line<R: Wait>(
    rt: &R,
    alloc: Global,
    limits: Limits,
    worker: Worker,
    stop: &StopFlag,
    failing: usize,
) -> (Shown, bool) {
    let calls = Cell::new(failing);
    let line = Line::new(alloc, limits, &calls);
    let shown = shown_by(&worker.run(rt, line, &mut Quick, stop));
    (shown, calls.get() == 0)
}

/// Returns the same for a new worker, or `None` if memory runs out before it runs.
fn shown_at<R: Wait>(rt: &R, alloc: Global, failing: usize) -> Option<(Shown, bool)> {
    let stop = StopFlag::new(alloc).ok()?;
    let limits = Limits::standard(alloc).ok()?;
    let config = Config::standard(alloc).ok()?;
    let worker = worker_of(rt, alloc, &config)?;
    Some(shown_over_line(rt, alloc, limits, worker, &stop, failing))
}

/// Returns what the worker has to show.
fn wanted(has_failed: bool) -> Shown {
    Shown {
        exchanges: if has_failed { 3 } else { 2 },
        resolved: 2,
        held: 2,
        is_same: true,
        is_named: false,
    }
}

/// Returns the first call with whose failure a worker shows something else, or `MANY` if there is
/// none, or 0 if there are too few calls.
fn wrong_call<R: Wait>(rt: &R, alloc: Global) -> usize {
    for failing in 1..MANY {
        match shown_at(rt, alloc, failing) {
            Some((shown, true)) if shown == wanted(true) => {}
            Some((shown, false)) if shown == wanted(false) && failing > 20 => return MANY,
            Some((shown, false)) if shown == wanted(false) => return 0,
            _ => return failing,
        }
    }
    0
}

#[test]
fn each_call_may_fail(rt: HostRuntime) {
    assert_eq!(rt; wrong_call(&rt, rt.alloc()), MANY);
}

/// Returns what a worker shows if no call fails, with another try if memory runs out before it
/// begins.
fn shown_whole<R: Wait>(rt: &R, alloc: Global) -> Option<Shown> {
    match shown_at(rt, alloc, 0) {
        Some((shown, _)) => Some(shown),
        None => Some(shown_at(rt, alloc, 0)?.0),
    }
}

/// Returns whether everything is sent, and at most one request twice.
fn goes_on<R: Wait>(rt: &R, alloc: Global) -> bool {
    match shown_whole(rt, alloc) {
        Some(shown) => shown == wanted(false) || shown == wanted(true),
        None => false,
    }
}

/// Holds whichever allocation fails; `tools/refuse-each` lets each of them fail in turn.
#[test]
fn a_worker_goes_on(rt: HostRuntime) {
    assert!(rt; goes_on(&rt, rt.alloc()));
}

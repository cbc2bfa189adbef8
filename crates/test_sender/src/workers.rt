//! What a worker sends, and what it reports.

ghost use Rattle.std.specs.Prelude.{◌≡◌, ◌<◌, [], IfOk};

use crate::feeding::{one, two};
use crate::memory::{Script, SharedTimes, Times};
use crate::rows::holds;
use crate::samples::shared_metric;
use http::StatusCode;
use rw_ledger::{Ledger, Reason};
use rw_shard_core::{Config, ConfigFields};
use rw_shard_queue::{Drain, Feed, Kind, Open, open};
use rw_types::{Bounded, LabelFault, LabelSet, Word};
use rw_worker::{Lost, Reply, StopFlag, TakingEnd, Worker, WorkerReport, spawn};
use std::alloc::{AllocError, Global};
use std::sync::atomic::{AtomicU64, Ordering};
use std::sync::{Arc, Wait};
use std::thread::Threads;

/// The request of the message of the sample 1 at 1000 ms of the series `up`.
const UP: &[u8] =
    b"POST /api/v1/write HTTP/1.1\r\nHost: localhost:9090\r\nUser-Agent: rwship/1.0\r\nContent-Type: application/x-protobuf\r\nX-Prometheus-Remote-Write-Version: 0.1.0\r\nConnection: close\r\nContent-Length: 32\r\n\r\n\x0a\x1e\x0a\x0e\x0a\x08__name__\x12\x02up\x12\x0c\x09\x00\x00\x00\x00\x00\x00\xf0?\x10\xe8\x07";

const ONE: Word = Word(0x3ff0_0000_0000_0000);

/// Returns a status, or no answer for 0.
fn answer(status: u16) -> Result<Reply, Lost> {
    match StatusCode::from_u16(status) {
        Ok(status) => Ok(Reply { status }),
        Err(_) => Err(Lost),
    }
}

fn answers(alloc: Global, statuses: &[u16]) -> Result<Vec<Result<Reply, Lost>>, AllocError> {
    let mut answers = Vec::new(alloc);
    for status in statuses {
        answers.push(answer(*status))?;
    }
    Ok(answers)
}

/// What the feeder does.
#[derive(Clone, Copy)]
enum Feeding {
    /// It lets go of its end.
    Gone,
    /// It puts one sample, and an End of this kind.
    One(Kind),
    /// It puts two samples with a Flush between, and an orderly End.
    Two,
}

/// What a worker takes, how it is answered, and what is expected of it.
struct Row<'a> {
    name: &'a str,
    feeding: Feeding,
    batch: u64,
    /// 0 stands for no answer.
    statuses: &'a [u16],
    /// At which exchange the stop flag is set, counted from 1; 0 before the first one.
    stops_at: Option<usize>,
    wanted: Wanted<'a>,
}

/// What is expected of a worker.
struct Wanted<'a> {
    /// The End that it takes, or `None` if it gives its end of the queue up.
    end: Option<Kind>,
    stopped: bool,
    resolved: u64,
    dropped: &'a [(u64, Reason)],
    exchanges: usize,
    /// What each request is, if all are the same.
    request: Option<&'a [u8]>,
    milliseconds: Option<&'a [u64]>,
}

fn ends_as_wanted(end: &TakingEnd, wanted: &Wanted<'_>) -> bool {
    match end {
        TakingEnd::Ended(kind, _) => wanted.end == Some(*kind),
        TakingEnd::Killed(_) => wanted.end.is_none(),
    }
}

fn drops_as_wanted(ledger: &Ledger, wanted: &Wanted<'_>) -> bool {
    ledger.total() == wanted.dropped.len()
        && wanted
            .dropped
            .iter()
            .all(|(pos, reason)| ledger.get(*pos) == Some(*reason))
}

fn asks_as_wanted(script: &Script, wanted: &Wanted<'_>) -> bool {
    let notes = script.notes();
    let Some(request) = wanted.request else {
        return notes.len() == wanted.exchanges;
    };
    script.is_complete()
        && notes.len() == wanted.exchanges
        && notes.iter().all(|note| note.request.as_slice() == request)
}

/// Returns whether a report and the pauses are as expected.
fn reports_as_wanted(report: &WorkerReport<Script>, wanted: &Wanted<'_>) -> bool {
    ends_as_wanted(&report.end, wanted)
        && report.stopped.is_some() == wanted.stopped
        && report.resolved == wanted.resolved
        && drops_as_wanted(&report.ledger, wanted)
        && asks_as_wanted(&report.transport, wanted)
}

fn waits_as_wanted(times: &Times, wanted: &Wanted<'_>) -> bool {
    match wanted.milliseconds {
        Some(milliseconds) => times.milliseconds.as_slice() == milliseconds,
        None => true,
    }
}

/// Returns whether all was put.
fn fed<R: Wait>(rt: &R, feed: Feed<Open>, labels: Arc<LabelSet>, feeding: Feeding) -> bool
    requires { (feed.queue.epoch ≡ 3) × (feed.queue.shard ≡ 1) × (feed.put ≡ []) }
{
    match feeding {
        Feeding::Gone => true,
        Feeding::One(kind) => one(rt, feed, labels, ONE, kind).is_some(),
        Feeding::Two => two(rt, feed, labels, ONE).is_some(),
    }
}

/// Returns whether the worker does as expected.
fn works_as_wanted<R: Wait>(
    rt: &R,
    alloc: Global,
    worker: Worker,
    script: Script,
    stop: &StopFlag,
    wanted: &Wanted<'_>,
) -> bool {
    let mut times = Times {
        milliseconds: Vec::new(alloc),
        is_complete: true,
    };
    let report = worker.run(rt, script, &mut times, stop);
    waits_as_wanted(&times, wanted) && reports_as_wanted(&report, wanted)
}

/// Returns a transport that answers with the statuses of a row, and sets this flag as it says.
fn script_of(alloc: Global, stop: &StopFlag, row: &Row<'_>) -> Result<Script, AllocError> {
    let stops_at = row.stops_at.unwrap_or(0);
    if row.stops_at == Some(0) {
        stop.set();
    }
    let share = stop.share()?;
    Ok(Script::new(alloc, answers(alloc, row.statuses)?, share, stops_at))
}

/// Returns a worker of a queue that holds this many items, and the end that feeds it.
fn worker_of(
    alloc: Global,
    config: &Config,
    capacity: usize,
) -> Result<(Feed<Open>, Worker), AllocError>
    requires { 0 < capacity }
    ensures { IfOk result (λ r. (r.0.queue.epoch ≡ 3) × (r.0.queue.shard ≡ 1) × (r.0.put ≡ [])) }
{
    let (feed, drain) = open(alloc, 3, 1, capacity)?;
    match Worker::new(alloc, config, 3, 1, drain) {
        Ok(worker) => Ok((feed, worker)),
        Err((_, refused)) => Err(refused),
    }
}

/// Returns whether a worker that is fed everything does as a row expects.
fn fed_and_run<R: Wait>(
    rt: &R,
    alloc: Global,
    config: &Config,
    labels: Arc<LabelSet>,
    row: &Row<'_>,
) -> Result<bool, AllocError> {
    let stop = StopFlag::new(alloc)?;
    let script = script_of(alloc, &stop, row)?;
    let (feed, worker) = worker_of(alloc, config, 4)?;
    let is_fed = fed(rt, feed, labels, row.feeding);
    Ok(works_as_wanted(rt, alloc, worker, script, &stop, &row.wanted) && is_fed)
}

fn config_of(alloc: Global, batch: u64) -> Result<Option<Config>, AllocError> {
    let mut fields = ConfigFields::standard(alloc)?;
    if let Some(batch) = Bounded::try_new(batch) {
        fields.batch = batch;
    }
    Ok(Config::new(fields))
}

/// Returns whether a worker does as a row expects.
fn does_as_wanted<R: Wait>(rt: &R, alloc: Global, row: &Row<'_>) -> Result<bool, LabelFault> {
    let labels = shared_metric(alloc, "up")?;
    match config_of(alloc, row.batch)? {
        Some(config) => Ok(fed_and_run(rt, alloc, &config, labels, row)?),
        None => Ok(false),
    }
}

/// Returns the name of the first row that a worker does not do.
fn wrong_row<R: Wait>(rt: &R, alloc: Global) -> Result<Option<&'static str>, LabelFault> {
    for row in &ROWS {
        if !does_as_wanted(rt, alloc, row)? {
            return Ok(Some(row.name));
        }
    }
    Ok(None)
}

const REFUSED: Wanted<'static> = Wanted {
    end: Some(Kind::Orderly),
    stopped: false,
    resolved: 2,
    dropped: &[(5, Reason::Status(400))],
    exchanges: 4,
    request: None,
    milliseconds: Some(&[30, 30]),
};

/// In batches of one, of two and of 2,000 samples the Flush makes two batches. The pauses of each
/// start again.
static ROWS: [Row<'static>; 9] = [
    Row {
        name: "a batch is sent until the answer is final",
        feeding: Feeding::One(Kind::Orderly),
        batch: 2000,
        statuses: &[503, 0, 429, 204],
        stops_at: None,
        wanted: Wanted {
            end: Some(Kind::Orderly),
            stopped: false,
            resolved: 1,
            dropped: &[],
            exchanges: 4,
            request: Some(UP),
            milliseconds: Some(&[30, 60, 120]),
        },
    },
    Row {
        name: "a set stop flag ends the tries",
        feeding: Feeding::One(Kind::Orderly),
        batch: 2000,
        statuses: &[503, 503, 503, 503],
        stops_at: Some(3),
        wanted: Wanted {
            end: Some(Kind::Orderly),
            stopped: true,
            resolved: 0,
            dropped: &[],
            exchanges: 3,
            request: Some(UP),
            milliseconds: None,
        },
    },
    Row {
        name: "nothing is taken once the stop flag is set",
        feeding: Feeding::One(Kind::Orderly),
        batch: 2000,
        statuses: &[],
        stops_at: Some(0),
        wanted: Wanted {
            end: None,
            stopped: true,
            resolved: 0,
            dropped: &[],
            exchanges: 0,
            request: None,
            milliseconds: None,
        },
    },
    Row {
        name: "a refused sample is named, in batches of one",
        feeding: Feeding::Two,
        batch: 1,
        statuses: &[429, 400, 503, 204],
        stops_at: None,
        wanted: REFUSED,
    },
    Row {
        name: "a refused sample is named, in batches of two",
        feeding: Feeding::Two,
        batch: 2,
        statuses: &[429, 400, 503, 204],
        stops_at: None,
        wanted: REFUSED,
    },
    Row {
        name: "a refused sample is named, in batches of 2,000",
        feeding: Feeding::Two,
        batch: 2000,
        statuses: &[429, 400, 503, 204],
        stops_at: None,
        wanted: REFUSED,
    },
    Row {
        name: "all is sent before a reshard",
        feeding: Feeding::One(Kind::Reshard),
        batch: 2000,
        statuses: &[204],
        stops_at: None,
        wanted: Wanted {
            end: Some(Kind::Reshard),
            stopped: false,
            resolved: 1,
            dropped: &[],
            exchanges: 1,
            request: Some(UP),
            milliseconds: Some(&[]),
        },
    },
    Row {
        name: "nothing is sent after a hard End",
        feeding: Feeding::One(Kind::Hard),
        batch: 2000,
        statuses: &[],
        stops_at: None,
        wanted: Wanted {
            end: Some(Kind::Hard),
            stopped: false,
            resolved: 0,
            dropped: &[],
            exchanges: 0,
            request: None,
            milliseconds: Some(&[]),
        },
    },
    Row {
        name: "a worker whose feeder is gone",
        feeding: Feeding::Gone,
        batch: 2000,
        statuses: &[],
        stops_at: None,
        wanted: Wanted {
            end: None,
            stopped: false,
            resolved: 0,
            dropped: &[],
            exchanges: 0,
            request: None,
            milliseconds: None,
        },
    },
];

#[test]
fn workers(rt: HostRuntime) {
    assert_eq!(rt; wrong_row(&rt, rt.alloc()), Ok(None));
}

static IN_A_THREAD: Wanted<'static> = Wanted {
    end: Some(Kind::Orderly),
    stopped: false,
    resolved: 2,
    dropped: &[(9, Reason::Status(404))],
    exchanges: 4,
    request: None,
    milliseconds: None,
};

/// The answers to a worker in a thread.
static STATUSES: [u16; 4] = [0, 204, 503, 404];

/// How long it pauses: the least pause before the retry of each batch.
const MILLISECONDS: u64 = 60;

/// Puts what a worker in its thread takes, and joins it. Returns whether it did as expected.
fn fed_in_a_thread<R: Threads + Wait + Copy + Send + 'static>(
    rt: &R,
    alloc: Global,
    config: &Config,
    labels: Arc<LabelSet>,
) -> Result<bool, AllocError> {
    let stop = StopFlag::new(alloc)?;
    let script = Script::new(alloc, answers(alloc, &STATUSES)?, stop.share()?, 0);
    let (feed, worker) = worker_of(alloc, config, 1)?;
    let sum = Arc::new(alloc, AtomicU64::new(0))?;
    let times = SharedTimes { sum: sum.clone()? };
    let handle = spawn(rt, worker, script, times, stop)?;
    let is_fed = fed(rt, feed, labels, Feeding::Two);
    let report = handle.join(rt);
    let has_paused = sum.load(Ordering::SeqCst) == MILLISECONDS;
    Ok(reports_as_wanted(&report, &IN_A_THREAD) && is_fed && has_paused)
}

fn does_in_a_thread<R: Threads + Wait + Copy + Send + 'static>(
    rt: &R,
    alloc: Global,
) -> Result<bool, LabelFault> {
    let labels = shared_metric(alloc, "up")?;
    let config = Config::standard(alloc)?;
    Ok(fed_in_a_thread(rt, alloc, &config, labels)?)
}

/// The queue holds one item, so the two threads wait for each other.
#[test]
fn a_worker_in_a_thread(rt: HostRuntime) {
    holds(&rt, does_in_a_thread(&rt, rt.alloc()) == Ok(true));
}

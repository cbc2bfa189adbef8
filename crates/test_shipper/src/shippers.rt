//! What a shipper places and sends, and what its report says.

use crate::logs::{FOUR, LONG, ONE, Samples, TWO, UP, segment};
use crate::peers::{Peer, Peers, TURNS};
use crate::work::{Call, Ending, Stop, Task, Wanted, Work, config_of, done, ends_so};
use Call::{Feed, Flush, NextSegment, Reshard};
use http::StatusCode;
use rw_ledger::Reason;
use rw_sender::{FeedFault, Load, Outcome, Shipper};
use rw_wal_tail::{Piece, TailFault};
use rw_worker::StopFlag;
use std::alloc::{AllocError, Global};
use std::sync::atomic::AtomicBool;
use std::sync::{Arc, Wait};
use std::test::Fail;
use std::thread::{self, Threads};

/// The message of the samples 1 at 10 ms and 2 at 20 ms of the series `up`.
const BOTH_OF_UP: &[u8] = &[
    0x0a, 0x2a, 0x0a, 0x0e, 0x0a, 0x08, 0x5f, 0x5f, 0x6e, 0x61, 0x6d, 0x65, 0x5f, 0x5f, 0x12, 0x02,
    0x75, 0x70, 0x12, 0x0b, 0x09, 0x00, 0x00, 0x00, 0x00, 0x00, 0x00, 0xf0, 0x3f, 0x10, 0x0a, 0x12,
    0x0b, 0x09, 0x00, 0x00, 0x00, 0x00, 0x00, 0x00, 0x00, 0x40, 0x10, 0x14,
];

/// The message of the sample 2 at 20 ms of the series `c`.
const SECOND_OF_C: &[u8] = &[
    0x0a, 0x1c, 0x0a, 0x0d, 0x0a, 0x08, 0x5f, 0x5f, 0x6e, 0x61, 0x6d, 0x65, 0x5f, 0x5f, 0x12, 0x01,
    0x63, 0x12, 0x0b, 0x09, 0x00, 0x00, 0x00, 0x00, 0x00, 0x00, 0x00, 0x40, 0x10, 0x14,
];

/// What a shipper does, how its receivers answer, and what is expected.
struct Row<'a> {
    task: Task<'a>,
    status: u16,
    /// For how many receivers there is memory.
    receivers: u64,
    wanted: Wanted<'a>,
    /// The bodies that the first and the last receiver of the last epoch get, each in one request;
    /// an empty one means no request.
    sent: Option<(&'a [u8], &'a [u8])>,
    loads: Option<&'a [Load]>,
}

/// Returns receivers that answer with one status, each at once, or one of them after another one
/// has answered.
fn peers_of(
    alloc: Global,
    status: u16,
    receivers: u64,
    held: Option<u32>,
) -> Result<Peers, AllocError> {
    let Ok(status) = StatusCode::from_u16(status) else {
        return Err(AllocError);
    };
    Ok(Peers {
        alloc,
        status,
        left: receivers,
        held,
        has_answered: Arc::new(alloc, AtomicBool::new(false))?,
    })
}

/// Returns whether one request was made, with this body, or none if the body is empty.
fn has_sent(peer: Option<&Peer>, body: &[u8]) -> bool {
    let Some(peer) = peer else {
        return false;
    };
    match peer.requests() {
        [] => body.is_empty(),
        [request] => !body.is_empty() && request.ends_with(body),
        _ => false,
    }
}

fn have_sent(peers: &[Peer], sent: Option<(&[u8], &[u8])>) -> bool {
    match sent {
        Some((first, last)) => has_sent(peers.first(), first) && has_sent(peers.last(), last),
        None => true,
    }
}

fn has_loads(work: &Work, loads: Option<&[Load]>) -> bool {
    match loads {
        Some(loads) => work.loads.as_slice() == loads,
        None => true,
    }
}

/// Returns whether a shipper does as a row expects.
fn does<R: Threads + Wait + Copy + Send + 'static>(rt: &R, alloc: Global, row: &Row<'_>) -> bool {
    let Ok(peers) = peers_of(alloc, row.status, row.receivers, None) else {
        return false;
    };
    let Some((work, peers)) = done(rt, alloc, &row.task, peers) else {
        return false;
    };
    work.is(&row.wanted) && have_sent(&peers, row.sent) && has_loads(&work, row.loads)
}

static ALL_SENT: Row<'static> = Row {
    task: Task {
        shards: 2,
        batch: 2_000,
        calls: &[Feed(&[UP], &[(1, 10, ONE), (1, 20, TWO)], None), Flush],
        stop: Stop::Orderly,
        limit: None,
    },
    status: 204,
    receivers: u64::MAX,
    wanted: Wanted {
        faults: &[None, None],
        ending: Ending::Complete(3),
        named: &[],
        resolved: &[0, 2, 0],
        stopped: 0,
    },
    sent: Some((BOTH_OF_UP, &[])),
    loads: None,
};

#[test]
fn all_is_sent(rt: HostRuntime) {
    assert!(rt; does(&rt, rt.alloc(), &ALL_SENT));
}

static NAMED: Row<'static> = Row {
    task: Task {
        shards: 2,
        batch: 2_000,
        calls: &[Feed(&[UP], &[(9, 10, ONE), (1, 20, TWO)], None)],
        stop: Stop::Orderly,
        limit: None,
    },
    status: 400,
    receivers: u64::MAX,
    wanted: Wanted {
        faults: &[None],
        ending: Ending::Complete(3),
        named: &[(0, 1, Reason::NoSeries), (2, 2, Reason::Status(400))],
        resolved: &[0, 1, 0],
        stopped: 0,
    },
    sent: None,
    loads: None,
};

/// A sample whose reference has no series is named in the feeder's part, and a refused one in its
/// shard's.
#[test]
fn samples_that_are_not_stored_are_named(rt: HostRuntime) {
    assert!(rt; does(&rt, rt.alloc(), &NAMED));
}

const ONE_OF_ONE: Load = Load {
    placed: 1,
    resolved: 1,
    backlog: 0,
};

const TWO_OF_TWO: Load = Load {
    placed: 2,
    resolved: 2,
    backlog: 0,
};

const THREE_OF_THREE: Load = Load {
    placed: 3,
    resolved: 3,
    backlog: 0,
};

const ONE_WAITS: Load = Load {
    placed: 1,
    resolved: 0,
    backlog: 1,
};

static ONE_SERIES: Row<'static> = Row {
    task: Task {
        shards: 2,
        batch: 2_000,
        calls: &[
            Feed(&FOUR, &[(3, 10, ONE)], None),
            Reshard(3),
            NextSegment,
            Feed(&[], &[(4, 20, TWO)], None),
        ],
        stop: Stop::Orderly,
        limit: None,
    },
    status: 204,
    receivers: u64::MAX,
    wanted: Wanted {
        faults: &[None, None, None, None],
        ending: Ending::Complete(6),
        named: &[],
        resolved: &[1, 0, 0, 1],
        stopped: 0,
    },
    sent: Some((&[], SECOND_OF_C)),
    loads: Some(&[ONE_OF_ONE, ONE_OF_ONE, ONE_OF_ONE, TWO_OF_TWO]),
};

/// An epoch that ended is no backlog, and neither is a sample that only waits for its batch to be
/// full.
#[test]
fn one_series_goes_on_in_the_next_epoch(rt: HostRuntime) {
    assert!(rt; does(&rt, rt.alloc(), &ONE_SERIES));
}

/// In the first epoch two shards have a sample each, in the second one the first of three.
static REFUSED_BEFORE: Row<'static> = Row {
    task: Task {
        shards: 2,
        batch: 2_000,
        calls: &[
            Feed(&FOUR, &[(1, 10, ONE), (2, 10, ONE)], None),
            Reshard(3),
            NextSegment,
            Feed(&[], &[(3, 20, ONE)], None),
            Reshard(2),
        ],
        stop: Stop::Orderly,
        limit: None,
    },
    status: 400,
    receivers: u64::MAX,
    wanted: Wanted {
        faults: &[None, None, None, None, None],
        ending: Ending::Complete(7),
        named: &[
            (1, 4, Reason::Status(400)),
            (1, 5, Reason::Status(400)),
            (1, 6, Reason::Status(400)),
        ],
        resolved: &[3, 0, 0],
        stopped: 0,
    },
    sent: None,
    loads: None,
};

/// What the receiver refused in an epoch that has ended is named, in the order of the shards, and
/// counts once.
#[test]
fn a_past_epoch_leaves_its_names(rt: HostRuntime) {
    assert!(rt; does(&rt, rt.alloc(), &REFUSED_BEFORE));
}

static KEPT_SHARDS: Row<'static> = Row {
    task: Task {
        shards: 2,
        batch: 2_000,
        calls: &[
            Feed(&FOUR, &[(1, 10, ONE), (2, 10, ONE)], None),
            Reshard(3),
            NextSegment,
            Feed(&[], &[(3, 20, ONE), (4, 30, TWO)], None),
        ],
        stop: Stop::Orderly,
        limit: None,
    },
    status: 204,
    receivers: u64::MAX,
    wanted: Wanted {
        faults: &[None, None, None, None],
        ending: Ending::Complete(8),
        named: &[],
        resolved: &[2, 0, 0, 2],
        stopped: 0,
    },
    sent: None,
    loads: None,
};

#[test]
fn series_keep_their_shard_in_an_epoch(rt: HostRuntime) {
    assert!(rt; does(&rt, rt.alloc(), &KEPT_SHARDS));
}

static HARD_STOP: Row<'static> = Row {
    task: Task {
        shards: 1,
        batch: 1,
        calls: &[Feed(&[UP], &[(1, 10, ONE), (1, 20, TWO)], None)],
        stop: Stop::Hard,
        limit: None,
    },
    status: 503,
    receivers: u64::MAX,
    wanted: Wanted {
        faults: &[None],
        ending: Ending::Abandoned(3, &[1, 2]),
        named: &[],
        resolved: &[0, 0],
        stopped: 1,
    },
    sent: None,
    loads: None,
};

/// The receiver has no room.
#[test]
fn a_hard_stop_resolves_nothing_more(rt: HostRuntime) {
    assert!(rt; does(&rt, rt.alloc(), &HARD_STOP));
}

static DAMAGED: Row<'static> = Row {
    task: Task {
        shards: 2,
        batch: 2_000,
        calls: &[Feed(&[UP], &[(1, 10, ONE), (1, 20, TWO)], Some(8))],
        stop: Stop::Orderly,
        limit: None,
    },
    status: 204,
    receivers: u64::MAX,
    wanted: Wanted {
        faults: &[Some(FeedFault::Damaged(TailFault::Compressed))],
        ending: Ending::Damaged(TailFault::Compressed),
        named: &[],
        resolved: &[0, 2, 0],
        stopped: 0,
    },
    sent: None,
    loads: None,
};

/// A log is placed up to its fault.
#[test]
fn a_damaged_log_is_placed_to_its_fault(rt: HostRuntime) {
    assert!(rt; does(&rt, rt.alloc(), &DAMAGED));
}

const REFUSED: Option<FeedFault> = Some(FeedFault::OutOfMemory);

/// The second call fails.
static REFUSED_EPOCH: Row<'static> = Row {
    task: Task {
        shards: 2,
        batch: 2_000,
        calls: &[
            Feed(&[UP], &[(1, 10, ONE)], None),
            Reshard(3),
            Feed(&[], &[(1, 20, TWO)], None),
            Flush,
            Reshard(3),
        ],
        stop: Stop::Orderly,
        limit: None,
    },
    status: 204,
    receivers: 2,
    wanted: Wanted {
        faults: &[None, REFUSED, REFUSED, REFUSED, REFUSED],
        ending: Ending::Abandoned(2, &[]),
        named: &[],
        resolved: &[1],
        stopped: 0,
    },
    sent: None,
    loads: None,
};

/// A shipper that has failed returns its fault from then on, and is then stopped at once.
#[test]
fn a_refused_epoch_ends_the_work(rt: HostRuntime) {
    assert!(rt; does(&rt, rt.alloc(), &REFUSED_EPOCH));
}

/// Four series and two samples, a Flush and one sample more.
const OVER_TWO_EPOCHS: &[Call<'_>] = &[
    Feed(&FOUR, &[(3, 10, ONE)], None),
    Reshard(3),
    NextSegment,
    Feed(&[], &[(4, 20, TWO)], None),
    Flush,
    Feed(&[], &[(4, 30, ONE)], None),
];

static STOPPED: [Task<'static>; 2] = [
    Task {
        shards: 2,
        batch: 2_000,
        calls: OVER_TWO_EPOCHS,
        stop: Stop::Orderly,
        limit: None,
    },
    Task {
        shards: 2,
        batch: 2_000,
        calls: OVER_TWO_EPOCHS,
        stop: Stop::Hard,
        limit: None,
    },
];

/// Returns whether a fault was kept, if there was one, and the report lists just what was placed
/// and is not resolved.
fn is_kept(work: &Work, stop: Stop) -> bool {
    let is_whole = work.has_no_fault();
    let ends = match (is_whole, stop) {
        (true, Stop::Orderly) => ends_so(&work.outcome, Ending::Complete(7)),
        _ => matches!(work.outcome, Outcome::Abandoned { .. }),
    };
    work.accounts_for_all(4) && ends && (is_whole || work.keeps_its_fault())
}

/// Returns whether the fault of a task is kept, or `None` if it does not start, or if there is no
/// memory for the comparison.
fn keeps_its_fault<R: Threads + Wait + Copy + Send + 'static>(
    rt: &R,
    alloc: Global,
    task: &Task<'_>,
) -> Option<bool> {
    let peers = peers_of(alloc, 204, u64::MAX, None).ok()?;
    let (work, _) = done(rt, alloc, task, peers)?;
    Some(is_kept(&work, task.stop))
}

/// Returns the same, with another try if there was none.
fn keeps_any_fault<R: Threads + Wait + Copy + Send + 'static>(
    rt: &R,
    alloc: Global,
    task: &Task<'_>,
) -> bool {
    match keeps_its_fault(rt, alloc, task) {
        Some(is_kept) => is_kept,
        None => keeps_its_fault(rt, alloc, task) == Some(true),
    }
}

/// Holds whichever allocation fails; `tools/refuse-each` lets each of them fail in turn. A call
/// that fails is never skipped, its fault is kept, and the report lists just what is not resolved.
#[test]
fn a_fault_is_kept(rt: HostRuntime) {
    for task in &STOPPED {
        assert!(rt; keeps_any_fault(&rt, rt.alloc(), task));
    }
}

/// Feeds one segment after another until that fails, and returns the fault.
fn fault_of_feeds<R: Wait>(
    rt: &R,
    alloc: Global,
    shipper: &mut Shipper<Peers>,
) -> Option<FeedFault> {
    for t in 1..100_000 {
        if let Err(fault) = shipper.feed(rt, Piece::NextSegment) {
            return Some(fault);
        }
        let log = segment(alloc, &[UP], &[(1, t, ONE)]).ok()?;
        if let Err(fault) = shipper.feed(rt, Piece::Bytes(log)) {
            return Some(fault);
        }
        thread::yield_now();
    }
    None
}

/// Sets the flag of a worker whose receiver is always busy, and returns the fault of the feeds
/// after that, or of a reshard.
fn fault_after_flag<R: Threads + Wait + Copy + Send + 'static>(
    rt: &R,
    alloc: Global,
    is_reshard: bool,
) -> Result<Option<FeedFault>, AllocError> {
    let log = segment(alloc, &[UP], &[(1, 0, ONE)])?;
    let peers = peers_of(alloc, 503, u64::MAX, None)?;
    let stop = StopFlag::new(alloc)?;
    let flag = stop.share()?;
    let Some(config) = config_of(alloc, 1, 1) else {
        return Ok(None);
    };
    let mut shipper = Shipper::start_within(rt, alloc, config, peers, None, stop)?;
    let fed = shipper.feed(rt, Piece::Bytes(log));
    flag.set();
    let fault = match fed {
        Err(fault) => Some(fault),
        Ok(()) if is_reshard => shipper.reshard(rt, 2).err(),
        Ok(()) => fault_of_feeds(rt, alloc, &mut shipper),
    };
    shipper.stop_hard(rt);
    Ok(fault)
}

/// It is no lack of memory.
#[test]
fn a_worker_that_is_stopped_has_gone(rt: HostRuntime) {
    for is_reshard in [false, true] {
        let fault = fault_after_flag(&rt, rt.alloc(), is_reshard);
        assert_eq!(rt; fault, Ok(Some(FeedFault::Gone)));
    }
}

static NO_CALLS: Task<'static> = Task {
    shards: 2,
    batch: 1,
    calls: &[],
    stop: Stop::Hard,
    limit: None,
};

/// Returns whether a shipper of two shards does not start if there is memory for this number of
/// receivers, and keeps no share of what the receivers share.
fn leaves_nothing<R: Threads + Wait + Copy + Send + 'static>(
    rt: &R,
    alloc: Global,
    receivers: u64,
) -> Result<bool, AllocError> {
    let peers = peers_of(alloc, 204, receivers, Some(0))?;
    let shared = peers.has_answered.clone()?;
    let is_refused = done(rt, alloc, &NO_CALLS, peers).is_none();
    Ok(is_refused && Arc::into_inner(shared).is_some())
}

/// The receiver of the first shard cannot be made, or that of the second one, after the first shard
/// has its worker.
#[test]
fn a_refused_start(rt: HostRuntime) -> Result<(), Fail> {
    for receivers in [0, 1] {
        assert!(rt; leaves_nothing(&rt, rt.alloc(), receivers)?);
    }
    Ok(())
}

/// A sample for each of two shards.
static ONE_EACH: Task<'static> = Task {
    shards: 2,
    batch: 1,
    calls: &[Feed(&FOUR, &[(1, 10, ONE), (2, 20, TWO)], None)],
    stop: Stop::Orderly,
    limit: None,
};

/// Returns whether each of two shards makes one request, if the receiver of this shard is held
/// until the other one has answered.
fn send_at_once<R: Threads + Wait + Copy + Send + 'static>(
    rt: &R,
    alloc: Global,
    shard: u32,
) -> Result<bool, AllocError> {
    let peers = peers_of(alloc, 204, u64::MAX, Some(shard))?;
    let Some((work, peers)) = done(rt, alloc, &ONE_EACH, peers) else {
        return Ok(false);
    };
    let is_one_each = match peers.as_slice() {
        [first, second] => first.requests().len() == 1 && second.requests().len() == 1,
        _ => false,
    };
    Ok(is_one_each && ends_so(&work.outcome, Ending::Complete(6)))
}

/// A request that has waited for too long would be made once more.
#[test]
fn workers_send_at_once(rt: HostRuntime) -> Result<(), Fail> {
    for shard in [0, 1] {
        assert!(rt; send_at_once(&rt, rt.alloc(), shard)?);
    }
    Ok(())
}

/// Returns whether this load is reported in time.
fn comes_to(shipper: &Shipper<Peers>, load: Load) -> bool {
    for _ in 0..TURNS {
        thread::yield_now();
        if shipper.load() == load {
            return true;
        }
    }
    false
}

/// How many shards there are, how many samples a batch has, what is fed at once, and which load is
/// to be reported in time then.
type Fed<'a> = (u64, u64, Samples<'a>, Load);

/// Returns whether it is, with no call after the one that fed. The log is damaged if there is a
/// byte after it.
fn resolves_in_time<R: Threads + Wait + Copy + Send + 'static>(
    rt: &R,
    alloc: Global,
    fed: &Fed<'_>,
    wrong_byte: Option<u8>,
) -> Result<bool, AllocError> {
    let mut log = segment(alloc, &FOUR, fed.2)?;
    if let Some(byte) = wrong_byte {
        log.push(byte)?;
    }
    let peers = peers_of(alloc, 204, u64::MAX, None)?;
    let Some(config) = config_of(alloc, fed.0, fed.1) else {
        return Ok(false);
    };
    let mut shipper = Shipper::start(rt, alloc, config, peers)?;
    let is_fed = shipper.feed(rt, Piece::Bytes(log)).is_ok() == wrong_byte.is_none();
    let is_so = is_fed && comes_to(&shipper, fed.3);
    shipper.stop_hard(rt);
    Ok(is_so)
}

/// What was fed is with the workers, and they report what they have done.
#[test]
fn a_fed_sample_is_resolved_without_a_flush(rt: HostRuntime) {
    let fed = (2, 1, [(1, 10, ONE), (2, 20, TWO)].as_slice(), TWO_OF_TWO);
    assert_eq!(rt; resolves_in_time(&rt, rt.alloc(), &fed, None), Ok(true));
}

/// The same of a log that is damaged after its samples.
#[test]
fn a_sample_before_a_fault_is_resolved_without_a_flush(rt: HostRuntime) {
    let fed = (2, 1, [(1, 10, ONE), (2, 20, TWO)].as_slice(), TWO_OF_TWO);
    assert_eq!(rt; resolves_in_time(&rt, rt.alloc(), &fed, Some(8)), Ok(true));
}

/// The last sample waits for another one to be sent with, after a batch that is acknowledged.
#[test]
fn a_sample_that_waits_for_a_full_batch_is_no_backlog(rt: HostRuntime) {
    let fed = (
        1,
        2,
        [(1, 10, ONE), (1, 20, TWO), (1, 30, ONE)].as_slice(),
        THREE_OF_THREE,
    );
    assert_eq!(rt; resolves_in_time(&rt, rt.alloc(), &fed, None), Ok(true));
}

/// Returns the latest timestamp that a shipper reports before it is fed samples, and after that.
fn newest_of<R: Threads + Wait + Copy + Send + 'static>(
    rt: &R,
    alloc: Global,
    samples: Samples<'_>,
) -> Result<Option<(i64, i64)>, AllocError> {
    let log = segment(alloc, &FOUR, samples)?;
    let peers = peers_of(alloc, 204, u64::MAX, None)?;
    let Some(config) = config_of(alloc, 2, 1) else {
        return Ok(None);
    };
    let mut shipper = Shipper::start(rt, alloc, config, peers)?;
    let before = shipper.newest();
    let is_fed = shipper.feed(rt, Piece::Bytes(log)).is_ok();
    let after = shipper.newest();
    shipper.stop_hard(rt);
    Ok(if is_fed { Some((before, after)) } else { None })
}

/// A later sample of another series is older, and the last one has no series.
#[test]
fn the_newest_is_the_latest_that_was_put(rt: HostRuntime) {
    let samples = [(1, 30, ONE), (2, 20, TWO), (9, 40, ONE)];
    let newest = newest_of(&rt, rt.alloc(), &samples);
    assert_eq!(rt; newest, Ok(Some((i64::MIN, 30))));
}

/// Returns whether a sample that a flush cut off is reported as waiting, if its receiver is busy.
fn waits_in_time<R: Threads + Wait + Copy + Send + 'static>(
    rt: &R,
    alloc: Global,
) -> Result<bool, AllocError> {
    let log = segment(alloc, &FOUR, &[(1, 10, ONE)])?;
    let peers = peers_of(alloc, 503, u64::MAX, None)?;
    let Some(config) = config_of(alloc, 1, 2_000) else {
        return Ok(false);
    };
    let mut shipper = Shipper::start(rt, alloc, config, peers)?;
    let is_fed = shipper.feed(rt, Piece::Bytes(log)).is_ok() && shipper.flush(rt).is_ok();
    let is_so = is_fed && comes_to(&shipper, ONE_WAITS);
    shipper.stop_hard(rt);
    Ok(is_so)
}

/// A batch that was cut before it was full waits for its receiver, and not for more samples.
#[test]
fn a_batch_that_was_cut_waits(rt: HostRuntime) {
    assert_eq!(rt; waits_in_time(&rt, rt.alloc()), Ok(true));
}

/// Two samples of one series, each of which counts 31 bytes, though the body of both takes 44.
const SHORT: &[Call<'static>] = &[Feed(&[UP], &[(1, 10, ONE), (1, 20, TWO)], None)];

/// A sample of each of three metrics whose names have 200 bytes: each counts 232 bytes.
const LARGE: &[Call<'static>] = &[Feed(&LONG, &[(1, 10, ONE), (2, 10, ONE), (3, 10, ONE)], None)];

/// What is called and how many entries that places, how many bytes a batch may take, and how many
/// each body takes.
static LIMITED: [(&str, (&[Call<'static>], u64), Option<u64>, &[usize]); 9] = [
    ("no limit", (SHORT, 3), None, &[44]),
    ("both samples", (SHORT, 3), Some(62), &[44]),
    ("a byte less than both", (SHORT, 3), Some(61), &[31, 31]),
    ("a byte", (SHORT, 3), Some(1), &[31, 31]),
    ("large, no limit", (LARGE, 6), None, &[696]),
    ("large, all three", (LARGE, 6), Some(696), &[696]),
    ("large, all less one", (LARGE, 6), Some(695), &[464, 232]),
    (
        "large, two less one",
        (LARGE, 6),
        Some(463),
        &[232, 232, 232],
    ),
    ("large, a byte", (LARGE, 6), Some(1), &[232, 232, 232]),
];

/// Returns how many bytes are after the empty line of a request.
fn body_len(request: &[u8]) -> usize {
    for i in 0..request.len() {
        let rest = &request[i..];
        if rest.starts_with(b"\r\n\r\n") {
            return rest.len().saturating_sub(4);
        }
    }
    0
}

/// Returns whether the bodies of the requests have these lengths.
fn has_lens(peer: &Peer, lens: &[usize]) -> bool {
    for (request, len) in peer.requests().iter().zip(lens) {
        if body_len(request) != *len {
            return false;
        }
    }
    peer.requests().len() == lens.len()
}

/// Returns whether everything is sent, in bodies of these lengths, if batches have this limit.
fn sends_in<R: Threads + Wait + Copy + Send + 'static>(
    rt: &R,
    alloc: Global,
    task: &Task<'_>,
    placed: u64,
    lens: &[usize],
) -> bool {
    let Ok(peers) = peers_of(alloc, 204, u64::MAX, None) else {
        return false;
    };
    let Some((work, peers)) = done(rt, alloc, task, peers) else {
        return false;
    };
    match peers.as_slice() {
        [peer] => has_lens(peer, lens) && ends_so(&work.outcome, Ending::Complete(placed)),
        _ => false,
    }
}

/// Returns the first limit at which not everything is sent as it says.
fn wrong_limit<R: Threads + Wait + Copy + Send + 'static>(
    rt: &R,
    alloc: Global,
) -> Option<&'static str> {
    for (name, (calls, placed), limit, lens) in &LIMITED {
        let task = Task {
            shards: 1,
            batch: 2_000,
            calls,
            stop: Stop::Orderly,
            limit: *limit,
        };
        if !sends_in(rt, alloc, &task, *placed, lens) {
            return Some(name);
        }
    }
    None
}

#[test]
fn batches_keep_a_limit(rt: HostRuntime) {
    assert_eq!(rt; wrong_limit(&rt, rt.alloc()), None);
}

//! Logs that are shipped while they grow.

use crate::countdown::{Countdown, Onlooker};
use crate::counted::tells_as_printed;
use crate::logs::{UP, segment};
use crate::receivers::Receivers;
use crate::rows::none_is_wrong;
use Part::{Cut, Gap, More, Next, Padded, Quiet, Rest};
use http::StatusCode;
use rw_follow::{Event, Listed, StopRequest, StopSignal, Timed, Watch};
use rw_metrics::SendCounters;
use rw_send::{FollowFault, LogOptions, RunFault, SendOptions, StopFlag, run_follow};
use rw_settings::{Settings, read_settings};
use rw_text::ToolFault;
use rw_types::Room;
use rw_wal_tail::{FaultPlace, TailFault};
use std::alloc::{AllocError, Global};
use std::collections::VecDeque;
use std::sync::{Arc, Wait};
use std::test::Fail;
use std::thread::{self, Threads};
use std::time::{Clock, Duration};

/// What happens to a log, whose bytes are written as log text.
#[derive(Clone, Copy)]
enum Part<'a> {
    Quiet,
    /// The current segment grows by this.
    More(&'a [u8]),
    /// The same, with zeros to the end of its page.
    Padded(&'a [u8]),
    /// The same, up to this byte of it, and from there on.
    Cut(&'a [u8], usize),
    Rest(&'a [u8], usize),
    /// A segment comes.
    Next(&'a [u8]),
    /// The segment of this number is missing.
    Gap(u64),
}

/// A sample later than that of `UP`.
const LATER: &[u8] = b"sample 1 2000 2\n";

const PAGE_BYTES: usize = 32_768;

fn padded(alloc: Global, text: &[u8]) -> Result<Vec<u8>, AllocError> {
    let mut bytes = segment(alloc, text)?;
    for _ in bytes.len()..PAGE_BYTES {
        bytes.push(0)?;
    }
    Ok(bytes)
}

fn rest(alloc: Global, text: &[u8], at: usize) -> Result<Vec<u8>, AllocError> {
    let bytes = segment(alloc, text)?;
    let at = at.min(bytes.len());
    Vec::from_slice(alloc, &bytes[at..])
}

fn cut(alloc: Global, text: &[u8], at: usize) -> Result<Vec<u8>, AllocError> {
    let mut bytes = segment(alloc, text)?;
    bytes.truncate(at);
    Ok(bytes)
}

fn event_of(alloc: Global, part: Part<'_>) -> Result<Event, AllocError> {
    Ok(match part {
        Quiet => Event::Quiet,
        More(text) => Event::More(segment(alloc, text)?),
        Padded(text) => Event::More(padded(alloc, text)?),
        Cut(text, at) => Event::More(cut(alloc, text, at)?),
        Rest(text, at) => Event::More(rest(alloc, text, at)?),
        Next(text) => Event::Next(segment(alloc, text)?),
        Gap(number) => Event::Gap(number),
    })
}

fn put_events(
    alloc: Global,
    events: &mut VecDeque<Event>,
    parts: &[Part<'_>],
) -> Result<(), AllocError> {
    for part in parts {
        events.push_back(event_of(alloc, *part)?)?;
    }
    Ok(())
}

fn log_of(alloc: Global, parts: &[Part<'_>]) -> Result<Listed, AllocError> {
    let mut events = VecDeque::new(alloc);
    put_events(alloc, &mut events, parts)?;
    Ok(Listed::new(alloc, events))
}

pub(crate) fn settings_of(alloc: Global, text: &[u8]) -> Result<Settings, AllocError> {
    match read_settings(alloc, text) {
        Ok(settings) => Ok(settings),
        Err(_) => Err(AllocError),
    }
}

/// Follows a log in memory.
fn follow<R: Threads + Wait + Clock + Copy + Send + 'static, W: Watch>(
    rt: &R,
    alloc: Global,
    settings: Settings,
    parts: &[Part<'_>],
    options: SendOptions<'_, Receivers<R>>,
    watch: &mut W,
    printed: &mut Room,
) -> Result<Result<(), RunFault>, AllocError> {
    let mut log = log_of(alloc, parts)?;
    Ok(run_follow(rt, alloc, settings, &mut log, options, watch, printed))
}

/// Returns receivers that answer one request with this status at once. They refuse each later one.
fn receivers_of<R: Copy>(clock: &R, status: StatusCode) -> Receivers<R> {
    Receivers {
        clock: *clock,
        status,
        takes: Duration::ZERO,
        requests: 1,
        epochs: u64::MAX,
    }
}

/// A log that is followed, and how that ends.
struct Row<'a> {
    name: &'static str,
    log: &'a [Part<'a>],
    /// How many looks at the stop signal come before it asks for something.
    looks: u32,
    asks: StopRequest,
    answer: Result<(), RunFault>,
    prints: &'a [u8],
}

/// The second record of `UP`: the first one has 22 bytes after its header of 7.
const SECOND_RECORD: Option<FaultPlace> = Some(FaultPlace {
    segment: 0,
    offset: 29,
});

/// The end of `UP`: its second record has 27 bytes after its header.
const AFTER_UP: Option<FaultPlace> = Some(FaultPlace {
    segment: 0,
    offset: 63,
});

/// Returns whether a run was stopped at once.
fn is_stopped_at_once(answer: &Result<(), RunFault>) -> bool {
    match answer {
        Ok(()) => false,
        Err(ended) => ended.fault == FollowFault::Stopped,
    }
}

/// Returns whether a run that is answered so has to end before it is asked to stop: a log that is
/// damaged, or that lacks a segment, is not followed any further.
fn ends_unasked(answer: &Result<(), RunFault>) -> bool {
    match answer {
        Ok(()) => false,
        Err(ended) => ended.fault != FollowFault::Stopped,
    }
}

/// Returns whether a run with this limit in bytes does as a row says, if the number of shards is
/// adjusted at each turn, or never.
fn does<R: Threads + Wait + Clock + Copy + Send + 'static>(
    rt: &R,
    alloc: Global,
    row: &Row<'_>,
    reshards: bool,
    limit: Option<u64>,
) -> Result<bool, AllocError> {
    let settings = settings_of(alloc, b"")?;
    let mut printed = Room::new(alloc, 4096)?;
    let mut watch = Countdown {
        looks: row.looks,
        request: row.asks,
        flushes: false,
        reshards,
        said: StopRequest::Continue,
        sleeps: 0,
    };
    let counters = SendCounters::new(alloc)?;
    let options = SendOptions {
        connect: receivers_of(rt, StatusCode::NO_CONTENT),
        counters: &counters,
        max_batch_bytes: limit,
        max_skew: None,
        reading: LogOptions::without_labels(false),
        stop: StopFlag::new(alloc)?,
    };
    let answer = follow(
        rt,
        alloc,
        settings,
        row.log,
        options,
        &mut watch,
        &mut printed,
    )?;
    let is_counted = tells_as_printed(alloc, &counters, row.prints);
    let is_unasked = watch.said == StopRequest::Continue;
    Ok(
        answer == row.answer
            && printed.as_slice() == row.prints
            && is_counted
            && is_unasked == ends_unasked(&row.answer),
    )
}

fn wrong_row<R: Threads + Wait + Clock + Copy + Send + 'static>(
    rt: &R,
    alloc: Global,
    rows: &[Row<'_>],
) -> Result<Option<&'static str>, AllocError> {
    for row in rows {
        if !does(rt, alloc, row, false, None)? || !does(rt, alloc, row, true, None)? {
            return Ok(Some(row.name));
        }
    }
    Ok(None)
}

static SHIPPED: [Row<'static>; 11] = [
    Row {
        name: "nothing",
        log: &[],
        looks: 2,
        asks: StopRequest::Finish,
        answer: Ok(()),
        prints: b"filtered 0\nreport complete 0\n",
    },
    Row {
        name: "one sample",
        log: &[More(UP)],
        looks: 5,
        asks: StopRequest::Finish,
        answer: Ok(()),
        prints: b"filtered 0\nreport complete 2\n",
    },
    Row {
        name: "two pieces make one request",
        log: &[More(UP), Quiet, More(LATER)],
        looks: 5,
        asks: StopRequest::Finish,
        answer: Ok(()),
        prints: b"filtered 0\nreport complete 3\n",
    },
    Row {
        name: "stopped before the first look",
        log: &[More(UP)],
        looks: 0,
        asks: StopRequest::Finish,
        answer: Ok(()),
        prints: b"filtered 0\nreport complete 2\n",
    },
    Row {
        name: "a record comes in two parts",
        log: &[Cut(UP, 34), Quiet, Quiet, Rest(UP, 34)],
        looks: 5,
        asks: StopRequest::Finish,
        answer: Ok(()),
        prints: b"filtered 0\nreport complete 2\n",
    },
    Row {
        name: "a segment ends at a page's end",
        log: &[Padded(UP), Quiet, Next(LATER)],
        looks: 5,
        asks: StopRequest::Finish,
        answer: Ok(()),
        prints: b"filtered 0\nreport complete 3\n",
    },
    Row {
        name: "a segment ends within a page",
        log: &[More(UP), Quiet, Next(LATER)],
        looks: 5,
        asks: StopRequest::Finish,
        answer: Ok(()),
        prints: b"filtered 0\nreport complete 3\n",
    },
    Row {
        name: "a segment ends within a record",
        log: &[Cut(UP, 34), Quiet, Next(LATER)],
        looks: 1000,
        asks: StopRequest::Finish,
        answer: Err(RunFault {
            fault: FollowFault::Tool(ToolFault::Log(TailFault::TornSegment)),
            place: SECOND_RECORD,
        }),
        prints: b"filtered 0\nreport damaged 8\n",
    },
    Row {
        name: "a byte is missing within a record",
        log: &[More(UP), Quiet, Cut(UP, 20), Rest(UP, 21)],
        looks: 1000,
        asks: StopRequest::Finish,
        answer: Err(RunFault {
            fault: FollowFault::Tool(ToolFault::Log(TailFault::BadCrc)),
            place: AFTER_UP,
        }),
        prints: b"filtered 0\nreport damaged 3\n",
    },
    Row {
        name: "a segment is missing",
        log: &[More(UP), Quiet, Gap(3)],
        looks: 1000,
        asks: StopRequest::Finish,
        answer: Err(RunFault {
            fault: FollowFault::Missing(3),
            place: None,
        }),
        prints: b"filtered 0\nabandoned 1\nreport abandoned 2\n",
    },
    Row {
        name: "stopped at once",
        log: &[More(UP)],
        looks: 3,
        asks: StopRequest::Abort,
        answer: Err(RunFault {
            fault: FollowFault::Stopped,
            place: None,
        }),
        prints: b"filtered 0\nabandoned 1\nreport abandoned 2\n",
    },
];

#[test]
fn logs_are_shipped(rt: HostRuntime) -> Result<(), Fail> {
    none_is_wrong(&rt, wrong_row(&rt, rt.alloc(), &SHIPPED)?);
    Ok(())
}

/// Follows a log of one sample for some looks by the clock, and is stopped at once if the counters
/// then say that nothing waits.
fn flushed<R: Threads + Wait + Clock + Copy + Send + 'static>(
    rt: &R,
    alloc: Global,
    printed: &mut Room,
) -> Result<Result<(), RunFault>, AllocError> {
    let settings = settings_of(alloc, b"")?;
    let counters = SendCounters::new(alloc)?;
    let signal = Arc::new(alloc, StopSignal::new())?;
    let poll = Duration::from_millis(5);
    let patience = Duration::from_millis(20);
    let reshard = Duration::from_secs(3600);
    let mut watch = Onlooker {
        alloc,
        counters: &counters,
        looks: 200,
        timed: Timed::new(*rt, signal, poll, patience, reshard),
        said: StopRequest::Continue,
        is_due: false,
    };
    let options = SendOptions {
        connect: receivers_of(rt, StatusCode::BAD_REQUEST),
        counters: &counters,
        max_batch_bytes: None,
        max_skew: None,
        reading: LogOptions::without_labels(false),
        stop: StopFlag::new(alloc)?,
    };
    follow(
        rt,
        alloc,
        settings,
        &[More(UP)],
        options,
        &mut watch,
        printed,
    )
}

/// The sample of a quiet log is sent though no batch is full.
#[test]
fn a_quiet_log_is_flushed(rt: HostRuntime) -> Result<(), Fail> {
    let mut printed = Room::new(rt.alloc(), 4096)?;
    let answer = flushed(&rt, rt.alloc(), &mut printed)?;
    let is_so = printed.as_slice()
        == b"dropped 1 status 400\nfiltered 0\nreport abandoned 2\n".as_slice();
    assert!(rt; is_so && is_stopped_at_once(&answer));
    Ok(())
}

/// Asks to finish, and later to end at once; the flag of the workers is set after the signal.
fn stop_twice<R: Clock>(rt: &R, signal: &StopSignal, workers: &StopFlag) {
    thread::sleep(rt, Duration::from_millis(200));
    signal.finish();
    thread::sleep(rt, Duration::from_millis(200));
    signal.abort();
    workers.set();
}

/// Follows a log while its receiver is always busy, until the signal or the flag of the workers
/// ends that.
fn follow_in_vain<R: Threads + Wait + Clock + Copy + Send + 'static>(
    rt: &R,
    alloc: Global,
    text: &[u8],
    signal: Arc<StopSignal, Global>,
    stop: StopFlag,
    printed: &mut Room,
) -> Result<Result<(), RunFault>, AllocError> {
    let settings = settings_of(alloc, b"[send]\ncapacity = 1\nbatch = 1\n")?;
    let counters = SendCounters::new(alloc)?;
    let moment = Duration::from_millis(5);
    let mut watch = Timed::new(*rt, signal, moment, moment, moment);
    let options = SendOptions {
        connect: Receivers {
            clock: *rt,
            status: StatusCode::SERVICE_UNAVAILABLE,
            takes: moment,
            requests: u64::MAX,
            epochs: u64::MAX,
        },
        counters: &counters,
        max_batch_bytes: None,
        max_skew: None,
        reading: LogOptions::without_labels(false),
        stop,
    };
    follow(
        rt,
        alloc,
        settings,
        &[More(text)],
        options,
        &mut watch,
        printed,
    )
}

/// Follows a log whose receiver is always busy, and is stopped twice.
fn stopped_twice<R: Threads + Wait + Clock + Copy + Send + Sync + 'static>(
    rt: &R,
    alloc: Global,
    text: &[u8],
    printed: &mut Room,
) -> Result<Result<(), RunFault>, AllocError> {
    let stop = StopFlag::new(alloc)?;
    let workers = stop.share()?;
    let signal = Arc::new(alloc, StopSignal::new())?;
    let seen = Arc::try_clone(&signal)?;
    let (answer, ()) = thread::join(
        rt,
        || follow_in_vain(rt, alloc, text, seen, stop, printed),
        || stop_twice(rt, &signal, &workers),
    );
    answer
}

/// Samples of one series: more than a queue and a batch of one have room for.
const FOUR: &[u8] =
    b"series 1 {__name__=\"up\"}\nsample 1 10 1\nsample 1 20 1\nsample 1 30 1\nsample 1 40 1\n";

/// Its receiver takes one request. A message of one sample takes 31 bytes.
static LIMITED: Row<'static> = Row {
    name: "two samples make a request",
    log: &[More(FOUR)],
    looks: 5,
    asks: StopRequest::Finish,
    answer: Ok(()),
    prints: b"dropped 3 status 400\ndropped 4 status 400\nfiltered 0\nreport complete 5\n",
};

/// The samples of a batch have a limit in bytes, if the options of a run have one.
#[test]
fn a_followed_log_keeps_its_limit(rt: HostRuntime) -> Result<(), Fail> {
    assert!(rt; does(&rt, rt.alloc(), &LIMITED, false, Some(62))?);
    Ok(())
}

/// Returns whether a log is stopped at once though its receiver is away.
fn is_stopped<R: Threads + Wait + Clock + Copy + Send + Sync + 'static>(
    rt: &R,
    alloc: Global,
    text: &[u8],
) -> Result<bool, AllocError> {
    let mut printed = Room::new(alloc, 4096)?;
    let answer = stopped_twice(rt, alloc, text, &mut printed)?;
    let is_printed = printed
        .as_slice()
        .starts_with(b"filtered 0\nabandoned 1\n".as_slice());
    Ok(is_printed && is_stopped_at_once(&answer))
}

/// A stop at once is seen while the end in order waits for the receiver, and while a full queue is
/// waited for.
#[test]
fn a_receiver_that_is_away_hides_no_stop(rt: HostRuntime) -> Result<(), Fail> {
    assert!(rt;
        is_stopped(&rt, rt.alloc(), UP)?,
        "a sample waits for its answer"
    );
    assert!(rt; is_stopped(&rt, rt.alloc(), FOUR)?, "a queue is full");
    Ok(())
}

/// The sample of a second segment, after those of `FOUR`.
const ONE_MORE: &[u8] = b"sample 1 50 1\n";

const NARROW: &[u8] = b"[send]\ncapacity = 1\nbatch = 1\n";

const ONE_SHARD: &[u8] = b"[send]\ncapacity = 1\nbatch = 1\nmax_shards = 1\n";

const THREE_SHARDS: &[u8] =
    b"[send]\ncapacity = 1\nbatch = 1\nshards = 3\nmin_shards = 3\nmax_shards = 3\n";

/// What is set and what happens to a log, and how it is followed.
struct ShardsRow<'a> {
    name: &'static str,
    settings: &'a [u8],
    happens: &'a [Part<'a>],
    /// Whether the clock asks for the number of shards at each turn.
    asks: bool,
    /// There is no memory for the shards of the epochs from this one on.
    epochs: u64,
    answer: Result<(), RunFault>,
    printed: &'a [u8],
    /// How many shards the counters have at the end, if the load does not decide.
    shards: Option<u64>,
}

/// Returns whether the counters have as many shards as a row says.
fn has_shards(alloc: Global, counters: &SendCounters, row: &ShardsRow<'_>) -> bool {
    let Some(shards) = row.shards else {
        return true;
    };
    match counters.numbers(alloc) {
        Ok(numbers) => numbers.shards == shards,
        Err(_) => false,
    }
}

/// Returns whether a log is followed as a row says, if its receivers are slow.
fn has_its_shards<R: Threads + Wait + Clock + Copy + Send + 'static>(
    rt: &R,
    alloc: Global,
    row: &ShardsRow<'_>,
) -> Result<bool, AllocError> {
    let settings = settings_of(alloc, row.settings)?;
    let mut printed = Room::new(alloc, 4096)?;
    let mut watch = Countdown {
        looks: 9,
        request: StopRequest::Finish,
        flushes: false,
        reshards: row.asks,
        said: StopRequest::Continue,
        sleeps: 0,
    };
    let counters = SendCounters::new(alloc)?;
    let options = SendOptions {
        connect: Receivers {
            clock: *rt,
            status: StatusCode::NO_CONTENT,
            takes: Duration::from_millis(300),
            requests: u64::MAX,
            epochs: row.epochs,
        },
        counters: &counters,
        max_batch_bytes: None,
        max_skew: None,
        reading: LogOptions::without_labels(false),
        stop: StopFlag::new(alloc)?,
    };
    let answer = follow(
        rt,
        alloc,
        settings,
        row.happens,
        options,
        &mut watch,
        &mut printed,
    )?;
    let is_counted = has_shards(alloc, &counters, row);
    Ok(answer == row.answer && printed.as_slice() == row.printed && is_counted)
}

static SHARDS: [ShardsRow<'static>; 7] = [
    ShardsRow {
        name: "a segment ends, and there is no memory for more shards",
        settings: NARROW,
        happens: &[More(FOUR), Quiet, Next(ONE_MORE)],
        asks: false,
        epochs: 1,
        answer: Err(RunFault {
            fault: FollowFault::Tool(ToolFault::OutOfMemory),
            place: None,
        }),
        printed: b"filtered 0\nreport abandoned 5\n",
        shards: Some(1),
    },
    ShardsRow {
        name: "a segment ends, and more shards take over",
        settings: NARROW,
        happens: &[More(FOUR), Quiet, Next(ONE_MORE)],
        asks: false,
        epochs: 2,
        answer: Ok(()),
        printed: b"filtered 0\nreport complete 6\n",
        shards: None,
    },
    ShardsRow {
        name: "the clock asks, and there is no memory for more shards",
        settings: NARROW,
        happens: &[More(FOUR)],
        asks: true,
        epochs: 1,
        answer: Err(RunFault {
            fault: FollowFault::Tool(ToolFault::OutOfMemory),
            place: None,
        }),
        printed: b"filtered 0\nreport abandoned 5\n",
        shards: Some(1),
    },
    ShardsRow {
        name: "the clock asks, and more shards take over",
        settings: NARROW,
        happens: &[More(FOUR)],
        asks: true,
        epochs: u64::MAX,
        answer: Ok(()),
        printed: b"filtered 0\nreport complete 5\n",
        shards: None,
    },
    ShardsRow {
        name: "no segment ends, and the clock does not ask",
        settings: NARROW,
        happens: &[More(FOUR)],
        asks: false,
        epochs: 1,
        answer: Ok(()),
        printed: b"filtered 0\nreport complete 5\n",
        shards: Some(1),
    },
    ShardsRow {
        name: "one shard alone is allowed",
        settings: ONE_SHARD,
        happens: &[More(FOUR), Quiet, Next(ONE_MORE)],
        asks: true,
        epochs: 1,
        answer: Ok(()),
        printed: b"filtered 0\nreport complete 6\n",
        shards: Some(1),
    },
    ShardsRow {
        name: "three shards alone are allowed",
        settings: THREE_SHARDS,
        happens: &[More(FOUR), Quiet, Next(ONE_MORE)],
        asks: true,
        epochs: 1,
        answer: Ok(()),
        printed: b"filtered 0\nreport complete 6\n",
        shards: Some(3),
    },
];

fn wrong_shards<R: Threads + Wait + Clock + Copy + Send + 'static>(
    rt: &R,
    alloc: Global,
    rows: &[ShardsRow<'_>],
) -> Result<Option<&'static str>, AllocError> {
    for row in rows {
        if !has_its_shards(rt, alloc, row)? {
            return Ok(Some(row.name));
        }
    }
    Ok(None)
}

/// A queue and a batch of one sample each: if the receiver is slow, two of four samples may wait,
/// so one shard is to become more at the end of a segment, and if the clock asks. If there is no
/// memory for them, the work ends.
#[test]
fn a_followed_log_has_as_many_shards_as_its_load_wants(rt: HostRuntime) -> Result<(), Fail> {
    none_is_wrong(&rt, wrong_shards(&rt, rt.alloc(), &SHARDS)?);
    Ok(())
}

/// The definition of `{__name__="one", l="xx.."}`, with forty letters, and the sample 1, as
/// Prometheus 2.42 wrote them with its default flags: each record is a Snappy block.
const BLOCKS: [u8; 69] = [
    0x09, 0x00, 0x1d, 0xae, 0x82, 0x08, 0xa3, 0x42, 0x04, 0x01, 0x00, 0x09, 0x01, 0x48, 0x01, 0x02,
    0x08, 0x5f, 0x5f, 0x6e, 0x61, 0x6d, 0x65, 0x5f, 0x5f, 0x03, 0x6f, 0x6e, 0x65, 0x01, 0x6c, 0x28,
    0x78, 0x9a, 0x01, 0x00, 0x09, 0x00, 0x1a, 0xfa, 0xf9, 0xb0, 0x32, 0x1b, 0x04, 0x02, 0x00, 0x09,
    0x01, 0x48, 0x01, 0x00, 0x00, 0x01, 0xa2, 0x2c, 0x90, 0x8d, 0xda, 0x00, 0x00, 0x3f, 0xf0, 0x00,
    0x00, 0x00, 0x00, 0x00, 0x00,
];

/// Ships them, with the option that reads them or without it.
fn ship_blocks<R: Threads + Wait + Clock + Copy + Send + 'static>(
    rt: &R,
    alloc: Global,
    may_compress: bool,
    printed: &mut Room,
) -> Result<Result<(), RunFault>, AllocError> {
    let settings = settings_of(alloc, b"")?;
    let counters = SendCounters::new(alloc)?;
    let mut watch = Countdown {
        looks: 5,
        request: StopRequest::Finish,
        flushes: false,
        reshards: false,
        said: StopRequest::Continue,
        sleeps: 0,
    };
    let options = SendOptions {
        connect: receivers_of(rt, StatusCode::NO_CONTENT),
        counters: &counters,
        max_batch_bytes: None,
        max_skew: None,
        reading: LogOptions::without_labels(may_compress),
        stop: StopFlag::new(alloc)?,
    };
    let mut events = VecDeque::new(alloc);
    events.push_back(Event::More(Vec::from_slice(alloc, &BLOCKS)?))?;
    let mut log = Listed::new(alloc, events);
    Ok(run_follow(rt, alloc, settings, &mut log, options, &mut watch, printed))
}

/// The log of a Prometheus with its default flags.
#[test]
fn a_log_of_blocks_is_shipped(rt: HostRuntime) -> Result<(), Fail> {
    let mut printed = Room::new(rt.alloc(), 4096)?;
    let answer = ship_blocks(&rt, rt.alloc(), true, &mut printed)?;
    assert!(rt; answer == Ok(()));
    assert!(rt; printed.as_slice() == b"filtered 0\nreport complete 2\n".as_slice());
    Ok(())
}

#[test]
fn without_the_option_a_block_is_a_fault(rt: HostRuntime) -> Result<(), Fail> {
    let mut printed = Room::new(rt.alloc(), 4096)?;
    let answer = ship_blocks(&rt, rt.alloc(), false, &mut printed)?;
    let refused = RunFault {
        fault: FollowFault::Tool(ToolFault::Log(TailFault::Compressed)),
        place: Some(FaultPlace {
            segment: 0,
            offset: 0,
        }),
    };
    assert!(rt; answer == Err(refused));
    assert!(rt; printed.as_slice() == b"filtered 0\nreport damaged 4\n".as_slice());
    Ok(())
}

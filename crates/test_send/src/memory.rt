//! Logs shipped over memory.

use crate::counted::tells_as_printed;
use crate::logs::{BEHIND, FALLS, Torn, UP, samples, segment};
use crate::receivers::Receivers;
use crate::rows::none_is_wrong;
use Part::{Changed, Cut, Fails, Many, Whole};
use http::StatusCode;
use rw_metrics::SendCounters;
use rw_send::{LogOptions, SendOptions, StopFlag, run_send};
use rw_settings::read_settings;
use rw_text::ToolFault;
use rw_types::Room;
use rw_wal_format::TailFault;
use std::alloc::{AllocError, Global};
use std::sync::Wait;
use std::test::Fail;
use std::thread::{self, Threads};
use std::time::{Clock, Duration};

/// A segment of a log, written as log text.
#[derive(Clone, Copy)]
enum Part<'a> {
    Whole(&'a [u8]),
    /// It has one series and this many samples.
    Many(u32),
    /// Its last byte is changed.
    Changed(&'a [u8]),
    /// It ends after 34 bytes, inside a record.
    Cut(&'a [u8]),
    /// Its reader fails after it.
    Fails(&'a [u8]),
}

/// How receivers answer: by which status, after how many milliseconds, and how many requests before
/// they refuse. There is no memory for the shards of the epochs from this one on.
#[derive(Clone, Copy)]
struct Answers {
    status: u16,
    takes: u64,
    requests: u64,
    epochs: u64,
}

const TAKEN: Answers = Answers {
    status: 204,
    takes: 0,
    requests: u64::MAX,
    epochs: 1,
};

const TAKEN_ONCE: Answers = Answers {
    status: 204,
    takes: 0,
    requests: 1,
    epochs: 1,
};

const REFUSED: Answers = Answers {
    status: 400,
    takes: 0,
    requests: u64::MAX,
    epochs: 1,
};

const BUSY: Answers = Answers {
    status: 503,
    takes: 0,
    requests: u64::MAX,
    epochs: 1,
};

/// A log that is sent, and how that ends.
struct Row<'a> {
    name: &'static str,
    settings: &'a [u8],
    log: &'a [Part<'a>],
    receivers: Answers,
    /// How many bytes may be printed.
    room: usize,
    answer: Result<(), ToolFault>,
    prints: &'a [u8],
}

fn bytes_of(alloc: Global, part: Part<'_>) -> Result<Vec<u8>, AllocError> {
    match part {
        Whole(text) | Fails(text) => segment(alloc, text),
        Many(count) => segment(alloc, &samples(alloc, count)?),
        Changed(text) => {
            let mut bytes = segment(alloc, text)?;
            if let Some(last) = bytes.last_mut() {
                *last ^= 1;
            }
            Ok(bytes)
        }
        Cut(text) => {
            let mut bytes = segment(alloc, text)?;
            bytes.truncate(34);
            Ok(bytes)
        }
    }
}

fn put_readers(alloc: Global, readers: &mut Vec<Torn>, log: &[Part<'_>]) -> Result<(), AllocError> {
    for part in log {
        let reader = Torn {
            text: bytes_of(alloc, *part)?,
            at: 0,
            fails: matches!(part, Fails(_)),
            failed: false,
        };
        readers.push(reader)?;
    }
    Ok(())
}

/// Returns receivers that answer in this way.
fn receivers_of<R: Copy>(clock: &R, answers: Answers) -> Result<Receivers<R>, AllocError> {
    match StatusCode::from_u16(answers.status) {
        Ok(status) => Ok(Receivers {
            clock: *clock,
            status,
            takes: Duration::from_millis(answers.takes),
            requests: answers.requests,
            epochs: answers.epochs,
        }),
        Err(_) => Err(AllocError),
    }
}

/// Ships the log of a row, with this limit in bytes.
fn shipped<R: Threads + Wait + Clock + Copy + Send + 'static>(
    rt: &R,
    alloc: Global,
    row: &Row<'_>,
    limit: Option<u64>,
    counters: &SendCounters,
    printed: &mut Room,
) -> Result<Result<(), ToolFault>, AllocError> {
    let mut readers = Vec::new(alloc);
    put_readers(alloc, &mut readers, row.log)?;
    let options = SendOptions {
        connect: receivers_of(rt, row.receivers)?,
        counters,
        max_batch_bytes: limit,
        max_skew: None,
        reading: LogOptions::without_labels(false),
        stop: StopFlag::new(alloc)?,
    };
    match read_settings(alloc, row.settings) {
        Ok(settings) => Ok(run_send(rt, alloc, settings, readers, options, printed)),
        Err(_) => Err(AllocError),
    }
}

/// Returns whether a run with this limit does as a row says, and is counted accordingly.
fn does<R: Threads + Wait + Clock + Copy + Send + 'static>(
    rt: &R,
    alloc: Global,
    row: &Row<'_>,
    limit: Option<u64>,
) -> Result<bool, AllocError> {
    let mut printed = Room::new(alloc, row.room)?;
    let counters = SendCounters::new(alloc)?;
    let answer = shipped(rt, alloc, row, limit, &counters, &mut printed)?;
    let is_counted = tells_as_printed(alloc, &counters, row.prints);
    Ok(answer == row.answer && printed.as_slice() == row.prints && is_counted)
}

fn wrong_row<R: Threads + Wait + Clock + Copy + Send + 'static>(
    rt: &R,
    alloc: Global,
    rows: &[Row<'_>],
) -> Result<Option<&'static str>, AllocError> {
    for row in rows {
        if !does(rt, alloc, row, None)? {
            return Ok(Some(row.name));
        }
    }
    Ok(None)
}

static ONE_SEGMENT: [Row<'static>; 11] = [
    Row {
        name: "one sample",
        settings: b"",
        log: &[Whole(UP)],
        receivers: TAKEN,
        room: 4096,
        answer: Ok(()),
        prints: b"filtered 0\nreport complete 2\n",
    },
    Row {
        name: "an empty segment",
        settings: b"",
        log: &[Whole(b"")],
        receivers: TAKEN,
        room: 4096,
        answer: Ok(()),
        prints: b"filtered 0\nreport complete 0\n",
    },
    Row {
        name: "a refused batch",
        settings: b"",
        log: &[Whole(UP)],
        receivers: REFUSED,
        room: 4096,
        answer: Ok(()),
        prints: b"dropped 1 status 400\nfiltered 0\nreport complete 2\n",
    },
    Row {
        name: "a sample without a series",
        settings: b"",
        log: &[Whole(b"sample 7 10 1\n")],
        receivers: TAKEN,
        room: 4096,
        answer: Ok(()),
        prints: b"dropped 0 noseries\nfiltered 0\nreport complete 1\n",
    },
    Row {
        name: "a name that is not sent",
        settings: b"",
        log: &[Whole(b"series 5 {__name__=\"9\"}\nsample 5 10 1\n")],
        receivers: TAKEN,
        room: 4096,
        answer: Ok(()),
        prints: b"dropped 1 labels 3\nfiltered 0\nreport complete 2\n",
    },
    Row {
        name: "a rule drops the series",
        settings: b"[[rule]]\naction = \"drop\"\nsource_labels = [\"__name__\"]\nregex = \"up\"\n",
        log: &[Whole(UP)],
        receivers: TAKEN,
        room: 4096,
        answer: Ok(()),
        prints: b"filtered 1\nreport complete 2\n",
    },
    Row {
        name: "two shards are refused",
        settings: b"[send]\nshards = 2\n",
        log: &[Whole(
            b"series 1 {__name__=\"a\"}\nseries 2 {__name__=\"b\"}\nsample 2 10 1\nsample 1 10 1\nsample 3 10 1\nsample 2 20 1\nsample 1 20 1\n",
        )],
        receivers: REFUSED,
        room: 4096,
        answer: Ok(()),
        prints: b"dropped 2 status 400\ndropped 3 status 400\ndropped 4 noseries\ndropped 5 status 400\ndropped 6 status 400\nfiltered 0\nreport complete 7\n",
    },
    Row {
        name: "samples that do not rise",
        settings: b"",
        log: &[Whole(FALLS)],
        receivers: TAKEN,
        room: 4096,
        answer: Ok(()),
        prints: b"dropped 2 notrising\ndropped 3 notrising\nfiltered 0\nreport complete 5\n",
    },
    Row {
        name: "two references of one series",
        settings: b"[send]\nshards = 3\n",
        log: &[Whole(BEHIND)],
        receivers: TAKEN,
        room: 4096,
        answer: Ok(()),
        prints: b"dropped 3 notrising\nfiltered 0\nreport complete 4\n",
    },
    // a batch of 2,000 samples, whose labels in each of them would take more than 64 KiB, makes one
    // request
    Row {
        name: "2,000 samples are one request",
        settings: b"",
        log: &[Many(2_000)],
        receivers: TAKEN_ONCE,
        room: 4096,
        answer: Ok(()),
        prints: b"filtered 0\nreport complete 2001\n",
    },
    Row {
        name: "samples go each way",
        settings: b"[send]\nshards = 2\n[[rule]]\naction = \"drop\"\nsource_labels = [\"__name__\"]\nregex = \"c\"\n",
        log: &[Whole(
            b"series 1 {__name__=\"a\"}\nseries 2 {__name__=\"b\"}\nseries 3 {__name__=\"c\"}\nseries 4 {__name__=\"9\"}\nsample 1 10 1\nsample 2 10 1\nsample 3 10 1\nsample 4 10 1\nsample 5 10 1\nsample 2 10 2\nsample 3 20 1\nsample 2 20 1\n",
        )],
        receivers: REFUSED,
        room: 4096,
        answer: Ok(()),
        prints: b"dropped 4 status 400\ndropped 5 status 400\ndropped 7 labels 3\ndropped 8 noseries\ndropped 9 notrising\ndropped 11 status 400\nfiltered 2\nreport complete 12\n",
    },
];

#[test]
fn logs_of_one_segment(rt: HostRuntime) -> Result<(), Fail> {
    none_is_wrong(&rt, wrong_row(&rt, rt.alloc(), &ONE_SEGMENT)?);
    Ok(())
}

const NEXT: &[u8] = b"sample 1 2000 2\n";

static SEVERAL_SEGMENTS: [Row<'static>; 5] = [
    Row {
        name: "no segment",
        settings: b"",
        log: &[],
        receivers: TAKEN,
        room: 4096,
        answer: Ok(()),
        prints: b"filtered 0\nreport complete 0\n",
    },
    Row {
        name: "a series of an earlier segment",
        settings: b"",
        log: &[Whole(UP), Whole(NEXT)],
        receivers: TAKEN,
        room: 4096,
        answer: Ok(()),
        prints: b"filtered 0\nreport complete 3\n",
    },
    Row {
        name: "a changed byte ends the log",
        settings: b"",
        log: &[Changed(UP), Whole(NEXT)],
        receivers: TAKEN,
        room: 4096,
        answer: Err(ToolFault::Log(TailFault::BadCrc)),
        prints: b"filtered 0\nreport damaged 3\n",
    },
    Row {
        name: "the last segment is cut",
        settings: b"",
        log: &[Cut(UP)],
        receivers: TAKEN,
        room: 4096,
        answer: Ok(()),
        prints: b"filtered 0\nreport complete 1\n",
    },
    Row {
        name: "an earlier segment is cut",
        settings: b"",
        log: &[Cut(UP), Cut(UP)],
        receivers: TAKEN,
        room: 4096,
        answer: Err(ToolFault::Log(TailFault::TornSegment)),
        prints: b"filtered 0\nreport damaged 8\n",
    },
];

/// A sample in a later segment may be one of a series of an earlier one. A segment that ends inside
/// a record is no fault if it is the last one; after a fault nothing is read.
#[test]
fn logs_of_several_segments(rt: HostRuntime) -> Result<(), Fail> {
    none_is_wrong(&rt, wrong_row(&rt, rt.alloc(), &SEVERAL_SEGMENTS)?);
    Ok(())
}

const NO_RECEIVER: Answers = Answers {
    status: 204,
    takes: 0,
    requests: u64::MAX,
    epochs: 0,
};

static NOT_PRINTED: [Row<'static>; 2] = [
    Row {
        name: "no room for the report",
        settings: b"",
        log: &[Whole(UP)],
        receivers: TAKEN,
        room: 20,
        answer: Err(ToolFault::Device),
        prints: b"",
    },
    Row {
        name: "no memory for the first receiver",
        settings: b"",
        log: &[Whole(UP)],
        receivers: NO_RECEIVER,
        room: 4096,
        answer: Err(ToolFault::OutOfMemory),
        prints: b"",
    },
];

/// There is no room for the report, or no memory for the first receiver.
#[test]
fn nothing_is_printed(rt: HostRuntime) -> Result<(), Fail> {
    none_is_wrong(&rt, wrong_row(&rt, rt.alloc(), &NOT_PRINTED)?);
    Ok(())
}

static FAILING: [Row<'static>; 3] = [
    Row {
        name: "it fails at once",
        settings: b"",
        log: &[Fails(b"")],
        receivers: BUSY,
        room: 4096,
        answer: Err(ToolFault::Device),
        prints: b"filtered 0\nreport abandoned 0\n",
    },
    Row {
        name: "it fails after a sample",
        settings: b"",
        log: &[Fails(UP)],
        receivers: BUSY,
        room: 4096,
        answer: Err(ToolFault::Device),
        prints: b"filtered 0\nabandoned 1\nreport abandoned 2\n",
    },
    Row {
        name: "two shards with full queues",
        settings: b"[send]\nshards = 2\ncapacity = 1\nbatch = 1\n",
        log: &[Fails(
            b"series 1 {__name__=\"a\"}\nseries 2 {__name__=\"b\"}\nsample 1 10 1\nsample 2 10 1\nsample 1 20 1\nsample 2 20 1\n",
        )],
        receivers: BUSY,
        room: 4096,
        answer: Err(ToolFault::Device),
        prints: b"filtered 0\nabandoned 2\nabandoned 3\nabandoned 4\nabandoned 5\nreport abandoned 6\n",
    },
];

/// The receivers are always busy, so that a sample that was read is not resolved when the work is
/// stopped. Both of two shards with full queues are stopped.
#[test]
fn a_reader_that_fails(rt: HostRuntime) -> Result<(), Fail> {
    none_is_wrong(&rt, wrong_row(&rt, rt.alloc(), &FAILING)?);
    Ok(())
}

/// A first segment of four samples, and a second one after it with one.
const FOUR: &[u8] =
    b"series 1 {__name__=\"up\"}\nsample 1 10 1\nsample 1 20 1\nsample 1 30 1\nsample 1 40 1\n";

const ONE_MORE: &[u8] = b"sample 1 50 1\n";

const TAKEN_TWICE: Answers = Answers {
    status: 204,
    takes: 0,
    requests: 2,
    epochs: 1,
};

/// A limit in bytes, and what a run with it does. A message of one sample of `FOUR` takes 31 bytes:
/// 2 of its series, 16 of the label, 13 of the sample.
static LIMITED: [(u64, Row<'static>); 4] = [
    (
        124,
        Row {
            name: "four samples make one request",
            settings: b"",
            log: &[Whole(FOUR)],
            receivers: TAKEN_ONCE,
            room: 4096,
            answer: Ok(()),
            prints: b"filtered 0\nreport complete 5\n",
        },
    ),
    (
        62,
        Row {
            name: "two samples make a request",
            settings: b"",
            log: &[Whole(FOUR)],
            receivers: TAKEN_TWICE,
            room: 4096,
            answer: Ok(()),
            prints: b"filtered 0\nreport complete 5\n",
        },
    ),
    (
        123,
        Row {
            name: "the last sample is a request of its own",
            settings: b"",
            log: &[Whole(FOUR)],
            receivers: TAKEN_ONCE,
            room: 4096,
            answer: Ok(()),
            prints: b"dropped 4 status 400\nfiltered 0\nreport complete 5\n",
        },
    ),
    (
        1,
        Row {
            name: "each sample is a request of its own",
            settings: b"",
            log: &[Whole(FOUR)],
            receivers: TAKEN_TWICE,
            room: 4096,
            answer: Ok(()),
            prints: b"dropped 3 status 400\ndropped 4 status 400\nfiltered 0\nreport complete 5\n",
        },
    ),
];

/// Returns the name of the first row of `LIMITED` that is wrong.
fn wrong_limit<R: Threads + Wait + Clock + Copy + Send + 'static>(
    rt: &R,
    alloc: Global,
) -> Result<Option<&'static str>, AllocError> {
    for (limit, row) in &LIMITED {
        if !does(rt, alloc, row, Some(*limit))? {
            return Ok(Some(row.name));
        }
    }
    Ok(None)
}

/// The samples of a batch have a limit in bytes, if the options of a run have one.
#[test]
fn a_run_keeps_its_limit(rt: HostRuntime) -> Result<(), Fail> {
    none_is_wrong(&rt, wrong_limit(&rt, rt.alloc())?);
    Ok(())
}

const NARROW: &[u8] = b"[send]\ncapacity = 1\nbatch = 1\n";

const FIXED: &[u8] = b"[send]\ncapacity = 1\nbatch = 1\nmax_shards = 1\n";

const SLOW: Answers = Answers {
    status: 204,
    takes: 300,
    requests: u64::MAX,
    epochs: 1,
};

const SLOW_FOR_TWO: Answers = Answers {
    status: 204,
    takes: 300,
    requests: u64::MAX,
    epochs: 2,
};

static SHARDS: [Row<'static>; 5] = [
    Row {
        name: "no memory for more shards",
        settings: NARROW,
        log: &[Whole(FOUR), Whole(ONE_MORE)],
        receivers: SLOW,
        room: 4096,
        answer: Err(ToolFault::OutOfMemory),
        prints: b"filtered 0\nreport abandoned 5\n",
    },
    Row {
        name: "more shards take over",
        settings: NARROW,
        log: &[Whole(FOUR), Whole(ONE_MORE)],
        receivers: SLOW_FOR_TWO,
        room: 4096,
        answer: Ok(()),
        prints: b"filtered 0\nreport complete 6\n",
    },
    Row {
        name: "a receiver that keeps up",
        settings: NARROW,
        log: &[Whole(FOUR), Whole(ONE_MORE)],
        receivers: TAKEN,
        room: 4096,
        answer: Ok(()),
        prints: b"filtered 0\nreport complete 6\n",
    },
    Row {
        name: "a single segment",
        settings: NARROW,
        log: &[Whole(FOUR)],
        receivers: SLOW,
        room: 4096,
        answer: Ok(()),
        prints: b"filtered 0\nreport complete 5\n",
    },
    Row {
        name: "a fixed number of shards",
        settings: FIXED,
        log: &[Whole(FOUR), Whole(ONE_MORE)],
        receivers: SLOW,
        room: 4096,
        answer: Ok(()),
        prints: b"filtered 0\nreport complete 6\n",
    },
];

/// A queue and a batch of one sample each: if the receiver is slow, two of four samples may wait,
/// so one shard is to become three. If that fails, the work ends. Nothing changes if the receiver
/// keeps up, and after the last segment.
#[test]
fn the_number_of_shards_follows_the_load(rt: HostRuntime) -> Result<(), Fail> {
    none_is_wrong(&rt, wrong_row(&rt, rt.alloc(), &SHARDS)?);
    Ok(())
}

/// A receiver that is always busy, and takes some time to say so.
const AWAY: Answers = Answers {
    status: 503,
    takes: 5,
    requests: u64::MAX,
    epochs: 1,
};

/// Sets the flag of the workers, later.
fn set_later<R: Clock>(rt: &R, workers: &StopFlag) {
    thread::sleep(rt, Duration::from_millis(200));
    workers.set();
}

/// Ships a log to a receiver that is always busy, until the flag of the workers ends that.
fn ship_in_vain<R: Threads + Wait + Clock + Copy + Send + 'static>(
    rt: &R,
    alloc: Global,
    text: &[u8],
    stop: StopFlag,
    printed: &mut Room,
) -> Result<Result<(), ToolFault>, AllocError> {
    let mut readers = Vec::new(alloc);
    put_readers(alloc, &mut readers, &[Whole(text)])?;
    let counters = SendCounters::new(alloc)?;
    let options = SendOptions {
        connect: receivers_of(rt, AWAY)?,
        counters: &counters,
        max_batch_bytes: None,
        max_skew: None,
        reading: LogOptions::without_labels(false),
        stop,
    };
    match read_settings(alloc, NARROW) {
        Ok(settings) => Ok(run_send(rt, alloc, settings, readers, options, printed)),
        Err(_) => Err(AllocError),
    }
}

/// Ships a log to a receiver that is always busy, while another thread sets the flag of the
/// workers.
fn ended_by_flag<R: Threads + Wait + Clock + Copy + Send + Sync + 'static>(
    rt: &R,
    alloc: Global,
    text: &[u8],
    printed: &mut Room,
) -> Result<Result<(), ToolFault>, AllocError> {
    let stop = StopFlag::new(alloc)?;
    let workers = stop.share()?;
    let (answer, ()) = thread::join(
        rt,
        || ship_in_vain(rt, alloc, text, stop, printed),
        || set_later(rt, &workers),
    );
    answer
}

/// Returns whether the flag ends a run, with the first sample of its log abandoned.
fn is_ended<R: Threads + Wait + Clock + Copy + Send + Sync + 'static>(
    rt: &R,
    alloc: Global,
    text: &[u8],
) -> Result<bool, AllocError> {
    let mut printed = Room::new(alloc, 4096)?;
    let answer = ended_by_flag(rt, alloc, text, &mut printed)?;
    let is_printed = printed
        .as_slice()
        .starts_with(b"filtered 0\nabandoned 1\n".as_slice());
    Ok(is_printed && answer == Err(ToolFault::OutOfMemory))
}

/// The flag that a run was given ends the wait for an answer, and the wait for room in a queue.
#[test]
fn a_set_flag_ends_a_run(rt: HostRuntime) -> Result<(), Fail> {
    assert!(rt;
        is_ended(&rt, rt.alloc(), UP)?,
        "a sample waits for its answer"
    );
    assert!(rt; is_ended(&rt, rt.alloc(), FOUR)?, "a queue is full");
    Ok(())
}

//! Logs in memory that grow in each way, and are stopped in each way.

ghost use Rattle.std.specs.Prelude.{◌<◌, length};

use crate::countdown::Countdown;
use crate::kept::{Kept, follow_into};
use crate::rows::none_is_wrong;
use Happens::{Gap, More, Next, Quiet, Turn};
use rw_follow::{Event, Listed, SegmentError, StopRequest};
use std::alloc::{AllocError, Global};
use std::collections::VecDeque;
use std::sync::Wait;
use std::test::Fail;

/// What happens to a log, as `Event`.
#[derive(Clone, Copy)]
enum Happens<'a> {
    Quiet,
    More(&'a [u8]),
    Next(&'a [u8]),
    Turn(&'a [u8], &'a [u8]),
    Gap(u64),
}

/// What happens to a log that is followed, and what is read of it.
struct Row<'a> {
    name: &'static str,
    happens: &'a [Happens<'a>],
    /// After how many looks it is to stop, by which request.
    looks: u32,
    request: StopRequest,
    /// How many bytes a piece has at most.
    piece: usize,
    /// How the following ends.
    ended: Result<StopRequest, Option<u64>>,
    /// The segments that were read whole, and the part of the next one.
    whole: &'a [&'a [u8]],
    begun: &'a [u8],
    /// How often it was flushed.
    flushes: u64,
}

fn event_of(alloc: Global, happens: Happens<'_>) -> Result<Event, AllocError> {
    Ok(match happens {
        Quiet => Event::Quiet,
        More(bytes) => Event::More(Vec::from_slice(alloc, bytes)?),
        Next(bytes) => Event::Next(Vec::from_slice(alloc, bytes)?),
        Turn(last, next) => {
            Event::Turn(Vec::from_slice(alloc, last)?, Vec::from_slice(alloc, next)?)
        }
        Gap(number) => Event::Gap(number),
    })
}

fn put_events(
    alloc: Global,
    events: &mut VecDeque<Event>,
    all: &[Happens<'_>],
) -> Result<(), AllocError> {
    for happens in all {
        events.push_back(event_of(alloc, *happens)?)?;
    }
    Ok(())
}

/// Follows the log of a row, and returns the number of the missing segment if that ended it.
fn followed<R: Wait>(
    rt: &R,
    log: &mut Listed,
    kept: &mut Kept,
    row: &Row<'_>,
    buf: &mut [u8],
) -> Result<Result<StopRequest, Option<u64>>, AllocError>
    requires { 0 < length buf.old }
{
    let mut watch = Countdown {
        looks: row.looks,
        request: row.request,
        flushes: true,
        reshards: false,
        said: StopRequest::Continue,
        sleeps: 0,
    };
    Ok(match follow_into(rt, kept, log, &mut watch, buf)? {
        Ok(stop) => Ok(stop),
        Err(SegmentError::Missing(number)) => Err(Some(number)),
        Err(_) => Err(None),
    })
}

/// Returns whether these segments were given whole.
fn are_whole(kept: &Kept, wanted: &[&[u8]]) -> bool {
    if kept.whole.len() != wanted.len() {
        return false;
    }
    for (i, text) in wanted.iter().enumerate() {
        if kept.whole[i].as_slice() != *text {
            return false;
        }
    }
    true
}

/// Returns whether a row holds.
fn does<R: Wait>(rt: &R, alloc: Global, row: &Row<'_>) -> Result<bool, AllocError> {
    let mut events = VecDeque::new(alloc);
    put_events(alloc, &mut events, row.happens)?;
    let mut buf = [0u8; 8];
    let length = row.piece.clamp(1, 8);
    let mut log = Listed::new(alloc, events);
    let mut kept = Kept::new(alloc);
    let ended = followed(rt, &mut log, &mut kept, row, &mut buf[..length])?;
    Ok(
        ended == row.ended
            && are_whole(&kept, row.whole)
            && kept.begun.as_slice() == row.begun
            && kept.flushes == row.flushes,
    )
}

fn wrong_row<R: Wait>(
    rt: &R,
    alloc: Global,
    rows: &[Row<'_>],
) -> Result<Option<&'static str>, AllocError> {
    for row in rows {
        if !does(rt, alloc, row)? {
            return Ok(Some(row.name));
        }
    }
    Ok(None)
}

const FINISHED: Result<StopRequest, Option<u64>> = Ok(StopRequest::Finish);

static GROWING: [Row<'static>; 9] = [
    Row {
        name: "nothing",
        happens: &[],
        looks: 3,
        request: StopRequest::Finish,
        piece: 8,
        ended: FINISHED,
        whole: &[],
        begun: b"",
        flushes: 0,
    },
    Row {
        name: "bytes",
        happens: &[More(b"ab"), Quiet, Quiet, More(b"c")],
        looks: 4,
        request: StopRequest::Finish,
        piece: 8,
        ended: FINISHED,
        whole: &[],
        begun: b"abc",
        flushes: 2,
    },
    Row {
        name: "more bytes than a piece has",
        happens: &[More(b"abcde")],
        looks: 1,
        request: StopRequest::Finish,
        piece: 2,
        ended: FINISHED,
        whole: &[],
        begun: b"abcde",
        flushes: 3,
    },
    Row {
        name: "a segment",
        happens: &[More(b"ab"), Quiet, Next(b"cd")],
        looks: 9,
        request: StopRequest::Finish,
        piece: 8,
        ended: FINISHED,
        whole: &[b"ab"],
        begun: b"cd",
        flushes: 2,
    },
    Row {
        name: "the last bytes of a segment come with the next one",
        happens: &[More(b"ab"), Quiet, Turn(b"c", b"d")],
        looks: 9,
        request: StopRequest::Finish,
        piece: 8,
        ended: FINISHED,
        whole: &[b"abc"],
        begun: b"d",
        flushes: 3,
    },
    Row {
        name: "empty segments",
        happens: &[Next(b""), Next(b""), Next(b"a")],
        looks: 9,
        request: StopRequest::Finish,
        piece: 8,
        ended: FINISHED,
        whole: &[b"", b"", b""],
        begun: b"a",
        flushes: 1,
    },
    Row {
        name: "two segments at once",
        happens: &[More(b"a"), Turn(b"b", b"c"), Next(b"d")],
        looks: 20,
        request: StopRequest::Finish,
        piece: 8,
        ended: FINISHED,
        whole: &[b"ab", b"c"],
        begun: b"d",
        flushes: 4,
    },
    Row {
        name: "a segment is missing",
        happens: &[More(b"a"), Quiet, Gap(7)],
        looks: 9,
        request: StopRequest::Finish,
        piece: 8,
        ended: Err(Some(7)),
        whole: &[],
        begun: b"a",
        flushes: 1,
    },
    Row {
        name: "a segment is missing after the next one",
        happens: &[More(b"a"), Next(b"b"), Gap(9)],
        looks: 9,
        request: StopRequest::Finish,
        piece: 8,
        ended: Err(Some(9)),
        whole: &[b"a"],
        begun: b"b",
        flushes: 2,
    },
];

#[test]
fn logs_grow(rt: HostRuntime) -> Result<(), Fail> {
    none_is_wrong(&rt, wrong_row(&rt, rt.alloc(), &GROWING)?);
    Ok(())
}

static STOPPED: [Row<'static>; 4] = [
    Row {
        name: "what was there is read after the request",
        happens: &[Quiet, Quiet, More(b"ab"), Turn(b"c", b"d")],
        looks: 1,
        request: StopRequest::Finish,
        piece: 8,
        ended: FINISHED,
        whole: &[b"abc"],
        begun: b"d",
        flushes: 3,
    },
    Row {
        name: "a request before the first look",
        happens: &[More(b"ab")],
        looks: 0,
        request: StopRequest::Finish,
        piece: 1,
        ended: FINISHED,
        whole: &[],
        begun: b"ab",
        flushes: 2,
    },
    Row {
        name: "a request to end at once",
        happens: &[More(b"ab"), More(b"c")],
        looks: 1,
        request: StopRequest::Abort,
        piece: 8,
        ended: Ok(StopRequest::Abort),
        whole: &[],
        begun: b"ab",
        flushes: 1,
    },
    Row {
        name: "a segment is missing, and the request has come",
        happens: &[More(b"ab"), Gap(3)],
        looks: 0,
        request: StopRequest::Finish,
        piece: 8,
        ended: Err(Some(3)),
        whole: &[],
        begun: b"ab",
        flushes: 1,
    },
];

#[test]
fn signs_stop(rt: HostRuntime) -> Result<(), Fail> {
    none_is_wrong(&rt, wrong_row(&rt, rt.alloc(), &STOPPED)?);
    Ok(())
}

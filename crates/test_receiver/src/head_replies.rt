//! Requests to the endpoint of a head, each over its own connection: the replies, and what the head
//! then holds. `|` stands for CR LF.

use crate::messages::{Samples, UP, has_samples, standard};
use crate::replies::{put_all_lines, put_lines};
use crate::rows::{holds, none_is_wrong};
use rw_endpoint::{ServeEnd, serve};
use rw_head::{Head, Limits};
use rw_test_parts::{Taking, WORD_OF_ONE};
use rw_types::Room;
use std::alloc::Global;
use std::cell::Cell;

/// The request of a batch of one sample, 1 at 1000 ms of the series `up`, and its body.
const HEAD_OF_32: &[u8] = b"POST /api/v1/write HTTP/1.1|Content-Length: 32||";

const BODY_OF_32: &[u8] =
    b"\n\x1e\n\x0e\n\x08__name__\x12\x02up\x12\x0c\x09\x00\x00\x00\x00\x00\x00\xf0?\x10\xe8\x07";

/// The same body without its last byte.
const HEAD_OF_31: &[u8] = b"POST /api/v1/write HTTP/1.1|Content-Length: 31||";

const BODY_OF_31: &[u8] =
    b"\n\x1e\n\x0e\n\x08__name__\x12\x02up\x12\x0c\x09\x00\x00\x00\x00\x00\x00\xf0?\x10\xe8";

/// The shipper's request of a batch of 1 at 10 ms and 2 at 20 ms of the series `up`.
const HEAD_OF_BATCH: &[u8] =
    b"POST /api/v1/write HTTP/1.1|Host: localhost:9090|User-Agent: rwship/1.0|Content-Type: application/x-protobuf|X-Prometheus-Remote-Write-Version: 0.1.0|Connection: close|Content-Length: 44||";

const BATCH: &[u8] =
    b"\x0a\x2a\x0a\x0e\x0a\x08__name__\x12\x02up\x12\x0b\x09\x00\x00\x00\x00\x00\x00\xf0\x3f\x10\x0a\x12\x0b\x09\x00\x00\x00\x00\x00\x00\x00\x40\x10\x14";

/// What a request shows, its texts, the reply, and how many samples the head then holds.
type Row = (&'static str, &'static [&'static [u8]], &'static [u8], usize);

static ROWS: [Row; 8] = [
    (
        "an encoding",
        &[
            b"POST /api/v1/write HTTP/1.1|Content-Encoding: snappy|Content-Length: 32||",
            BODY_OF_32,
        ],
        b"HTTP/1.1 415 Unsupported Media Type|Content-Length: 0|Connection: close||",
        0,
    ),
    (
        "another method",
        &[b"GET /api/v1/write HTTP/1.1||"],
        b"HTTP/1.1 405 Method Not Allowed|Allow: POST|Content-Length: 0|Connection: close||",
        0,
    ),
    (
        "another target",
        &[b"POST /other HTTP/1.1|Content-Length: 32||", BODY_OF_32],
        b"HTTP/1.1 404 Not Found|Content-Length: 0|Connection: close||",
        0,
    ),
    (
        "no length",
        &[b"POST /api/v1/write HTTP/1.1||", BODY_OF_32],
        b"HTTP/1.1 411 Length Required|Content-Length: 0|Connection: close||",
        0,
    ),
    (
        "one byte over the limit",
        &[
            b"POST /api/v1/write HTTP/1.1|Content-Length: 16777217||",
            BODY_OF_32,
        ],
        b"HTTP/1.1 413 Content Too Large|Content-Length: 0|Connection: close||",
        0,
    ),
    (
        "a body without its last byte",
        &[HEAD_OF_31, BODY_OF_31],
        b"HTTP/1.1 400 Bad Request|Content-Length: 0||",
        0,
    ),
    (
        "the whole body",
        &[HEAD_OF_32, BODY_OF_32],
        b"HTTP/1.1 204 No Content||",
        1,
    ),
    (
        "its repeat",
        &[HEAD_OF_32, BODY_OF_32],
        b"HTTP/1.1 204 No Content||",
        1,
    ),
];

/// What the head holds after them, from the first sample on.
const HELD: Samples<'static> = &[(1_000, WORD_OF_ONE)];

/// A batch that is sent again since its reply was lost.
static SENT_AGAIN: [Row; 2] = [
    (
        "a batch whose reply is lost",
        &[HEAD_OF_BATCH, BATCH],
        b"HTTP/1.1 204 No Content|Connection: close||",
        2,
    ),
    (
        "the same batch sent again",
        &[HEAD_OF_BATCH, BATCH],
        b"HTTP/1.1 204 No Content|Connection: close||",
        2,
    ),
];

const HELD_OF_BATCH: Samples<'static> = &[(10, WORD_OF_ONE), (20, 0x4000_0000_0000_0000)];

fn rows() -> &'static [Row] {
    &ROWS
}

fn sent_again() -> &'static [Row] {
    &SENT_AGAIN
}

/// Returns whether a connection with this input has this reply of a head. The answer is no if
/// memory runs out.
fn replies_so(alloc: Global, head: &mut Head, input: &[u8], reply: &[u8]) -> bool {
    let (Ok(limits), Ok(mut room)) = (Limits::standard(alloc), Room::new(alloc, 1024)) else {
        return false;
    };
    let closes = reply.ends_with(b"Connection: close\r\n\r\n");
    let end = if closes {
        ServeEnd::Closed
    } else {
        ServeEnd::Eof
    };
    let mut reader = input;
    serve(alloc, &mut reader, &mut room, head, &limits) == end && room.as_slice() == reply
}

/// Returns whether a request has its reply.
fn is_replied(alloc: Global, head: &mut Head, row: &Row) -> bool {
    let mut input = Vec::new(alloc);
    let mut reply = Vec::new(alloc);
    put_all_lines(&mut input, row.1).is_ok()
        && put_lines(&mut reply, row.2).is_ok()
        && replies_so(alloc, head, &input, &reply)
}

/// Asks a new head with these requests. Returns the first one that has another reply, or after
/// which the head holds anything but the first samples of these.
fn first_wrong(alloc: Global, rows: &[Row], held: Samples<'_>) -> Option<&'static str> {
    let Ok(mut head) = standard(alloc) else {
        return Some("a head");
    };
    for row in rows {
        let is_so = is_replied(alloc, &mut head, row) && head.total() == row.3 as u64;
        match held.get(..row.3) {
            Some(first) if is_so && has_samples(alloc, &head, UP, first) => {}
            _ => return Some(row.0),
        }
    }
    None
}

#[test]
fn a_head_replies_as_the_protocol_has_it(rt: HostRuntime) {
    none_is_wrong(&rt, first_wrong(rt.alloc(), rows(), HELD));
}

#[test]
fn a_repeat_is_204_and_changes_nothing(rt: HostRuntime) {
    none_is_wrong(&rt, first_wrong(rt.alloc(), sent_again(), HELD_OF_BATCH));
}

/// Returns how the connection of a request ends whose writer fails before it takes a byte.
fn end_without_a_reply(alloc: Global, head: &mut Head, row: &Row) -> ServeEnd {
    let mut input = Vec::new(alloc);
    let Ok(limits) = Limits::standard(alloc) else {
        return ServeEnd::OutOfMemory;
    };
    if put_all_lines(&mut input, row.1).is_err() {
        return ServeEnd::OutOfMemory;
    }
    let mut reader = input.as_slice();
    let first = Cell::new(1);
    let mut writer = Taking::new(alloc, 5, &first);
    serve(alloc, &mut reader, &mut writer, head, &limits)
}

/// Returns whether a request whose reply fails is stored, and its repeat has its reply and changes
/// nothing.
fn is_stored_once(alloc: Global, head: &mut Head, row: &Row) -> bool {
    end_without_a_reply(alloc, head, row) == ServeEnd::Device
        && head.total() == row.3 as u64
        && is_replied(alloc, head, row)
        && head.total() == row.3 as u64
        && has_samples(alloc, head, UP, HELD_OF_BATCH)
}

fn are_stored_once(alloc: Global) -> bool {
    match (standard(alloc), sent_again().first()) {
        (Ok(mut head), Some(row)) => is_stored_once(alloc, &mut head, row),
        _ => false,
    }
}

#[test]
fn a_repeat_after_a_failed_reply_is_204(rt: HostRuntime) {
    holds(&rt, are_stored_once(rt.alloc()));
}

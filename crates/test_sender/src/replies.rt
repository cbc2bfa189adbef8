//! What the bytes of replies say.

use crate::rows::{holds, none_is_wrong};
use ReplyRead::{Bad, Partial, Status};
use Row::{Begun, Headed, Parts};
use rw_shard_core::{MAX_FIELDS, MAX_HEAD_BYTES, ReplyRead, read_reply};
use std::alloc::{AllocError, Global};

const NO_CONTENT: &[u8] = b"HTTP/1.1 204 No Content\r\nConnection: close\r\n\r\n";

const CONTINUE: &[u8] = b"HTTP/1.1 100 Continue\r\n\r\n";

/// A status, the number of fields, and how many bytes the first of them has as its value.
type Head = (&'static [u8], usize, usize);

/// Appends a number of copies of these bytes.
fn push_times(text: &mut Vec<u8>, bytes: &[u8], times: usize) -> Result<(), AllocError> {
    for _ in 0..times {
        text.extend_from_slice(bytes)?;
    }
    Ok(())
}

/// Appends the bytes of such a head.
fn push_head(text: &mut Vec<u8>, head: Head) -> Result<(), AllocError> {
    let (status, fields, value) = head;
    text.extend_from_slice(b"HTTP/1.1 ")?;
    text.extend_from_slice(status)?;
    text.extend_from_slice(b"\r\nA:")?;
    push_times(text, b"b", value)?;
    push_times(text, b"\r\nC:d", fields.saturating_sub(1))?;
    text.extend_from_slice(b"\r\n\r\n")
}

/// The bytes of such a head without its first value, if it has only that field.
const AROUND_VALUE: usize = 21;

/// The most bytes of such a value.
const MOST: usize = MAX_HEAD_BYTES - AROUND_VALUE;

/// A name, and what a row says.
enum Row {
    /// Two parts of a reply, one after the other, and what they say.
    Parts(&'static str, &'static [u8], &'static [u8], ReplyRead),
    /// A head, what follows it, and what both say.
    Headed(&'static str, Head, &'static [u8], ReplyRead),
    /// A head, its last bytes, and what it says without them.
    Begun(&'static str, Head, &'static [u8], ReplyRead),
}

static ROWS: [Row; 24] = [
    Parts("a status", NO_CONTENT, b"", Status(204)),
    Parts(
        "a status and more",
        NO_CONTENT,
        b"HTTP/1.1 500 X\r\n\r\n",
        Status(204),
    ),
    Parts("a hint", CONTINUE, b"", Partial),
    Parts("a hint and a status", CONTINUE, NO_CONTENT, Status(204)),
    Parts("two hints", CONTINUE, CONTINUE, Partial),
    Parts(
        "three heads",
        CONTINUE,
        b"HTTP/1.1 103 Hints\r\n\r\nHTTP/1.1 429 X\r\n\r\n",
        Status(429),
    ),
    Parts("a hint and no head", CONTINUE, b"no head", Bad),
    Parts("199", b"HTTP/1.1 199 X\r\n\r\n", b"", Partial),
    Parts("200", b"HTTP/1.1 200 X\r\n\r\n", b"", Status(200)),
    Parts("099", b"HTTP/1.1 099 X\r\n\r\n", b"", Bad),
    Parts("999", b"HTTP/1.1 999 X\r\n\r\n", b"", Status(999)),
    Parts("line feeds", b"\r\nHTTP/1.0 503\n\n", b"", Status(503)),
    Parts("HTTP/2", b"HTTP/2 200 OK\r\n\r\n", b"", Bad),
    Parts("2000", b"HTTP/1.1 2000 OK\r\n\r\n", b"", Bad),
    Headed("most fields", (b"204 ", MAX_FIELDS, 1), b"", Status(204)),
    Headed("a field more", (b"204 ", MAX_FIELDS + 1, 1), b"", Bad),
    Headed("most bytes", (b"204 ", 1, MOST), b"", Status(204)),
    Headed("a byte more", (b"204 ", 1, MOST + 1), b"", Bad),
    Headed(
        "most bytes after a hint",
        (b"100 ", 1, MOST - NO_CONTENT.len()),
        NO_CONTENT,
        Status(204),
    ),
    Headed(
        "a byte more after a hint",
        (b"100 ", 1, MOST - NO_CONTENT.len() + 1),
        NO_CONTENT,
        Bad,
    ),
    Begun("without CR LF", (b"204 ", 1, MOST + 1), b"\r\n", Partial),
    Begun("without LF", (b"204 ", 1, MOST + 1), b"\n", Bad),
    Begun("most, begun", (b"204 ", MAX_FIELDS, 1), b"\r\n", Partial),
    Begun("more, begun", (b"204 ", MAX_FIELDS + 1, 1), b"\r\n", Bad),
];

fn says_of_parts(alloc: Global, front: &[u8], rest: &[u8], read: ReplyRead) -> bool {
    let mut text = Vec::new(alloc);
    text.extend_from_slice(front).is_ok()
        && text.extend_from_slice(rest).is_ok()
        && read_reply(&text) == read
}

fn says(alloc: Global, head: Head, rest: &[u8], read: ReplyRead) -> bool {
    let mut text = Vec::new(alloc);
    push_head(&mut text, head).is_ok()
        && text.extend_from_slice(rest).is_ok()
        && read_reply(&text) == read
}

fn says_begun(alloc: Global, head: Head, end: &[u8], read: ReplyRead) -> bool {
    let mut text = Vec::new(alloc);
    if push_head(&mut text, head).is_err() {
        return false;
    }
    match text.strip_suffix(end) {
        Some(begun) => read_reply(begun) == read,
        None => false,
    }
}

fn is_so(alloc: Global, row: &Row) -> bool {
    match row {
        Parts(_, front, rest, read) => says_of_parts(alloc, front, rest, *read),
        Headed(_, head, rest, read) => says(alloc, *head, rest, *read),
        Begun(_, head, end, read) => says_begun(alloc, *head, end, *read),
    }
}

fn rows() -> &'static [Row] {
    &ROWS
}

/// Returns the first row that is read differently.
fn wrong_row(alloc: Global, rows: &[Row]) -> Option<&'static str> {
    for row in rows {
        if !is_so(alloc, row) {
            let (Parts(name, ..) | Headed(name, ..) | Begun(name, ..)) = row;
            return Some(name);
        }
    }
    None
}

/// Returns how much of a text has to come until it says something.
fn decisive(text: &[u8]) -> usize {
    for len in 0..text.len() {
        if read_reply(&text[..len]) != Partial {
            return len;
        }
    }
    text.len()
}

fn is_too_long(alloc: Global) -> bool {
    let mut head = Vec::new(alloc);
    push_head(&mut head, (b"204 ", 1, MOST + 1)).is_ok() && head.len() == MAX_HEAD_BYTES + 1
}

#[test]
fn statuses_and_limits(rt: HostRuntime) {
    none_is_wrong(&rt, wrong_row(rt.alloc(), rows()));
    holds(&rt, decisive(NO_CONTENT) == NO_CONTENT.len());
    holds(&rt, is_too_long(rt.alloc()));
}

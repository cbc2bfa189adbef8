//! Requests to an endpoint that takes Snappy blocks, with the replies to them. `|` is CR LF. If a
//! comment says so, a block was written by libsnappy 1.1.9, or libsnappy refuses it.

use crate::replies::put_lines;
use crate::rows::none_is_wrong;
use crate::store::{Store, limits};
use rw_endpoint::serve;
use rw_types::Room;
use std::alloc::{AllocError, Global};

/// The first line of each request, and what says that its body is a block.
const LINE: &[u8] = b"POST /api/v1/write HTTP/1.1|";

const CODED: &[u8] = b"Content-Encoding: snappy|";

/// What a row shows, the fields of a request, what comes after its head, the replies, and the texts
/// that are asked for.
type Row = (
    &'static str,
    &'static [u8],
    &'static [u8],
    &'static [u8],
    &'static [&'static [u8]],
);

/// A body has at most 32 bytes here, and decodes to at most 32.
static CODED_ROWS: [Row; 12] = [
    // Written by libsnappy.
    (
        "a block",
        b"Content-Length: 5||",
        b"\x03\x08abc",
        b"HTTP/1.1 204 No Content||",
        &[b"abc"],
    ),
    (
        "as many bytes as the limit",
        b"Content-Length: 6||",
        b" \x00az\x01\x00",
        b"HTTP/1.1 204 No Content||",
        &[&[b'a'; 32]],
    ),
    (
        "one byte more than the limit",
        b"Content-Length: 6||",
        b"!\x00a~\x01\x00",
        b"HTTP/1.1 413 Content Too Large|Content-Length: 0||",
        &[],
    ),
    (
        "a text that is answered with 429, and the end",
        b"Content-Length: 6|Connection: close||",
        b"\x04\x0cbusy",
        b"HTTP/1.1 429 Too Many Requests|Content-Length: 0|Connection: close||",
        &[b"busy"],
    ),
    (
        "one coding that is named twice",
        b"CONTENT-ENCODING: Snappy|Content-Length: 5||",
        b"\x03\x08abc",
        b"HTTP/1.1 204 No Content||",
        &[b"abc"],
    ),
    (
        "a block of one byte more than the limit, which decodes to 32",
        b"Content-Length: 34||",
        b" |\n\x1e\n\x0e\n\x08__name__\x12\x02up\x12\x0c\t\x00\x00\x00\x00\x00\x00\xf0?\x10\xe8\x07",
        b"HTTP/1.1 413 Content Too Large|Content-Length: 0|Connection: close||",
        &[],
    ),
    // libsnappy refuses these.
    (
        "a block that is cut short, and the next request",
        b"Content-Length: 4||",
        b"\x03\x08abPOST /api/v1/write HTTP/1.1\r\nContent-Encoding: snappy\r\nContent-Length: 5\r\n\r\n\x03\x08abc",
        b"HTTP/1.1 400 Bad Request|Content-Length: 0||HTTP/1.1 204 No Content||",
        &[b"abc"],
    ),
    (
        "an offset before the first byte",
        b"Content-Length: 5||",
        b"\x05\x00a\x01\x05",
        b"HTTP/1.1 400 Bad Request|Content-Length: 0||",
        &[],
    ),
    (
        "no bytes",
        b"Content-Length: 0||",
        b"",
        b"HTTP/1.1 400 Bad Request|Content-Length: 0||",
        &[],
    ),
    (
        "a length of 4 GiB that nothing follows",
        b"Content-Length: 5||",
        b"\xff\xff\xff\xff\x0f",
        b"HTTP/1.1 413 Content Too Large|Content-Length: 0||",
        &[],
    ),
    // Two codings, and another type.
    (
        "identity, too",
        b"Content-Encoding: identity|Content-Length: 5||",
        b"\x03\x08abc",
        b"HTTP/1.1 415 Unsupported Media Type|Content-Length: 0|Connection: close||",
        &[],
    ),
    (
        "another type",
        b"Content-Type: text/plain|Content-Length: 5||",
        b"\x03\x08abc",
        b"HTTP/1.1 415 Unsupported Media Type|Content-Length: 0|Connection: close||",
        &[],
    ),
];

/// Requests that do not say that their body is a block.
static PLAIN_ROWS: [Row; 3] = [
    (
        "a plain body, which could be a block",
        b"Content-Length: 5||",
        b"\x03\x08abc",
        b"HTTP/1.1 204 No Content||",
        &[b"\x03\x08abc"],
    ),
    (
        "a plain body that says so",
        b"Content-Encoding: identity|Content-Length: 3||",
        b"bad",
        b"HTTP/1.1 400 Bad Request|Content-Length: 0||",
        &[b"bad"],
    ),
    (
        "another coding",
        b"Content-Encoding: gzip|Content-Length: 3||",
        b"abc",
        b"HTTP/1.1 415 Unsupported Media Type|Content-Length: 0|Connection: close||",
        &[],
    ),
];

/// Returns whether a store holds these texts, or was asked for them and they are not such as it
/// stores.
fn was_asked_for(store: &Store, texts: &[&[u8]]) -> bool {
    store.asked == texts.len() as u64
        && store
            .bodies
            .iter()
            .all(|body| texts.iter().any(|text| *text == body.as_slice()))
}

/// Serves a connection with this input. Returns whether it has these replies, and the store is
/// asked for these texts.
fn is_served_so(
    alloc: Global,
    mut input: &[u8],
    replies: &[u8],
    texts: &[&[u8]],
) -> Result<bool, AllocError> {
    let mut taking = limits(alloc)?;
    taking.snappy = true;
    let mut room = Room::new(alloc, 1024)?;
    let mut store = Store::new(alloc);
    serve(alloc, &mut input, &mut room, &mut store, &taking);
    Ok(room.as_slice() == replies && was_asked_for(&store, texts))
}

/// Returns whether a row's request, with these fields before its own, is answered as it says.
fn is_so(alloc: Global, coded: &[u8], row: &Row) -> Result<bool, AllocError> {
    let mut input = Vec::new(alloc);
    put_lines(&mut input, LINE)?;
    put_lines(&mut input, coded)?;
    put_lines(&mut input, row.1)?;
    input.extend_from_slice(row.2)?;
    let mut replies = Vec::new(alloc);
    put_lines(&mut replies, row.3)?;
    is_served_so(alloc, &input, &replies, row.4)
}

/// Returns the first of these rows that is wrong.
fn wrong_row(alloc: Global, coded: &[u8], rows: &[Row]) -> Option<&'static str> {
    for row in rows {
        match is_so(alloc, coded, row) {
            Ok(true) => {}
            _ => return Some(row.0),
        }
    }
    None
}

#[test]
fn blocks_are_decoded(rt: HostRuntime) {
    none_is_wrong(&rt, wrong_row(rt.alloc(), CODED, &CODED_ROWS));
}

#[test]
fn plain_bodies_are_not_decoded(rt: HostRuntime) {
    none_is_wrong(&rt, wrong_row(rt.alloc(), b"", &PLAIN_ROWS));
}

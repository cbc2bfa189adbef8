//! Inputs with the replies to them, byte for byte. `|` stands for CR LF.

use crate::rows::{holds, no_number_is_wrong, none_is_wrong};
use crate::store::{Store, is_served, served};
use crate::waiting::{Hearing, Waiting};
use Row::{Fields, Input};
use ServeEnd::{Closed, Eof, Torn};
use rw_endpoint::ServeEnd;
use rw_test_parts::Giving;
use std::alloc::{AllocError, Global};
use std::cell::Cell;

/// The first line of each request for which only the fields matter.
const LINE: &[u8] = b"POST /api/v1/write HTTP/1.1|";

/// The head that the shipper sends, and the message of one sample.
const HEAD: &[u8] =
    b"POST /api/v1/write HTTP/1.1|Host: localhost:9090|User-Agent: rwship/1.0|Content-Type: application/x-protobuf|X-Prometheus-Remote-Write-Version: 0.1.0|Connection: close|Content-Length: 32||";

const MESSAGE: &[u8] =
    b"\n\x1e\n\x0e\n\x08__name__\x12\x02up\x12\x0c\x09\x00\x00\x00\x00\x00\x00\xf0?\x10\xe8\x07";

/// Adds a text, with CR LF for each `|`.
pub(crate) fn put_lines(out: &mut Vec<u8>, text: &[u8]) -> Result<(), AllocError> {
    for byte in text {
        match byte {
            b'|' => out.extend_from_slice(b"\r\n")?,
            _ => out.push(*byte)?,
        }
    }
    Ok(())
}

/// Adds texts one after the other.
pub(crate) fn put_all_lines(out: &mut Vec<u8>, texts: &[&[u8]]) -> Result<(), AllocError> {
    for text in texts {
        put_lines(out, text)?;
    }
    Ok(())
}

/// Returns whether an input has these replies for a client that sends it and then waits for them:
/// no more is read before they are written.
fn is_served_at_once(alloc: Global, input: &[u8], replies: &[u8]) -> bool {
    let heard = Cell::new(0);
    let mut reader = Waiting::new(input, replies.len(), &heard);
    let mut writer = Hearing::new(alloc, &heard);
    let mut store = Store::new(alloc);
    served(alloc, &mut reader, &mut writer, &mut store);
    !reader.waited && writer.taken.as_slice() == replies
}

/// Returns whether an input has these replies and ends in this way: if it comes whole, if it comes
/// byte by byte, and for a client that waits.
fn is_served_however_it_comes(alloc: Global, input: &[u8], replies: &[u8], how: ServeEnd) -> bool {
    let mut whole = input;
    let never = Cell::new(0);
    let mut slow = Giving::new(input, 1, &never);
    is_served(alloc, &mut whole, replies, how)
        && is_served(alloc, &mut slow, replies, how)
        && is_served_at_once(alloc, input, replies)
}

/// Returns the same, for an input and replies that are written with `|`.
fn are_served(alloc: Global, input: &[&[u8]], replies: &[u8], how: ServeEnd) -> bool {
    let mut whole = Vec::new(alloc);
    let mut wanted = Vec::new(alloc);
    put_all_lines(&mut whole, input).is_ok()
        && put_lines(&mut wanted, replies).is_ok()
        && is_served_however_it_comes(alloc, &whole, &wanted, how)
}

const LENGTH_REQUIRED: &[u8] =
    b"HTTP/1.1 411 Length Required|Content-Length: 0|Connection: close||";

const BAD_REQUEST: &[u8] = b"HTTP/1.1 400 Bad Request|Content-Length: 0|Connection: close||";

const NO_CONTENT_KEPT: &[u8] = b"HTTP/1.1 204 No Content||";

const CONTENT_TOO_LARGE: &[u8] =
    b"HTTP/1.1 413 Content Too Large|Content-Length: 0|Connection: close||";

const UNSUPPORTED_MEDIA_TYPE: &[u8] =
    b"HTTP/1.1 415 Unsupported Media Type|Content-Length: 0|Connection: close||";

const BAD_REQUEST_KEPT: &[u8] = b"HTTP/1.1 400 Bad Request|Content-Length: 0||";

const TOO_MANY_REQUESTS: &[u8] =
    b"HTTP/1.1 429 Too Many Requests|Content-Length: 0|Connection: close||";

const SERVICE_UNAVAILABLE_KEPT: &[u8] = b"HTTP/1.1 503 Service Unavailable|Content-Length: 0||";

const NO_CONTENT: &[u8] = b"HTTP/1.1 204 No Content|Connection: close||";

/// What a row says.
enum Row {
    /// What follows the first line of a request, and the reply.
    Fields(&'static str, &'static [u8]),
    /// An input, the replies, and the end.
    Input(&'static str, &'static [u8], ServeEnd),
}

static ROWS: [Row; 44] = [
    // no length, or a transfer encoding
    Fields("|", LENGTH_REQUIRED),
    Fields("Transfer-Encoding: chunked||0||", LENGTH_REQUIRED),
    Fields(
        "Content-Length: 3|transfer-encoding: identity||abc",
        LENGTH_REQUIRED,
    ),
    // values that are not a length
    Fields("Content-Length: ||", BAD_REQUEST),
    Fields("Content-Length: +3||abc", BAD_REQUEST),
    Fields("Content-Length: 3, 3||abc", BAD_REQUEST),
    Fields("Content-Length: 00000000000000000003||abc", BAD_REQUEST),
    Fields("Content-Length: 3|Content-Length: 4||abcd", BAD_REQUEST),
    // 19 digits, and one length written twice
    Fields(
        "Content-Length: 0000000000000000003|CONTENT-LENGTH: 03||abc",
        NO_CONTENT_KEPT,
    ),
    // at the limit and over it, however far
    Fields(
        "Content-Length: 32||12345678901234567890123456789012",
        NO_CONTENT_KEPT,
    ),
    Fields("Content-Length: 33||", CONTENT_TOO_LARGE),
    Fields("Content-Length: 9999999999999999999||", CONTENT_TOO_LARGE),
    // the length is judged before the encoding
    Fields(
        "Content-Length: 33|Content-Encoding: snappy||",
        CONTENT_TOO_LARGE,
    ),
    // encodings
    Fields(
        "Content-Encoding: snappy|Content-Length: 3||abc",
        UNSUPPORTED_MEDIA_TYPE,
    ),
    Fields(
        "Content-Encoding:|Content-Length: 3||abc",
        UNSUPPORTED_MEDIA_TYPE,
    ),
    Fields(
        "Content-Encoding: Identity|Content-Length: 3||abc",
        NO_CONTENT_KEPT,
    ),
    Fields(
        "Content-Encoding: identity|Content-Encoding: gzip|Content-Length: 3||abc",
        UNSUPPORTED_MEDIA_TYPE,
    ),
    // media types
    Fields(
        "Content-Type: application/x-protobuf|Content-Length: 3||abc",
        NO_CONTENT_KEPT,
    ),
    Fields(
        "Content-Type: APPLICATION/X-Protobuf \t;\t Proto=Prometheus.WRITERequest|Content-Length: 3||abc",
        NO_CONTENT_KEPT,
    ),
    Fields(
        "Content-Type: application/x-protobuf;|Content-Length: 3||abc",
        UNSUPPORTED_MEDIA_TYPE,
    ),
    Fields(
        "Content-Type: application/x-protobuf; proto=prometheus.WriteRequest2|Content-Length: 3||abc",
        UNSUPPORTED_MEDIA_TYPE,
    ),
    Fields(
        "Content-Type: application/x-protobuf; proto = prometheus.WriteRequest|Content-Length: 3||abc",
        UNSUPPORTED_MEDIA_TYPE,
    ),
    Fields(
        "Content-Type: application/x-protobuf proto=prometheus.WriteRequest|Content-Length: 3||abc",
        UNSUPPORTED_MEDIA_TYPE,
    ),
    Fields(
        "Content-Type: text/plain|Content-Length: 3||abc",
        UNSUPPORTED_MEDIA_TYPE,
    ),
    Fields(
        "Content-Type: |Content-Length: 3||abc",
        UNSUPPORTED_MEDIA_TYPE,
    ),
    // what the body is answered
    Fields("Content-Length: 3||bad", BAD_REQUEST_KEPT),
    Fields(
        "Content-Length: 4|Connection: CLOSE||busy",
        TOO_MANY_REQUESTS,
    ),
    Fields(
        "Content-Length: 4|Connection: keep-alive||full",
        SERVICE_UNAVAILABLE_KEPT,
    ),
    // two requests that keep the connection
    Input(
        "POST /api/v1/write HTTP/1.1|Content-Length: 0||POST /api/v1/write HTTP/1.1|Content-Length: 0||",
        b"HTTP/1.1 204 No Content||HTTP/1.1 204 No Content||",
        Eof,
    ),
    // nothing
    Input("", b"", Eof),
    // another method
    Input(
        "GET /api/v1/write HTTP/1.1||",
        b"HTTP/1.1 405 Method Not Allowed|Allow: POST|Content-Length: 0|Connection: close||",
        Closed,
    ),
    Input(
        "post /api/v1/write HTTP/1.1|Content-Length: 0||",
        b"HTTP/1.1 405 Method Not Allowed|Allow: POST|Content-Length: 0|Connection: close||",
        Closed,
    ),
    // another target, which is judged before the method
    Input(
        "POST /other HTTP/1.1|Content-Length: 0||",
        b"HTTP/1.1 404 Not Found|Content-Length: 0|Connection: close||",
        Closed,
    ),
    Input(
        "GET /other HTTP/1.1||",
        b"HTTP/1.1 404 Not Found|Content-Length: 0|Connection: close||",
        Closed,
    ),
    Input(
        "POST /api/v1/Write HTTP/1.1|Content-Length: 0||",
        b"HTTP/1.1 404 Not Found|Content-Length: 0|Connection: close||",
        Closed,
    ),
    // an older version closes
    Input(
        "POST /api/v1/write HTTP/1.0|Content-Length: 3||abc",
        b"HTTP/1.1 204 No Content|Connection: close||",
        Closed,
    ),
    // nothing is answered after a reply that closes
    Input(
        "POST /api/v1/write HTTP/1.1|Content-Length: 3||abcPOST /api/v1/write HTTP/1.1|Connection: close|Content-Length: 3||defPOST /api/v1/write HTTP/1.1|Content-Length: 0||",
        b"HTTP/1.1 204 No Content||HTTP/1.1 204 No Content|Connection: close||",
        Closed,
    ),
    Input(
        "GET /api/v1/write HTTP/1.1||POST /api/v1/write HTTP/1.1|Content-Length: 0||",
        b"HTTP/1.1 405 Method Not Allowed|Allow: POST|Content-Length: 0|Connection: close||",
        Closed,
    ),
    // empty lines before a request, and line feeds alone
    Input(
        "|\nPOST /api/v1/write HTTP/1.1\nContent-Length: 3\n\nabc",
        b"HTTP/1.1 204 No Content||",
        Eof,
    ),
    // no heads
    Input(
        "HELLO WORLD||",
        b"HTTP/1.1 400 Bad Request|Content-Length: 0|Connection: close||",
        Closed,
    ),
    Input(
        "POST /api/v1/write HTTP/2.0|",
        b"HTTP/1.1 400 Bad Request|Content-Length: 0|Connection: close||",
        Closed,
    ),
    Input(
        "POST /api/v1/write HTTP/1.1|Content Length: 3||abc",
        b"HTTP/1.1 400 Bad Request|Content-Length: 0|Connection: close||",
        Closed,
    ),
    // after a reply the input ends inside a request
    Input(
        "POST /api/v1/write HTTP/1.1|Content-Length: 3||abcPOST /api/v1/write HTTP/1.1|",
        b"HTTP/1.1 204 No Content||",
        Torn,
    ),
    Input(
        "POST /api/v1/write HTTP/1.1|Content-Length: 4||abc",
        b"",
        Torn,
    ),
];

fn is_so(alloc: Global, row: &Row) -> bool {
    match row {
        Fields(fields, reply) => {
            let closes = reply.ends_with(b"Connection: close||");
            let how = if closes { Closed } else { Eof };
            are_served(alloc, &[LINE, fields.as_bytes()], reply, how)
        }
        Input(input, replies, how) => are_served(alloc, &[input.as_bytes()], replies, *how),
    }
}

/// Returns the text of the first row with other replies or another end.
fn wrong_row(alloc: Global) -> Option<&'static str> {
    for row in &ROWS {
        if !is_so(alloc, row) {
            let (Fields(text, ..) | Input(text, ..)) = row;
            return Some(text);
        }
    }
    None
}

#[test]
fn connections_have_their_replies(rt: HostRuntime) {
    none_is_wrong(&rt, wrong_row(rt.alloc()));
}

/// Returns a place at which the shipper's request, cut there, has a reply, or ends otherwise than a
/// torn one.
fn wrong_cut_of(alloc: Global, request: &[u8]) -> Option<usize> {
    for len in 0..request.len() {
        let mut part = &request[..len];
        let how = if len == 0 { Eof } else { Torn };
        if !is_served(alloc, &mut part, b"", how) {
            return Some(len);
        }
    }
    None
}

fn wrong_cut(alloc: Global) -> Option<usize> {
    let mut request = Vec::new(alloc);
    match put_all_lines(&mut request, &[HEAD, MESSAGE]) {
        Ok(()) => wrong_cut_of(alloc, &request),
        Err(_) => Some(0),
    }
}

/// The shipper's request has its reply, and none if it is cut before one of its bytes.
#[test]
fn cut_requests_have_no_reply(rt: HostRuntime) {
    holds(
        &rt,
        are_served(rt.alloc(), &[HEAD, MESSAGE], NO_CONTENT, Closed),
    );
    no_number_is_wrong(&rt, wrong_cut(rt.alloc()));
}

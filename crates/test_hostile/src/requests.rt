//! The sender's request with each byte changed to each value, and the replies that may result for
//! each part of it. `rt try --test` is too slow for it.

use crate::bodies::one;
use rw_endpoint::{ServeEnd, serve};
use rw_head::{Head, Limits};
use rw_types::Room;
use std::alloc::{AllocError, Global};

/// What becomes of a request: its status, and whether the reply closes.
type Outcome = (u16, bool);

/// It is cut off, and has no reply.
const TORN: Outcome = (0, false);

const TAKEN: Outcome = (204, true);

const TAKEN_AND_KEPT: Outcome = (204, false);

const BAD: Outcome = (400, true);

const NOT_FOUND: Outcome = (404, true);

const OTHER_METHOD: Outcome = (405, true);

const NO_LENGTH: Outcome = (411, true);

const OTHER_TYPE: Outcome = (415, true);

/// The reply of each outcome.
static REPLIES: [(&[u8], Outcome); 8] = [
    (b"", (0, false)),
    (
        b"HTTP/1.1 204 No Content\r\nConnection: close\r\n\r\n",
        (204, true),
    ),
    (b"HTTP/1.1 204 No Content\r\n\r\n", (204, false)),
    (
        b"HTTP/1.1 400 Bad Request\r\nContent-Length: 0\r\nConnection: close\r\n\r\n",
        (400, true),
    ),
    (
        b"HTTP/1.1 404 Not Found\r\nContent-Length: 0\r\nConnection: close\r\n\r\n",
        (404, true),
    ),
    (
        b"HTTP/1.1 405 Method Not Allowed\r\nAllow: POST\r\nContent-Length: 0\r\nConnection: close\r\n\r\n",
        (405, true),
    ),
    (
        b"HTTP/1.1 411 Length Required\r\nContent-Length: 0\r\nConnection: close\r\n\r\n",
        (411, true),
    ),
    (
        b"HTTP/1.1 415 Unsupported Media Type\r\nContent-Length: 0\r\nConnection: close\r\n\r\n",
        (415, true),
    ),
];

/// The parts of the head, and what becomes of the request if one of their bytes is changed. A line
/// feed ends a line, so a CR that becomes one ends the head.
static PARTS: [(&[u8], &[Outcome]); 11] = [
    (b"POST ", &[OTHER_METHOD, BAD]),
    (b"/api/v1/write", &[NOT_FOUND, BAD]),
    (b" HTTP/1.1\r\n", &[TAKEN, NO_LENGTH, BAD]),
    (b"Host: localhost:9090\r\n", &[TAKEN, NO_LENGTH, BAD]),
    (b"User-Agent: rwship/1.0\r\n", &[TAKEN, NO_LENGTH, BAD]),
    (
        b"Content-Type: application/x-protobuf\r\n",
        &[TAKEN, OTHER_TYPE, NO_LENGTH, BAD],
    ),
    (
        b"X-Prometheus-Remote-Write-Version: 0.1.0\r\n",
        &[TAKEN, NO_LENGTH, BAD],
    ),
    (
        b"Connection: close\r\n",
        &[TAKEN, TAKEN_AND_KEPT, NO_LENGTH, BAD],
    ),
    (b"Content-Length:", &[NO_LENGTH, BAD, TAKEN]),
    (b" 32\r\n", &[TAKEN, TORN, BAD]),
    (b"\r\n", &[BAD]),
];

fn replies() -> &'static [(&'static [u8], Outcome)] {
    &REPLIES
}

fn parts() -> &'static [(&'static [u8], &'static [Outcome])] {
    &PARTS
}

/// Returns what became of a request, by the reply, the end and what the head then holds, or `None`
/// if these do not fit.
fn outcome_of(written: &[u8], end: ServeEnd, total: u64) -> Option<Outcome> {
    for (reply, outcome) in replies() {
        if *reply == written {
            let is_end = match *outcome {
                (0, _) => end == ServeEnd::Torn,
                (_, true) => end == ServeEnd::Closed,
                (_, false) => end == ServeEnd::Eof,
            };
            return if is_end && (outcome.0 == 204 || total == 0) {
                Some(*outcome)
            } else {
                None
            };
        }
    }
    None
}

/// Returns what becomes of a request to a head that holds nothing.
fn served(alloc: Global, limits: &Limits, request: &[u8]) -> Option<Outcome> {
    let mut room = Room::new(alloc, 128).ok()?;
    let mut head = Head::new(alloc, limits);
    let mut reader = request;
    let end = serve(alloc, &mut reader, &mut room, &mut head, limits);
    outcome_of(room.as_slice(), end, head.total())
}

/// Returns the first value of this byte of the head with which something else becomes of the
/// request.
fn wrong_value(
    alloc: Global,
    limits: &Limits,
    request: &mut [u8],
    at: usize,
    wanted: &[Outcome],
) -> Option<u8> {
    let byte = *request.get(at)?;
    for value in 0..=255u8 {
        request[at] = value;
        let is_wanted = match served(alloc, limits, request) {
            Some(outcome) if value == byte => outcome == TAKEN,
            Some(outcome) => wanted.contains(&outcome),
            None => false,
        };
        if !is_wanted {
            return Some(value);
        }
    }
    request[at] = byte;
    None
}

/// Returns the first byte of this part of the head whose change has another outcome.
fn wrong_byte(
    alloc: Global,
    limits: &Limits,
    request: &mut [u8],
    from: usize,
    part: &(&[u8], &[Outcome]),
) -> Option<(usize, u8)> {
    for i in 0..part.0.len() {
        let at = from.saturating_add(i);
        if let Some(value) = wrong_value(alloc, limits, request, at, part.1) {
            return Some((at, value));
        }
    }
    None
}

fn put_request(request: &mut Vec<u8>) -> Result<(), AllocError> {
    for (part, _) in parts() {
        request.extend_from_slice(part)?;
    }
    request.extend_from_slice(one())
}

fn wrong_head(alloc: Global) -> Result<Option<(usize, u8)>, AllocError> {
    let limits = Limits::standard(alloc)?;
    let mut request = Vec::new(alloc);
    put_request(&mut request)?;
    let mut from: usize = 0;
    for part in parts() {
        if let Some(wrong) = wrong_byte(alloc, &limits, &mut request, from, part) {
            return Ok(Some(wrong));
        }
        from = from.saturating_add(part.0.len());
    }
    Ok(None)
}

#[test]
fn each_byte_of_the_head_changed(rt: HostRuntime) {
    assert_eq!(rt; wrong_head(rt.alloc()), Ok(None));
}

/// Returns what a head that holds nothing makes of a body.
fn answer_to(alloc: Global, limits: &Limits, body: &[u8]) -> Outcome {
    let mut head = Head::new(alloc, limits);
    (head.answer(body), true)
}

/// Returns whether the reply to a request is the head's answer to its body, which begins at this
/// byte.
fn is_answered(alloc: Global, limits: &Limits, request: &[u8], from: usize) -> bool {
    let (_, body) = request.split_at(from.min(request.len()));
    served(alloc, limits, request) == Some(answer_to(alloc, limits, body))
}

/// Returns the first value of this byte with which the reply differs.
fn wrong_answer(
    alloc: Global,
    limits: &Limits,
    request: &mut [u8],
    from: usize,
    at: usize,
) -> Option<u8> {
    let byte = *request.get(at)?;
    for value in 0..=255u8 {
        request[at] = value;
        if !is_answered(alloc, limits, request, from) {
            return Some(value);
        }
    }
    request[at] = byte;
    None
}

fn wrong_body(alloc: Global) -> Result<Option<(usize, u8)>, AllocError> {
    let limits = Limits::standard(alloc)?;
    let mut request = Vec::new(alloc);
    put_request(&mut request)?;
    let from = request.len().saturating_sub(one().len());
    for at in from..request.len() {
        if let Some(value) = wrong_answer(alloc, &limits, &mut request, from, at) {
            return Ok(Some((at, value)));
        }
    }
    Ok(None)
}

#[test]
fn each_byte_of_the_body_changed(rt: HostRuntime) {
    assert_eq!(rt; wrong_body(rt.alloc()), Ok(None));
}

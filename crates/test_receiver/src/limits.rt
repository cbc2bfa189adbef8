//! Heads at their limits: 64 fields, and 8,192 bytes with the last empty line.

use crate::rows::none_is_wrong;
use crate::store::is_served;
use rw_endpoint::ServeEnd;
use std::alloc::{AllocError, Global};

const START: &[u8] = b"POST /api/v1/write HTTP/1.1\r\nContent-Length: 0\r\nConnection: close\r\n";

const FIELD: &[u8] = b"A: b\r\n";

const END: &[u8] = b"\r\n";

const TAKEN: &[u8] = b"HTTP/1.1 204 No Content\r\nConnection: close\r\n\r\n";

const REFUSED: &[u8] =
    b"HTTP/1.1 400 Bad Request\r\nContent-Length: 0\r\nConnection: close\r\n\r\n";

/// Texts, and how often each is repeated.
type Texts = &'static [(&'static [u8], usize)];

/// Requests, their lengths, and the replies to them. Empty lines before a request also count.
static REQUESTS: [(&str, Texts, usize, &[u8]); 6] = [
    (
        "most fields",
        &[(START, 1), (FIELD, 62), (END, 1)],
        441,
        TAKEN,
    ),
    (
        "a field more",
        &[(START, 1), (FIELD, 63), (END, 1)],
        447,
        REFUSED,
    ),
    (
        "8,192 bytes",
        &[(START, 1), (b"A: ", 1), (b"b", 8118), (END, 2)],
        8192,
        TAKEN,
    ),
    (
        "8,193 bytes",
        &[(START, 1), (b"A: ", 1), (b"b", 8119), (END, 2)],
        8193,
        REFUSED,
    ),
    (
        "8,192 bytes with empty lines",
        &[(b"\n", 8123), (START, 1), (END, 1)],
        8192,
        TAKEN,
    ),
    (
        "8,193 bytes with empty lines",
        &[(b"\n", 8124), (START, 1), (END, 1)],
        8193,
        REFUSED,
    ),
];

fn put_texts(request: &mut Vec<u8>, texts: &[(&[u8], usize)]) -> Result<(), AllocError> {
    for (text, often) in texts {
        for _ in 0..*often {
            request.extend_from_slice(text)?;
        }
    }
    Ok(())
}

/// Returns whether a request has this length and this reply, which closes.
fn is_replied(alloc: Global, texts: &[(&[u8], usize)], len: usize, reply: &[u8]) -> bool {
    let mut request = Vec::new(alloc);
    if put_texts(&mut request, texts).is_err() || request.len() != len {
        return false;
    }
    let mut reader = request.as_slice();
    is_served(alloc, &mut reader, reply, ServeEnd::Closed)
}

/// Returns the first request that has another length or another reply.
fn first_wrong(alloc: Global) -> Option<&'static str> {
    for (name, texts, len, reply) in &REQUESTS {
        if !is_replied(alloc, texts, *len, reply) {
            return Some(name);
        }
    }
    None
}

#[test]
fn heads_end_within_limits(rt: HostRuntime) {
    none_is_wrong(&rt, first_wrong(rt.alloc()));
}

//! What a request or a reply carries, by a look at its bytes.

use crate::fields::{SAMPLE, SERIES, next_field};

/// The tag of the timestamp in a sample.
const TIMESTAMP: u64 = 16;

/// The latest timestamp that there can be. What is above it is the spelling of one before 1970.
const LATEST_MS: u64 = i64::MAX as u64;

/// How many samples a request carries, and the latest of their timestamps.
#[derive(Clone, Copy, Debug, PartialEq, Eq)]
pub(crate) struct Cargo {
    pub(crate) samples: u64,
    /// In milliseconds since 1970; 0 if there is none after that.
    pub(crate) newest_ms: u64,
}

/// Returns the timestamp of a sample in milliseconds; 0 if it is before 1970.
fn timestamp_of(sample: &[u8]) -> u64 {
    let mut rest = sample;
    for _ in 0..sample.len() {
        let Some((field, after)) = next_field(rest) else {
            return 0;
        };
        if field.tag == TIMESTAMP {
            return if field.number > LATEST_MS {
                0
            } else {
                field.number
            };
        }
        rest = after;
    }
    0
}

/// Counts the samples of a series. The last one of them is the latest, since those of a series
/// rise.
fn count_series(cargo: &mut Cargo, series: &[u8]) {
    let mut rest = series;
    let mut last: &[u8] = &[];
    for _ in 0..series.len() {
        let Some((field, after)) = next_field(rest) else {
            break;
        };
        if field.tag == SAMPLE {
            cargo.samples = cargo.samples.saturating_add(1);
            last = field.held;
        }
        rest = after;
    }
    cargo.newest_ms = cargo.newest_ms.max(timestamp_of(last));
}

/// Returns the bytes after the head of a request or a reply.
fn body_of(message: &[u8]) -> &[u8] {
    for at in 0..message.len() {
        if let Some(body) = message[at..].strip_prefix(b"\r\n\r\n") {
            return body;
        }
    }
    &[]
}

/// Returns the bytes after the head of a reply, before which informational ones may come.
pub(crate) fn reply_body(reply: &[u8]) -> &[u8] {
    let mut body = body_of(reply);
    for _ in 0..reply.len() {
        if !body.starts_with(b"HTTP/") {
            break;
        }
        body = body_of(body);
    }
    body
}

/// Looks at what a request carries: a head, and a message of Remote-Write 1.0 as this program
/// writes it. Of other bytes it may say anything.
pub(crate) fn cargo_of(request: &[u8]) -> Cargo {
    let mut cargo = Cargo {
        samples: 0,
        newest_ms: 0,
    };
    let mut rest = body_of(request);
    for _ in 0..request.len() {
        let Some((field, after)) = next_field(rest) else {
            return cargo;
        };
        if field.tag == SERIES {
            count_series(&mut cargo, field.held);
        }
        rest = after;
    }
    cargo
}

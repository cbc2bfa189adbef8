//! Request bodies and the statuses that answer them.

use crate::messages::{Samples, UP, has_samples, message, standard};
use crate::rows::{holds, none_is_wrong};
use rw_head::{Head, Limits};
use rw_test_parts::{UP_MESSAGE as ONE, WORD_OF_ONE};
use rw_types::Bounded;
use rw_write_request::encode;
use std::alloc::{AllocError, Global};

/// One series `{__name__="down"}` and one `{__name__="up"}`, each with the sample 1 at 2000.
pub(crate) const TWO: [u8; 66] = [
    0x0a, 0x20, 0x0a, 0x10, 0x0a, 0x08, 0x5f, 0x5f, 0x6e, 0x61, 0x6d, 0x65, 0x5f, 0x5f, 0x12, 0x04,
    0x64, 0x6f, 0x77, 0x6e, 0x12, 0x0c, 0x09, 0, 0, 0, 0, 0, 0, 0xf0, 0x3f, 0x10, 0xd0, 0x0f, 0x0a,
    0x1e, 0x0a, 0x0e, 0x0a, 0x08, 0x5f, 0x5f, 0x6e, 0x61, 0x6d, 0x65, 0x5f, 0x5f, 0x12, 0x02, 0x75,
    0x70, 0x12, 0x0c, 0x09, 0, 0, 0, 0, 0, 0, 0xf0, 0x3f, 0x10, 0xd0, 0x0f,
];

/// Returns a head that is busy for one request.
fn busy(alloc: Global) -> Result<Head, AllocError> {
    let mut limits = Limits::standard(alloc)?;
    limits.busy_first = Bounded::new(1);
    Ok(Head::new(alloc, &limits))
}

/// A name, a body, the status that answers it, and how many samples the head then holds.
type Row<'a> = (&'static str, &'a [u8], u16, u64);

/// Asks a head with bodies one after the other. Returns the first one with another status, or
/// another number of samples after it.
fn first_wrong(head: Result<Head, AllocError>, rows: &[Row<'_>]) -> Option<&'static str> {
    let Ok(mut head) = head else {
        return Some("a head");
    };
    for (name, body, status, total) in rows {
        if head.answer(body) != *status || head.total() != *total {
            return Some(name);
        }
    }
    None
}

/// Returns the first body that is answered wrongly by a head that is busy for this one.
fn wrong_of_busy(alloc: Global, first: &[u8]) -> Option<&'static str> {
    let rows: [Row<'_>; 4] = [
        ("the first body", first, 429, 0),
        ("one series without the last byte", &ONE[..31], 400, 0),
        ("one series", &ONE, 204, 1),
        ("its repeat", &ONE, 204, 1),
    ];
    first_wrong(busy(alloc), &rows)
}

#[test]
fn a_busy_head_looks_at_nothing(rt: HostRuntime) {
    none_is_wrong(&rt, wrong_of_busy(rt.alloc(), &ONE[..31]));
    none_is_wrong(&rt, wrong_of_busy(rt.alloc(), &ONE));
}

/// `ONE` with the word 1 at 999.
const OLDER: [u8; 32] = [
    0x0a, 0x1e, 0x0a, 0x0e, 0x0a, 0x08, 0x5f, 0x5f, 0x6e, 0x61, 0x6d, 0x65, 0x5f, 0x5f, 0x12, 0x02,
    0x75, 0x70, 0x12, 0x0c, 0x09, 1, 0, 0, 0, 0, 0, 0, 0, 0x10, 0xe7, 0x07,
];

/// One series `{b="1", a="1"}` without samples.
const UNSORTED: [u8; 18] = [
    0x0a, 0x10, 0x0a, 0x06, 0x0a, 0x01, 0x62, 0x12, 0x01, 0x31, 0x0a, 0x06, 0x0a, 0x01, 0x61, 0x12,
    0x01, 0x31,
];

/// `ONE` with the value of its label before the name.
const SPELLED_OTHERWISE: [u8; 32] = [
    0x0a, 0x1e, 0x0a, 0x0e, 0x12, 0x02, 0x75, 0x70, 0x0a, 0x08, 0x5f, 0x5f, 0x6e, 0x61, 0x6d, 0x65,
    0x5f, 0x5f, 0x12, 0x0c, 0x09, 0, 0, 0, 0, 0, 0, 0xf0, 0x3f, 0x10, 0xe8, 0x07,
];

/// `ONE` with the word 1 at 1001, and an unknown field before the sample.
const UNKNOWN_FIELD: [u8; 34] = [
    0x0a, 0x20, 0x0a, 0x0e, 0x0a, 0x08, 0x5f, 0x5f, 0x6e, 0x61, 0x6d, 0x65, 0x5f, 0x5f, 0x12, 0x02,
    0x75, 0x70, 0x18, 0x05, 0x12, 0x0c, 0x09, 1, 0, 0, 0, 0, 0, 0, 0, 0x10, 0xe9, 0x07,
];

/// `OLDER` with the label a="1" after the sample: another series, which begins with the same bytes.
const LABEL_BEHIND: [u8; 40] = [
    0x0a, 0x26, 0x0a, 0x0e, 0x0a, 0x08, 0x5f, 0x5f, 0x6e, 0x61, 0x6d, 0x65, 0x5f, 0x5f, 0x12, 0x02,
    0x75, 0x70, 0x12, 0x0c, 0x09, 1, 0, 0, 0, 0, 0, 0, 0, 0x10, 0xe7, 0x07, 0x0a, 0x06, 0x0a, 0x01,
    0x61, 0x12, 0x01, 0x31,
];

/// Bodies that come one after the other.
static BODIES: [Row; 8] = [
    ("no series", &[], 204, 0),
    ("one series", &ONE, 204, 1),
    ("an older sample", &OLDER, 400, 1),
    ("falling names", &UNSORTED, 400, 1),
    ("the same series again", &ONE, 204, 1),
    ("another spelling", &SPELLED_OTHERWISE, 204, 1),
    ("an unknown field", &UNKNOWN_FIELD, 204, 2),
    ("a label after the sample", &LABEL_BEHIND, 204, 3),
];

fn wrong_status(alloc: Global) -> Option<&'static str> {
    first_wrong(standard(alloc), &BODIES)
}

#[test]
fn statuses_tell_verdicts(rt: HostRuntime) {
    none_is_wrong(&rt, wrong_status(rt.alloc()));
}

/// The words of the values 1, 2, 3 and 5.
const VALUES: [u64; 4] = [
    WORD_OF_ONE,
    0x4000_0000_0000_0000,
    0x4008_0000_0000_0000,
    0x4014_0000_0000_0000,
];

const FIRST_TWO: Samples<'static> = &[(10, VALUES[0]), (20, VALUES[1])];

const FIRST_THREE: Samples<'static> = &[(10, VALUES[0]), (20, VALUES[1]), (30, VALUES[2])];

/// What a request shows, its samples and its status, and what a head that held the first two
/// samples holds after it.
type Later = (&'static str, Samples<'static>, u16, Samples<'static>);

static LATER: [Later; 3] = [
    (
        "a repeat and a later sample",
        &[(20, VALUES[1]), (30, VALUES[2])],
        204,
        FIRST_THREE,
    ),
    (
        "a later sample and one that is earlier than it",
        &[(30, VALUES[2]), (25, VALUES[0])],
        400,
        FIRST_TWO,
    ),
    (
        "another value at the last timestamp",
        &[(20, VALUES[3])],
        400,
        FIRST_TWO,
    ),
];

fn later() -> &'static [Later] {
    &LATER
}

/// Returns how a head answers the body of these samples of one series, or 503 if memory runs out.
fn status_of(alloc: Global, head: &mut Head, samples: Samples<'_>) -> u16 {
    let Ok(message) = message(alloc, &[(UP, samples)]) else {
        return 503;
    };
    match encode(alloc, &message) {
        Ok(body) => head.answer(&body),
        Err(_) => 503,
    }
}

/// Returns whether a head that holds the first two samples answers a request in this way, and then
/// holds just this.
fn is_answered_so(alloc: Global, row: &Later) -> bool {
    let Ok(mut head) = standard(alloc) else {
        return false;
    };
    status_of(alloc, &mut head, FIRST_TWO) == 204
        && status_of(alloc, &mut head, row.1) == row.2
        && has_samples(alloc, &head, UP, row.3)
        && head.total() == row.3.len() as u64
}

/// Returns the first request that is answered differently, each by a new head.
fn wrong_by_itself(alloc: Global) -> Option<&'static str> {
    for row in later() {
        if !is_answered_so(alloc, row) {
            return Some(row.0);
        }
    }
    None
}

/// Asks one head with all requests. Returns the first one that has another status, or after which
/// the head holds anything but the first three samples.
fn wrong_in_turn(alloc: Global) -> Option<&'static str> {
    let Ok(mut head) = standard(alloc) else {
        return Some("a head");
    };
    if status_of(alloc, &mut head, FIRST_TWO) != 204 {
        return Some("the first two samples");
    }
    for row in later() {
        let is_so = status_of(alloc, &mut head, row.1) == row.2;
        if !is_so || !has_samples(alloc, &head, UP, FIRST_THREE) || head.total() != 3 {
            return Some(row.0);
        }
    }
    None
}

#[test]
fn later_samples_are_appended_and_earlier_ones_refused(rt: HostRuntime) {
    none_is_wrong(&rt, wrong_by_itself(rt.alloc()));
    none_is_wrong(&rt, wrong_in_turn(rt.alloc()));
}

/// Returns the body of `count` samples of one series, with timestamps that are not short.
fn long_body(alloc: Global, count: i64) -> Result<Vec<u8>, AllocError> {
    let mut samples = Vec::new(alloc);
    for t in 0..count {
        samples.push((t | 1 << 62, 1))?;
    }
    encode(alloc, &message(alloc, &[(UP, &samples)])?)
}

/// Returns the body of 10,000 samples of one series with ascending times, and of one more after
/// them.
fn body_with_last(alloc: Global, last: i64) -> Result<Vec<u8>, AllocError> {
    let mut samples = Vec::new(alloc);
    for t in 0..10_000 {
        samples.push((t, 1))?;
    }
    samples.push((last, 1))?;
    encode(alloc, &message(alloc, &[(UP, &samples)])?)
}

/// Returns the first of these bodies that a new head answers wrongly: one whose last sample is too
/// old, and one with a later one, twice.
fn wrong_of_parts(alloc: Global) -> Option<&'static str> {
    let (Ok(bad), Ok(good)) = (body_with_last(alloc, -1), body_with_last(alloc, 10_000)) else {
        return Some("the bodies");
    };
    let rows: [Row<'_>; 3] = [
        ("a last sample that is too old", &bad, 400, 0),
        ("a later one", &good, 204, 10_001),
        ("its repeat", &good, 204, 10_001),
    ];
    first_wrong(standard(alloc), &rows)
}

/// A series that is staged in parts is kept whole or not at all.
#[test]
fn a_long_series_is_whole(rt: HostRuntime) {
    none_is_wrong(&rt, wrong_of_parts(rt.alloc()));
}

fn takes(alloc: Global, body: &[u8]) -> bool {
    match standard(alloc) {
        Ok(mut head) => head.answer(body) == 204 && head.total() == 800_000,
        Err(_) => false,
    }
}

fn takes_a_long_body(alloc: Global) -> bool {
    match long_body(alloc, 800_000) {
        Ok(body) => body.len() > 16_777_216 && takes(alloc, &body),
        Err(_) => false,
    }
}

/// Only the endpoint's limit, which a head does not know, refuses a body for its length.
#[test]
fn a_long_body_is_taken(rt: HostRuntime) {
    holds(&rt, takes_a_long_body(rt.alloc()));
}

/// A series before the rest of its metric's name, and after it: with the sample 1 at 1.
const FRONT: [u8; 17] = *b"\x0a\x24\x0a\x15\x0a\x08__name__\x12\x09m";

const BEHIND: [u8; 13] = *b"\x12\x0b\x09\0\0\0\0\0\0\xf0\x3f\x10\x01";

/// Adds a series whose metric has this number, in letters.
fn push_series(body: &mut Vec<u8>, number: u32) -> Result<(), AllocError> {
    body.extend_from_slice(&FRONT)?;
    for byte in number.to_be_bytes() {
        body.push(b'a'.wrapping_add(byte / 16))?;
        body.push(b'a'.wrapping_add(byte % 16))?;
    }
    body.extend_from_slice(&BEHIND)
}

/// Returns a body of many series, the first or the last one first.
fn many_series(alloc: Global, is_falling: bool) -> Result<Vec<u8>, AllocError> {
    let mut body = Vec::new(alloc);
    for i in 0..200_000 {
        push_series(&mut body, if is_falling { 199_999 - i } else { i })?;
    }
    Ok(body)
}

/// Returns the first of these bodies that a new head answers wrongly: many series, and the same
/// ones from the last one on.
fn wrong_of_many(alloc: Global) -> Option<&'static str> {
    let (Ok(rising), Ok(falling)) = (many_series(alloc, false), many_series(alloc, true)) else {
        return Some("the bodies");
    };
    let rows: [Row<'_>; 2] = [
        ("the first series first", &rising, 204, 200_000),
        ("the last series first", &falling, 204, 200_000),
    ];
    first_wrong(standard(alloc), &rows)
}

/// A head that looked at each label set that it has would take many minutes.
#[test]
fn many_label_sets_are_found(rt: HostRuntime) {
    none_is_wrong(&rt, wrong_of_many(rt.alloc()));
}

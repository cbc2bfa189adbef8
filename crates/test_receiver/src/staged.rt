//! Bodies that are staged before they are taken: what each adds, and what the head holds after it
//! is committed or aborted.

use crate::messages::{
    DOWN, FALLING, Labels, Parts, Samples, UP, are_same, label_set, message, standard,
};
use crate::rows::none_is_wrong;
use rw_head::{AddedSeries, Head, StagedHead};
use rw_types::Word;
use rw_write_request::encode;
use std::alloc::{AllocError, Global};

const IDLE: Labels<'static> = &[("__name__", "idle")];

/// A name for the request, its series, its status, and what it adds. The requests come one after
/// the other to one head.
type Row = (&'static str, Parts<'static>, u16, Parts<'static>);

static ROWS: [Row; 11] = [
    ("no series", &[], 204, &[]),
    (
        "two new series",
        &[(UP, &[(10, 1), (20, 2)]), (DOWN, &[(10, 3)])],
        204,
        &[(UP, &[(10, 1), (20, 2)]), (DOWN, &[(10, 3)])],
    ),
    (
        "a repeat of all samples",
        &[(UP, &[(10, 1), (20, 2)]), (DOWN, &[(10, 3)])],
        204,
        &[],
    ),
    (
        "a repeat and a later sample",
        &[(UP, &[(20, 2), (30, 3)])],
        204,
        &[(UP, &[(30, 3)])],
    ),
    (
        "a series that comes twice",
        &[
            (UP, &[(40, 4)]),
            (DOWN, &[(20, 5)]),
            (UP, &[(40, 4), (50, 5)]),
        ],
        204,
        &[(UP, &[(40, 4), (50, 5)]), (DOWN, &[(20, 5)])],
    ),
    (
        "a repeat before the new sample of the same series",
        &[(UP, &[(50, 5)]), (DOWN, &[(30, 6)]), (UP, &[(60, 6)])],
        204,
        &[(DOWN, &[(30, 6)]), (UP, &[(60, 6)])],
    ),
    (
        "a new series that comes twice",
        &[(IDLE, &[(10, 7)]), (IDLE, &[(10, 7), (20, 8)])],
        204,
        &[(IDLE, &[(10, 7), (20, 8)])],
    ),
    ("a series without samples", &[(UP, &[])], 204, &[]),
    (
        "a sample out of order after a good one",
        &[(DOWN, &[(40, 7)]), (UP, &[(25, 1)])],
        400,
        &[],
    ),
    (
        "labels that do not rise, after a new series",
        &[(&[("__name__", "new")], &[(10, 1)]), (FALLING, &[(10, 1)])],
        400,
        &[],
    ),
    (
        "a later sample after refused requests",
        &[(DOWN, &[(40, 7)])],
        204,
        &[(DOWN, &[(40, 7)])],
    ),
];

/// Returns the body of a request with these series.
fn body_of(alloc: Global, parts: Parts<'_>) -> Result<Vec<u8>, AllocError> {
    encode(alloc, &message(alloc, parts)?)
}

/// Returns whether an addition has these labels and samples.
fn is_addition(
    alloc: Global,
    addition: &AddedSeries<'_>,
    part: &(Labels<'_>, Samples<'_>),
    samples: &mut Vec<(i64, Word)>,
) -> bool {
    match label_set(alloc, part.0) {
        Ok(labels) if labels == *addition.labels() => {}
        _ => return false,
    }
    addition.copy_samples(samples).is_ok() && are_same(samples, part.1)
}

/// Returns whether the message adds just this, in this order.
fn adds(alloc: Global, staged: &StagedHead, parts: Parts<'_>) -> bool {
    let mut samples = Vec::new(alloc);
    let mut added = staged.added();
    for part in parts {
        match added.next() {
            Some(addition) if is_addition(alloc, &addition, part, &mut samples) => {}
            _ => return false,
        }
    }
    added.next().is_none()
}

/// Returns whether both heads hold the same.
fn are_equal(alloc: Global, left: &Head, right: &Head) -> bool {
    let mut others = right.series();
    for series in left.series() {
        let Some(other) = others.next() else {
            return false;
        };
        if series.labels() != other.labels() {
            return false;
        }
        let Ok(samples) = series.samples(alloc) else {
            return false;
        };
        let Ok(same) = other.samples(alloc) else {
            return false;
        };
        if samples != same {
            return false;
        }
    }
    others.next().is_none() && left.total() == right.total() && left.places() == right.places()
}

/// Stages a body and aborts it. Returns the head and its status, or 503 if the body adds anything
/// but these series.
fn abort(alloc: Global, head: Head, body: &[u8], parts: Parts<'_>) -> (Head, u16) {
    match head.stage(body) {
        Ok(staged) if adds(alloc, &staged, parts) => (staged.abort(), 204),
        Ok(staged) => (staged.abort(), 503),
        Err(refused) => refused,
    }
}

/// Returns the same, but commits the body.
fn commit(alloc: Global, head: Head, body: &[u8], parts: Parts<'_>) -> (Head, u16) {
    match head.stage(body) {
        Ok(staged) if adds(alloc, &staged, parts) => (staged.commit(), 204),
        Ok(staged) => (staged.commit(), 503),
        Err(refused) => refused,
    }
}

/// Gives a body to a head that stages it, first to abort and then to commit it, and to one that
/// answers it. Returns the staging head, and whether each step did what the row says.
fn is_staged(alloc: Global, head: Head, answering: &mut Head, row: &Row) -> (Head, bool) {
    let Ok(body) = body_of(alloc, row.1) else {
        return (head, false);
    };
    let (head, first) = abort(alloc, head, &body, row.3);
    let unchanged = are_equal(alloc, &head, answering);
    let (head, second) = commit(alloc, head, &body, row.3);
    let status = answering.answer(&body);
    let same = are_equal(alloc, &head, answering);
    (
        head,
        unchanged && same && first == row.2 && second == row.2 && status == row.2,
    )
}

/// Returns the first row that goes wrong.
fn wrong_row(alloc: Global) -> Option<&'static str> {
    let (Ok(mut head), Ok(mut answering)) = (standard(alloc), standard(alloc)) else {
        return Some("two heads");
    };
    for row in &ROWS {
        let (next, is_right) = is_staged(alloc, head, &mut answering, row);
        head = next;
        if !is_right {
            return Some(row.0);
        }
    }
    None
}

#[test]
fn staged_bodies_are_committed_or_aborted(rt: HostRuntime) {
    none_is_wrong(&rt, wrong_row(rt.alloc()));
}

/// A name, how many samples of one series are committed first, and the number of the last sample
/// that the next request shows. Its first one is the last that is held.
static LONG: [(&str, u32, u32); 7] = [
    ("one sample more", 5, 6),
    ("a sample that fills the open block", 119, 120),
    ("samples over the end of a block", 100, 130),
    ("samples that begin a block", 120, 130),
    ("samples after a full block", 130, 140),
    ("samples of several blocks", 250, 700),
    ("samples of several parts of a series", 130, 12_000),
];

/// Returns the samples `i` at `10 * i`, for `i` from the first to the last.
fn tens(alloc: Global, first: u32, last: u32) -> Result<Vec<(i64, u64)>, AllocError> {
    let mut samples = Vec::new(alloc);
    for i in first..=last {
        samples.push((i64::from(i) * 10, u64::from(i)))?;
    }
    Ok(samples)
}

/// Returns whether a head that holds the first samples of a series adds just the samples after
/// these, and then answers a repeat of all by adding nothing.
fn goes_on(alloc: Global, held: u32, last: u32) -> Result<bool, AllocError> {
    let first = tens(alloc, 1, held)?;
    let shown = tens(alloc, held, last)?;
    let Some(new) = shown.get(1..) else {
        return Ok(false);
    };
    let head = standard(alloc)?;
    let (head, status) = commit(
        alloc,
        head,
        &body_of(alloc, &[(UP, &first)])?,
        &[(UP, &first)],
    );
    if status != 204 {
        return Ok(false);
    }
    let body = body_of(alloc, &[(UP, &shown)])?;
    let (head, aborted) = abort(alloc, head, &body, &[(UP, new)]);
    let (head, committed) = commit(alloc, head, &body, &[(UP, new)]);
    let (head, repeated) = commit(alloc, head, &body, &[]);
    Ok(aborted == 204 && committed == 204 && repeated == 204 && head.total() == u64::from(last))
}

/// Returns the first long series that goes wrong.
fn wrong_series(alloc: Global) -> Option<&'static str> {
    for (name, held, last) in &LONG {
        match goes_on(alloc, *held, *last) {
            Ok(true) => {}
            _ => return Some(name),
        }
    }
    None
}

#[test]
fn new_samples_of_long_series_are_added(rt: HostRuntime) {
    none_is_wrong(&rt, wrong_series(rt.alloc()));
}

//! Long series, which the head holds in full blocks of 120 samples and an open one.

use crate::messages::{
    DOWN, Labels, Parts, Row, Samples, UP, are_same, asked, first_wrong, has_samples, narrow,
};
use crate::rows::{holds, no_number_is_wrong};
use rw_head::{Head, Verdict};
use std::alloc::{AllocError, Global};

/// Returns the samples `i` at `10 * i`, for `i` from the first to the last of each range.
pub(crate) fn tens(alloc: Global, ranges: &[(u32, u32)]) -> Result<Vec<(i64, u64)>, AllocError> {
    let mut samples = Vec::new(alloc);
    for (first, last) in ranges {
        for i in *first..=*last {
            samples.push((i64::from(i) * 10, u64::from(i)))?;
        }
    }
    Ok(samples)
}

/// Returns whether a head stores all of these samples of `up`, in requests of `size` samples.
fn stores(alloc: Global, head: &mut Head, samples: Samples<'_>, size: usize) -> bool {
    for part in samples.chunks(size.max(1)) {
        let Verdict::Stored(_) = asked(alloc, head, &[(UP, part)]) else {
            return false;
        };
    }
    true
}

/// Returns a head with the samples `i` at `10 * i` of `up`, for `i` from 1 to 241, in requests of
/// `size` samples.
fn filled(alloc: Global, size: usize) -> Result<Head, AllocError> {
    let samples = tens(alloc, &[(1, 241)])?;
    let mut head = narrow(alloc)?;
    if stores(alloc, &mut head, &samples, size) {
        Ok(head)
    } else {
        Err(AllocError)
    }
}

/// How many full blocks `up` has, how many samples are after them, and how many samples the head
/// holds.
type Shape = (usize, usize, u64);

/// Returns the shape of `up`, which is the last label set. This takes no memory.
fn shape(head: &Head) -> Shape {
    match head.label_sets().last() {
        Some(up) => (head.sealed(up).len(), head.open(up).len(), head.total()),
        None => (0, 0, head.total()),
    }
}

/// Returns whether a message has this verdict, and `up` then this shape.
fn is_judged(
    alloc: Global,
    head: &mut Head,
    parts: Parts<'_>,
    verdict: Verdict,
    then: Shape,
) -> bool {
    asked(alloc, head, parts) == verdict && shape(head) == then
}

/// Returns whether the blocks begin with the first sample and end with the 240th, and the 241st is
/// after them.
fn are_filled(head: &Head) -> bool {
    let Some(up) = head.label_sets().next() else {
        return false;
    };
    let [first, last] = head.sealed(up) else {
        return false;
    };
    let (first, last) = (first.samples().as_slice(), last.samples().as_slice());
    are_same(&first[..1], &[(10, 1)])
        && are_same(&last[119..], &[(2400, 240)])
        && are_same(head.open(up), &[(2410, 241)])
}

/// Samples of `up` for a head with the 241 samples, the verdicts on them, and the shapes after
/// them.
static REQUESTS: [(Samples<'static>, Verdict, Shape); 4] = [
    (
        &[(10, 1), (1200, 120), (1210, 121), (2410, 241)],
        Verdict::Stored(0),
        (2, 1, 241),
    ),
    (&[(2400, 5)], Verdict::OutOfOrder, (2, 1, 241)),
    (&[(2405, 1)], Verdict::OutOfOrder, (2, 1, 241)),
    (&[(2410, 241), (2420, 242)], Verdict::Stored(1), (2, 2, 242)),
];

/// Returns whether a head of the 241 samples judges the requests in this way.
fn judges_requests(alloc: Global, head: &mut Head) -> bool {
    for (samples, verdict, then) in &REQUESTS {
        if !is_judged(alloc, head, &[(UP, *samples)], *verdict, *then) {
            return false;
        }
    }
    true
}

/// Returns whether a head that was filled by requests of `size` samples has its blocks, and judges
/// the requests.
fn is_the_same_by(alloc: Global, size: usize) -> bool {
    match filled(alloc, size) {
        Ok(mut head) => {
            shape(&head) == (2, 1, 241) && are_filled(&head) && judges_requests(alloc, &mut head)
        }
        Err(_) => false,
    }
}

/// Returns the first size of requests with which the result differs.
fn wrong_size(alloc: Global) -> Option<usize> {
    for size in [1, 119, 120, 121, 241] {
        if !is_the_same_by(alloc, size) {
            return Some(size);
        }
    }
    None
}

/// Returns whether a head holds 1,100,000 samples of `up`, which came in requests of 10,000.
fn holds_a_million(alloc: Global) -> bool {
    let (Ok(samples), Ok(mut head)) = (tens(alloc, &[(1, 1_100_000)]), narrow(alloc)) else {
        return false;
    };
    stores(alloc, &mut head, &samples, 10_000) && shape(&head) == (9166, 80, 1_100_000)
}

#[test]
fn a_head_takes_more_than_a_million_samples(rt: HostRuntime) {
    holds(&rt, holds_a_million(rt.alloc()));
}

#[test]
fn a_series_is_blocks_whatever_the_requests(rt: HostRuntime) {
    no_number_is_wrong(&rt, wrong_size(rt.alloc()));
}

/// The samples 1 to 300, with repeats among them and after them.
static WITH_REPEATS: [(u32, u32); 8] = [
    (1, 130),
    (1, 1),
    (120, 120),
    (130, 130),
    (131, 300),
    (300, 300),
    (121, 121),
    (240, 240),
];

/// Returns whether the head holds the samples `i` at `10 * i` of `up`, for `i` up to this one.
fn has_tens(alloc: Global, head: &Head, last: u32) -> bool {
    match tens(alloc, &[(1, last)]) {
        Ok(all) => has_samples(alloc, head, UP, &all),
        Err(_) => false,
    }
}

fn takes_once(alloc: Global, samples: Samples<'_>) -> bool {
    let Ok(mut head) = narrow(alloc) else {
        return false;
    };
    is_judged(
        alloc,
        &mut head,
        &[(UP, samples)],
        Verdict::Stored(300),
        (2, 60, 300),
    ) && has_tens(alloc, &head, 300)
}

fn takes_each_once(alloc: Global) -> bool {
    match tens(alloc, &WITH_REPEATS) {
        Ok(samples) => takes_once(alloc, &samples),
        Err(_) => false,
    }
}

#[test]
fn a_request_fills_several_blocks(rt: HostRuntime) {
    holds(&rt, takes_each_once(rt.alloc()));
}

/// Returns whether a head of the 241 samples refuses these before a bad series, and keeps what it
/// held.
fn refuses(alloc: Global, more: Samples<'_>) -> bool {
    let Ok(mut head) = filled(alloc, 100) else {
        return false;
    };
    is_judged(
        alloc,
        &mut head,
        &[(UP, more), (DOWN, &[(20, 1), (10, 1)])],
        Verdict::OutOfOrder,
        (2, 1, 241),
    ) && has_tens(alloc, &head, 241)
}

/// Returns the same for 259 samples more.
fn refuses_more(alloc: Global) -> bool {
    match tens(alloc, &[(242, 500)]) {
        Ok(more) => refuses(alloc, &more),
        Err(_) => false,
    }
}

#[test]
fn a_refused_request_leaves_the_blocks(rt: HostRuntime) {
    holds(&rt, refuses_more(rt.alloc()));
}

/// A new series before one that is out of order.
const BAD: Parts<'static> = &[(DOWN, &[(10, 1)]), (UP, &[(5, 1)])];

/// What the head holds at the end.
static LAST: [(Labels<'static>, Samples<'static>); 2] = [(UP, &[(10, 1)]), (DOWN, &[(10, 1)])];

static ROWS: [Row; 5] = [
    ("a sample", &[(UP, &[(10, 1)])], Verdict::Stored(1), &[1, 0]),
    ("a bad message", BAD, Verdict::OutOfOrder, &[1, 0]),
    ("the same again", BAD, Verdict::OutOfOrder, &[1, 0]),
    ("a third time", BAD, Verdict::OutOfOrder, &[1, 0]),
    (
        "a new one",
        &[(DOWN, &[(10, 1)])],
        Verdict::Stored(1),
        &[1, 1],
    ),
];

/// Returns whether an empty head has a place for none of these label sets, and then for those that
/// it stores.
fn has_places_for_stored(alloc: Global) -> bool {
    let Ok(mut head) = narrow(alloc) else {
        return false;
    };
    head.places() == 0
        && first_wrong(alloc, &mut head, &ROWS, &LAST) == None
        && head.places() == 2
        && head.label_sets().count() == 2
}

#[test]
fn a_refused_request_leaves_no_label_sets(rt: HostRuntime) {
    holds(&rt, has_places_for_stored(rt.alloc()));
}

/// Returns the verdict on a message, asked for again if memory ran out and that left the 241
/// samples as they are.
fn verdict_at_last(alloc: Global, head: &mut Head, parts: Parts<'_>) -> Verdict {
    let verdict = asked(alloc, head, parts);
    if verdict == Verdict::NoMemory && shape(head) == (2, 1, 241) && head.places() == 1 {
        asked(alloc, head, parts)
    } else {
        verdict
    }
}

/// Returns whether 259 samples more of `up` and a new series are taken in the end.
fn takes_more_at_last(alloc: Global, head: &mut Head, more: Samples<'_>) -> bool {
    verdict_at_last(alloc, head, &[(UP, more), (DOWN, &[(10, 1)])]) == Verdict::Stored(260)
        && shape(head) == (4, 20, 501)
}

/// Returns a head of the 241 samples, asked for again if memory ran out, that takes these.
fn filled_takes_more(alloc: Global, more: Samples<'_>) -> bool {
    let head = match filled(alloc, 241) {
        Err(_) => filled(alloc, 241),
        head => head,
    };
    match head {
        Ok(mut head) => takes_more_at_last(alloc, &mut head, more),
        Err(_) => false,
    }
}

fn takes_more(alloc: Global) -> bool {
    let more = match tens(alloc, &[(242, 500)]) {
        Err(_) => tens(alloc, &[(242, 500)]),
        more => more,
    };
    match more {
        Ok(more) => filled_takes_more(alloc, &more),
        Err(_) => false,
    }
}

#[test]
fn refused_memory_leaves_the_blocks(rt: HostRuntime) {
    holds(&rt, takes_more(rt.alloc()));
}

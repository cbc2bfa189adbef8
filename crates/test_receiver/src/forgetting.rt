//! A head that lets samples go from memory: what is left there, and what it answers then.

use crate::blocks::tens;
use crate::messages::{DOWN, Parts, UP, asked, standard};
use crate::rows::{holds, none_is_wrong};
use rw_head::{Head, InMemory, Limits, RecentSamples, Verdict, horizon};
use std::alloc::{AllocError, Global};

/// Returns a head that may forget, with the samples `i` at `10 * i` of `up`, for `i` from 1 to 250,
/// and one of `down`.
fn filled(alloc: Global) -> Result<Head<RecentSamples>, AllocError> {
    let samples = tens(alloc, &[(1, 250)])?;
    let limits = Limits::standard(alloc)?;
    let mut head = Head::<RecentSamples>::with_memory(alloc, &limits);
    match asked(
        alloc,
        &mut head,
        &[(UP, samples.as_slice()), (DOWN, &[(10, 1)])],
    ) {
        Verdict::Stored(251) => Ok(head),
        _ => Err(AllocError),
    }
}

/// A message to a head whose samples of `up` up to 1,200 are gone from memory, and the verdict. The
/// messages of a table come one after the other to one head.
type Row = (&'static str, Parts<'static>, Verdict);

static ROWS: [Row; 9] = [
    ("the first", &[(UP, &[(10, 1)])], Verdict::NoMemory),
    (
        "the last that is gone",
        &[(UP, &[(1_200, 120)])],
        Verdict::NoMemory,
    ),
    (
        "one of a series that is gone",
        &[(UP, &[(1_195, 7)])],
        Verdict::NoMemory,
    ),
    (
        "a new series before one that is gone",
        &[(&[("__name__", "new")], &[(10, 1)]), (UP, &[(20, 2)])],
        Verdict::NoMemory,
    ),
    (
        "neither later nor held",
        &[(UP, &[(1_205, 7)])],
        Verdict::OutOfOrder,
    ),
    (
        "the first in memory",
        &[(UP, &[(1_210, 121)])],
        Verdict::Stored(0),
    ),
    ("the last", &[(UP, &[(2_500, 250)])], Verdict::Stored(0)),
    (
        "the only one of a series",
        &[(DOWN, &[(10, 1)])],
        Verdict::Stored(0),
    ),
    ("a later one", &[(UP, &[(2_510, 251)])], Verdict::Stored(1)),
];

/// Returns the first row with another verdict.
fn wrong_verdict(alloc: Global, head: &mut Head<RecentSamples>) -> Option<&'static str> {
    for (name, parts, verdict) in &ROWS {
        if asked(alloc, head, parts) != *verdict {
            return Some(name);
        }
    }
    None
}

/// Returns what goes wrong first: what is in memory, how many samples are held, or a verdict.
fn first_wrong(alloc: Global) -> Option<&'static str> {
    let Ok(mut head) = filled(alloc) else {
        return Some("a head");
    };
    let left = head.forget(2_000);
    let expected = InMemory {
        samples: 131,
        asked: 0,
        latest: Some(2_500),
    };
    if left != expected || (head.total(), head.places()) != (251, 2) {
        return Some("what is in memory");
    }
    if let Some(name) = wrong_verdict(alloc, &mut head) {
        return Some(name);
    }
    let left = head.forget(i64::MAX);
    let expected = InMemory {
        samples: 12,
        asked: 1,
        latest: Some(2_510),
    };
    if left != expected || (head.total(), head.places()) != (252, 2) {
        return Some("what is in memory at last");
    }
    None
}

#[test]
fn a_head_that_forgets_says_what_it_can_tell(rt: HostRuntime) {
    none_is_wrong(&rt, first_wrong(rt.alloc()));
}

/// Returns whether a head that may not forget keeps its samples, and says nothing of its memory.
fn keeps_all(alloc: Global) -> bool {
    let Ok(mut head) = standard(alloc) else {
        return false;
    };
    let Ok(samples) = tens(alloc, &[(1, 250)]) else {
        return false;
    };
    let sent: Parts<'_> = &[(UP, samples.as_slice())];
    asked(alloc, &mut head, sent) == Verdict::Stored(250)
        && head.forget(i64::MAX) == InMemory::none()
        && asked(alloc, &mut head, sent) == Verdict::Stored(0)
}

#[test]
fn a_head_with_all_samples_forgets_none(rt: HostRuntime) {
    holds(&rt, keeps_all(rt.alloc()));
}

/// Returns whether the horizon is before the latest sample and before the clock.
fn is_before_both() -> bool {
    horizon(10_000, 20_000, 3_000) == 7_000
        && horizon(20_000, 10_000, 3_000) == 7_000
        && horizon(i64::MIN, 0, 1) == i64::MIN
        && horizon(0, i64::MAX, u64::MAX) == -i64::MAX
}

#[test]
fn samples_go_by_the_latest_one_and_the_clock(rt: HostRuntime) {
    holds(&rt, is_before_both());
}

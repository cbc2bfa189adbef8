//! The queue between threads: both ends in one thread, and each in its own.

ghost use Rattle.std.specs.Prelude.{◌≡◌, IfSome};

use crate::feeding::two;
use crate::rows::holds;
use rw_shard_queue::{Drain, Ended, Feed, Gone, Item, Kind, Open, Taken, begins, compare, open};
use rw_types::{LabelSet, Word};
use std::alloc::{AllocError, Global};
use std::sync::{Arc, Wait};
use std::thread::{Threads, join};

fn no_labels(alloc: Global) -> Result<Arc<LabelSet>, AllocError> {
    Ok(Arc::new(alloc, LabelSet::empty(alloc))?)
}

/// What was taken: the position of a sample, nothing of a Flush, and the end if an End was taken.
#[derive(Drop)]
struct Haul {
    positions: Vec<Option<u64>>,
    end: Option<(Kind, Drain<Ended>)>,
}

fn position(item: &Item) -> Option<u64> {
    match item {
        Item::Sample(place, ..) => Some(place.pos),
        _ => None,
    }
}

/// Takes items as long as some are put.
fn drained<R: Wait>(rt: &R, drain: Drain<Open>, positions: Vec<Option<u64>>) -> Haul
    ensures { IfSome result.end (λ e. e.1.queue ≡ drain.queue) }
{
    let mut drain = drain;
    let mut positions = positions;
    for _ in rt.forever() {
        match drain.take(rt) {
            Taken::Item(item, next) => {
                let _ = positions.push(position(&item));
                drain = next;
            }
            Taken::End(kind, ended) => {
                return Haul {
                    positions,
                    end: Some((kind, ended)),
                };
            }
            Taken::Gone(_) => {
                return Haul {
                    positions,
                    end: None,
                };
            }
        }
    }
    unreachable!()
}

/// Returns whether all was taken as it was put, up to an orderly End.
fn is_whole<R: Wait>(rt: &R, fed: Option<Feed<Ended>>, haul: Haul) -> bool
    requires { IfSome fed (λ f. IfSome haul.end (λ e. f.queue ≡ e.1.queue)) }
{
    let Some(feed) = fed else {
        return false;
    };
    let Haul { positions, end } = haul;
    let Some((kind, drain)) = end else {
        return false;
    };
    let _whole = compare(rt, feed, drain);
    kind == Kind::Orderly && positions.as_slice() == [Some(5), None, Some(9)].as_slice()
}

/// Returns whether a thread takes all after what it has put.
fn takes_in_one_thread<R: Wait>(rt: &R, alloc: Global) -> Result<bool, AllocError> {
    let labels = no_labels(alloc)?;
    let positions = Vec::with_capacity(alloc, 3)?;
    let (feed, drain) = open(alloc, 3, 1, 4)?;
    let (feed, drain) = begins(feed, drain);
    let Some(feed) = two(rt, feed, labels, Word(0)) else {
        return Ok(false);
    };
    let (feed, drain) = begins(feed, drain);
    let haul = drained(rt, drain, positions);
    Ok(is_whole(rt, Some(feed), haul))
}

#[test]
fn one_thread(rt: HostRuntime) {
    holds(&rt, takes_in_one_thread(&rt, rt.alloc()) == Ok(true));
}

/// Returns whether a thread takes all that another one puts.
fn takes_in_two_threads<R: Threads + Wait + Sync>(
    rt: &R,
    alloc: Global,
) -> Result<bool, AllocError> {
    let labels = no_labels(alloc)?;
    let positions = Vec::with_capacity(alloc, 3)?;
    let (feed, drain) = open(alloc, 3, 1, 1)?;
    let (fed, haul) = join(
        rt,
        || two(rt, feed, labels, Word(0)),
        || drained(rt, drain, positions),
    );
    Ok(is_whole(rt, fed, haul))
}

/// The queue holds one item, so each thread waits for the other.
#[test]
fn two_threads(rt: HostRuntime) {
    holds(&rt, takes_in_two_threads(&rt, rt.alloc()) == Ok(true));
}

/// Returns whether an end that waits for room returns when the other end is given up.
fn feed_is_told<R: Threads + Wait + Sync>(rt: &R, alloc: Global) -> Result<bool, AllocError> {
    let (mut feed, drain) = open(alloc, 3, 1, 1)?;
    let is_put = feed.put(rt, Item::Flush).is_ok();
    let ((feed, answer), _killed) = join(
        rt,
        || {
            let answer = feed.put(rt, Item::Flush);
            (feed, answer)
        },
        || drain.kill(),
    );
    let is_told = matches!(answer, Err((Item::Flush, Gone)));
    let is_told_at_end = matches!(feed.end(rt, Kind::Hard), Err((_, Gone)));
    Ok(is_put && is_told && is_told_at_end)
}

/// Returns whether an end that waits for an item returns when the other end is given up.
fn drain_is_told<R: Threads + Wait + Sync>(rt: &R, alloc: Global) -> Result<bool, AllocError> {
    let (feed, drain) = open(alloc, 3, 1, 1)?;
    let (haul, ()) = join(rt, || drained(rt, drain, Vec::new(alloc)), || drop(feed));
    Ok(haul.end.is_none() && haul.positions.is_empty())
}

#[test]
fn gone_ends(rt: HostRuntime) {
    holds(&rt, feed_is_told(&rt, rt.alloc()) == Ok(true));
    holds(&rt, drain_is_told(&rt, rt.alloc()) == Ok(true));
}

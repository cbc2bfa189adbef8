//! The queue within one thread. The call that takes memory is made again if it fails, so each test
//! can be run with each allocation failing in turn.

use crate::rows::none_is_wrong;
use rw_plain_queue::{Item, Kind, PlainQueue, PutFault};
use std::alloc::{AllocError, Global};

/// What is done with a queue, and what is then seen.
#[derive(Clone, Copy)]
enum Step {
    /// An End is put, with the number of the fault, or 0 if it is not refused.
    Put(Kind, u8),
    /// A Flush is put.
    PutFlush,
    /// An End of this kind is taken, or nothing.
    Take(Option<Kind>),
    Close,
    Kill,
    /// There are this many items.
    Len(usize),
    /// Nothing can be put, for this reason.
    Refusal(PutFault),
    /// There are only Flushes.
    Flushes,
}

fn queue_of(alloc: Global, capacity: usize) -> Result<PlainQueue, AllocError> {
    match PlainQueue::new(alloc, capacity) {
        Ok(queue) => Ok(queue),
        Err(_) => PlainQueue::new(alloc, capacity),
    }
}

fn is_end(item: &Item, kind: Kind) -> bool {
    matches!(item, Item::End(of) if *of == kind)
}

/// Returns whether putting an End has the fault of this number, and gives it back, or has none if
/// the number is 0.
fn puts(queue: &mut PlainQueue, kind: Kind, fault: u8) -> bool {
    match queue.put(Item::End(kind)) {
        Ok(()) => fault == 0,
        Err((item, found)) => found as u8 == fault && is_end(&item, kind),
    }
}

/// Returns whether an End of this kind is taken, or nothing.
fn takes(queue: &mut PlainQueue, kind: Option<Kind>) -> bool {
    match (queue.take(), kind) {
        (Some(item), Some(kind)) => is_end(&item, kind),
        (None, None) => true,
        _ => false,
    }
}

/// Returns whether there are only Flushes.
fn has_flushes(queue: &PlainQueue) -> bool {
    for item in queue.iter() {
        if !matches!(item, Item::Flush) {
            return false;
        }
    }
    true
}

/// Returns whether a step goes as it says.
fn does(queue: &mut PlainQueue, step: Step) -> bool {
    match step {
        Step::Put(kind, fault) => puts(queue, kind, fault),
        Step::PutFlush => queue.put(Item::Flush).is_ok(),
        Step::Take(kind) => takes(queue, kind),
        Step::Close => {
            queue.close();
            true
        }
        Step::Kill => {
            queue.kill();
            true
        }
        Step::Len(len) => queue.len() == len && queue.is_empty() == (len == 0),
        Step::Refusal(fault) => queue.refusal() == Some(fault),
        Step::Flushes => has_flushes(queue),
    }
}

/// Returns whether each of these steps goes as it says.
fn does_all(queue: &mut PlainQueue, steps: &[Step]) -> bool {
    for step in steps {
        if !does(queue, *step) {
            return false;
        }
    }
    true
}

/// Returns the same with a new queue of this capacity.
fn goes(alloc: Global, capacity: usize, steps: &[Step]) -> bool {
    match queue_of(alloc, capacity) {
        Ok(mut queue) => does_all(&mut queue, steps),
        Err(_) => false,
    }
}

const IN_ORDER: &[Step] = &[
    Step::Len(0),
    Step::Put(Kind::Orderly, 0),
    Step::Put(Kind::Reshard, 0),
    Step::Put(Kind::Hard, 1),
    Step::Len(2),
    Step::Take(Some(Kind::Orderly)),
    Step::Put(Kind::Hard, 0),
    Step::Take(Some(Kind::Reshard)),
    Step::Take(Some(Kind::Hard)),
    Step::Take(None),
];

const CLOSED: &[Step] = &[
    Step::Put(Kind::Orderly, 0),
    Step::Refusal(PutFault::Full),
    Step::Close,
    Step::Put(Kind::Hard, 2),
    Step::Take(Some(Kind::Orderly)),
    Step::Put(Kind::Hard, 2),
];

const KILLED_EMPTY: &[Step] = &[
    Step::Refusal(PutFault::Full),
    Step::Kill,
    Step::Put(Kind::Hard, 2),
    Step::Take(None),
];

const KILLED_WITH_A_FLUSH: &[Step] = &[
    Step::PutFlush,
    Step::Kill,
    Step::Len(1),
    Step::Flushes,
    Step::Take(None),
    Step::Put(Kind::Orderly, 2),
];

/// A name, the capacity of a queue, and what is done with it.
type Schedule = (&'static str, usize, &'static [Step]);

static SCHEDULES: [Schedule; 4] = [
    ("items in order", 2, IN_ORDER),
    ("a closed queue", 1, CLOSED),
    ("a kill without items", 0, KILLED_EMPTY),
    ("a kill with a flush", 3, KILLED_WITH_A_FLUSH),
];

fn schedules() -> &'static [Schedule] {
    &SCHEDULES
}

fn wrong_schedule(alloc: Global, schedules: &[Schedule]) -> Option<&'static str> {
    for (name, capacity, steps) in schedules {
        if !goes(alloc, *capacity, steps) {
            return Some(name);
        }
    }
    None
}

#[test]
fn items_come_in_order_until_it_is_killed(rt: HostRuntime) {
    none_is_wrong(&rt, wrong_schedule(rt.alloc(), schedules()));
}

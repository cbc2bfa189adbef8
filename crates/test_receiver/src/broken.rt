//! Devices that fail in mid-stream: what was written is a prefix of the replies, and what was
//! stored is not stored again.

ghost use Rattle.std.specs.Prelude.{⊤};

use crate::rows::holds;
use crate::store::{Store, is_served_by, served};
use rw_endpoint::{Answer, ServeEnd};
use rw_test_parts::{Giving, Taking};
use rw_types::Room;
use std::alloc::Global;
use std::cell::Cell;

const REQUESTS: &[u8] =
    b"POST /api/v1/write HTTP/1.1\r\nContent-Length: 5\r\n\r\nfirstPOST /api/v1/write HTTP/1.1\r\nConnection: close\r\nContent-Length: 6\r\n\r\nsecond";

const REPLIES: &[u8] =
    b"HTTP/1.1 204 No Content\r\n\r\nHTTP/1.1 204 No Content\r\nConnection: close\r\n\r\n";

const FIRST_REPLY: &[u8] = b"HTTP/1.1 204 No Content\r\n\r\n";

/// More reads and writes than these connections take.
const MANY: usize = 1000;

/// Returns how the requests end with a reader and a writer of which these calls fail, counted from
/// 1. `None` if what was written is not a prefix of the replies, or the end does not say whether a
/// device failed.
fn end_of_broken(
    alloc: Global,
    store: &mut Store,
    reads: usize,
    writes: usize,
) -> Option<ServeEnd> {
    let (reads, writes) = (Cell::new(reads), Cell::new(writes));
    let mut reader = Giving::new(REQUESTS, 7, &reads);
    let mut writer = Taking::new(alloc, 5, &writes);
    let end = served(alloc, &mut reader, &mut writer, store);
    let has_failed = reader.failed || writer.failed;
    if REPLIES.starts_with(&writer.taken) && has_failed == (end == ServeEnd::Device) {
        Some(end)
    } else {
        None
    }
}

/// Returns whether the requests have all their replies, and two bodies are then stored.
fn is_answered(alloc: Global, store: &mut Store) -> bool {
    let mut reader = REQUESTS;
    is_served_by(alloc, &mut reader, store, REPLIES, ServeEnd::Closed) && store.bodies.len() == 2
}

/// Returns the same end, if the requests that come again are answered.
fn end_before_answered(alloc: Global, reads: usize, writes: usize) -> Option<ServeEnd> {
    let mut store = Store::new(alloc);
    let end = end_of_broken(alloc, &mut store, reads, writes);
    if is_answered(alloc, &mut store) {
        end
    } else {
        None
    }
}

/// What fails.
#[derive(Clone, Copy)]
enum Side {
    Reader,
    Writer,
}

/// Returns whether the requests take more than ten calls of one side, and the result is right if
/// one of them fails.
fn may_fail(alloc: Global, side: Side) -> bool {
    for n in 1..MANY {
        let (reads, writes) = match side {
            Side::Reader => (n, 0),
            Side::Writer => (0, n),
        };
        match end_before_answered(alloc, reads, writes) {
            Some(ServeEnd::Device) => {}
            Some(_) => return n > 11,
            None => return false,
        }
    }
    false
}

#[test]
fn each_read_and_each_write_may_fail(rt: HostRuntime) {
    holds(&rt, may_fail(rt.alloc(), Side::Reader));
    holds(&rt, may_fail(rt.alloc(), Side::Writer));
}

/// Returns whether a room of 50 bytes holds the first reply, and both bodies are asked for.
fn holds_first_reply(alloc: Global) -> bool {
    let Ok(mut room) = Room::new(alloc, 50) else {
        return false;
    };
    let mut store = Store::new(alloc);
    let mut reader = REQUESTS;
    served(alloc, &mut reader, &mut room, &mut store) == ServeEnd::Device
        && room.as_slice() == FIRST_REPLY
        && store.asked == 2
}

/// A writer with too little room for the second reply holds the first one.
#[test]
fn rooms_hold_whole_replies(rt: HostRuntime) {
    holds(&rt, holds_first_reply(rt.alloc()));
}

/// Counts the bodies that it is asked for, and takes no memory.
#[derive(Drop)]
struct Counter {
    asked: usize,
}

impl Answer for Counter {
    ghost answers = { λ _ _ _ _. ⊤ };

    fn answer(&mut self, _body: &[u8]) -> u16 {
        self.asked = self.asked.saturating_add(1);
        204
    }
}

/// What is written and how the connection ends after this many bodies, if all have their replies or
/// memory ran out.
static ENDS: [(&[u8], ServeEnd); 3] = [
    (b"", ServeEnd::OutOfMemory),
    (FIRST_REPLY, ServeEnd::OutOfMemory),
    (REPLIES, ServeEnd::Closed),
];

fn is_whole(asked: usize, written: &[u8], end: ServeEnd) -> bool {
    match ENDS.get(asked) {
        Some((replies, how)) => written == *replies && end == *how,
        None => false,
    }
}

/// Returns whether the requests leave whole replies, if there is memory for a room.
fn leaves_whole_replies(alloc: Global) -> bool {
    let Ok(mut room) = Room::new(alloc, 128) else {
        return true;
    };
    let mut counter = Counter { asked: 0 };
    let mut reader = REQUESTS;
    let end = served(alloc, &mut reader, &mut room, &mut counter);
    is_whole(counter.asked, room.as_slice(), end)
}

/// If memory runs out, a body that was asked for has its whole reply, and one that was not has
/// none.
#[test]
fn refused_memory_leaves_whole_replies(rt: HostRuntime) {
    holds(&rt, leaves_whole_replies(rt.alloc()));
}

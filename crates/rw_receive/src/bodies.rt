//! The bodies of a service that are not finished: how much of them is in memory, and how long they
//! may take.

use rw_in_flight::{BodyRoom, Intake};
use std::alloc::Global;
use std::sync::{Mutex, Wait};

/// The bounds of the bodies of a service.
#[derive(Clone, Copy, Debug, Drop)]
pub struct BodyBounds {
    /// How many bytes of requests that are not answered yet may be in memory; none for no limit.
    pub max_bytes: Option<u64>,
    /// How many milliseconds a request may take, however many bytes of it have come; none for no
    /// limit but `request_ms` and a millisecond for each byte.
    pub max_ms: Option<u64>,
}

impl BodyBounds {
    /// Returns that there is no bound.
    pub fn none() -> BodyBounds {
        BodyBounds {
            max_bytes: None,
            max_ms: None,
        }
    }
}

/// The bodies of a service that are not finished, which its connections share. No clause says
/// anything about it: what is decided under the lock, the contracts of `BodyRoom` say.
#[derive(Drop)]
pub struct SharedRoom {
    /// None if there is no limit.
    room: Option<Mutex<BodyRoom>>,
}

impl SharedRoom {
    /// Returns room for this many bytes, or for any number.
    pub(crate) fn new(alloc: Global, max_bytes: Option<u64>) -> SharedRoom {
        SharedRoom {
            room: match max_bytes {
                Some(limit) => Some(Mutex::new(BodyRoom::new(alloc, limit))),
                None => None,
            },
        }
    }

    /// Begins a body, and returns its number, if it is counted. One for whose place no memory is
    /// left is counted as number `u64::MAX`, which is closed as soon as it grows.
    pub(crate) fn begin<R: Wait>(&self, rt: &R) -> Option<u64> {
        match &self.room {
            Some(room) => Some(room.lock(rt).begin().unwrap_or(u64::MAX)),
            None => None,
        }
    }

    /// Takes more bytes of a body.
    pub(crate) fn grow<R: Wait>(&self, rt: &R, number: Option<u64>, more: u64) -> Intake {
        match (&self.room, number) {
            (Some(room), Some(number)) => room.lock(rt).grow(number, more),
            _ => Intake::Taken,
        }
    }

    /// Returns whether a body is to be closed.
    pub(crate) fn is_closed<R: Wait>(&self, rt: &R, number: Option<u64>) -> bool {
        match (&self.room, number) {
            (Some(room), Some(number)) => room.lock(rt).is_closed(number),
            _ => false,
        }
    }

    /// Removes a body that has ended.
    pub(crate) fn end<R: Wait>(&self, rt: &R, number: Option<u64>) {
        if let (Some(room), Some(number)) = (&self.room, number) {
            room.lock(rt).end(number);
        }
    }
}

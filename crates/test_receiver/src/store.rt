//! What answers bodies in these tests, and a connection that it serves.

ghost use Rattle.std.specs.Prelude.{⊤};

use rw_endpoint::{Answer, ServeEnd, serve};
use rw_head::Limits;
use rw_types::{Bounded, Room, Sink, Source};
use std::alloc::{AllocError, Global};

/// Stores each body that it does not hold yet, and answers 204. A body `bad` is 400, `busy` 429 and
/// `full` 503.
#[derive(Drop)]
pub(crate) struct Store {
    alloc: Global,
    pub(crate) bodies: Vec<Vec<u8>>,
    pub(crate) asked: u64,
}

impl Store {
    pub(crate) fn new(alloc: Global) -> Store {
        Store {
            alloc,
            bodies: Vec::new(alloc),
            asked: 0,
        }
    }

    fn holds(&self, body: &[u8]) -> bool {
        self.bodies.iter().any(|b| b.as_slice() == body)
    }

    fn store(&mut self, body: &[u8]) -> Result<(), AllocError> {
        let copy = Vec::from_slice(self.alloc, body)?;
        self.bodies.push(copy)?;
        Ok(())
    }
}

impl Answer for Store {
    ghost answers = { λ _ _ _ _. ⊤ };

    fn answer(&mut self, body: &[u8]) -> u16 {
        self.asked = self.asked.saturating_add(1);
        match body {
            b"bad" => 400,
            b"busy" => 429,
            b"full" => 503,
            _ => {
                if self.holds(body) || self.store(body).is_ok() {
                    204
                } else {
                    503
                }
            }
        }
    }
}

/// Returns the limits of these tests: a body has at most 32 bytes.
pub(crate) fn limits(alloc: Global) -> Result<Limits, AllocError> {
    let mut limits = Limits::standard(alloc)?;
    limits.max_body_bytes = Bounded::new(32);
    Ok(limits)
}

/// Serves a connection within these limits. It ends with out of memory also if there was no memory
/// for the limits.
pub(crate) fn served<R: Source, W: Sink, A: Answer>(
    alloc: Global,
    reader: &mut R,
    writer: &mut W,
    answer: &mut A,
) -> ServeEnd {
    match limits(alloc) {
        Ok(limits) => serve(alloc, reader, writer, answer, &limits),
        Err(_) => ServeEnd::OutOfMemory,
    }
}

/// Returns whether a connection has these replies and ends in this way. The answer is no if memory
/// runs out.
pub(crate) fn is_served_by<R: Source, A: Answer>(
    alloc: Global,
    reader: &mut R,
    answer: &mut A,
    replies: &[u8],
    how: ServeEnd,
) -> bool {
    match Room::new(alloc, 1024) {
        Ok(mut room) => {
            served(alloc, reader, &mut room, answer) == how && room.as_slice() == replies
        }
        Err(_) => false,
    }
}

/// Returns the same of a connection to an empty store.
pub(crate) fn is_served<R: Source>(
    alloc: Global,
    reader: &mut R,
    replies: &[u8],
    how: ServeEnd,
) -> bool {
    is_served_by(alloc, reader, &mut Store::new(alloc), replies, how)
}

//! What a follower gives, kept in memory.

ghost use Rattle.std.specs.Prelude.{◌<◌, length};

use rw_follow::{Follower, SegmentError, Segments, StopRequest, Turn, Watch};
use std::alloc::{AllocError, Global};
use std::mem;
use std::sync::Wait;

/// What was given, segment by segment.
#[derive(Drop)]
pub(crate) struct Kept {
    pub(crate) alloc: Global,
    /// The segments that were given whole.
    pub(crate) whole: Vec<Vec<u8>>,
    /// What was read of the next one.
    pub(crate) begun: Vec<u8>,
    pub(crate) flushes: u64,
}

impl Kept {
    pub(crate) fn new(alloc: Global) -> Kept {
        Kept {
            alloc,
            whole: Vec::new(alloc),
            begun: Vec::new(alloc),
            flushes: 0,
        }
    }

    /// Keeps what a turn gives.
    fn take(&mut self, turn: Turn, buf: &[u8]) -> Result<(), AllocError> {
        match turn {
            Turn::Piece(count) => self.begun.extend_from_slice(&buf[..count.min(buf.len())]),
            Turn::Over => {
                let begun = mem::replace(&mut self.begun, Vec::new(self.alloc));
                match self.whole.push(begun) {
                    Ok(()) => Ok(()),
                    Err(_) => Err(AllocError),
                }
            }
            Turn::Flush => {
                self.flushes = self.flushes.saturating_add(1);
                Ok(())
            }
            Turn::Nothing | Turn::Finished | Turn::Aborted => Ok(()),
        }
    }
}

/// Follows a log until it is stopped. Returns the request that it followed then.
pub(crate) fn follow_into<R: Wait, S: Segments, W: Watch>(
    rt: &R,
    kept: &mut Kept,
    segments: &mut S,
    watch: &mut W,
    buf: &mut [u8],
) -> Result<Result<StopRequest, SegmentError>, AllocError>
    requires { 0 < length buf.old }
{
    let mut follower = Follower::new();
    for _ in rt.forever() {
        match follower.turn(segments, watch, buf) {
            Ok(Turn::Finished) => return Ok(Ok(StopRequest::Finish)),
            Ok(Turn::Aborted) => return Ok(Ok(StopRequest::Abort)),
            Ok(turn) => kept.take(turn, buf)?,
            Err(error) => return Ok(Err(error)),
        }
    }
    unreachable!()
}

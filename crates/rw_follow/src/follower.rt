//! What a follower does at each turn.

ghost use Rattle.std.specs.Prelude.{◌≡◌, ◌<◌, ℕ, length, suc, true, Ok, Err, IfOk};
ghost use Rattle.rw_follow.specs.Meals.{Meal};
ghost use Rattle.rw_follow.specs.Turns.{FitsBuffer, given_with};
ghost use Rattle.rw_types.specs.declared.transfer.ReadFault.{ReadFault};
ghost use Rattle.rw_follow.specs.declared.follower.SegmentError.TheVariants as SegmentError;
ghost use Rattle.rw_follow.specs.declared.follower.Turn.TheVariants as Turn;
ghost use Rattle.rw_follow.specs.declared.signal.StopRequest.TheVariants as StopRequest;

use crate::segments::{Ahead, Segments};
use crate::signal::StopRequest;
use crate::watch::Watch;
use rw_types::ReadFault;
use std::alloc::AllocError;
use std::marker::Model;

/// How a following goes on.
#[derive(Clone, Copy, Debug, PartialEq, Eq)]
pub enum Turn {
    /// This number of bytes of the current segment is at the front of the buffer.
    Piece(usize),
    /// The current segment is over.
    Over,
    /// What was read has waited long enough to be sent on.
    Flush,
    /// Nothing is to be done.
    Nothing,
    /// It was asked to finish, and everything that the log had was read.
    Finished,
    /// It was asked to end at once.
    Aborted,
}

/// Why a log cannot be followed further.
#[derive(Clone, Copy, Debug, PartialEq, Eq)]
pub enum SegmentError {
    /// It cannot be read.
    Unreadable(ReadFault),
    /// The segment of this number is missing.
    Missing(u64),
}

impl From<ReadFault> for SegmentError {
    ghost use Rattle.std.specs.Prelude.{◌≡◌};
    ghost use Rattle.rw_follow.specs.declared.follower.SegmentError.TheVariants.{Unreadable};

    ghost from_gives = { λ f e. e ≡ Unreadable f };

    fn from(fault: ReadFault) -> SegmentError {
        SegmentError::Unreadable(fault)
    }
}

impl From<AllocError> for SegmentError {
    ghost use Rattle.std.specs.Prelude.{◌≡◌};
    ghost use Rattle.rw_follow.specs.declared.follower.SegmentError.TheVariants.{Unreadable};
    ghost use Rattle.rw_types.specs.declared.transfer.ReadFault.TheVariants.{OutOfMemory};

    ghost from_gives = { λ _ e. e ≡ Unreadable OutOfMemory };

    fn from(_e: AllocError) -> SegmentError {
        SegmentError::Unreadable(ReadFault::OutOfMemory)
    }
}

/// Follows a log: returns its segments in order, a piece at a turn, until it is asked to stop.
/// Contracts see whether a segment was seen to come after the current one.
#[derive(Drop)]
pub struct Follower {
    is_followed: bool,
    /// Something was returned since the last flush.
    is_waiting: bool,
}

impl Model for Follower {
    ghost use Rattle.std.specs.Prelude.{Bool};

    ghost Value = { Bool };

    ghost view = { λ f. f.is_followed };
}

impl Follower {
    ghost use Rattle.std.specs.Prelude.{false};

    pub fn new() -> Follower
        ensures { result ≡ false }
    {
        Follower {
            is_followed: false,
            is_waiting: false,
        }
    }

    /// Takes a turn. A segment is over once another one was seen to come after it and, read again
    /// after that, it has no more bytes. When asked to finish, it ends once nothing is left of what
    /// the log has, and does not sleep until then. It sleeps once if nothing is left and no segment
    /// comes after the current one, and in no other case.
    pub fn turn<S: Segments, W: Watch>(
        &mut self,
        segments: &mut S,
        watch: &mut W,
        buf: &mut [u8],
    ) -> Result<Turn, SegmentError>
        requires buffer { 0 < length buf.old }
        requires followed { self.old ≡ true → S.is_followed segments.old }
        ensures given { (start : S.Start) (meal : Meal) → S.gave segments.old start meal
            → S.gave segments.new start (given_with result buf.new meal) }
        ensures piece { IfOk result (λ turn. FitsBuffer turn (length buf.new)) }
        ensures some { (n : ℕ) → result ≡ Ok (Turn.Piece n) → 0 < n }
        ensures orderly { result ≡ Ok Turn.Finished → (start : S.Start) (meal : Meal)
            → S.gave segments.old start meal → S.had_all segments.new start meal }
        ensures finished { result ≡ Ok Turn.Finished → W.said watch.new ≡ StopRequest.Finish }
        ensures aborted { result ≡ Ok Turn.Aborted → W.said watch.new ≡ StopRequest.Abort }
        ensures counted { W.counts watch.new → W.counts watch.old }
        ensures quiet { W.counts watch.new → result ≡ Ok Turn.Nothing → self.new ≡ false
            → W.sleeps watch.new ≡ suc (W.sleeps watch.old) }
        ensures busy { W.counts watch.new → (result ≡ Ok Turn.Nothing → self.new ≡ true)
            → W.sleeps watch.new ≡ W.sleeps watch.old }
        ensures flushed { result ≡ Ok Turn.Flush → W.due watch.new ≡ true }
        ensures hushed { W.is_quiet watch.old ≡ true → W.is_quiet watch.new ≡ true }
        ensures unasked { W.is_quiet watch.old ≡ true → result ≡ Ok Turn.Flush → ⊥ }
        ensures missing { (n : ℕ) → result ≡ Err (SegmentError.Missing n)
            → S.lacks segments.new n }
        ensures followed { self.new ≡ true → S.is_followed segments.new }
        ensures fails { (f : ReadFault) → result ≡ Err (SegmentError.Unreadable f)
            → S.may_fail segments.old f }
        ensures later { (f : ReadFault) → S.may_fail segments.new f → S.may_fail segments.old f }
        ensures room { length buf.new ≡ length buf.old }
    {
        if self.is_waiting && watch.is_flush_due() {
            self.is_waiting = false;
            return Ok(Turn::Flush);
        }
        let request = watch.stop_request();
        if request == StopRequest::Abort {
            return Ok(Turn::Aborted);
        }
        let count = segments.read(buf)?;
        if count > 0 {
            self.is_waiting = true;
            return Ok(Turn::Piece(count));
        }
        if self.is_followed {
            segments.advance()?;
            self.is_followed = false;
            return Ok(Turn::Over);
        }
        match segments.look()? {
            Ahead::Segment => {
                self.is_followed = true;
                Ok(Turn::Nothing)
            }
            Ahead::Missing(number) => Err(SegmentError::Missing(number)),
            Ahead::Nothing => {
                if request == StopRequest::Finish {
                    return Ok(Turn::Finished);
                }
                watch.sleep();
                Ok(Turn::Nothing)
            }
        }
    }
}

//! A log that is there whole, as a list of readers.

ghost use Rattle.std.specs.Prelude.{◌≡◌, ◌∷◌, [], List, map, MatchOption};
ghost use Rattle.rw_follow.specs.Queues.{AreRead};

use crate::segments::{Ahead, Segments};
use rw_types::{ReadFault, Source};
use std::collections::VecDeque;
use std::marker::Model;

/// The segments of a log that does not grow, one reader for each. A reader is dropped once it was
/// read to its end. Contracts see the readers that are left, the current one first.
#[derive(Drop)]
pub struct Queue<S: Drop> {
    current: Option<S>,
    later: VecDeque<S>,
}

impl<S: Drop> Model for Queue<S> {
    ghost use Rattle.std.specs.Prelude.{List};
    ghost use Rattle.rw_follow.specs.inner.Queues.{with_current};

    ghost Value = { List S };

    ghost view = { λ q. with_current q.current (q.later.items) };
}

impl<S: Source + Drop> Queue<S> {
    /// Returns the segments of these readers, in order.
    pub fn new(readers: Vec<S>) -> Queue<S>
        ensures readers { result ≡ readers.items }
        ensures unread { AreRead (map S.remaining readers.items) [] [] (map S.remaining result) }
    {
        let mut later = VecDeque::from(readers);
        let current = later.pop_front();
        Queue { current, later }
    }

    /// Returns the current reader: after a failure the one that has failed.
    pub fn current(&self) -> Option<&S>
        ensures { MatchOption result (self.now ≡ [])
            (λ reader. (later : List S) × (self.now ≡ reader.now ∷ later)) }
    {
        self.current.as_ref()
    }
}

impl<S: Source + Drop> Segments for Queue<S> {
    ghost use Rattle.std.specs.Prelude.{List, Option, ℕ, ◌<◌, ◌≤◌, length, map};
    ghost use Rattle.rw_follow.specs.Queues.{AreAllRead, HasFirstFailed, IsFirstAtEnd, IsFirstSound, MayFail};

    ghost Start = { List (Option (List ℕ)) };

    ghost gave = { λ q lefts meal. AreRead lefts meal.whole meal.begun (map S.remaining q) };

    ghost had_all = { λ _ lefts meal. AreAllRead lefts meal };

    ghost is_read = { λ q. IsFirstAtEnd (map S.remaining q) };

    ghost is_followed = { λ q. 1 < length q };

    ghost is_last = { λ q. length q ≤ 1 };

    ghost lacks = { λ _ _. ⊥ };

    ghost may_fail = { λ q f. MayFail (map S.is_sure q) f };

    ghost has_failed = { λ q. HasFirstFailed (map S.has_failed q) };

    ghost is_sound = { λ q. IsFirstSound (map S.has_failed q) };

    fn read(&mut self, buf: &mut [u8]) -> Result<usize, ReadFault> {
        let Some(current) = &mut self.current else {
            return Ok(0);
        };
        let Ok(count) = current.read(buf) else {
            return Err(ReadFault::Failed);
        };
        Ok(count)
    }

    fn look(&mut self) -> Result<Ahead, ReadFault> {
        if self.current.is_none() || self.later.is_empty() {
            return Ok(Ahead::Nothing);
        }
        Ok(Ahead::Segment)
    }

    fn advance(&mut self) -> Result<(), ReadFault> {
        self.current = self.later.pop_front();
        Ok(())
    }
}

//! A source as a log of one segment.

use crate::segments::{Ahead, Segments};
use rw_types::{ReadFault, Source};

/// A source is a log of one segment that does not grow.
impl<S: Source> Segments for S {
    ghost use Rattle.std.specs.Prelude.{◌≡◌, true, false, ℕ, List, [], ◌∷◌, Option, ⊤};
    ghost use Rattle.std.specs.Io.KnownBytes.{IsAtEnd};
    ghost use Rattle.rw_follow.specs.Queues.{AreRead, MayFailAlone};

    ghost Start = { Option (List ℕ) };

    ghost gave = { λ s left meal. AreRead (left ∷ []) meal.whole meal.begun (S.remaining s ∷ []) };

    ghost had_all = { λ s left meal. AreRead (left ∷ []) meal.whole meal.begun
        (S.remaining s ∷ []) × IsAtEnd (S.remaining s) };

    ghost is_read = { λ s. IsAtEnd (S.remaining s) };

    ghost is_followed = { λ _. ⊤ };

    ghost is_last = { λ _. ⊤ };

    ghost lacks = { λ _ _. ⊥ };

    ghost may_fail = { λ s f. MayFailAlone (S.is_sure s) f };

    ghost has_failed = { λ s. S.has_failed s ≡ true };

    ghost is_sound = { λ s. S.has_failed s ≡ false };

    fn read(&mut self, buf: &mut [u8]) -> Result<usize, ReadFault> {
        let Ok(count) = Source::read(self, buf) else {
            return Err(ReadFault::Failed);
        };
        Ok(count)
    }

    fn look(&mut self) -> Result<Ahead, ReadFault> {
        Ok(Ahead::Nothing)
    }

    // No segment comes after this one, so nobody calls this. It may not be `unreachable!()`: the
    // check refuses a condition that no call can meet.
    fn advance(&mut self) -> Result<(), ReadFault> {
        Err(ReadFault::OutOfMemory)
    }
}

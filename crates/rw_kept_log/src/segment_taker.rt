//! A visitor of the segments of a journal.

ghost use Rattle.std.specs.Prelude.{◌≡◌, ◌++◌, ◌∷◌, [], OnOk};
ghost use Rattle.rw_kept_log.specs.Journal.{Segments};

use std::alloc::AllocError;

/// Takes the segments of a journal as they are loaded, in their order, so that no more than one of
/// them has to be in memory. Contracts see all segments that it has taken.
pub trait SegmentTaker {
    /// The segments that were taken.
    ghost taken: { Self → Segments };

    /// What stays as it is while segments are taken, unless memory runs out.
    ghost Fixed: { Type 0 };

    ghost fixed: { Self → Self.Fixed };

    /// Takes the next segment, which has these bytes.
    fn take(&mut self, text: &[u8]) -> Result<(), AllocError>
        ensures taken { OnOk result (taken self.new ≡ taken self.old ++ text.now ∷ []) }
        ensures fixed { OnOk result (Self.fixed self.new ≡ Self.fixed self.old) };
}

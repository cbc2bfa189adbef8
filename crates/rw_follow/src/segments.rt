//! The segments of a log that may grow while it is read.

ghost use Rattle.std.specs.Prelude.{◌≡◌, ◌<◌, ℕ, Ok, Err, OnOk, OnErr, length};
ghost use Rattle.std.specs.Io.{ReadsAtMost};
ghost use Rattle.rw_follow.specs.Meals.{Meal, read_by, with_next};
ghost use Rattle.rw_follow.specs.declared.segments.Ahead.TheVariants as Ahead;
ghost use Rattle.rw_types.specs.declared.transfer.ReadFault.{ReadFault};
ghost use Rattle.rw_types.specs.declared.transfer.ReadFault.TheVariants.{Failed};

use rw_types::ReadFault;

/// What comes after the current segment.
#[derive(Clone, Copy, Debug, PartialEq, Eq)]
pub enum Ahead {
    /// Nothing yet.
    Nothing,
    /// A segment.
    Segment,
    /// A segment of a still higher number: the one of this number is missing.
    Missing(u64),
}

/// The segments of a log, read in order. The log may grow at its end before each call and within
/// one. Contracts see what was read of a log of which something was known at its start.
pub trait Segments {
    /// What is known of a log before it is read.
    ghost Start: { Type 0 };

    /// Whether this is what was read of a log of which that was known.
    ghost gave: { Self → Self.Start → Meal → Type 0 };

    /// Whether this was all of it when it was last looked at.
    ghost had_all: { Self → Self.Start → Meal → Type 0 };

    /// Whether nothing is left of the current segment.
    ghost is_read: { Self → Type 0 };

    /// Whether a segment comes after the current one.
    ghost is_followed: { Self → Type 0 };

    /// Whether none does.
    ghost is_last: { Self → Type 0 };

    /// Whether the segment of this number is missing after the current one.
    ghost lacks: { Self → ℕ → Type 0 };

    /// Whether a call from here on may fail so.
    ghost may_fail: { Self → ReadFault → Type 0 };

    /// Whether the device of the current segment has failed.
    ghost has_failed: { Self → Type 0 };

    /// Whether it has not.
    ghost is_sound: { Self → Type 0 };

    /// Reads some bytes of the current segment into the front of the buffer, and returns how many.
    /// `Ok(0)` into a buffer that is not empty means that nothing is left of it now.
    fn read(&mut self, buf: &mut [u8]) -> Result<usize, ReadFault>
        ensures bound { ReadsAtMost result buf.new }
        ensures gives { (start : Self.Start) (meal : Meal) → gave self.old start meal
            → gave self.new start (read_by result buf.new meal) }
        ensures end { result ≡ Ok 0 → 0 < length buf.new → is_read self.new }
        ensures followed { is_followed self.old → is_followed self.new }
        ensures sound { OnOk result (is_sound self.new) }
        ensures failed { result ≡ Err Failed → has_failed self.new }
        ensures fails { (f : ReadFault) → result ≡ Err f → may_fail self.old f }
        ensures later { (f : ReadFault) → may_fail self.new f → may_fail self.old f };

    /// Returns what comes after the current segment.
    fn look(&mut self) -> Result<Ahead, ReadFault>
        ensures stays { (start : Self.Start) (meal : Meal) → gave self.old start meal
            → gave self.new start meal }
        ensures nothing { result ≡ Ok Ahead.Nothing → is_last self.new }
        ensures all { result ≡ Ok Ahead.Nothing → is_read self.old → (start : Self.Start)
            (meal : Meal) → gave self.old start meal → had_all self.new start meal }
        ensures followed { result ≡ Ok Ahead.Segment → is_followed self.new }
        ensures missing { (n : ℕ) → result ≡ Ok (Ahead.Missing n) → lacks self.new n }
        ensures sound { is_sound self.old → OnOk result (is_sound self.new) }
        ensures failed { result ≡ Err Failed → has_failed self.new }
        ensures fails { (f : ReadFault) → result ≡ Err f → may_fail self.old f }
        ensures later { (f : ReadFault) → may_fail self.new f → may_fail self.old f };

    /// Goes to the next segment. An `Err` stays at the current one.
    fn advance(&mut self) -> Result<(), ReadFault>
        requires read { is_read self.old }
        requires followed { is_followed self.old }
        ensures steps { OnOk result ((start : Self.Start) (meal : Meal)
            → gave self.old start meal → gave self.new start (with_next meal)) }
        ensures stays { OnErr result ((start : Self.Start) (meal : Meal)
            → gave self.old start meal → gave self.new start meal) }
        ensures followed { OnErr result (is_followed self.new) }
        ensures failed { result ≡ Err Failed → has_failed self.new }
        ensures fails { (f : ReadFault) → result ≡ Err f → may_fail self.old f }
        ensures later { (f : ReadFault) → may_fail self.new f → may_fail self.old f };
}

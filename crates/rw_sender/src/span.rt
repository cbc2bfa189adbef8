//! How far apart in time the samples of an epoch are.

ghost use Rattle.std.specs.Prelude.{◌≡◌, ◌<◌, ◌+ℤ◌, ◌≤ℤ◌, pos, false, true};

/// The earliest sample that was put in an epoch, and by how much others may be later.
#[derive(Clone, Copy, Drop)]
pub(crate) struct Span {
    /// Its timestamp, in milliseconds; the latest that there can be if none was put.
    pub earliest: i64,
    /// By how many milliseconds another one may be later. No two timestamps are farther apart than
    /// the greatest number.
    pub most: u64,
}

impl Span {
    /// Returns a span in which nothing was put.
    pub fn new(most: u64) -> Span
        ensures earliest { result.earliest ≡ pos 9223372036854775807 }
        ensures most { result.most ≡ most }
    {
        Span {
            earliest: i64::MAX,
            most,
        }
    }

    /// Returns whether a sample at this time may be put in the epoch.
    pub fn takes(self, t: i64) -> bool
        ensures within { result ≡ true → t ≤ℤ (self.earliest +ℤ pos self.most) }
        ensures bound { result ≡ false → self.most < 18446744073709551615 }
    {
        match self.earliest.checked_add_unsigned(self.most) {
            Some(latest) => t <= latest,
            None => true,
        }
    }

    /// Returns the span with one more sample.
    pub fn with(self, t: i64) -> Span
        ensures most { result.most ≡ self.most }
        ensures before { result.earliest ≤ℤ self.earliest }
        ensures own { result.earliest ≤ℤ t }
    {
        Span {
            earliest: self.earliest.min(t),
            most: self.most,
        }
    }
}

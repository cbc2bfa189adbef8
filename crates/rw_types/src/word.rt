//! The values of samples as 64-bit words, which are never interpreted except as whole numbers.

ghost use Rattle.std.specs.Prelude.{◌≡◌, ◌<◌, ◌≤◌, ◌^◌, ◌*◌, ℤ, IfSome, IfNone, Some, unsigned_abs, IsTrue, ◌↔◌};
ghost use Rattle.rw_types.specs.Words.{word_of_int, magnitude_word, int_of_word};

use std::marker::Model;

/// The value of a sample: the 64 bits of an IEEE 754 binary64 number. Contracts see these bits as a
/// number below 2^64.
#[derive(Clone, Copy, Debug, PartialEq, Eq)]
pub struct Word(pub u64);

impl Model for Word {
    ghost use Rattle.std.specs.Prelude.{ℕ};

    ghost Value = { ℕ };

    ghost view = { λ w. w.0 };

    ghost inverse = { λ n. record { 0 = n } };
}

/// Returns a number times a power of two.
fn scaled(n: u64, places: u32) -> u64
    requires places { places < 64 }
    requires fits { n * 2 ^ places < 2 ^ 64 }
    ensures { result ≡ n * 2 ^ places }
{
    n << places
}

/// Returns the exponent and the fraction of a whole number.
fn magnitude(n: u64) -> u64
    requires positive { 0 < n }
    requires exact { n ≤ 2 ^ 53 }
    ensures word { result ≡ magnitude_word n }
    ensures no_sign { result < 2 ^ 63 }
{
    let top = 63 - n.leading_zeros();
    let above = n - scaled(1, top);
    let fraction = if top < 53 { scaled(above, 52 - top) } else { 0 };
    scaled(1023 + top as u64, 52) + fraction
}

/// Returns the bits of a whole number, or `None` if it is outside -2^53 to 2^53.
fn bits_of(m: i64) -> Option<u64>
    ensures { result ≡ word_of_int m }
{
    let size = m.unsigned_abs();
    if size == 0 {
        return Some(0);
    }
    if size > 1 << 53 {
        return None;
    }
    let word = magnitude(size);
    if m < 0 {
        return Some((1 << 63) + word);
    }
    Some(word)
}

/// Returns the absolute value of the whole number that has these bits, if there is one.
fn size_in(bits: u64) -> u64
    ensures size { (m : ℤ) → word_of_int m ≡ Some bits → unsigned_abs m ≡ result }
    ensures bound { result < 2 ^ 63 }
{
    let exponent = bits / (1 << 52) % 2048;
    if exponent < 1023 || exponent > 1076 {
        return 0;
    }
    let top = (exponent - 1023) as u32;
    let fraction = bits % (1 << 52);
    let above = if top < 53 { fraction >> (52 - top) } else { 0 };
    scaled(1, top) + above
}

impl Word {
    /// Returns the word of a whole number from -2^53 to 2^53, or `None` for any other number.
    pub fn of_int(m: i64) -> Option<Word>
        ensures { result ≡ word_of_int m }
    {
        match bits_of(m) {
            Some(bits) => Some(Word(bits)),
            None => None,
        }
    }

    /// Returns the whole number from -2^53 to 2^53 that has this word, or `None` if there is none,
    /// as for -0.0.
    pub fn as_int(self) -> Option<i64>
        ensures some { IfSome result (λ m. word_of_int m ≡ Some self) }
        ensures none { IfNone result ((m : ℤ) → word_of_int m ≡ Some self → ⊥) }
        ensures value { result ≡ int_of_word self }
    {
        let size = size_in(self.0) as i64;
        if self.is_word_of(size) {
            return Some(size);
        }
        if self.is_word_of(-size) {
            return Some(-size);
        }
        None
    }

    /// Returns whether this is the word of the number.
    fn is_word_of(self, m: i64) -> bool
        ensures { IsTrue result ↔ (word_of_int m ≡ Some self) }
    {
        match bits_of(m) {
            Some(bits) => bits == self.0,
            None => false,
        }
    }
}

//! The values of samples as decimals.

ghost use Rattle.std.specs.Prelude.{◌≡◌, ◌++◌, ◌<◌, ◌^◌, ℕ, List, true, false, to_bits, from_bits, MatchOption, OnOk, OnErr};
ghost use Rattle.std.specs.Float.{binary64, float_is_finite};
ghost use Rattle.rw_decimal.specs.Decimals.{decimal_word, exact_value, has_decimal, is_mark, is_marked, is_x, IsDecimalText};
ghost use Rattle.std.specs.List.{list_any};
ghost use Rattle.rw_types.specs.Words.{int_of_word};

use rw_text::push_value;
use rw_types::Word;
use ryu::Buffer;
use std::alloc::AllocError;

/// The word of the infinity: a NaN's is above it, but for its sign.
const INFINITY: u64 = 0x7ff0_0000_0000_0000;

/// The sign of a word.
const SIGN: u64 = 1 << 63;

/// Returns whether a byte is a point, or the letter before an exponent.
fn is_mark(b: u8) -> bool
    ensures { result ≡ is_mark b }
{
    b == b'.' || b == b'e' || b == b'E'
}

/// Returns whether a byte is the `x` of the digits of a word.
fn is_x(b: u8) -> bool
    ensures { result ≡ is_x b }
{
    b == b'x'
}

/// Returns whether a text has a point or the letter before an exponent.
fn has_mark(text: &[u8]) -> bool
    ensures { result ≡ list_any is_mark text.now }
{
    text.iter().any(|b| is_mark(*b))
}

/// Returns whether a text has an `x`.
fn has_x(text: &[u8]) -> bool
    ensures { result ≡ list_any is_x text.now }
{
    text.iter().any(|b| is_x(*b))
}

/// Returns whether a text has a point or an exponent, and is not the digits of a word.
fn is_marked(text: &[u8]) -> bool
    ensures { result ≡ is_marked text.now }
{
    has_mark(text) && !has_x(text)
}

/// Returns the word of the number that is nearest to a decimal with a point or an exponent.
#[tactic(auto, unfolding(crate::specs::Decimals::decimal_word))]
pub(crate) fn decimal_word(text: &[u8]) -> Option<Word>
    ensures { result ≡ decimal_word text.now }
{
    if !is_marked(text) {
        return None;
    }
    let number: f64 = fast_float::parse(text).ok()?;
    if !number.is_finite() {
        return None;
    }
    Some(Word(number.to_bits()))
}

/// Returns the finite number with this word.
fn finite_of(bits: u64) -> Option<f64>
    ensures { MatchOption result (float_is_finite (from_bits binary64 bits) ≡ false)
        (λ x. (float_is_finite x ≡ true) × (x ≡ from_bits binary64 bits) × (bits < 2 ^ 64)) }
{
    if bits % SIGN > INFINITY {
        return None;
    }
    let number = f64::from_bits(bits);
    if !number.is_finite() {
        return None;
    }
    Some(number)
}

/// Returns the number with this word, if it is printed as a decimal.
fn number_of(value: Word) -> Option<f64>
    ensures { MatchOption result (has_decimal value ≡ false) (λ x. (has_decimal value ≡ true)
        × (float_is_finite x ≡ true) × (x ≡ from_bits binary64 value) × (value < 2 ^ 64)) }
{
    if value.as_int().is_some() {
        return None;
    }
    finite_of(value.0)
}

/// Appends the text of a value: a finite number as the shortest decimal that is read as its word,
/// if it is no whole number, and any other value as `push_value` does. An `Err` leaves `out` as it
/// was.
pub fn push_decimal(out: &mut Vec<u8>, value: Word) -> Result<(), AllocError>
    ensures ok { OnOk result
        ((text : List ℕ) × (out.new.items ≡ out.old.items ++ text) × IsDecimalText value text) }
    ensures err { OnErr result (out.new.items ≡ out.old.items) }
{
    match number_of(value) {
        Some(number) => {
            let mut buffer = Buffer::new();
            out.extend_from_slice(buffer.format_finite(number).as_bytes())
        }
        None => push_value(out, value),
    }
}

/// Appends the text that log text has in place of this value. An `Err` leaves `out` as it was.
pub(crate) fn push_exact(out: &mut Vec<u8>, text: &[u8]) -> Result<(), AllocError>
    ensures ok { OnOk result (out.new.items ≡ out.old.items ++ exact_value text.now) }
    ensures err { OnErr result (out.new.items ≡ out.old.items) }
{
    match decimal_word(text) {
        Some(word) => push_value(out, word),
        None => out.extend_from_slice(text),
    }
}

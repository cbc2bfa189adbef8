//! The values of samples as text.

ghost use Rattle.std.specs.Prelude.{◌≡◌, ◌<◌, ◌^◌, ◌++◌, ℕ, ℤ, Some, MatchOption, OnOk, OnErr};
ghost use Rattle.byteorder.specs.Endian.{big_bytes};
ghost use Rattle.rw_text.specs.HexText.{hex_text};
ghost use Rattle.rw_types.specs.Words.{word_of_int};
ghost use Rattle.rw_text.specs.Numbers.{IsInteger};
ghost use Rattle.rw_text.specs.ValueText.{hex_word_text, IsValue, value_text};

use crate::bytes::after;
use crate::numbers::{push_integer, read_integer};
use byteorder::{BigEndian, ByteOrder};
use rw_types::Word;
use std::alloc::AllocError;

/// Returns the sixteen hexadecimal digits of a word.
fn digits_of(word: u64) -> [u8; 16]
    ensures { result ≡ hex_text (big_bytes 8 word) }
{
    let mut bytes = [0; 8];
    BigEndian::write_u64(&mut bytes, word);
    let mut digits = [0; 16];
    let _ = hex::encode_to_slice(bytes.as_slice(), &mut digits);
    digits
}

/// Returns the word that eight hexadecimal pairs spell, in digits of either case.
fn word_of_digits(digits: &[u8]) -> Option<u64>
    ensures { (word : ℕ) → word < 2 ^ 64 → digits.now ≡ hex_text (big_bytes 8 word)
        → result ≡ Some word }
{
    let mut bytes = [0; 8];
    if hex::decode_to_slice(digits, &mut bytes).is_err() {
        return None;
    }
    Some(BigEndian::read_u64(&bytes))
}

/// Returns the word that sixteen lower case hexadecimal digits spell.
fn read_word(digits: &[u8]) -> Option<u64>
    ensures { MatchOption result
        ((word : ℕ) → word < 2 ^ 64 → digits.now ≡ hex_text (big_bytes 8 word) → ⊥)
        (λ word. digits.now ≡ hex_text (big_bytes 8 word)) }
{
    let word = word_of_digits(digits)?;
    if digits != digits_of(word).as_slice() {
        return None;
    }
    Some(word)
}

/// Returns the word of a whole number in decimal digits.
fn read_whole(text: &[u8]) -> Option<Word>
    ensures { MatchOption result
        ((word : ℕ) (m : ℤ) → IsInteger text.now m → word_of_int m ≡ Some word → ⊥)
        (λ word. (m : ℤ) × IsInteger text.now m × (word_of_int m ≡ Some word)) }
{
    match read_integer(text) {
        Some(m) => Word::of_int(m),
        None => None,
    }
}

/// Reads the value of a sample: a decimal whole number from -2^53 to 2^53, or `0x` and the sixteen
/// lower case hexadecimal digits of its 64 bits. Returns `None` for any other text.
pub fn read_value(text: &[u8]) -> Option<Word>
    ensures { MatchOption result ((word : ℕ) → word < 2 ^ 64 → IsValue text.now word → ⊥)
        (IsValue text.now) }
{
    match after(text, b"0x") {
        Some(digits) => Some(Word(read_word(digits)?)),
        None => read_whole(text),
    }
}

/// Adds the digits of a word at the end.
fn push_word(out: &mut Vec<u8>, word: u64) -> Result<(), AllocError>
    ensures ok { OnOk result (out.new.items ≡ out.old.items ++ hex_word_text word) }
    ensures err { OnErr result (out.new.items ≡ out.old.items) }
{
    let mut text = [b'0'; 18];
    text[1] = b'x';
    text[2..].copy_from_slice(&digits_of(word));
    out.extend_from_slice(&text)
}

/// Appends the text of a value: a whole number from -2^53 to 2^53 in decimal, any other value as
/// `0x` and sixteen hexadecimal digits. An `Err` leaves `out` as it was.
#[tactic(auto, unfolding(crate::specs::ValueText::value_text))]
pub fn push_value(out: &mut Vec<u8>, value: Word) -> Result<(), AllocError>
    ensures ok { OnOk result (out.new.items ≡ out.old.items ++ value_text value) }
    ensures err { OnErr result (out.new.items ≡ out.old.items) }
{
    match value.as_int() {
        Some(m) => push_integer(out, m),
        None => push_word(out, value.0),
    }
}

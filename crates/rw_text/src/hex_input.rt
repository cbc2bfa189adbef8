//! Hexadecimal text read as bytes.

ghost use Rattle.std.specs.Prelude.{◌≡◌, ◌+◌, ◌^◌, ◌<◌, ℕ, Ok, true, false, length, slice_index, EachIndex, MatchOption, IfOk, IfErr};
ghost use Rattle.std.specs.List.{list_all, before_last};
ghost use Rattle.std.specs.Option.{option_map};
ghost use Rattle.rw_text.specs.HexText.{is_digit, is_foreign, line_after, read_text, read_digits};
ghost use Rattle.rw_text.specs.HexFaults.{IsFaultOfHex};

use crate::hex_digits::{is_digit, is_foreign, pairs};
use crate::hex_fault::HexFault;
use std::alloc::{AllocError, Global};

/// Returns the number of the line in which the text after this one begins.
fn line_after(front: &[u8]) -> u64
    requires { length front.now + 1 < 2 ^ 64 }
    ensures { result ≡ line_after front.now }
{
    1 + front.iter().filter(|c| **c == b'\n').count() as u64
}

/// Returns the place of the first character that is neither a digit nor white space.
fn first_foreign(text: &[u8]) -> Option<usize>
    ensures { MatchOption result
        (EachIndex text.now (λ k. is_foreign (slice_index text.now k) ≡ false))
        (λ i. (i < length text.now) × (is_foreign (slice_index text.now i) ≡ true)
        × ((k : ℕ) → k < i → is_foreign (slice_index text.now k) ≡ false)) }
{
    text.iter().position(|c| is_foreign(*c))
}

/// Returns the place of the last digit.
fn last_digit(text: &[u8]) -> Option<usize>
    ensures { MatchOption result
        (EachIndex text.now (λ k. is_digit (slice_index text.now k) ≡ false))
        (λ i. (i < length text.now) × (is_digit (slice_index text.now i) ≡ true)
        × ((k : ℕ) → i < k → k < length text.now → is_digit (slice_index text.now k) ≡ false)) }
{
    text.iter().rposition(|c| is_digit(*c))
}

/// Returns the line of the last digit.
fn last_digit_line(text: &[u8]) -> u64
    ensures { result ≡ line_after (before_last is_digit text.now) }
{
    let at = last_digit(text).unwrap_or(0);
    line_after(&text[..at])
}

fn are_digits(text: &[u8]) -> bool
    ensures { result ≡ list_all is_digit text.now }
{
    text.iter().all(|c| is_digit(*c))
}

/// Returns the bytes that a whole text of lower case digits stands for. Spaces, tabs, CR and LF may
/// be anywhere in it.
pub fn read_hex(alloc: Global, text: &[u8]) -> Result<Vec<u8>, HexFault>
    ensures bytes { IfOk result (λ v. read_text text.now ≡ Ok v.items) }
    ensures fault { IfErr result (IsFaultOfHex text.now) }
{
    if let Some(at) = first_foreign(text) {
        return Err(HexFault::Line(line_after(&text[..at])));
    }
    match pairs(alloc, text)? {
        Some(bytes) => Ok(bytes),
        None => Err(HexFault::Line(last_digit_line(text))),
    }
}

/// Returns the bytes that a text of lower case digits alone stands for, or `None` if another
/// character is in it, or their number is odd. The empty text stands for no bytes.
pub fn read_digits(alloc: Global, text: &[u8]) -> Result<Option<Vec<u8>>, AllocError>
    ensures { IfOk result (λ r. option_map (λ v. v.items) r ≡ read_digits text.now) }
{
    if !are_digits(text) {
        return Ok(None);
    }
    pairs(alloc, text)
}

//! Hexadecimal digits and their pairs.

ghost use Rattle.std.specs.Prelude.{◌≡◌, ◌<◌, IfOk, IfSome};
ghost use Rattle.std.specs.Option.{option_map};
ghost use Rattle.rw_text.specs.HexText.{hex_digit_value, is_digit, is_foreign, digit_values, bytes_of};

use std::alloc::{AllocError, Global};

/// Returns the value of a digit, `0` to `9` or `a` to `f`.
pub(crate) fn digit_value(c: u8) -> Option<u8>
    ensures value { result ≡ hex_digit_value c }
    ensures small { IfSome result (λ v. v < 16) }
{
    match c {
        b'0'..=b'9' => Some(c - b'0'),
        b'a'..=b'f' => Some(c - b'a' + 10),
        _ => None,
    }
}

pub(crate) fn is_digit(c: u8) -> bool
    ensures { result ≡ is_digit c }
{
    digit_value(c).is_some()
}

/// Returns whether this is neither a digit nor white space.
pub(crate) fn is_foreign(c: u8) -> bool
    ensures { result ≡ is_foreign c }
{
    !(is_digit(c) || matches!(c, b' ' | b'\t' | b'\r' | b'\n'))
}

/// Returns the bytes of the pairs of digits, if no digit is left over. All other characters are
/// skipped.
pub(crate) fn pairs(alloc: Global, text: &[u8]) -> Result<Option<Vec<u8>>, AllocError>
    ensures { IfOk result (λ r. option_map (λ v. v.items) r ≡ bytes_of (digit_values text.now)) }
{
    let mut bytes = Vec::with_capacity(alloc, text.len() / 2)?;
    let mut high = None;
    for c in text {
        if let Some(value) = digit_value(*c) {
            match high {
                None => high = Some(value),
                Some(first) => {
                    bytes.push(first * 16 + value)?;
                    high = None;
                }
            }
        }
    }
    if high.is_some() {
        return Ok(None);
    }
    Ok(Some(bytes))
}

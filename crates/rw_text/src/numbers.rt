//! Whole numbers in decimal digits.

ghost use Rattle.std.specs.Prelude.{◌≡◌, ◌<◌, ◌≤◌, ◌+◌, ◌-◌, ◌*◌, ◌^◌, ℕ, ℤ, ◌++◌, MatchOption, OnOk, OnErr, FitsSigned, decimal};
ghost use Rattle.std.proofs.Common.{w64};
ghost use Rattle.std.specs.Fmt.{signed_decimal};
ghost use Rattle.rw_text.specs.Numbers.{IsNumber, IsInteger};

use crate::bytes::after;
use itoa::Buffer;
use std::alloc::AllocError;

/// Returns the number after the digits of `front` once this digit follows them.
fn with_digit(front: u64, digit: u8) -> Option<u64>
    requires { (48 ≤ digit) × (digit ≤ 57) }
    ensures { MatchOption result (2 ^ 64 ≤ front * 10 + (digit - 48))
        (λ n. n ≡ front * 10 + (digit - 48)) }
{
    front.checked_mul(10)?.checked_add((digit - b'0') as u64)
}

/// Reads decimal digits, leading zeros allowed, as a number below 2^64. Returns `None` for any
/// other text.
pub fn read_number(text: &[u8]) -> Option<u64>
    ensures { MatchOption result ((n : ℕ) → n < 2 ^ 64 → IsNumber text.now n → ⊥)
        (IsNumber text.now) }
{
    if text.is_empty() {
        return None;
    }
    let mut number = 0;
    for digit in text {
        if !digit.is_ascii_digit() {
            return None;
        }
        let Some(longer) = with_digit(number, *digit) else {
            return None;
        };
        number = longer;
    }
    Some(number)
}

/// Reads decimal digits, with or without a minus before them, as a number from -2^63 to 2^63 - 1.
/// Returns `None` for any other text.
pub fn read_integer(text: &[u8]) -> Option<i64>
    ensures { MatchOption result ((z : ℤ) → FitsSigned w64 z → IsInteger text.now z → ⊥)
        (IsInteger text.now) }
{
    match after(text, b"-") {
        Some(digits) => 0i64.checked_sub_unsigned(read_number(digits)?),
        None => 0i64.checked_add_unsigned(read_number(text)?),
    }
}

/// Appends the decimal digits of `n`, without leading zeros. An `Err` leaves `out` as it was.
pub fn push_number(out: &mut Vec<u8>, n: u64) -> Result<(), AllocError>
    ensures ok { OnOk result (out.new.items ≡ out.old.items ++ decimal n) }
    ensures err { OnErr result (out.new.items ≡ out.old.items) }
{
    let mut buffer = Buffer::new();
    out.extend_from_slice(buffer.format(n).as_bytes())
}

/// Appends the decimal digits of `z`, with a minus before them if it is negative. An `Err` leaves
/// `out` as it was.
pub fn push_integer(out: &mut Vec<u8>, z: i64) -> Result<(), AllocError>
    ensures ok { OnOk result (out.new.items ≡ out.old.items ++ signed_decimal z) }
    ensures err { OnErr result (out.new.items ≡ out.old.items) }
{
    let mut buffer = Buffer::new();
    out.extend_from_slice(buffer.format(z).as_bytes())
}

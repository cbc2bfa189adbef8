//! Log text, written anew without decimals.

ghost use Rattle.std.specs.Prelude.{◌≡◌, ◌++◌, ◌∷◌, [], ℕ, List, codes, IfOk, MatchOption, OnOk};
ghost use Rattle.rw_decimal.specs.Decimals.{exact_value};
ghost use Rattle.rw_decimal.specs.ExactText.{IsSampleOf, IsExactLine, IsExactText};

use crate::values::push_exact;
use rw_text::{first_line, split_at_byte};
use std::alloc::{AllocError, Global};

/// Returns what follows the word `sample`.
fn after_sample(line: &[u8]) -> Option<&[u8]>
    ensures { MatchOption result
        ((rest : List ℕ) → line.now ≡ codes "sample " ++ rest → ⊥)
        (λ rest. line.now ≡ codes "sample " ++ rest.now) }
{
    line.strip_prefix(b"sample ")
}

/// Returns a line `sample REF T VALUE` in two parts, of which the second one is the value.
fn split_sample(line: &[u8]) -> Option<(&[u8], &[u8])>
    ensures { MatchOption result
        ((front value : List ℕ) → IsSampleOf line.now front value → ⊥)
        (λ parts. IsSampleOf line.now parts.0.now parts.1.now) }
{
    let Some(rest) = after_sample(line) else {
        return None;
    };
    let Some((_, more)) = split_at_byte(rest, b' ') else {
        return None;
    };
    let Some((_, value)) = split_at_byte(more, b' ') else {
        return None;
    };
    Some(line.split_at(line.len() - value.len()))
}

/// Adds the line of a sample without decimals, and its LF.
fn push_sample(out: &mut Vec<u8>, front: &[u8], value: &[u8]) -> Result<(), AllocError>
    ensures { OnOk result
        (out.new.items ≡ out.old.items ++ (front.now ++ exact_value value.now ++ 10 ∷ [])) }
{
    out.extend_from_slice(front)?;
    push_exact(out, value)?;
    out.extend_from_slice(b"\n")
}

/// Adds another line, and its LF.
fn push_other(out: &mut Vec<u8>, line: &[u8]) -> Result<(), AllocError>
    ensures { OnOk result (out.new.items ≡ out.old.items ++ (line.now ++ 10 ∷ [])) }
{
    out.extend_from_slice(line)?;
    out.extend_from_slice(b"\n")
}

/// Adds a line without decimals, and its LF.
fn push_exact_line(out: &mut Vec<u8>, line: &[u8]) -> Result<(), AllocError>
    ensures { OnOk result
        ((exact : List ℕ) × (out.new.items ≡ out.old.items ++ exact) × IsExactLine line.now exact) }
{
    match split_sample(line) {
        Some((front, value)) => push_sample(out, front, value),
        None => push_other(out, line),
    }
}

/// Returns the lines of log text, each ended by LF, with the value of each sample that is a decimal
/// written as its word: so `log` takes it.
pub fn exact_text(alloc: Global, text: &[u8]) -> Result<Vec<u8>, AllocError>
    ensures { IfOk result (λ exact. IsExactText text.now exact.items) }
{
    let mut exact = Vec::new(alloc);
    let mut rest = text;
    while !rest.is_empty() {
        let (line, more) = first_line(rest);
        push_exact_line(&mut exact, line)?;
        rest = more;
    }
    Ok(exact)
}

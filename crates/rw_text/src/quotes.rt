//! Texts in quotes.

ghost use Rattle.std.specs.Prelude.{◌≡◌, ℕ, List, ◌∷◌, ◌++◌, Err, IfOk, MatchOption};
ghost use Rattle.rw_text.specs.LabelText.{escaped, quoted};

use crate::bytes::{after, push_byte};
use crate::fault::TextFault;

/// Returns the byte that the text after a backslash begins with, and what follows it.
fn read_behind_backslash(text: &[u8]) -> Option<(u8, &[u8])>
    ensures { MatchOption result
        ((b : ℕ) (rest : List ℕ) → 92 ∷ text.now ≡ escaped b ++ rest → ⊥)
        (λ found. 92 ∷ text.now ≡ escaped found.0 ++ found.1.now) }
{
    if text.is_empty() {
        return None;
    }
    let code = text[0];
    let rest = &text[1..];
    match code {
        b'n' => Some((b'\n', rest)),
        b'\\' | b'"' => Some((code, rest)),
        _ => None,
    }
}

/// Returns the byte that the text between quotes begins with, and what follows it.
fn read_byte(text: &[u8]) -> Option<(u8, &[u8])>
    ensures { MatchOption result
        ((b : ℕ) (rest : List ℕ) → text.now ≡ escaped b ++ rest → ⊥)
        (λ found. text.now ≡ escaped found.0 ++ found.1.now) }
{
    if text.is_empty() {
        return None;
    }
    let code = text[0];
    let rest = &text[1..];
    match code {
        b'\\' => read_behind_backslash(rest),
        b'"' | b'\n' => None,
        _ => Some((code, rest)),
    }
}

/// Reads the text in quotes with which `text` begins into `out`, and returns what follows it.
pub(crate) fn read_quoted<'a>(text: &'a [u8], out: &mut Vec<u8>) -> Result<&'a [u8], TextFault>
    ensures ok { IfOk result (λ rest. text.now ≡ quoted out.new.items ++ rest.now) }
    ensures err { result ≡ Err TextFault.NotOfForm → (value rest : List ℕ)
        → text.now ≡ quoted value ++ rest → ⊥ }
{
    out.clear();
    let Some(inside) = after(text, b"\"") else {
        return Err(TextFault::NotOfForm);
    };
    let mut rest = inside;
    while let Some((byte, more)) = read_byte(rest) {
        push_byte(out, byte)?;
        rest = more;
    }
    match after(rest, b"\"") {
        Some(more) => Ok(more),
        None => Err(TextFault::NotOfForm),
    }
}

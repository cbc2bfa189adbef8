//! Parts of texts, and bytes appended to texts.

ghost use Rattle.std.specs.Prelude.{◌≡◌, ◌==◌, ℕ, List, [], ◌∷◌, ◌++◌, All, false, MatchOption, OnOk, OnErr};

use std::alloc::AllocError;

/// Returns what follows a prefix, if the text has it.
pub(crate) fn after<'a>(text: &'a [u8], beginning: &[u8]) -> Option<&'a [u8]>
    ensures { MatchOption result
        ((rest : List ℕ) → text.now ≡ beginning.now ++ rest → ⊥)
        (λ rest. text.now ≡ beginning.now ++ rest.now) }
{
    text.strip_prefix(beginning)
}

/// Returns the texts before and after the first `byte` in `text`, or `None` if there is none.
pub fn split_at_byte(text: &[u8], byte: u8) -> Option<(&[u8], &[u8])>
    ensures { MatchOption result
        ((front rest : List ℕ) → text.now ≡ front ++ byte ∷ rest → ⊥)
        (λ parts. (text.now ≡ parts.0.now ++ byte ∷ parts.1.now)
        × All (λ b. (b == byte) ≡ false) parts.0.now) }
{
    for (i, b) in text.iter().enumerate() {
        if *b == byte {
            return Some((&text[..i], &text[i + 1..]));
        }
    }
    None
}

/// Adds a byte at the end.
pub(crate) fn push_byte(out: &mut Vec<u8>, byte: u8) -> Result<(), AllocError>
    ensures ok { OnOk result (out.new.items ≡ out.old.items ++ byte ∷ []) }
    ensures err { OnErr result (out.new.items ≡ out.old.items) }
{
    out.push(byte)?;
    Ok(())
}

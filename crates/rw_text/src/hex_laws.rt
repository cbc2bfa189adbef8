//! Laws of hexadecimal text. Each function has an empty body: its contract is the law.

ghost use Rattle.std.specs.Prelude.{◌≡◌, List, ℕ, Ok, Some};
ghost use Rattle.rw_text.specs.HexText.{hex_text, read_text, read_digits};
ghost use Rattle.hex.specs.Hex.{IsBytes};

/// Law: what `hex_text` writes is read back as the same bytes, by `read_hex` and by `read_digits`.
pub fn hex_text_is_read()
    ensures whole { (bytes : List ℕ) → IsBytes bytes → read_text (hex_text bytes) ≡ Ok bytes }
    ensures digits { (bytes : List ℕ) → IsBytes bytes → read_digits (hex_text bytes) ≡ Some bytes }
{}

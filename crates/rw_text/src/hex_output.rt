//! Bytes written as hexadecimal text.

ghost use Rattle.std.specs.Prelude.{◌≡◌, IfOk, string_bytes};
ghost use Rattle.rw_text.specs.HexText.{hex_text};

use std::alloc::{AllocError, Global};

/// Returns the hexadecimal text of `bytes`: two lower case digits for each byte, and nothing else.
pub fn hex_text(alloc: Global, bytes: &[u8]) -> Result<String, AllocError>
    ensures { IfOk result (λ text. string_bytes text ≡ hex_text bytes.now) }
{
    hex::encode(alloc, bytes)
}

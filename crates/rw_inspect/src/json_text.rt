//! JSON strings (RFC 8259).

ghost use Rattle.std.specs.Prelude.{◌≡◌, ◌<◌, ◌++◌, OnOk, flat_map};
ghost use Rattle.rw_inspect.specs.JsonText.{digit, json_escaped, json_quoted};

use std::alloc::AllocError;

/// Returns the hexadecimal digit of a number below 16.
fn digit(n: u8) -> u8
    requires { n < 16 }
    ensures { result ≡ digit n }
{
    if n < 10 { b'0' + n } else { b'W' + n }
}

/// Adds a byte of a JSON string.
fn push_escaped(out: &mut Vec<u8>, byte: u8) -> Result<(), AllocError>
    ensures { OnOk result (out.new.items ≡ out.old.items ++ json_escaped byte) }
{
    match byte {
        b'"' => out.extend_from_slice(b"\\\""),
        b'\\' => out.extend_from_slice(b"\\\\"),
        _ if byte < 32 => {
            out.extend_from_slice(b"\\u00")?;
            out.extend_from_slice(&[digit(byte / 16), digit(byte % 16)])
        }
        _ => out.extend_from_slice(&[byte]),
    }
}

/// Adds the bytes of a JSON string.
fn push_all_escaped(out: &mut Vec<u8>, text: &[u8]) -> Result<(), AllocError>
    ensures { OnOk result (out.new.items ≡ out.old.items ++ flat_map json_escaped text.now) }
{
    for byte in text {
        push_escaped(out, *byte)?;
    }
    Ok(())
}

/// Adds a JSON string.
#[tactic(auto, unfolding(crate::specs::JsonText::json_quoted))]
pub(crate) fn push_quoted(out: &mut Vec<u8>, text: &[u8]) -> Result<(), AllocError>
    ensures { OnOk result (out.new.items ≡ out.old.items ++ json_quoted text.now) }
{
    out.extend_from_slice(b"\"")?;
    push_all_escaped(out, text)?;
    out.extend_from_slice(b"\"")
}

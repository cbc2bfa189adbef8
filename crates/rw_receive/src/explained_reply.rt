//! The reply 400 with a text, in place of the one without.

ghost use Rattle.std.specs.Prelude.{◌≡◌, IfOk};
ghost use Rattle.rw_receive.specs.Explaining.{explained_reply};

use rw_text::push_number;
use std::alloc::{AllocError, Global};

/// The reply 400 after which the connection stays open, as the endpoint writes it.
const REFUSED: &[u8] = b"HTTP/1.1 400 Bad Request\r\nContent-Length: 0\r\n\r\n";

/// The one after which it closes.
const REFUSED_AT_LAST: &[u8] =
    b"HTTP/1.1 400 Bad Request\r\nContent-Length: 0\r\nConnection: close\r\n\r\n";

/// Returns the reply 400 that carries this text.
pub(crate) fn explained_reply(
    alloc: Global,
    closes: bool,
    text: &[u8],
) -> Result<Vec<u8>, AllocError>
    ensures { IfOk result (λ reply. reply.items ≡ explained_reply closes text.now) }
{
    let mut out = Vec::new(alloc);
    out.extend_from_slice(
        "HTTP/1.1 400 Bad Request\r\nContent-Type: text/plain; charset=utf-8\r\nContent-Length: ".as_bytes(),
    )?;
    push_number(&mut out, text.len() as u64)?;
    if closes {
        out.extend_from_slice("\r\nConnection: close".as_bytes())?;
    }
    out.extend_from_slice("\r\n\r\n".as_bytes())?;
    out.extend_from_slice(text)?;
    Ok(out)
}

/// Returns whether the connection closes after these bytes, if they are the reply 400 without a
/// text.
pub(crate) fn closing_of(reply: &[u8]) -> Option<bool> {
    if reply == REFUSED {
        Some(false)
    } else if reply == REFUSED_AT_LAST {
        Some(true)
    } else {
        None
    }
}

//! The values of header fields.

ghost use Rattle.std.specs.Prelude.{◌≡◌};
ghost use Rattle.httparse.specs.Grammar.{skip_ows};
ghost use Rattle.rw_endpoint.specs.Values.{length_value, is_write_request, is_protobuf};

use crate::names::is_same;

/// The most digits of a `Content-Length`, whose numbers then fit 64 bits.
const MAX_DIGITS: usize = 19;

/// The length of `application/x-protobuf`.
const MEDIA_TYPE_LEN: usize = 22;

/// Returns the number that 1 to 19 digits stand for.
#[tactic(auto, unfolding(crate::specs::Values::length_value))]
pub(crate) fn length_value(text: &[u8]) -> Option<u64>
    ensures { result ≡ length_value text.now }
{
    if text.is_empty() || text.len() > MAX_DIGITS {
        return None;
    }
    let mut n: u64 = 0;
    for b in text {
        if !b.is_ascii_digit() {
            return None;
        }
        n = n * 10 + u64::from(*b - b'0');
    }
    Some(n)
}

/// Returns the text without the spaces and tabs at its front.
fn without_blanks(text: &[u8]) -> &[u8]
    ensures { result.now ≡ skip_ows text.now }
{
    for (i, b) in text.iter().enumerate() {
        if *b != b' ' && *b != b'\t' {
            return &text[i..];
        }
    }
    &text[text.len()..]
}

/// Returns whether the text is a semicolon and then the parameter of Remote-Write 1.0, and nothing
/// else.
fn is_write_request(rest: &[u8]) -> bool
    ensures { result ≡ is_write_request rest.now }
{
    if rest.is_empty() {
        return false;
    }
    if rest[0] != b';' {
        return false;
    }
    is_same(without_blanks(&rest[1..]), b"proto=prometheus.WriteRequest")
}

/// Returns whether this is the media type of Remote-Write 1.0, alone or with its parameter.
#[tactic(auto, unfolding(crate::specs::Values::is_protobuf))]
pub(crate) fn is_protobuf(value: &[u8]) -> bool
    ensures { result ≡ is_protobuf value.now }
{
    let media_type = b"application/x-protobuf".as_slice();
    if is_same(value, media_type) {
        return true;
    }
    if value.len() < MEDIA_TYPE_LEN {
        return false;
    }
    if !is_same(&value[..MEDIA_TYPE_LEN], media_type) {
        return false;
    }
    is_write_request(without_blanks(&value[MEDIA_TYPE_LEN..]))
}

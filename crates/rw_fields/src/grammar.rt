//! The grammar of names and values, and the names that are taken.

ghost use Rattle.std.specs.Prelude.{◌≡◌, ◌||◌};
ghost use Rattle.httparse.specs.Grammar.{is_token, is_ows};
ghost use Rattle.rw_fields.specs.Fields.{begins_with_ows, ends_with_ows, is_field_value, is_same_name, is_in_request, is_framing};

use httparse::{is_header_value, is_token};

/// Returns whether a byte is white space.
fn is_ows(b: u8) -> bool
    ensures { result ≡ is_ows b }
{
    b == b' ' || b == b'\t'
}

/// Returns whether a text begins with white space.
fn begins_with_ows(text: &[u8]) -> bool
    ensures { result ≡ begins_with_ows text.now }
{
    match text.split_first() {
        Some((first, _)) => is_ows(*first),
        None => false,
    }
}

/// Returns whether a text ends in white space.
fn ends_with_ows(text: &[u8]) -> bool
    ensures { result ≡ ends_with_ows text.now }
{
    match text.split_last() {
        Some((last, _)) => is_ows(*last),
        None => false,
    }
}

/// Returns whether a text may be the name of a field: one or more letters, digits or
/// ``!#$%&'*+-.^_`|~``.
pub fn is_field_name(text: &str) -> bool
    ensures { result ≡ is_token text.now }
{
    is_token(text.as_bytes())
}

/// Returns whether a text has white space at either end.
fn has_ows_around(text: &[u8]) -> bool
    ensures { result ≡ (begins_with_ows text.now || ends_with_ows text.now) }
{
    begins_with_ows(text) || ends_with_ows(text)
}

/// Returns whether a text may be the value of a field: it has no control characters other than
/// tabs, so no line ends, and no white space at either end.
pub(crate) fn is_field_value(text: &str) -> bool
    ensures { result ≡ is_field_value text.now }
{
    let bytes = text.as_bytes();
    is_header_value(bytes) && !has_ows_around(bytes)
}

/// Returns whether two names are the same but for their case.
pub(crate) fn is_same_name(name: &str, other: &str) -> bool
    ensures { result ≡ is_same_name name.now other.now }
{
    name.eq_ignore_ascii_case(other)
}

/// Returns whether a request has a field of this name already.
pub fn is_in_request(name: &str) -> bool
    ensures { result ≡ is_in_request name.now }
{
    is_same_name(name, "host")
        || is_same_name(name, "user-agent")
        || is_same_name(name, "content-type")
        || is_same_name(name, "content-encoding")
        || is_same_name(name, "x-prometheus-remote-write-version")
        || is_same_name(name, "connection")
        || is_same_name(name, "content-length")
}

/// Returns whether a field of this name says where a message ends, or concerns its connection
/// alone.
pub fn is_framing(name: &str) -> bool
    ensures { result ≡ is_framing name.now }
{
    is_same_name(name, "transfer-encoding")
        || is_same_name(name, "te")
        || is_same_name(name, "trailer")
        || is_same_name(name, "upgrade")
        || is_same_name(name, "keep-alive")
        || is_same_name(name, "proxy-connection")
        || is_same_name(name, "expect")
}

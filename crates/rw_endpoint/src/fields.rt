//! The fields of a head, by name.

ghost use Rattle.std.specs.Prelude.{◌≡◌, length, map, All, codes};
ghost use Rattle.httparse.specs.Spans.{IsHeaderWithin, header_bytes};
ghost use Rattle.rw_endpoint.specs.Coding.{coding_of};
ghost use Rattle.rw_endpoint.specs.Fields.{has_field, each_value, some_value};
ghost use Rattle.rw_endpoint.specs.Values.{first_length, is_length, announced, is_coding, is_close, is_protobuf};

use crate::coding::Coding;
use crate::intake::Intake;
use crate::names::is_same;
use crate::values::{is_protobuf, length_value};
use httparse::spans::HeaderSpan;

/// Returns whether some field has this name.
pub(crate) fn has_field(buf: &[u8], headers: &[HeaderSpan], name: &[u8]) -> bool
    requires { All (IsHeaderWithin (length buf.now)) headers.now }
    ensures { result ≡ has_field name.now (map (header_bytes buf.now) headers.now) }
{
    for header in headers {
        if is_same(header.name.of(buf), name) {
            return true;
        }
    }
    false
}

/// Returns the length that the first `Content-Length` announces.
fn first_length(buf: &[u8], headers: &[HeaderSpan]) -> Option<u64>
    requires { All (IsHeaderWithin (length buf.now)) headers.now }
    ensures { result ≡ first_length (map (header_bytes buf.now) headers.now) }
{
    for header in headers {
        if is_same(header.name.of(buf), b"content-length") {
            return length_value(header.value.of(buf));
        }
    }
    None
}

/// Returns whether each `Content-Length` announces this length.
fn are_lengths(buf: &[u8], headers: &[HeaderSpan], n: u64) -> bool
    requires { All (IsHeaderWithin (length buf.now)) headers.now }
    ensures { result ≡ each_value (codes "content-length") (is_length n)
        (map (header_bytes buf.now) headers.now) }
{
    for header in headers {
        if is_same(header.name.of(buf), b"content-length") {
            match length_value(header.value.of(buf)) {
                None => return false,
                Some(m) => {
                    if m != n {
                        return false;
                    }
                }
            }
        }
    }
    true
}

/// Returns the length of the body that the fields announce, if they agree on one.
pub(crate) fn announced(buf: &[u8], headers: &[HeaderSpan]) -> Option<u64>
    requires { All (IsHeaderWithin (length buf.now)) headers.now }
    ensures { result ≡ announced (map (header_bytes buf.now) headers.now) }
{
    let n = first_length(buf, headers)?;
    if are_lengths(buf, headers, n) {
        Some(n)
    } else {
        None
    }
}

/// Returns whether the fields name no content coding but this one.
fn are_coding(buf: &[u8], headers: &[HeaderSpan], coding: &[u8]) -> bool
    requires { All (IsHeaderWithin (length buf.now)) headers.now }
    ensures { result ≡ each_value (codes "content-encoding") (is_coding coding.now)
        (map (header_bytes buf.now) headers.now) }
{
    for header in headers {
        if is_same(header.name.of(buf), b"content-encoding") {
            if !is_same(header.value.of(buf), coding) {
                return false;
            }
        }
    }
    true
}

/// Returns the content coding that the fields name, if it is one that is taken.
pub(crate) fn coding_of(buf: &[u8], headers: &[HeaderSpan], intake: Intake) -> Option<Coding>
    requires { All (IsHeaderWithin (length buf.now)) headers.now }
    ensures { result ≡ coding_of intake (map (header_bytes buf.now) headers.now) }
{
    if are_coding(buf, headers, b"identity") {
        return Some(Coding::Plain);
    }
    if intake.snappy && are_coding(buf, headers, b"snappy") {
        return Some(Coding::Snappy {
            limit: intake.limit,
        });
    }
    None
}

/// Returns whether the fields name no media type but that of a write request.
pub(crate) fn are_protobuf(buf: &[u8], headers: &[HeaderSpan]) -> bool
    requires { All (IsHeaderWithin (length buf.now)) headers.now }
    ensures { result ≡ each_value (codes "content-type") is_protobuf
        (map (header_bytes buf.now) headers.now) }
{
    for header in headers {
        if is_same(header.name.of(buf), b"content-type") {
            if !is_protobuf(header.value.of(buf)) {
                return false;
            }
        }
    }
    true
}

/// Returns whether the sender asks to close the connection.
pub(crate) fn has_close(buf: &[u8], headers: &[HeaderSpan]) -> bool
    requires { All (IsHeaderWithin (length buf.now)) headers.now }
    ensures { result ≡ some_value (codes "connection") is_close
        (map (header_bytes buf.now) headers.now) }
{
    for header in headers {
        if is_same(header.name.of(buf), b"connection") {
            if is_same(header.value.of(buf), b"close") {
                return true;
            }
        }
    }
    false
}

//! Reads what comes at the front of some bytes, and returns the bytes after it.

ghost use Rattle.std.specs.Prelude.{◌≡◌, ◌≤◌, ◌<◌, ◌+◌, length, MatchOption, IfSome, None, Some};
ghost use Rattle.std.specs.Int.{cast_signed, w64};
ghost use Rattle.rw_wal_format.specs.Records.{eight_at, text_at, label_at, sample_at, found};
ghost use Rattle.rw_codes.specs.Varint.{read_uvarint, read_varint};

use byteorder::{BigEndian, ByteOrder};
use rw_codes::{get_uvarint, get_varint};
use rw_types::{Entry, Word};

/// Returns a 64-bit number in eight bytes, high byte first.
pub(crate) fn eight(bytes: &[u8]) -> Option<(u64, &[u8])>
    ensures value { MatchOption result (eight_at bytes.now ≡ None)
        (λ x. eight_at bytes.now ≡ Some (x.0, x.1.now)) }
    ensures shorter { IfSome result (λ x. length x.1.now + 8 ≤ length bytes.now) }
{
    if bytes.len() < 8 {
        return None;
    }
    Some((BigEndian::read_u64(bytes), &bytes[8..]))
}

/// Returns a number of one to ten bytes.
pub(crate) fn unsigned(bytes: &[u8]) -> Option<(u64, &[u8])>
    ensures value { MatchOption result (found (read_uvarint bytes.now)
        ≡ None) (λ x. found (read_uvarint bytes.now) ≡ Some (x.0, x.1.now)) }
    ensures shorter { IfSome result (λ x. length x.1.now ≤ length bytes.now) }
{
    match get_uvarint(bytes) {
        Ok((n, len)) => Some((n, &bytes[len..])),
        Err(_) => None,
    }
}

/// Returns a ZigZag number of one to ten bytes.
pub(crate) fn signed(bytes: &[u8]) -> Option<(i64, &[u8])>
    ensures value { MatchOption result (found (read_varint bytes.now)
        ≡ None) (λ x. found (read_varint bytes.now) ≡ Some (x.0, x.1.now)) }
    ensures shorter { IfSome result (λ x. length x.1.now ≤ length bytes.now) }
{
    match get_varint(bytes) {
        Ok((n, len)) => Some((n, &bytes[len..])),
        Err(_) => None,
    }
}

/// Returns a text after its length.
pub(crate) fn text(bytes: &[u8]) -> Option<(&[u8], &[u8])>
    ensures value { MatchOption result (text_at bytes.now ≡ None)
        (λ x. text_at bytes.now ≡ Some (x.0.now, x.1.now)) }
    ensures shorter { IfSome result (λ x. length x.1.now ≤ length bytes.now) }
{
    let (len, rest) = unsigned(bytes)?;
    if (rest.len() as u64) < len {
        return None;
    }
    let len = len as usize;
    Some((&rest[..len], &rest[len..]))
}

/// Returns a label: a name and a value.
pub(crate) fn label(bytes: &[u8]) -> Option<((&[u8], &[u8]), &[u8])>
    ensures value { MatchOption result (label_at bytes.now ≡ None) (λ x. label_at bytes.now
        ≡ Some ((x.0.0.now, x.0.1.now), x.1.now)) }
    ensures shorter { IfSome result (λ x. length x.1.now ≤ length bytes.now) }
{
    let (name, rest) = text(bytes)?;
    let (value, rest) = text(rest)?;
    Some(((name, value), rest))
}

/// Returns a sample, whose reference and timestamp are deltas against `base` and `start`.
pub(crate) fn sample(base: u64, start: u64, bytes: &[u8]) -> Option<(Entry, &[u8])>
    ensures value { MatchOption result (sample_at base (cast_signed w64 start) bytes.now
        ≡ None) (λ x. sample_at base (cast_signed w64 start) bytes.now ≡ Some (x.0, x.1.now)) }
    ensures shorter { IfSome result (λ x. length x.1.now < length bytes.now) }
{
    let (reference, rest) = signed(bytes)?;
    let (time, rest) = signed(rest)?;
    let (word, rest) = eight(rest)?;
    let entry = Entry::Sample {
        reference: base.wrapping_add(reference.cast_unsigned()),
        t: start.cast_signed().wrapping_add(time),
        word: Word(word),
    };
    Some((entry, rest))
}

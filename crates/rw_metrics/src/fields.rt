//! Fields of Protobuf messages.

use rw_codes::get_uvarint;

/// The tag of a series in a message, and of a label in a series.
pub(crate) const SERIES: u64 = 10;

/// The tag of a sample in a series.
pub(crate) const SAMPLE: u64 = 18;

/// A field of a Protobuf message.
#[derive(Clone, Copy)]
pub(crate) struct Field<'a> {
    /// Its number and its type, as they are written.
    pub(crate) tag: u64,
    /// Its value, if that is a varint.
    pub(crate) number: u64,
    /// Its bytes, if it is not.
    pub(crate) held: &'a [u8],
}

/// Returns the first bytes, as many as that, and those after them.
fn split(bytes: &[u8], len: u64) -> Option<(&[u8], &[u8])> {
    if len > bytes.len() as u64 {
        return None;
    }
    Some(bytes.split_at(len as usize))
}

/// Returns the varint at the start of these bytes, and the bytes after it; `None` if there is none.
/// Most have one byte, which is read here.
fn varint(bytes: &[u8]) -> Option<(u64, &[u8])> {
    let (first, rest) = bytes.split_first()?;
    if *first < 128 {
        return Some((*first as u64, rest));
    }
    let Ok((number, len)) = get_uvarint(bytes) else {
        return None;
    };
    let (_, rest) = split(bytes, len as u64)?;
    Some((number, rest))
}

/// Returns a field whose bytes are as many as that, and the bytes after it.
fn held_field(tag: u64, len: u64, bytes: &[u8]) -> Option<(Field<'_>, &[u8])> {
    let (held, rest) = split(bytes, len)?;
    let number = 0;
    Some((Field { tag, number, held }, rest))
}

/// Returns the field of this tag at the start of these bytes, and the bytes after it.
fn field_of(tag: u64, bytes: &[u8]) -> Option<(Field<'_>, &[u8])> {
    match tag % 8 {
        0 => {
            let (number, rest) = varint(bytes)?;
            let held: &[u8] = &[];
            Some((Field { tag, number, held }, rest))
        }
        1 => held_field(tag, 8, bytes),
        2 => {
            let (size, rest) = varint(bytes)?;
            held_field(tag, size, rest)
        }
        5 => held_field(tag, 4, bytes),
        _ => None,
    }
}

/// Returns the field at the start of these bytes, and the bytes after it; `None` if there is none.
pub(crate) fn next_field(bytes: &[u8]) -> Option<(Field<'_>, &[u8])> {
    let (tag, rest) = varint(bytes)?;
    field_of(tag, rest)
}

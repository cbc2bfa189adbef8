//! A plain reading of a message: field by field, with each part spelled canonically into its own
//! list.

use crate::plain_segment::are_zeros;
use rw_codes::put_uvarint;
use rw_write_request::WireFault;
use std::alloc::{AllocError, Global};

/// The wire types that a message requires of its fields 1 and 2, if it has them.
type Wires = [Option<u64>; 2];

/// A field: its number, its number as content, its bytes as content, and what follows it.
#[derive(Clone, Copy)]
struct Field<'a> {
    number: u64,
    value: u64,
    bytes: &'a [u8],
    rest: &'a [u8],
}

/// Returns a number, and what follows it.
fn uvarint(text: &[u8]) -> Result<(u64, &[u8]), WireFault> {
    let mut value: u64 = 0;
    let mut scale: u64 = 1;
    let mut rest = text;
    for i in 0..10u32 {
        let Some((byte, behind)) = rest.split_first() else {
            return Err(WireFault::Truncated);
        };
        if i == 9 && *byte > 1 {
            return Err(WireFault::VarintTooBig);
        }
        value = value.wrapping_add(((*byte & 127) as u64).wrapping_mul(scale));
        if *byte < 128 {
            return Ok((value, behind));
        }
        scale = scale.wrapping_mul(128);
        rest = behind;
    }
    Err(WireFault::VarintTooBig)
}

/// Returns the field number of a tag, if the tag is one of a message with these fields.
fn number_of(tag: u64, wires: Wires) -> Result<u64, WireFault> {
    let (number, wire) = (tag / 8, tag % 8);
    let wanted = match number {
        0 => return Err(WireFault::FieldZero),
        1 => wires[0],
        2 => wires[1],
        _ => None,
    };
    match wire {
        3 | 4 | 6 | 7 => Err(WireFault::BadWire),
        _ if wanted.is_some() && wanted != Some(wire) => Err(WireFault::WrongWire),
        _ => Ok(number),
    }
}

/// Returns the first field of a text.
fn first_field(text: &[u8], wires: Wires) -> Result<Field<'_>, WireFault> {
    let (tag, behind) = uvarint(text)?;
    let number = number_of(tag, wires)?;
    let (value, len, behind) = match tag % 8 {
        0 => {
            let (value, rest) = uvarint(behind)?;
            (value, 0, rest)
        }
        1 => (0, 8, behind),
        5 => (0, 4, behind),
        _ => {
            let (len, rest) = uvarint(behind)?;
            (0, len, rest)
        }
    };
    if len > behind.len() as u64 {
        return Err(WireFault::Truncated);
    }
    let (bytes, rest) = behind.split_at(len as usize);
    Ok(Field {
        number,
        value,
        bytes,
        rest,
    })
}

/// Puts a field with these bytes, and its length before them.
fn put_bytes(out: &mut Vec<u8>, tag: u8, bytes: &[u8]) -> Result<(), AllocError> {
    out.push(tag)?;
    put_uvarint(out, bytes.len() as u64)?;
    out.extend_from_slice(bytes)
}

/// Puts a text, if there is one.
fn put_text(out: &mut Vec<u8>, tag: u8, text: &[u8]) -> Result<(), AllocError> {
    if text.is_empty() {
        return Ok(());
    }
    put_bytes(out, tag, text)
}

/// Spells a label: the last name and the last value count.
fn spell_label(text: &[u8], out: &mut Vec<u8>) -> Result<(), WireFault> {
    let mut texts: [&[u8]; 2] = [b"", b""];
    let mut rest = text;
    for _ in 0..text.len() {
        if rest.is_empty() {
            break;
        }
        let field = first_field(rest, [Some(2), Some(2)])?;
        if field.number < 3 {
            if str::from_utf8(field.bytes).is_err() {
                return Err(WireFault::NotUtf8);
            }
            texts[(field.number / 2) as usize % 2] = field.bytes;
        }
        rest = field.rest;
    }
    put_text(out, 0x0a, texts[0])?;
    put_text(out, 0x12, texts[1])?;
    Ok(())
}

/// Spells a sample: the last value and the last timestamp count.
fn spell_sample(text: &[u8], out: &mut Vec<u8>) -> Result<(), WireFault> {
    let mut word: &[u8] = &[0; 8];
    let mut timestamp = 0;
    let mut rest = text;
    for _ in 0..text.len() {
        if rest.is_empty() {
            break;
        }
        let field = first_field(rest, [Some(1), Some(0)])?;
        match field.number {
            1 => word = field.bytes,
            2 => timestamp = field.value,
            _ => {}
        }
        rest = field.rest;
    }
    if !are_zeros(word) {
        out.push(0x09)?;
        out.extend_from_slice(word)?;
    }
    if timestamp != 0 {
        out.push(0x10)?;
        put_uvarint(out, timestamp)?;
    }
    Ok(())
}

/// Spells a series: its labels, and after them its samples.
fn spell_series(alloc: Global, text: &[u8], out: &mut Vec<u8>) -> Result<(), WireFault> {
    let mut samples = Vec::new(alloc);
    let mut part = Vec::new(alloc);
    let mut rest = text;
    for _ in 0..text.len() {
        if rest.is_empty() {
            break;
        }
        let field = first_field(rest, [Some(2), Some(2)])?;
        part.clear();
        match field.number {
            1 => {
                spell_label(field.bytes, &mut part)?;
                put_bytes(out, 0x0a, &part)?;
            }
            2 => {
                spell_sample(field.bytes, &mut part)?;
                put_bytes(&mut samples, 0x12, &part)?;
            }
            _ => {}
        }
        rest = field.rest;
    }
    out.extend_from_slice(&samples)?;
    Ok(())
}

/// Returns the canonical spelling of the message that a text spells, or its first fault.
pub(crate) fn plain_spelling(alloc: Global, text: &[u8]) -> Result<Vec<u8>, WireFault> {
    let mut out = Vec::new(alloc);
    let mut rest = text;
    for _ in 0..text.len() {
        if rest.is_empty() {
            break;
        }
        let field = first_field(rest, [Some(2), None])?;
        if field.number == 1 {
            let mut series = Vec::new(alloc);
            spell_series(alloc, field.bytes, &mut series)?;
            put_bytes(&mut out, 0x0a, &series)?;
        }
        rest = field.rest;
    }
    Ok(out)
}

//! The codes: values from the public standards, and the edges of each length.

use crate::rows::none_is_wrong;
use Row::{Crc, Form, Number, Signed, Unsigned};
use rw_codes::{CodeFault, crc32c, get_uvarint, get_varint, put_uvarint, put_varint};
use std::alloc::Global;

/// A name, and what a row says.
enum Row {
    /// A text and its CRC.
    Crc(&'static str, &'static [u8], u32),
    /// A number and its shortest form.
    Number(&'static str, u64, &'static [u8]),
    /// A signed number and its shortest form.
    Signed(&'static str, i64, &'static [u8]),
    /// A text that no number has as its shortest form, and what is read of it.
    Form(&'static str, &'static [u8], Result<(u64, usize), CodeFault>),
    /// A text that no signed number has, and what is read of it.
    Unsigned(&'static str, &'static [u8], CodeFault),
}

static ROWS: [Row; 45] = [
    Crc("nothing", b"", 0x0000_0000),
    Crc("nine digits", b"123456789", 0xE306_9283),
    Crc("a byte", &[2], 0xB346_23A6),
    Crc("a letter", b"a", 0xC1D0_4330),
    Crc("32 bytes 0", &[0; 32], 0x8A91_36AA),
    Crc("32 bytes 255", &[255; 32], 0x62A8_AB43),
    Number("0", 0, &[0]),
    Number("1 byte, the most", 127, &[127]),
    Number("2 bytes, the least", 128, &[128, 1]),
    Number("300", 300, &[172, 2]),
    Number("2 bytes, the most", 16_383, &[255, 127]),
    Number("3 bytes, the least", 16_384, &[128, 128, 1]),
    Number("3 bytes, the most", 2_097_151, &[255, 255, 127]),
    Number("4 bytes, the least", 2_097_152, &[128, 128, 128, 1]),
    Number("4 bytes, the most", 268_435_455, &[255, 255, 255, 127]),
    Number("5 bytes, the least", 268_435_456, &[128, 128, 128, 128, 1]),
    Number(
        "5 bytes, the most",
        34_359_738_367,
        &[255, 255, 255, 255, 127],
    ),
    Number(
        "6 bytes, the least",
        34_359_738_368,
        &[128, 128, 128, 128, 128, 1],
    ),
    Number(
        "6 bytes, the most",
        4_398_046_511_103,
        &[255, 255, 255, 255, 255, 127],
    ),
    Number(
        "7 bytes, the least",
        4_398_046_511_104,
        &[128, 128, 128, 128, 128, 128, 1],
    ),
    Number(
        "7 bytes, the most",
        562_949_953_421_311,
        &[255, 255, 255, 255, 255, 255, 127],
    ),
    Number(
        "8 bytes, the least",
        562_949_953_421_312,
        &[128, 128, 128, 128, 128, 128, 128, 1],
    ),
    Number(
        "8 bytes, the most",
        72_057_594_037_927_935,
        &[255, 255, 255, 255, 255, 255, 255, 127],
    ),
    Number(
        "9 bytes, the least",
        72_057_594_037_927_936,
        &[128, 128, 128, 128, 128, 128, 128, 128, 1],
    ),
    Number(
        "9 bytes, the most",
        9_223_372_036_854_775_807,
        &[255, 255, 255, 255, 255, 255, 255, 255, 127],
    ),
    Number(
        "10 bytes, the least",
        9_223_372_036_854_775_808,
        &[128, 128, 128, 128, 128, 128, 128, 128, 128, 1],
    ),
    Number(
        "10 bytes, the most",
        18_446_744_073_709_551_615,
        &[255, 255, 255, 255, 255, 255, 255, 255, 255, 1],
    ),
    Signed("0 with a sign", 0, &[0]),
    Signed("-1", -1, &[1]),
    Signed("1", 1, &[2]),
    Signed("-10", -10, &[19]),
    Signed("63", 63, &[126]),
    Signed("-65", -65, &[129, 1]),
    Signed(
        "the most",
        i64::MAX,
        &[254, 255, 255, 255, 255, 255, 255, 255, 255, 1],
    ),
    Signed(
        "the least",
        i64::MIN,
        &[255, 255, 255, 255, 255, 255, 255, 255, 255, 1],
    ),
    Form("0 in 2 bytes", &[128, 0], Ok((0, 2))),
    Form("1 in 3 bytes", &[129, 128, 0], Ok((1, 3))),
    Form(
        "0 in 10 bytes",
        &[128, 128, 128, 128, 128, 128, 128, 128, 128, 0],
        Ok((0, 10)),
    ),
    Form(
        "the most, and a byte",
        &[255, 255, 255, 255, 255, 255, 255, 255, 255, 1, 1],
        Ok((u64::MAX, 10)),
    ),
    Form(
        "a last byte 2 after 255",
        &[255, 255, 255, 255, 255, 255, 255, 255, 255, 2],
        Err(CodeFault::TooBig),
    ),
    Form(
        "a last byte 2 after 128",
        &[128, 128, 128, 128, 128, 128, 128, 128, 128, 2],
        Err(CodeFault::TooBig),
    ),
    Form(
        "11 bytes",
        &[128, 128, 128, 128, 128, 128, 128, 128, 128, 128, 1],
        Err(CodeFault::TooBig),
    ),
    Form(
        "9 bytes of 10",
        &[128, 128, 128, 128, 128, 128, 128, 128, 128],
        Err(CodeFault::Short),
    ),
    Unsigned("a byte of 2", &[128], CodeFault::Short),
    Unsigned("10 bytes 255", &[255; 10], CodeFault::TooBig),
];

/// Returns whether a number is written in this way, and then another byte after it.
fn is_written(out: &mut Vec<u8>, n: u64, bytes: &[u8]) -> bool {
    out.clear();
    put_uvarint(out, n).is_ok() && out.as_slice() == bytes && out.push(7).is_ok()
}

/// Returns the same of a signed number.
fn is_signed_written(out: &mut Vec<u8>, z: i64, bytes: &[u8]) -> bool {
    out.clear();
    put_varint(out, z).is_ok() && out.as_slice() == bytes && out.push(7).is_ok()
}

/// Returns whether each proper prefix of the form is too short.
fn is_short_where_cut(bytes: &[u8]) -> bool {
    for end in 0..bytes.len() {
        if get_uvarint(&bytes[..end]) != Err(CodeFault::Short) {
            return false;
        }
    }
    true
}

/// Returns whether a row holds: a form is also read with another byte after it, and each of its
/// proper prefixes is too short.
fn is_so(out: &mut Vec<u8>, row: &Row) -> bool {
    match row {
        Crc(_, text, crc) => crc32c(text) == *crc,
        Number(_, n, bytes) => {
            is_written(out, *n, bytes)
                && get_uvarint(out) == Ok((*n, bytes.len()))
                && is_short_where_cut(bytes)
        }
        Signed(_, z, bytes) => {
            is_signed_written(out, *z, bytes) && get_varint(out) == Ok((*z, bytes.len()))
        }
        Form(_, text, read) => get_uvarint(text) == *read,
        Unsigned(_, text, fault) => get_varint(text) == Err(*fault),
    }
}

fn name_of(row: &Row) -> &'static str {
    match row {
        Crc(name, ..) | Number(name, ..) | Signed(name, ..) | Form(name, ..) | Unsigned(name, ..) =>
            name,
    }
}

fn wrong_row(out: &mut Vec<u8>) -> Option<&'static str> {
    for row in &ROWS {
        if !is_so(out, row) {
            return Some(name_of(row));
        }
    }
    None
}

#[test]
fn texts_and_numbers(rt: HostRuntime) {
    none_is_wrong(&rt, wrong_row(&mut Vec::new(rt.alloc())));
}

/// Returns whether the number is written whole, or nothing if memory runs out.
fn is_whole_or_nothing(out: &mut Vec<u8>, n: u64, bytes: &[u8]) -> bool {
    let len = out.len();
    match put_uvarint(out, n) {
        Ok(()) => out.len() == len + bytes.len(),
        Err(_) => out.len() == len,
    }
}

/// Returns the same of the signed number -1.
fn is_signed_whole_or_nothing(out: &mut Vec<u8>) -> bool {
    let before = out.len();
    match put_varint(out, -1) {
        Ok(()) => out.len() == before + 1,
        Err(_) => out.len() == before,
    }
}

fn half_written(out: &mut Vec<u8>) -> Option<&'static str> {
    for row in &ROWS {
        if let Number(name, n, bytes) = row {
            if !is_whole_or_nothing(out, *n, bytes) || !is_signed_whole_or_nothing(out) {
                return Some(name);
            }
        }
    }
    None
}

/// If memory runs out, what was written does not change. The test shows this when each allocation
/// fails in turn.
#[test]
fn refused_memory_writes_nothing(rt: HostRuntime) {
    none_is_wrong(&rt, half_written(&mut Vec::new(rt.alloc())));
}

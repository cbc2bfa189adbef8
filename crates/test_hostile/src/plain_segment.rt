//! A plain reading of a page, by the text of the format alone: one fragment after the other, each
//! checksum bit by bit.

use rw_wal_tail::TailFault;

/// How many of the known records are in a page, and its fault.
#[derive(Clone, Copy, PartialEq, Eq)]
pub(crate) struct Reading {
    pub(crate) records: usize,
    pub(crate) fault: Option<TailFault>,
}

/// What is at a fragment's place.
#[derive(Clone, Copy)]
enum Found<'a> {
    /// Nothing more, or what is not whole yet.
    Nothing,
    Fault(TailFault),
    /// A fragment of this type, its data, and what follows it.
    Fragment(u8, &'a [u8], &'a [u8]),
}

/// Returns the CRC-32C of bytes, bit by bit.
fn crc_of(bytes: &[u8]) -> u32 {
    let mut crc = u32::MAX;
    for byte in bytes {
        crc ^= *byte as u32;
        for _ in 0..8u32 {
            crc = if crc & 1 == 1 {
                (crc >> 1) ^ 0x82f6_3b78
            } else {
                crc >> 1
            };
        }
    }
    !crc
}

/// Returns the fragment of a type whose header's other six bytes, and what follows them, are here,
/// `at` bytes into its page.
fn fragment(kind: u8, behind: &[u8], at: usize) -> Found<'_> {
    if behind.len() < 6 {
        return Found::Nothing;
    }
    let (header, rest) = behind.split_at(6);
    let len = u16::from_be_bytes([header[0], header[1]]) as usize;
    if at.saturating_add(7).saturating_add(len) > 32_768 {
        return Found::Fault(TailFault::BadLength);
    }
    if rest.len() < len {
        return Found::Nothing;
    }
    let (data, rest) = rest.split_at(len);
    if crc_of(data) != u32::from_be_bytes([header[2], header[3], header[4], header[5]]) {
        return Found::Fault(TailFault::BadCrc);
    }
    Found::Fragment(kind, data, rest)
}

/// Returns whether all bytes are 0.
pub(crate) fn are_zeros(bytes: &[u8]) -> bool {
    for byte in bytes {
        if *byte != 0 {
            return false;
        }
    }
    true
}

/// Returns what is `at` bytes into a page.
fn found_at(text: &[u8], at: usize) -> Found<'_> {
    let Some((kind, behind)) = text.split_first() else {
        return Found::Nothing;
    };
    match *kind {
        0 if are_zeros(behind) => Found::Nothing,
        0 => Found::Fault(TailFault::NonzeroPadding),
        8..=31 => Found::Fault(TailFault::Compressed),
        5..=7 | 32.. => Found::Fault(TailFault::BadType),
        kind => fragment(kind, behind, at),
    }
}

/// Reads a page whose whole records are expected to be these, in this order.
pub(crate) fn plain_reading(page: &[u8], records: &[&[u8]]) -> Reading {
    let mut read = 0;
    let mut is_open = false;
    let mut rest = page;
    for _ in 0..=records.len() {
        match found_at(rest, page.len().saturating_sub(rest.len())) {
            Found::Nothing => break,
            Found::Fault(fault) => return Reading {
                records: read,
                fault: Some(fault),
            },
            Found::Fragment(kind, _, _) if is_open == (kind < 3) => {
                return Reading {
                    records: read,
                    fault: Some(TailFault::Sequence),
                };
            }
            Found::Fragment(1, data, behind) if records.get(read) == Some(&data) => {
                read = read.saturating_add(1);
                rest = behind;
            }
            Found::Fragment(2, _, behind) => {
                is_open = true;
                rest = behind;
            }
            Found::Fragment(..) => return Reading {
                records: read,
                fault: Some(TailFault::BadRecord),
            },
        }
    }
    Reading {
        records: read,
        fault: None,
    }
}

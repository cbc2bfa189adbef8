//! Texts with each byte changed to each other value, and cut at each length.

use crate::{bodies, replies, segments};
use std::alloc::Global;

/// A reader of texts, beside a plain reading of them.
#[derive(Clone, Copy)]
pub(crate) enum Reader {
    Segments,
    Bodies,
    Replies,
}

/// Returns whether both read a text alike.
fn agree(reader: Reader, alloc: Global, text: &[u8]) -> bool {
    match reader {
        Reader::Segments => segments::is_read(alloc, text),
        Reader::Bodies => bodies::is_read(alloc, text),
        Reader::Replies => replies::is_read(text),
    }
}

/// Returns the first length of a text, above `least` bytes, at which it is read differently.
fn wrong_length(reader: Reader, alloc: Global, text: &[u8], least: usize) -> Option<usize> {
    for len in 0..=text.len() {
        if len > least && !agree(reader, alloc, &text[..len]) {
            return Some(len);
        }
    }
    None
}

/// Returns the first value of this byte with which the text, or a prefix of it that has the byte,
/// is read differently.
fn wrong_value(reader: Reader, alloc: Global, text: &mut [u8], at: usize) -> Option<u8> {
    let byte = *text.get(at)?;
    for value in 0..=255u8 {
        text[at] = value;
        if wrong_length(reader, alloc, text, at).is_some() {
            return Some(value);
        }
    }
    text[at] = byte;
    None
}

fn wrong_byte_in(reader: Reader, alloc: Global, text: &mut [u8]) -> Option<usize> {
    for at in 0..text.len() {
        if wrong_value(reader, alloc, text, at).is_some() {
            return Some(at);
        }
    }
    None
}

/// Returns the first byte of a text that has such a value, or the number of its bytes if memory
/// runs out.
pub(crate) fn wrong_byte(reader: Reader, alloc: Global, text: &[u8]) -> Option<usize> {
    match text.to_vec(alloc) {
        Ok(mut copy) => wrong_byte_in(reader, alloc, &mut copy),
        Err(_) => Some(text.len()),
    }
}

use crate::message_rows::is_spelled;
use crate::rows::{holds, none_is_wrong};
use rw_test_parts::{UP_MESSAGE as ONE, WORD_OF_ONE};
use rw_types::{Word, bytes_field_len, label_field_len, put_label_field};
use rw_write_request::{
    decode, encoded_len, put_sample_field, put_series_front, sample_field_is_short,
};
use std::alloc::{AllocError, Global};

fn put_sample(out: &mut Vec<u8>, word: u64, timestamp: i64) -> Result<(), AllocError> {
    sample_field_is_short();
    out.reserve(22)?;
    put_sample_field(out, Word(word), timestamp);
    Ok(())
}

/// Returns whether the message that is read of `ONE`, which `a_message_is_read` looks at, has this
/// spelling and this length.
fn is_one(alloc: Global) -> bool {
    match decode(alloc, &ONE) {
        Ok(message) => is_spelled(alloc, &message, &ONE) && encoded_len(&message) == Some(32),
        Err(_) => false,
    }
}

#[test]
fn a_message_is_spelled(rt: HostRuntime) {
    holds(&rt, is_one(rt.alloc()));
}

/// Neither a word of 0 nor a timestamp of 0 is written, and a negative timestamp takes ten bytes.
static SAMPLES: [(&str, u64, i64, &[u8]); 6] = [
    ("0 at 0", 0, 0, &[0x12, 0x00]),
    ("0 at 1", 0, 1, &[0x12, 0x02, 0x10, 0x01]),
    (
        "0 at -1, of ten bytes",
        0,
        -1,
        &[
            0x12, 0x0b, 0x10, 0xff, 0xff, 0xff, 0xff, 0xff, 0xff, 0xff, 0xff, 0xff, 0x01,
        ],
    ),
    (
        "1 at 0",
        WORD_OF_ONE,
        0,
        &[0x12, 0x09, 0x09, 0, 0, 0, 0, 0, 0, 0xf0, 0x3f],
    ),
    (
        "1 at 1000",
        WORD_OF_ONE,
        1000,
        &[
            0x12, 0x0c, 0x09, 0, 0, 0, 0, 0, 0, 0xf0, 0x3f, 0x10, 0xe8, 0x07,
        ],
    ),
    (
        "3 at the least timestamp",
        0x4008_0000_0000_0000,
        i64::MIN,
        &[
            0x12, 0x14, 0x09, 0, 0, 0, 0, 0, 0, 0x08, 0x40, 0x10, 0x80, 0x80, 0x80, 0x80, 0x80,
            0x80, 0x80, 0x80, 0x80, 0x01,
        ],
    ),
];

/// Returns whether a sample has this field.
fn is_field_of(field: &mut Vec<u8>, word: u64, timestamp: i64, expected: &[u8]) -> bool {
    field.clear();
    put_sample(field, word, timestamp).is_ok() && field.as_slice() == expected
}

fn wrong_sample(field: &mut Vec<u8>) -> Option<&'static str> {
    for (name, word, timestamp, expected) in &SAMPLES {
        if !is_field_of(field, *word, *timestamp, expected) {
            return Some(name);
        }
    }
    None
}

#[test]
fn samples_are_spelled(rt: HostRuntime) {
    none_is_wrong(&rt, wrong_sample(&mut Vec::new(rt.alloc())));
}

/// Returns whether a series has its parts, with the lengths that the calls return.
fn has_parts(alloc: Global) -> bool {
    if label_field_len("__name__", "up") != Some(16) || bytes_field_len(30) != Some(32) {
        return false;
    }
    let Ok(mut bytes) = Vec::with_capacity(alloc, 32) else {
        return false;
    };
    put_series_front(&mut bytes, 30);
    put_label_field(&mut bytes, "__name__", "up");
    put_sample(&mut bytes, WORD_OF_ONE, 1000).is_ok() && bytes.as_slice() == ONE.as_slice()
}

/// A series is written by a caller who knows its parts.
#[test]
fn a_series_is_made_in_parts(rt: HostRuntime) {
    holds(&rt, has_parts(rt.alloc()));
    holds(&rt, bytes_field_len(usize::MAX).is_none());
}

use crate::message_rows::is_spelled;
use crate::rows::{holds, no_number_is_wrong, none_is_wrong};
use rw_test_parts::{UP_MESSAGE as ONE, WORD_OF_ONE};
use rw_types::Word;
use rw_write_request::{Message, Series, WireFault, decode};
use std::alloc::Global;

/// Returns the number of the fault, and 0 for a message.
fn answer(alloc: Global, bytes: &[u8]) -> u8 {
    match decode(alloc, bytes) {
        Ok(_) => 0,
        Err(WireFault::OutOfMemory) => 9,
        Err(fault) => fault as u8,
    }
}

/// Returns whether a series is `up` with the value 1 at 1000 ms.
fn is_one(series: &Series) -> bool {
    let [(name, value)] = series.labels.as_slice() else {
        return false;
    };
    let [(word, timestamp)] = series.samples.as_slice() else {
        return false;
    };
    name.as_str() == "__name__"
        && value.as_str() == "up"
        && *word == Word(WORD_OF_ONE)
        && *timestamp == 1000
}

/// Returns whether a message consists of this many such series. The answer is no if there is no
/// message.
fn has_ones(message: Result<Message, WireFault>, count: usize) -> bool {
    let Ok(message) = message else {
        return false;
    };
    for series in &message.series {
        if !is_one(series) {
            return false;
        }
    }
    message.series.len() == count
}

#[test]
fn a_message_is_read(rt: HostRuntime) {
    holds(&rt, has_ones(decode(rt.alloc(), &ONE), 1));
    holds(&rt, has_ones(decode(rt.alloc(), &[]), 0));
}

/// Each text, and the canonical spelling of the message that it spells.
static SPELLINGS: [(&str, &[u8], &[u8]); 6] = [
    (
        "unknown fields of each wire type",
        &[
            0x18, 0x96, 0x01, 0x19, 1, 2, 3, 4, 5, 6, 7, 8, 0x1d, 1, 2, 3, 4,
        ],
        &[],
    ),
    (
        "the value before the name",
        &[0x0a, 0x08, 0x0a, 0x06, 0x12, 0x01, 0x62, 0x0a, 0x01, 0x61],
        &[0x0a, 0x08, 0x0a, 0x06, 0x0a, 0x01, 0x61, 0x12, 0x01, 0x62],
    ),
    (
        "two names, of which the second counts",
        &[0x0a, 0x08, 0x0a, 0x06, 0x0a, 0x01, 0x61, 0x0a, 0x01, 0x62],
        &[0x0a, 0x05, 0x0a, 0x03, 0x0a, 0x01, 0x62],
    ),
    (
        "a name that becomes empty again",
        &[0x0a, 0x07, 0x0a, 0x05, 0x0a, 0x01, 0x61, 0x0a, 0x00],
        &[0x0a, 0x02, 0x0a, 0x00],
    ),
    (
        "two timestamps, of which the second counts",
        &[0x0a, 0x06, 0x12, 0x04, 0x10, 0x05, 0x10, 0x07],
        &[0x0a, 0x04, 0x12, 0x02, 0x10, 0x07],
    ),
    (
        "a timestamp of 0 that is written",
        &[0x0a, 0x04, 0x12, 0x02, 0x10, 0x00],
        &[0x0a, 0x02, 0x12, 0x00],
    ),
];

/// Returns whether a text is read, and then has this spelling.
fn is_respelled(alloc: Global, text: &[u8], canonical: &[u8]) -> bool {
    match decode(alloc, text) {
        Ok(message) => is_spelled(alloc, &message, canonical),
        Err(_) => false,
    }
}

fn wrong_spelling(alloc: Global) -> Option<&'static str> {
    for (name, text, canonical) in &SPELLINGS {
        if !is_respelled(alloc, text, canonical) {
            return Some(name);
        }
    }
    None
}

/// Returns whether `ONE` is read of another front with the rest of `ONE` after it.
fn is_one_behind(alloc: Global, front: &[u8], rest: &[u8]) -> bool {
    let mut text = Vec::new(alloc);
    text.extend_from_slice(front).is_ok()
        && text.extend_from_slice(rest).is_ok()
        && is_respelled(alloc, &text, &ONE)
}

#[test]
fn other_spellings_are_read(rt: HostRuntime) {
    // a length in one byte more, and an unknown field
    holds(
        &rt,
        is_one_behind(rt.alloc(), &[0x0a, 0x9e, 0x00], &ONE[2..]),
    );
    holds(&rt, is_one_behind(rt.alloc(), &[0x1a, 0x01, 0x61], &ONE));
    none_is_wrong(&rt, wrong_spelling(rt.alloc()));
}

/// Texts, and the numbers of their faults, or 0.
static FAULTS: [(&str, &[u8], u8); 14] = [
    ("another wire type", &[0x08, 0x01], 3),
    ("an unknown wire type", &[0x0b], 4),
    ("a field of number 0", &[0x02, 0x00], 5),
    ("a number of 0 before the wire type", &[0x07], 5),
    ("the wire type before the content", &[0x0d, 0x00], 3),
    (
        "the greatest length",
        &[
            0x0a, 0xff, 0xff, 0xff, 0xff, 0xff, 0xff, 0xff, 0xff, 0xff, 0x01,
        ],
        1,
    ),
    (
        "a length that is too great",
        &[
            0x0a, 0xff, 0xff, 0xff, 0xff, 0xff, 0xff, 0xff, 0xff, 0xff, 0x02,
        ],
        2,
    ),
    ("nine bytes of a tag that goes on", &[0xff; 9], 1),
    ("ten bytes of a tag that goes on", &[0xff; 10], 2),
    ("not UTF-8", &[0x0a, 0x05, 0x0a, 0x03, 0x0a, 0x01, 0xc3], 6),
    (
        "not UTF-8 before a name that is",
        &[0x0a, 0x08, 0x0a, 0x06, 0x0a, 0x01, 0xff, 0x0a, 0x01, 0x61],
        6,
    ),
    (
        "not UTF-8 before a fault of the message",
        &[0x0a, 0x05, 0x0a, 0x03, 0x0a, 0x01, 0xff, 0x0b],
        6,
    ),
    (
        "UTF-8",
        &[0x0a, 0x06, 0x0a, 0x04, 0x0a, 0x02, 0xc3, 0xa9],
        0,
    ),
    ("past its end", &[0x0a, 0x03, 0x12, 0x02, 0x10, 0x01], 1),
];

fn wrong_fault(alloc: Global) -> Option<&'static str> {
    for (name, bytes, expected) in &FAULTS {
        if answer(alloc, bytes) != *expected {
            return Some(name);
        }
    }
    None
}

#[test]
fn faults_have_their_numbers(rt: HostRuntime) {
    none_is_wrong(&rt, wrong_fault(rt.alloc()));
}

fn whole_front(alloc: Global) -> Option<usize> {
    for n in 1..32usize {
        if answer(alloc, &ONE[..n]) != 1 {
            return Some(n);
        }
    }
    None
}

#[test]
fn fronts_are_truncated(rt: HostRuntime) {
    no_number_is_wrong(&rt, whole_front(rt.alloc()));
}

/// Counts the results for the texts that differ from `ONE` in the byte at this place.
fn count_changes(alloc: Global, counts: &mut [u32; 10], i: usize) {
    let mut bytes = ONE;
    for byte in 0..=255u8 {
        bytes[i % 32] = byte;
        if byte != ONE[i % 32] {
            let count = &mut counts[answer(alloc, &bytes) as usize % 10];
            *count = count.wrapping_add(1);
        }
    }
}

/// Returns how many of the texts that differ from `ONE` in one byte get each result.
fn counts_of_changes(alloc: Global) -> [u32; 10] {
    let mut counts = [0u32; 10];
    for i in 0..32usize {
        count_changes(alloc, &mut counts, i);
    }
    counts
}

/// Another reader counted them.
#[test]
fn changed_bytes_are_judged(rt: HostRuntime) {
    let wanted = [3704, 1654, 0, 92, 1049, 380, 1281, 0, 0, 0];
    holds(&rt, counts_of_changes(rt.alloc()) == wanted);
}

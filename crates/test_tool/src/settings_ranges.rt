//! The borders of every range.

use crate::rows::none_is_wrong;
use crate::settings_documents::fault;
use std::alloc::{AllocError, Global};

/// A table and its key, the key's least and its most number, and other lines of the table.
type Range = (&'static str, &'static str, (i64, i64), &'static str);

static RANGES: [Range; 12] = [
    ("send", "shards", (1, 1_000), "max_shards = 1000"),
    (
        "send",
        "min_shards",
        (1, 1_000),
        "shards = 1000\nmax_shards = 1000",
    ),
    ("send", "max_shards", (1, 1_000), ""),
    ("send", "capacity", (1, 1_000_000), ""),
    ("send", "batch", (1, 10_000), ""),
    (
        "send",
        "min_backoff_ms",
        (1, 3_600_000),
        "max_backoff_ms = 3600000",
    ),
    (
        "send",
        "max_backoff_ms",
        (1, 3_600_000),
        "min_backoff_ms = 1",
    ),
    ("send", "timeout_ms", (1, 3_600_000), ""),
    ("receive", "max_body_bytes", (1, 67_108_864), ""),
    ("receive", "max_labels", (1, 64), ""),
    ("receive", "max_label_bytes", (1, 16_384), ""),
    ("receive", "busy_first", (0, 1_000_000), ""),
];

fn with_number(alloc: Global, range: Range, number: i64) -> Result<String, AllocError> {
    let (table, key, _, lines) = range;
    format!(in alloc; "[{table}]\n{lines}\n{key} = {number}\n")
}

/// Returns whether a number has the fault of this number, or none.
fn is_fault_at(alloc: Global, range: Range, number: i64, want: u8) -> bool {
    match with_number(alloc, range, number) {
        Ok(text) => fault(alloc, text.as_bytes()) == want,
        Err(_) => false,
    }
}

/// Returns whether the numbers at both borders, beside them and far away have the faults that they
/// should have, or none.
fn is_range(alloc: Global, range: Range) -> bool {
    let (_, _, (low, high), _) = range;
    is_fault_at(alloc, range, low.saturating_sub(1), 4)
        && is_fault_at(alloc, range, low, 9)
        && is_fault_at(alloc, range, high, 9)
        && is_fault_at(alloc, range, high.saturating_add(1), 4)
        && is_fault_at(alloc, range, i64::MIN, 4)
        && is_fault_at(alloc, range, i64::MAX, 4)
}

fn ranges() -> &'static [Range] {
    &RANGES
}

/// Returns the key of the first range that is wrong.
fn wrong_range(alloc: Global, ranges: &[Range]) -> Option<&'static str> {
    for range in ranges {
        if !is_range(alloc, *range) {
            return Some(range.1);
        }
    }
    None
}

#[test]
fn numbers(rt: HostRuntime) {
    none_is_wrong(&rt, wrong_range(rt.alloc(), ranges()));
}

/// Returns a text that begins in this way, and has this many letters after that.
fn with_letters(alloc: Global, front: &str, letters: usize) -> Result<String, AllocError> {
    let mut text = String::from_str(alloc, front)?;
    for _ in 0..letters {
        text.push_str("a")?;
    }
    Ok(text)
}

/// Returns whether a key with a text has the fault of this number, or none.
fn is_text_fault(alloc: Global, key: &str, value: &str, want: u8) -> bool {
    match format!(in alloc; "{key} = '{value}'\n") {
        Ok(text) => fault(alloc, text.as_bytes()) == want,
        Err(_) => false,
    }
}

/// A name, a key, a text with how many letters follow it, and the number of the fault, or 9.
type Text = (&'static str, &'static str, (&'static str, usize), u8);

static TEXTS: [Text; 23] = [
    ("no host", "send.host", ("", 0), 4),
    ("host !", "send.host", ("!", 0), 9),
    ("host ~", "send.host", ("~", 0), 9),
    ("a space in a host", "send.host", ("a b", 0), 4),
    ("an accent in a host", "send.host", ("\u{e9}", 0), 4),
    ("no path", "send.path", ("", 0), 4),
    ("path a", "send.path", ("a", 0), 4),
    ("path /", "send.path", ("/", 0), 9),
    (
        "each sign in a path",
        "send.path",
        ("/azAZ09/-._~%?=&", 0),
        9,
    ),
    ("a space in a path", "send.path", ("/a b", 0), 4),
    ("a comma in a path", "send.path", ("/a,b", 0), 4),
    ("an @ in a path", "send.path", ("/a@", 0), 4),
    ("a bracket in a path", "send.path", ("/[", 0), 4),
    ("receive: no path", "receive.path", ("", 0), 4),
    ("receive: path /", "receive.path", ("/", 0), 9),
    ("receive: path ?", "receive.path", ("?", 0), 4),
    ("receive: a colon", "receive.path", ("/a:", 0), 4),
    ("a host of 255 bytes", "send.host", ("a", 254), 9),
    ("a host of 256 bytes", "send.host", ("a", 255), 4),
    ("a path of 255 bytes", "send.path", ("/", 254), 9),
    ("a path of 256 bytes", "send.path", ("/", 255), 4),
    ("receive: 255 bytes", "receive.path", ("/", 254), 9),
    ("receive: 256 bytes", "receive.path", ("/", 255), 4),
];

/// Returns the same for a text that begins in this way, and has this many letters after that.
fn is_fault_of_letters(alloc: Global, key: &str, front: &str, letters: usize, want: u8) -> bool {
    match with_letters(alloc, front, letters) {
        Ok(text) => is_text_fault(alloc, key, text.as_str(), want),
        Err(_) => false,
    }
}

fn rows() -> &'static [Text] {
    &TEXTS
}

fn wrong_text(alloc: Global, rows: &[Text]) -> Option<&'static str> {
    for (name, key, (front, letters), want) in rows {
        if !is_fault_of_letters(alloc, key, front, *letters, *want) {
            return Some(name);
        }
    }
    None
}

#[test]
fn texts(rt: HostRuntime) {
    none_is_wrong(&rt, wrong_text(rt.alloc(), rows()));
}

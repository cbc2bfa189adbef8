//! The labels that settings add to each series.

use crate::rows::none_is_wrong;
use rw_external_labels::ExternalLabels;
use rw_settings::{SettingsFault, read_external_labels};
use rw_test_parts::raw_labels;
use rw_types::{Names, RawLabels};
use std::alloc::{AllocError, Global};

/// A text of settings, the labels that it adds to a series with some, and those of the series then.
type Row = (
    &'static str,
    &'static [(&'static str, &'static str)],
    &'static [(&'static str, &'static str)],
);

static ROWS: [Row; 7] = [
    ("", &[("job", "a")], &[("job", "a")]),
    ("[send.labels]", &[], &[]),
    (
        "[send.labels]\nb = '1'",
        &[("a", "2"), ("c", "3")],
        &[("a", "2"), ("b", "1"), ("c", "3")],
    ),
    // a key is not in the order of the text, and a label of the series stays
    (
        "send = { labels = { z = '1', a = '2', m = '3' } }",
        &[("b", "4"), ("m", "5")],
        &[("a", "2"), ("b", "4"), ("m", "5"), ("z", "1")],
    ),
    (
        "[send.labels]\nab = '1'",
        &[("a", "2")],
        &[("a", "2"), ("ab", "1")],
    ),
    (
        "[send.labels]\nA = '1'\n_ = '\u{e9}'",
        &[("B", "2"), ("a", "3")],
        &[("A", "1"), ("B", "2"), ("_", "\u{e9}"), ("a", "3")],
    ),
    (
        "[send]\nsnappy = true\n[send.labels]\na = '1'",
        &[],
        &[("a", "1")],
    ),
];

/// Returns whether labels are those of two lists, which may differ in their memory alone.
fn are_same(labels: &RawLabels, want: &RawLabels) -> bool {
    labels.as_slice() == want.as_slice()
}

/// Returns whether a series has these labels with the external ones.
fn gives(alloc: Global, external: &ExternalLabels, row: &Row) -> Result<bool, AllocError> {
    let (_, own, all) = row;
    let labels = external.add_to(alloc, raw_labels(alloc, own)?)?;
    Ok(are_same(&labels, &raw_labels(alloc, all)?))
}

fn is_so(alloc: Global, row: &Row) -> bool {
    match read_external_labels(alloc, row.0.as_bytes(), Names::Legacy) {
        Ok(external) => gives(alloc, &external, row) == Ok(true),
        Err(_) => false,
    }
}

fn rows() -> &'static [Row] {
    &ROWS
}

fn wrong_row(alloc: Global, rows: &[Row]) -> Option<&'static str> {
    for row in rows {
        if !is_so(alloc, row) {
            return Some(row.0);
        }
    }
    None
}

/// Returns settings with this many labels, each of so many bytes.
fn with_labels(alloc: Global, count: usize, len: usize) -> Result<String, AllocError> {
    let mut text = String::from_str(alloc, "[send.labels]\n")?;
    for i in 0..count {
        let line = format!(in alloc; "l{i:04} = '")?;
        text.push_str(line.as_str())?;
        for _ in 5..len {
            text.push_str("x")?;
        }
        text.push_str("'\n")?;
    }
    Ok(text)
}

/// Returns whether that many labels of so many bytes are taken, or are out of range.
fn is_taken(alloc: Global, count: usize, len: usize, want: bool) -> bool {
    let Ok(text) = with_labels(alloc, count, len) else {
        return false;
    };
    match read_external_labels(alloc, text.as_bytes(), Names::Legacy) {
        Ok(_) => want,
        Err(fault) => !want && fault == SettingsFault::OutOfRange,
    }
}

/// Returns the first of the limits that is wrong.
fn wrong_limit(alloc: Global) -> Option<&'static str> {
    if !is_taken(alloc, 64, 6, true) {
        Some("64 labels")
    } else if !is_taken(alloc, 65, 6, false) {
        Some("65 labels")
    } else if !is_taken(alloc, 64, 256, true) {
        Some("16384 bytes")
    } else if !is_taken(alloc, 63, 261, false) {
        Some("16443 bytes")
    } else {
        None
    }
}

#[test]
fn labels_and_limits(rt: HostRuntime) {
    none_is_wrong(&rt, wrong_row(rt.alloc(), rows()));
    none_is_wrong(&rt, wrong_limit(rt.alloc()));
}

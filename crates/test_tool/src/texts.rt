//! Values and labels as text.

use crate::rows::{holds, none_is_wrong};
use crate::rule_making::{label_set, label_set_as};
use Row::{Labelled, Number, Other, Value};
use rw_test_parts::raw_labels;
use rw_text::{
    TextFault, push_integer, push_labels, push_number, push_value, read_integer, read_labels,
    read_number, read_value,
};
use rw_types::{LabelSet, Names, Word};
use std::alloc::Global;

type Labels = &'static [(&'static str, &'static str)];

/// What a row says.
enum Row {
    /// A word, and the text that it prints and is read from.
    Value(u64, &'static str),
    /// A text, and the number and the integer that it stands for, if any.
    Number(&'static str, Option<u64>, Option<i64>),
    /// A label set, and the text that it prints and is read from.
    Labelled(Labels, &'static str),
    /// Labels that are read from this text.
    Other(Labels, &'static str),
}

static ROWS: [Row; 35] = [
    Value(0, "0"),
    Value(0x3ff0_0000_0000_0000, "1"),
    Value(0xc000_0000_0000_0000, "-2"),
    Value(0x433f_ffff_ffff_ffff, "9007199254740991"),
    Value(0x4340_0000_0000_0000, "9007199254740992"),
    Value(0xc340_0000_0000_0000, "-9007199254740992"),
    Value(0x8000_0000_0000_0000, "0x8000000000000000"),
    Value(0x4340_0000_0000_0001, "0x4340000000000001"),
    Value(0x3fe0_0000_0000_0000, "0x3fe0000000000000"),
    Number("0", Some(0), Some(0)),
    Number("007", Some(7), Some(7)),
    Number("-0", None, Some(0)),
    Number("-12", None, Some(-12)),
    Number("9223372036854775808", Some(1 << 63), None),
    Number("-9223372036854775808", None, Some(i64::MIN)),
    Number("18446744073709551615", Some(u64::MAX), None),
    Number("18446744073709551616", None, None),
    Number("+1", None, None),
    Number("", None, None),
    Number("--1", None, None),
    Labelled(&[], "{}"),
    Labelled(&[("__name__", "up")], r#"{__name__="up"}"#),
    Labelled(&[("a", "1"), ("b", "2")], r#"{a="1",b="2"}"#),
    Labelled(
        &[("job", "x\\y\"z\n\t{}=,")],
        "{job=\"x\\\\y\\\"z\\n\t{}=,\"}",
    ),
    Labelled(&[("job", "säge")], r#"{job="säge"}"#),
    // names that are any text
    Labelled(&[("a\"b", "1")], r#"{"a\"b"="1"}"#),
    Labelled(&[("a\\b", "1")], r#"{"a\\b"="1"}"#),
    Labelled(&[("a\nb", "1")], r#"{"a\nb"="1"}"#),
    Labelled(&[("a.b", "1")], r#"{"a.b"="1"}"#),
    Labelled(&[("9x", "1")], r#"{"9x"="1"}"#),
    Labelled(&[("säge", "1")], r#"{"säge"="1"}"#),
    Labelled(
        &[("__name__", "http.rate"), ("säge", "1")],
        r#"{__name__="http.rate","säge"="1"}"#,
    ),
    // not a label set, whatever names are accepted
    Other(&[("", "")], r#"{""=""}"#),
    Other(&[("a:b", "1"), ("a-b", "2")], r#"{a:b="1","a-b"="2"}"#),
    Other(
        &[("9\n", "1"), ("a", "2"), ("a", "1")],
        r#"{"9\n"="1",a="2",a="1"}"#,
    ),
];

/// Returns whether a word is printed as this text, and read from it.
fn is_value(alloc: Global, bits: u64, text: &str) -> bool {
    let mut out = Vec::new(alloc);
    push_value(&mut out, Word(bits)).is_ok()
        && out.as_slice() == text.as_bytes()
        && read_value(text.as_bytes()) == Some(Word(bits))
}

/// Returns whether the largest number and the least integer are printed one after the other.
fn prints_numbers(alloc: Global) -> bool {
    let mut out = Vec::new(alloc);
    push_number(&mut out, u64::MAX).is_ok()
        && push_integer(&mut out, i64::MIN).is_ok()
        && out.as_slice() == b"18446744073709551615-9223372036854775808".as_slice()
}

/// Returns whether the text reads as these labels.
fn reads_as(alloc: Global, text: &[u8], labels: &[(&str, &str)]) -> bool {
    match (read_labels(alloc, text), raw_labels(alloc, labels)) {
        (Ok(read), Ok(wanted)) => read.as_slice() == wanted.as_slice(),
        _ => false,
    }
}

/// Returns whether the text is printed of these labels.
fn is_printed(alloc: Global, labels: &[(&str, &str)], text: &str) -> bool {
    let mut out = Vec::new(alloc);
    match label_set_as(alloc, Names::Utf8, labels) {
        Ok(set) => push_labels(&mut out, &set).is_ok() && out.as_slice() == text.as_bytes(),
        Err(_) => false,
    }
}

/// Returns whether labels are printed as this text, and read from it.
fn is_labelled(alloc: Global, labels: &[(&str, &str)], text: &str) -> bool {
    is_printed(alloc, labels, text) && reads_as(alloc, text.as_bytes(), labels)
}

fn is_so(alloc: Global, row: &Row) -> bool {
    match row {
        Value(bits, text) => is_value(alloc, *bits, text),
        Number(text, number, integer) => {
            read_number(text.as_bytes()) == *number && read_integer(text.as_bytes()) == *integer
        }
        Labelled(labels, text) => is_labelled(alloc, labels, text),
        Other(labels, text) => reads_as(alloc, text.as_bytes(), labels),
    }
}

fn rows() -> &'static [Row] {
    &ROWS
}

/// Returns the text of the first row that is wrong.
fn wrong_row(alloc: Global, rows: &[Row]) -> Option<&'static str> {
    for row in rows {
        if !is_so(alloc, row) {
            let (Value(_, text) | Number(text, ..) | Labelled(_, text) | Other(_, text)) = row;
            return Some(text);
        }
    }
    None
}

#[test]
fn there_and_back(rt: HostRuntime) {
    none_is_wrong(&rt, wrong_row(rt.alloc(), rows()));
    holds(&rt, prints_numbers(rt.alloc()));
}

/// Returns a name of the most bytes that a label set may have beside a value of one byte. It is
/// shorter if memory runs out.
fn long_name(alloc: Global) -> String {
    let mut name = String::new(alloc);
    for i in 0..16_383u32 {
        let _ = name.push_str(if i == 0 { "." } else { "a" });
    }
    name
}

/// Returns whether a label with the longest name is printed and read as others are.
fn is_long_name_kept(alloc: Global) -> bool {
    let name = long_name(alloc);
    match format!(in alloc; "{{\"{name}\"=\"1\"}}") {
        Ok(text) => {
            name.len() == 16_383 && is_labelled(alloc, &[(name.as_str(), "1")], text.as_str())
        }
        Err(_) => false,
    }
}

#[test]
fn long_names(rt: HostRuntime) {
    holds(&rt, is_long_name_kept(rt.alloc()));
}

/// Returns whether labels are printed whole, or leave the text as it was if memory runs out.
fn prints_all_or_nothing(out: &mut Vec<u8>, set: &LabelSet) -> bool {
    let len = out.len();
    match push_labels(out, set) {
        Ok(()) => out.len() == len.saturating_add(26),
        Err(_) => out.len() == len,
    }
}

/// Returns the same, four times over.
fn prints_four(alloc: Global, set: &LabelSet) -> bool {
    let mut out = Vec::new(alloc);
    for _ in 0..4 {
        if !prints_all_or_nothing(&mut out, set) {
            return false;
        }
    }
    true
}

/// Returns the same for a set of two labels. If memory runs out before, nothing is printed.
fn prints_set(alloc: Global) -> bool {
    match label_set(alloc, &[("__name__", "up"), ("job", "a\nb")]) {
        Ok(set) => prints_four(alloc, &set),
        Err(_) => true,
    }
}

fn fault_of(alloc: Global, text: &[u8]) -> Option<TextFault> {
    read_labels(alloc, text).err()
}

/// A printer that returns an `Err` leaves the text as it was. The test shows this when each
/// allocation fails in turn.
#[test]
fn refused_memory_prints_nothing(rt: HostRuntime) {
    holds(&rt, prints_set(rt.alloc()));
    holds(
        &rt,
        fault_of(rt.alloc(), b"{") == Some(TextFault::NotOfForm),
    );
}

//! Which labels are a label set, and the order of label sets.

use crate::rows::{holds, none_is_wrong};
use LabelFault::{BadName, EmptyName, EmptyValue, NotSorted};
use Names::{Legacy, Utf8};
use rw_test_parts::raw_labels;
use rw_types::{LabelFault, LabelSet, MAX_LABEL_BYTES, MAX_LABELS, Names, RawLabels};
use std::alloc::{AllocError, Global};

type Labels<'a> = &'a [(&'a str, &'a str)];

/// The names that are accepted, labels, and the first fault of them, if there is one.
static FAULTS: [(&str, Names, Labels<'static>, Option<LabelFault>); 23] = [
    ("no name", Legacy, &[("", "1")], Some(EmptyName)),
    ("a digit first", Legacy, &[("9a", "1")], Some(BadName)),
    ("a colon", Legacy, &[("a:b", "1")], Some(BadName)),
    ("an umlaut", Legacy, &[("säge", "1")], Some(BadName)),
    ("metric 9up", Legacy, &[("__name__", "9up")], Some(BadName)),
    (
        "a metric with a dot",
        Legacy,
        &[("__name__", "http.rate")],
        Some(BadName),
    ),
    ("no value", Legacy, &[("a", "")], Some(EmptyValue)),
    (
        "falling names",
        Legacy,
        &[("b", "1"), ("a", "1")],
        Some(NotSorted),
    ),
    (
        "a name twice",
        Legacy,
        &[("a", "1"), ("a", "2")],
        Some(NotSorted),
    ),
    (
        "two names",
        Legacy,
        &[("", "1"), ("9", "")],
        Some(EmptyName),
    ),
    ("no metric", Legacy, &[("__name__", "")], Some(BadName)),
    (
        "no value first",
        Legacy,
        &[("b", ""), ("a", "1")],
        Some(EmptyValue),
    ),
    ("any, no name", Utf8, &[("", "1")], Some(EmptyName)),
    ("any, a digit first", Utf8, &[("9a", "1")], None),
    ("any, a colon", Utf8, &[("a:b", "1")], None),
    ("any, an umlaut", Utf8, &[("säge", "1")], None),
    ("any, three signs", Utf8, &[("\"\\\n", "1")], None),
    ("any, a dot", Utf8, &[("__name__", "http.rate")], None),
    ("any, metric", Utf8, &[("__name__", "")], Some(EmptyValue)),
    ("any, no value", Utf8, &[("a.b", "")], Some(EmptyValue)),
    (
        "any, falling names",
        Utf8,
        &[("b.", "1"), ("a.", "1")],
        Some(NotSorted),
    ),
    (
        "any, twice",
        Utf8,
        &[(".", "1"), (".", "2")],
        Some(NotSorted),
    ),
    ("any, both", Utf8, &[("", "1"), ("9", "")], Some(EmptyName)),
];

static SETS: [(&str, Labels<'static>); 4] = [
    ("no labels", &[]),
    ("a value with a newline", &[("Z_9", "säge\n")]),
    ("a metric with colons", &[("__name__", "job:up:rate5m")]),
    (
        "names in byte order",
        &[("A", "1"), ("_", "2"), ("a", "3"), ("aa", "4")],
    ),
];

/// Label sets, each less than the next.
static RISING: [(&str, Labels<'static>); 6] = [
    ("none", &[]),
    ("a", &[("a", "1")]),
    ("a and b", &[("a", "1"), ("b", "1")]),
    ("a longer value", &[("a", "10")]),
    ("a longer name", &[("aa", "1")]),
    ("b", &[("b", "1")]),
];

fn fault(alloc: Global, labels: &RawLabels) -> Option<LabelFault> {
    LabelSet::check(alloc, labels).err()
}

/// Returns the fault of labels if these names are accepted. Out of memory is one too.
fn fault_as(alloc: Global, names: Names, labels: Labels<'_>) -> Option<LabelFault> {
    match raw_labels(alloc, labels) {
        Ok(raw) => LabelSet::check_as(alloc, names, &raw).err(),
        Err(_) => Some(LabelFault::OutOfMemory),
    }
}

/// Returns labels as texts.
fn texts(alloc: Global, labels: Labels<'_>) -> Result<Vec<(String, String)>, AllocError> {
    let mut texts = Vec::new(alloc);
    for (name, value) in labels {
        let label = (
            String::from_str(alloc, name)?,
            String::from_str(alloc, value)?,
        );
        texts.push(label)?;
    }
    Ok(texts)
}

/// Returns the fault of the label set that is made of these texts, as `fault_as` does.
fn fault_of_texts(alloc: Global, names: Names, labels: Labels<'_>) -> Option<LabelFault> {
    match texts(alloc, labels) {
        Ok(texts) => LabelSet::of_texts(names, texts).err(),
        Err(_) => Some(LabelFault::OutOfMemory),
    }
}

fn wrong_fault(alloc: Global) -> Option<&'static str> {
    for (name, names, labels, first) in &FAULTS {
        if fault_as(alloc, *names, labels) != *first
            || fault_of_texts(alloc, *names, labels) != *first
        {
            return Some(name);
        }
    }
    None
}

/// Returns the fault of labels once one of this name is added to them. Out of memory is one too.
fn fault_with(alloc: Global, labels: &mut RawLabels, name: &[u8]) -> Option<LabelFault> {
    match labels.push(name, b"1") {
        Ok(()) => fault(alloc, labels),
        Err(_) => Some(LabelFault::OutOfMemory),
    }
}

/// Returns whether an empty name, and a value that is not UTF-8, have this fault.
fn bytes_have(alloc: Global, first: LabelFault) -> bool {
    let mut bytes = RawLabels::new(alloc);
    bytes.push(b"", b"1").is_ok()
        && bytes.push(b"b", b"\xff").is_ok()
        && fault(alloc, &bytes) == Some(first)
}

#[test]
fn first_faults(rt: HostRuntime) {
    none_is_wrong(&rt, wrong_fault(rt.alloc()));
    holds(&rt, bytes_have(rt.alloc(), LabelFault::NotUtf8));
    holds(
        &rt,
        LabelFault::NotUtf8 as u8 == 1 && LabelFault::TooLong as u8 == 7,
    );
}

fn is_same(texts: &[(String, String)], labels: Labels<'_>) -> bool {
    for (a, b) in texts.iter().zip(labels) {
        if a.0.as_str() != b.0 || a.1.as_str() != b.1 {
            return false;
        }
    }
    texts.len() == labels.len()
}

fn set_of(alloc: Global, labels: Labels<'_>) -> Result<LabelSet, LabelFault> {
    LabelSet::check(alloc, &raw_labels(alloc, labels)?)
}

/// Returns whether the label set that is made of these texts holds them.
fn is_set_of_texts(alloc: Global, labels: Labels<'_>) -> bool {
    match texts(alloc, labels) {
        Ok(texts) => match LabelSet::of_texts(Names::Legacy, texts) {
            Ok(set) => is_same(set.as_slice(), labels),
            Err(_) => false,
        },
        Err(_) => false,
    }
}

/// Returns whether these labels are a label set that holds them.
fn is_set(alloc: Global, labels: Labels<'_>) -> bool {
    match set_of(alloc, labels) {
        Ok(set) => is_same(set.as_slice(), labels) && is_set_of_texts(alloc, labels),
        Err(_) => false,
    }
}

fn wrong_set(alloc: Global) -> Option<&'static str> {
    for (name, labels) in &SETS {
        if !is_set(alloc, labels) {
            return Some(name);
        }
    }
    None
}

#[test]
fn label_sets(rt: HostRuntime) {
    none_is_wrong(&rt, wrong_set(rt.alloc()));
}

/// Adds as many labels as there can be.
fn push_most(alloc: Global, labels: &mut RawLabels) -> Result<(), AllocError> {
    for i in 0..MAX_LABELS {
        let name = format!(in alloc; "l{i:02}")?;
        labels.push(name.as_bytes(), b"1")?;
    }
    Ok(())
}

const TOO_MANY: Option<LabelFault> = Some(LabelFault::TooMany);

/// Returns whether as many labels as there can be have no fault, one more has one, and another one
/// that is not in order.
fn judges_many(alloc: Global) -> bool {
    let mut labels = RawLabels::new(alloc);
    push_most(alloc, &mut labels).is_ok()
        && fault(alloc, &labels) == None
        && fault_with(alloc, &mut labels, b"m") == TOO_MANY
        && fault_with(alloc, &mut labels, b"a") == Some(NotSorted)
}

/// Returns whether a label of the most bytes has no fault, one more byte has one, and too many
/// labels too.
fn judges_longest(alloc: Global, longest: &[u8]) -> bool {
    let mut labels = RawLabels::new(alloc);
    labels.push(b"a", longest).is_ok()
        && fault(alloc, &labels) == None
        && fault_with(alloc, &mut labels, b"b") == Some(LabelFault::TooLong)
        && push_most(alloc, &mut labels).is_ok()
        && fault(alloc, &labels) == TOO_MANY
}

/// Returns the same; the name of the label is one byte.
fn judges_long(alloc: Global) -> bool {
    match vec![in alloc; b'x'; MAX_LABEL_BYTES] {
        Ok(value) => judges_longest(alloc, &value[1..]),
        Err(_) => false,
    }
}

/// Faults by their numbers, and their texts.
static TOLD: [(LabelFault, &str); 7] = [
    (LabelFault::NotUtf8, "label fault 1: "),
    (EmptyName, "label fault 2: "),
    (BadName, "label fault 3: "),
    (EmptyValue, "label fault 4: "),
    (NotSorted, "label fault 5: "),
    (LabelFault::TooMany, "label fault 6: more than 64 "),
    (
        LabelFault::TooLong,
        "label fault 7: names and values together have more ",
    ),
];

/// Returns how the text of the first fault with another one should begin.
fn wrong_text(alloc: Global) -> Option<&'static str> {
    for (fault, begins) in &TOLD {
        let is_so = match format!(in alloc; "{fault}") {
            Ok(text) => text.as_str().starts_with(*begins),
            Err(_) => false,
        };
        if !is_so {
            return Some(begins);
        }
    }
    None
}

#[test]
fn limits(rt: HostRuntime) {
    none_is_wrong(&rt, wrong_text(rt.alloc()));
    holds(&rt, judges_many(rt.alloc()));
    holds(&rt, judges_long(rt.alloc()));
}

/// Returns whether each of the sets is ordered relative to this one as their indexes are.
fn is_ordered(alloc: Global, a: &LabelSet, i: usize) -> bool {
    for (j, (_, labels)) in RISING.iter().enumerate() {
        match set_of(alloc, labels) {
            Ok(b) if a.cmp(&b) == i.cmp(&j) && (*a == b) == (i == j) => {}
            _ => return false,
        }
    }
    true
}

fn wrong_order(alloc: Global) -> Option<&'static str> {
    for (i, (name, labels)) in RISING.iter().enumerate() {
        match set_of(alloc, labels) {
            Ok(a) if is_ordered(alloc, &a, i) => {}
            _ => return Some(name),
        }
    }
    None
}

#[test]
fn order(rt: HostRuntime) {
    none_is_wrong(&rt, wrong_order(rt.alloc()));
}

//! Checks of labels, which take no memory.

ghost use Rattle.std.specs.Prelude.{◌≡◌, map, nat_lt, sum_by};
ghost use Rattle.std.specs.List.{list_all};
ghost use Rattle.rw_types.specs.Labels.{begins_label_name, continues_label_name, begins_metric_name, continues_metric_name, is_label_name, is_metric_name, is_text, has_legacy_names, is_well_named, is_filled, rise, are_sorted, label_len, label_fault};

use crate::label_bytes::LabelBytes;
use crate::label_fault::{LabelFault, MAX_LABEL_BYTES, MAX_LABELS};
use crate::names::Names;

fn is_filled(bytes: &[u8]) -> bool
    ensures { result ≡ is_filled bytes.now }
{
    !bytes.is_empty()
}

fn begins_label_name(b: u8) -> bool
    ensures { result ≡ begins_label_name b }
{
    b.is_ascii_alphabetic() || b == b'_'
}

fn continues_label_name(b: u8) -> bool
    ensures { result ≡ continues_label_name b }
{
    b.is_ascii_alphanumeric() || b == b'_'
}

fn begins_metric_name(b: u8) -> bool
    ensures { result ≡ begins_metric_name b }
{
    begins_label_name(b) || b == b':'
}

fn continues_metric_name(b: u8) -> bool
    ensures { result ≡ continues_metric_name b }
{
    continues_label_name(b) || b == b':'
}

fn continue_label_name(bytes: &[u8]) -> bool
    ensures { result ≡ list_all continues_label_name bytes.now }
{
    bytes.iter().all(|b| continues_label_name(*b))
}

fn continue_metric_name(bytes: &[u8]) -> bool
    ensures { result ≡ list_all continues_metric_name bytes.now }
{
    bytes.iter().all(|b| continues_metric_name(*b))
}

fn is_label_name(name: &[u8]) -> bool
    ensures { result ≡ is_label_name name.now }
{
    match name.split_first() {
        Some((first, rest)) => begins_label_name(*first) && continue_label_name(rest),
        None => false,
    }
}

/// Returns whether `name` matches `[a-zA-Z_:][a-zA-Z0-9_:]*`, as legacy metric names do (data model
/// of Prometheus).
pub fn is_metric_name(name: &[u8]) -> bool
    ensures { result ≡ is_metric_name name.now }
{
    match name.split_first() {
        Some((first, rest)) => begins_metric_name(*first) && continue_metric_name(rest),
        None => false,
    }
}

fn has_legacy_names<L: LabelBytes>(label: &L) -> bool
    ensures { result ≡ has_legacy_names (L.shown label.now) }
{
    is_label_name(label.name())
        && (label.name() != b"__name__".as_slice() || is_metric_name(label.value()))
}

fn are_texts<L: LabelBytes>(labels: &[L]) -> bool
    ensures { result ≡ list_all (λ l. is_text (L.shown l)) labels.now }
{
    labels.iter().all(|l| l.is_text())
}

fn have_names<L: LabelBytes>(labels: &[L]) -> bool
    ensures { result ≡ list_all (λ l. is_filled (L.shown l).0) labels.now }
{
    labels.iter().all(|l| is_filled(l.name()))
}

fn have_legacy_names<L: LabelBytes>(labels: &[L]) -> bool
    ensures { result ≡ list_all (λ l. has_legacy_names (L.shown l)) labels.now }
{
    labels.iter().all(|l| has_legacy_names(l))
}

fn are_well_named<L: LabelBytes>(names: Names, labels: &[L]) -> bool
    ensures { result ≡ list_all (λ l. is_well_named names (L.shown l)) labels.now }
{
    match names {
        Names::Legacy => have_legacy_names(labels),
        Names::Utf8 => true,
    }
}

fn have_values<L: LabelBytes>(labels: &[L]) -> bool
    ensures { result ≡ list_all (λ l. is_filled (L.shown l).1) labels.now }
{
    labels.iter().all(|l| is_filled(l.value()))
}

/// Returns whether the name of `label` comes before that of `next` in byte order.
fn rise<L: LabelBytes>(label: &L, next: &L) -> bool
    ensures { result ≡ rise (L.shown label.now) (L.shown next.now) }
{
    label.name().cmp(next.name()).is_lt()
}

fn are_sorted<L: LabelBytes>(labels: &[L]) -> bool
    ensures { result ≡ are_sorted (map L.shown labels.now) }
{
    for i in 1..labels.len() {
        if !rise(&labels[i - 1], &labels[i]) {
            return false;
        }
    }
    true
}

/// Returns whether names and values have more than `most` bytes together.
pub(crate) fn are_longer_than<L: LabelBytes>(labels: &[L], most: usize) -> bool
    ensures { result ≡ nat_lt most (sum_by (λ l. label_len (L.shown l)) labels.now) }
{
    let mut left = most;
    for label in labels {
        let len = label.name().len() + label.value().len();
        if len > left {
            return true;
        }
        left -= len;
    }
    false
}

/// Returns the first fault of the labels, in the order of `LabelFault`, or `None` if they are a
/// label set. `names` says which names are accepted.
pub(crate) fn fault_of<L: LabelBytes>(names: Names, labels: &[L]) -> Option<LabelFault>
    ensures { result ≡ label_fault names (map L.shown labels.now) }
{
    if !are_texts(labels) {
        return Some(LabelFault::NotUtf8);
    }
    if !have_names(labels) {
        return Some(LabelFault::EmptyName);
    }
    if !are_well_named(names, labels) {
        return Some(LabelFault::BadName);
    }
    if !have_values(labels) {
        return Some(LabelFault::EmptyValue);
    }
    if !are_sorted(labels) {
        return Some(LabelFault::NotSorted);
    }
    if labels.len() > MAX_LABELS {
        return Some(LabelFault::TooMany);
    }
    if are_longer_than(labels, MAX_LABEL_BYTES) {
        return Some(LabelFault::TooLong);
    }
    None
}

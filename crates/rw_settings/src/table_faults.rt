//! What is wrong with the values of a table.

ghost use Rattle.std.specs.Prelude.{◌≡◌, Some, None, map, if◌then◌else◌};
ghost use Rattle.std.specs.List.{list_any};
ghost use Rattle.std.specs.Result.{result_err};
ghost use Rattle.std.specs.Str.{bytes_eq};
ghost use Rattle.toml.specs.Data.{string, as_integer, as_bool, as_array};
ghost use Rattle.toml.specs.View.{view, items_view, table_view};
ghost use Rattle.rw_settings.specs.Keys.{has_only, keys_fault, fault_for, key_fault, table_fault};
ghost use Rattle.rw_settings.specs.inner.Keys.{row_of};
ghost use Rattle.rw_settings.specs.Values.{number_if, switch_if, are_texts, labels_fault};

use crate::fault::{SettingsFault, lesser};
use crate::keys::{Key, Kind};
use crate::sent_fields::fields_fault;
use crate::values::{number_if, value_at};
use rw_types::{HostName, RequestPath};
use toml::{Table, Value};

/// Whether the key is one of these.
pub(crate) fn is_known(known: &[Key], key: &str) -> bool
    ensures { result ≡ list_any (λ row. bytes_eq key.now row.0) (map row_of known.now) }
{
    for name in known {
        if key == name.0 {
            return true;
        }
    }
    false
}

/// Whether each key of the table is one of these.
fn has_only_keys(table: &Table, known: &[Key]) -> bool
    ensures { result ≡ has_only (map row_of known.now) (table_view table.now) }
{
    for key in table.keys() {
        if !is_known(known, key.as_str()) {
            return false;
        }
    }
    true
}

/// The fault of a table that has another key than these.
pub(crate) fn keys_fault(table: &Table, known: &[Key]) -> Option<SettingsFault>
    ensures { result ≡ keys_fault (map row_of known.now) (table_view table.now) }
{
    if has_only_keys(table, known) {
        None
    } else {
        Some(SettingsFault::UnknownKey)
    }
}

/// Whether each of the values is a text.
fn are_texts(values: &[Value]) -> bool
    ensures { result ≡ are_texts (items_view values.now) }
{
    for value in values {
        if !value.is_str() {
            return false;
        }
    }
    true
}

/// What is wrong with a list of source labels.
#[tactic(auto, using(crate::proofs::RuleLemmas::labels_judged))]
fn labels_fault(labels: &[Value]) -> Option<SettingsFault>
    ensures { result ≡ labels_fault (Some (items_view labels.now)) }
{
    if labels.is_empty() {
        Some(SettingsFault::OutOfRange)
    } else if are_texts(labels) {
        None
    } else {
        Some(SettingsFault::WrongType)
    }
}

/// The fault of a text that does not pass a test.
fn unless(passes: bool, fault: SettingsFault) -> Option<SettingsFault>
    ensures { result ≡ (if passes then None else Some fault) }
{
    if passes { None } else { Some(fault) }
}

/// What is wrong with a text at a key of this kind.
fn text_fault(kind: &Kind, text: &str) -> Option<SettingsFault>
    ensures { result ≡ fault_for kind.now (Some (string text.now)) }
{
    match kind {
        Kind::Host => unless(HostName::is_host(text), SettingsFault::OutOfRange),
        Kind::Path => unless(RequestPath::is_path(text), SettingsFault::OutOfRange),
        Kind::Names => unless(
            text == "legacy" || text == "utf8",
            SettingsFault::OutOfRange,
        ),
        Kind::Action => unless(text == "keep" || text == "drop", SettingsFault::BadRule),
        Kind::Text | Kind::Part => None,
        Kind::Number(..) | Kind::Switch | Kind::Labels | Kind::Fields => {
            Some(SettingsFault::WrongType)
        }
    }
}

/// What is wrong with a value at a key that takes a list of texts.
fn list_fault(value: &Value) -> Option<SettingsFault>
    ensures { result ≡ labels_fault (as_array (view value.now)) }
{
    match value.as_array() {
        None => Some(SettingsFault::WrongType),
        Some(labels) => labels_fault(labels),
    }
}

/// What is wrong with a value at a key that takes a number of this range.
fn number_fault(value: &Value, low: u64, high: u64) -> Option<SettingsFault>
    ensures { result ≡ result_err (number_if low high (as_integer (view value.now))) }
{
    match number_if(value, low, high) {
        Ok(_) => None,
        Err(fault) => Some(fault),
    }
}

/// What is wrong with a value at a key that takes a switch.
fn switch_fault(value: &Value) -> Option<SettingsFault>
    ensures { result ≡ result_err (switch_if (as_bool (view value.now))) }
{
    match value.as_bool() {
        None => Some(SettingsFault::WrongType),
        Some(_) => None,
    }
}

/// What is wrong with a value at a key of this kind.
fn value_fault(kind: &Kind, value: &Value) -> Option<SettingsFault>
    ensures { result ≡ fault_for kind.now (Some (view value.now)) }
{
    match kind {
        Kind::Number(low, high, _) => number_fault(value, *low, *high),
        Kind::Switch => switch_fault(value),
        Kind::Labels => list_fault(value),
        Kind::Fields => fields_fault(value),
        Kind::Part => None,
        _ => match value.as_str() {
            None => Some(SettingsFault::WrongType),
            Some(text) => text_fault(kind, text),
        },
    }
}

/// What is wrong at a key, which may be missing.
pub(crate) fn fault_at(table: &Table, key: &Key) -> Option<SettingsFault>
    ensures { result ≡ key_fault (table_view table.now) (row_of key.now) }
{
    match (value_at(table, key.0), &key.1) {
        (Some(value), kind) => value_fault(kind, value),
        (None, Kind::Action | Kind::Labels) => Some(SettingsFault::BadRule),
        (None, _) => None,
    }
}

/// The least fault of a table with these keys.
#[tactic(auto, unfolding(crate::specs::Keys::table_fault, crate::specs::Faults::least))]
pub(crate) fn table_fault(table: &Table, keys: &[Key]) -> Option<SettingsFault>
    ensures { result ≡ table_fault (map row_of keys.now) (table_view table.now) }
{
    let mut worst = keys_fault(table, keys);
    for key in keys {
        worst = lesser(worst, fault_at(table, key));
    }
    worst
}

//! The values of a table.

ghost use Rattle.std.specs.Prelude.{◌≡◌, true, option_map, IfOk};
ghost use Rattle.toml.specs.Data.{get_member, as_integer, as_table, no_members, no_items};
ghost use Rattle.toml.specs.View.{view, items_view, table_view};
ghost use Rattle.rw_types.specs.declared.names.Names.TheVariants.{Legacy};
ghost use Rattle.rw_settings.specs.Keys.{number_setting, switch_setting, host_of, path_of, names_setting};
ghost use Rattle.rw_settings.specs.inner.Keys.{row_of, has_range};
ghost use Rattle.rw_settings.specs.Values.{number_in, number_if, number_at, text_setting, any_text, names_in, found_or, section, list_at, part_or};

use crate::fault::SettingsFault;
use crate::keys::{Key, Kind};
use rw_types::{Bounded, HostName, Names, RequestPath};
use std::alloc::{AllocError, Global};
use toml::{Table, Value};

/// The value at a key.
pub(crate) fn value_at<'a>(table: &'a Table, key: &str) -> Option<&'a Value>
    ensures { option_map (λ v. view v.now) result ≡ get_member key.now (table_view table.now) }
{
    table.get(key)
}

/// A whole number, if it is in the range.
fn number_in(number: i64, low: u64, high: u64) -> Result<Option<u64>, SettingsFault>
    ensures { result ≡ number_in low high number }
{
    if number < 0 {
        return Err(SettingsFault::OutOfRange);
    }
    let number = number as u64;
    if low <= number && number <= high {
        Ok(Some(number))
    } else {
        Err(SettingsFault::OutOfRange)
    }
}

/// The whole number that a value is, if it is in the range.
pub(crate) fn number_if(value: &Value, low: u64, high: u64) -> Result<Option<u64>, SettingsFault>
    ensures { result ≡ number_if low high (as_integer (view value.now)) }
{
    match value.as_integer() {
        None => Err(SettingsFault::WrongType),
        Some(number) => number_in(number, low, high),
    }
}

/// The whole number at a key, or the default if there is none that can be taken.
fn number_or(table: &Table, key: &str, low: u64, high: u64, default: u64) -> u64
    ensures { result
        ≡ found_or default (number_at low high (get_member key.now (table_view table.now))) }
{
    match value_at(table, key) {
        None => default,
        Some(value) => match number_if(value, low, high) {
            Ok(Some(number)) => number,
            _ => default,
        },
    }
}

/// The number that a table sets at this key, or its default if it sets none that can be taken.
pub(crate) fn number_of(table: &Table, key: &Key) -> u64
    ensures { result ≡ number_setting (row_of key.now) (table_view table.now) }
{
    match key.1 {
        Kind::Number(low, high, default) => number_or(table, key.0, low, high, default),
        _ => 0,
    }
}

/// The same, of a key that takes a number of this range.
#[tactic(auto, using(crate::proofs::KeyLemmas::is_low, crate::proofs::KeyLemmas::is_high))]
pub(crate) fn bounded_of<const LOW: u64, const HIGH: u64>(
    table: &Table,
    key: &Key,
) -> Bounded<LOW, HIGH>
    requires { has_range LOW HIGH key.now.1 ≡ true }
    ensures { result ≡ number_setting (row_of key.now) (table_view table.now) }
{
    Bounded::new(number_of(table, key))
}

/// Returns whether a table sets this switch. A value that cannot be taken counts as none.
pub(crate) fn is_on(table: &Table, key: &Key) -> bool
    ensures { result ≡ switch_setting (row_of key.now) (table_view table.now) }
{
    match value_at(table, key.0) {
        None => false,
        Some(value) => match value.as_bool() {
            None => false,
            Some(on) => on,
        },
    }
}

/// Returns the text at a key, or the default if the key is missing.
pub(crate) fn text_or<'a>(table: &'a Table, key: &str, default: &'a str) -> &'a str
    ensures { result.now
        ≡ found_or default.now (text_setting any_text (get_member key.now (table_view table.now))) }
{
    match value_at(table, key) {
        None => default,
        Some(value) => match value.as_str() {
            None => default,
            Some(text) => text,
        },
    }
}

/// The host that a table sets, or the default if it sets none that can be taken.
pub(crate) fn host_of(alloc: Global, table: &Table) -> Result<HostName, AllocError>
    ensures { IfOk result (λ h. h ≡ host_of (table_view table.now)) }
{
    match HostName::check(String::from_str(alloc, text_or(table, "host", ""))?) {
        Some(host) => Ok(host),
        None => HostName::local_prometheus(alloc),
    }
}

/// The path that a table sets, likewise.
pub(crate) fn path_of(alloc: Global, table: &Table) -> Result<RequestPath, AllocError>
    ensures { IfOk result (λ p. p ≡ path_of (table_view table.now)) }
{
    match RequestPath::check(String::from_str(alloc, text_or(table, "path", ""))?) {
        Some(path) => Ok(path),
        None => RequestPath::api_v1_write(alloc),
    }
}

/// The names that a text says, or legacy ones if it says none.
fn names_in(text: &str) -> Names
    ensures { result ≡ found_or Legacy (names_in text.now) }
{
    if text == "legacy" {
        Names::Legacy
    } else if text == "utf8" {
        Names::Utf8
    } else {
        Names::Legacy
    }
}

/// The names that a table sets, or legacy ones if it sets none that can be taken.
pub(crate) fn names_of(table: &Table) -> Names
    ensures { result ≡ names_setting (table_view table.now) }
{
    match value_at(table, "names") {
        None => Names::Legacy,
        Some(value) => match value.as_str() {
            None => Names::Legacy,
            Some(text) => names_in(text),
        },
    }
}

/// Returns the table at a key, or the empty one if the key is missing; `None` for a value of
/// another type.
pub(crate) fn section<'a>(document: &'a Table, key: &str, empty: &'a Table) -> Option<&'a Table>
    requires { table_view empty.now ≡ no_members }
    ensures { option_map (λ t. table_view t.now) result
        ≡ section (get_member key.now (table_view document.now)) }
{
    match value_at(document, key) {
        None => Some(empty),
        Some(value) => value.as_table(),
    }
}

/// Returns the items of the list at a key, or no items if there is no value, or `None` if there is
/// a value of another type.
pub(crate) fn list_at<'a>(table: &'a Table, key: &str) -> Option<&'a [Value]>
    ensures { option_map (λ v. items_view v.now) result
        ≡ list_at (get_member key.now (table_view table.now)) }
{
    match value_at(table, key) {
        None => Some(&[]),
        Some(value) => match value.as_array() {
            None => None,
            Some(items) => Some(items.as_slice()),
        },
    }
}

/// Returns the table at a key, or the empty one if there is none.
pub(crate) fn section_or<'a>(document: &'a Table, key: &str, empty: &'a Table) -> &'a Table
    requires { table_view empty.now ≡ no_members }
    ensures { table_view result.now
        ≡ part_or no_members (section (get_member key.now (table_view document.now))) }
{
    match section(document, key, empty) {
        None => empty,
        Some(table) => table,
    }
}

/// Returns the items of the list at a key, or none if there is no list.
pub(crate) fn list_or_none<'a>(table: &'a Table, key: &str) -> &'a [Value]
    ensures { items_view result.now
        ≡ part_or no_items (list_at (get_member key.now (table_view table.now))) }
{
    match list_at(table, key) {
        None => &[],
        Some(items) => items,
    }
}

/// Returns the table that a value is, or the empty one if it is not a table.
pub(crate) fn table_or<'a>(value: &'a Value, empty: &'a Table) -> &'a Table
    requires { table_view empty.now ≡ no_members }
    ensures { table_view result.now ≡ part_or no_members (as_table (view value.now)) }
{
    match value.as_table() {
        None => empty,
        Some(table) => table,
    }
}

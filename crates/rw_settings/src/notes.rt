//! Notes on what is wrong with settings, for those who wrote them.

ghost use Rattle.std.specs.Prelude.{◌≡◌, Some, map, fold, OnOk};
ghost use Rattle.toml.specs.View.{table_view};
ghost use Rattle.rw_settings.specs.Faults.{lesser};
ghost use Rattle.rw_settings.specs.Notes.{noted};
ghost use Rattle.rw_settings.specs.Keys.{keys_fault, key_fault, table_fault};
ghost use Rattle.rw_settings.specs.inner.Keys.{row_of};
ghost use Rattle.rw_settings.specs.declared.fault.SettingsFault.TheVariants.{UnknownKey};

use crate::fault::SettingsFault;
use crate::keys::{Key, Kind};
use crate::sent_fields::{field_fault, why_refused};
use crate::table_faults::{fault_at, is_known};
use crate::values::value_at;
use std::alloc::{AllocError, Global};
use strsim::levenshtein;
use toml::{Table, Value};

/// One thing that is wrong with settings.
#[derive(Debug, Drop)]
pub struct SettingsNote {
    /// Which fault it is.
    pub fault: SettingsFault,
    /// Where it is: a key such as `send.shards`, a part of a rule such as `rule 2, regex`, or a
    /// line and a column.
    pub place: String,
    /// What is wrong there, and what the key takes.
    pub text: String,
}

/// Adds a note at the end.
#[tactic(auto, using(crate::proofs::NoteLemmas::noted_one_more))]
pub(crate) fn push_note(
    notes: &mut Vec<SettingsNote>,
    fault: SettingsFault,
    place: String,
    text: String,
) -> Result<(), AllocError>
    ensures { OnOk result (noted notes.new.items ≡ lesser (noted notes.old.items) (Some fault)) }
{
    notes.push(SettingsNote { fault, place, text })?;
    Ok(())
}

/// The most characters of a refused text that a note shows.
const SHOWN: usize = 40;

/// Returns the text in quotes, without what is after its first characters.
fn shown(alloc: Global, text: &str) -> Result<String, AllocError> {
    let mut front = String::new(alloc);
    for (i, letter) in text.chars().enumerate() {
        if i == SHOWN {
            let front = front.as_str();
            return format!(in alloc; "{front:?}..");
        }
        front.push(letter)?;
    }
    format!(in alloc; "{text:?}")
}

/// Returns which entry of a list is the first that is not a text, and its type.
fn wrong_entry(alloc: Global, entries: &[Value]) -> Result<String, AllocError> {
    for (i, entry) in entries.iter().enumerate() {
        if !entry.is_str() {
            let number = i + 1;
            let found = entry.type_str();
            return format!(in alloc; "entry {number} has type {found}");
        }
    }
    String::from_str(alloc, "has a wrong entry")
}

/// Returns what is wrong with a value of another type than its key takes.
fn wrong_type(alloc: Global, value: &Value, kind: &Kind) -> Result<String, AllocError> {
    match (kind, value.as_array()) {
        (Kind::Labels, Some(entries)) => wrong_entry(alloc, entries.as_slice()),
        _ => {
            let found = value.type_str();
            format!(in alloc; "has type {found}")
        }
    }
}

/// Returns that a value is refused, with the value. Of lists only an empty one is.
fn refused(alloc: Global, value: &Value) -> Result<String, AllocError> {
    if let Some(number) = value.as_integer() {
        return format!(in alloc; "{number} is refused");
    }
    match value.as_str() {
        Some(text) => {
            let text = shown(alloc, text)?;
            format!(in alloc; "{text} is refused")
        }
        None => String::from_str(alloc, "is empty"),
    }
}

/// Returns what is wrong with fields that are added to requests, without their values.
fn wrong_fields(alloc: Global, value: &Value) -> Result<String, AllocError> {
    let Some(table) = value.as_table() else {
        let found = value.type_str();
        return format!(in alloc; "has type {found}");
    };
    for name in table.keys() {
        if let Some(fault) = field_fault(table, name.as_str()) {
            let why = why_refused(name.as_str(), fault);
            return format!(in alloc; "has {name:?}, {why}");
        }
    }
    String::from_str(alloc, "has a wrong field")
}

/// Returns what is wrong with a value at a key of this kind, which may be missing.
fn wrong(
    alloc: Global,
    value: Option<&Value>,
    kind: &Kind,
    fault: SettingsFault,
) -> Result<String, AllocError> {
    match (value, fault) {
        (None, _) => String::from_str(alloc, "is missing"),
        (Some(value), _) if matches!(kind, Kind::Fields) => wrong_fields(alloc, value),
        (Some(value), SettingsFault::WrongType) => wrong_type(alloc, value, kind),
        (Some(value), _) => refused(alloc, value),
    }
}

/// Adds what a key of this kind takes.
fn push_takes(alloc: Global, text: &mut String, kind: &Kind) -> Result<(), AllocError> {
    text.push_str("; it takes ")?;
    text.push_str(match kind {
        Kind::Host => "1 to 255 bytes, each '!' to '~'",
        Kind::Path => "'/' and then letters, digits and '/-._~%?=&', 255 bytes at most",
        Kind::Number(low, high, _) => {
            let range = format!(in alloc; "a whole number from {low} to {high}")?;
            return text.push_str(range.as_str());
        }
        Kind::Names => "'legacy' or 'utf8'",
        Kind::Switch => "true or false",
        Kind::Action => "'keep' or 'drop'",
        Kind::Labels => "a list of strings, at least one",
        Kind::Text => "a string",
        Kind::Fields => "a table of names and values, each a string of RFC 9110's grammar",
        Kind::Part => "a table",
    })
}

/// Adds a note on the value at a key, if it has a fault.
#[tactic(auto, using(crate::proofs::NoteLemmas::lesser_of_none))]
fn note_value(
    alloc: Global,
    notes: &mut Vec<SettingsNote>,
    section: &str,
    table: &Table,
    key: &Key,
) -> Result<(), AllocError>
    ensures { OnOk result (noted notes.new.items
        ≡ lesser (noted notes.old.items) (key_fault (table_view table.now) (row_of key.now))) }
{
    let Some(fault) = fault_at(table, key) else {
        return Ok(());
    };
    let name = key.0;
    let place = format!(in alloc; "{section}{name}")?;
    let mut text = wrong(alloc, value_at(table, name), &key.1, fault)?;
    push_takes(alloc, &mut text, &key.1)?;
    push_note(notes, fault, place, text)
}

/// Returns the first known key that begins with `key`, or with which `key` begins.
fn with_same_front(known: &[Key], key: &str) -> Option<&'static str> {
    if key.len() < 3 {
        return None;
    }
    for known in known {
        if known.0.starts_with(key) || key.starts_with(known.0) {
            return Some(known.0);
        }
    }
    None
}

/// Returns the known key that is nearest to `key`, if one differs in at most two letters, or else
/// one that is longer or shorter at its end.
fn nearest(alloc: Global, all: &[Key], key: &str) -> Result<Option<&'static str>, AllocError> {
    let mut found = None;
    let mut least = 3;
    for known in all {
        let distance = levenshtein(alloc, known.0, key)?;
        if distance < least {
            least = distance;
            found = Some(known.0);
        }
    }
    match found {
        Some(name) => Ok(Some(name)),
        None => Ok(with_same_front(all, key)),
    }
}

/// Adds a note on a key that is not one of these.
fn note_key(
    alloc: Global,
    notes: &mut Vec<SettingsNote>,
    section: &str,
    known: &[Key],
    key: &str,
) -> Result<(), AllocError>
    ensures { OnOk result
        (noted notes.new.items ≡ lesser (noted notes.old.items) (Some UnknownKey)) }
{
    let place = format!(in alloc; "{section}{key}")?;
    let text = match nearest(alloc, known, key)? {
        Some(name) => format!(in alloc; "is not a known key; did you mean {section}{name}?")?,
        None => String::from_str(alloc, "is not a known key")?,
    };
    push_note(notes, SettingsFault::UnknownKey, place, text)
}

/// Adds a note on each key of the table that is not one of these.
pub(crate) fn note_keys(
    alloc: Global,
    notes: &mut Vec<SettingsNote>,
    section: &str,
    table: &Table,
    known: &[Key],
) -> Result<(), AllocError>
    ensures { OnOk result (noted notes.new.items
        ≡ lesser (noted notes.old.items)
        (keys_fault (map row_of known.now) (table_view table.now))) }
{
    for key in table.keys() {
        if !is_known(known, key.as_str()) {
            note_key(alloc, notes, section, known, key.as_str())?;
        }
    }
    Ok(())
}

/// Adds a note on each fault of the values at these keys.
fn note_values(
    alloc: Global,
    notes: &mut Vec<SettingsNote>,
    section: &str,
    table: &Table,
    keys: &[Key],
) -> Result<(), AllocError>
    ensures { OnOk result (noted notes.new.items ≡ fold lesser
        (noted notes.old.items) (map (key_fault (table_view table.now)) (map row_of keys.now))) }
{
    for key in keys {
        note_value(alloc, notes, section, table, key)?;
    }
    Ok(())
}

/// Adds a note on each fault of a table with these keys. `section` is written before each key.
pub(crate) fn note_table(
    alloc: Global,
    notes: &mut Vec<SettingsNote>,
    section: &str,
    table: &Table,
    keys: &[Key],
) -> Result<(), AllocError>
    ensures { OnOk result (noted notes.new.items ≡ lesser
        (noted notes.old.items) (table_fault (map row_of keys.now) (table_view table.now))) }
{
    note_keys(alloc, notes, section, table, keys)?;
    note_values(alloc, notes, section, table, keys)?;
    Ok(())
}

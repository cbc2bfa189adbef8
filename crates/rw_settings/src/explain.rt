//! What is wrong with a text of settings, key by key.

ghost use Rattle.std.specs.Prelude.{◌≡◌, ◌⊎◌, Some, None, codes, IfOk, OnOk};
ghost use Rattle.std.specs.Result.{result_err};
ghost use Rattle.toml.specs.Data.{get_member, no_members, as_table};
ghost use Rattle.toml.specs.Parse.{parse_document};
ghost use Rattle.toml.specs.View.{view, items_view, table_view};
ghost use Rattle.rw_settings.specs.Faults.{lesser};
ghost use Rattle.rw_settings.specs.LogTable.{log_fault};
ghost use Rattle.rw_settings.specs.Notes.{noted, IsLeastNoted};
ghost use Rattle.rw_settings.specs.Receiving.{receive_fault};
ghost use Rattle.rw_settings.specs.RuleTables.{rule_fault_of, with_rules_fault};
ghost use Rattle.rw_settings.specs.Sending.{order_fault, send_fault};
ghost use Rattle.rw_settings.specs.SentLabels.{external_fault};
ghost use Rattle.rw_settings.specs.Settings.{document_fault, settings_if, settings_in};
ghost use Rattle.rw_settings.specs.Values.{part_fault, section, list_at};
ghost use Rattle.rw_settings.specs.declared.fault.SettingsFault.TheVariants.{NotToml, WrongType, BadRule};

use crate::fault::SettingsFault;
use crate::keys::{REGEX, document_keys, log_keys, receive_keys, rule_keys, send_keys};
use crate::notes::{SettingsNote, note_keys, note_table, push_note};
use crate::order_text::order_text;
use crate::read::text_in;
use crate::send_table::order_fault;
use crate::sent_labels::{labels_fault, wrong_labels};
use crate::values::{list_at, list_or_none, section, value_at};
use regex::Regex;
use std::alloc::{AllocError, Global};
use toml::{Table, Value};

/// Adds a note if shards or backoff are not between their bounds.
#[tactic(auto, using(crate::proofs::NoteLemmas::lesser_of_none))]
fn note_order(alloc: Global, notes: &mut Vec<SettingsNote>, send: &Table) -> Result<(), AllocError>
    ensures { OnOk result
        (noted notes.new.items
        ≡ lesser (noted notes.old.items) (order_fault (table_view send.now))) }
{
    let Some(fault) = order_fault(send) else {
        return Ok(());
    };
    let place = String::from_str(alloc, "send")?;
    let text = order_text(alloc, send)?;
    push_note(notes, fault, place, text)
}

/// Adds a note if a label that is added cannot be.
#[tactic(auto, using(crate::proofs::NoteLemmas::lesser_of_none))]
fn note_labels(alloc: Global, notes: &mut Vec<SettingsNote>, send: &Table) -> Result<(), AllocError>
    ensures { OnOk result
        (noted notes.new.items
        ≡ lesser (noted notes.old.items) (external_fault (table_view send.now))) }
{
    let Some(fault) = labels_fault(send) else {
        return Ok(());
    };
    let place = String::from_str(alloc, "send.labels")?;
    let text = wrong_labels(alloc, send)?;
    push_note(notes, fault, place, text)
}

/// Adds a note on each fault of the table `send`.
#[tactic(auto, using(crate::proofs::NoteLemmas::lesser_assoc))]
fn note_send(alloc: Global, notes: &mut Vec<SettingsNote>, send: &Table) -> Result<(), AllocError>
    ensures { OnOk result
        (noted notes.new.items
        ≡ lesser (noted notes.old.items) (send_fault (table_view send.now))) }
{
    note_table(alloc, notes, "send.", send, send_keys())?;
    note_order(alloc, notes, send)?;
    note_labels(alloc, notes, send)?;
    Ok(())
}

/// Adds a note on each fault of a rule, except that its pattern is refused.
fn note_rule(
    alloc: Global,
    notes: &mut Vec<SettingsNote>,
    number: usize,
    rule: &Value,
) -> Result<(), AllocError>
    ensures { OnOk result (noted notes.new.items
        ≡ lesser (noted notes.old.items) (rule_fault_of (as_table (view rule.now)))) }
{
    match rule.as_table() {
        None => {
            let place = format!(in alloc; "rule {number}")?;
            let text = String::from_str(alloc, "is not a table")?;
            push_note(notes, SettingsFault::WrongType, place, text)
        }
        Some(table) => {
            let section = format!(in alloc; "rule {number}, ")?;
            note_table(alloc, notes, section.as_str(), table, rule_keys())
        }
    }
}

/// Adds a note on each fault of rules, except that a pattern is refused.
fn note_rules(
    alloc: Global,
    notes: &mut Vec<SettingsNote>,
    rules: &[Value],
) -> Result<(), AllocError>
    ensures { OnOk result (noted notes.new.items
        ≡ lesser (noted notes.old.items) (with_rules_fault None (items_view rules.now))) }
{
    for (i, rule) in rules.iter().enumerate() {
        note_rule(alloc, notes, i + 1, rule)?;
    }
    Ok(())
}

/// Adds a note on a part of the document that is of a wrong type.
fn note_part(
    alloc: Global,
    notes: &mut Vec<SettingsNote>,
    key: &str,
    takes: &str,
) -> Result<(), AllocError>
    ensures { OnOk result
        (noted notes.new.items ≡ lesser (noted notes.old.items) (Some WrongType)) }
{
    let place = String::from_str(alloc, key)?;
    let text = format!(in alloc; "has the wrong type; it takes {takes}")?;
    push_note(notes, SettingsFault::WrongType, place, text)
}

/// Adds a note on each fault of what is at `send`.
fn note_send_part(
    alloc: Global,
    notes: &mut Vec<SettingsNote>,
    document: &Table,
    empty: &Table,
) -> Result<(), AllocError>
    requires { table_view empty.now ≡ no_members }
    ensures { OnOk result (noted notes.new.items ≡ lesser (noted notes.old.items)
        (part_fault send_fault (section (get_member (codes "send") (table_view document.now))))) }
{
    match section(document, "send", empty) {
        None => note_part(alloc, notes, "send", "a table, [send]"),
        Some(send) => note_send(alloc, notes, send),
    }
}

/// Adds a note on each fault of what is at `receive`.
fn note_receive_part(
    alloc: Global,
    notes: &mut Vec<SettingsNote>,
    document: &Table,
    empty: &Table,
) -> Result<(), AllocError>
    requires { table_view empty.now ≡ no_members }
    ensures { OnOk result (noted notes.new.items ≡ lesser (noted notes.old.items)
        (part_fault receive_fault
        (section (get_member (codes "receive") (table_view document.now))))) }
{
    match section(document, "receive", empty) {
        None => note_part(alloc, notes, "receive", "a table, [receive]"),
        Some(receive) => note_table(alloc, notes, "receive.", receive, receive_keys()),
    }
}

/// Adds a note on each fault of what is at `log`.
fn note_log_part(
    alloc: Global,
    notes: &mut Vec<SettingsNote>,
    document: &Table,
    empty: &Table,
) -> Result<(), AllocError>
    requires { table_view empty.now ≡ no_members }
    ensures { OnOk result (noted notes.new.items ≡ lesser (noted notes.old.items)
        (part_fault log_fault (section (get_member (codes "log") (table_view document.now))))) }
{
    match section(document, "log", empty) {
        None => note_part(alloc, notes, "log", "a table, [log]"),
        Some(log) => note_table(alloc, notes, "log.", log, log_keys()),
    }
}

/// Adds a note on each fault of what is at `rule`, except that a pattern is refused.
fn note_rules_part(
    alloc: Global,
    notes: &mut Vec<SettingsNote>,
    document: &Table,
) -> Result<(), AllocError>
    ensures { OnOk result (noted notes.new.items ≡ lesser (noted notes.old.items)
        (part_fault (with_rules_fault None)
        (list_at (get_member (codes "rule") (table_view document.now))))) }
{
    match list_at(document, "rule") {
        None => note_part(alloc, notes, "rule", "a list of tables, each [[rule]]"),
        Some(rules) => note_rules(alloc, notes, rules),
    }
}

/// Adds a note on each fault of a document, except that a pattern is refused.
fn note_document(
    alloc: Global,
    notes: &mut Vec<SettingsNote>,
    document: &Table,
    empty: &Table,
) -> Result<(), AllocError>
    requires { table_view empty.now ≡ no_members }
    ensures { OnOk result (noted notes.new.items
        ≡ lesser (noted notes.old.items) (document_fault (table_view document.now))) }
{
    note_keys(alloc, notes, "", document, document_keys())?;
    note_send_part(alloc, notes, document, empty)?;
    note_receive_part(alloc, notes, document, empty)?;
    note_rules_part(alloc, notes, document)?;
    note_log_part(alloc, notes, document, empty)?;
    Ok(())
}

/// Returns why the regex crate refuses a pattern.
fn refusal(alloc: Global, pattern: &str) -> Result<Option<&'static str>, AllocError> {
    match Regex::new(alloc, pattern) {
        Ok(_) => Ok(None),
        Err(regex::Error::OutOfMemory) => Err(AllocError),
        Err(regex::Error::Syntax(error)) => Ok(Some(error.kind.message())),
        Err(_) => Ok(Some("it is too large to compile")),
    }
}

/// Returns why a pattern is refused, alone or in the form in which it is used.
fn refusal_as_used(alloc: Global, pattern: &str) -> Result<Option<&'static str>, AllocError> {
    match refusal(alloc, pattern)? {
        Some(why) => Ok(Some(why)),
        None => {
            let anchored = format!(in alloc; "^(?s:{pattern})$")?;
            refusal(alloc, anchored.as_str())
        }
    }
}

/// Returns the pattern that a rule sets, or `None` if it sets none.
fn pattern_of(rule: &Value) -> Option<&str> {
    match rule.as_table() {
        None => None,
        Some(table) => match value_at(table, REGEX.0) {
            None => None,
            Some(value) => value.as_str(),
        },
    }
}

/// Adds a note on the pattern of a rule, if it is refused.
fn note_pattern(
    alloc: Global,
    notes: &mut Vec<SettingsNote>,
    number: usize,
    pattern: &str,
) -> Result<(), AllocError>
    ensures { OnOk result ((noted notes.new.items ≡ noted notes.old.items)
        ⊎ (noted notes.new.items ≡ lesser (noted notes.old.items) (Some BadRule))) }
{
    let Some(why) = refusal_as_used(alloc, pattern)? else {
        return Ok(());
    };
    let place = format!(in alloc; "rule {number}, regex")?;
    let text = format!(in alloc; "{pattern:?} is not a valid regular expression: {why}")?;
    push_note(notes, SettingsFault::BadRule, place, text)
}

/// Adds a note on each pattern of rules that is refused.
fn note_patterns(
    alloc: Global,
    notes: &mut Vec<SettingsNote>,
    rules: &[Value],
) -> Result<(), AllocError>
    ensures { OnOk result (IsLeastNoted (noted notes.old.items) (noted notes.new.items)) }
{
    for (i, rule) in rules.iter().enumerate() {
        if let Some(pattern) = pattern_of(rule) {
            note_pattern(alloc, notes, i + 1, pattern)?;
        }
    }
    Ok(())
}

/// Returns the notes on a document.
#[tactic(auto, unfolding(crate::specs::Notes::noted))]
fn notes_of(alloc: Global, document: &Table) -> Result<Vec<SettingsNote>, AllocError>
    ensures { IfOk result
        (λ v. IsLeastNoted (document_fault (table_view document.now)) (noted v.items)) }
{
    let mut notes = Vec::new(alloc);
    let empty = Table::new(alloc);
    note_document(alloc, &mut notes, document, &empty)?;
    note_patterns(alloc, &mut notes, list_or_none(document, "rule"))?;
    Ok(notes)
}

/// Returns the line and the column of what follows these bytes, both from 1. A column counts
/// characters.
fn position_after(bytes: &[u8]) -> (usize, usize) {
    let mut line = 1usize;
    let mut column = 1usize;
    for byte in bytes {
        if *byte == b'\n' {
            line = line.saturating_add(1);
            column = 1;
        } else if *byte & 0xC0 != 0x80 {
            column = column.saturating_add(1);
        }
    }
    (line, column)
}

/// Returns the note on a text that is not TOML from here on.
#[tactic(auto, unfolding(crate::specs::Notes::noted))]
fn syntax_note(alloc: Global, before: &[u8], message: &str) -> Result<Vec<SettingsNote>, AllocError>
    ensures { IfOk result (λ v. noted v.items ≡ Some NotToml) }
{
    let (line, column) = position_after(before);
    let place = format!(in alloc; "line {line}, column {column}")?;
    let text = String::from_str(alloc, message)?;
    let mut notes = Vec::new(alloc);
    push_note(&mut notes, SettingsFault::NotToml, place, text)?;
    Ok(notes)
}

/// Returns the notes on a text.
fn notes_of_text(alloc: Global, text: &str) -> Result<Vec<SettingsNote>, AllocError>
    ensures { IfOk result
        (λ v. IsLeastNoted (result_err (settings_if (parse_document text.now))) (noted v.items)) }
{
    match toml::table_from_str(alloc, text) {
        Ok(document) => notes_of(alloc, &document),
        Err(error) => match error.span() {
            None => Err(AllocError),
            Some(range) => {
                let bytes = text.as_bytes();
                let before = &bytes[..range.start.min(bytes.len())];
                syntax_note(alloc, before, error.message())
            }
        },
    }
}

/// Returns a note for each fault of a text of settings: those of `send` and `receive` first, key by
/// key, then those of the rules in their order, and last the patterns that are refused. By its
/// contract the least fault noted is the one that `read_settings` returns, except that a bad
/// pattern may be noted besides.
#[tactic(auto, unfolding(crate::specs::Settings::settings_in))]
pub fn explain_settings(alloc: Global, text: &[u8]) -> Result<Vec<SettingsNote>, AllocError>
    ensures { IfOk result (λ v. IsLeastNoted (result_err (settings_in text.now)) (noted v.items)) }
{
    match text_in(text) {
        Some(text) => notes_of_text(alloc, text),
        None => syntax_note(alloc, &[], "the text is not UTF-8"),
    }
}

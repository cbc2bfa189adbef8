//! The labels that are added to each series: the table `send.labels`.

ghost use Rattle.std.specs.Prelude.{◌≡◌, ◌⊎◌, [], Some, None, IfOk, IfErr, IfSome, OnOk, OnErr};
ghost use Rattle.std.specs.List.{list_all};
ghost use Rattle.toml.specs.Parse.{parse_document};
ghost use Rattle.toml.specs.View.{table_view};
ghost use Rattle.rw_types.specs.Labels.{IsLabelSet, begins_label_name, continues_label_name, is_label_name, is_well_named};
ghost use Rattle.rw_settings.specs.SentFields.{fields_of};
ghost use Rattle.rw_settings.specs.SentLabels.{can_be_label, label_fault, labels_fault, external_fault, fault_of_set, sent_labels};
ghost use Rattle.rw_settings.specs.declared.fault.SettingsFault.TheVariants.{OutOfMemory, NotToml, OutOfRange};

use crate::fault::{SettingsFault, lesser};
use crate::keys::LABELS;
use crate::read::{document_in, text_in};
use crate::values::{names_of, section_or, text_or, value_at};
use rw_external_labels::ExternalLabels;
use rw_types::{LabelFault, LabelSet, Names, RawLabels, is_metric_name};
use std::alloc::{AllocError, Global};
use toml::Table;

fn begins_label_name(b: u8) -> bool
    ensures { result ≡ begins_label_name b }
{
    b.is_ascii_alphabetic() || b == b'_'
}

fn continues_label_name(b: u8) -> bool
    ensures { result ≡ continues_label_name b }
{
    b.is_ascii_alphanumeric() || b == b'_'
}

fn continue_label_name(bytes: &[u8]) -> bool
    ensures { result ≡ list_all continues_label_name bytes.now }
{
    bytes.iter().all(|b| continues_label_name(*b))
}

/// Returns whether the text is a label name, `[a-zA-Z_][a-zA-Z0-9_]*`.
fn is_label_name(name: &[u8]) -> bool
    ensures { result ≡ is_label_name name.now }
{
    match name.split_first() {
        Some((first, rest)) => begins_label_name(*first) && continue_label_name(rest),
        None => false,
    }
}

/// Returns whether such names are accepted.
fn is_well_named(names: Names, name: &str, value: &str) -> bool
    ensures { result ≡ is_well_named names (name.now, value.now) }
{
    match names {
        Names::Legacy => {
            is_label_name(name.as_bytes())
                && (name != "__name__" || is_metric_name(value.as_bytes()))
        }
        Names::Utf8 => true,
    }
}

/// Returns whether a label set may have this label.
fn can_be_label(names: Names, name: &str, value: &str) -> bool
    ensures { result ≡ can_be_label names (name.now, value.now) }
{
    !name.is_empty() && !value.is_empty() && is_well_named(names, name, value)
}

/// Returns what is wrong with the label of this name.
fn label_fault(names: Names, table: &Table, name: &str) -> Option<SettingsFault>
    ensures { result ≡ label_fault names (table_view table.now) name.now }
{
    let Some(value) = value_at(table, name) else {
        return None;
    };
    match value.as_str() {
        None => Some(SettingsFault::WrongType),
        Some(text) if can_be_label(names, name, text) => None,
        Some(_) => Some(SettingsFault::OutOfRange),
    }
}

/// Returns what is wrong with the labels of a table.
fn least_label_fault(names: Names, table: &Table) -> Option<SettingsFault>
    ensures { result ≡ labels_fault names (Some (table_view table.now)) }
{
    let mut worst = None;
    for name in table.keys() {
        worst = lesser(worst, label_fault(names, table, name.as_str()));
    }
    worst
}

/// Returns what is wrong with the labels of a table `send`.
pub(crate) fn labels_fault(send: &Table) -> Option<SettingsFault>
    ensures { result ≡ external_fault (table_view send.now) }
{
    let Some(value) = value_at(send, LABELS.0) else {
        return None;
    };
    match value.as_table() {
        None => Some(SettingsFault::WrongType),
        Some(table) => least_label_fault(names_of(send), table),
    }
}

/// Returns why the label of this name has this fault, in words that follow the name.
fn why_refused(table: &Table, name: &str, fault: SettingsFault) -> &'static str {
    if fault == SettingsFault::WrongType {
        "whose value is not a string"
    } else if text_or(table, name, "").is_empty() {
        "whose value is empty"
    } else if name == "__name__" {
        "whose value is not a metric name as 'names' says"
    } else {
        "which is not a label name as 'names' says"
    }
}

/// Returns what is wrong with the first label of a table that has a fault.
fn wrong_label(alloc: Global, names: Names, table: &Table) -> Result<String, AllocError> {
    for name in table.keys() {
        if let Some(fault) = label_fault(names, table, name.as_str()) {
            let why = why_refused(table, name.as_str(), fault);
            return format!(in alloc; "has {name:?}, {why}");
        }
    }
    String::from_str(alloc, "has a wrong label")
}

/// Returns what is wrong with the labels of a table `send`, and what they can be.
pub(crate) fn wrong_labels(alloc: Global, send: &Table) -> Result<String, AllocError> {
    let mut text = match value_at(send, LABELS.0) {
        None => String::from_str(alloc, "is missing")?,
        Some(value) => match value.as_table() {
            None => {
                let found = value.type_str();
                format!(in alloc; "has type {found}")?
            }
            Some(table) => wrong_label(alloc, names_of(send), table)?,
        },
    };
    text.push_str("; it takes a table of names and values, each a string that is not empty")?;
    Ok(text)
}

/// Adds the labels of a table.
fn push_labels(labels: &mut RawLabels, table: &Table) -> Result<(), AllocError>
    requires { labels.old ≡ [] }
    ensures { OnOk result (labels.new ≡ fields_of (table_view table.now)) }
{
    for name in table.keys() {
        let value = text_or(table, name.as_str(), "");
        labels.push(name.as_bytes(), value.as_bytes())?;
    }
    Ok(())
}

/// Returns what a fault of the labels as a whole is.
fn fault_of_set(fault: LabelFault) -> SettingsFault
    ensures { result ≡ fault_of_set fault }
{
    match fault {
        LabelFault::OutOfMemory => SettingsFault::OutOfMemory,
        _ => SettingsFault::OutOfRange,
    }
}

/// Returns labels as those that are added, if they are a label set.
fn set_of(alloc: Global, names: Names, labels: &RawLabels) -> Result<ExternalLabels, SettingsFault>
    ensures labels { IfOk result (λ e. e ≡ labels.now) }
    ensures label_set { IfOk result (λ _. IsLabelSet names labels.now) }
    ensures err { IfErr result (λ f. (f ≡ OutOfMemory) ⊎ ((f ≡ OutOfRange)
        × (IsLabelSet names labels.now → ⊥))) }
{
    match LabelSet::check_as(alloc, names, labels) {
        Ok(set) => Ok(ExternalLabels::new(set)),
        Err(fault) => Err(fault_of_set(fault)),
    }
}

/// Returns the labels that a document adds.
fn labels_in(alloc: Global, document: &Table, names: Names) -> Result<ExternalLabels, SettingsFault>
    ensures labels { IfOk result (λ e. e ≡ sent_labels (table_view document.now)) }
    ensures label_set { IfOk result (λ e. IsLabelSet names e) }
    ensures err { IfErr result (λ f. (f ≡ OutOfMemory) ⊎ ((f ≡ OutOfRange)
        × (IsLabelSet names (sent_labels (table_view document.now)) → ⊥))) }
{
    let empty = Table::new(alloc);
    let send = section_or(document, "send", &empty);
    let mut labels = RawLabels::new(alloc);
    push_labels(&mut labels, section_or(send, LABELS.0, &empty))?;
    set_of(alloc, names, &labels)
}

/// Returns the labels that the settings of a TOML text add to each series, if `read_settings` takes
/// the text; `names` says which names are accepted. The error is `OutOfRange` if they are not a
/// label set: if they are too many or too long, say.
pub fn read_external_labels(
    alloc: Global,
    text: &[u8],
    names: Names,
) -> Result<ExternalLabels, SettingsFault>
    ensures labels { IfOk result (λ e. IfSome (parse_document text.now)
        (λ document. e ≡ sent_labels document)) }
    ensures label_set { IfOk result (λ e. IsLabelSet names e) }
    ensures err { IfErr result
        (λ f. (f ≡ OutOfMemory) ⊎ ((f ≡ NotToml) ⊎ (f ≡ OutOfRange))) }
    ensures range { IfErr result (λ f. f ≡ OutOfRange → IfSome (parse_document text.now)
        (λ document. IsLabelSet names (sent_labels document) → ⊥)) }
{
    let Some(text) = text_in(text) else {
        return Err(SettingsFault::NotToml);
    };
    let document = document_in(alloc, text)?;
    labels_in(alloc, &document, names)
}

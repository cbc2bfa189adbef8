//! What is added to requests: the table `send.headers`, and the file of a bearer token.

ghost use Rattle.std.specs.Prelude.{◌≡◌, ◌⊎◌, Some, None, [], string_bytes, IfOk, IfErr, IfSome, OnOk};
ghost use Rattle.toml.specs.Data.{as_table, no_members};
ghost use Rattle.toml.specs.Parse.{parse_document};
ghost use Rattle.toml.specs.View.{view, table_view};
ghost use Rattle.rw_settings.specs.SentFields.{text_at, field_fault, fields_fault, fields_of, part_at, sent_fields, token_file};
ghost use Rattle.rw_settings.specs.declared.fault.SettingsFault.TheVariants.{OutOfMemory, NotToml, OutOfRange};

use crate::fault::{SettingsFault, lesser};
use crate::keys::{BEARER_TOKEN_FILE, HEADERS};
use crate::read::{document_in, text_in};
use crate::values::{section_or, text_or, value_at};
use rw_fields::{ExtraFields, is_extra, is_field_name, is_framing, is_in_request};
use std::alloc::{AllocError, Global};
use toml::{Table, Value};

/// What is added to requests. It may be secret: nothing prints it.
#[derive(Drop)]
pub struct SentFields {
    /// The fields of the table `send.headers`.
    pub headers: ExtraFields,
    /// The file of a bearer token, or an empty text if there is none.
    pub bearer_token_file: String,
}

/// What is wrong with the field of this name.
pub(crate) fn field_fault(table: &Table, name: &str) -> Option<SettingsFault>
    ensures { result ≡ field_fault (table_view table.now) name.now }
{
    let Some(value) = value_at(table, name) else {
        return None;
    };
    match value.as_str() {
        None => Some(SettingsFault::WrongType),
        Some(text) if is_extra(name, text) => None,
        Some(_) => Some(SettingsFault::OutOfRange),
    }
}

/// Returns why the field of this name has this fault, in words that follow the name.
pub(crate) fn why_refused(name: &str, fault: SettingsFault) -> &'static str {
    if fault == SettingsFault::WrongType {
        "whose value is not a string"
    } else if is_in_request(name) {
        "which each request has already"
    } else if is_framing(name) {
        "which says where a message ends, or concerns a connection alone"
    } else if is_field_name(name) {
        "whose value has a control character, or white space at an end"
    } else {
        "which is not a valid name of a field"
    }
}

/// What is wrong with the fields of a table.
fn least_field_fault(table: &Table) -> Option<SettingsFault>
    ensures { result ≡ fields_fault (Some (table_view table.now)) }
{
    let mut worst = None;
    for name in table.keys() {
        worst = lesser(worst, field_fault(table, name.as_str()));
    }
    worst
}

/// What is wrong with a value at a key that takes fields.
pub(crate) fn fields_fault(value: &Value) -> Option<SettingsFault>
    ensures { result ≡ fields_fault (as_table (view value.now)) }
{
    match value.as_table() {
        None => Some(SettingsFault::WrongType),
        Some(table) => least_field_fault(table),
    }
}

/// Adds the fields of a table. An `Err` that is not out of memory means that a field cannot be
/// added to those before it.
fn push_fields(fields: &mut ExtraFields, table: &Table) -> Result<(), SettingsFault>
    requires { fields.old ≡ [] }
    ensures fields { OnOk result (fields.new ≡ fields_of (table_view table.now)) }
    ensures err { IfErr result (λ f. (f ≡ OutOfMemory) ⊎ (f ≡ OutOfRange)) }
{
    for name in table.keys() {
        let value = text_or(table, name.as_str(), "");
        if !fields.can_add(name.as_str(), value) {
            return Err(SettingsFault::OutOfRange);
        }
        fields.add(name.as_str(), value)?;
    }
    Ok(())
}

/// Returns what a document adds to requests.
fn fields_in(alloc: Global, document: &Table) -> Result<SentFields, SettingsFault>
    ensures headers { IfOk result (λ s. s.headers ≡ sent_fields (table_view document.now)) }
    ensures token { IfOk result
        (λ s. string_bytes s.bearer_token_file ≡ token_file (table_view document.now)) }
    ensures err { IfErr result (λ f. (f ≡ OutOfMemory) ⊎ (f ≡ OutOfRange)) }
{
    let empty = Table::new(alloc);
    let send = section_or(document, "send", &empty);
    let bearer_token_file = String::from_str(alloc, text_or(send, BEARER_TOKEN_FILE.0, ""))?;
    let mut headers = ExtraFields::new(alloc);
    push_fields(&mut headers, section_or(send, HEADERS.0, &empty))?;
    Ok(SentFields {
        headers,
        bearer_token_file,
    })
}

/// Returns what the settings of a TOML text add to requests, if `read_settings` takes the text. The
/// error is `OutOfRange` if the fields are too many or too long together, or two names differ only
/// in case.
pub fn read_sent_fields(alloc: Global, text: &[u8]) -> Result<SentFields, SettingsFault>
    ensures headers { IfOk result (λ s. IfSome (parse_document text.now)
        (λ document. s.headers ≡ sent_fields document)) }
    ensures token { IfOk result (λ s. IfSome (parse_document text.now)
        (λ document. string_bytes s.bearer_token_file ≡ token_file document)) }
    ensures err { IfErr result
        (λ f. (f ≡ OutOfMemory) ⊎ ((f ≡ NotToml) ⊎ (f ≡ OutOfRange))) }
{
    let Some(text) = text_in(text) else {
        return Err(SettingsFault::NotToml);
    };
    let document = document_in(alloc, text)?;
    fields_in(alloc, &document)
}

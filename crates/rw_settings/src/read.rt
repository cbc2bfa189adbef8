//! Reads the settings of a text.

ghost use Rattle.std.specs.Prelude.{◌≡◌, ◌⊎◌, All, Some, None, Ok, Err, map, is_some, IfOk, IfErr, IfSome};
ghost use Rattle.std.specs.Str.{is_utf8};
ghost use Rattle.toml.specs.Parse.{parse_document};
ghost use Rattle.toml.specs.Data.{no_members};
ghost use Rattle.toml.specs.View.{table_view};
ghost use Rattle.rw_relabel.specs.Patterns.{HasReadablePattern};
ghost use Rattle.rw_settings.specs.RuleTables.{written_rule};
ghost use Rattle.rw_settings.specs.Sending.{send_fields, order_fault};
ghost use Rattle.rw_settings.specs.Settings.{document_fault, settings_if, settings_of, settings_in, IsFaultOf};
ghost use Rattle.rw_settings.specs.declared.fault.SettingsFault.TheVariants.{OutOfMemory, NotToml};

use crate::fault::{SettingsFault, least};
use crate::keys::{document_keys, log_keys, receive_keys};
use crate::log_table::may_compress_of;
use crate::receive_table::receive_limits;
use crate::rule_tables::{RuleFields, rules_fault, rules_of, written_rules};
use crate::send_table::{send_fault, send_fields};
use crate::settings::Settings;
use crate::table_faults::{keys_fault, table_fault};
use crate::values::{list_at, list_or_none, section, section_or};
use rw_relabel::Rules;
use rw_shard_core::Config;
use std::alloc::{AllocError, Global};
use toml::Table;

/// Returns the document of a text.
pub(crate) fn document_in(alloc: Global, text: &str) -> Result<Table, SettingsFault>
    ensures ok { IfOk result (λ t. parse_document text.now ≡ Some (table_view t)) }
    ensures err { IfErr result
        (λ f. (f ≡ OutOfMemory) ⊎ ((f ≡ NotToml) × (parse_document text.now ≡ None))) }
{
    match toml::table_from_str(alloc, text) {
        Ok(document) => Ok(document),
        Err(e) => {
            if e.is_memory() {
                Err(SettingsFault::OutOfMemory)
            } else {
                Err(SettingsFault::NotToml)
            }
        }
    }
}

/// Returns the least fault of a document, except that a pattern is refused.
#[tactic(auto, unfolding(crate::specs::Settings::document_fault))]
fn document_fault(document: &Table, empty: &Table) -> Option<SettingsFault>
    requires { table_view empty.now ≡ no_members }
    ensures { result ≡ document_fault (table_view document.now) }
{
    let send = match section(document, "send", empty) {
        None => Some(SettingsFault::WrongType),
        Some(send) => send_fault(send),
    };
    let receive = match section(document, "receive", empty) {
        None => Some(SettingsFault::WrongType),
        Some(receive) => table_fault(receive, receive_keys()),
    };
    let rules = match list_at(document, "rule") {
        None => Some(SettingsFault::WrongType),
        Some(rules) => rules_fault(rules),
    };
    let log = match section(document, "log", empty) {
        None => Some(SettingsFault::WrongType),
        Some(log) => table_fault(log, log_keys()),
    };
    let keys = keys_fault(document, document_keys());
    least(&[keys, send, receive, rules, log])
}

/// Returns what a table `send` without a fault sets.
#[tactic(auto, using(crate::proofs::DocumentLemmas::rules_kept))]
fn config_of(alloc: Global, send: &Table, rules: Rules) -> Result<Config, AllocError>
    requires { order_fault (table_view send.now) ≡ None }
    ensures config { IfOk result (λ c. c ≡ send_fields (table_view send.now) rules) }
    ensures rules { IfOk result (λ c. c.rules ≡ rules) }
{
    match Config::new(send_fields(alloc, send, rules)?) {
        Some(config) => Ok(config),
        None => unreachable!(),
    }
}

/// Returns what a document sets, or its least fault.
#[tactic(auto, unfolding(crate::specs::Settings::settings_of))]
fn settings_of(alloc: Global, document: &Table) -> Result<Settings, SettingsFault>
    ensures ok { IfOk result (λ s. settings_if (Some (table_view document.now)) ≡ Ok s) }
    ensures readable { IfOk result
        (λ s. All (λ rule. HasReadablePattern rule.pattern) s.config.rules) }
    ensures err { IfErr result (IsFaultOf (settings_if (Some (table_view document.now)))) }
{
    let empty = Table::new(alloc);
    if let Some(fault) = document_fault(document, &empty) {
        return Err(fault);
    }
    let send = section_or(document, "send", &empty);
    let receive = section_or(document, "receive", &empty);
    let log = section_or(document, "log", &empty);
    let rules = rules_of(alloc, list_or_none(document, "rule"), &empty)?;
    Ok(Settings {
        config: config_of(alloc, send, rules)?,
        limits: receive_limits(alloc, receive)?,
        may_compress: may_compress_of(log),
    })
}

/// Returns what a text sets, or the least fault of its document.
fn settings_of_text(alloc: Global, text: &str) -> Result<Settings, SettingsFault>
    ensures ok { IfOk result (λ s. settings_if (parse_document text.now) ≡ Ok s) }
    ensures readable { IfOk result
        (λ s. All (λ rule. HasReadablePattern rule.pattern) s.config.rules) }
    ensures err { IfErr result (IsFaultOf (settings_if (parse_document text.now))) }
{
    let document = document_in(alloc, text)?;
    settings_of(alloc, &document)
}

/// Returns the bytes as a text, if they are UTF-8.
pub(crate) fn text_in(bytes: &[u8]) -> Option<&str>
    ensures text { IfSome result (λ t. t.now ≡ bytes.now) }
    ensures utf8 { is_some result ≡ is_utf8 bytes.now }
{
    match str::from_utf8(bytes) {
        Ok(text) => Some(text),
        Err(_) => None,
    }
}

/// Reads the settings of a TOML text. A key that is missing has its default. The error is the least
/// fault that the text has anywhere: a text that is not TOML has no other fault, and the regular
/// expressions of rules are compiled only if nothing else is wrong.
#[tactic(auto, unfolding(crate::specs::Settings::settings_in))]
pub fn read_settings(alloc: Global, text: &[u8]) -> Result<Settings, SettingsFault>
    ensures ok { IfOk result (λ s. settings_in text.now ≡ Ok s) }
    ensures readable { IfOk result
        (λ s. All (λ rule. HasReadablePattern rule.pattern) s.config.rules) }
    ensures err { IfErr result (IsFaultOf (settings_in text.now)) }
{
    match text_in(text) {
        Some(text) => settings_of_text(alloc, text),
        None => Err(SettingsFault::NotToml),
    }
}

/// Returns the rules of a text as it writes them, with their defaults, and without compiling their
/// patterns. For a text with a fault other than `NotToml` no clause says what they are.
#[tactic(auto, unfolding(crate::specs::Settings::settings_in))]
pub fn read_rules(alloc: Global, text: &[u8]) -> Result<Vec<RuleFields>, SettingsFault>
    ensures ok { IfOk result
        (λ v. IfOk (settings_in text.now) (λ s. map written_rule v.items ≡ s.config.rules)) }
    ensures err { IfErr result
        (λ f. (f ≡ OutOfMemory) ⊎ ((f ≡ NotToml) × (settings_in text.now ≡ Err NotToml))) }
{
    let Some(text) = text_in(text) else {
        return Err(SettingsFault::NotToml);
    };
    let document = document_in(alloc, text)?;
    let empty = Table::new(alloc);
    Ok(written_rules(alloc, list_or_none(&document, "rule"), &empty)?)
}

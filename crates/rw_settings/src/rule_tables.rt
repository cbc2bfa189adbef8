//! The tables `[[rule]]`.

ghost use Rattle.std.specs.Prelude.{◌≡◌, ◌⊎◌, All, Any, map, flat_map, string_bytes, None, [], ◌∷◌, ◌++◌, IfOk, IfErr, OnOk};
ghost use Rattle.toml.specs.Data.{no_members, as_table};
ghost use Rattle.toml.specs.View.{view, items_view, table_view};
ghost use Rattle.rw_relabel.specs.Patterns.{HasReadablePattern};
ghost use Rattle.rw_settings.specs.RuleTables.{rule_fault_of, with_rules_fault, action_of, texts_of, rule_config, rules_of, written_rule, action_text};
ghost use Rattle.rw_settings.specs.SettingsText.{rule_text};
ghost use Rattle.rw_settings.specs.Settings.{IsRefusedRule};
ghost use Rattle.rw_settings.specs.declared.fault.SettingsFault.TheVariants.{OutOfMemory, BadRule};

use crate::fault::{SettingsFault, lesser};
use crate::keys::{ACTION, REGEX, SEPARATOR, SOURCE_LABELS, rule_keys};
use crate::printed_values::{Shown, push_lines};
use crate::table_faults::table_fault;
use crate::values::{list_or_none, table_or, text_or};
use rw_relabel::{Action, DEFAULT_PATTERN, DEFAULT_SEPARATOR, Rule, RuleFault, Rules};
use std::alloc::{AllocError, Global};
use toml::{Table, Value};

/// The least fault of a rule, except that its pattern is refused.
fn rule_fault(rule: &Value) -> Option<SettingsFault>
    ensures { result ≡ rule_fault_of (as_table (view rule.now)) }
{
    match rule.as_table() {
        None => Some(SettingsFault::WrongType),
        Some(table) => table_fault(table, rule_keys()),
    }
}

/// Returns the least fault of rules, except that a pattern is refused.
pub(crate) fn rules_fault(rules: &[Value]) -> Option<SettingsFault>
    ensures { result ≡ with_rules_fault None (items_view rules.now) }
{
    let mut worst = None;
    for rule in rules {
        worst = lesser(worst, rule_fault(rule));
    }
    worst
}

/// Returns the action of a rule, if it has one.
fn action_of(text: &str) -> Action
    ensures { result ≡ action_of text.now }
{
    if text == "drop" {
        Action::Drop
    } else {
        Action::Keep
    }
}

/// Returns the texts of a list.
fn texts_of(alloc: Global, values: &[Value]) -> Result<Vec<String>, AllocError>
    ensures { IfOk result (λ v. map string_bytes v.items ≡ texts_of (items_view values.now)) }
{
    let mut texts = Vec::with_capacity(alloc, values.len())?;
    for value in values {
        texts.push(String::from_str(alloc, value.as_str().unwrap_or(""))?)?;
    }
    Ok(texts)
}

/// A rule as settings write it, with the defaults of what they leave out.
#[derive(Debug, Drop)]
pub struct RuleFields {
    /// What the rule does with a series.
    pub action: Action,
    /// The names of the labels whose values the pattern is matched against.
    pub source_labels: Vec<String>,
    /// What is between these values.
    pub separator: String,
    /// The regular expression (`regex`), as it is written.
    pub pattern: String,
}

/// Returns the rule of a table that has no fault, as it is written.
#[tactic(auto, unfolding(crate::specs::RuleTables::rule_config))]
fn fields_of(alloc: Global, table: &Table) -> Result<RuleFields, AllocError>
    ensures { IfOk result (λ r. written_rule r ≡ rule_config (table_view table.now)) }
{
    Ok(RuleFields {
        action: action_of(text_or(table, ACTION.0, "")),
        source_labels: texts_of(alloc, list_or_none(table, SOURCE_LABELS.0))?,
        separator: String::from_str(alloc, text_or(table, SEPARATOR.0, DEFAULT_SEPARATOR))?,
        pattern: String::from_str(alloc, text_or(table, REGEX.0, DEFAULT_PATTERN))?,
    })
}

/// Returns the rule of a table that has no fault but that its pattern may be refused.
fn rule_of(alloc: Global, table: &Table) -> Result<Rule, SettingsFault>
    ensures rule { IfOk result (λ r. r ≡ rule_config (table_view table.now)) }
    ensures readable { IfOk result (λ r. HasReadablePattern r.pattern) }
    ensures err { IfErr result (λ f. (f ≡ OutOfMemory)
        ⊎ ((f ≡ BadRule) × IsRefusedRule (rule_config (table_view table.now)))) }
{
    let RuleFields {
        action,
        source_labels,
        separator,
        pattern,
    } = fields_of(alloc, table)?;
    match Rule::build(alloc, action, source_labels, separator, pattern) {
        Ok(rule) => Ok(rule),
        Err(RuleFault::OutOfMemory) => Err(SettingsFault::OutOfMemory),
        Err(_) => Err(SettingsFault::BadRule),
    }
}

/// Adds a rule at the end.
fn push_rule(built: &mut Vec<Rule>, rule: Rule) -> Result<(), AllocError>
    ensures { OnOk result (built.new.items ≡ built.old.items ++ rule ∷ []) }
{
    built.push(rule)?;
    Ok(())
}

/// Returns the rules of tables that have no fault but that a pattern may be refused.
pub(crate) fn rules_of(
    alloc: Global,
    rules: &[Value],
    empty: &Table,
) -> Result<Rules, SettingsFault>
    requires { table_view empty.now ≡ no_members }
    ensures rules { IfOk result (λ r. r ≡ rules_of (items_view rules.now)) }
    ensures readable { IfOk result (λ r. All (λ rule. HasReadablePattern rule.pattern) r) }
    ensures err { IfErr result (λ f. (f ≡ OutOfMemory)
        ⊎ ((f ≡ BadRule) × Any IsRefusedRule (rules_of (items_view rules.now)))) }
{
    let mut built = Vec::with_capacity(alloc, rules.len())?;
    for rule in rules {
        let rule = rule_of(alloc, table_or(rule, empty))?;
        push_rule(&mut built, rule)?;
    }
    Ok(Rules::new(built))
}

/// Adds a written rule at the end.
fn push_fields(written: &mut Vec<RuleFields>, rule: RuleFields) -> Result<(), AllocError>
    ensures { OnOk result (map written_rule written.new.items
        ≡ map written_rule written.old.items ++ written_rule rule ∷ []) }
{
    written.push(rule)?;
    Ok(())
}

/// Returns the rules of tables that have no fault, as they are written.
pub(crate) fn written_rules(
    alloc: Global,
    rules: &[Value],
    empty: &Table,
) -> Result<Vec<RuleFields>, AllocError>
    requires { table_view empty.now ≡ no_members }
    ensures { IfOk result (λ v. map written_rule v.items ≡ rules_of (items_view rules.now)) }
{
    let mut written = Vec::with_capacity(alloc, rules.len())?;
    for rule in rules {
        push_fields(&mut written, fields_of(alloc, table_or(rule, empty))?)?;
    }
    Ok(written)
}

/// The word of an action.
fn action_text(action: Action) -> &'static str
    ensures { result.now ≡ action_text action }
{
    match action {
        Action::Keep => "keep",
        Action::Drop => "drop",
    }
}

/// Adds the text of a rule.
#[tactic(auto, unfolding(crate::specs::SettingsText::rule_text))]
fn push_rule_text(alloc: Global, out: &mut String, rule: &RuleFields) -> Result<(), AllocError>
    ensures { OnOk result
        (string_bytes out.new ≡ string_bytes out.old ++ rule_text (written_rule rule.now)) }
{
    out.push_str("\n[[rule]]\n")?;
    let values = [
        Shown::Text(action_text(rule.action)),
        Shown::Texts(rule.source_labels.as_slice()),
        Shown::Text(rule.separator.as_str()),
        Shown::Text(rule.pattern.as_str()),
    ];
    push_lines(alloc, out, rule_keys(), &values)?;
    Ok(())
}

/// Adds the texts of all rules.
pub(crate) fn push_rules(
    alloc: Global,
    out: &mut String,
    rules: &[RuleFields],
) -> Result<(), AllocError>
    ensures { OnOk result (string_bytes out.new
        ≡ string_bytes out.old ++ flat_map rule_text (map written_rule rules.now)) }
{
    for rule in rules {
        push_rule_text(alloc, out, rule)?;
    }
    Ok(())
}

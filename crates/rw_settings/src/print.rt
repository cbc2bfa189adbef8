//! Settings printed as one text.

ghost use Rattle.std.specs.Prelude.{◌≡◌, map, string_bytes, IsOkAnd, IfOk, IfErr};
ghost use Rattle.rw_settings.specs.RuleTables.{written_rule};
ghost use Rattle.rw_settings.specs.Settings.{settings_in, IsFaultOf};
ghost use Rattle.rw_settings.specs.SettingsText.{settings_text};

use crate::log_table::push_log;
use crate::receive_table::push_receive;
use crate::rule_tables::push_rules;
use crate::send_table::push_send;
use crate::{RuleFields, Settings, SettingsFault, read_rules, read_settings};
use std::alloc::{AllocError, Global};

/// Returns the text of settings with these written rules.
#[tactic(auto, unfolding(crate::specs::SettingsText::settings_text))]
fn text_of(alloc: Global, settings: &Settings, rules: &[RuleFields]) -> Result<String, AllocError>
    requires { map written_rule rules.now ≡ settings.now.config.rules }
    ensures { IfOk result (λ t. string_bytes t ≡ settings_text settings.now) }
{
    let mut out = String::new(alloc);
    push_send(alloc, &mut out, settings.config.fields())?;
    push_receive(alloc, &mut out, &settings.limits)?;
    push_log(&mut out, settings.may_compress)?;
    push_rules(alloc, &mut out, rules)?;
    Ok(out)
}

/// Prints the settings that a TOML text sets: each key with its value, even if the text leaves it
/// out. Read again, the result gives the same settings. The errors are those of reading `text`.
pub fn print_settings(alloc: Global, text: &[u8]) -> Result<String, SettingsFault>
    ensures text { IfOk result
        (λ t. IsOkAnd (settings_in text.now) (λ s. string_bytes t ≡ settings_text s)) }
    ensures reads_back { IfOk result (λ t. settings_in (string_bytes t) ≡ settings_in text.now) }
    ensures err { IfErr result (IsFaultOf (settings_in text.now)) }
{
    let settings = read_settings(alloc, text)?;
    let rules = read_rules(alloc, text)?;
    Ok(text_of(alloc, &settings, &rules)?)
}

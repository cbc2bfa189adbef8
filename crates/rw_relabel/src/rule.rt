//! A rule of relabelling.

ghost use Rattle.std.specs.Prelude.{◌≡◌, ◌≢◌, [], map, string_bytes, IfOk, IfErr};
ghost use Rattle.rw_types.specs.Labels.{text_label};
ghost use Rattle.rw_relabel.specs.Patterns.{HasReadablePattern, IsRefusedPattern};
ghost use Rattle.rw_relabel.specs.Rules.{RuleConfig, lets_pass};

use crate::join::join_values;
use crate::pattern::{compiled_whole, is_found};
use crate::rule_fault::RuleFault;
use regex::Regex;
use std::alloc::{AllocError, Global};
use std::marker::Model;

/// The separator of a rule that sets none.
pub const DEFAULT_SEPARATOR: &str = ";";

/// The pattern of a rule that sets none, which matches any text.
pub const DEFAULT_PATTERN: &str = "(.*)";

/// What a rule does with a series.
#[derive(Clone, Copy, Debug, PartialEq, Eq)]
pub enum Action {
    /// Keeps it if the pattern matches, and drops it otherwise.
    Keep,
    /// Drops it if the pattern matches, and keeps it otherwise.
    Drop,
}

/// A rule with its pattern compiled. Contracts see its configuration: action, source labels,
/// separator and pattern.
#[derive(Debug, Drop)]
pub struct Rule {
    action: Action,
    source_labels: Vec<String>,
    separator: String,
    pattern: String,
    whole: Regex,
}

impl Model for Rule {
    ghost use Rattle.std.specs.Prelude.{◌≡◌, map, string_bytes};
    ghost use Rattle.regex.specs.Strings.{regex_source, regex_config, IsReadFromSource};
    ghost use Rattle.regex.specs.Patterns.{default_config};
    ghost use Rattle.rw_relabel.specs.Patterns.{anchored};
    ghost use Rattle.rw_relabel.specs.Rules.{RuleConfig};

    ghost Value = { RuleConfig };

    ghost view = { λ r. record {
      action = r.action;
      source_labels = map string_bytes r.source_labels.items;
      separator = string_bytes r.separator;
      pattern = string_bytes r.pattern;
    } };

    ghost invariant = { λ r. (regex_config r.whole ≡ default_config)
        × IsReadFromSource r.whole
        × (regex_source r.whole ≡ anchored (string_bytes r.pattern)) };
}

impl Rule {
    /// Makes a rule. Its pattern is matched against the values of the source labels, with the
    /// separator between them, in the form `^(?s:PATTERN)$`: it has to match the whole text, and
    /// `.` matches a newline too. The pattern and that form have to be regular expressions of the
    /// regex crate.
    ///
    /// `BadPattern` is also the error if a compiled pattern takes more room than that crate allows;
    /// no clause says for which ones. It comes before `NoSource`. No clause says when memory runs
    /// out.
    pub fn build(
        alloc: Global,
        action: Action,
        source_labels: Vec<String>,
        separator: String,
        pattern: String,
    ) -> Result<Rule, RuleFault>
        ensures ok { IfOk result (λ r. r ≡ record {
          action = action;
          source_labels = map string_bytes source_labels.items;
          separator = string_bytes separator;
          pattern = string_bytes pattern;
        }) }
        ensures readable { IfOk result (λ _. HasReadablePattern (string_bytes pattern)) }
        ensures source { IfOk result (λ _. source_labels.items ≢ []) }
        ensures bad_pattern { IfErr result
            (λ f. f ≡ RuleFault.BadPattern → IsRefusedPattern (string_bytes pattern)) }
        ensures no_source { IfErr result (λ f. f ≡ RuleFault.NoSource
            → (source_labels.items ≡ []) × HasReadablePattern (string_bytes pattern)) }
    {
        let whole = compiled_whole(alloc, pattern.as_str())?;
        if source_labels.is_empty() {
            return Err(RuleFault::NoSource);
        }
        Ok(Rule {
            action,
            source_labels,
            separator,
            pattern,
            whole,
        })
    }

    /// Returns whether a series with these labels passes this rule.
    pub(crate) fn lets_pass(
        &self,
        alloc: Global,
        labels: &[(String, String)],
    ) -> Result<bool, AllocError>
        ensures { IfOk result (λ b. b ≡ lets_pass self.now (map text_label labels.now)) }
    {
        let text = join_values(
            alloc,
            labels,
            self.source_labels.as_slice(),
            self.separator.as_str(),
        )?;
        let found = is_found(alloc, &self.whole, text.as_str())?;
        Ok(match self.action {
            Action::Keep => found,
            Action::Drop => !found,
        })
    }
}

//! Patterns compiled by the regex crate.

ghost use Rattle.std.specs.Prelude.{◌≡◌, ◌≢◌, IfOk, IfErr, string_bytes};
ghost use Rattle.regex.specs.Strings.{regex_source, regex_config, IsReadFromSource};
ghost use Rattle.regex.specs.Patterns.{default_config};
ghost use Rattle.rw_relabel.specs.Patterns.{anchored, is_match, IsReadable, HasReadablePattern, IsRefused, IsRefusedPattern};

use crate::rule_fault::RuleFault;
use regex::Regex;
use std::alloc::{AllocError, Global};

/// Compiles a text as a pattern.
#[tactic(auto, unfolding(crate::specs::Patterns::IsReadable, crate::specs::Patterns::IsRefused))]
fn compiled(alloc: Global, pattern: &str) -> Result<Regex, RuleFault>
    ensures config { IfOk result (λ r. regex_config r ≡ default_config) }
    ensures read { IfOk result IsReadFromSource }
    ensures source { IfOk result (λ r. regex_source r ≡ pattern.now) }
    ensures readable { IfOk result (λ _. IsReadable pattern.now) }
    ensures no_source { IfErr result (λ f. f ≢ RuleFault.NoSource) }
    ensures refused { IfErr result (λ f. f ≡ RuleFault.BadPattern → IsRefused pattern.now) }
{
    match Regex::new(alloc, pattern) {
        Ok(regex) => Ok(regex),
        Err(regex::Error::OutOfMemory) => Err(RuleFault::OutOfMemory),
        Err(_) => Err(RuleFault::BadPattern),
    }
}

/// Returns the text `^(?s:PATTERN)$` of a pattern, which is the form in which it is used.
fn anchored_text(alloc: Global, pattern: &str) -> Result<String, AllocError>
    ensures { IfOk result (λ t. string_bytes t ≡ anchored pattern.now) }
{
    let mut text = String::from_str(alloc, "^(?s:")?;
    text.push_str(pattern)?;
    text.push_str(")$")?;
    Ok(text)
}

/// Compiles a pattern in the form in which it is used.
pub(crate) fn compiled_whole(alloc: Global, pattern: &str) -> Result<Regex, RuleFault>
    ensures config { IfOk result (λ r. regex_config r ≡ default_config) }
    ensures read { IfOk result IsReadFromSource }
    ensures source { IfOk result (λ r. regex_source r ≡ anchored pattern.now) }
    ensures readable { IfOk result (λ _. HasReadablePattern pattern.now) }
    ensures no_source { IfErr result (λ f. f ≢ RuleFault.NoSource) }
    ensures refused { IfErr result (λ f. f ≡ RuleFault.BadPattern → IsRefusedPattern pattern.now) }
{
    compiled(alloc, pattern)?;
    let text = anchored_text(alloc, pattern)?;
    compiled(alloc, text.as_str())
}

/// Returns whether the compiled pattern matches the text.
pub(crate) fn is_found(alloc: Global, regex: &Regex, text: &str) -> Result<bool, AllocError>
    requires config { regex_config regex.now ≡ default_config }
    requires read { IsReadFromSource regex.now }
    ensures { IfOk result (λ b. b ≡ is_match (regex_source regex.now) text.now) }
{
    let mut matcher = regex.matcher(alloc)?;
    Ok(matcher.is_match(text))
}

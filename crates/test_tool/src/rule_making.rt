//! Rules and labels from texts.

use rw_relabel::{Action, Rule, RuleFault, Rules};
use rw_test_parts::raw_labels;
use rw_types::{LabelFault, LabelSet, Names};
use std::alloc::{AllocError, Global};

/// Source labels, separator and pattern.
pub(crate) type Config<'a> = (&'a [&'a str], &'a str, &'a str);

fn put_texts(alloc: Global, out: &mut Vec<String>, texts: &[&str]) -> Result<(), AllocError> {
    for text in texts {
        out.push(String::from_str(alloc, text)?)?;
    }
    Ok(())
}

pub(crate) fn rule(alloc: Global, action: Action, config: Config<'_>) -> Result<Rule, RuleFault> {
    let (names, separator, pattern) = config;
    let separator = String::from_str(alloc, separator)?;
    let pattern = String::from_str(alloc, pattern)?;
    let mut source_labels = Vec::new(alloc);
    put_texts(alloc, &mut source_labels, names)?;
    Rule::build(alloc, action, source_labels, separator, pattern)
}

fn put_rules(
    alloc: Global,
    rules: &mut Vec<Rule>,
    configs: &[(Action, Config<'_>)],
) -> Result<(), RuleFault> {
    for (action, config) in configs {
        if rules.push(rule(alloc, *action, *config)?).is_err() {
            return Err(RuleFault::OutOfMemory);
        }
    }
    Ok(())
}

pub(crate) fn rules(alloc: Global, configs: &[(Action, Config<'_>)]) -> Result<Rules, RuleFault> {
    let mut rules = Vec::new(alloc);
    match put_rules(alloc, &mut rules, configs) {
        Ok(()) => Ok(Rules::new(rules)),
        Err(fault) => Err(fault),
    }
}

/// Returns the label set of these labels, with such names.
pub(crate) fn label_set_as(
    alloc: Global,
    names: Names,
    labels: &[(&str, &str)],
) -> Result<LabelSet, LabelFault> {
    match raw_labels(alloc, labels) {
        Ok(raw) => LabelSet::check_as(alloc, names, &raw),
        Err(_) => Err(LabelFault::OutOfMemory),
    }
}

pub(crate) fn label_set(alloc: Global, labels: &[(&str, &str)]) -> Result<LabelSet, LabelFault> {
    label_set_as(alloc, Names::Legacy, labels)
}

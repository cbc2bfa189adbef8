//! Which rules there can be, and which label sets they keep.

use crate::rows::{holds, none_is_wrong};
use crate::rule_making::{Config, label_set, rule, rules};
use Row::{Match, Refusal, Several};
use RuleFault::{BadPattern, NoSource};
use rw_relabel::{Action, DEFAULT_PATTERN, DEFAULT_SEPARATOR, RuleFault};
use rw_types::LabelSet;
use std::alloc::Global;

type Labels = &'static [(&'static str, &'static str)];

/// A name, and what a row says.
enum Row {
    /// A rule, and its fault.
    Refusal(&'static str, Config<'static>, Option<RuleFault>),
    /// A rule, labels, and whether the rule matches them.
    Match(&'static str, Config<'static>, Labels, bool),
    /// Labels, whether they are kept if both rules match, and if the first matches and the second
    /// does not.
    Several(&'static str, Labels, bool, bool),
}

static ROWS: [Row; 27] = [
    Refusal(
        "the defaults",
        (&["job"], DEFAULT_SEPARATOR, DEFAULT_PATTERN),
        None,
    ),
    Refusal("empty texts", (&["job"], "", ""), None),
    Refusal("two halves", (&["job"], ";", "a)(b"), Some(BadPattern)),
    Refusal("anchors", (&["job"], ";", "^(?s:a)(b)$"), None),
    Refusal("a comment", (&["job"], ";", "(?x)a#"), Some(BadPattern)),
    Refusal("too big", (&["job"], ";", "a{20000000}"), Some(BadPattern)),
    Refusal("no source", (&[], ";", "a"), Some(NoSource)),
    Refusal("no source, halves", (&[], ";", "a)(b"), Some(BadPattern)),
    Refusal("no source, one half", (&[], ";", "("), Some(BadPattern)),
    Match("empty", (&["job", "env"], ";", "a;"), &[("job", "a")], true),
    Match("whole", (&["job", "env"], ";", "a"), &[("job", "a")], false),
    Match("missing label", (&["env"], ";", ""), &[("job", "a")], true),
    Match("no labels", (&["env"], ";", ".+"), &[], false),
    Match(
        "the order of the rule",
        (&["job", "env"], "--", "a--b"),
        &[("env", "b"), ("job", "a")],
        true,
    ),
    Match("twice", (&["job", "job"], "", "aa"), &[("job", "a")], true),
    Match(
        "the default",
        (&["job"], DEFAULT_SEPARATOR, DEFAULT_PATTERN),
        &[("job", "a\nb")],
        true,
    ),
    Match("a newline", (&["job"], ";", "a"), &[("job", "a\n")], false),
    Match("second", (&["job"], ";", "a|ab"), &[("job", "ab")], true),
    Match("neither", (&["job"], ";", "a|ab"), &[("job", "abc")], false),
    Match("the middle", (&["job"], ";", "b"), &[("job", "abc")], false),
    Match("the end", (&["job"], ";", "bc|b"), &[("job", "abc")], false),
    Match("umlaut", (&["job"], ";", "s.ge"), &[("job", "säge")], true),
    Match("a capital", (&["Job"], ";", "a"), &[("job", "a")], false),
    Several("a and x", &[("env", "x"), ("job", "a")], true, false),
    Several("b and y", &[("env", "y"), ("job", "b")], false, true),
    Several("c and x", &[("env", "x"), ("job", "c")], false, false),
    Several("nothing", &[], false, false),
];

/// Returns the fault of a rule. Out of memory is one too, and no row expects it.
fn fault(alloc: Global, config: Config<'_>) -> Option<RuleFault> {
    rule(alloc, Action::Keep, config).err()
}

/// Returns whether rules keep or drop a label set, as is said here.
fn are_rules_of(
    alloc: Global,
    configs: &[(Action, Config<'_>)],
    labels: &LabelSet,
    is_kept: bool,
) -> bool {
    match rules(alloc, configs) {
        Ok(rules) => rules.keeps(labels) == Ok(is_kept),
        Err(_) => false,
    }
}

/// Returns whether a rule matches a label set or not: one that keeps what it matches keeps it, and
/// one that drops it does not.
fn is_set_matched(alloc: Global, config: Config<'_>, labels: &LabelSet, matches: bool) -> bool {
    are_rules_of(alloc, &[(Action::Keep, config)], labels, matches)
        && are_rules_of(alloc, &[(Action::Drop, config)], labels, !matches)
}

/// Returns the same of labels.
fn is_match(alloc: Global, config: Config<'_>, labels: &[(&str, &str)], matches: bool) -> bool {
    match label_set(alloc, labels) {
        Ok(labels) => is_set_matched(alloc, config, &labels, matches),
        Err(_) => false,
    }
}

const JOB: Config<'static> = (&["job"], ";", "a|b");

const ENV: Config<'static> = (&["env"], ";", "x");

static BOTH: &[(Action, Config<'static>)] = &[(Action::Keep, JOB), (Action::Keep, ENV)];

static WITHOUT: &[(Action, Config<'static>)] = &[(Action::Keep, JOB), (Action::Drop, ENV)];

/// Returns whether labels are kept in this way by both rules and by the first without the second,
/// and are kept if there is no rule.
fn is_judged(alloc: Global, labels: &[(&str, &str)], by_both: bool, by_without: bool) -> bool {
    match label_set(alloc, labels) {
        Ok(labels) => {
            are_rules_of(alloc, BOTH, &labels, by_both)
                && are_rules_of(alloc, WITHOUT, &labels, by_without)
                && are_rules_of(alloc, &[], &labels, true)
        }
        Err(_) => false,
    }
}

fn is_so(alloc: Global, row: &Row) -> bool {
    match row {
        Refusal(_, config, wanted) => fault(alloc, *config) == *wanted,
        Match(_, config, labels, matches) => is_match(alloc, *config, labels, *matches),
        Several(_, labels, by_both, by_without) => is_judged(alloc, labels, *by_both, *by_without),
    }
}

fn rows() -> &'static [Row] {
    &ROWS
}

fn wrong_row(alloc: Global, rows: &[Row]) -> Option<&'static str> {
    for row in rows {
        if !is_so(alloc, row) {
            let (Refusal(name, ..) | Match(name, ..) | Several(name, ..)) = row;
            return Some(name);
        }
    }
    None
}

#[test]
fn refusals_and_matches(rt: HostRuntime) {
    none_is_wrong(&rt, wrong_row(rt.alloc(), rows()));
    holds(
        &rt,
        RuleFault::OutOfMemory as u8 == 0
            && RuleFault::BadPattern as u8 == 1
            && RuleFault::NoSource as u8 == 2,
    );
}

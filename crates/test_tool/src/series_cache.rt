//! What a cache knows of references. The calls that take memory are made again if they fail, so the
//! test can be run with each allocation failing in turn: the failed call changes no answer.

use crate::rows::none_is_wrong;
use crate::rule_making::{Config, rules};
use LabelFault::{EmptyValue, NotSorted};
use Shape::{Bad, Filtered, Kept, Unknown};
use rw_relabel::{Action, Choice, RuleFault, Rules};
use rw_series_cache::{Cache, Known};
use rw_test_parts::raw_labels;
use rw_types::{LabelFault, Names, RawLabels};
use std::alloc::{AllocError, Global};

type Labels<'a> = &'a [(&'a str, &'a str)];

/// What is known of a reference, without the labels.
#[derive(Clone, Copy, PartialEq, Eq)]
enum Shape {
    Unknown,
    Bad(LabelFault),
    Filtered,
    Kept(u64),
}

fn shape_of(cache: &Cache, reference: u64) -> Shape {
    match cache.look(reference) {
        Known::Unknown => Shape::Unknown,
        Known::Bad(fault) => Shape::Bad(fault),
        Known::Filtered => Shape::Filtered,
        Known::Kept(series, _) => Shape::Kept(series),
    }
}

/// Returns what is known of the references 0 to 5, of which the test defines 1 to 5.
fn shapes(cache: &Cache) -> [Shape; 6] {
    [
        shape_of(cache, 0),
        shape_of(cache, 1),
        shape_of(cache, 2),
        shape_of(cache, 3),
        shape_of(cache, 4),
        shape_of(cache, 5),
    ]
}

fn is_label(text: &(String, String), label: &(&str, &str)) -> bool {
    text.0.as_str() == label.0 && text.1.as_str() == label.1
}

fn is_same(texts: &[(String, String)], labels: Labels<'_>) -> bool {
    for (i, label) in labels.iter().enumerate() {
        match texts.get(i) {
            Some(text) if is_label(text, label) => {}
            _ => return false,
        }
    }
    texts.len() == labels.len()
}

/// Returns whether a reference stands for a kept series with these labels.
fn is_kept_as(cache: &Cache, reference: u64, labels: Labels<'_>) -> bool {
    match cache.look(reference) {
        Known::Kept(_, set) => is_same(set.as_slice(), labels),
        _ => false,
    }
}

fn raw_labels_again(alloc: Global, labels: Labels<'_>) -> Result<RawLabels, AllocError> {
    match raw_labels(alloc, labels) {
        Err(_) => raw_labels(alloc, labels),
        answer => answer,
    }
}

fn rules_again(alloc: Global, configs: &[(Action, Config<'_>)]) -> Result<Rules, RuleFault> {
    match rules(alloc, configs) {
        Err(RuleFault::OutOfMemory) => rules(alloc, configs),
        answer => answer,
    }
}

/// Defines a reference, if there are labels, and returns whether that succeeded.
fn is_defined(cache: &mut Cache, reference: u64, labels: Result<RawLabels, AllocError>) -> bool {
    match labels {
        Ok(labels) => cache.define(reference, labels).is_ok(),
        Err(_) => false,
    }
}

/// Defines a reference. Returns whether a failed call, if there was one, changed no answer, and the
/// next one succeeds.
fn defines(alloc: Global, cache: &mut Cache, reference: u64, labels: Labels<'_>) -> bool {
    let before = shapes(cache);
    is_defined(cache, reference, raw_labels_again(alloc, labels))
        || (shapes(cache) == before
            && is_defined(cache, reference, raw_labels_again(alloc, labels)))
}

/// Definitions, one after the other, and what is then known of the reference.
static DEFINITIONS: [(&str, u64, Labels<'static>, Shape); 9] = [
    ("a series", 1, &[("job", "a")], Kept(0)),
    ("another one", 2, &[("job", "b")], Kept(1)),
    ("the same series", 3, &[("job", "a")], Kept(0)),
    ("no value", 4, &[("job", "")], Bad(EmptyValue)),
    ("a label set after it", 4, &[("job", "b")], Kept(1)),
    ("by one rule", 5, &[("env", "x"), ("job", "a")], Filtered),
    ("dropped by the other", 5, &[("job", "d")], Filtered),
    ("a later definition", 1, &[("job", "c")], Kept(2)),
    ("unsorted", 2, &[("b", "1"), ("a", "1")], Bad(NotSorted)),
];

/// What is known after them.
static KNOWN: [Shape; 6] = [Unknown, Kept(2), Bad(NotSorted), Kept(0), Kept(1), Filtered];

static RULES: [(Action, Config<'static>); 2] = [
    (Action::Keep, (&["job"], ";", "a|b|c")),
    (Action::Drop, (&["env"], ";", "x")),
];

/// Returns whether the cache knows what it should after the definitions.
fn is_as_defined(cache: &Cache) -> bool {
    shapes(cache) == KNOWN
        && is_kept_as(cache, 1, &[("job", "c")])
        && is_kept_as(cache, 3, &[("job", "a")])
        && is_kept_as(cache, 4, &[("job", "b")])
        && cache.series_count() == 3
}

/// Returns the first definition after which something else is known than should be.
fn wrong_definition(alloc: Global, cache: &mut Cache) -> Option<&'static str> {
    for (name, reference, labels, wanted) in &DEFINITIONS {
        if !defines(alloc, cache, *reference, labels) || shape_of(cache, *reference) != *wanted {
            return Some(name);
        }
    }
    if is_as_defined(cache) {
        None
    } else {
        Some("all definitions")
    }
}

/// Returns whether this is known of a reference after its definition.
fn is_known_as(cache: &mut Cache, labels: Result<RawLabels, AllocError>, wanted: Shape) -> bool {
    is_defined(cache, 1, labels) && shape_of(cache, 1) == wanted
}

/// Returns a label set with this number as its only value.
fn numbered(alloc: Global, number: u64) -> Result<RawLabels, AllocError> {
    let value = format!(in alloc; "{number}")?;
    raw_labels(alloc, &[("job", value.as_str())])
}

/// Returns whether `count` references are defined, each with its own label set.
fn defines_many(alloc: Global, cache: &mut Cache, count: u64) -> bool {
    for reference in 0..count {
        if !is_defined(cache, reference, numbered(alloc, reference)) {
            return false;
        }
    }
    true
}

/// Returns whether there are 70,000 series, with their numbers.
fn are_numbered(cache: &Cache) -> bool {
    for number in [0, 65_535, 65_536, 69_999] {
        if shape_of(cache, number) != Shape::Kept(number) {
            return false;
        }
    }
    cache.series_count() == 70_000
}

fn put_label(alloc: Global, labels: &mut RawLabels, number: u32) -> Result<(), AllocError> {
    labels.push(format!(in alloc; "l{number}")?.as_bytes(), b"1")
}

fn put_sixty_five(alloc: Global, labels: &mut RawLabels) -> Result<(), AllocError> {
    for i in 10..75u32 {
        put_label(alloc, labels, i)?;
    }
    Ok(())
}

fn sixty_five_labels(alloc: Global) -> Result<RawLabels, AllocError> {
    let mut labels = RawLabels::new(alloc);
    match put_sixty_five(alloc, &mut labels) {
        Ok(()) => Ok(labels),
        Err(refused) => Err(refused),
    }
}

/// What is done with a new cache.
#[derive(Clone, Copy)]
enum Trial {
    /// The definitions are made.
    Definitions,
    /// This is then known of a label set that has no legacy name.
    Names(Shape),
    /// This is then known of a label set with one label too many.
    TooMany(Shape),
    /// 70,000 references are defined.
    Many,
}

/// Returns what goes wrong in a trial.
fn wrong_in(alloc: Global, cache: &mut Cache, trial: Trial) -> Option<&'static str> {
    let goes = match trial {
        Trial::Definitions => return wrong_definition(alloc, cache),
        Trial::Names(wanted) => {
            is_known_as(cache, raw_labels(alloc, &[("http.rate", "1")]), wanted)
        }
        Trial::TooMany(wanted) => is_known_as(cache, sixty_five_labels(alloc), wanted),
        Trial::Many => defines_many(alloc, cache, 70_000) && are_numbered(cache),
    };
    if goes { None } else { Some("the trial") }
}

/// Returns the same with a new cache.
fn wrong_with(alloc: Global, choice: Choice, trial: Trial) -> Option<&'static str> {
    let mut cache = Cache::new(alloc, choice);
    wrong_in(alloc, &mut cache, trial)
}

fn wrong_with_rules(alloc: Global) -> Option<&'static str> {
    match rules_again(alloc, &RULES) {
        Ok(rules) => wrong_with(
            alloc,
            Choice {
                names: Names::Legacy,
                rules,
            },
            Trial::Definitions,
        ),
        Err(_) => Some("the rules"),
    }
}

#[test]
fn last_definitions(rt: HostRuntime) {
    none_is_wrong(&rt, wrong_with_rules(rt.alloc()));
}

/// Returns the same with a cache that accepts such names and has no rules.
fn wrong_with_names(alloc: Global, names: Names, wanted: Shape) -> Option<&'static str> {
    let rules = Rules::new(Vec::new(alloc));
    wrong_with(alloc, Choice { names, rules }, Trial::Names(wanted))
}

#[test]
fn names_by_choice(rt: HostRuntime) {
    let bad = Shape::Bad(LabelFault::BadName);
    none_is_wrong(
        &rt,
        wrong_with_names(rt.alloc(), Names::Utf8, Shape::Kept(0)),
    );
    none_is_wrong(&rt, wrong_with_names(rt.alloc(), Names::Legacy, bad));
}

/// Returns the same with a cache that keeps each label set.
fn wrong_with_no_rules(alloc: Global, trial: Trial) -> Option<&'static str> {
    wrong_with(alloc, Choice::legacy(alloc), trial)
}

#[test]
fn many_series_are_numbered(rt: HostRuntime) {
    none_is_wrong(&rt, wrong_with_no_rules(rt.alloc(), Trial::Many));
}

/// Labels of which there are too many do not count as out of memory.
#[test]
fn sixty_five_labels_are_too_many(rt: HostRuntime) {
    let too_many = Shape::Bad(LabelFault::TooMany);
    none_is_wrong(
        &rt,
        wrong_with_no_rules(rt.alloc(), Trial::TooMany(too_many)),
    );
}

/// What a question shows, the number of a series and a timestamp, and whether it is later than the
/// noted one. If it is, it is noted.
static TIMES: [(&str, u64, i64, bool); 10] = [
    (
        "the least timestamp, where nothing is noted",
        0,
        i64::MIN,
        true,
    ),
    ("the least timestamp again", 0, i64::MIN, false),
    ("a later timestamp", 0, 10, true),
    ("the same timestamp", 0, 10, false),
    ("an earlier timestamp", 0, 9, false),
    ("an earlier timestamp of another series", 1, 9, true),
    ("a timestamp between those of both", 1, 10, true),
    ("the next millisecond", 0, 11, true),
    ("the greatest timestamp", 0, i64::MAX, true),
    ("the greatest timestamp again", 0, i64::MAX, false),
];

fn times() -> &'static [(&'static str, u64, i64, bool)] {
    &TIMES
}

/// Returns whether a timestamp of a series is later than the noted one; it is then noted. `None` if
/// there is no such series, or if asking changes the answer.
fn is_noted(cache: &mut Cache, series: u64, t: i64) -> Option<bool> {
    if series >= cache.series_count() as u64 {
        return None;
    }
    if !cache.rises(series, t) {
        return Some(false);
    }
    if !cache.rises(series, t) {
        return None;
    }
    cache.note(series, t);
    Some(true)
}

/// Returns the first question that is answered differently.
fn wrong_time(cache: &mut Cache) -> Option<&'static str> {
    for (name, series, t, wanted) in times() {
        if is_noted(cache, *series, *t) != Some(*wanted) {
            return Some(name);
        }
    }
    None
}

/// Returns the first wrong answer of a cache with two series, to which a third reference comes that
/// has the label set of the first one.
fn wrong_note(alloc: Global) -> Option<&'static str> {
    let mut cache = Cache::new(alloc, Choice::legacy(alloc));
    if !defines(alloc, &mut cache, 1, &[("job", "a")])
        || !defines(alloc, &mut cache, 2, &[("job", "b")])
    {
        return Some("two definitions");
    }
    if let Some(name) = wrong_time(&mut cache) {
        return Some(name);
    }
    if !defines(alloc, &mut cache, 3, &[("job", "a")])
        || shape_of(&cache, 3) != Shape::Kept(0)
        || is_noted(&mut cache, 0, i64::MAX) != Some(false)
    {
        return Some("a reference more");
    }
    None
}

#[test]
fn later_timestamps_rise(rt: HostRuntime) {
    none_is_wrong(&rt, wrong_note(rt.alloc()));
}

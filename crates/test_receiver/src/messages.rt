//! Messages as rows give them, and what a head makes of them.

use rw_head::{Head, Limits, Memory, Verdict};
use rw_types::{Bounded, LabelFault, LabelSet, Names, Word};
use rw_write_request::{Message, Series};
use std::alloc::{AllocError, Global};

/// The names and values of a label set.
pub(crate) type Labels<'a> = &'a [(&'a str, &'a str)];

/// Timestamps in milliseconds, and the words of the values.
pub(crate) type Samples<'a> = &'a [(i64, u64)];

/// Label sets with samples: the series of a message, or what a head holds.
pub(crate) type Parts<'a> = &'a [(Labels<'a>, Samples<'a>)];

/// A name, a message, the verdict on it, and how many samples of each label set the head then has,
/// of those that it holds at the end.
pub(crate) type Row = (&'static str, Parts<'static>, Verdict, &'static [usize]);

pub(crate) const UP: Labels<'static> = &[("__name__", "up")];

pub(crate) const DOWN: Labels<'static> = &[("__name__", "down")];

/// More labels than a narrow head takes.
pub(crate) const WIDE: Labels<'static> = &[("__name__", "up"), ("job", "x")];

/// Not a label set, since the names are not sorted.
pub(crate) const FALLING: Labels<'static> = &[("job", "x"), ("__name__", "up")];

fn texts(alloc: Global, labels: Labels<'_>) -> Result<Vec<(String, String)>, AllocError> {
    let mut texts = Vec::new(alloc);
    for label in labels {
        let name = String::from_str(alloc, label.0)?;
        let value = String::from_str(alloc, label.1)?;
        texts.push((name, value))?;
    }
    Ok(texts)
}

fn words(alloc: Global, samples: Samples<'_>) -> Result<Vec<(Word, i64)>, AllocError> {
    let mut words = Vec::new(alloc);
    for sample in samples {
        words.push((Word(sample.1), sample.0))?;
    }
    Ok(words)
}

/// Returns a message of these series.
pub(crate) fn message(alloc: Global, parts: Parts<'_>) -> Result<Message, AllocError> {
    let mut series = Vec::new(alloc);
    for part in parts {
        let labels = texts(alloc, part.0)?;
        let samples = words(alloc, part.1)?;
        series.push(Series { labels, samples })?;
    }
    Ok(Message { series })
}

/// Returns the label set of these labels, whatever their names.
pub(crate) fn label_set(alloc: Global, labels: Labels<'_>) -> Result<LabelSet, LabelFault> {
    let texts = texts(alloc, labels)?;
    let mut set = LabelSet::empty(alloc);
    set.assign(Names::Utf8, &texts)?;
    Ok(set)
}

/// Returns a head with the standard limits.
pub(crate) fn standard(alloc: Global) -> Result<Head, AllocError> {
    Ok(Head::new(alloc, &Limits::standard(alloc)?))
}

/// Returns a head that takes one label.
pub(crate) fn narrow(alloc: Global) -> Result<Head, AllocError> {
    let mut limits = Limits::standard(alloc)?;
    limits.max_labels = Bounded::new(1);
    Ok(Head::new(alloc, &limits))
}

/// Returns the verdict on a message of these series.
pub(crate) fn asked<M: Memory>(alloc: Global, head: &mut Head<M>, parts: Parts<'_>) -> Verdict {
    match message(alloc, parts) {
        Ok(message) => head.apply(&message),
        Err(_) => Verdict::NoMemory,
    }
}

/// Returns whether what is held is just these samples.
pub(crate) fn are_same(held: &[(i64, Word)], samples: Samples<'_>) -> bool {
    held.len() == samples.len()
        && held.iter().zip(samples).all(|(held, sample)| held.0 == sample.0 && held.1.0 == sample.1)
}

/// Returns whether the head holds just these samples of these labels. The answer is no if memory
/// runs out.
pub(crate) fn has_samples(
    alloc: Global,
    head: &Head,
    labels: Labels<'_>,
    samples: Samples<'_>,
) -> bool {
    let Ok(set) = label_set(alloc, labels) else {
        return false;
    };
    match head.samples(&set) {
        Ok(held) => are_same(&held, samples),
        Err(_) => false,
    }
}

/// Returns whether the head holds the first samples of these, this many of each label set, and no
/// others, and has a place for just the label sets that have some.
fn holds_first(alloc: Global, head: &Head, parts: Parts<'_>, counts: &[usize]) -> bool {
    let mut total: u64 = 0;
    let mut places: usize = 0;
    for ((labels, samples), count) in parts.iter().zip(counts) {
        match samples.get(..*count) {
            Some(first) if has_samples(alloc, head, labels, first) => {}
            _ => return false,
        }
        total = total.saturating_add(*count as u64);
        places = places.saturating_add((*count).min(1));
    }
    head.total() == total && head.places() == places
}

/// Asks a head with messages one after the other, of which it holds these samples at the end.
/// Returns the first row with another verdict, or after which it holds other samples.
pub(crate) fn first_wrong(
    alloc: Global,
    head: &mut Head,
    rows: &[Row],
    last: Parts<'_>,
) -> Option<&'static str> {
    for (name, parts, verdict, counts) in rows {
        if asked(alloc, head, parts) != *verdict || !holds_first(alloc, head, last, counts) {
            return Some(name);
        }
    }
    None
}

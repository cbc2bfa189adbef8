//! Samples as plain lists, the bodies that bring them, and whether a head holds them.

use rw_head::Head;
use rw_types::{LabelFault, LabelSet, Names, Word};
use rw_write_request::{Message, Series, encode};
use std::alloc::{AllocError, Global};

/// A sample of the series of a number.
#[derive(Clone, Copy, Debug, PartialEq, Eq)]
pub(crate) struct Sample {
    pub(crate) series: usize,
    pub(crate) time: i64,
    pub(crate) value: u64,
}

/// Metric names of `count` series, which are padded to some `width` bytes.
pub(crate) fn names_of(
    alloc: Global,
    count: usize,
    width: usize,
) -> Result<Vec<String>, AllocError> {
    let mut padding = String::new(alloc);
    for _ in 1..width {
        padding.push('x')?;
    }
    let mut names = Vec::new(alloc);
    for number in 0..count {
        names.push(format!(in alloc; "s{number}{padding}")?)?;
    }
    Ok(names)
}

/// The labels of the series of a name.
fn labels_of(alloc: Global, name: &str) -> Result<Vec<(String, String)>, AllocError> {
    let mut labels = Vec::new(alloc);
    let label = String::from_str(alloc, "__name__")?;
    labels.push((label, String::from_str(alloc, name)?))?;
    Ok(labels)
}

/// The samples of a series, as a message has them.
fn points_of(
    alloc: Global,
    samples: &[Sample],
    series: usize,
) -> Result<Vec<(Word, i64)>, AllocError> {
    let mut points = Vec::new(alloc);
    for sample in samples {
        if sample.series == series {
            points.push((Word(sample.value), sample.time))?;
        }
    }
    Ok(points)
}

/// The body of a request with these samples of series with these names.
pub(crate) fn body_of(
    alloc: Global,
    names: &[String],
    samples: &[Sample],
) -> Result<Vec<u8>, AllocError> {
    let mut series = Vec::new(alloc);
    let mut number = 0;
    for name in names {
        let points = points_of(alloc, samples, number)?;
        if !points.is_empty() {
            series.push(Series {
                labels: labels_of(alloc, name)?,
                samples: points,
            })?;
        }
        number = number.wrapping_add(1);
    }
    encode(alloc, &Message { series })
}

/// What a head holds of a series.
fn held_of(alloc: Global, head: &Head, name: &str) -> Result<Vec<(i64, Word)>, LabelFault> {
    let texts = labels_of(alloc, name)?;
    let mut labels = LabelSet::empty(alloc);
    labels.assign(Names::Utf8, &texts)?;
    Ok(head.samples(&labels)?)
}

/// Whether these are samples of the series in their order, at least all those of the first `least`
/// ones of the list, and at most those of the first `most` ones.
fn is_part(held: &[(i64, Word)], all: &[Sample], least: usize, most: usize, series: usize) -> bool {
    let mut found = 0;
    let mut place = 0;
    for sample in all {
        if sample.series == series {
            match held.get(found) {
                Some(point)
                    if place < most && point.0 == sample.time && point.1.0 == sample.value => {
                    found = found.wrapping_add(1);
                }
                Some(_) => return false,
                None if place < least => return false,
                None => {}
            }
        }
        place = place.wrapping_add(1);
    }
    found == held.len()
}

/// Whether a head holds of each series the first samples of a list, at least all those of its first
/// `least` ones, and at most those of its first `most` ones.
pub(crate) fn holds_part(
    alloc: Global,
    head: &Head,
    names: &[String],
    all: &[Sample],
    least: usize,
    most: usize,
) -> bool {
    let mut series = 0;
    for name in names {
        match held_of(alloc, head, name) {
            Ok(held) if is_part(&held, all, least, most, series) => {}
            _ => return false,
        }
        series = series.wrapping_add(1);
    }
    true
}

//! The sample of a refused body that its reply speaks of. It is best effort: no clause says
//! anything about it.

use rw_head::Limits;
use rw_metrics::RefusalReason;
use rw_types::{LabelFault, LabelSet, Word};
use rw_write_request::{Message, Series, WireFault, decode};
use std::alloc::Global;

/// A series of a body, and the timestamp of one of its samples.
#[derive(Drop)]
pub(crate) struct RefusedSeries {
    /// The labels as they came, or sorted if that is wanted.
    pub(crate) labels: Vec<(String, String)>,
    /// None if it has no sample.
    pub(crate) timestamp: Option<i64>,
}

impl RefusedSeries {
    /// Returns a series with its first sample.
    fn first(series: Series) -> RefusedSeries {
        let timestamp = match series.samples.first() {
            Some(sample) => Some(sample.1),
            None => None,
        };
        RefusedSeries {
            labels: series.labels,
            timestamp,
        }
    }
}

/// Returns whether a head with these limits refuses these labels. `scratch` is overwritten.
fn are_refused(limits: &Limits, scratch: &mut LabelSet, labels: &[(String, String)]) -> bool {
    match scratch.assign(limits.names, labels) {
        Ok(()) => {
            let max_labels = limits.max_labels.get() as usize;
            scratch.is_over(max_labels, limits.max_label_bytes.get() as usize)
        }
        Err(fault) => fault != LabelFault::OutOfMemory,
    }
}

/// Returns the first series of a message whose labels a head with these limits refuses.
fn with_bad_labels(alloc: Global, limits: &Limits, message: Message) -> Option<RefusedSeries> {
    let mut scratch = LabelSet::empty(alloc);
    for series in message.series {
        if are_refused(limits, &mut scratch, &series.labels) {
            return Some(RefusedSeries::first(series));
        }
    }
    None
}

/// Returns the timestamp of the first sample that is not among those that were taken.
fn not_among(samples: &[(Word, i64)], taken: &[(Word, i64)]) -> Option<i64> {
    for (i, sample) in samples.iter().enumerate() {
        match taken.get(i) {
            Some(held) if held.1 == sample.1 && held.0.0 == sample.0.0 => {}
            _ => return Some(sample.1),
        }
    }
    None
}

/// Returns the first series with a sample that was not taken of a message by a head with these
/// limits.
fn not_taken(
    alloc: Global,
    limits: &Limits,
    message: Message,
    taken: Message,
) -> Option<RefusedSeries> {
    let mut scratch = LabelSet::empty(alloc);
    let mut rest = taken.series.into_iter();
    for series in message.series {
        if are_refused(limits, &mut scratch, &series.labels) {
            return Some(RefusedSeries::first(series));
        }
        let Some(held) = rest.next() else {
            return Some(RefusedSeries::first(series));
        };
        if let Some(timestamp) = not_among(&series.samples, &held.samples) {
            return Some(RefusedSeries {
                labels: series.labels,
                timestamp: Some(timestamp),
            });
        }
    }
    None
}

/// Returns the first series of a message.
fn first_series(message: Message) -> Option<RefusedSeries> {
    match message.series.into_iter().next() {
        Some(series) => Some(RefusedSeries::first(series)),
        None => None,
    }
}

/// Returns the first series that a head with these limits did not take of a body, of which what
/// `taken` spells was taken. If nothing was, it is the first one whose labels are refused, if that
/// is the reason, and else the first one. An error means that memory ran out.
pub(crate) fn first_refused(
    alloc: Global,
    limits: &Limits,
    reason: Option<RefusalReason>,
    body: &[u8],
    taken: &Option<Vec<u8>>,
) -> Result<Option<RefusedSeries>, WireFault> {
    let message = decode(alloc, body)?;
    Ok(match (taken, reason) {
        (Some(text), _) => not_taken(alloc, limits, message, decode(alloc, text)?),
        (None, Some(RefusalReason::Labels) | Some(RefusalReason::Limits)) => with_bad_labels(
            alloc, limits, message,
        ),
        (None, _) => first_series(message),
    })
}

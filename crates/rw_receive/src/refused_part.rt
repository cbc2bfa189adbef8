//! What was not taken of a body of which a part was taken.

use crate::refusal_reason::fault_of_texts;
use rw_head::Limits;
use rw_metrics::RefusalReason;
use rw_write_request::{Message, Series, WireFault, decode};
use std::alloc::Global;

/// How many samples of a body were refused, by reason, and how many were taken.
#[derive(Clone, Copy, Debug, PartialEq, Eq)]
pub(crate) struct RefusedPart {
    /// The labels of their series are not a label set.
    pub(crate) labels: u64,
    /// Their label set is above a limit.
    pub(crate) limits: u64,
    /// They are out of order.
    pub(crate) order: u64,
    /// How many were taken.
    pub(crate) taken: u64,
}

impl RefusedPart {
    /// Returns how many there are.
    pub(crate) fn total(&self) -> u64 {
        self.labels
            .saturating_add(self.limits)
            .saturating_add(self.order)
    }

    /// Returns the numbers with their reasons.
    pub(crate) fn by_reason(&self) -> [(RefusalReason, u64); 3] {
        [
            (RefusalReason::Order, self.order),
            (RefusalReason::Labels, self.labels),
            (RefusalReason::Limits, self.limits),
        ]
    }

    /// Adds the samples of a series that was not taken for this reason, or that may have been
    /// taken.
    fn add(&mut self, reason: Option<RefusalReason>, samples: u64) {
        let count = match reason {
            Some(RefusalReason::Labels) => &mut self.labels,
            Some(RefusalReason::Limits) => &mut self.limits,
            _ => &mut self.order,
        };
        *count = count.saturating_add(samples);
    }
}

/// Returns how many samples a message has.
fn sample_count(message: &Message) -> u64 {
    let mut count = 0u64;
    for series in &message.series {
        count = count.saturating_add(series.samples.len() as u64);
    }
    count
}

/// Returns how many samples of a body were refused, of which what `taken` spells was taken by a
/// head with these limits. An error means that memory ran out.
fn count_refused(
    alloc: Global,
    limits: &Limits,
    body: &[u8],
    taken: &[u8],
) -> Result<RefusedPart, WireFault> {
    let mut part = RefusedPart {
        labels: 0,
        limits: 0,
        order: 0,
        taken: 0,
    };
    for Series { labels, samples } in decode(alloc, body)?.series {
        part.add(fault_of_texts(limits, labels)?, samples.len() as u64);
    }
    part.taken = sample_count(&decode(alloc, taken)?);
    part.order = part.order.saturating_sub(part.taken);
    Ok(part)
}

/// Returns how many samples of a body were refused, of which what `taken` spells was taken by a
/// head with these limits. `None` if memory ran out.
pub(crate) fn refused_part(
    alloc: Global,
    limits: &Limits,
    body: &[u8],
    taken: &[u8],
) -> Option<RefusedPart> {
    count_refused(alloc, limits, body, taken).ok()
}

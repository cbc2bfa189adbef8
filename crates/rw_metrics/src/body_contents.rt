//! What the body of a request holds, by a look at its bytes.

use crate::fields::{SAMPLE, SERIES, next_field};

/// The tag of an exemplar in a series.
const EXEMPLAR: u64 = 26;

/// The tag of a native histogram in a series.
const HISTOGRAM: u64 = 34;

/// The tag of the metadata of a metric in a message.
const METADATA: u64 = 26;

/// How many parts of each kind the body of a request holds.
#[derive(Clone, Copy, Debug, PartialEq, Eq)]
pub(crate) struct BodyContents {
    pub(crate) samples: u64,
    pub(crate) histograms: u64,
    pub(crate) exemplars: u64,
    pub(crate) metadata: u64,
}

/// Counts what a series holds.
fn count_series(contents: &mut BodyContents, series: &[u8]) {
    let mut rest = series;
    for _ in 0..series.len() {
        let Some((field, after)) = next_field(rest) else {
            return;
        };
        match field.tag {
            SAMPLE => contents.samples = contents.samples.saturating_add(1),
            EXEMPLAR => contents.exemplars = contents.exemplars.saturating_add(1),
            HISTOGRAM => contents.histograms = contents.histograms.saturating_add(1),
            _ => {}
        }
        rest = after;
    }
}

/// Counts what a message of Remote-Write 1.0 holds, up to the first bytes that are not a field.
pub(crate) fn contents_of(body: &[u8]) -> BodyContents {
    let mut contents = BodyContents {
        samples: 0,
        histograms: 0,
        exemplars: 0,
        metadata: 0,
    };
    let mut rest = body;
    for _ in 0..body.len() {
        let Some((field, after)) = next_field(rest) else {
            return contents;
        };
        match field.tag {
            SERIES => count_series(&mut contents, field.held),
            METADATA => contents.metadata = contents.metadata.saturating_add(1),
            _ => {}
        }
        rest = after;
    }
    contents
}

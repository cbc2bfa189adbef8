//! A sample of a log that is sent.

use rw_types::{LabelSet, Word};
use std::sync::Arc;

/// A sample of the log that is sent, with the labels of its series.
#[derive(Drop)]
pub struct RoutedSample {
    /// The position of its entry in the log, counted from 0.
    pub pos: u64,
    /// The number of its series, counted from 0 in the order in which label sets were first kept.
    pub series: u64,
    /// Its time, in milliseconds since the Unix epoch.
    pub t: i64,
    /// Its value.
    pub word: Word,
    /// The labels of its series.
    pub labels: Arc<LabelSet>,
}

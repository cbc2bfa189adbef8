//! Lines of log text.

use rw_types::{RawLabels, Word};

/// A line of log text, which stands for one record of a log.
#[derive(Debug, Drop)]
pub enum LogLine {
    /// `series REF LABELS`: the definition of a series.
    Series { reference: u64, labels: RawLabels },
    /// `sample REF T VALUE`: a record of one sample, with its time `t` in milliseconds since the
    /// Unix epoch and its value `word`.
    Sample { reference: u64, t: i64, word: Word },
    /// `raw HEX`: the bytes of a record, at least one.
    Raw(Vec<u8>),
}

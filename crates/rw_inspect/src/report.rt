//! What was found in a log.

use crate::counts::Counts;
use rw_log_read::{Damage, Segment, SkippedRecords};

/// What was found in a log, up to its fault, if it has one.
#[derive(Debug, Drop)]
pub struct LogFindings {
    pub segments: Vec<Segment>,
    pub counts: Counts,
    /// The positions of the first ten samples that are not later than the last one of their series.
    pub first_not_rising: Vec<u64>,
    pub damage: Option<Damage>,
    /// Whether records of the log may be Snappy blocks.
    pub may_compress: bool,
    /// The skipped records, by type. No clause says what these are.
    pub skipped: Vec<SkippedRecords>,
}

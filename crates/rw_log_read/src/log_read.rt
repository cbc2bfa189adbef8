//! How far a log was read.

use crate::skipped::SkippedRecords;
use crate::sums::Sums;
use rw_wal_tail::Damage;

/// What was found in a segment.
#[derive(Debug, Drop)]
pub struct Segment {
    pub name: String,
    pub bytes: u64,
    /// Records that were skipped, since they are empty or of another type.
    pub passed: u64,
    pub sums: Sums,
}

/// How far a log was read: a row for each segment, its damage, if it has one, and the records that
/// were skipped, by type.
#[derive(Debug, Drop)]
pub struct LogRead {
    pub segments: Vec<Segment>,
    pub damage: Option<Damage>,
    /// No clause says what these are.
    pub skipped: Vec<SkippedRecords>,
}

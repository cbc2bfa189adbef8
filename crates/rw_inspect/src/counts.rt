//! What is counted of a whole log.

use rw_log_read::Sums;

/// What is counted of the entries of a log.
#[derive(Clone, Copy, Debug, PartialEq, Eq)]
pub struct Counts {
    pub sums: Sums,
    /// Different label sets among the definitions.
    pub label_sets: u64,
    /// Samples without a definition of their reference before them.
    pub without_series: u64,
    /// Samples whose labels are not a label set.
    pub bad_labels: u64,
    /// Samples that are not later than an earlier one of their label set.
    pub not_rising: u64,
}

//! What is odd of the entries of a log.

/// How often a log has what a log of a receiver that began with this version never has. The counts
/// are of the code alone: no contract speaks of them.
#[derive(Clone, Copy, Debug, PartialEq, Eq)]
pub struct Oddities {
    /// How many definitions repeat a reference or a label set that the log defines already. A
    /// Prometheus that reads the log forgets what it has read of such a label set before.
    pub repeated_definitions: u64,
    /// How many samples have a reference that the log does not define. They are passed over.
    pub samples_without_series: u64,
}

impl Oddities {
    /// Returns the counts of an empty log.
    pub(crate) fn none() -> Oddities {
        Oddities {
            repeated_definitions: 0,
            samples_without_series: 0,
        }
    }

    /// Counts a definition, unless it is the first one of its reference and its label set.
    pub(crate) fn count_definition(&mut self, first: bool) {
        if !first {
            self.repeated_definitions = self.repeated_definitions.saturating_add(1);
        }
    }

    /// Counts a sample without a series.
    pub(crate) fn pass_over(&mut self) {
        self.samples_without_series = self.samples_without_series.saturating_add(1);
    }
}

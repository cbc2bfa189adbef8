//! The totals of entries.

ghost use Rattle.std.specs.Prelude.{◌≡◌, ◌+◌, IfOk};
ghost use Rattle.rw_log_read.specs.Sums.{later, no_sums, sooner, sums_with_entry};

use rw_types::Entry;
use std::alloc::AllocError;

/// The totals of some entries of a log. Timestamps are in milliseconds since the Unix epoch.
#[derive(Clone, Copy, Debug, PartialEq, Eq)]
pub struct Sums {
    pub entries: u64,
    /// Definitions of series.
    pub series: u64,
    pub samples: u64,
    /// The least timestamp of a sample, if there is a sample.
    pub earliest: Option<i64>,
    /// The greatest one.
    pub latest: Option<i64>,
}

/// Returns a count increased by one. A count that does not fit counts as out of memory.
pub fn one_more(count: u64) -> Result<u64, AllocError>
    ensures { IfOk result (λ n. n ≡ count + 1) }
{
    count.checked_add(1).ok_or(AllocError)
}

fn sooner(earliest: Option<i64>, t: i64) -> Option<i64>
    ensures { result ≡ sooner earliest t }
{
    match earliest {
        Some(earliest) if earliest < t => Some(earliest),
        _ => Some(t),
    }
}

fn later(latest: Option<i64>, t: i64) -> Option<i64>
    ensures { result ≡ later latest t }
{
    match latest {
        Some(latest) if t < latest => Some(latest),
        _ => Some(t),
    }
}

impl Sums {
    /// Returns the totals of an empty log.
    pub fn new() -> Sums
        ensures { result ≡ no_sums }
    {
        Sums {
            entries: 0,
            series: 0,
            samples: 0,
            earliest: None,
            latest: None,
        }
    }

    /// Returns these totals with one more entry.
    pub fn with(&self, entry: &Entry) -> Result<Sums, AllocError>
        ensures { IfOk result (λ sums. sums ≡ sums_with_entry self.now entry.now) }
    {
        let entries = one_more(self.entries)?;
        match entry {
            Entry::Def { .. } => Ok(Sums {
                entries,
                series: one_more(self.series)?,
                ..*self
            }),
            Entry::Sample { t, .. } => Ok(Sums {
                entries,
                samples: one_more(self.samples)?,
                earliest: sooner(self.earliest, *t),
                latest: later(self.latest, *t),
                ..*self
            }),
        }
    }
}

//! How often each status came.

use std::alloc::{AllocError, Global};
use std::sync::atomic::{AtomicU64, Ordering};

/// How many statuses there are: 0 to 999.
const STATUSES: usize = 1_000;

/// A counter for each status.
#[derive(Drop)]
pub(crate) struct Codes {
    counts: Vec<AtomicU64>,
}

impl Codes {
    /// Returns counters that are all 0.
    pub(crate) fn new(alloc: Global) -> Result<Codes, AllocError> {
        let mut counts = Vec::with_capacity(alloc, STATUSES)?;
        for _ in 0..STATUSES {
            counts.push(AtomicU64::new(0))?;
        }
        Ok(Codes { counts })
    }

    /// Counts a status this many times.
    pub(crate) fn add(&self, status: u16, times: u64) {
        if let Some(count) = self.counts.get(status as usize) {
            count.fetch_add(times, Ordering::Relaxed);
        }
    }

    /// Counts a status once more.
    pub(crate) fn count(&self, status: u16) {
        self.add(status, 1);
    }

    /// Returns how often a status came.
    fn of(&self, status: u16) -> u64 {
        match self.counts.get(status as usize) {
            Some(count) => count.load(Ordering::Relaxed),
            None => 0,
        }
    }

    /// Returns the statuses that came here or there, in ascending order, each with the larger of
    /// the two counts.
    pub(crate) fn read_with(
        &self,
        other: &Codes,
        alloc: Global,
    ) -> Result<Vec<(u16, u64)>, AllocError> {
        let mut came = Vec::new(alloc);
        let mut status = 0u16;
        for count in &self.counts {
            let count = count.load(Ordering::Relaxed).max(other.of(status));
            if count > 0 {
                came.push((status, count))?;
            }
            status = status.saturating_add(1);
        }
        Ok(came)
    }

    /// Returns the statuses that came, in ascending order, each with how often it came.
    pub(crate) fn read(&self, alloc: Global) -> Result<Vec<(u16, u64)>, AllocError> {
        self.read_with(self, alloc)
    }
}

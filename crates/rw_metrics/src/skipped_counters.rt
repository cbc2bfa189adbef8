//! Counters of the records that are skipped.

use crate::atomics::{read, set};
use crate::send_numbers::Skipped;
use std::sync::atomic::AtomicU64;

/// How many records were skipped, by what they hold.
#[derive(Default, Drop)]
pub(crate) struct SkippedCounters {
    tombstones: AtomicU64,
    exemplars: AtomicU64,
    mmap_markers: AtomicU64,
    metadata: AtomicU64,
    histograms: AtomicU64,
    float_histograms: AtomicU64,
    custom_histograms: AtomicU64,
    custom_float_histograms: AtomicU64,
    unknown: AtomicU64,
}

impl SkippedCounters {
    pub(crate) fn set(&self, skipped: &Skipped) {
        set(&self.tombstones, skipped.tombstones);
        set(&self.exemplars, skipped.exemplars);
        set(&self.mmap_markers, skipped.mmap_markers);
        set(&self.metadata, skipped.metadata);
        set(&self.histograms, skipped.histograms);
        set(&self.float_histograms, skipped.float_histograms);
        set(&self.custom_histograms, skipped.custom_histograms);
        set(
            &self.custom_float_histograms,
            skipped.custom_float_histograms,
        );
        set(&self.unknown, skipped.unknown);
    }

    pub(crate) fn read(&self) -> Skipped {
        Skipped {
            tombstones: read(&self.tombstones),
            exemplars: read(&self.exemplars),
            mmap_markers: read(&self.mmap_markers),
            metadata: read(&self.metadata),
            histograms: read(&self.histograms),
            float_histograms: read(&self.float_histograms),
            custom_histograms: read(&self.custom_histograms),
            custom_float_histograms: read(&self.custom_float_histograms),
            unknown: read(&self.unknown),
        }
    }
}

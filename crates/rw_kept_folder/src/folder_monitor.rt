//! What counts the calls on the files of a folder.

use rw_metrics::ReceiveCounters;
use std::alloc::Global;
use std::sync::Arc;
use std::time::Duration;

/// What counts the calls on the files of a folder. It is best effort: no clause says anything about
/// it.
#[derive(Drop)]
pub struct FolderMonitor {
    counters: Option<Arc<ReceiveCounters, Global>>,
}

// It is proved here, so that the proof for a head over a folder, which threads share, is short.
unsafe impl Send for FolderMonitor {}

impl FolderMonitor {
    /// Returns a monitor that counts nothing.
    pub fn none() -> FolderMonitor {
        FolderMonitor { counters: None }
    }

    /// Returns a monitor that counts the segments that are read at the start and their bytes, the
    /// bytes that are written, the syncs, the segments that are begun, and the failed calls.
    pub fn new(counters: Arc<ReceiveCounters, Global>) -> FolderMonitor {
        FolderMonitor {
            counters: Some(counters),
        }
    }

    /// Counts the segments that are there and about to be read.
    pub(crate) fn count_found(&self, segments: usize) {
        if let Some(counters) = &self.counters {
            counters.find_log_segments(segments);
        }
    }

    /// Counts one of them that was read, of this many bytes.
    pub(crate) fn count_read(&self, bytes: usize) {
        if let Some(counters) = &self.counters {
            counters.read_log_segment(bytes as u64);
        }
    }

    /// Counts bytes that were written.
    pub(crate) fn count_bytes(&self, bytes: usize) {
        if let Some(counters) = &self.counters {
            counters.write_log(bytes as u64);
        }
    }

    /// Counts a sync, and for how long it took, if the clock could be read.
    pub(crate) fn count_sync(&self, took: Option<Duration>) {
        let micros = match took {
            Some(took) => took.as_micros().min(u64::MAX as u128) as u64,
            None => 0,
        };
        if let Some(counters) = &self.counters {
            counters.sync_log(micros);
        }
    }

    /// Counts a segment that was begun.
    pub(crate) fn count_segment(&self) {
        if let Some(counters) = &self.counters {
            counters.begin_log_segment();
        }
    }

    /// Counts a call that has failed.
    pub(crate) fn count_failure(&self) {
        if let Some(counters) = &self.counters {
            counters.fail_log();
        }
    }
}

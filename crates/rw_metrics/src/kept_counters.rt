//! Counters of what a receiver writes to the log of a folder.

use crate::atomics::read;
use crate::receive_numbers::KeptNumbers;
use std::sync::atomic::AtomicU64;

/// How much was written to a log.
#[derive(Default, Drop)]
pub(crate) struct KeptCounters {
    pub(crate) bytes: AtomicU64,
    pub(crate) syncs: AtomicU64,
    pub(crate) sync_micros: AtomicU64,
    pub(crate) segments: AtomicU64,
    pub(crate) failed: AtomicU64,
    pub(crate) found: AtomicU64,
    pub(crate) read: AtomicU64,
    pub(crate) opening_bytes: AtomicU64,
    /// 1 once all of it was read, and requests are answered.
    pub(crate) is_open: AtomicU64,
}

impl KeptCounters {
    pub(crate) fn numbers(&self) -> KeptNumbers {
        KeptNumbers {
            bytes: read(&self.bytes),
            syncs: read(&self.syncs),
            sync_micros: read(&self.sync_micros),
            segments: read(&self.segments),
            failed: read(&self.failed),
            found: read(&self.found),
            read: read(&self.read),
            opening_bytes: read(&self.opening_bytes),
        }
    }
}

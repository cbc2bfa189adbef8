//! Counters of a receiver that keeps only the latest samples in memory.

use crate::atomics::read;
use crate::receive_numbers::MemoryNumbers;
use std::sync::atomic::AtomicU64;

/// How much is in memory, and how often more was asked for.
#[derive(Default, Drop)]
pub(crate) struct MemoryCounters {
    pub(crate) samples: AtomicU64,
    pub(crate) asked: AtomicU64,
}

impl MemoryCounters {
    pub(crate) fn numbers(&self) -> MemoryNumbers {
        MemoryNumbers {
            samples: read(&self.samples),
            asked: read(&self.asked),
        }
    }
}

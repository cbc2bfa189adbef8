//! The progress of a worker, for readers in other threads.

use std::alloc::{AllocError, Global};
use std::sync::Arc;
use std::sync::atomic::{AtomicBool, AtomicU64, Ordering};

/// The progress that a worker shares.
#[derive(Drop)]
struct Told {
    resolved: AtomicU64,
    is_sending: AtomicBool,
}

/// How many samples a worker has resolved, and whether it has a batch to send, as of its last
/// update. This is best effort: no clause says anything about it, and no promise depends on it.
#[derive(Drop)]
pub struct Tally {
    told: Arc<Told>,
}

impl Tally {
    pub(crate) fn new(alloc: Global) -> Result<Tally, AllocError> {
        let told = Told {
            resolved: AtomicU64::new(0),
            is_sending: AtomicBool::new(false),
        };
        Ok(Tally {
            told: Arc::new(alloc, told)?,
        })
    }

    /// Returns another share of this tally. It takes no memory, and fails if there are too many
    /// shares already.
    pub(crate) fn share(&self) -> Result<Tally, AllocError> {
        let told = self.told.clone()?;
        Ok(Tally { told })
    }

    /// Records whether a batch was cut that is to be sent.
    pub(crate) fn tell_cut(&self, is_cut: bool) {
        self.told.is_sending.store(is_cut, Ordering::Relaxed);
    }

    /// Records that the batch was acknowledged, and how many samples are resolved with it.
    pub(crate) fn tell(&self, resolved: u64) {
        self.told.resolved.store(resolved, Ordering::Relaxed);
        self.told.is_sending.store(false, Ordering::Relaxed);
    }

    /// Returns the number of resolved samples as of the last update.
    pub fn read(&self) -> u64 {
        self.told.resolved.load(Ordering::Relaxed)
    }

    /// Returns whether a batch is being sent, or waits to be sent again.
    pub fn is_sending(&self) -> bool {
        self.told.is_sending.load(Ordering::Relaxed)
    }
}

//! The stop flag.

ghost use Rattle.std.specs.Prelude.{◌≡◌, IfOk, IfSome};

use crate::state::Sending;
use std::alloc::{AllocError, Global};
use std::marker::Model;
use std::sync::Arc;
use std::sync::atomic::{AtomicBool, Ordering};

/// A flag that makes workers stop. Contracts see which flag it is, and nothing of its state.
#[derive(Drop)]
pub struct StopFlag {
    is_set: Arc<AtomicBool>,
    /// For contracts alone, which know only that shares of one flag have the same name.
    name: u64,
}

/// Says that a stop flag was read as set. Contracts see which flag, and how many samples the worker
/// that read it had resolved by then.
#[derive(Drop)]
pub struct Stopped {
    flag: u64,
    resolved: u64,
}

impl Model for StopFlag {
    ghost use Rattle.std.specs.Prelude.{ℕ};

    ghost Value = { ℕ };

    ghost view = { λ f. f.name };
}

impl Model for Stopped {
    ghost use Rattle.rw_worker.specs.Stops.{StopRead};

    ghost Value = { StopRead };

    ghost view = { λ s. record { flag = s.flag; resolved = s.resolved } };
}

impl StopFlag {
    /// Returns a flag that is not set.
    pub fn new(alloc: Global) -> Result<StopFlag, AllocError> {
        let is_set = Arc::new(alloc, AtomicBool::new(false))?;
        Ok(StopFlag { is_set, name: 0 })
    }

    /// Returns another share of this flag. It takes no memory, and fails if there are too many
    /// shares already.
    pub fn share(&self) -> Result<StopFlag, AllocError>
        ensures { IfOk result (λ f. f ≡ self.now) }
    {
        let is_set = self.is_set.clone()?;
        Ok(StopFlag {
            is_set,
            name: self.name,
        })
    }

    /// Sets the flag. Nothing clears it.
    pub fn set(&self) {
        self.is_set.store(true, Ordering::SeqCst);
    }

    /// Reads the flag for a worker. Only this call makes a `Stopped`.
    pub(crate) fn read<T>(&self, sending: &Sending<T>) -> Option<Stopped>
        ensures { IfSome result
            (λ s. s ≡ record { flag = self.now; resolved = sending.now.resolved }) }
    {
        if self.is_set.load(Ordering::SeqCst) {
            return Some(Stopped {
                flag: self.name,
                resolved: sending.resolved,
            });
        }
        None
    }
}

//! Pauses by the clock.

use crate::asked_pause::AskedPause;
use rw_worker::Pause;
use std::alloc::Global;
use std::sync::Arc;
use std::thread;
use std::time::{Clock, Duration};

/// A pause in which the thread sleeps.
#[derive(Drop)]
pub struct Sleep<C> {
    clock: C,
    asked: Option<Arc<AskedPause, Global>>,
}

impl<C> Sleep<C> {
    /// Returns a pause by this clock.
    pub fn new(clock: C) -> Sleep<C> {
        Sleep { clock, asked: None }
    }

    /// Returns a pause by this clock, which is longer if the receiver asks for that.
    pub fn asked_for(clock: C, asked: Arc<AskedPause, Global>) -> Sleep<C> {
        Sleep {
            clock,
            asked: Some(asked),
        }
    }
}

impl<C: Clock> Pause for Sleep<C> {
    ghost use Rattle.std.specs.Prelude.{[]};

    ghost tells = { λ _. ⊥ };

    ghost paused = { λ _. [] };

    fn pause(&mut self, ms: u64) {
        let ms = match &self.asked {
            Some(asked) => asked.lengthen(ms),
            None => ms,
        };
        thread::sleep(&self.clock, Duration::from_millis(ms));
    }
}

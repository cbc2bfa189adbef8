//! Receivers within memory.

use http::StatusCode;
use rw_sender::Connect;
use rw_worker::{Lost, Pause, Reply, Transport};
use std::alloc::AllocError;
use std::thread;
use std::time::{Clock, Duration};

/// Answers each request with one status, after some time. After a number of requests it refuses
/// each.
#[derive(Drop)]
pub(crate) struct Always<R> {
    clock: R,
    status: StatusCode,
    takes: Duration,
    left: u64,
}

impl<R: Clock> Transport for Always<R> {
    ghost use Rattle.std.specs.Prelude.{[], ⊤};

    ghost is_for = { λ _ _ _. ⊤ };

    ghost tells = { λ _. ⊥ };

    ghost seen = { λ _. [] };

    fn exchange(&mut self, _request: &[u8]) -> Result<Reply, Lost> {
        thread::sleep(&self.clock, self.takes);
        let status = if self.left == 0 {
            StatusCode::BAD_REQUEST
        } else {
            self.status
        };
        self.left = self.left.saturating_sub(1);
        Ok(Reply { status })
    }
}

/// Takes no time, so that a sender tries again at once.
#[derive(Drop)]
pub(crate) struct Quick;

impl Pause for Quick {
    ghost use Rattle.std.specs.Prelude.{[]};

    ghost tells = { λ _. ⊥ };

    ghost paused = { λ _. [] };

    fn pause(&mut self, _ms: u64) {}
}

/// The receiver of each worker answers a number of requests with this status, after some time, and
/// refuses each later one. There is no memory for the epochs after the first few.
#[derive(Drop)]
pub(crate) struct Receivers<R> {
    pub(crate) clock: R,
    pub(crate) status: StatusCode,
    pub(crate) takes: Duration,
    pub(crate) requests: u64,
    pub(crate) epochs: u64,
}

impl<R: Clock + Copy + Send + 'static> Connect for Receivers<R> {
    type T = Always<R>;

    type P = Quick;

    fn transport(&mut self, epoch: u64, _shard: u32) -> Result<(Always<R>, Quick), AllocError> {
        if epoch >= self.epochs {
            return Err(AllocError);
        }
        let always = Always {
            clock: self.clock,
            status: self.status,
            takes: self.takes,
            left: self.requests,
        };
        Ok((always, Quick))
    }
}

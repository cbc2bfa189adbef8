//! Receivers within memory.

use http::StatusCode;
use rw_sender::Connect;
use rw_worker::{Lost, Pause, Reply, Transport};
use std::alloc::{AllocError, Global};
use std::sync::Arc;
use std::sync::atomic::{AtomicBool, Ordering};
use std::thread;

/// How often a gate looks before it gives up.
pub(crate) const TURNS: u32 = 10_000_000;

/// Takes no time, so that a sender tries again at once.
#[derive(Clone, Copy)]
pub(crate) struct Quick;

impl Pause for Quick {
    ghost use Rattle.std.specs.Prelude.{[]};

    ghost tells = { λ _. ⊥ };

    ghost paused = { λ _. [] };

    fn pause(&mut self, _ms: u64) {}
}

/// A gate at which one worker waits until another one was answered.
#[derive(Drop)]
struct Gate {
    is_held: bool,
    has_answered: Arc<AtomicBool>,
}

impl Gate {
    /// Returns whether it was opened in time.
    fn opens(&self) -> bool {
        for _ in 0..TURNS {
            if self.has_answered.load(Ordering::SeqCst) {
                return true;
            }
            thread::yield_now();
        }
        false
    }

    /// Returns whether the worker may go on; this opens the gate for the one that is held.
    fn passes(&self) -> bool {
        if self.is_held {
            return self.opens();
        }
        self.has_answered.store(true, Ordering::SeqCst);
        true
    }
}

/// Notes each request for which there is memory, and answers all of them with one status. A worker
/// that waits at a gate for too long loses its request.
#[derive(Drop)]
pub(crate) struct Peer {
    epoch: u64,
    shard: u32,
    alloc: Global,
    status: StatusCode,
    gate: Option<Gate>,
    requests: Vec<Vec<u8>>,
}

impl Peer {
    /// Returns the requests so far.
    pub(crate) fn requests(&self) -> &[Vec<u8>] {
        &self.requests
    }

    fn note(&mut self, request: &[u8]) {
        if let Ok(request) = request.to_vec(self.alloc) {
            let _ = self.requests.push(request);
        }
    }
}

impl Transport for Peer {
    ghost use Rattle.std.specs.Prelude.{◌≡◌, []};

    ghost is_for = { λ epoch shard peer. (peer.epoch ≡ epoch) × (peer.shard ≡ shard) };

    ghost tells = { λ _. ⊥ };

    ghost seen = { λ _. [] };

    fn exchange(&mut self, request: &[u8]) -> Result<Reply, Lost> {
        self.note(request);
        if let Some(gate) = &self.gate {
            if !gate.passes() {
                self.gate = None;
                return Err(Lost);
            }
        }
        Ok(Reply {
            status: self.status,
        })
    }
}

/// A receiver for each shard. After the first few there is no memory for one.
#[derive(Drop)]
pub(crate) struct Peers {
    pub(crate) alloc: Global,
    pub(crate) status: StatusCode,
    /// How many more receivers there is memory for.
    pub(crate) left: u64,
    /// The shard that is held until another one was answered.
    pub(crate) held: Option<u32>,
    pub(crate) has_answered: Arc<AtomicBool>,
}

impl Peers {
    fn gate(&self, shard: u32) -> Result<Option<Gate>, AllocError> {
        match self.held {
            Some(held) => Ok(Some(Gate {
                is_held: shard == held,
                has_answered: self.has_answered.clone()?,
            })),
            None => Ok(None),
        }
    }
}

impl Connect for Peers {
    type T = Peer;

    type P = Quick;

    fn transport(&mut self, epoch: u64, shard: u32) -> Result<(Peer, Quick), AllocError> {
        self.left = self.left.checked_sub(1).ok_or(AllocError)?;
        let peer = Peer {
            epoch,
            shard,
            alloc: self.alloc,
            status: self.status,
            gate: self.gate(shard)?,
            requests: Vec::new(self.alloc),
        };
        Ok((peer, Quick))
    }
}

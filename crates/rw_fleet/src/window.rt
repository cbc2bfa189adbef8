//! The positions of what was put into a queue.

ghost use Rattle.std.specs.Prelude.{◌≡◌, ◌+◌, ◌<◌, ◌≤◌, ◌^◌, [], ◌∷◌, ◌++◌, length, drop, IfOk, vec_capacity};

use rw_history::History;
use std::alloc::{AllocError, Global};
use std::collections::VecDeque;
use std::marker::Model;

/// The positions that were put, of which only the last are kept. Contracts see all of them.
#[derive(Drop)]
pub(crate) struct Window {
    /// The greatest number of positions that are kept.
    most: usize,
    kept: VecDeque<u64>,
    count: u64,
    all: History<u64>,
}

impl Model for Window {
    ghost use Rattle.std.specs.Prelude.{◌≡◌, ◌<◌, ◌≤◌, length};
    ghost use Rattle.std.specs.VecDeque.{deque_capacity};
    ghost use Rattle.rw_fleet.specs.inner.Positions.{Positions, latest};

    ghost Value = { Positions };

    ghost view = { λ w. record { all = w.all; most = w.most } };

    ghost invariant = { λ w. (w.kept.items ≡ latest w.most w.all) × (w.count ≡ length w.all)
        × (0 < w.most) × (w.most ≤ deque_capacity w.kept) };
}

impl Window {
    /// Returns a window without positions. It allocates memory for as many as are kept.
    pub(crate) fn new(alloc: Global, most: usize) -> Result<Window, AllocError>
        requires { 0 < most }
        ensures { IfOk result (λ w. w ≡ record { all = []; most = most }) }
    {
        Ok(Window {
            most,
            kept: VecDeque::with_capacity(alloc, most)?,
            count: 0,
            all: History::new(),
        })
    }

    /// Returns how many positions were put.
    pub(crate) fn len(&self) -> u64
        ensures { result ≡ length self.now.all }
    {
        self.count
    }

    /// Puts a position after the others. It takes no memory.
    pub(crate) fn push(&mut self, position: u64)
        requires { length self.old.all < 2 ^ 60 }
        ensures { self.new ≡ record self.old { all = self.old.all ++ position ∷ [] } }
    {
        if self.kept.len() == self.most {
            self.kept.pop_front();
        }
        if self.kept.push_back(position).is_err() {
            unreachable!();
        }
        self.count += 1;
        self.all.push(&position);
    }

    /// Returns the positions after the first `resolved`; at most as many are left as are kept. If
    /// none is left, the memory is freed.
    pub(crate) fn behind(self, resolved: u64) -> Vec<u64>
        requires { length self.all ≤ resolved + self.most }
        ensures items { result.items ≡ drop resolved self.all }
        ensures freed { length result.items ≡ 0 → vec_capacity result ≡ 0 }
    {
        let left = self.count.saturating_sub(resolved) as usize;
        let gone = self.kept.len().saturating_sub(left);
        let mut kept = self.kept.into_vec();
        kept.drain(..gone);
        kept.shrink_to_fit();
        kept
    }
}

//! The blocks of items that go through the channel of a queue.

ghost use Rattle.std.specs.Prelude.{◌≡◌, ◌++◌, ◌∷◌, [], length, IfOk, IfNone, ◌≤◌, ◌<◌, MatchOption};
ghost use Rattle.rw_shard_queue.specs.inner.Spares.{empty_block};

use rw_plain_queue::Item;
use std::alloc::{AllocError, Global};
use std::collections::VecDeque;
use std::marker::Model;

/// Items that go through the channel in one step, and how many there may be at most. Contracts see
/// both, the front first.
#[derive(Drop)]
pub struct Block {
    items: VecDeque<Item>,
    most: usize,
}

impl Model for Block {
    ghost use Rattle.std.specs.Prelude.{◌≤◌};
    ghost use Rattle.std.specs.VecDeque.{deque_len, deque_capacity};
    ghost use Rattle.rw_shard_queue.specs.Rule.{Filled};

    ghost Value = { Filled };

    ghost view = { λ b. record { items = b.items.items; most = b.most } };

    ghost invariant = { λ b. (deque_len b.items ≤ b.most) × (b.most ≤ deque_capacity b.items) };
}

impl Block {
    pub(crate) fn new(alloc: Global, most: usize) -> Result<Block, AllocError>
        ensures { IfOk result (λ b. b ≡ empty_block most) }
    {
        Ok(Block {
            items: VecDeque::with_capacity(alloc, most)?,
            most,
        })
    }

    pub(crate) fn len(&self) -> usize
        ensures { result ≡ length self.now.items }
    {
        self.items.len()
    }

    pub(crate) fn most(&self) -> usize
        ensures { result ≡ self.now.most }
    {
        self.most
    }

    pub(crate) fn push(&mut self, item: Item)
        requires { length self.old.items < self.old.most }
        ensures { self.new ≡ record self.old { items = self.old.items ++ item ∷ [] } }
    {
        self.items.push_back_reserved(item);
    }

    /// Removes the item at the back, or returns `None` if there is none.
    pub(crate) fn undo(&mut self) -> Option<Item>
        ensures item { MatchOption result (self.old.items ≡ [])
            (λ x. self.old.items ≡ self.new.items ++ x ∷ []) }
        ensures none { IfNone result (self.new.items ≡ self.old.items) }
        ensures most { self.new.most ≡ self.old.most }
    {
        self.items.pop_back()
    }

    /// Removes the item at the front, or returns `None` if there is none.
    pub(crate) fn pop(&mut self) -> Option<Item>
        ensures item { MatchOption result (self.old.items ≡ [])
            (λ x. self.old.items ≡ x ∷ self.new.items) }
        ensures none { IfNone result (self.new.items ≡ self.old.items) }
        ensures most { self.new.most ≡ self.old.most }
    {
        self.items.pop_front()
    }
}

//! The queue of a shard within one thread.

ghost use Rattle.std.specs.Prelude.{◌≡◌, ◌↔◌, ◌∷◌, [], ◌++◌, true, false, None, Some, length, ◌≤◌, IsTrue, IsOk, IfOk, IfErr, OnOk, OnErr};
ghost use Rattle.std.specs.VecDeque.Iter.{deque_iter_rest};
ghost use Rattle.rw_plain_queue.specs.Queue.{Queue, put_in, put_refusal, next_item, after_take};

use crate::item::Item;
use rw_history::History;
use std::alloc::{AllocError, Global};
use std::collections::VecDeque;
use std::collections::vec_deque::Iter;
use std::error::Error;
use std::fmt;
use std::marker::Model;

/// Why an item was not put.
#[derive(Clone, Copy, Debug, PartialEq, Eq)]
pub enum PutFault {
    /// The queue holds as many items as its capacity.
    Full = 1,
    /// The queue was closed or killed.
    Closed = 2,
}

impl fmt::Display for PutFault {
    fn fmt<W: fmt::Write>(&self, f: &mut fmt::Formatter<W>) -> fmt::Result {
        f.write_str(match self {
            PutFault::Full => "the queue is full",
            PutFault::Closed => "the queue is closed",
        })
    }
}

impl Error for PutFault {}

/// The queue of a shard within one thread. It takes no memory after it was made. Contracts see the
/// items that were taken and those that it holds, and so those that were put.
#[derive(Drop)]
pub struct PlainQueue {
    items: VecDeque<Item>,
    capacity: usize,
    closed: bool,
    killed: bool,
    taken: History<Item>,
}

impl Model for PlainQueue {
    ghost use Rattle.std.specs.Prelude.{◌≤◌};
    ghost use Rattle.std.specs.VecDeque.{deque_len, deque_capacity};
    ghost use Rattle.rw_plain_queue.specs.Queue.{Queue};

    ghost Value = { Queue };

    ghost view = { λ q. record {
      taken = q.taken;
      items = q.items.items;
      capacity = q.capacity;
      closed = q.closed;
      killed = q.killed;
    } };

    ghost invariant = { λ q. (deque_len q.items ≤ q.capacity)
        × (q.capacity ≤ deque_capacity q.items) };
}

impl PlainQueue {
    /// Returns an empty queue that holds at most `capacity` items, marks included.
    pub fn new(alloc: Global, capacity: usize) -> Result<PlainQueue, AllocError>
        ensures { IfOk result
            (λ q. q ≡ record {
              taken = [];
              items = [];
              capacity = capacity;
              closed = false;
              killed = false;
            }) }
    {
        Ok(PlainQueue {
            items: VecDeque::with_capacity(alloc, capacity)?,
            capacity,
            closed: false,
            killed: false,
            taken: History::new(),
        })
    }

    /// Returns why an item cannot be put now, or `None` if it can.
    pub fn refusal(&self) -> Option<PutFault>
        ensures { result ≡ put_refusal self.now }
    {
        if self.closed || self.killed {
            return Some(PutFault::Closed);
        }
        if self.items.len() < self.capacity {
            return None;
        }
        Some(PutFault::Full)
    }

    /// Puts an item at the back. A refused item comes back with the reason, and nothing changes.
    pub fn put(&mut self, item: Item) -> Result<(), (Item, PutFault)>
        ensures fine { IsOk result ↔ (put_refusal self.old ≡ None) }
        ensures ok { OnOk result
            (self.new ≡ record self.old { items = self.old.items ++ item ∷ [] }) }
        ensures put { OnOk result (put_in self.new ≡ put_in self.old ++ item ∷ []) }
        ensures fault { IfErr result (λ e. put_refusal self.old ≡ Some e.1) }
        ensures back { IfErr result (λ e. e.0 ≡ item) }
        ensures err { OnErr result (self.new ≡ self.old) }
    {
        if let Some(fault) = self.refusal() {
            return Err((item, fault));
        }
        self.items.push_back_reserved(item);
        Ok(())
    }

    /// Takes the item at the front, or returns `None` if the queue is empty or was killed.
    pub fn take(&mut self) -> Option<Item>
        ensures item { result ≡ next_item self.old }
        ensures rest { self.new ≡ after_take self.old }
        ensures put { put_in self.new ≡ put_in self.old }
    {
        if self.killed {
            return None;
        }
        match self.items.pop_front() {
            Some(item) => {
                self.taken.push(&item);
                Some(item)
            }
            None => None,
        }
    }

    /// Closes the queue: from here on nothing can be put. What it holds can still be taken.
    pub fn close(&mut self)
        ensures { self.new ≡ record self.old { closed = true } }
    {
        self.closed = true;
    }

    /// Kills the queue: from here on nothing can be put or taken.
    pub fn kill(&mut self)
        ensures { self.new ≡ record self.old { killed = true } }
    {
        self.killed = true;
    }

    /// Returns the items that the queue holds, from front to back.
    pub fn iter(&self) -> Iter<'_, Item>
        ensures { deque_iter_rest result ≡ self.now.items }
    {
        self.items.iter()
    }

    /// Returns how many items the queue holds, marks included.
    pub fn len(&self) -> usize
        ensures len { result ≡ length self.now.items }
        ensures within { result ≤ self.now.capacity }
    {
        self.items.len()
    }

    /// Returns whether the queue holds no item.
    pub fn is_empty(&self) -> bool
        ensures { IsTrue result ↔ (self.now.items ≡ []) }
    {
        self.items.is_empty()
    }
}

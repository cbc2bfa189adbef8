//! The rule of a queue in blocks: what was handed over is what was received and then what the
//! blocks of the channel hold.

use crate::block::Block;
use crossbeam_channel::protocol::{Join, Lesson, Outcome, Protocol, Split};
use rw_plain_queue::Item;
use std::collections::LinkedList;
use std::marker::{Brand, PhantomData};

/// What identifies a queue: its epoch, shard and capacity, how many blocks the channel holds, and
/// how many items a block has at most. No value of it is made.
pub struct Name {
    pub epoch: u64,
    pub shard: u32,
    pub capacity: usize,
    pub slots: usize,
    pub most: usize,
}

/// What the holder of an end knows: its queue, and what went through the end. No value of it is
/// made.
pub struct Log {
    pub feeds: bool,
    pub drains: bool,
    pub name: Name,
    pub put: LinkedList<Item>,
    pub taken: LinkedList<Item>,
}

/// Names a queue.
pub trait Naming {
    ghost use Rattle.rw_shard_queue.specs.declared.rule.Name.{Name};

    ghost name: { Name };
}

impl Naming for Brand {
    ghost use Rattle.rw_shard_queue.specs.inner.Rule.{no_name};

    ghost name = { no_name };
}

/// The rule that what was handed over is what was received, and then what the blocks of the channel
/// hold.
pub struct InOrder;

impl Protocol<Block, Log> for InOrder {
    ghost use Rattle.rw_shard_queue.specs.inner.Rule.{unnamed, IsRelayed};

    ghost holds = { IsRelayed };

    ghost first = { unnamed };
}

/// Gives the ends of a new queue to two owners.
pub struct Opens<Q: Naming> {
    of: PhantomData<Q>,
}

impl<Q: Naming> Split<Log> for Opens<Q> {
    ghost use Rattle.std.specs.Prelude.{[]};
    ghost use Rattle.rw_shard_queue.specs.inner.Rule.{feeder, drainer};

    ghost left = { λ v. feeder Q.name [] };

    ghost right = { λ v. drainer Q.name [] };
}

/// Gives the ends of a queue in use to two owners.
pub struct Parts;

impl Split<Log> for Parts {
    ghost use Rattle.rw_shard_queue.specs.inner.Rule.{feeder, drainer};

    ghost left = { λ v. feeder v.name v.put };

    ghost right = { λ v. drainer v.name v.taken };
}

/// Brings both ends to one owner.
pub struct Meets;

impl Join<Log> for Meets {
    ghost use Rattle.rw_shard_queue.specs.inner.Rule.{both, nobody};

    ghost both = { λ v w. both v.name v.put w.taken };

    ghost spent = { nobody };
}

/// The items of a block join what was put.
pub struct Puts;

impl Outcome<Block, Log> for Puts {
    ghost use Rattle.std.specs.Prelude.{◌≡◌, ◌++◌};
    ghost use Rattle.rw_shard_queue.specs.inner.Rule.{feeder};

    ghost then = { λ v x w. w ≡ feeder v.name (v.put ++ x.items) };
}

impl Lesson<Block, Log> for Puts {
    ghost use Rattle.std.specs.Prelude.{⊤};

    ghost fact = { λ v blocks. ⊤ };
}

/// The items of a block join what was taken.
pub struct Takes;

impl Outcome<Block, Log> for Takes {
    ghost use Rattle.rw_shard_queue.specs.inner.Rule.{Took};

    ghost then = { Took };
}

impl Lesson<Block, Log> for Takes {
    ghost use Rattle.std.specs.Prelude.{⊤};

    ghost fact = { λ v blocks. ⊤ };
}

/// What the two ends know of each other.
pub struct Compares;

impl Lesson<Block, Log> for Compares {
    ghost use Rattle.rw_shard_queue.specs.inner.Rule.{Remains};

    ghost fact = { Remains };
}

//! The empty blocks of a queue, and the channel that gives them back from the end that takes to the
//! end that puts. All blocks are made when the queue is opened.

ghost use Rattle.std.specs.Prelude.{◌≡◌, ◌<◌, IfOk, IfSome};
ghost use Rattle.rw_shard_queue.specs.inner.Spares.{empty_block, AreEmpty};

use crate::block::Block;
use crate::rule::Naming;
use crossbeam_channel::protocol::{Lesson, Outcome, Protocol, Split};
use crossbeam_channel::{Pass, RuledReceiver, RuledSender, bounded_with};
use std::alloc::{AllocError, Global};
use std::marker::{Model, PhantomData};
use std::sync::Wait;

/// The rule that each block that is given back is empty, with the room that both ends know of.
pub struct Empties;

impl Protocol<Block, usize> for Empties {
    ghost use Rattle.rw_shard_queue.specs.inner.Spares.{AreSpare};

    ghost holds = { AreSpare };

    ghost first = { 0 };
}

/// Both ends know how many items a block has at most.
pub struct Sizes<Q: Naming> {
    of: PhantomData<Q>,
}

impl<Q: Naming> Split<usize> for Sizes<Q> {
    ghost left = { λ v. Q.name.most };

    ghost right = { λ v. Q.name.most };
}

/// A block is given back.
pub struct GivesBack;

impl Outcome<Block, usize> for GivesBack {
    ghost use Rattle.std.specs.Prelude.{◌≡◌};

    ghost then = { λ v x w. w ≡ v };
}

impl Lesson<Block, usize> for GivesBack {
    ghost use Rattle.std.specs.Prelude.{⊤};

    ghost fact = { λ v blocks. ⊤ };
}

/// A block that was given back is used again.
pub struct Reuses;

impl Outcome<Block, usize> for Reuses {
    ghost use Rattle.std.specs.Prelude.{◌≡◌};
    ghost use Rattle.rw_shard_queue.specs.inner.Spares.{empty_block};

    ghost then = { λ v x w. (x ≡ empty_block v) × (w ≡ v) };
}

impl Lesson<Block, usize> for Reuses {
    ghost use Rattle.std.specs.Prelude.{⊤};

    ghost fact = { λ v blocks. ⊤ };
}

/// The empty blocks for the end that puts. Contracts see how many items each has room for.
#[derive(Drop)]
pub struct Spares {
    /// Those that were not used yet.
    unused: Vec<Block>,
    receiver: RuledReceiver<Block, usize, Empties>,
    pass: Pass<Block, usize>,
}

impl Model for Spares {
    ghost use Rattle.std.specs.Prelude.{◌<◌, ℕ};
    ghost use Rattle.crossbeam_channel.specs.Claims.{IsSeatAt};
    ghost use Rattle.crossbeam_channel.specs.Ends.{receives_on};
    ghost use Rattle.rw_shard_queue.specs.inner.Spares.{most_of, AreEmpty};

    ghost Value = { ℕ };

    ghost view = { λ s. most_of s.pass };

    ghost invariant = { λ s. IsSeatAt (receives_on s.receiver) s.pass
        × (0 < most_of s.pass)
        × AreEmpty (most_of s.pass) s.unused.items };
}

/// The way back, for the end that takes. Contracts see how many items a block has at most.
#[derive(Drop)]
pub struct Returns {
    sender: RuledSender<Block, usize, Empties>,
    pass: Pass<Block, usize>,
}

impl Model for Returns {
    ghost use Rattle.std.specs.Prelude.{◌<◌, ℕ};
    ghost use Rattle.crossbeam_channel.specs.Claims.{IsSeatAt};
    ghost use Rattle.crossbeam_channel.specs.Ends.{sends_on};
    ghost use Rattle.rw_shard_queue.specs.inner.Spares.{most_of};

    ghost Value = { ℕ };

    ghost view = { λ r. most_of r.pass };

    ghost invariant = { λ r. IsSeatAt (sends_on r.sender) r.pass × (0 < most_of r.pass) };
}

/// Makes `count` empty blocks with room for `most` items each.
fn empty_blocks(alloc: Global, count: usize, most: usize) -> Result<Vec<Block>, AllocError>
    ensures { IfOk result (λ blocks. AreEmpty most blocks.items) }
{
    let mut blocks = Vec::with_capacity(alloc, count)?;
    for _ in 0..count {
        blocks.push(Block::new(alloc, most)?)?;
    }
    Ok(blocks)
}

/// Makes `count` spare blocks with room for `most` items each, and the way back for as many.
pub(crate) fn spare_blocks<Q: Naming>(
    alloc: Global,
    count: usize,
    most: usize,
) -> Result<(Spares, Returns), AllocError>
    requires name { Q.name.most ≡ most }
    requires some { (0 < count) × (0 < most) }
    ensures { IfOk result (λ r. (r.0 ≡ most) × (r.1 ≡ most)) }
{
    let unused = empty_blocks(alloc, count, most)?;
    let (sender, receiver, mut pass) = bounded_with::<Block, usize, Empties, Global>(alloc, count)?;
    let other = sender.another::<Sizes<Q>>(&mut pass);
    let spares = Spares {
        unused,
        receiver,
        pass: other,
    };
    Ok((spares, Returns { sender, pass }))
}

impl Spares {
    /// Takes an empty block. It may wait for one, and returns an error once nobody is at the other
    /// end.
    pub(crate) fn take<R: Wait>(&mut self, rt: &R) -> Option<Block>
        ensures block { IfSome result (λ b. b ≡ empty_block self.old) }
        ensures most { self.new ≡ self.old }
    {
        if let Some(block) = self.unused.pop() {
            return Some(block);
        }
        let Ok(block) = self.receiver.recv_as::<Reuses, R>(rt, &mut self.pass) else {
            return None;
        };
        Some(block)
    }
}

impl Returns {
    /// Gives an empty block back. It never waits: there is room for all blocks but the two that the
    /// ends of the queue have.
    pub(crate) fn give_back<R: Wait>(&mut self, rt: &R, block: Block)
        requires { block ≡ empty_block self.old }
        ensures { self.new ≡ self.old }
    {
        let _ = self
            .sender
            .try_send_as::<GivesBack, R>(rt, &mut self.pass, block);
    }
}

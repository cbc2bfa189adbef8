//! The samples of a series in blocks.

ghost use Rattle.std.specs.Prelude.{◌≡◌, ◌+◌, ◌-◌, ◌^◌, ◌<◌, ◌≤◌, ◌++◌, ◌∷◌, [], IfOk, OnOk, OnErr, length, map, take, drop, vec_capacity};
ghost use Rattle.rw_types.specs.Rising.{Rises};
ghost use Rattle.rw_head.specs.Order.{is_later, holds};
ghost use Rattle.rw_head.specs.Lists.{IsEarlier};
ghost use Rattle.rw_head.specs.Blocks.{joined_blocks, AreFull, sealed_of};
ghost use Rattle.rw_head.specs.inner.Blocks.{Begun, begins_after, open_of};
ghost use Rattle.rw_head.specs.inner.Forgetting.{Moves};

use crate::block::Block;
use crate::forgotten::Forgotten;
use rw_types::Word;
use std::alloc::{AllocError, Global};
use std::marker::Model;

/// How many samples a block has.
const BLOCK_LEN: usize = 120;

/// Samples one after the other: full blocks, and an open one after them, which grows as it fills.
/// Contracts see the list of all.
#[derive(Debug, Drop)]
pub(crate) struct Blocks {
    sealed: Vec<Box<Block>>,
    rest: Vec<(i64, Word)>,
}

impl Model for Blocks {
    ghost use Rattle.std.specs.Prelude.{◌++◌, List, map, vec_capacity};
    ghost use Rattle.rw_head.specs.Order.{Point};
    ghost use Rattle.rw_head.specs.Blocks.{joined_blocks};
    ghost use Rattle.rw_head.specs.inner.Blocks.{AreBlocks};

    ghost Value = { List Point };

    ghost view = { λ s. joined_blocks (map (λ b. b.value) s.sealed.items) ++ s.rest.items };

    ghost invariant = { λ s. AreBlocks (map (λ b. b.value) s.sealed.items) s.rest.items
        (vec_capacity s.rest) };
}

/// Returns whether `t` is later than the last of the samples, or there is none.
fn is_later(samples: &[(i64, Word)], t: i64) -> bool
    ensures { result ≡ is_later t samples.now }
{
    match samples.last() {
        Some(last) => last.0 < t,
        None => true,
    }
}

/// Returns whether the first of the samples is later than `t`, or there is none.
fn begins_after(samples: &[(i64, Word)], t: i64) -> bool
    ensures { result ≡ begins_after t samples.now }
{
    match samples.first() {
        Some(first) => t < first.0,
        None => true,
    }
}

/// Returns whether the sample is among these.
fn holds(samples: &[(i64, Word)], t: i64, word: Word) -> bool
    requires { Rises IsEarlier samples.now }
    ensures { result ≡ holds (t, word) samples.now }
{
    match samples.binary_search_by_key(&t, |sample| sample.0) {
        Ok(at) => samples[at].1 == word,
        Err(_) => false,
    }
}

/// Returns how many of the blocks begin at `t` or before it.
fn count_begun(sealed: &[Box<Block>], t: i64) -> usize
    requires rises { Rises IsEarlier (joined_blocks (map (λ b. b.value) sealed.now)) }
    requires full { AreFull (map (λ b. b.value) sealed.now) }
    ensures { Begun t (map (λ b. b.value) sealed.now) result }
{
    match sealed.binary_search_by_key(&t, |block| block.first()) {
        Ok(at) => at + 1,
        Err(at) => at,
    }
}

/// Makes a block of the samples after the others.
fn seal(sealed: &mut Vec<Box<Block>>, samples: &[(i64, Word)]) -> Result<(), AllocError>
    requires { length samples.now ≡ 120 }
    ensures ok { OnOk result (map (λ b. b.value) sealed.new.items
        ≡ map (λ b. b.value) sealed.old.items ++ samples.now ∷ []) }
    ensures err { OnErr result (sealed.new.items ≡ sealed.old.items) }
{
    let alloc = *sealed.allocator();
    sealed.push(Block::boxed(alloc, samples)?)?;
    Ok(())
}

/// Overwrites the open block with these samples, and reuses the memory that it has.
fn refill(rest: &mut Vec<(i64, Word)>, samples: &[(i64, Word)])
    requires { length samples.now ≤ vec_capacity rest.old }
    ensures samples { rest.new.items ≡ samples.now }
    ensures room { vec_capacity rest.old ≤ vec_capacity rest.new }
{
    rest.clear();
    match rest.extend_from_slice(samples) {
        Ok(()) => {}
        Err(_) => unreachable!(),
    }
}

/// Appends a copy of the samples from number `start` on.
fn copy_part(
    from: &[(i64, Word)],
    start: usize,
    samples: &mut Vec<(i64, Word)>,
) -> Result<(), AllocError>
    requires { start ≤ length from.now }
    ensures { OnOk result (samples.new.items ≡ samples.old.items ++ drop start from.now) }
{
    samples.extend_from_slice(&from[start..])
}

/// Appends a copy of the samples of these blocks.
fn copy_blocks(sealed: &[Box<Block>], samples: &mut Vec<(i64, Word)>) -> Result<(), AllocError>
    ensures { OnOk result
        (samples.new.items ≡ samples.old.items ++ joined_blocks (map (λ b. b.value) sealed.now)) }
{
    for block in sealed {
        samples.extend_from_slice(block.samples())?;
    }
    Ok(())
}

impl Blocks {
    /// Returns an empty list of samples. This takes no memory.
    pub(crate) fn new(alloc: Global) -> Blocks
        ensures { result ≡ [] }
    {
        Blocks {
            sealed: Vec::new(alloc),
            rest: Vec::new(alloc),
        }
    }

    /// Returns an empty list of samples, whose open block has room for `len` of them, or for all
    /// that it can have.
    pub(crate) fn with_room(alloc: Global, len: usize) -> Result<Blocks, AllocError>
        ensures { IfOk result (λ s. s ≡ []) }
    {
        Ok(Blocks {
            sealed: Vec::new(alloc),
            rest: Vec::with_capacity(alloc, len.min(BLOCK_LEN))?,
        })
    }

    /// Returns how many samples there are.
    pub(crate) fn len(&self) -> usize
        ensures len { result ≡ length self.now }
        ensures fits { result ≤ 2 ^ 60 }
    {
        self.sealed.len() * BLOCK_LEN + self.rest.len()
    }

    /// Appends a sample. The one that fills the open block seals it.
    pub(crate) fn push(&mut self, sample: (i64, Word)) -> Result<(), AllocError>
        requires { length self.old < 2 ^ 60 }
        ensures ok { OnOk result (self.new ≡ self.old ++ sample ∷ []) }
        ensures err { OnErr result (self.new ≡ self.old) }
    {
        self.rest.push(sample)?;
        if self.rest.len() < BLOCK_LEN {
            return Ok(());
        }
        let sealed = seal(&mut self.sealed, &self.rest);
        match sealed {
            Ok(()) => self.rest.clear(),
            Err(_) => self.rest.truncate(BLOCK_LEN - 1),
        }
        sealed
    }

    /// Keeps the first `len` samples alone. This takes no memory.
    pub(crate) fn truncate(&mut self, len: usize)
        requires { len ≤ length self.old }
        ensures { self.new ≡ take len self.old }
    {
        let full = len / BLOCK_LEN;
        let over = len % BLOCK_LEN;
        if full < self.sealed.len() {
            refill(&mut self.rest, &self.sealed[full].samples()[..over]);
            self.sealed.truncate(full);
        } else {
            self.rest.truncate(over);
        }
    }

    /// Moves the first block to the samples that are gone, if all of it is earlier than `before`
    /// and there are samples after it. Returns whether it did. This takes no memory.
    pub(crate) fn forget_first(&mut self, before: i64, gone: &mut Forgotten) -> bool
        requires { Rises IsEarlier self.old }
        ensures { Moves result before self.old self.new gone.old gone.new }
    {
        if self.len() <= BLOCK_LEN {
            return false;
        }
        let Some(first) = self.sealed.first() else {
            return false;
        };
        if !is_later(first.samples(), before) {
            return false;
        }
        let block = self.sealed.remove(0);
        gone.push(&block);
        true
    }

    /// Returns whether a timestamp is later than the last of the samples, or there is none.
    pub(crate) fn is_later(&self, t: i64) -> bool
        ensures { result ≡ is_later t self.now }
    {
        if !self.rest.is_empty() {
            return is_later(&self.rest, t);
        }
        match self.sealed.last() {
            Some(block) => is_later(block.samples(), t),
            None => true,
        }
    }

    /// Returns the timestamp of the last of the samples, if there is one.
    pub(crate) fn latest(&self) -> Option<i64> {
        if let Some(last) = self.rest.last() {
            return Some(last.0);
        }
        match self.sealed.last() {
            Some(block) => Some(block.last()),
            None => None,
        }
    }

    /// Returns whether the sample is among these. Its block is found first, by the timestamps at
    /// which the blocks begin.
    pub(crate) fn holds(&self, t: i64, word: Word) -> bool
        requires { Rises IsEarlier self.now }
        ensures { result ≡ holds (t, word) self.now }
    {
        if !begins_after(&self.rest, t) {
            return holds(&self.rest, t, word);
        }
        let begun = count_begun(&self.sealed, t);
        if begun == 0 {
            return false;
        }
        holds(self.sealed[begun - 1].samples(), t, word)
    }

    /// Returns a copy of the samples.
    pub(crate) fn to_vec(&self, alloc: Global) -> Result<Vec<(i64, Word)>, AllocError>
        ensures { IfOk result (λ v. v.items ≡ self.now) }
    {
        let mut samples = Vec::with_capacity(alloc, self.len())?;
        self.copy_from(0, &mut samples)?;
        Ok(samples)
    }

    /// Appends a copy of the samples from number `start` on.
    pub(crate) fn copy_from(
        &self,
        start: usize,
        samples: &mut Vec<(i64, Word)>,
    ) -> Result<(), AllocError>
        requires { start ≤ length self.now }
        ensures { OnOk result (samples.new.items ≡ samples.old.items ++ drop start self.now) }
    {
        let full = start / BLOCK_LEN;
        let over = start % BLOCK_LEN;
        if full >= self.sealed.len() {
            return copy_part(&self.rest, over, samples);
        }
        copy_part(self.sealed[full].samples(), over, samples)?;
        copy_blocks(&self.sealed[full + 1..], samples)?;
        copy_part(&self.rest, 0, samples)
    }

    /// Returns the full blocks.
    pub(crate) fn sealed(&self) -> &[Box<Block>]
        ensures { map (λ b. b.value) result.now ≡ sealed_of self.now }
    {
        &self.sealed
    }

    /// Returns the samples after the full blocks.
    pub(crate) fn open(&self) -> &[(i64, Word)]
        ensures samples { result.now ≡ open_of self.now }
        ensures few { length result.now < 120 }
    {
        &self.rest
    }
}

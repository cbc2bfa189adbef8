//! The samples of one series.

ghost use Rattle.std.specs.Prelude.{◌≡◌, ◌≢◌, ◌⊎◌, ◌+◌, ◌^◌, ◌<◌, ◌≤◌, [], true, false, None, Some, Err, IfOk, IfErr, OnOk, OnErr, IsTrue, length, map};
ghost use Rattle.rw_head.specs.Order.{points, is_later, accept_one, accept};
ghost use Rattle.rw_types.specs.Beginnings.{Begins};
ghost use Rattle.rw_head.specs.Lists.{no_lists, has_samples, more_of};
ghost use Rattle.rw_head.specs.inner.Forgetting.{HasForgotten};
ghost use Rattle.rw_head.specs.inner.Lists.{more_count, ListGives};
ghost use Rattle.rw_head.specs.Blocks.{sealed_of};
ghost use Rattle.rw_head.specs.inner.Blocks.{open_of};
ghost use Rattle.rw_head.specs.declared.verdict.Verdict.TheVariants.{OutOfOrder, NoMemory};

use crate::block::Block;
use crate::blocks::Blocks;
use crate::forgotten::Forgotten;
use crate::verdict::Verdict;
use rw_types::Word;
use std::alloc::{AllocError, Global};
use std::marker::Model;

/// The samples of one series in order. Those of a message that is not judged yet are staged after
/// the others, and the first ones may be gone from memory. Contracts see the samples that are gone,
/// those that are kept, among them the gone ones, and these together with the staged ones.
#[derive(Debug, Drop)]
pub(crate) struct SampleList {
    gone: Forgotten,
    samples: Blocks,
    kept: usize,
    asked: bool,
}

impl Model for SampleList {
    ghost use Rattle.std.specs.Prelude.{◌≤◌, ◌++◌, length, take};
    ghost use Rattle.rw_types.specs.Rising.{Rises};
    ghost use Rattle.rw_head.specs.Lists.{IsEarlier, Lists};

    ghost Value = { Lists };

    ghost view = { λ s. record {
      gone = s.gone;
      kept = s.gone ++ take s.kept s.samples;
      staged = s.gone ++ s.samples;
    } };

    ghost invariant = { λ s. (s.kept ≤ length s.samples) × Rises IsEarlier (s.gone ++ s.samples) };
}

impl SampleList {
    /// Returns an empty list of samples. This takes no memory.
    pub(crate) fn new(alloc: Global) -> SampleList
        ensures { result ≡ no_lists }
    {
        SampleList {
            gone: Forgotten::none(),
            samples: Blocks::new(alloc),
            kept: 0,
            asked: false,
        }
    }

    /// Returns a list of samples of a label set that had none, all of them staged. It has room for
    /// them alone.
    pub(crate) fn of(alloc: Global, samples: &[(Word, i64)]) -> Result<SampleList, Verdict>
        requires { length samples.now ≤ 2 ^ 60 }
        ensures gone { IfOk result (λ x. x.gone ≡ []) }
        ensures kept { IfOk result (λ x. x.kept ≡ []) }
        ensures staged { IfOk result (λ x.
            accept (Some []) (points samples.now) ≡ Some x.staged) }
        ensures few { IfOk result (λ x. length x.staged ≤ length samples.now) }
        ensures err { IfErr result (λ v. v ≢ NoMemory
            → (v ≡ OutOfOrder) × (accept (Some []) (points samples.now) ≡ None)) }
    {
        let mut list = SampleList {
            gone: Forgotten::none(),
            samples: Blocks::with_room(alloc, samples.len())?,
            kept: 0,
            asked: false,
        };
        list.stage_all(samples)?;
        Ok(list)
    }

    /// Stages a sample, if it is later than the last one. A repeat changes nothing, and any other
    /// is refused. One that is not later than all samples that are gone may be a repeat of one of
    /// them or not: it is answered as if memory ran out, and that is noted.
    fn stage(&mut self, t: i64, word: Word) -> Result<(), Verdict>
        requires { length self.old.staged < 2 ^ 60 }
        ensures gone { self.new.gone ≡ self.old.gone }
        ensures kept { self.new.kept ≡ self.old.kept }
        ensures staged { ListGives result (accept_one self.old.staged (t, word)) self.new.staged }
        ensures grown { length self.old.staged ≤ length self.new.staged }
        ensures few { length self.new.staged ≤ length self.old.staged + 1 }
        ensures memory { result ≡ Err NoMemory
            → (is_later t self.old.staged ≡ true) ⊎ (is_later t self.old.gone ≡ false) }
        ensures same { OnErr result (self.new.staged ≡ self.old.staged) }
    {
        if !self.gone.is_later(t) {
            self.asked = true;
            return Err(Verdict::NoMemory);
        }
        if self.samples.is_later(t) {
            self.samples.push((t, word))?;
            return Ok(());
        }
        if self.samples.holds(t, word) {
            return Ok(());
        }
        Err(Verdict::OutOfOrder)
    }

    /// Stages samples, one after the other, up to the first that is refused. If that is the only
    /// one, nothing changes.
    pub(crate) fn stage_all(&mut self, samples: &[(Word, i64)]) -> Result<(), Verdict>
        requires { length self.old.staged + length samples.now ≤ 2 ^ 60 }
        ensures gone { self.new.gone ≡ self.old.gone }
        ensures kept { self.new.kept ≡ self.old.kept }
        ensures staged { ListGives result
            (accept (Some self.old.staged) (points samples.now)) self.new.staged }
        ensures grown { length self.old.staged ≤ length self.new.staged }
        ensures few { length self.new.staged ≤ length self.old.staged + length samples.now }
        ensures same { length samples.now ≤ 1
            → OnErr result (self.new.staged ≡ self.old.staged) }
    {
        for sample in samples {
            self.stage(sample.1, sample.0)?;
        }
        Ok(())
    }

    /// Keeps what is staged. This takes no memory.
    pub(crate) fn commit(&mut self)
        ensures { self.new ≡ record self.old { kept = self.old.staged } }
    {
        self.kept = self.samples.len();
    }

    /// Forgets what is staged. This takes no memory.
    pub(crate) fn abort(&mut self)
        ensures { self.new ≡ record self.old { staged = self.old.kept } }
    {
        self.samples.truncate(self.kept);
    }

    /// Lets the first block go, if all its samples are earlier than `before` and there are others.
    /// Returns whether it did.
    fn forget_block(&mut self, before: i64) -> bool
        requires settled { self.old.staged ≡ self.old.kept }
        ensures kept { self.new.kept ≡ self.old.kept }
        ensures staged { self.new.staged ≡ self.old.staged }
        ensures gone { HasForgotten before self.old.gone self.new.gone }
        ensures more { IsTrue result → length self.old.gone < length self.new.gone }
        ensures left { IsTrue result → length self.new.gone < length self.new.kept }
        ensures same { result ≡ false → self.new.gone ≡ self.old.gone }
        ensures fits { length self.new.gone ≤ length self.new.kept }
    {
        if !self.samples.forget_first(before, &mut self.gone) {
            return false;
        }
        let left = self.samples.len();
        self.kept = left;
        true
    }

    /// Lets the first blocks go whose samples are all earlier than `before`, but never the last
    /// samples. Nothing may be staged. This takes no memory.
    pub(crate) fn forget(&mut self, before: i64)
        requires settled { self.old.staged ≡ self.old.kept }
        ensures kept { self.new.kept ≡ self.old.kept }
        ensures staged { self.new.staged ≡ self.old.staged }
        ensures gone { HasForgotten before self.old.gone self.new.gone }
        ensures left { length self.old.gone < length self.old.kept
            → length self.new.gone < length self.new.kept }
    {
        while self.forget_block(before) {}
    }

    /// Returns how many samples are in memory.
    pub(crate) fn memory_len(&self) -> usize {
        self.samples.len()
    }

    /// Returns the timestamp of the last sample in memory, if there is one.
    pub(crate) fn latest(&self) -> Option<i64> {
        self.samples.latest()
    }

    /// Returns whether a sample that may be gone came since the last call.
    pub(crate) fn was_asked(&mut self) -> bool
        ensures { self.new ≡ self.old }
    {
        let asked = self.asked;
        self.asked = false;
        asked
    }

    /// Returns a copy of the samples that are kept, if none is gone.
    pub(crate) fn to_vec(&self, alloc: Global) -> Result<Vec<(i64, Word)>, AllocError>
        requires { self.now.gone ≡ [] }
        ensures { IfOk result (λ v. v.items ≡ self.now.kept) }
    {
        let mut samples = self.samples.to_vec(alloc)?;
        samples.truncate(self.kept);
        Ok(samples)
    }

    /// Returns the full blocks, if nothing is staged and no sample is gone.
    pub(crate) fn sealed(&self) -> &[Box<Block>]
        requires settled { self.now.staged ≡ self.now.kept }
        requires whole { self.now.gone ≡ [] }
        ensures { map (λ b. b.value) result.now ≡ sealed_of self.now.kept }
    {
        self.samples.sealed()
    }

    /// Returns the samples after the full blocks, if nothing is staged and no sample is gone.
    pub(crate) fn open(&self) -> &[(i64, Word)]
        requires settled { self.now.staged ≡ self.now.kept }
        requires whole { self.now.gone ≡ [] }
        ensures samples { result.now ≡ open_of self.now.kept }
        ensures few { length result.now < 120 }
    {
        self.samples.open()
    }

    /// Returns whether there are samples that are kept, if none is gone.
    pub(crate) fn has_samples(&self) -> bool
        requires { self.now.gone ≡ [] }
        ensures { result ≡ has_samples self.now.kept }
    {
        self.kept > 0
    }

    /// Returns how many samples there are with those that are staged, if none is gone.
    pub(crate) fn staged_len(&self) -> usize
        requires { self.now.gone ≡ [] }
        ensures { result ≡ length self.now.staged }
    {
        self.samples.len()
    }

    /// Returns how many samples are staged.
    pub(crate) fn staged_count(&self) -> usize
        ensures count { result ≡ more_count self.now }
        ensures begun { Begins self.now.kept self.now.staged }
        ensures more { length self.now.kept ≤ length self.now.staged }
    {
        self.samples.len() - self.kept
    }

    /// Overwrites `samples` with a copy of those that are staged.
    pub(crate) fn copy_staged(&self, samples: &mut Vec<(i64, Word)>) -> Result<(), AllocError>
        ensures { OnOk result (samples.new.items ≡ more_of self.now) }
    {
        samples.clear();
        self.samples.copy_from(self.kept, samples)
    }
}

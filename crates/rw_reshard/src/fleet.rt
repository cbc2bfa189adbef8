//! The shards of one epoch, and the way to the next.

ghost use Rattle.std.specs.Prelude.{◌≡◌, ◌↔◌, ◌≤◌, ◌<◌, ◌+◌, [], true, false, length, IfOk, IfErr, OnOk, OnErr};
ghost use Rattle.std.specs.Borrow.{sem};
ghost use Rattle.std.specs.List.{list_all};
ghost use Rattle.rw_reshard.specs.Lends.{lends_shards};
ghost use Rattle.rw_types.specs.Beginnings.{Begins};
ghost use Rattle.rw_reshard.specs.Fleets.{FleetShards, AreNew, AreAllNew, GoesOn};
ghost use Rattle.rw_reshard.specs.declared.fleet.NextFault.TheVariants.{NotDrained};

use crate::shard::{Make, Shard};
use crate::stage::{Draining, FleetStage, Running};
use std::alloc::{AllocError, Global};
use std::error::Error;
use std::fmt;
use std::marker::{Model, PhantomData};

/// Why the next epoch has not begun.
#[derive(Clone, Copy, Debug, PartialEq, Eq)]
pub enum NextFault {
    /// Memory ran out, or there were 2^64 epochs.
    OutOfMemory,
    /// A shard has not ended, or has a sample that is not resolved.
    NotDrained,
}

impl fmt::Display for NextFault {
    fn fmt<W: fmt::Write>(&self, f: &mut fmt::Formatter<W>) -> fmt::Result {
        f.write_str(match self {
            NextFault::OutOfMemory => "out of memory",
            NextFault::NotDrained => "a shard still has samples",
        })
    }
}

impl Error for NextFault {}

/// The shards of one epoch. The type `G` says what they do: `Running` or `Draining`.
#[derive(Drop)]
pub struct Fleet<S, G: FleetStage> {
    alloc: Global,
    epoch: u64,
    running: Vec<S>,
    wanted: u32,
    made: Vec<S>,
    stage: PhantomData<G>,
}

impl<S, G: FleetStage> Model for Fleet<S, G> {
    ghost use Rattle.std.specs.Prelude.{length};
    ghost use Rattle.rw_reshard.specs.Fleets.{FleetShards};

    ghost Value = { FleetShards S };

    ghost view = { λ f. record {
      epoch = f.epoch;
      running = f.running.items;
      wanted = f.wanted;
      made = f.made.items;
    } };

    ghost invariant = { λ f. G.allows (length f.made.items) f.wanted };
}

/// Makes the next shard of `epoch`, after those that there are.
fn make_shard<M: Make>(make: &mut M, epoch: u64, shards: &mut Vec<M::S>) -> Result<(), AllocError>
    requires within { length shards.old.items < 1000 }
    requires fresh { AreNew M.is_new epoch shards.old.items }
    ensures len { OnOk result (length shards.new.items ≡ 1 + length shards.old.items) }
    ensures fresh { AreNew M.is_new epoch shards.new.items }
    ensures goes_on { Begins shards.old.items shards.new.items }
    ensures err { OnErr result (shards.new.items ≡ shards.old.items) }
{
    shards.reserve(1)?;
    let shard = make.make(epoch, shards.len() as u32)?;
    shards.push_reserved(shard);
    Ok(())
}

/// Makes shards of `epoch` after those that there are, until there are `wanted`.
fn make_shards<M: Make>(
    make: &mut M,
    epoch: u64,
    wanted: u32,
    shards: &mut Vec<M::S>,
) -> Result<(), AllocError>
    requires most { wanted ≤ 1000 }
    requires within { length shards.old.items ≤ wanted }
    requires fresh { AreNew M.is_new epoch shards.old.items }
    ensures all { OnOk result (length shards.new.items ≡ wanted) }
    ensures fresh { AreNew M.is_new epoch shards.new.items }
    ensures within { length shards.new.items ≤ wanted }
    ensures goes_on { Begins shards.old.items shards.new.items }
{
    while shards.len() < wanted as usize {
        make_shard(make, epoch, shards)?;
    }
    Ok(())
}

/// Returns whether all shards are drained.
fn all_drained<S: Shard>(shards: &[S]) -> bool
    ensures { result ≡ list_all S.is_drained shards.now }
{
    shards.iter().all(|shard| shard.drained())
}

impl<S, G: FleetStage> Fleet<S, G> {
    /// Returns the shards of this epoch, in the order of their numbers.
    pub fn shards_mut(&mut self) -> &mut [S]
        ensures* writes_back { sem 𝓛 (lends_shards S.row G.row G.FleetStage self.entry result) }
        ensures shards { result.now ≡ self.old.running }
    {
        self.running.as_mut_slice()
    }

    /// Returns the shards of this epoch, and those of the next one that a failed `next` has made.
    pub fn into_shards(self) -> (Vec<S>, Vec<S>)
        ensures running { result.0.items ≡ self.running }
        ensures made { result.1.items ≡ self.made }
    {
        let Fleet {
            alloc: _,
            epoch: _,
            running,
            wanted: _,
            made,
            stage: _,
        } = self;
        (running, made)
    }
}

impl<S: Shard> Fleet<S, Running> {
    /// Returns the `n` shards of epoch 0. If memory runs out, those that were made come back.
    pub fn first<M: Make<S = S>>(
        alloc: Global,
        n: u32,
        make: &mut M,
    ) -> Result<Fleet<S, Running>, (Vec<S>, AllocError)>
        requires some { 1 ≤ n }
        requires most { n ≤ 1000 }
        ensures ok { IfOk result (λ f. (f.epoch ≡ 0) × (f.wanted ≡ n) × (f.made ≡ [])
            × AreAllNew M.is_new 0 n f.running) }
        ensures err { IfErr result (λ e. AreNew M.is_new 0 e.0.items) }
    {
        let mut running = Vec::new(alloc);
        if let Err(refused) = make_shards(make, 0, n, &mut running) {
            return Err((running, refused));
        }
        Ok(Fleet {
            alloc,
            epoch: 0,
            running,
            wanted: n,
            made: Vec::new(alloc),
            stage: PhantomData,
        })
    }

    /// Begins the change to `n` shards: from here on the shards only finish what they have.
    pub fn begin(self, n: u32) -> Fleet<S, Draining>
        requires some { 1 ≤ n }
        requires most { n ≤ 1000 }
        ensures { result ≡ record self { wanted = n } }
    {
        let Fleet {
            alloc,
            epoch,
            running,
            wanted: _,
            made,
            stage: _,
        } = self;
        Fleet {
            alloc,
            epoch,
            running,
            wanted: n,
            made,
            stage: PhantomData,
        }
    }
}

impl<S: Shard> Fleet<S, Draining> {
    /// Makes the next epoch's shards, and returns them with the old ones. No new shard is made
    /// before all old ones are drained; until then the error is `NotDrained`, and nothing changes.
    /// After `OutOfMemory` the shards that were made are kept, and the next call goes on from
    /// there.
    pub fn next<M: Make<S = S>>(
        self,
        make: &mut M,
    ) -> Result<(Fleet<S, Running>, Vec<S>), (Fleet<S, Draining>, NextFault)>
        requires { AreNew M.is_new (1 + self.epoch) self.made }
        ensures drained { IfOk result (λ r. list_all S.is_drained self.running ≡ true) }
        ensures old { IfOk result (λ r. r.1.items ≡ self.running) }
        ensures begun { IfOk result
            (λ r. (r.0.epoch ≡ 1 + self.epoch) × (r.0.wanted ≡ self.wanted) × (r.0.made ≡ [])) }
        ensures all { IfOk result (λ r. AreAllNew M.is_new (1 + self.epoch) self.wanted r.0.running
            × Begins self.made r.0.running) }
        ensures not_drained { IfErr result
            (λ e. (e.1 ≡ NotDrained) ↔ (list_all S.is_drained self.running ≡ false)) }
        ensures kept { IfErr result (λ e. e.1 ≡ NotDrained → e.0 ≡ self) }
        ensures goes_on { IfErr result (λ e. GoesOn M.is_new self e.0) }
    {
        if !all_drained(&self.running) {
            return Err((self, NextFault::NotDrained));
        }
        let Fleet {
            alloc,
            epoch,
            running,
            wanted,
            mut made,
            stage,
        } = self;
        let next = match epoch.checked_add(1) {
            Some(next) if make_shards(make, next, wanted, &mut made).is_ok() => next,
            _ => return Err((
                Fleet {
                    alloc,
                    epoch,
                    running,
                    wanted,
                    made,
                    stage,
                },
                NextFault::OutOfMemory,
            )),
        };
        let fleet = Fleet {
            alloc,
            epoch: next,
            running: made,
            wanted,
            made: Vec::new(alloc),
            stage: PhantomData,
        };
        Ok((fleet, running))
    }
}

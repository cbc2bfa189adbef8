//! The shards of an epoch, and the names of the dropped samples.

ghost use Rattle.std.specs.Prelude.{◌≡◌, ℕ, ◌<◌, ◌≤◌, ◌^◌, ◌+◌, ◌++◌, ◌==◌, slice_get, true, false, length, map, Some, None, IfOk, IfSome, MatchOption, OnOk, OnErr};
ghost use Rattle.rw_machine.specs.Shards.{shard_take, shard_freeze, shard_send, shard_lost, is_drained, pending_in_shard};
ghost use Rattle.rw_machine.specs.Steps.{change};
ghost use Rattle.std.specs.List.{list_all, list_any, position};
ghost use Rattle.std.specs.List.Sorted.{IsNonDecreasing};
ghost use Rattle.rw_world.specs.Guards.{is_open, is_ready, may_take, may_flush, waiting_id_at};
ghost use Rattle.rw_plain_queue.specs.Items.{Placed};
ghost use Rattle.std.specs.FinMap.{insert, empty};
ghost use Rattle.rw_world.specs.Held.{flushed};
ghost use Rattle.rw_world.specs.Answering.{IsSentTo};
ghost use Rattle.rw_world.specs.Sending.{sent_at, replied, has_room_at, put_to, new_held};
ghost use Rattle.rw_world.specs.inner.Sending.{all_pending};

use crate::sent::SentBatch;
use crate::shard::WorldShard;
use http::StatusCode;
use rw_batch::{BatchId, MAX_BATCH};
use rw_ledger::{Ledger, Reason};
use rw_plain_queue::Kind;
use rw_shard_core::Target;
use rw_types::{LabelSet, Word};
use std::alloc::{AllocError, Global};
use std::marker::Model;
use std::sync::Arc;

/// The shards of an epoch, and the names of the dropped samples.
#[derive(Drop)]
pub struct Shards {
    alloc: Global,
    target: Target,
    capacity: usize,
    batch: usize,
    epoch: u64,
    shards: Vec<WorldShard>,
    /// Nothing at this position or after it was put or named.
    next: u64,
    ledger: Ledger,
}

impl Model for Shards {
    ghost use Rattle.std.specs.Prelude.{map};
    ghost use Rattle.std.specs.Coded.{codes};
    ghost use Rattle.std.specs.FinMap as map;
    ghost use Rattle.rw_world.specs.Held.{Held};
    ghost use Rattle.rw_world.specs.Sending.{Sending};
    ghost use Rattle.rw_world.specs.inner.Sending.{IsSending};

    ghost Value = { Sending };

    ghost coded = { Prim.hlevel (codes, map.code) };

    ghost view = { λ s. record {
      target = s.target;
      capacity = s.capacity;
      batch = s.batch;
      epoch = s.epoch;
      shards = map (λ (h : Held). h.shard) s.shards.items;
      next = s.next;
      names = s.ledger.names;
    } };

    ghost invariant = { λ s. IsSending s.target s.capacity s.batch s.epoch s.shards.items s.next
        s.ledger };
}

/// The most samples that a shard is put. If there would be more, the call reports that memory ran
/// out.
const MOST_SAMPLES: u64 = 1 << 60;

/// Returns new shards of an epoch.
fn new_shards(
    alloc: Global,
    target: &Target,
    capacity: usize,
    batch: usize,
    epoch: u64,
    count: usize,
) -> Result<Vec<WorldShard>, AllocError>
    requires batch_some { 0 < batch }
    requires batch_most { batch ≤ MAX_BATCH }
    requires most { count ≤ 1000 }
    ensures { IfOk result (λ v. v.items ≡ new_held target.now capacity batch epoch 0 count) }
{
    let mut shards = Vec::with_capacity(alloc, count)?;
    for i in 0..count {
        shards.push(WorldShard::new(alloc, target, epoch, i as u32, batch, capacity)?)?;
    }
    Ok(shards)
}

fn all_drained(shards: &[WorldShard]) -> bool
    ensures { result ≡ list_all (λ h. is_drained h.shard) shards.now }
{
    shards.iter().all(|shard| shard.is_drained())
}

/// Adds the positions of the samples that were put and are not resolved.
fn add_pending(shards: &[WorldShard], positions: &mut Vec<u64>) -> Result<(), AllocError>
    ensures { OnOk result (positions.new.items ≡ positions.old.items ++ all_pending shards.now) }
{
    for shard in shards {
        shard.add_pending(positions)?;
    }
    Ok(())
}

fn first_open(shards: &[WorldShard]) -> Option<usize>
    ensures { result ≡ position (λ h. is_open h.shard) shards.now }
{
    shards.iter().position(|shard| shard.is_open())
}

fn first_due(shards: &[WorldShard]) -> Option<usize>
    ensures { result ≡ position (λ h. is_ready h.shard) shards.now }
{
    shards.iter().position(|shard| shard.is_due())
}

fn first_taking(shards: &[WorldShard]) -> Option<usize>
    ensures { result ≡ position (λ h. may_take h.shard) shards.now }
{
    shards.iter().position(|shard| shard.may_take())
}

fn first_flushing(shards: &[WorldShard]) -> Option<usize>
    ensures { result ≡ position (λ h. may_flush h.capacity h.shard) shards.now }
{
    shards.iter().position(|shard| shard.may_flush())
}

impl Shards {
    /// Returns the first shard whose batch is open.
    pub fn first_open(&self) -> Option<usize>
        ensures { result ≡ position is_open self.now.shards }
    {
        first_open(&self.shards)
    }

    /// Returns the first shard whose builder is due and has samples.
    pub fn first_due(&self) -> Option<usize>
        ensures { result ≡ position is_ready self.now.shards }
    {
        first_due(&self.shards)
    }

    /// Returns the first shard that may take what is in its queue.
    pub fn first_taking(&self) -> Option<usize>
        ensures { result ≡ position may_take self.now.shards }
    {
        first_taking(&self.shards)
    }

    /// Returns the first shard into whose queue a mark may be put.
    pub fn first_flushing(&self) -> Option<usize>
        ensures { result ≡ position (may_flush self.now.capacity) self.now.shards }
    {
        first_flushing(&self.shards)
    }

    /// Returns the id of this shard's open batch that waits for its reply.
    pub fn waiting_id(&self, i: usize) -> Option<BatchId>
        ensures { result ≡ waiting_id_at (slice_get self.now.shards i) }
    {
        if i >= self.shards.len() {
            return None;
        }
        self.shards[i].waiting_id()
    }

    /// Puts a mark into this shard's queue, if one may be put.
    pub fn flush(&mut self, i: usize, kind: Option<Kind>)
        ensures { self.new
            ≡ record self.old {
              shards = change i
                  (flushed self.old.capacity kind) self.old.shards;
            } }
    {
        if i >= self.shards.len() {
            return;
        }
        self.shards[i].flush(kind);
    }

    /// Lets this shard take the front of its queue.
    pub fn take(&mut self, i: usize)
        ensures { self.new ≡ record self.old { shards = change i shard_take self.old.shards } }
    {
        if i >= self.shards.len() {
            return;
        }
        self.shards[i].take();
    }

    /// Makes this shard's builder its open batch.
    pub fn freeze(&mut self, i: usize) -> Result<(), AllocError>
        ensures ok { OnOk result
            (self.new ≡ record self.old { shards = change i shard_freeze self.old.shards }) }
        ensures err { OnErr result (self.new ≡ self.old) }
    {
        if i >= self.shards.len() {
            return Ok(());
        }
        self.shards[i].freeze(&mut self.ledger)?;
        Ok(())
    }

    /// Lets this shard give up its attempt.
    pub fn lose(&mut self, i: usize)
        ensures { self.new ≡ record self.old { shards = change i shard_lost self.old.shards } }
    {
        if i >= self.shards.len() {
            return;
        }
        self.shards[i].lose();
    }

    /// Lets this shard send its open batch, if it may.
    pub fn send(&mut self, i: usize) -> Result<Option<SentBatch>, AllocError>
        ensures sent { IfOk result (λ r. r ≡ sent_at (slice_get self.old.shards i)) }
        ensures read { IfOk result
            (λ r. IfSome r (λ s. IsSentTo self.old.target.host self.old.target.path s)) }
        ensures ok { OnOk result
            (self.new ≡ record self.old { shards = change i shard_send self.old.shards }) }
        ensures err { OnErr result (self.new ≡ self.old) }
    {
        if i >= self.shards.len() {
            return Ok(None);
        }
        let sent = self.shards[i].send()?;
        Ok(sent)
    }

    /// Takes a reply to this batch.
    pub fn reply(&mut self, id: BatchId, status: StatusCode)
        ensures { self.new ≡ replied id status self.old (slice_get self.old.shards id.shard) }
    {
        let i = id.shard as usize;
        if i >= self.shards.len() {
            return;
        }
        self.shards[i].reply(id, status, &mut self.ledger);
    }

    /// Returns whether this shard's queue takes one more item.
    pub fn has_room(&self, i: usize) -> bool
        ensures { result ≡ has_room_at self.now.capacity (slice_get self.now.shards i) }
    {
        if i >= self.shards.len() {
            return false;
        }
        self.shards[i].has_room()
    }

    /// Puts a sample into this shard's queue, if it takes one more.
    pub fn put(
        &mut self,
        i: usize,
        pos: u64,
        series: u64,
        t: i64,
        word: Word,
        labels: Arc<LabelSet>,
    ) -> Result<(), AllocError>
        requires room { has_room_at self.old.capacity (slice_get self.old.shards i) ≡ true }
        requires next { self.old.next ≤ pos }
        requires small { pos < 2 ^ 60 }
        ensures ok { OnOk result (self.new
            ≡ put_to self.old i pos series t word labels.value (slice_get self.old.shards i)) }
        ensures err { OnErr result (self.new ≡ self.old) }
        ensures full { OnErr result
            (MatchOption (slice_get self.old.shards i) ⊥ (λ s. 2 ^ 60 ≤ length s.put)) }
    {
        if i >= self.shards.len() {
            return Ok(());
        }
        if self.shards[i].count() == MOST_SAMPLES {
            return Err(AllocError);
        }
        self.shards[i].put(pos, series, t, word, labels);
        self.next = pos + 1;
        Ok(())
    }

    /// Names a dropped sample.
    pub fn name(&mut self, pos: u64, reason: Reason) -> Result<(), AllocError>
        requires next { self.old.next ≤ pos }
        requires small { pos < 2 ^ 60 }
        ensures ok { OnOk result (self.new
            ≡ record self.old { names = insert self.old.names pos reason; next = pos + 1 }) }
        ensures err { OnErr result (self.new ≡ self.old) }
    {
        self.ledger.room(1)?;
        self.ledger.name(pos, reason);
        self.next = pos + 1;
        Ok(())
    }

    /// Returns how many shards there are.
    pub fn len(&self) -> usize
        ensures len { result ≡ length self.now.shards }
        ensures some { 1 ≤ result }
    {
        self.shards.len()
    }

    /// Returns whether all shards are drained.
    pub fn are_drained(&self) -> bool
        ensures { result ≡ list_all is_drained self.now.shards }
    {
        all_drained(&self.shards)
    }

    /// Returns the positions of the samples that were put and are not resolved, in order.
    pub fn pending(&self) -> Result<Vec<u64>, AllocError>
        ensures found { IfOk result (λ v. (pos : ℕ)
            → list_any (λ p. p == pos) v.items
            ≡ list_any
            (λ s. list_any (λ (x : Placed). x.place.pos == pos) (pending_in_shard s)) self.now.shards) }
        ensures sorted { IfOk result (λ v. IsNonDecreasing v.items) }
    {
        let mut positions = Vec::new(self.alloc);
        add_pending(&self.shards, &mut positions)?;
        positions.sort_unstable();
        Ok(positions)
    }

    /// Returns the dropped samples.
    pub fn ledger(&self) -> &Ledger
        ensures { result.now.names ≡ self.now.names }
    {
        &self.ledger
    }

    /// Returns the first shards.
    pub fn new(
        alloc: Global,
        target: Target,
        capacity: usize,
        batch: usize,
        shards: usize,
    ) -> Result<Shards, AllocError>
        requires batch_some { 0 < batch }
        requires batch_most { batch ≤ MAX_BATCH }
        requires some { 1 ≤ shards }
        requires most { shards ≤ 1000 }
        ensures { IfOk result
            (λ v. v ≡ record {
              target = target;
              capacity = capacity;
              batch = batch;
              epoch = 0;
              shards = map (λ h. h.shard) (new_held target capacity batch 0 0 shards);
              next = 0;
              names = empty;
            }) }
    {
        Ok(Shards {
            alloc,
            capacity,
            batch,
            epoch: 0,
            shards: new_shards(alloc, &target, capacity, batch, 0, shards)?,
            target,
            next: 0,
            ledger: Ledger::new(alloc),
        })
    }

    /// Lets the shards of the next epoch take over.
    pub fn restart(&mut self, shards: usize) -> Result<(), AllocError>
        requires some { 1 ≤ shards }
        requires most { shards ≤ 1000 }
        ensures ok { OnOk result (self.new
            ≡ record self.old {
              epoch = self.old.epoch + 1;
              shards = map (λ h. h.shard)
                  (new_held self.old.target self.old.capacity self.old.batch
                  (self.old.epoch + 1) 0 shards);
            }) }
        ensures err { OnErr result (self.new ≡ self.old) }
    {
        let Some(epoch) = self.epoch.checked_add(1) else {
            return Err(AllocError);
        };
        let next = new_shards(
            self.alloc,
            &self.target,
            self.capacity,
            self.batch,
            epoch,
            shards,
        )?;
        self.shards = next;
        self.epoch = epoch;
        Ok(())
    }
}

//! One shard of the world.

ghost use Rattle.std.specs.Prelude.{◌≡◌, ◌<◌, ◌≤◌, ◌^◌, ◌==◌, [], ◌∷◌, ◌++◌, true, false, length, Some, None, IfOk, IfSome, OnOk, OnErr};
ghost use Rattle.rw_shard_core.specs.Shard.{HasRoomFor, IsReadAgain, new_core, freeze_room, last_sample, reply_names, places_of, positions_of};
ghost use Rattle.rw_shard_core.specs.Shard as core;
ghost use Rattle.rw_machine.specs.Shards.{new_shard, has_room, shard_put, shard_flush, shard_end, with_core, shard_take, shard_freeze, shard_send, shard_lost, is_drained, pending_in_shard};
ghost use Rattle.rw_plain_queue.specs.Items.{places_in};
ghost use Rattle.rw_plain_queue.specs.declared.item.Item.{Item};
ghost use Rattle.rw_types.specs.declared.place.Place.{Place};
ghost use Rattle.rw_plain_queue.specs.Queue.{put_refusal};
ghost use Rattle.rw_world.specs.Guards.{is_open, is_ready, may_take, may_flush, waiting_id};
ghost use Rattle.rw_world.specs.Held.{flushed, sent_request};
ghost use Rattle.rw_world.specs.inner.Held.{sample_for, queued_of, samples_of};

use crate::sent::SentBatch;
use http::StatusCode;
use rw_batch::{BatchId, MAX_BATCH};
use rw_ledger::Ledger;
use rw_plain_queue::{Item, Kind, PlainQueue};
use rw_shard_core::{ShardCore, Target};
use rw_types::{LabelSet, Place, Word};
use std::alloc::{AllocError, Global};
use std::marker::Model;
use std::sync::Arc;

/// A shard: its queue, and the core that takes from it.
#[derive(Drop)]
pub(crate) struct WorldShard {
    queue: PlainQueue,
    end_put: bool,
    core: ShardCore,
    epoch: u64,
    shard: u32,
    /// How many samples were put.
    count: u64,
    /// How many samples were taken.
    taken: u64,
}

impl Model for WorldShard {
    ghost use Rattle.std.specs.Prelude.{◌≡◌};
    ghost use Rattle.rw_world.specs.Guards.{is_open, is_ready, may_take, may_flush};
    ghost use Rattle.rw_world.specs.Held.{Held};
    ghost use Rattle.rw_world.specs.inner.Held.{held_of, IsShard};

    ghost Value = { Held };

    ghost view = { λ s. held_of s.queue s.end_put s.core };

    ghost invariant = { λ s. (s.epoch ≡ s.core.epoch) × (s.shard ≡ s.core.shard)
        × IsShard s.queue s.core s.count s.taken };
}

/// Puts an item into a queue that takes one more.
fn put_in(queue: &mut PlainQueue, item: Item)
    requires { put_refusal queue.old ≡ None }
    ensures { queue.new ≡ record queue.old { items = queue.old.items ++ item ∷ [] } }
{
    match queue.put(item) {
        Ok(()) => {}
        Err(_) => unreachable!(),
    }
}

fn sample_item(place: Place, t: i64, word: Word, labels: Arc<LabelSet>) -> Item
    ensures { result ≡ Item.Sample place t word labels }
{
    Item::Sample(place, t, word, labels)
}

/// Returns how many samples an item is.
fn samples_of(item: &Item) -> u64
    ensures count { result ≡ samples_of (queued_of item.now) }
    ensures most { result ≤ 1 }
{
    match item {
        Item::Sample(_, _, _, _) => 1,
        Item::Flush | Item::End(_) => 0,
    }
}

/// Adds the positions of these places.
fn add_places(places: &[Place], positions: &mut Vec<u64>) -> Result<(), AllocError>
    ensures { OnOk result (positions.new.items ≡ positions.old.items ++ positions_of places.now) }
{
    for place in places {
        positions.push(place.pos)?;
    }
    Ok(())
}

/// Adds the position of an item, if it is a sample.
fn add_item(item: &Item, positions: &mut Vec<u64>) -> Result<(), AllocError>
    ensures { OnOk result
        (positions.new.items ≡ positions.old.items ++ positions_of (places_in (item.now ∷ []))) }
{
    match item {
        Item::Sample(place, _, _, _) => {
            positions.push(place.pos)?;
            Ok(())
        }
        Item::Flush | Item::End(_) => Ok(()),
    }
}

/// Adds the positions of the samples that wait in the queue.
fn add_queued(queue: &PlainQueue, positions: &mut Vec<u64>) -> Result<(), AllocError>
    ensures { OnOk result
        (positions.new.items ≡ positions.old.items ++ positions_of (places_in queue.now.items)) }
{
    for item in queue.iter() {
        add_item(item, positions)?;
    }
    Ok(())
}

impl WorldShard {
    /// Returns a shard to which nothing was put.
    pub(crate) fn new(
        alloc: Global,
        target: &Target,
        epoch: u64,
        shard: u32,
        batch: usize,
        capacity: usize,
    ) -> Result<WorldShard, AllocError>
        requires some { 0 < batch }
        requires most { batch ≤ MAX_BATCH }
        ensures { IfOk result
            (λ s. s ≡ record {
              capacity = capacity;
              shard = new_shard (new_core target.now epoch shard batch);
            }) }
    {
        Ok(WorldShard {
            queue: PlainQueue::new(alloc, capacity)?,
            end_put: false,
            core: ShardCore::new(alloc, target, epoch, shard, batch)?,
            epoch,
            shard,
            count: 0,
            taken: 0,
        })
    }

    /// Returns whether the queue takes one more item.
    pub(crate) fn has_room(&self) -> bool
        ensures { result ≡ has_room self.now.capacity self.now.shard }
    {
        self.queue.refusal().is_none()
    }

    /// Returns how many samples were put.
    pub(crate) fn count(&self) -> u64
        ensures count { result ≡ length self.now.shard.put }
        ensures few { result ≤ 2 ^ 60 }
    {
        self.count
    }

    /// Puts the next sample.
    pub(crate) fn put(&mut self, pos: u64, series: u64, t: i64, word: Word, labels: Arc<LabelSet>)
        requires room { has_room self.old.capacity self.old.shard ≡ true }
        requires few { length self.old.shard.put < 2 ^ 60 }
        requires later { IfSome (last_sample self.old.shard.put) (λ y. y.place.pos < pos) }
        ensures { self.new
            ≡ record self.old {
              shard = shard_put
                  (sample_for self.old.shard pos series t word labels.value) self.old.shard;
            } }
    {
        let place = Place {
            epoch: self.epoch,
            shard: self.shard,
            seq: self.count,
            pos,
            series,
        };
        self.count += 1;
        put_in(&mut self.queue, sample_item(place, t, word, labels));
    }

    /// Puts a Flush.
    fn put_flush(&mut self)
        requires { has_room self.old.capacity self.old.shard ≡ true }
        ensures { self.new ≡ record self.old { shard = shard_flush self.old.shard } }
    {
        put_in(&mut self.queue, Item::Flush);
    }

    /// Puts the End.
    fn put_end(&mut self, kind: Kind)
        requires { has_room self.old.capacity self.old.shard ≡ true }
        ensures { self.new ≡ record self.old { shard = shard_end kind self.old.shard } }
    {
        put_in(&mut self.queue, Item::End(kind));
        self.end_put = true;
    }

    /// Puts a mark while the End was not put and there is room: the End of this kind, or else a
    /// Flush.
    pub(crate) fn flush(&mut self, kind: Option<Kind>)
        ensures { self.new
            ≡ record self.old { shard = flushed self.old.capacity kind self.old.shard } }
    {
        if self.end_put || !self.has_room() {
            return;
        }
        match kind {
            Some(kind) => self.put_end(kind),
            None => self.put_flush(),
        }
    }

    /// Takes the front of the queue into the core, if it may take something.
    pub(crate) fn take(&mut self)
        ensures { self.new ≡ record self.old { shard = shard_take self.old.shard } }
    {
        if !self.core.can_take() {
            return;
        }
        let Some(item) = self.queue.take() else {
            return;
        };
        self.taken += samples_of(&item);
        self.core.take(item);
    }

    /// Makes the builder the open batch, if none is open.
    pub(crate) fn freeze(&mut self, ledger: &mut Ledger) -> Result<(), AllocError>
        ensures ok { OnOk result
            (self.new ≡ record self.old { shard = shard_freeze self.old.shard }) }
        ensures ledger { OnOk result (ledger.new ≡ freeze_room self.old.shard.core ledger.old) }
        ensures err { OnErr result (self.new ≡ self.old) }
        ensures err_ledger { OnErr result (ledger.new ≡ ledger.old) }
    {
        self.core.freeze(ledger)?;
        Ok(())
    }

    /// Begins an attempt to send the open batch.
    pub(crate) fn send(&mut self) -> Result<Option<SentBatch>, AllocError>
        ensures sent { IfOk result (λ r. r ≡ sent_request self.old.shard) }
        ensures read { IsReadAgain self.old.shard.core.batch }
        ensures ok { OnOk result
            (self.new ≡ record self.old { shard = shard_send self.old.shard }) }
        ensures err { OnErr result (self.new ≡ self.old) }
    {
        let samples = self.core.open_samples();
        match self.core.attempt()? {
            Some(attempt) => Ok(Some(SentBatch::of(attempt, samples))),
            None => Ok(None),
        }
    }

    /// Gives up the attempt that is under way.
    pub(crate) fn lose(&mut self)
        ensures { self.new ≡ record self.old { shard = shard_lost self.old.shard } }
    {
        self.core.lost();
    }

    /// Takes a reply.
    pub(crate) fn reply(&mut self, id: BatchId, status: StatusCode, ledger: &mut Ledger)
        requires { HasRoomFor self.old.shard.core ledger.old }
        ensures shard { self.new
            ≡ record self.old { shard = with_core (core.reply id status) self.old.shard } }
        ensures names { ledger.new.names
            ≡ (reply_names id status self.old.shard.core ledger.old).names }
        ensures room { ledger.new.room
            ≡ (reply_names id status self.old.shard.core ledger.old).room }
    {
        self.core.reply(id, status, ledger);
    }

    /// Returns whether the End was taken, and each sample that was put is resolved.
    pub(crate) fn is_drained(&self) -> bool
        ensures { result ≡ is_drained self.now.shard }
    {
        self.core.conforms();
        if !self.core.has_ended() {
            return false;
        }
        if !self.core.is_empty() {
            return false;
        }
        self.taken == self.count
    }

    /// Adds the positions of the samples that were put and are not resolved.
    pub(crate) fn add_pending(&self, positions: &mut Vec<u64>) -> Result<(), AllocError>
        ensures { OnOk result (positions.new.items
            ≡ positions.old.items ++ positions_of (places_of (pending_in_shard self.now.shard))) }
    {
        add_places(self.core.pending_places(), positions)?;
        add_queued(&self.queue, positions)
    }

    /// Returns whether a batch is open.
    pub(crate) fn is_open(&self) -> bool
        ensures { result ≡ is_open self.now.shard }
    {
        self.core.batch_id().is_some()
    }

    /// Returns whether the builder is due and has samples.
    pub(crate) fn is_due(&self) -> bool
        ensures { result ≡ is_ready self.now.shard }
    {
        self.core.conforms();
        if !self.core.due() {
            return false;
        }
        if self.is_open() {
            return false;
        }
        !self.core.is_empty()
    }

    /// Returns whether the core may take what is in the queue.
    pub(crate) fn may_take(&self) -> bool
        ensures { result ≡ may_take self.now.shard }
    {
        if !self.core.can_take() {
            return false;
        }
        self.queue.len() > 0
    }

    /// Returns whether a mark may be put.
    pub(crate) fn may_flush(&self) -> bool
        ensures { result ≡ may_flush self.now.capacity self.now.shard }
    {
        if self.end_put {
            return false;
        }
        self.has_room()
    }

    /// Returns the id of the open batch that waits for its reply.
    pub(crate) fn waiting_id(&self) -> Option<BatchId>
        ensures { result ≡ waiting_id self.now.shard }
    {
        if !self.core.is_waiting() {
            return None;
        }
        self.core.batch_id()
    }
}

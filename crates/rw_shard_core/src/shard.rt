//! The state of one shard of a sender, which takes from its queue.

ghost use Rattle.std.specs.Prelude.{◌≡◌, ◌↔◌, IsTrue, ◌+◌, ◌<◌, ◌≤◌, true, false, All, ◌&&◌, Some, None, if◌then◌else◌, IfOk, IfSome, OnOk, OnErr, length};
ghost use Rattle.rw_retry.specs.Judgements.{judgement_of};
ghost use Rattle.std.specs.FinMap.{get};
ghost use Rattle.rw_types.specs.Rising.{Rises};
ghost use Rattle.rw_plain_queue.specs.Items.{samples_in};
ghost use Rattle.rw_shard_core.specs.Shard.{IsCore, IsReadAgain, MayTake, HasRoomFor, new_core, is_empty, pending, is_due, can_take, mark, take_item, can_freeze, freeze, freeze_room, can_send, send, request_for, awaits, lose, attempt_for, batch_id, places_of, positions_of, positions, resolve, is_answer, name_all, reply, reply_names, kill};

use crate::config::Target;
use crate::request::{Carrying, request_with};
use bytes::Bytes;
use http::StatusCode;
use rw_batch::{Batch, BatchId, Builder, MAX_BATCH};
use rw_history::History;
use rw_ledger::{Ledger, Reason};
use rw_plain_queue::Item;
use rw_retry::{Judgement, judge};
use rw_types::{HostName, Place, RequestPath};
use std::alloc::{AllocError, Global};
use std::marker::Model;
use std::mem;

/// A batch that is not resolved.
#[derive(Drop)]
pub(crate) struct OpenBatch {
    pub(crate) batch: Batch,
    /// The bytes of its request.
    pub(crate) request: Bytes,
    /// Whether an attempt is under way.
    pub(crate) waiting: bool,
}

/// An attempt to send the open batch of a shard.
#[derive(Debug, Drop)]
pub struct Attempt {
    /// The id of the batch, which goes to `ShardCore::reply` with the reply to the attempt.
    pub id: BatchId,
    /// The bytes of the request, the same at each attempt.
    pub request: Bytes,
}

/// Names all samples of a batch with the status that refused it.
fn name_all(ledger: &mut Ledger, places: &[Place], status: u16)
    requires room { length places.now ≤ ledger.old.room }
    requires unnamed { All (λ p. get ledger.old.names p ≡ None) (positions_of places.now) }
    requires rising { Rises (λ p q. p < q) (positions_of places.now) }
    ensures names { ledger.new.names ≡ name_all status (positions_of places.now) ledger.old.names }
    ensures room { ledger.new.room + length places.now ≡ ledger.old.room }
{
    for place in places {
        ledger.name(place.pos, Reason::Status(status));
    }
}

/// Returns whether none of these samples is named.
fn are_unnamed(ledger: &Ledger, places: &[Place]) -> bool
    ensures { IsTrue result ↔ All (λ p. get ledger.now.names p ≡ None) (positions_of places.now) }
{
    for place in places {
        match ledger.get(place.pos) {
            Some(_) => return false,
            None => {}
        }
    }
    true
}

/// The state of one shard, which takes from its queue: the samples that it has taken and not yet
/// sent, and the batch that is being sent.
///
/// Samples are taken one after the other into a builder. When that is due it is frozen into a
/// batch, which stays open and is sent as often as needed, until a reply resolves it.
#[derive(Drop)]
pub struct ShardCore {
    alloc: Global,
    target: Target,
    epoch: u64,
    shard: u32,
    full: usize,
    builder: Builder,
    marked: bool,
    current: Option<OpenBatch>,
    ended: bool,
    killed: bool,
    /// The place of the sample that was taken last.
    last: Option<Place>,
    taken: History<Item>,
    resolved: History<Item>,
    pending: History<Item>,
}

impl Model for ShardCore {
    ghost use Rattle.rw_plain_queue.specs.Items.{samples_in};
    ghost use Rattle.rw_shard_core.specs.Shard.{Core};

    ghost Value = { Core };

    ghost use Rattle.rw_shard_core.specs.Inside.{batch_part, builder_part, is_waiting};
    ghost use Rattle.rw_shard_core.specs.inner.Inside.{IsKept};

    ghost view = { λ s. record {
      target = s.target;
      epoch = s.epoch;
      shard = s.shard;
      full = s.full;
      taken = samples_in s.taken;
      resolved = samples_in s.resolved;
      builder = builder_part s.current (samples_in s.pending);
      marked = s.marked;
      batch = batch_part s.current (samples_in s.pending);
      waiting = is_waiting s.current;
      ended = s.ended;
      killed = s.killed;
    } };

    ghost invariant = { λ s. IsKept s.target s.epoch s.shard s.full s.builder s.current s.last
        (samples_in s.taken) (samples_in s.resolved) (samples_in s.pending) };
}

/// Returns whether a place has the next number and a later position than the one before it, or
/// there is none before it.
fn follows(last: Option<Place>, place: Place) -> bool
    ensures { IsTrue result ↔ IfSome last (λ l. (place.seq ≡ l.seq + 1) × (l.pos < place.pos)) }
{
    match last {
        Some(last) => place.seq > last.seq && place.seq - last.seq == 1 && last.pos < place.pos,
        None => true,
    }
}

/// Returns a copy of a target.
fn copy_of(alloc: Global, target: &Target) -> Result<Target, AllocError>
    ensures { IfOk result (λ t. t ≡ target.now) }
{
    let host = String::from_str(alloc, target.host.as_str())?;
    let path = String::from_str(alloc, target.path.as_str())?;
    match (HostName::check(host), RequestPath::check(path)) {
        (Some(host), Some(path)) => Ok(Target { host, path }),
        _ => unreachable!(),
    }
}

impl ShardCore {
    /// Returns a shard that has taken nothing. Its builder is full at `batch` samples.
    pub fn new(
        alloc: Global,
        target: &Target,
        epoch: u64,
        shard: u32,
        batch: usize,
    ) -> Result<ShardCore, AllocError>
        requires some { 0 < batch }
        requires most { batch ≤ MAX_BATCH }
        ensures { IfOk result (λ c. c ≡ new_core target.now epoch shard batch) }
    {
        Ok(ShardCore {
            alloc,
            target: copy_of(alloc, target)?,
            epoch,
            shard,
            full: batch,
            builder: Builder::new(alloc, batch)?,
            marked: false,
            current: None,
            ended: false,
            killed: false,
            last: None,
            taken: History::new(),
            resolved: History::new(),
            pending: History::new(),
        })
    }

    /// Returns whether the builder is to be frozen: it is full, or a mark was taken while it was
    /// not empty.
    pub fn due(&self) -> bool
        ensures { result ≡ is_due self.now }
    {
        self.builder.is_full() || self.marked
    }

    /// Law: what was taken is what is resolved, followed by what is in the builder or in the open
    /// batch, and not both of these have samples. The call does nothing.
    pub fn conforms(&self)
        ensures { IsCore self.now }
    {
        let _ = &self.builder;
    }

    /// Returns whether the next item may be taken: no batch is open, the builder is not due, and
    /// the shard was not killed.
    pub fn can_take(&self) -> bool
        ensures { result ≡ can_take self.now }
    {
        !self.killed && self.current.is_none() && !self.due()
    }

    /// Returns whether all samples that were taken are resolved: the builder is empty, and no batch
    /// is open.
    pub fn is_empty(&self) -> bool
        ensures { result ≡ is_empty (pending self.now) }
    {
        self.current.is_none() && self.builder.is_empty()
    }

    /// Returns whether the End of the queue was taken.
    pub fn has_ended(&self) -> bool
        ensures { result ≡ self.now.ended }
    {
        self.ended
    }

    /// Returns the id of the open batch, or `None` if no batch is open.
    pub fn batch_id(&self) -> Option<BatchId>
        ensures { result
            ≡ (if is_empty self.now.batch then None else Some (batch_id self.now.batch)) }
    {
        match &self.current {
            Some(current) => Some(current.batch.id()),
            None => None,
        }
    }

    /// Returns whether the item is a mark, or a sample of this shard of this epoch with the next
    /// number and a later position than the sample before it.
    pub fn may_take(&self, item: &Item) -> bool
        ensures { IsTrue result ↔ MayTake item.now self.now }
    {
        match item {
            Item::Sample(place, _, _, _) => {
                place.epoch == self.epoch && place.shard == self.shard && follows(self.last, *place)
            }
            Item::Flush | Item::End(_) => true,
        }
    }

    /// Returns the samples of the open batch, which only contracts see.
    pub fn open_samples(&self) -> History<Item>
        ensures { samples_in result ≡ self.now.batch }
    {
        match &self.current {
            Some(_) => self.pending.again(),
            None => History::new(),
        }
    }

    /// Returns the places of the samples that were taken and are not resolved, in order.
    pub fn pending_places(&self) -> &[Place]
        ensures { result.now ≡ places_of (pending self.now) }
    {
        match &self.current {
            Some(current) => current.batch.places(),
            None => self.builder.places(),
        }
    }

    /// Returns whether the ledger has room for each sample of the open batch, and names none of
    /// them.
    pub fn has_room_in(&self, ledger: &Ledger) -> bool
        ensures { IsTrue result ↔ HasRoomFor self.now ledger.now }
    {
        match &self.current {
            Some(current) => {
                let places = current.batch.places();
                places.len() <= ledger.left() && are_unnamed(ledger, places)
            }
            None => true,
        }
    }

    /// Notes that a mark was taken: the builder is due, unless it is empty.
    fn mark(&mut self)
        ensures { self.new ≡ mark self.old }
    {
        self.marked = !self.builder.is_empty();
    }

    /// Takes the next item of the queue. A sample goes into the builder; a mark makes a builder due
    /// that is not empty.
    pub fn take(&mut self, item: Item)
        requires guard { can_take self.old ≡ true }
        requires item { MayTake item self.old }
        ensures { self.new ≡ take_item item self.old }
    {
        match &item {
            Item::Sample(place, _, _, _) => {
                self.last = Some(*place);
                self.taken.push(&item);
                self.pending.push(&item);
                self.builder.take(item);
            }
            Item::Flush => self.mark(),
            Item::End(_) => {
                self.mark();
                self.ended = true;
            }
        }
    }

    /// Makes the builder the open batch, with its request, and reserves room in the ledger for its
    /// samples. Returns `Ok(false)`, and changes nothing, if a batch is open, the builder is empty
    /// or the shard was killed. An `Err` changes nothing.
    pub fn freeze(&mut self, ledger: &mut Ledger) -> Result<bool, AllocError>
        ensures done { IfOk result (λ done. done ≡ can_freeze self.old) }
        ensures core { OnOk result (self.new ≡ freeze self.old) }
        ensures ledger { OnOk result (ledger.new ≡ freeze_room self.old ledger.old) }
        ensures err { OnErr result (self.new ≡ self.old) }
        ensures err_ledger { OnErr result (ledger.new ≡ ledger.old) }
    {
        if self.killed || self.current.is_some() || self.builder.is_empty() {
            return Ok(false);
        }
        let next = Builder::new(self.alloc, self.full)?;
        let Carrying { request, body } = request_with(self.alloc, &self.target, &self.builder)?;
        match mem::replace(&mut self.builder, next).freeze_with(body, ledger) {
            Ok(batch) => {
                self.marked = false;
                self.current = Some(OpenBatch {
                    batch,
                    request,
                    waiting: false,
                });
                Ok(true)
            }
            Err((builder, refused)) => {
                self.builder = builder;
                Err(refused)
            }
        }
    }

    /// Returns a clone of the open batch's request.
    fn request(&self) -> Result<Bytes, AllocError>
        requires { is_empty self.now.batch ≡ false }
        ensures { IfOk result (λ b. b ≡ request_for self.now) }
    {
        match &self.current {
            Some(current) => current.request.clone(),
            None => unreachable!(),
        }
    }

    /// Begins an attempt to send the open batch, with the request that was made when it was frozen.
    /// Returns `None` if no batch is open, an attempt is under way, or the shard was killed. An
    /// `Err` changes nothing.
    pub fn attempt(&mut self) -> Result<Option<Attempt>, AllocError>
        ensures attempt { IfOk result
            (λ a. a ≡ (if can_send self.old then Some (attempt_for self.old) else None)) }
        // A receiver reads the message of the batch's samples.
        ensures read { IsReadAgain self.old.batch }
        ensures core { OnOk result (self.new ≡ send self.old) }
        ensures err { OnErr result (self.new ≡ self.old) }
    {
        if self.killed || self.is_waiting() {
            return Ok(None);
        }
        let Some(id) = self.batch_id() else {
            return Ok(None);
        };
        let request = self.request()?;
        self.set_waiting(true);
        Ok(Some(Attempt { id, request }))
    }

    /// Returns whether an attempt to send the open batch is under way.
    pub fn is_waiting(&self) -> bool
        ensures { result ≡ self.now.waiting }
    {
        match &self.current {
            Some(current) => current.waiting,
            None => false,
        }
    }

    /// Notes whether an attempt of the open batch is under way.
    fn set_waiting(&mut self, waiting: bool)
        requires { is_empty self.old.batch ≡ false }
        ensures { self.new ≡ record self.old { waiting = waiting } }
    {
        if let Some(current) = &mut self.current {
            current.waiting = waiting;
        }
    }

    /// Gives up the attempt that is under way; the batch stays open. Returns `false`, and changes
    /// nothing, if there is none or the shard was killed.
    pub fn lost(&mut self) -> bool
        ensures lost { result ≡ awaits self.old }
        ensures core { self.new ≡ lose self.old }
    {
        if self.killed || !self.is_waiting() {
            return false;
        }
        self.set_waiting(false);
        true
    }

    /// Takes the open batch out: its samples are resolved.
    fn resolve(&mut self) -> Batch
        requires { is_empty self.old.batch ≡ false }
        ensures places { result.places ≡ places_of self.old.batch }
        ensures rising { Rises (λ p q. p < q) (positions self.old.batch) }
        ensures core { self.new ≡ resolve self.old }
    {
        match self.current.take() {
            Some(current) => {
                self.resolved = self.taken.again();
                self.pending = History::new();
                let OpenBatch {
                    batch,
                    request: _,
                    waiting: _,
                } = current;
                batch
            }
            None => unreachable!(),
        }
    }

    /// Returns whether this is the id of the open batch and an attempt to send it is under way.
    fn is_answer(&self, id: BatchId) -> bool
        ensures { result ≡ is_answer id self.now }
    {
        if self.killed || !self.is_waiting() {
            return false;
        }
        match self.batch_id() {
            Some(open) => id == open,
            None => false,
        }
    }

    /// Returns what a reply of this status to the batch `id` means. Returns `None`, and changes
    /// nothing, if that is not the open batch, no attempt is under way, or the shard was killed.
    ///
    /// A batch that is done gives its room in the ledger back; one that is refused uses it, as each
    /// of its samples is named with the status. Any other batch stays open, to be sent again.
    pub fn reply(
        &mut self,
        id: BatchId,
        status: StatusCode,
        ledger: &mut Ledger,
    ) -> Option<Judgement>
        requires { HasRoomFor self.old ledger.old }
        ensures answer { result
            ≡ (if is_answer id self.old then Some (judgement_of status) else None) }
        ensures core { self.new ≡ reply id status self.old }
        ensures names { ledger.new.names ≡ (reply_names id status self.old ledger.old).names }
        ensures room { ledger.new.room ≡ (reply_names id status self.old ledger.old).room }
    {
        if !self.is_answer(id) {
            return None;
        }
        let judgement = judge(status);
        match judgement {
            Judgement::Done => {
                let batch = self.resolve();
                ledger.give_back(batch.places().len());
            }
            Judgement::Again => self.set_waiting(false),
            Judgement::Refused => {
                let batch = self.resolve();
                name_all(ledger, batch.places(), status.as_u16());
            }
        }
        Some(judgement)
    }

    /// Ends the work of the shard: from here on nothing is taken, sent or resolved.
    pub fn kill(&mut self)
        ensures { self.new ≡ kill self.old }
    {
        self.killed = true;
    }
}

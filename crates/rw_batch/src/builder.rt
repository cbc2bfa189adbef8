//! A batch that grows sample by sample.

ghost use Rattle.std.specs.Prelude.{◌≡◌, ◌↔◌, ◌+◌, ◌<◌, ◌≤◌, ◌^◌, [], ◌++◌, length, Some, slice_get, IsTrue, IfOk, IfErr, IfSome, IfNone, OnOk, OnErr};
ghost use Rattle.std.specs.Vec.{vec_len, vec_capacity};
ghost use Rattle.rw_write_request.specs.Canon.{sample_field};
ghost use Rattle.rw_write_request.specs.Spells.{Spells};
ghost use Rattle.rw_batch.specs.Batches.{IsNextPlace, MayBeTaken, with_item, batch_of};
ghost use Rattle.rw_batch.specs.Grouping.{LabelledSample, message};

use crate::batch::Batch;
use crate::body::{body_len, put_body};
use crate::fields::Fields;
use crate::rows::{Labelled, Rows};
use bytes::Bytes;
use rw_ledger::Ledger;
use rw_plain_queue::Item;
use rw_types::Place;
use std::alloc::{AllocError, Global};
use std::marker::Model;

/// The most samples that a batch may have.
pub const MAX_BATCH: usize = 10_000;

/// Consecutive samples of one shard, which will be a batch.
#[derive(Drop)]
pub struct Builder {
    batch: usize,
    places: Vec<Place>,
    fields: Fields,
    rows: Rows,
}

impl Model for Builder {
    ghost use Rattle.rw_batch.specs.Batches.{Building};
    ghost use Rattle.rw_batch.specs.inner.Batches.{IsBuilding};

    ghost Value = { Building };

    ghost view = { λ b. record {
      batch = b.batch;
      places = b.places.items;
      samples = b.rows.samples;
    } };

    ghost invariant = { λ b. IsBuilding b.batch b.places b.fields b.rows };
}

/// Returns whether a place is the next one of the same shard, or there is no place before it.
fn follows(places: &[Place], place: &Place) -> bool
    ensures { IsTrue result ↔ IsNextPlace places.now place.now }
{
    let Some(last) = places.last() else {
        return true;
    };
    if place.epoch != last.epoch || place.shard != last.shard {
        return false;
    }
    place.seq > 0 && place.seq - 1 == last.seq
}

impl Builder {
    /// Returns an empty builder with room for `batch` samples.
    pub fn new(alloc: Global, batch: usize) -> Result<Builder, AllocError>
        requires some { 0 < batch }
        requires most { batch ≤ MAX_BATCH }
        ensures { IfOk result (λ b. b ≡ record { batch = batch; places = []; samples = [] }) }
    {
        Ok(Builder {
            batch,
            places: Vec::with_capacity(alloc, batch)?,
            fields: Fields::new(alloc, batch)?,
            rows: Rows::new(alloc, batch)?,
        })
    }

    /// Returns how many samples the builder has.
    pub fn len(&self) -> usize
        ensures len { result ≡ length self.now.samples }
        ensures within { result ≤ self.now.batch }
    {
        self.places.len()
    }

    /// Returns whether the builder has no sample.
    pub fn is_empty(&self) -> bool
        ensures { IsTrue result ↔ (self.now.samples ≡ []) }
    {
        self.places.is_empty()
    }

    /// Returns the places of its samples, in order.
    pub fn places(&self) -> &[Place]
        ensures { result.now ≡ self.now.places }
    {
        self.places.as_slice()
    }

    /// Returns whether the builder has as many samples as it has room for.
    pub fn is_full(&self) -> bool
        ensures { IsTrue result ↔ (length self.now.samples ≡ self.now.batch) }
    {
        self.places.len() == self.batch
    }

    /// Returns whether the item is a sample that fits: there is room, and it is the next one of the
    /// shard of those before it.
    pub fn can_take(&self, item: &Item) -> bool
        ensures { IsTrue result
            ↔ ((length self.now.samples < self.now.batch) × MayBeTaken self.now.places item.now) }
    {
        match item {
            Item::Sample(place, _, _, _) => {
                self.places.len() < self.batch && follows(&self.places, place)
            }
            Item::Flush | Item::End(_) => false,
        }
    }

    /// Takes the next sample of the shard. The number of its series is only a hint, and need not be
    /// right. This takes no memory.
    pub fn take(&mut self, item: Item)
        requires room { length self.old.samples < self.old.batch }
        requires sample { MayBeTaken self.old.places item }
        ensures { self.new ≡ with_item item self.old }
    {
        match item {
            Item::Sample(place, t, word, labels) => {
                self.places.push_reserved(place);
                let bytes = self.fields.push(word, t);
                let sample = (word, t);
                self.rows
                    .push(place.series, Labelled { labels, sample }, bytes);
            }
            Item::Flush | Item::End(_) => unreachable!(),
        }
    }

    /// Returns the field of sample number `k`, counted from 0, in the canonical spelling of the
    /// message. This takes no memory.
    pub fn field(&self, k: usize) -> &[u8]
        requires { k < length self.now.samples }
        ensures { (x : LabelledSample) → slice_get self.now.samples k ≡ Some x
            → result.now ≡ sample_field x.sample }
    {
        self.fields.get(k)
    }

    /// Returns how many bytes the body of the batch takes, or `None` if the number does not fit 64
    /// bits.
    pub fn body_len(&self) -> Option<usize>
        ensures some { IfSome result (λ n. n ≡ length (batch_of self.now).body) }
        ensures none { IfNone result (2 ^ 64 ≤ length (batch_of self.now).body) }
    {
        body_len(&self.rows)
    }

    /// Appends the body of the batch to a vector that has room for it. An `Err` leaves `out` as it
    /// was.
    pub fn put_body(&self, out: &mut Vec<u8>) -> Result<(), AllocError>
        requires { vec_len out.old + length (batch_of self.now).body ≤ vec_capacity out.old }
        ensures ok { OnOk result (out.new.items ≡ out.old.items ++ (batch_of self.now).body) }
        ensures err { OnErr result (out.new ≡ out.old) }
        // A reader of the body finds the message of the samples.
        ensures spells { OnOk result (Spells (batch_of self.now).body (message self.now.samples)) }
    {
        put_body(out, &self.rows, &self.fields)
    }

    /// Returns the body of the batch that `freeze` would make.
    pub fn body(&self) -> Result<Vec<u8>, AllocError>
        requires { 0 < length self.now.samples }
        ensures body { IfOk result (λ v. v.items ≡ (batch_of self.now).body) }
        // A reader of it finds the message of the samples.
        ensures spells { IfOk result (λ v. Spells v.items (message self.now.samples)) }
    {
        let Some(len) = self.body_len() else {
            return Err(AllocError);
        };
        let mut body = Vec::with_capacity(*self.places.allocator(), len)?;
        self.put_body(&mut body)?;
        Ok(body)
    }

    /// Returns the body in a buffer that can be shared.
    fn shared_body(&self) -> Result<Bytes, AllocError>
        requires { 0 < length self.now.samples }
        ensures body { IfOk result (λ b. b ≡ (batch_of self.now).body) }
        ensures spells { IfOk result (λ b. Spells b (message self.now.samples)) }
    {
        let body = self.body()?;
        Ok(Bytes::from_vec(body)?)
    }

    /// Makes the batch of the samples, and reserves room in the ledger for a name of each. If
    /// memory runs out, the builder comes back and the ledger is as it was.
    pub fn freeze(self, ledger: &mut Ledger) -> Result<Batch, (Builder, AllocError)>
        requires { 0 < length self.samples }
        ensures batch { IfOk result (λ b. b ≡ batch_of self) }
        // A reader of its body finds the message of the samples.
        ensures spells { IfOk result (λ b. Spells b.body (message self.samples)) }
        ensures room { OnOk result (ledger.new.room ≡ ledger.old.room + length self.samples) }
        ensures names { ledger.new.names ≡ ledger.old.names }
        ensures builder { IfErr result (λ e. e.0 ≡ self) }
        ensures ledger { OnErr result (ledger.new ≡ ledger.old) }
    {
        match self.shared_body() {
            Ok(body) => self.freeze_with(body, ledger),
            Err(refused) => Err((self, refused)),
        }
    }

    /// Makes the batch of the samples as `freeze` does, with `body`, which was made before. If
    /// memory runs out, the builder comes back and the ledger is as it was.
    pub fn freeze_with(
        self,
        body: Bytes,
        ledger: &mut Ledger,
    ) -> Result<Batch, (Builder, AllocError)>
        requires some { 0 < length self.samples }
        requires body { body ≡ (batch_of self).body }
        ensures batch { IfOk result (λ b. b ≡ batch_of self) }
        ensures room { OnOk result (ledger.new.room ≡ ledger.old.room + length self.samples) }
        ensures names { ledger.new.names ≡ ledger.old.names }
        ensures builder { IfErr result (λ e. e.0 ≡ self) }
        ensures ledger { OnErr result (ledger.new ≡ ledger.old) }
    {
        if ledger.room(self.places.len()).is_err() {
            return Err((self, AllocError));
        }
        let Builder { places, .. } = self;
        Ok(Batch { places, body })
    }
}

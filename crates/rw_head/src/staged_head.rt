//! A head with a message that is judged and not taken yet.

ghost use Rattle.std.specs.Prelude.{◌≡◌, ◌≢◌, ◌≤◌, IsTrue, IfOk, IfErr};
ghost use Rattle.rw_types.specs.Beginnings.{Begins};
ghost use Rattle.rw_types.specs.Labels.{Labels};
ghost use Rattle.rw_head.specs.Added.{AddsUp};
ghost use Rattle.rw_head.specs.Blocks.{KeepsBlocks};
ghost use Rattle.rw_head.specs.Capacity.{exceeds, unlimited};
ghost use Rattle.rw_head.specs.Growth.{EachRises, HasStoredBody};
ghost use Rattle.rw_head.specs.Head.{answer, SpellsMessage, IsStatus};
ghost use Rattle.rw_head.specs.Store.{list_of, total};

use crate::added::AllAdded;
use crate::body::stage_body;
use crate::capacity::Capacity;
use crate::head::{Head, status_of};
use crate::label_bounds::LabelBounds;
use crate::memory::{AllSamples, Memory};
use crate::table::Table;
use std::alloc::Global;
use std::marker::{Model, PhantomData};

/// A head in which a message is staged that it would take. Contracts see the head without the
/// message and with it, and what the message adds.
#[derive(Debug, Drop)]
pub struct StagedHead<M: Memory = AllSamples> {
    alloc: Global,
    table: Table,
    bounds: LabelBounds,
    places: usize,
    memory: PhantomData<M>,
}

impl<M: Memory> Model for StagedHead<M> {
    ghost use Rattle.std.specs.Prelude.{◌≡◌, length};
    ghost use Rattle.std.specs.Coded.{codes};
    ghost use Rattle.std.specs.FinMap as map;
    ghost use Rattle.rw_head.specs.Staged.{Staging};
    ghost use Rattle.rw_head.specs.inner.Staged.{IsStaging};

    ghost Value = { Staging };

    ghost coded = { Prim.hlevel (codes, map.code) };

    ghost view = { λ h. record {
      before = record { store = h.table.kept; limits = h.bounds; busy = 0 };
      after = record { store = h.table.staged; limits = h.bounds; busy = 0 };
      added = h.table.added;
    } };

    ghost use Rattle.rw_head.specs.Store.{label_sets};

    ghost invariant = { λ h. IsStaging h.bounds h.table.kept h.table.staged
        × (h.places ≡ length (label_sets h.table.kept))
        × (h.table.forgets ≡ M.forgets) };
}

impl<M: Memory> Head<M> {
    /// Judges the body of a request as `answer` does, and stages its message if the head would take
    /// it. Otherwise returns the head with the status that `answer` gives: the busy count is one
    /// lower after 429, and nothing else has changed.
    pub fn stage(self, body: &[u8]) -> Result<StagedHead<M>, (Head<M>, u16)>
        ensures before { IfOk result (λ s. s.before ≡ self) }
        ensures after { IfOk result (λ s. s.after ≡ (answer self body.now).head) }
        ensures taken { IfOk result (λ s. (answer self body.now).status ≡ 204) }
        ensures message { IfOk result (λ s. HasStoredBody body.now self.store s.after.store) }
        ensures status { IfErr result (λ e. e.1 ≢ 503 → e.1 ≡ (answer self body.now).status) }
        ensures head { IfErr result (λ e. e.1 ≢ 503 → e.0 ≡ (answer self body.now).head) }
        ensures no_memory { IfErr result (λ e. e.1 ≡ 503 → (e.0 ≡ self) × (self.busy ≡ 0)) }
        ensures readable { IfErr result (λ e. e.1 ≡ 503 → SpellsMessage body.now) }
        ensures statuses { IfErr result (λ e. IsStatus e.1) }
        ensures refused { IfErr result (λ e. e.1 ≢ 204) }
        ensures begins { (l : Labels) → Begins (list_of self.store l)
            (list_of (answer self body.now).head.store l) }
    {
        let Head {
            alloc,
            mut table,
            bounds,
            busy,
            memory: _,
        } = self;
        if busy > 0 {
            let head = Head {
                alloc,
                table,
                bounds,
                busy: busy - 1,
                memory: PhantomData,
            };
            return Err((head, 429));
        }
        let places = table.places();
        match stage_body(&mut table, &bounds, body) {
            Ok(()) => Ok(StagedHead {
                alloc,
                table,
                bounds,
                places,
                memory: PhantomData,
            }),
            Err(verdict) => {
                table.abort();
                let head = Head {
                    alloc,
                    table,
                    bounds,
                    busy,
                    memory: PhantomData,
                };
                Err((head, status_of(verdict)))
            }
        }
    }
}

impl<M: Memory> StagedHead<M> {
    /// Returns what the message adds: each label set that gets new samples, once. A sample that the
    /// head holds already is not new. This takes no memory.
    pub fn added(&self) -> AllAdded<'_>
        ensures list { result ≡ self.now.added }
        ensures adds { AddsUp self.now.before.store self.now.after.store result }
    {
        self.table.added()
    }

    /// Returns whether the message takes the samples or the label sets of the head above the
    /// capacity, as `Head::admit` judges it. This takes no memory, and constant time.
    pub fn exceeds(&self, capacity: &Capacity) -> bool
        ensures exceeds { result
            ≡ exceeds capacity.now self.now.before.store self.now.after.store }
        ensures limited { IsTrue result → capacity.now ≢ unlimited }
    {
        self.table.exceeds(capacity, self.places)
    }

    /// Returns the head with the message. This takes no memory.
    pub fn commit(self) -> Head<M>
        ensures head { result ≡ self.after }
        ensures more { total self.before.store ≤ total result.store }
        ensures rises { EachRises result.store }
        ensures begins { (l : Labels) → Begins (list_of self.before.store l)
            (list_of result.store l) }
        ensures blocks { KeepsBlocks self.before.store result.store }
    {
        let StagedHead {
            alloc,
            mut table,
            bounds,
            ..
        } = self;
        table.commit();
        Head {
            alloc,
            table,
            bounds,
            busy: 0,
            memory: PhantomData,
        }
    }

    /// Returns the head without the message. This takes no memory.
    pub fn abort(self) -> Head<M>
        ensures { result ≡ self.before }
    {
        let StagedHead {
            alloc,
            table,
            bounds,
            ..
        } = self;
        let mut kept = table;
        kept.abort();
        Head {
            alloc,
            table: kept,
            bounds,
            busy: 0,
            memory: PhantomData,
        }
    }
}

//! A head that holds no more than its capacity.

ghost use Rattle.std.specs.Prelude.{◌≡◌, ◌≢◌, ◌≤◌, false, true};
ghost use Rattle.rw_head.specs.declared.capacity.Admission.TheVariants.{Answered, Full};
ghost use Rattle.rw_head.specs.Blocks.{KeepsBlocks};
ghost use Rattle.rw_head.specs.Capacity.{answer_within, exceeds, status_of_admission, unlimited, StaysWithin};
ghost use Rattle.rw_head.specs.Growth.{EachRises, HasStoredBody};
ghost use Rattle.rw_head.specs.Head.{answer, judged_body, status_of, IsStatus, SpellsMessage};
ghost use Rattle.rw_head.specs.Store.{total};
ghost use Rattle.rw_write_request.specs.Read.{read};

use crate::body::stage_body;
use crate::capacity::{Admission, Capacity};
use crate::head::{Head, status_of};
use crate::memory::Memory;

impl<M: Memory> Head<M> {
    /// Takes the message that a body spells, unless that would take the head above the capacity.
    fn admit_body(&mut self, body: &[u8], capacity: &Capacity) -> Admission
        ensures status { status_of_admission result ≢ 503
            → status_of_admission result
            ≡ status_of (judged_body self.old (read body.now)).verdict }
        ensures store { status_of_admission result ≢ 503
            → self.new.store ≡ (judged_body self.old (read body.now)).store }
        ensures readable { status_of_admission result ≡ 503 → SpellsMessage body.now }
        ensures statuses { IsStatus (status_of_admission result) }
        ensures limits { self.new.limits ≡ self.old.limits }
        ensures busy { self.new.busy ≡ self.old.busy }
        ensures refused { status_of_admission result ≢ 204 → self.new.store ≡ self.old.store }
        ensures taken { status_of_admission result ≡ 204
            → HasStoredBody body.now self.old.store self.new.store }
        ensures more { total self.old.store ≤ total self.new.store }
        ensures rises { EachRises self.new.store }
        ensures blocks { KeepsBlocks self.old.store self.new.store }
        ensures within { StaysWithin capacity.now self.old.store self.new.store }
        ensures full { result ≡ Full → exceeds capacity.now self.old.store
            (judged_body self.old (read body.now)).store ≡ true }
        ensures room { result ≢ Full → exceeds capacity.now self.old.store self.new.store ≡ false }
        ensures limited { result ≡ Full → capacity.now ≢ unlimited }
    {
        let places = self.table.places();
        let staged = stage_body(&mut self.table, &self.bounds, body);
        match staged {
            Ok(()) if self.table.exceeds(capacity, places) => {
                self.table.abort();
                Admission::Full
            }
            Ok(()) => {
                self.table.commit();
                Admission::Answered(204)
            }
            Err(verdict) => {
                self.table.abort();
                Admission::Answered(status_of(verdict))
            }
        }
    }

    /// Answers the body of a request as `answer` does, unless the message would take the number of
    /// samples or of series above the capacity. Then the head is full: nothing is stored, and the
    /// status is 503. A count that the message does not raise is not limited, so repeats are
    /// answered with 204 by a head that is at its capacity or above it. The message is judged once,
    /// and its samples are held until then, so this takes the memory that `answer` takes.
    pub fn admit(&mut self, body: &[u8], capacity: &Capacity) -> Admission
        ensures status { status_of_admission result ≢ 503
            → status_of_admission result ≡ (answer self.old body.now).status }
        ensures head { status_of_admission result ≢ 503
            → self.new ≡ (answer self.old body.now).head }
        ensures unavailable { status_of_admission result ≡ 503
            → (self.new ≡ self.old) × (self.old.busy ≡ 0) }
        ensures readable { status_of_admission result ≡ 503 → SpellsMessage body.now }
        ensures statuses { IsStatus (status_of_admission result) }
        ensures refused { status_of_admission result ≢ 204 → self.new.store ≡ self.old.store }
        ensures taken { status_of_admission result ≡ 204
            → HasStoredBody body.now self.old.store self.new.store }
        ensures more { total self.old.store ≤ total self.new.store }
        ensures rises { EachRises self.new.store }
        ensures blocks { KeepsBlocks self.old.store self.new.store }
        ensures within { StaysWithin capacity.now self.old.store self.new.store }
        ensures full { result ≡ Full → exceeds capacity.now self.old.store
            (answer self.old body.now).head.store ≡ true }
        ensures repeats { result ≡ Full → (answer self.old body.now).head.store ≢ self.old.store }
        ensures limited { result ≡ Full → capacity.now ≢ unlimited }
        ensures exact_status { result ≢ Answered 503
            → status_of_admission result ≡ (answer_within capacity.now self.old body.now).status }
        ensures exact_head { result ≢ Answered 503
            → self.new ≡ (answer_within capacity.now self.old body.now).head }
    {
        if self.busy > 0 {
            self.busy -= 1;
            return Admission::Answered(429);
        }
        self.admit_body(body, capacity)
    }
}

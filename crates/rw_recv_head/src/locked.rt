//! The value under the lock.

ghost use Rattle.std.specs.Prelude.{◌≡◌, ◌≢◌, ℕ, ◌+◌, ◌<◌, ◌≤◌, [], ◌∷◌, ◌++◌, Some, Ok, IfOk, length, slice_get};
ghost use Rattle.rw_head.specs.declared.capacity.Admission.TheVariants.{Full};
ghost use Rattle.rw_head.specs.Capacity.{status_of_admission, unlimited, StaysWithin};
ghost use Rattle.rw_head.specs.Head.{answer, IsStatus};
ghost use Rattle.rw_head.specs.Store.{total, label_sets};
ghost use Rattle.rw_head.specs.Growth.{EachRises};
ghost use Rattle.rw_head.specs.Partial.{takeable};
ghost use Rattle.rw_recv_head.specs.Partly.{HasAskedPartly, TakesRest};
ghost use Rattle.rw_write_request.specs.Read.{read};
ghost use Rattle.rw_recv_head.specs.Seats.{most, bodies_of, store_after, HasAdmitted, HasAsked, FindsFull};
ghost use Rattle.rw_recv_head.specs.declared.question.Question.{Question};

use crate::admit::Admit;
use crate::naming::Holding;
use crate::part_answer::PartAnswer;
use crate::questions::Questions;
use crate::seat::Seat;
use rw_head::{Admission, Capacity, InMemory};
use rw_write_request::{Message, WireFault, decode, encode, reads_spellings};
use std::alloc::{AllocError, Global};
use std::marker::Model;
use std::sync::ledger::{Share, Total};

/// A head, what it was asked, and the rest of its ledger: how many samples could still be stored.
/// Contracts see the head and the questions.
#[derive(Drop)]
pub(crate) struct Locked<L: Holding<H>, H: Admit> {
    holder: H,
    questions: Questions<L>,
    rest: Share<L>,
    capacity: Capacity,
}

impl<L: Holding<H>, H: Admit> Model for Locked<L, H> {
    ghost use Rattle.std.specs.Coded.{codes};
    ghost use Rattle.std.specs.FinMap as map;
    ghost use Rattle.std.specs.Prelude.{◌≡◌};
    ghost use Rattle.rw_head.specs.Capacity.{StaysWithin};
    ghost use Rattle.rw_recv_head.specs.Seats.{HasAdmitted};
    ghost use Rattle.rw_recv_head.specs.inner.Seats.{Held, IsKept};

    ghost Value = { Held };

    ghost coded = { Prim.hlevel (codes, map.code) };

    ghost view = { λ l. record { head = H.state l.holder; questions = l.questions } };

    ghost invariant = { λ l. IsKept L.opening L.parts
        (record { head = H.state l.holder; questions = l.questions }) l.rest.parts l.rest.amount
        × StaysWithin L.table.capacity L.opening.store (H.state l.holder).store
        × (l.capacity ≡ L.table.capacity)
        × HasAdmitted H.admits L.first l.questions.asked l.holder };
}

impl<L: Holding<H>, H: Admit> Locked<L, H> {
    /// Returns a head that was not asked anything yet, with the number of samples that could still
    /// be stored, and with its capacity.
    pub(crate) fn new(
        holder: H,
        questions: Questions<L>,
        rest: Share<L>,
        capacity: Capacity,
    ) -> Locked<L, H>
        requires opening { H.state holder ≡ L.opening }
        requires first { L.first ≡ Some holder }
        requires capacity { capacity ≡ L.table.capacity }
        requires nothing { questions.asked ≡ [] }
        requires all_given { L.parts ≡ questions.given + 1 }
        requires none_back { questions.back ≡ [] }
        requires one_part { rest.parts ≡ 1 }
        requires adds_up { total (H.state holder).store + rest.amount ≡ most }
        requires rises { EachRises (H.state holder).store }
        ensures { result ≡ record { head = H.state holder; questions = questions } }
    {
        Locked {
            holder,
            questions,
            rest,
            capacity,
        }
    }

    /// Returns the head, what it was asked, and the number of samples that could still be stored.
    pub(crate) fn into_parts(self) -> (H, Questions<L>, Share<L>)
        ensures head { H.state result.0 ≡ self.head }
        ensures questions { result.1 ≡ self.questions }
        ensures holds { (H.state result.0).store
            ≡ store_after L.opening (bodies_of result.1.asked) }
        ensures limits { (H.state result.0).limits ≡ L.opening.limits }
        ensures each { (n : ℕ) (q : Question) → slice_get result.1.asked n ≡ Some q
            → q.seat < result.1.given }
        ensures all_given { L.parts ≡ result.1.given + 1 }
        ensures none_back { result.1.back ≡ [] }
        ensures one_part { result.2.parts ≡ 1 }
        ensures adds_up { total self.head.store + result.2.amount ≡ most }
        ensures rises { EachRises self.head.store }
        ensures within { StaysWithin L.table.capacity L.opening.store (H.state result.0).store }
        ensures admitted { HasAdmitted H.admits L.first result.1.asked result.0 }
    {
        (self.holder, self.questions, self.rest)
    }

    /// Asks the head, notes the question, and moves as many samples as the head stored from the
    /// rest to the seat, which then has seen all questions.
    pub(crate) fn answer(&mut self, all: &Total<L>, seat: &mut Seat<L>, body: &[u8]) -> Admission
        requires fits { all.now.amount ≤ most }
        ensures status { status_of_admission result ≢ 503
            → status_of_admission result ≡ (answer self.old.head body.now).status }
        ensures head { status_of_admission result ≢ 503
            → self.new.head ≡ (answer self.old.head body.now).head }
        ensures no_memory { status_of_admission result ≡ 503
            → (self.new.head ≡ self.old.head) × (self.old.head.busy ≡ 0) }
        ensures statuses { IsStatus (status_of_admission result) }
        ensures asked { HasAsked L.opening seat.old body.now (status_of_admission result) seat.new }
        ensures seen { seat.new.asked ≡ self.new.questions.asked }
        ensures noted { self.new.questions.asked ≡ self.old.questions.asked ++ record {
          seat = seat.old.number;
          body = body.now;
          status = status_of_admission result;
        } ∷ [] }
        ensures full { result ≡ Full
            → FindsFull L.table.capacity L.opening seat.new.asked body.now }
        ensures limited { result ≡ Full → L.table.capacity ≢ unlimited }
        ensures admitted { (last : H) × HasAdmitted H.admits L.first seat.new.asked last }
    {
        let before = self.holder.total();
        let admission = self.holder.admit(body, &self.capacity);
        seat.note(&mut self.questions, admission.status(), body);
        let after = self.holder.total();
        seat.take(all, &mut self.rest, after - before);
        admission
    }

    /// Returns the canonical spelling of what the head can take of a message.
    fn spell_takeable(&mut self, alloc: Global, message: Message) -> Result<Vec<u8>, AllocError>
        ensures same { self.new ≡ self.old }
        ensures spells { IfOk result (λ v. read v.items ≡ Ok (takeable L.opening.limits
            (store_after L.opening (bodies_of self.old.questions.asked)) message)) }
    {
        reads_spellings();
        let part = self.holder.takeable(message)?;
        let text = encode(alloc, &part)?;
        Ok(text)
    }

    /// Asks for what the head can take of a body that this seat was refused last.
    fn answer_rest(
        &mut self,
        all: &Total<L>,
        alloc: Global,
        seat: &mut Seat<L>,
        body: &[u8],
    ) -> PartAnswer
        requires fits { all.now.amount ≤ most }
        requires seen { seat.old.asked ≡ self.old.questions.asked }
        ensures rest { TakesRest L.opening seat.old body.now result.status seat.new }
        ensures seen { seat.new.asked ≡ self.new.questions.asked }
        ensures statuses { IsStatus result.status }
    {
        reads_spellings();
        let message = match decode(alloc, body) {
            Ok(message) => message,
            Err(fault) if fault == WireFault::OutOfMemory => return PartAnswer::of(503),
            Err(_) => return PartAnswer::of(400),
        };
        let Ok(text) = self.spell_takeable(alloc, message) else {
            return PartAnswer::of(503);
        };
        let admission = self.answer(all, seat, &text);
        PartAnswer::to(admission, text)
    }

    /// Asks the head as `answer` does, and if it refuses the body, for what it can take of it.
    pub(crate) fn answer_partly(
        &mut self,
        all: &Total<L>,
        alloc: Global,
        seat: &mut Seat<L>,
        body: &[u8],
    ) -> PartAnswer
        requires fits { all.now.amount ≤ most }
        ensures asked { HasAskedPartly L.opening seat.old body.now result.status seat.new }
        ensures seen { seat.new.asked ≡ self.new.questions.asked }
        ensures statuses { IsStatus result.status }
    {
        let admission = self.answer(all, seat, body);
        let status = admission.status();
        if status != 400 {
            return PartAnswer::whole(admission);
        }
        self.answer_rest(all, alloc, seat, body)
    }

    /// Law: what is under the lock was asked these questions, one after the other. The call does
    /// nothing.
    pub(crate) fn conforms(&self)
        ensures { (last : H) × HasAdmitted H.admits L.first self.now.questions.asked last }
    {
        let _ = &self.holder;
    }

    /// Lets samples go from memory, as `Admit::forget` does.
    pub(crate) fn forget(&mut self, before: i64) -> InMemory
        ensures { self.new ≡ self.old }
    {
        self.holder.forget(before)
    }

    /// Returns of how many label sets the head has samples.
    pub(crate) fn label_sets(&self) -> usize
        ensures { result ≡ length (label_sets (store_after L.opening
            (bodies_of self.now.questions.asked))) }
    {
        self.holder.places()
    }

    /// Returns how many samples the head holds.
    pub(crate) fn samples(&self) -> u64
        ensures total { result ≡ total (store_after L.opening
            (bodies_of self.now.questions.asked)) }
        ensures within { StaysWithin L.table.capacity L.opening.store
            (store_after L.opening (bodies_of self.now.questions.asked)) }
    {
        self.holder.total()
    }
}

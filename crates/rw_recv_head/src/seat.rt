//! A handle by which one thread asks the shared head.

ghost use Rattle.std.specs.Prelude.{◌≡◌, ◌≢◌, ◌+◌, ◌≤◌, ◌<◌, IsTrue, [], ◌∷◌, ◌++◌, length};
ghost use Rattle.rw_head.specs.Capacity.{unlimited, StaysWithin};
ghost use Rattle.rw_head.specs.Head.{IsStatus};
ghost use Rattle.rw_head.specs.Store.{total, label_sets};
ghost use Rattle.rw_recv_head.specs.inner.Questions.{IsSeat};
ghost use Rattle.rw_recv_head.specs.Partly.{HasAskedPartly};
ghost use Rattle.rw_recv_head.specs.Seats.{most, bodies_of, store_after, HasAdmitted, HasAsked, FindsFull};

use crate::admit::Admit;
use crate::naming::{HeadNaming, Holding};
use crate::questions::{Questions, Seen};
use crate::shared_head::SharedHead;
use std::alloc::Global;
use std::marker::Model;
use std::sync::Wait;
use std::sync::ledger::{Share, Total};

/// How a request was answered.
#[derive(Clone, Copy, Debug, PartialEq, Eq)]
pub struct SeatAnswer {
    /// 204, 400, 429 or 503.
    pub status: u16,
    /// Whether the status is 503 because the request would have taken the head above its capacity.
    pub is_full: bool,
    /// Of how many label sets the head has samples from then on.
    pub label_sets: usize,
    /// How many samples the head holds from then on.
    pub samples: u64,
}

/// How a request was answered of which was taken what can be taken.
#[derive(Debug, Drop)]
pub struct AskedPartly {
    /// The answer, and what the head holds then.
    pub asked: SeatAnswer,
    /// The body that was taken in place of the request's, which was refused as a whole.
    pub taken: Option<Vec<u8>>,
}

/// A handle by which one thread asks a shared head. Contracts see its number, how many samples its
/// requests stored, and what the head had been asked from all seats when this one asked last.
#[derive(Drop)]
pub struct Seat<L: HeadNaming> {
    stored: u64,
    share: Share<L>,
    seen: Seen<L>,
}

impl<L: HeadNaming> Model for Seat<L> {
    ghost use Rattle.std.specs.Prelude.{◌≡◌};
    ghost use Rattle.rw_recv_head.specs.Seats.{Seated};

    ghost Value = { Seated };

    ghost view = { λ s. record { number = s.seen.number; stored = s.stored; asked = s.seen.asked } };

    ghost invariant = { λ s. (s.share.parts ≡ 1) × (s.share.amount ≡ s.stored) };
}

impl<L: HeadNaming> Seat<L> {
    /// Returns a seat that has stored nothing.
    pub(crate) fn new(share: Share<L>, seen: Seen<L>) -> Seat<L>
        requires one_part { share.parts ≡ 1 }
        requires nothing { share.amount ≡ 0 }
        ensures { result ≡ record { number = seen.number; stored = 0; asked = seen.asked } }
    {
        Seat {
            stored: 0,
            share,
            seen,
        }
    }

    /// Moves samples from the rest of the ledger to this seat.
    pub(crate) fn take(&mut self, all: &Total<L>, rest: &mut Share<L>, count: u64)
        requires there { count ≤ rest.old.amount }
        requires part { 0 < rest.old.parts }
        requires fits { all.now.amount ≤ most }
        ensures stored { self.new ≡ record self.old { stored = self.old.stored + count } }
        ensures parts { rest.new.parts ≡ rest.old.parts }
        ensures amount { rest.new.amount + count ≡ rest.old.amount }
    {
        rest.transfer(&mut self.share, count);
        all.audit(&mut self.share);
        self.stored += count;
    }

    /// Notes what this seat was asked and how it was answered, and sees all questions.
    pub(crate) fn note(&mut self, questions: &mut Questions<L>, status: u16, body: &[u8])
        ensures questions { questions.new ≡ record questions.old {
          asked = questions.old.asked
              ++ record { seat = self.old.number; body = body.now; status = status } ∷ [];
        } }
        ensures seat { self.new ≡ record self.old { asked = questions.new.asked } }
        ensures is_seat { IsSeat questions.old self.old.number self.old.asked }
    {
        questions.push(&mut self.seen, status, body);
    }

    /// Returns the share of the ledger, and what was seen.
    pub(crate) fn into_parts(self) -> (Share<L>, Seen<L>)
        ensures parts { result.0.parts ≡ 1 }
        ensures amount { result.0.amount ≡ self.stored }
        ensures seen { result.1 ≡ record { number = self.number; asked = self.asked } }
    {
        (self.share, self.seen)
    }

    /// Returns how many samples the requests from this seat stored. This takes no memory.
    pub fn stored(&self) -> u64
        ensures { result ≡ self.now.stored }
    {
        self.stored
    }

    /// Returns the head's answer to a request's body, under the lock: 204, 400, 429 or 503, as
    /// `Head::admit` returns it for the capacity of the head. It may wait for the lock.
    pub fn answer<R: Wait, H: Admit>(
        &mut self,
        rt: &R,
        shared: &SharedHead<L, H>,
        body: &[u8],
    ) -> u16
    where
        L: Holding<H>,
        ensures statuses { IsStatus result }
        ensures asked { HasAsked L.opening self.old body.now result self.new }
        ensures admitted { (last : H) × HasAdmitted H.admits L.first self.new.asked last }
    {
        self.ask(rt, shared, body).status
    }

    /// Answers a request as `answer` does, and also returns whether the head was full, and how many
    /// label sets and samples it then holds.
    pub fn ask<R: Wait, H: Admit>(
        &mut self,
        rt: &R,
        shared: &SharedHead<L, H>,
        body: &[u8],
    ) -> SeatAnswer
    where
        L: Holding<H>,
        ensures statuses { IsStatus result.status }
        ensures asked { HasAsked L.opening self.old body.now result.status self.new }
        ensures label_sets { result.label_sets
            ≡ length (label_sets (store_after L.opening (bodies_of self.new.asked))) }
        ensures samples { result.samples
            ≡ total (store_after L.opening (bodies_of self.new.asked)) }
        ensures within { StaysWithin L.table.capacity L.opening.store
            (store_after L.opening (bodies_of self.new.asked)) }
        ensures full { IsTrue result.is_full → (result.status ≡ 503)
            × FindsFull L.table.capacity L.opening self.new.asked body.now }
        ensures limited { IsTrue result.is_full → L.table.capacity ≢ unlimited }
        ensures admitted { (last : H) × HasAdmitted H.admits L.first self.new.asked last }
    {
        shared.ask(rt, self, body)
    }

    /// Answers a request as `ask` does, and if the head refuses its body as a whole, takes what it
    /// can of it, under the same lock: the samples that the head takes one after the other, each
    /// judged after the ones before it. Then the answer is 400, or 503 if memory ran out for that
    /// or the head had no room for it, and nothing was taken. So 204 means that all was taken.
    pub fn ask_partly<R: Wait, H: Admit>(
        &mut self,
        rt: &R,
        alloc: Global,
        shared: &SharedHead<L, H>,
        body: &[u8],
    ) -> AskedPartly
    where
        L: Holding<H>,
        ensures statuses { IsStatus result.asked.status }
        ensures asked { HasAskedPartly L.opening self.old body.now result.asked.status self.new }
        ensures admitted { (last : H) × HasAdmitted H.admits L.first self.new.asked last }
    {
        shared.ask_partly(rt, alloc, self, body)
    }
}

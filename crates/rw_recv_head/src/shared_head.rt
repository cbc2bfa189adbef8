//! A head under a lock.

ghost use Rattle.std.specs.Prelude.{◌≡◌, ◌≢◌, ℕ, ◌+◌, ◌<◌, [], Some, IsTrue, IfOk, IfErr, length, slice_get, sum_by, vec_len};
ghost use Rattle.rw_head.specs.Capacity.{unlimited, StaysWithin};
ghost use Rattle.rw_head.specs.Head.{IsStatus};
ghost use Rattle.rw_head.specs.Store.{total, label_sets};
ghost use Rattle.rw_head.specs.Growth.{EachRises};
ghost use Rattle.rw_recv_head.specs.Partly.{HasAskedPartly};
ghost use Rattle.rw_recv_head.specs.Seats.{bodies_of, store_after, Seated, HasAdmitted, HasAsked, HasGathered, FindsFull};

use crate::admit::Admit;
use crate::blank::Blank;
use crate::locked::Locked;
use crate::naming::Holding;
use crate::part_answer::PartAnswer;
use crate::seat::{AskedPartly, Seat, SeatAnswer};
use rw_head::{Head, InMemory};
use std::alloc::{AllocError, Global};
use std::marker::Model;
use std::sync::ledger::Total;
use std::sync::{Mutex, Wait};

/// A head that threads ask under one lock. Contracts see how many samples it held when it was
/// shared, and among how many seats.
///
/// Whenever the lock is free, the timestamps of each list rise strictly, and the head's total is
/// that at the start with what the seats stored.
#[derive(Drop)]
pub struct SharedHead<L: Holding<H>, H: Admit = Head> {
    locked: Mutex<Locked<L, H>>,
    all: Total<L>,
}

impl<L: Holding<H>, H: Admit> Model for SharedHead<L, H> {
    ghost use Rattle.std.specs.Prelude.{◌≡◌, ◌-◌, ◌<◌, ◌≤◌};
    ghost use Rattle.rw_recv_head.specs.Seats.{Opening, most};

    ghost Value = { Opening };

    ghost view = { λ s. record { start = most - s.all.amount; seats = s.all.parts - 1 } };

    ghost invariant = { λ s. (s.all.amount ≤ most) × (0 < s.all.parts) × (s.all.parts ≡ L.parts) };
}

impl<L: Holding<H>, H: Admit> SharedHead<L, H> {
    /// Shares a head among `n` seats, which are numbered from 0, over a blank of `n` + 1 parts: one
    /// for each seat and one for the lock. The head has the capacity of the blank. If memory runs
    /// out, the head comes back as it was.
    pub fn seats(
        alloc: Global,
        blank: Blank,
        head: H,
        n: usize,
    ) -> Result<(SharedHead<L, H>, Vec<Seat<L>>), (H, AllocError)>
        requires seats { 0 < n }
        requires name { blank.name ≡ L.name }
        requires parts { (blank.parts ≡ n + 1) × (L.parts ≡ n + 1) }
        requires table { blank.table ≡ L.table }
        requires opening { H.state head ≡ L.opening }
        requires first { L.first ≡ Some head }
        ensures shared { IfOk result (λ r. r.0 ≡ record {
          start = total (H.state head).store;
          seats = n;
        }) }
        ensures seats { IfOk result (λ r. vec_len r.1 ≡ n) }
        ensures numbered { IfOk result (λ r. (k : ℕ) (s : Seated) → slice_get r.1.items k ≡ Some s
            → s ≡ record { number = k; stored = 0; asked = [] }) }
        ensures refused { IfErr result (λ e. e.0 ≡ head) }
    {
        let mut seats = Vec::new(alloc);
        if seats.reserve(n).is_err() {
            return Err((head, AllocError));
        }
        let capacity = blank.capacity();
        let (ledger, mut questions) = blank.named::<L>();
        let (mut book, mut rest) = ledger.open::<L>();
        book.add(&mut rest, u64::MAX - head.total());
        let all = book.close();
        for k in 0..n {
            let seen = questions.give(k as u64);
            seats.push_reserved(Seat::new(rest.split_off(1, 0), seen));
        }
        let locked = Mutex::new(Locked::new(head, questions, rest, capacity));
        Ok((SharedHead { locked, all }, seats))
    }

    /// Returns the answer to a body from a seat, under the lock.
    pub(crate) fn ask<R: Wait>(&self, rt: &R, seat: &mut Seat<L>, body: &[u8]) -> SeatAnswer
        ensures statuses { IsStatus result.status }
        ensures asked { HasAsked L.opening seat.old body.now result.status seat.new }
        ensures label_sets { result.label_sets
            ≡ length (label_sets (store_after L.opening (bodies_of seat.new.asked))) }
        ensures samples { result.samples
            ≡ total (store_after L.opening (bodies_of seat.new.asked)) }
        ensures within { StaysWithin L.table.capacity L.opening.store
            (store_after L.opening (bodies_of seat.new.asked)) }
        ensures full { IsTrue result.is_full → (result.status ≡ 503)
            × FindsFull L.table.capacity L.opening seat.new.asked body.now }
        ensures limited { IsTrue result.is_full → L.table.capacity ≢ unlimited }
        ensures admitted { (last : H) × HasAdmitted H.admits L.first seat.new.asked last }
    {
        let mut locked = self.locked.lock(rt);
        let admission = locked.answer(&self.all, seat, body);
        SeatAnswer {
            status: admission.status(),
            is_full: admission.is_full(),
            label_sets: locked.label_sets(),
            samples: locked.samples(),
        }
    }

    /// Returns the answer to a body from a seat, of which is taken what can be taken, under the
    /// lock.
    pub(crate) fn ask_partly<R: Wait>(
        &self,
        rt: &R,
        alloc: Global,
        seat: &mut Seat<L>,
        body: &[u8],
    ) -> AskedPartly
        ensures statuses { IsStatus result.asked.status }
        ensures asked { HasAskedPartly L.opening seat.old body.now result.asked.status seat.new }
        ensures admitted { (last : H) × HasAdmitted H.admits L.first seat.new.asked last }
    {
        let mut locked = self.locked.lock(rt);
        let PartAnswer {
            status,
            is_full,
            taken,
        } = locked.answer_partly(&self.all, alloc, seat, body);
        locked.conforms();
        let asked = SeatAnswer {
            status,
            is_full,
            label_sets: locked.label_sets(),
            samples: locked.samples(),
        };
        AskedPartly { asked, taken }
    }

    /// Lets samples go from memory that are earlier than `before`, in milliseconds since the Unix
    /// epoch, under the lock, if the head may forget. Returns what is left in memory. No answer to
    /// a seat shows it, except that 503 may come in place of another status. It may wait for the
    /// lock.
    pub fn forget<R: Wait>(&self, rt: &R, before: i64) -> InMemory {
        let mut locked = self.locked.lock(rt);
        locked.forget(before)
    }

    /// Returns the head, once all seats were returned. It holds what was reported to each of them
    /// as stored, has taken nothing that none of them was asked, and takes label sets by the limits
    /// that it had. What was under the lock was asked these questions one after the other, and
    /// nothing else. This takes no memory and never waits.
    pub fn gather(self, seats: Vec<Seat<L>>) -> H
        requires { vec_len seats ≡ self.seats }
        ensures gathered { (all : HasGathered L.opening seats.items (H.state result).store)
            × HasAdmitted H.admits L.first all.asked result }
        ensures limits { (H.state result).limits ≡ L.opening.limits }
        ensures total { total (H.state result).store
            ≡ self.start + sum_by (λ s. s.stored) seats.items }
        ensures rises { EachRises (H.state result).store }
        ensures within { StaysWithin L.table.capacity L.opening.store (H.state result).store }
    {
        let SharedHead { locked, all } = self;
        let (head, mut questions, mut rest) = locked.into_inner().into_parts();
        for seat in seats {
            let (share, seen) = seat.into_parts();
            questions.take_back(seen);
            rest.merge(share);
        }
        all.audit(&mut rest);
        head
    }
}

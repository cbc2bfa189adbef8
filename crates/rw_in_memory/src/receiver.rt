//! A receiver in the same process.

ghost use Rattle.std.specs.Prelude.{◌≡◌, ◌+◌, ◌<◌, [], All, IfOk, Some};

use rw_head::{Head, Limits};
use rw_recv_head::{Blank, Holding, Seat, SharedHead};
use std::alloc::{AllocError, Global};
use std::marker::{Brand, Model};

/// Which receiver it is: its head, the path of its endpoint, and the most bytes of a body that the
/// endpoint reads. Each call of a program picks it.
pub trait Endpoint {
    ghost use Rattle.std.specs.Prelude.{ℕ, List};

    ghost path: { List ℕ };

    ghost limit: { ℕ };
}

impl Endpoint for Brand {
    ghost use Rattle.std.specs.Prelude.{[]};

    ghost path = { [] };

    ghost limit = { 0 };
}

/// A receiver: the limits of its endpoint, and the head that it asks. Contracts see among how many
/// seats the head is shared.
#[derive(Drop)]
pub struct Receiver<L: Endpoint + Holding<Head>> {
    limits: Limits,
    shared: SharedHead<L>,
}

impl<L: Endpoint + Holding<Head>> Model for Receiver<L> {
    ghost use Rattle.std.specs.Prelude.{◌≡◌};
    ghost use Rattle.rw_recv_head.specs.Seats.{Opening};

    ghost Value = { Opening };

    ghost view = { λ r. r.shared };

    ghost invariant = { λ r. (r.limits.path ≡ L.path) × (r.limits.max_body_bytes ≡ L.limit) };
}

impl<L: Endpoint + Holding<Head>> Receiver<L> {
    /// Shares a head among `n` seats, which were not asked yet, over a blank of one part for each
    /// of them and one for the lock.
    pub fn open(
        alloc: Global,
        limits: Limits,
        blank: Blank,
        head: Head,
        seats: usize,
    ) -> Result<(Receiver<L>, Vec<Seat<L>>), AllocError>
        requires some { 0 < seats }
        requires name { blank.name ≡ L.name }
        requires parts { (blank.parts ≡ seats + 1) × (L.parts ≡ seats + 1) }
        requires table { blank.table ≡ L.table }
        requires opening { head ≡ L.opening }
        requires first { L.first ≡ Some head }
        requires path { limits.path ≡ L.path }
        requires limit { limits.max_body_bytes ≡ L.limit }
        ensures seats { IfOk result (λ r. r.0.seats ≡ seats) }
        ensures unasked { IfOk result (λ r. All (λ s. s.asked ≡ []) r.1.items) }
    {
        match SharedHead::seats(alloc, blank, head, seats) {
            Ok((shared, seats)) => Ok((Receiver { limits, shared }, seats)),
            Err((_, refused)) => Err(refused),
        }
    }

    /// Returns the limits of its endpoint.
    pub fn limits(&self) -> &Limits
        ensures path { result.now.path ≡ L.path }
        ensures limit { result.now.max_body_bytes ≡ L.limit }
    {
        &self.limits
    }

    /// Returns the head that its endpoint asks.
    pub fn shared(&self) -> &SharedHead<L>
        ensures { result.now ≡ self.now }
    {
        &self.shared
    }

    /// Returns the head that the seats share.
    pub fn into_shared(self) -> SharedHead<L>
        ensures { result ≡ self }
    {
        self.shared
    }
}

//! A seat that answers bodies.

ghost use Rattle.std.specs.Prelude.{◌≡◌};

use crate::receiver::{Endpoint, Receiver};
use rw_endpoint::Answer;
use rw_head::Head;
use rw_recv_head::{Holding, Seat};
use std::sync::{Arc, Wait};

/// Asks a seat for the bodies of a connection's requests, and notes what it answered last.
#[derive(Drop)]
pub(crate) struct Asker<R, L: Endpoint + Holding<Head>> {
    pub(crate) rt: R,
    pub(crate) receiver: Arc<Receiver<L>>,
    /// A seat of that receiver.
    pub(crate) seat: Seat<L>,
    pub(crate) status: Option<u16>,
}

impl<R: Drop, L: Endpoint + Holding<Head>> Asker<R, L> {
    /// Returns the seat.
    pub(crate) fn into_seat(self) -> Seat<L>
        ensures { result ≡ self.seat }
    {
        self.seat
    }
}

impl<R: Wait, L: Endpoint + Holding<Head>> Answer for Asker<R, L> {
    ghost use Rattle.std.specs.Prelude.{◌≡◌, Some};
    ghost use Rattle.rw_recv_head.specs.Seats.{HasAsked};

    ghost answers = { λ old body status new. HasAsked L.opening old.seat body status new.seat
        × (new.status ≡ Some status) };

    fn answer(&mut self, body: &[u8]) -> u16 {
        let status = self.seat.answer(&self.rt, self.receiver.shared(), body);
        self.status = Some(status);
        status
    }
}

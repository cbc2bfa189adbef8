//! A seat that answers bodies.

use rw_endpoint::Answer;
use rw_recv_head::{Admit, Head, Holding, Seat, SharedHead};
use std::sync::Wait;

/// A seat that is lent to answer the bodies of a connection's requests. Each answer may wait for
/// the lock.
#[derive(Drop)]
pub struct Asking<'a, R, L: Holding<H>, H: Admit = Head> {
    pub rt: &'a R,
    pub shared: &'a SharedHead<L, H>,
    /// A seat of that shared head.
    pub seat: &'a mut Seat<L>,
}

impl<R: Wait, L: Holding<H>, H: Admit> Answer for Asking<'_, R, L, H> {
    ghost use Rattle.std.specs.Prelude.{◌≡◌};
    ghost use Rattle.rw_recv_head.specs.Seats.{HasAsked};

    ghost answers = { λ old body status new. (new.seat.ghost_name ≡ old.seat.ghost_name)
        × HasAsked L.opening old.seat.now body status new.seat.now };

    fn answer(&mut self, body: &[u8]) -> u16 {
        self.seat.answer(self.rt, self.shared, body)
    }
}

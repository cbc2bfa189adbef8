//! Transports in memory, one for each shard.

ghost use Rattle.std.specs.Prelude.{◌≡◌, [], All};

use crate::line::Line;
use crate::receiver::{Endpoint, Receiver};
use rw_fleet::Connect;
use rw_head::Head;
use rw_recv_head::{Holding, Seat};
use rw_worker::Pause;
use std::alloc::{AllocError, Global};
use std::marker::Model;
use std::sync::{Arc, Wait};

/// A seat for each shard, while there are any, and a pause for each worker. Contracts see the
/// seats.
#[derive(Drop)]
pub struct Lines<R, L: Endpoint + Holding<Head>, P> {
    rt: R,
    alloc: Global,
    receiver: Arc<Receiver<L>>,
    seats: Vec<Seat<L>>,
    pause: P,
}

impl<R, L: Endpoint + Holding<Head>, P> Model for Lines<R, L, P> {
    ghost use Rattle.std.specs.Prelude.{◌≡◌, List, [], All};
    ghost use Rattle.rw_recv_head.specs.Seats.{Seated};

    ghost Value = { List Seated };

    ghost view = { λ l. l.seats.items };

    ghost invariant = { λ l. All (λ s. s.asked ≡ []) l.seats.items };
}

impl<R, L: Endpoint + Holding<Head>, P> Lines<R, L, P> {
    /// Returns transports over seats that were not asked yet.
    pub fn new(
        rt: R,
        alloc: Global,
        receiver: Arc<Receiver<L>>,
        seats: Vec<Seat<L>>,
        pause: P,
    ) -> Lines<R, L, P>
        requires { All (λ s. s.asked ≡ []) seats.items }
        ensures { result ≡ seats.items }
    {
        Lines {
            rt,
            alloc,
            receiver,
            seats,
            pause,
        }
    }
}

impl<R, L, P> Connect for Lines<R, L, P>
where
    R: Wait + Copy + Send + 'static,
    L: Endpoint + Holding<Head> + Send + Sync + 'static,
    P: Pause + Copy + Send + Drop + 'static,
{
    type T = Line<R, L>;

    type P = P;

    fn transport(&mut self, _epoch: u64, _shard: u32) -> Result<(Line<R, L>, P), AllocError> {
        let ours = self.receiver.clone()?;
        let theirs = self.receiver.clone()?;
        let Some(seat) = self.seats.pop() else {
            return Err(AllocError);
        };
        let line = Line::new(self.rt, self.alloc, ours, theirs, seat);
        Ok((line, self.pause))
    }
}

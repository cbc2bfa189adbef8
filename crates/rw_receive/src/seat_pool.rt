//! Seats that connections take, and give back as they end.

ghost use Rattle.std.specs.Prelude.{◌≡◌, ◌<◌, ◌⊎◌, IfOk, IfErr, OnOk, vec_len};
ghost use Rattle.rw_text.specs.declared.tool_fault.ToolFault.TheVariants.{OutOfMemory, Device};

use crate::connection::{ActiveConnection, Connection, start_connection};
use crate::forgetting::Forgetting;
use crate::next_connection::next_connection;
use crate::server_context::ServerContext;
use rw_follow::StopRequest;
use rw_recv_head::{Admit, HeadNaming, Holding, Seat, SharedHead};
use rw_text::ToolFault;
use std::alloc::{AllocError, Global};
use std::collections::VecDeque;
use std::marker::Model;
use std::net::TcpListener;
use std::sync::Wait;
use std::thread;
use std::thread::{Scope, Threads};
use std::time::{Clock, Duration};

/// How many milliseconds it sleeps between two looks for a free seat, while a client waits.
const SLEEP_MS: u64 = 2;

/// How many connections are checked for their end before each accept.
const SOME: usize = 16;

/// Seats, each free or with a connection. Contracts see how many there are.
#[derive(Drop)]
pub struct SeatPool<L: HeadNaming> {
    free: Vec<Seat<L>>,
    /// The connection that was not checked for longest is in front.
    active: VecDeque<ActiveConnection<L>>,
}

impl<L: HeadNaming> Model for SeatPool<L> {
    ghost use Rattle.std.specs.Prelude.{ℕ, ◌+◌, ◌≤◌, vec_len, vec_capacity};
    ghost use Rattle.std.specs.VecDeque.{deque_len, deque_capacity};

    ghost Value = { ℕ };

    ghost view = { λ p. vec_len p.free + deque_len p.active };

    ghost invariant = { λ p. (vec_len p.free + deque_len p.active ≤ vec_capacity p.free)
        × (vec_len p.free + deque_len p.active ≤ deque_capacity p.active) };
}

impl<L: HeadNaming> SeatPool<L> {
    /// Returns seats that are all free.
    pub fn new(alloc: Global, seats: Vec<Seat<L>>) -> Result<SeatPool<L>, AllocError>
        ensures { IfOk result (λ pool. pool ≡ vec_len seats) }
    {
        let active = VecDeque::with_capacity(alloc, seats.len())?;
        Ok(SeatPool {
            free: seats,
            active,
        })
    }

    /// Checks some connections, those that were not checked for longest, and frees the seats of
    /// those that have ended. Each seat keeps what it stored.
    fn free_ended<R: Threads>(&mut self, rt: &R, most: usize)
        ensures { self.new ≡ self.old }
    {
        for _ in 0..self.active.len().min(most) {
            let Some(active) = self.active.pop_front() else {
                break;
            };
            match active.try_end(rt) {
                Connection::Active(active) => self.active.push_back_reserved(active),
                Connection::Ended(seat) => self.free.push_reserved(seat),
            }
        }
    }

    /// Returns whether a seat is free. If none is known to be, it checks all connections.
    fn has_free<R: Threads>(&mut self, rt: &R) -> bool
        ensures { self.new ≡ self.old }
    {
        if self.free.is_empty() {
            self.free_ended(rt, usize::MAX);
        }
        !self.free.is_empty()
    }

    /// Waits for the connections, and returns all seats.
    pub fn into_seats<R: Threads>(self, rt: &R) -> Vec<Seat<L>>
        ensures { vec_len result ≡ self }
    {
        let SeatPool { free, active } = self;
        let mut seats = free;
        for connection in active.into_vec() {
            seats.push_reserved(connection.wait(rt));
        }
        seats
    }
}

/// Waits until a seat is free, or a stop is requested, and lets samples go meanwhile. While all
/// seats are taken, it asks connections that are silent or too slow to end.
fn wait_for_seat<L: Holding<H>, H: Admit, R: Threads + Wait + Clock>(
    pool: &mut SeatPool<L>,
    rt: &R,
    context: &ServerContext<'_>,
    shared: &SharedHead<L, H>,
    forgetting: &mut Forgetting,
)
    ensures { pool.new ≡ pool.old }
{
    for _ in rt.forever() {
        if pool.has_free(rt) || context.until.request() != StopRequest::Continue {
            break;
        }
        context.seat_request.make();
        forgetting.step(rt, context, shared);
        thread::sleep(rt, Duration::from_millis(SLEEP_MS));
    }
    context.seat_request.withdraw();
}

/// Serves the next connection in a thread of the scope, and returns whether one has come: in a
/// service until a stop, if it comes within a tick. If no seat is free, it waits for one; if a stop
/// is requested before, the connection is closed.
fn serve_next<
    's,
    E,
    L: Holding<H> + Send + Sync + 's,
    H: Admit + Drop + Send + 's,
    R: Threads + Wait + Clock + Sync,
>(
    pool: &mut SeatPool<L>,
    scope: &Scope<'s, E>,
    rt: &'s R,
    listener: &TcpListener,
    context: &'s ServerContext<'s>,
    shared: &'s SharedHead<L, H>,
    forgetting: &mut Forgetting,
) -> Result<bool, ToolFault>
    ensures kept { OnOk result (pool.new ≡ pool.old) }
    ensures faults { IfErr result (λ e. (e ≡ OutOfMemory) ⊎ (e ≡ Device)) }
{
    pool.free_ended(rt, SOME);
    let Some(accepted) = next_connection(rt, listener, context)? else {
        return Ok(false);
    };
    wait_for_seat(pool, rt, context, shared, forgetting);
    let Some(seat) = pool.free.pop() else {
        return Ok(true);
    };
    match start_connection(scope, rt, context, shared, accepted, seat)? {
        Connection::Active(active) => pool.active.push_back_reserved(active),
        Connection::Ended(seat) => pool.free.push_reserved(seat),
    }
    Ok(true)
}

/// Serves connection after connection until the service ends.
pub(crate) fn serve_each<
    's,
    E,
    L: Holding<H> + Send + Sync + 's,
    H: Admit + Drop + Send + 's,
    R: Threads + Wait + Clock + Sync,
>(
    pool: &mut SeatPool<L>,
    scope: &Scope<'s, E>,
    rt: &'s R,
    listener: &TcpListener,
    context: &'s ServerContext<'s>,
    shared: &'s SharedHead<L, H>,
) -> Result<(), ToolFault>
    ensures kept { OnOk result (pool.new ≡ pool.old) }
    ensures faults { IfErr result (λ e. (e ≡ OutOfMemory) ⊎ (e ≡ Device)) }
{
    let mut accepted: u64 = 0;
    let mut forgetting = Forgetting::new();
    for _ in rt.forever() {
        if context.until.is_reached(accepted) {
            break;
        }
        forgetting.step(rt, context, shared);
        if serve_next(pool, scope, rt, listener, context, shared, &mut forgetting)? {
            accepted = accepted.saturating_add(1);
        }
    }
    Ok(())
}

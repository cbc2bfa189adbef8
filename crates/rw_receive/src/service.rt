//! A service: connections that are served from seats until it ends.

ghost use Rattle.std.specs.Prelude.{◌≡◌, ◌+◌, ◌<◌, ◌⊎◌, IfOk, IfErr, vec_len, Some};
ghost use Rattle.rw_head.specs.Capacity.{StaysWithin};
ghost use Rattle.rw_receive.specs.Receiving.{HasServed};
ghost use Rattle.rw_text.specs.declared.tool_fault.ToolFault.TheVariants.{OutOfMemory, Device};

use crate::next_connection::prepare_accepts;
use crate::seat_pool::{SeatPool, serve_each};
use crate::server_context::ServerContext;
use rw_recv_head::{Admit, Blank, Holding, Seat, SharedHead};
use rw_text::ToolFault;
use std::net::TcpListener;
use std::sync::Wait;
use std::thread;
use std::thread::Threads;
use std::time::Clock;

/// Serves from all seats until the service ends, waits for the connections being served, and
/// returns the seats. The listener is closed before that wait: whoever comes then is refused at
/// once, and does not wait for those being served.
fn serve_from_seats<
    L: Holding<H> + Send + Sync,
    H: Admit + Drop + Send,
    R: Threads + Wait + Clock + Sync,
>(
    rt: &R,
    listener: TcpListener,
    context: &ServerContext<'_>,
    shared: &SharedHead<L, H>,
    seats: Vec<Seat<L>>,
) -> Result<Vec<Seat<L>>, ToolFault>
    ensures all { IfOk result (λ back. vec_len back ≡ vec_len seats) }
    ensures faults { IfErr result (λ e. (e ≡ OutOfMemory) ⊎ (e ≡ Device)) }
{
    thread::scope(
        thread::scope_env(),
        rt,
        move |scope| -> Result<Vec<Seat<L>>, ToolFault>
            ensures { IfOk result (λ back. vec_len back ≡ vec_len seats)
                × IfErr result (λ e. (e ≡ OutOfMemory) ⊎ (e ≡ Device)) }
        {
            let mut pool = SeatPool::new(context.alloc, seats)?;
            let served = serve_each(&mut pool, scope, rt, &listener, context, shared);
            drop(listener);
            let seats = pool.into_seats(rt);
            served?;
            Ok(seats)
        },
    )
}

/// Serves connections over one head until the service ends, at most `most` at once. Returns the
/// head that they leave, or what has it.
pub(crate) fn serve_head<
    L: Holding<H> + Send + Sync,
    H: Admit + Drop + Send,
    R: Threads + Wait + Clock + Sync,
>(
    rt: &R,
    context: &ServerContext<'_>,
    blank: Blank,
    holder: H,
    most: usize,
    listener: TcpListener,
) -> Result<H, ToolFault>
    requires some { 0 < most }
    requires name { blank.name ≡ L.name }
    requires parts { (blank.parts ≡ most + 1) × (L.parts ≡ most + 1) }
    requires table { blank.table ≡ L.table }
    requires opening { H.state holder ≡ L.opening }
    requires first { L.first ≡ Some holder }
    ensures received { IfOk result (HasServed H.state H.admits L.opening L.first most) }
    ensures within { IfOk result
        (λ last. StaysWithin L.table.capacity L.opening.store (H.state last).store) }
    ensures faults { IfErr result (λ e. (e ≡ OutOfMemory) ⊎ (e ≡ Device)) }
{
    prepare_accepts(&listener, &context.until)?;
    let Ok((shared, seats)) = SharedHead::<L, H>::seats(context.alloc, blank, holder, most) else {
        return Err(ToolFault::OutOfMemory);
    };
    let seats = serve_from_seats(rt, listener, context, &shared, seats)?;
    Ok(shared.gather(seats))
}

//! A connection that is served in a thread, or that has ended.

ghost use Rattle.std.specs.Prelude.{◌≡◌, IfErr};
ghost use Rattle.rw_text.specs.declared.tool_fault.ToolFault.TheVariants.{OutOfMemory};

use crate::accepted::Accepted;
use crate::server_context::{Served, ServerContext, serve_connection};
use crate::until::ServeUntil;
use rw_recv_head::{Admit, HeadNaming, Holding, Seat, SharedHead};
use rw_text::ToolFault;
use std::alloc::Global;
use std::sync::atomic::{AtomicBool, Ordering};
use std::sync::{Arc, Wait};
use std::thread::{JoinHandle, Scope, Threads};
use std::time::Clock;

/// A connection that is served in a thread. It is one value, so that the thread is joined only
/// after its end was seen.
#[derive(Drop)]
pub(crate) struct ActiveConnection<L: HeadNaming> {
    thread: JoinHandle<Seat<L>>,
    /// Whether it has ended, but for the thread's last steps.
    has_ended: Arc<AtomicBool, Global>,
}

/// What became of a connection.
#[derive(Drop)]
pub(crate) enum Connection<L: HeadNaming> {
    /// It is served in a thread.
    Active(ActiveConnection<L>),
    /// It has ended, and gave its seat back.
    Ended(Seat<L>),
}

/// Closes a connection for which memory ran out. It ends a service for a number of connections.
fn close_unserved<L: HeadNaming>(
    context: &ServerContext<'_>,
    seat: Seat<L>,
) -> Result<Connection<L>, ToolFault>
    ensures { IfErr result (λ e. e ≡ OutOfMemory) }
{
    match &context.until {
        ServeUntil::Connections(_) => Err(ToolFault::OutOfMemory),
        ServeUntil::Stop(_) => Ok(Connection::Ended(seat)),
    }
}

/// Serves a connection in a thread of the scope. If no thread can be made, a service until a stop
/// serves it in this one, and one for a number of connections ends.
pub(crate) fn start_connection<
    's,
    E,
    L: Holding<H> + Send + Sync + 's,
    H: Admit + Drop + Send + 's,
    R: Wait + Clock + Sync,
>(
    scope: &Scope<'s, E>,
    rt: &'s R,
    context: &'s ServerContext<'s>,
    shared: &'s SharedHead<L, H>,
    accepted: Accepted,
    seat: Seat<L>,
) -> Result<Connection<L>, ToolFault>
    ensures { IfErr result (λ e. e ≡ OutOfMemory) }
{
    let Ok(has_ended) = Arc::new(context.alloc, AtomicBool::new(false)) else {
        return close_unserved(context, seat);
    };
    let Ok(theirs) = Arc::try_clone(&has_ended) else {
        return close_unserved(context, seat);
    };
    let work = move || {
        let Served {
            seat,
            conversation: _,
        } = serve_connection(rt, context, shared, accepted, seat);
        theirs.store(true, Ordering::SeqCst);
        seat
    };
    match (scope.spawn(work), &context.until) {
        (Ok(thread), _) => Ok(Connection::Active(ActiveConnection { thread, has_ended })),
        (Err(_), ServeUntil::Connections(_)) => Err(ToolFault::OutOfMemory),
        (Err(refused), ServeUntil::Stop(_)) => Ok(Connection::Ended((refused.value)())),
    }
}

impl<L: HeadNaming> ActiveConnection<L> {
    /// Returns what has become of it by now. It never waits.
    pub(crate) fn try_end<R: Threads>(self, rt: &R) -> Connection<L> {
        if self.has_ended.load(Ordering::SeqCst) {
            Connection::Ended(self.wait(rt))
        } else {
            Connection::Active(self)
        }
    }

    /// Waits for its end, and returns its seat.
    pub(crate) fn wait<R: Threads>(self, rt: &R) -> Seat<L> {
        self.thread.join(rt)
    }
}

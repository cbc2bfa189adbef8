//! Accepts connections one at a time.

ghost use Rattle.std.specs.Prelude.{◌≡◌, IfErr};
ghost use Rattle.rw_text.specs.declared.tool_fault.ToolFault.TheVariants.{Device};

use crate::accepted::Accepted;
use crate::server_context::ServerContext;
use crate::timed_stream::TICK_MS;
use crate::until::ServeUntil;
use rw_socket::limit_accepts;
use rw_text::ToolFault;
use std::net::TcpListener;
use std::thread;
use std::time::{Clock, Duration};

/// Makes each `accept` of the listener give up after a tick, if a stop may be requested meanwhile.
pub(crate) fn prepare_accepts(
    listener: &TcpListener,
    until: &ServeUntil<'_>,
) -> Result<(), ToolFault>
    ensures { IfErr result (λ e. e ≡ Device) }
{
    match until {
        ServeUntil::Connections(_) => Ok(()),
        ServeUntil::Stop(_) => match limit_accepts(listener, Duration::from_millis(TICK_MS)) {
            Ok(()) => Ok(()),
            Err(_) => Err(ToolFault::Device),
        },
    }
}

/// Returns the next connection. In a service until a stop it is `None` if none comes within a tick.
/// If an accept fails there, for example because no descriptor is left, it is counted, and followed
/// by a sleep of a tick; one that was interrupted, or whose client has gone, is not. In a service
/// for a number of connections an accept that brings none is a fault.
pub(crate) fn next_connection<C: Clock>(
    clock: &C,
    listener: &TcpListener,
    context: &ServerContext<'_>,
) -> Result<Option<Accepted>, ToolFault>
    ensures { IfErr result (λ e. e ≡ Device) }
{
    match (Accepted::accept(listener), &context.until) {
        (Ok(Some(accepted)), _) => Ok(Some(accepted)),
        (_, ServeUntil::Connections(_)) => Err(ToolFault::Device),
        (Ok(None), _) => Ok(None),
        (Err(_), _) => {
            context.counters.refuse_connection();
            thread::sleep(clock, Duration::from_millis(TICK_MS));
            Ok(None)
        }
    }
}

//! One connection, served to its end.

ghost use Rattle.rw_receive.specs.Conversations.{HasAnsweredAll};

use crate::accepted::{Accepted, Conversation};
use crate::bodies::{BodyBounds, SharedRoom};
use crate::counting_seat::CountingSeat;
use crate::request_trace::RequestTrace;
use crate::seat_request::SeatRequest;
use crate::take_options::TakeOptions;
use crate::until::ServeUntil;
use rw_head::Limits;
use rw_metrics::ReceiveCounters;
use rw_recv_head::{Admit, HeadNaming, Holding, Seat, SharedHead};
use rw_types::Bounded;
use std::alloc::Global;
use std::sync::Wait;
use std::time::Clock;

/// What all connections of a service share.
#[derive(Clone, Copy, Drop)]
pub struct ServerContext<'a> {
    /// Where memory is taken for a connection.
    pub alloc: Global,
    /// The limits of the head.
    pub limits: &'a Limits,
    /// What ends the service. Once a stop is requested, connections end.
    pub until: ServeUntil<'a>,
    /// For how many milliseconds a connection may be silent.
    pub idle_ms: Bounded<10, 3_600_000>,
    /// How many milliseconds a request may take, and a reply; one more for each byte of a request.
    pub request_ms: Bounded<10, 3_600_000>,
    /// The bounds of unfinished bodies.
    pub bodies: BodyBounds,
    /// How much of them is in memory. No clause says anything about it.
    pub room: &'a SharedRoom,
    /// What is taken of requests that would otherwise be refused.
    pub takes: TakeOptions,
    /// For how many milliseconds samples stay in memory, if the head may forget; none for all.
    pub memory_ms: Option<u64>,
    /// Made while a client waits for a seat. No clause says anything about it.
    pub seat_request: &'a SeatRequest,
    /// They count each connection and each request. No clause says anything about them.
    pub counters: &'a ReceiveCounters,
}

/// A seat that has served a connection, and what went over that connection.
#[derive(Drop)]
pub(crate) struct Served<L: HeadNaming> {
    pub(crate) seat: Seat<L>,
    /// What the answers of the seat were given for, which contracts see.
    pub(crate) conversation: Conversation,
}

/// Serves a connection from a seat until it closes, shuts it down gracefully, and returns the seat.
/// The connection is counted as open meanwhile. If it took too long it is closed at once, without
/// waiting for its client.
pub(crate) fn serve_connection<L: Holding<H>, H: Admit, R: Wait + Clock>(
    rt: &R,
    context: &ServerContext<'_>,
    shared: &SharedHead<L, H>,
    accepted: Accepted,
    seat: Seat<L>,
) -> Served<L>
    // The seat was asked what the connection brought, and its answers went back.
    ensures answered { HasAnsweredAll context.now.limits.now context.now.takes L.opening seat
        result.conversation result.seat }
{
    context.counters.begin_connection();
    let explains = context.takes.explains;
    let trace = RequestTrace::new(context.alloc, context.counters, accepted.peer(), explains);
    let mut asking = CountingSeat {
        rt,
        shared,
        seat,
        context,
        trace: &trace,
    };
    let conversation = accepted.serve(rt, context, &trace, &mut asking);
    context.counters.end_connection();
    Served {
        seat: asking.into_seat(),
        conversation,
    }
}

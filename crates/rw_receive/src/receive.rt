//! The command `receive`, over any listener and writer.

ghost use Rattle.std.specs.Prelude.{◌≡◌, ◌⊎◌, true, false, Err, IfErr, IfOk, OnOk, Some};
ghost use Rattle.std.specs.Io.KnownBytes.{Appends};
ghost use Rattle.rw_head.specs.Capacity.{StaysWithin};
ghost use Rattle.rw_receive.specs.Receiving.{AppendsPart, HasServed, WritesHeld, WritesHeldPart};
ghost use Rattle.rw_report_text.specs.StateText.{store_text};
ghost use Rattle.rw_text.specs.declared.tool_fault.ToolFault.TheVariants.{OutOfMemory, Device};

use crate::bodies::{BodyBounds, SharedRoom};
use crate::held::print_held;
use crate::seat_request::SeatRequest;
use crate::server_context::ServerContext;
use crate::service::serve_head;
use crate::take_options::TakeOptions;
use crate::until::ServeUntil;
use rw_head::{Capacity, Head, Limits};
use rw_metrics::ReceiveCounters;
use rw_recv_head::{Admit, Blank, Show};
use rw_settings::Settings;
use rw_text::ToolFault;
use rw_types::{Bounded, Sink};
use std::alloc::Global;
use std::marker::Brand;
use std::net::TcpListener;
use std::sync::Wait;
use std::thread::Threads;
use std::time::Clock;

/// What ends a service, its bounds, and its counters.
#[derive(Clone, Copy, Drop)]
pub struct Service<'a> {
    pub until: ServeUntil<'a>,
    /// How many connections are served at once; one more waits until one of them ends.
    pub most: Bounded<1, 1_000>,
    /// For how many milliseconds a connection may be silent.
    pub idle_ms: Bounded<10, 3_600_000>,
    /// How many milliseconds a request may take, and a reply; one more for each byte of a request.
    pub request_ms: Bounded<10, 3_600_000>,
    /// The bounds of requests that are not answered yet.
    pub bodies: BodyBounds,
    /// How much the head may hold. A request that would add more is answered with 503, and changes
    /// nothing.
    pub capacity: Capacity,
    /// What is taken of requests that would otherwise be refused.
    pub takes: TakeOptions,
    /// For how many milliseconds samples stay in memory, by their timestamps, if the head may
    /// forget (`Head<RecentSamples>`); none for all of them. No clause says anything about it.
    pub memory_ms: Option<u64>,
    /// They count each connection and each request. No clause says anything about them.
    pub counters: &'a ReceiveCounters,
}

/// What a service leaves.
#[derive(Drop)]
pub struct Received<H> {
    /// The head, or what has it.
    pub holder: H,
    /// How printing what the head holds has ended.
    pub printed: Result<(), ToolFault>,
}

/// Serves connections over this head, or over what has it, until the service ends, and returns it
/// as they leave it. A seat is used again once its connection has ended. Each connection has a
/// thread. How a connection ends is not a fault.
///
/// A service for a number of connections ends once that many have come and ended. A failed accept
/// is `Device`, and a thread that cannot be made counts as out of memory; the connections that were
/// accepted before are still served to their ends. Once the last one has come, or none can be
/// accepted or served any more, the listener is closed, so that further clients are refused at
/// once.
///
/// In a service until a stop, a connection for which no thread can be made is served before the
/// next one is accepted. An accept that fails is repeated, after a sleep if it failed because
/// something ran out, such as descriptors. Once a stop is requested, the listener is closed. A
/// connection that is in a request finishes it, and each other one is closed; once an end at once
/// is requested, all connections are closed. The stop signal is looked at five times a second. A
/// listener whose accepts cannot be given a timeout is `Device`.
///
/// A connection from which no byte comes for `idle_ms` milliseconds is closed, and so is one whose
/// request is not complete after `request_ms` milliseconds and one more for each byte of it:
/// nothing of that request is taken. Nor has a request more time than `bodies` says, and if those
/// that are not answered yet have more bytes than it says, the ones that began first are closed. If
/// all seats are taken and a client waits for one, a
/// connection is closed that has been silent for a second, or whose request is more than a second
/// late at 1,000 bytes a second. A connection is closed on its writing side first; what the client
/// still writes is read and discarded until the client closes its own side, for a second at most,
/// so that it sees the last reply.
pub fn serve_connections<R: Threads + Wait + Clock + Sync, H: Admit + Drop + Send>(
    rt: &R,
    alloc: Global,
    limits: &Limits,
    service: Service<'_>,
    listener: TcpListener,
    holder: H,
) -> Result<H, ToolFault>
    ensures received { IfOk result
        (HasServed H.state H.admits (H.state holder) (Some holder) service.entry.most) }
    ensures within { IfOk result
        (λ last. StaysWithin service.entry.capacity (H.state holder).store (H.state last).store) }
    ensures faults { IfErr result (λ e. (e ≡ OutOfMemory) ⊎ (e ≡ Device)) }
{
    let most = service.most.get();
    let blank = Blank::with_capacity(alloc, most + 1, service.capacity)?;
    let seat_request = SeatRequest::new();
    let room = SharedRoom::new(alloc, service.bodies.max_bytes);
    let context = ServerContext {
        alloc,
        limits,
        until: service.until,
        idle_ms: service.idle_ms,
        request_ms: service.request_ms,
        bodies: service.bodies,
        room: &room,
        takes: service.takes,
        memory_ms: service.memory_ms,
        seat_request: &seat_request,
        counters: service.counters,
    };
    serve_head::<Brand, H, R>(rt, &context, blank, holder, most as usize, listener)
}

/// Serves connections over this head, or over what has it, as `serve_connections` does, and then
/// prints what it holds: for each label set with samples, by byte order of its list of (name,
/// value), `received LABELS` and for each sample ` T=VALUE`, the line ended by LF. If serving
/// fails, nothing is printed.
pub fn serve_and_print<R: Threads + Wait + Clock + Sync, H: Show + Drop + Send, W: Sink>(
    rt: &R,
    alloc: Global,
    limits: &Limits,
    service: Service<'_>,
    listener: TcpListener,
    holder: H,
    writer: &mut W,
) -> Result<Received<H>, ToolFault>
    ensures received { IfOk result (λ r. HasServed H.state H.admits (H.state holder) (Some holder)
        service.entry.most r.holder) }
    ensures within { IfOk result (λ r. StaysWithin service.entry.capacity
        (H.state holder).store (H.state r.holder).store) }
    ensures faults { IfErr result (λ e. (e ≡ OutOfMemory) ⊎ (e ≡ Device)) }
    ensures untouched { IfErr result (λ _. writer.new ≡ writer.old) }

    // What is written is the text of what the head holds that is returned.
    ensures ok { IfOk result (λ r. OnOk r.printed
        (Appends (W.contents writer.old) (W.contents writer.new)
        (store_text (H.state r.holder).store))) }
    ensures sound { IfOk result (λ r. OnOk r.printed
        (W.has_failed writer.old ≡ false → W.has_failed writer.new ≡ false)) }
    ensures print_faults { IfOk result (λ r. IfErr r.printed
        (λ e. (e ≡ OutOfMemory) ⊎ (e ≡ Device))) }
    ensures memory { IfOk result (λ r. r.printed ≡ Err OutOfMemory → writer.new ≡ writer.old) }
    ensures device { IfOk result (λ r. r.printed ≡ Err Device → (W.has_failed writer.new ≡ true)
        × AppendsPart (W.contents writer.old) (W.contents writer.new)
        (store_text (H.state r.holder).store)) }
{
    // A copy: the borrow checker of the prover does not follow `service` through `?`.
    let bounds = Service {
        until: service.until,
        most: service.most,
        idle_ms: service.idle_ms,
        request_ms: service.request_ms,
        bodies: service.bodies,
        capacity: service.capacity,
        takes: service.takes,
        memory_ms: service.memory_ms,
        counters: service.counters,
    };
    let holder = serve_connections(rt, alloc, limits, bounds, listener, holder)?;
    let printed = print_held(alloc, holder.head(), writer);
    Ok(Received { holder, printed })
}

/// Serves connections over one head that the limits of the settings make, and then prints what it
/// holds, as `serve_and_print` does.
pub fn run_receive<R: Threads + Wait + Clock + Sync, W: Sink>(
    rt: &R,
    alloc: Global,
    settings: &Settings,
    service: Service<'_>,
    listener: TcpListener,
    writer: &mut W,
) -> Result<(), ToolFault>
    ensures ok { OnOk result (WritesHeld settings.now.limits service.entry.capacity
        service.entry.most (W.contents writer.old) (W.contents writer.new)) }
    ensures sound { OnOk result
        (W.has_failed writer.old ≡ false → W.has_failed writer.new ≡ false) }
    ensures faults { IfErr result (λ e. (e ≡ OutOfMemory) ⊎ (e ≡ Device)) }
    ensures memory { result ≡ Err OutOfMemory → writer.new ≡ writer.old }

    // A service that has failed has written nothing. If the writer fails, it holds a prefix of the
    // text.
    ensures device { result ≡ Err Device → (writer.new ≡ writer.old)
        ⊎ ((W.has_failed writer.new ≡ true)
        × WritesHeldPart settings.now.limits service.entry.capacity service.entry.most
        (W.contents writer.old) (W.contents writer.new)) }
{
    let head = Head::new(alloc, &settings.limits);
    // A copy: the borrow checker of the prover does not follow `service` through `?`.
    let bounds = Service {
        until: service.until,
        most: service.most,
        idle_ms: service.idle_ms,
        request_ms: service.request_ms,
        bodies: service.bodies,
        capacity: service.capacity,
        takes: service.takes,
        memory_ms: service.memory_ms,
        counters: service.counters,
    };
    let received = serve_and_print(rt, alloc, &settings.limits, bounds, listener, head, writer)?;
    received.printed
}

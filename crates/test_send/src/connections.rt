//! A sender and a receiver in one process, over the loopback interface.

use rw_head::Capacity;
use rw_metrics::{ReceiveCounters, SendCounters};
use rw_receive::{BodyBounds, ServeUntil, Service, TakeOptions, run_receive};
use rw_settings::{Settings, read_settings};
use rw_shard_core::{Target, request_bytes};
use rw_tcp::{SharedRoute, Sleep, TcpTransport, look_up};
use rw_text::ToolFault;
use rw_types::{Bounded, Room};
use rw_worker::{Lost, Pause, Reply, Transport};
use std::alloc::{AllocError, AllocGlobal, Global};
use std::io::{Read, Write};
use std::net::{Net, Shutdown, SocketAddr, TcpListener, TcpStream};
use std::rt::Files;
use std::sync::{Arc, Wait};
use std::test::Fail;
use std::thread::Threads;
use std::time::{Clock, Duration, Instant};
use std::{io, thread};

const UP_AT_1000: &[u8] = b"received {__name__=\"up\"} 1000=1\n";

const TAKEN_TWICE: &[u8] =
    b"HTTP/1.1 204 No Content\r\nConnection: close\r\n\r\nHTTP/1.1 204 No Content\r\nConnection: close\r\n\r\n";

/// The message of the sample 1 at 1000 of `{__name__="up"}`.
pub(crate) const UP_BODY: [u8; 32] = [
    0x0a, 0x1e, 0x0a, 0x0e, 0x0a, 0x08, 0x5f, 0x5f, 0x6e, 0x61, 0x6d, 0x65, 0x5f, 0x5f, 0x12, 0x02,
    0x75, 0x70, 0x12, 0x0c, 0x09, 0, 0, 0, 0, 0, 0, 0xf0, 0x3f, 0x10, 0xe8, 0x07,
];

/// Returns the request of a message.
pub(crate) fn request_of(alloc: Global, body: &[u8]) -> Result<Vec<u8>, AllocError> {
    request_bytes(alloc, &Target::standard(alloc)?, body)
}

/// What a client does.
#[derive(Clone, Copy)]
enum Client {
    /// It has a connection that says nothing until a second one has its reply.
    InTurn,
    /// It writes nothing on one connection, a request without its last byte on the next, and bytes
    /// that are not HTTP on the last.
    Stray,
    /// It asks this often by one transport.
    Asks(u64),
    /// It asks once, and at its first address nobody listens.
    AsksBehindDeserted,
    /// It asks three times, as `ask_behind_silent` does.
    AsksBehindSilent,
    /// It writes a whole request before it reads.
    WritesFirst,
    /// It comes again while its first connection is served, until it is refused.
    ComesAgain,
}

/// What a receiver is set to, and what a client does.
#[derive(Drop)]
struct Row<'a> {
    name: &'a str,
    settings: &'a [u8],
    connections: u64,
    /// How much the receiver may print.
    room: usize,
    client: Client,
    /// The body of each request.
    body: &'a [u8],
    /// What the client reads: replies, or the statuses of its asks.
    read: &'a [u8],
    ended: Result<(), ToolFault>,
    printed: &'a [u8],
}

/// Returns what is replied on two connections, of which the first says nothing until the second has
/// its reply.
fn replies_in_turn<N: Net<Stream = TcpStream>>(
    net: &N,
    alloc: Global,
    address: SocketAddr,
    request: &[u8],
) -> io::Result<Vec<u8>> {
    let mut first = TcpStream::connect(net, address)?;
    let mut second = TcpStream::connect(net, address)?;
    let mut replies = Vec::new(alloc);
    second.write_all(request)?;
    second.read_to_end(&mut replies)?;
    first.write_all(request)?;
    first.read_to_end(&mut replies)?;
    Ok(replies)
}

/// Returns what is replied to a request that is written whole before anything is read.
fn reply_after_all<N: Net<Stream = TcpStream>>(
    net: &N,
    alloc: Global,
    address: SocketAddr,
    request: &[u8],
) -> io::Result<Vec<u8>> {
    let mut stream = TcpStream::connect(net, address)?;
    let mut reply = Vec::new(alloc);
    stream.write_all(request)?;
    stream.read_to_end(&mut reply)?;
    Ok(reply)
}

/// Connects again and again while a first connection is open, and returns whether it was refused in
/// the end.
fn comes_again<N: Net<Stream = TcpStream> + Clock>(
    net: &N,
    alloc: Global,
    address: SocketAddr,
) -> io::Result<Vec<u8>> {
    let _first = TcpStream::connect(net, address)?;
    for _ in 0..1_000 {
        if TcpStream::connect_timeout(net, &address, Duration::from_secs(1)).is_err() {
            return Ok(Vec::from_slice(alloc, b"refused")?);
        }
        thread::sleep(net, Duration::from_millis(5));
    }
    Ok(Vec::new(alloc))
}

/// Writes nothing on one connection, a request without its last byte on the next, and bytes that
/// are not HTTP on the last.
fn stray<N: Net<Stream = TcpStream>>(
    net: &N,
    address: SocketAddr,
    request: &[u8],
) -> io::Result<()> {
    let (cut, _) = request.split_at(request.len().saturating_sub(1));
    let texts: [&[u8]; 3] = [b"", cut, b"EHLO\r\n\r\n"];
    for text in texts {
        let mut stream = TcpStream::connect(net, address)?;
        stream.write_all(text)?;
        stream.shutdown(Shutdown::Write)?;
    }
    Ok(())
}

/// Returns an address at which nobody listens any more.
fn deserted<N: Net<Stream = TcpStream, Listener = TcpListener>>(net: &N) -> io::Result<SocketAddr> {
    TcpListener::bind(net, "127.0.0.1:0")?.local_addr()
}

/// Returns the statuses of `count` requests with the same bytes, each after a space.
pub(crate) fn statuses<N: Net<Stream = TcpStream> + Clock + Files + AllocGlobal + Copy>(
    alloc: Global,
    transport: &mut TcpTransport<N>,
    count: u64,
    request: &[u8],
) -> io::Result<Vec<u8>> {
    let mut statuses = Vec::new(alloc);
    for _ in 0..count {
        let status = match transport.exchange(request) {
            Ok(Reply { status }) => status.as_u16(),
            Err(Lost) => 0,
        };
        statuses.extend_from_slice(format!(in alloc; " {status}")?.as_bytes())?;
    }
    Ok(statuses)
}

/// Returns a transport to these two addresses of a receiver, in this order, over a route that other
/// transports share.
fn transport_along<N: Net<Stream = TcpStream> + Clock + Files + AllocGlobal + Copy>(
    net: &N,
    alloc: Global,
    silent: SocketAddr,
    address: SocketAddr,
    route: Arc<SharedRoute, Global>,
) -> Result<TcpTransport<N>, AllocError> {
    let addresses: Vec<SocketAddr> = vec![in alloc; silent, address]?;
    let counters = Arc::new(alloc, SendCounters::new(alloc)?)?;
    let transport = TcpTransport::new(alloc, *net, addresses, Bounded::new(10_000), counters);
    Ok(transport.with_shared_route(route))
}

/// Returns the statuses of two requests. At the first address of the receiver nobody listens at the
/// first request, and somebody who answers nothing at the second one.
fn ask_twice<
    N: Net<Stream = TcpStream, Listener = TcpListener> + Clock + Files + AllocGlobal + Copy,
>(
    net: &N,
    alloc: Global,
    silent: SocketAddr,
    transport: &mut TcpTransport<N>,
    request: &[u8],
) -> io::Result<Vec<u8>> {
    let mut read = statuses(alloc, transport, 1, request)?;
    let _listener = TcpListener::bind(net, silent)?;
    read.extend_from_slice(&statuses(alloc, transport, 1, request)?)?;
    Ok(read)
}

/// Returns the statuses of three requests of which the first two are sent as `ask_twice` does, and
/// the third one by another transport, which shares the route.
fn ask_behind_silent<
    N: Net<Stream = TcpStream, Listener = TcpListener> + Clock + Files + AllocGlobal + Copy,
>(net: &N, alloc: Global, address: SocketAddr, request: &[u8]) -> io::Result<Vec<u8>> {
    let silent = deserted(net)?;
    let route = Arc::new(alloc, SharedRoute::new(alloc, "127.0.0.1", address.port())?)?;
    let mut first = transport_along(net, alloc, silent, address, Arc::try_clone(&route)?)?;
    let mut read = ask_twice(net, alloc, silent, &mut first, request)?;
    let mut second = transport_along(net, alloc, silent, address, route)?;
    read.extend_from_slice(&statuses(alloc, &mut second, 1, request)?)?;
    Ok(read)
}

/// Returns what a client reads.
fn read_by<N: Net<Stream = TcpStream, Listener = TcpListener> + Clock + Files + AllocGlobal + Copy>(
    net: &N,
    alloc: Global,
    client: Client,
    address: SocketAddr,
    request: &[u8],
) -> io::Result<Vec<u8>> {
    let (count, addresses) = match client {
        Client::InTurn => return replies_in_turn(net, alloc, address, request),
        Client::Stray => {
            stray(net, address, request)?;
            return Ok(Vec::new(alloc));
        }
        Client::WritesFirst => return reply_after_all(net, alloc, address, request),
        Client::AsksBehindSilent => return ask_behind_silent(net, alloc, address, request),
        Client::ComesAgain => return comes_again(net, alloc, address),
        Client::Asks(count) => (count, look_up(net, alloc, "127.0.0.1", address.port())?),
        Client::AsksBehindDeserted => (1, vec![in alloc; deserted(net)?, address]?),
    };
    let counters = Arc::new(alloc, SendCounters::new(alloc)?)?;
    let mut transport = TcpTransport::new(alloc, *net, addresses, Bounded::new(10_000), counters);
    statuses(alloc, &mut transport, count, request)
}

/// Returns whether a receiver and its client do as a row says, in two threads.
fn are_served<
    R: Net<Stream = TcpStream, Listener = TcpListener>
        + Threads
        + Wait
        + Clock
        + Copy
        + Send
        + Sync,
>(
    rt: &HostRuntime,
    threads: &R,
    row: &Row<'_>,
    settings: &Settings,
    request: &[u8],
    printed: &mut Room,
) -> io::Result<bool> {
    let alloc = rt.alloc();
    let Some(most) = Bounded::try_new(row.connections) else {
        return Ok(false);
    };
    let listener = TcpListener::bind(rt, "127.0.0.1:0")?;
    let address = listener.local_addr()?;
    let client = row.client;
    let counters = ReceiveCounters::new(alloc)?;
    let (read, ended) = thread::join(
        threads,
        || read_by(rt, alloc, client, address, request),
        || {
            let service = Service {
                until: ServeUntil::Connections(most.get()),
                most,
                idle_ms: Bounded::new(60_000),
                request_ms: Bounded::new(60_000),
                bodies: BodyBounds::none(),
                capacity: Capacity::unlimited(),
                takes: TakeOptions::whole(),
                memory_ms: None,
                counters: &counters,
            };
            run_receive(threads, alloc, settings, service, listener, printed)
        },
    );
    Ok(ended == row.ended && read?.as_slice() == row.read)
}

/// Returns whether a receiver with this setting and its client do as a row says.
fn does_with<
    R: Net<Stream = TcpStream, Listener = TcpListener>
        + Threads
        + Wait
        + Clock
        + Copy
        + Send
        + Sync,
>(rt: &HostRuntime, threads: &R, row: &Row<'_>, settings: &Settings) -> io::Result<bool> {
    let request = request_of(rt.alloc(), row.body)?;
    let mut printed = Room::new(rt.alloc(), row.room)?;
    let is_so = are_served(rt, threads, row, settings, &request, &mut printed)?;
    Ok(is_so && (row.ended.is_err() || printed.as_slice() == row.printed))
}

/// Returns whether everything is as a row says.
fn does<
    R: Net<Stream = TcpStream, Listener = TcpListener>
        + Threads
        + Wait
        + Clock
        + Copy
        + Send
        + Sync,
>(rt: &HostRuntime, threads: &R, row: &Row<'_>) -> Result<bool, Fail> {
    let settings = read_settings(rt.alloc(), row.settings)?;
    Ok(does_with(rt, threads, row, &settings)?)
}

/// Returns the name of the first row that differs.
fn wrong_row<
    R: Net<Stream = TcpStream, Listener = TcpListener>
        + Threads
        + Wait
        + Clock
        + Copy
        + Send
        + Sync,
>(rt: &HostRuntime, threads: &R) -> Result<Option<&'static str>, Fail> {
    for row in &ROWS {
        if !does(rt, threads, row)? {
            return Ok(Some(row.name));
        }
    }
    Ok(None)
}

static ROWS: [Row<'static>; 7] = [
    Row {
        name: "connections do not wait for one another",
        settings: b"",
        connections: 2,
        room: 4096,
        client: Client::InTurn,
        body: &UP_BODY,
        read: TAKEN_TWICE,
        ended: Ok(()),
        printed: UP_AT_1000,
    },
    // how a connection ends is not a fault
    Row {
        name: "nothing is held of nothing",
        settings: b"",
        connections: 3,
        room: 4096,
        client: Client::Stray,
        body: &UP_BODY,
        read: b"",
        ended: Ok(()),
        printed: b"",
    },
    // the receiver is busy for the first request, and takes the sample of the second
    Row {
        name: "a busy receiver takes the next request",
        settings: b"[receive]\nbusy_first = 1\n",
        connections: 2,
        room: 4096,
        client: Client::Asks(2),
        body: &UP_BODY,
        read: b" 429 204",
        ended: Ok(()),
        printed: UP_AT_1000,
    },
    Row {
        name: "the next address is tried",
        settings: b"",
        connections: 1,
        room: 4096,
        client: Client::AsksBehindDeserted,
        body: &UP_BODY,
        read: b" 204",
        ended: Ok(()),
        printed: UP_AT_1000,
    },
    Row {
        name: "the address that has answered is tried first",
        settings: b"",
        connections: 3,
        room: 4096,
        client: Client::AsksBehindSilent,
        body: &UP_BODY,
        read: b" 204 204 204",
        ended: Ok(()),
        printed: UP_AT_1000,
    },
    // the listener is closed once the last connection has come
    Row {
        name: "whoever comes late is refused",
        settings: b"",
        connections: 1,
        room: 4096,
        client: Client::ComesAgain,
        body: &UP_BODY,
        read: b"refused",
        ended: Ok(()),
        printed: b"",
    },
    // what is held does not fit into the writer
    Row {
        name: "a failed writer is a device fault",
        settings: b"",
        connections: 1,
        room: UP_AT_1000.len() - 1,
        client: Client::Asks(1),
        body: &UP_BODY,
        read: b" 204",
        ended: Err(ToolFault::Device),
        printed: b"",
    },
];

#[test]
fn what_is_sent_is_received(rt: HostRuntime) -> Result<(), Fail> {
    let wrong = wrong_row(&rt, &rt)?;
    assert_eq!(rt; wrong, None);
    Ok(())
}

const TOO_LARGE: &[u8] =
    b"HTTP/1.1 413 Content Too Large\r\nContent-Length: 0\r\nConnection: close\r\n\r\n";

/// Returns what a client reads whose body is over the limit.
fn refused<'a>(client: Client, body: &'a [u8], read: &'a [u8]) -> Row<'a> {
    Row {
        name: "a body over the limit",
        settings: b"[receive]\nmax_body_bytes = 1000\n",
        connections: 1,
        room: 4096,
        client,
        body,
        read,
        ended: Ok(()),
        printed: b"",
    }
}

/// The body is refused by its length alone, while most of it is still to be written. A client that
/// writes all of it first sees the reply too.
#[test]
fn a_body_over_the_limit_is_refused(rt: HostRuntime) -> Result<(), Fail> {
    let body: Vec<u8> = vec![in rt.alloc(); 0; 1 << 24]?;
    let asks = does(&rt, &rt, &refused(Client::Asks(1), &body, b" 413"))?;
    let writes = does(&rt, &rt, &refused(Client::WritesFirst, &body, TOO_LARGE))?;
    assert!(rt; asks, "a client that reads at once");
    assert!(rt; writes, "a client that writes all first");
    Ok(())
}

/// How many samples a long request has: some 200 KB of them.
const MANY: u16 = 6_250;

/// Returns a message of `MANY` samples 1 of `{__name__="up"}`, one each millisecond from 1000 on,
/// each in a series field of its own.
pub(crate) fn long_body(alloc: Global) -> Result<Vec<u8>, AllocError> {
    let (front, _) = UP_BODY.split_at(30);
    let mut body = Vec::new(alloc);
    for t in 1_000..1_000 + MANY {
        body.extend_from_slice(front)?;
        body.extend_from_slice(&[0x80 | (t % 0x80) as u8, (t / 0x80) as u8])?;
    }
    Ok(body)
}

/// Returns what is printed of it.
fn long_text(alloc: Global) -> Result<Vec<u8>, AllocError> {
    let mut text = Vec::from_slice(alloc, b"received {__name__=\"up\"}")?;
    for t in 1_000..1_000 + MANY {
        text.extend_from_slice(format!(in alloc; " {t}=1")?.as_bytes())?;
    }
    text.push(b'\n')?;
    Ok(text)
}

/// No single read or write takes such a request. Everything that it brings is held.
#[test]
fn a_long_request_arrives_whole(rt: HostRuntime) -> Result<(), Fail> {
    let body = long_body(rt.alloc())?;
    let printed = long_text(rt.alloc())?;
    let row = Row {
        name: "a long request",
        settings: b"",
        connections: 1,
        room: printed.len(),
        client: Client::Asks(1),
        body: &body,
        read: b" 204",
        ended: Ok(()),
        printed: &printed,
    };
    let is_so = does(&rt, &rt, &row)?;
    assert!(rt; is_so);
    Ok(())
}

/// A pause takes at least that long, and not seconds.
#[test]
fn a_pause_lasts_so_many_milliseconds(rt: HostRuntime) -> Result<(), Fail> {
    let start = Instant::now(&rt)?;
    Sleep::new(rt).pause(10);
    let gone = start.elapsed(&rt)?;
    assert!(rt; gone >= Duration::from_millis(10) && gone < Duration::from_secs(10));
    Ok(())
}

/// Returns whether a receiver whose listener does not wait for a connection fails, and prints
/// nothing.
fn fails_without_waiting<
    R: Net<Stream = TcpStream, Listener = TcpListener> + Threads + Wait + Clock + Sync,
>(rt: &R, alloc: Global, settings: &Settings) -> io::Result<bool> {
    let mut printed = Room::new(alloc, 4096)?;
    let listener = TcpListener::bind(rt, "127.0.0.1:0")?;
    listener.set_nonblocking(true)?;
    let counters = ReceiveCounters::new(alloc)?;
    let service = Service {
        until: ServeUntil::Connections(1_000),
        most: Bounded::new(1_000),
        idle_ms: Bounded::new(60_000),
        request_ms: Bounded::new(60_000),
        bodies: BodyBounds::none(),
        capacity: Capacity::unlimited(),
        takes: TakeOptions::whole(),
        memory_ms: None,
        counters: &counters,
    };
    let ended = run_receive(rt, alloc, settings, service, listener, &mut printed);
    Ok(ended == Err(ToolFault::Device) && printed.as_slice().is_empty())
}

/// A listener that does not wait fails if no connection has come.
#[test]
fn a_failed_accept_is_a_device_fault(rt: HostRuntime) -> Result<(), Fail> {
    let settings = read_settings(rt.alloc(), b"")?;
    assert!(rt; fails_without_waiting(&rt, rt.alloc(), &settings)?);
    Ok(())
}

/// Returns a transport to one address, with a timeout in milliseconds.
pub(crate) fn transport_to<N: Net<Stream = TcpStream> + Clock + Files + AllocGlobal + Copy>(
    net: &N,
    alloc: Global,
    address: SocketAddr,
    timeout: Bounded<1, 3_600_000>,
) -> Result<TcpTransport<N>, AllocError> {
    let addresses = vec![in alloc; address]?;
    let counters = Arc::new(alloc, SendCounters::new(alloc)?)?;
    Ok(TcpTransport::new(alloc, *net, addresses, timeout, counters))
}

/// Returns whether a request has no reply.
fn is_lost<N: Net<Stream = TcpStream> + Clock + Files + AllocGlobal + Copy>(
    transport: &mut TcpTransport<N>,
) -> bool {
    matches!(transport.exchange(b"POST"), Err(Lost))
}

/// Returns whether a request to this address has no reply within the timeout.
fn is_lost_at<N: Net<Stream = TcpStream> + Clock + Files + AllocGlobal + Copy>(
    net: &N,
    alloc: Global,
    address: SocketAddr,
    timeout: Bounded<1, 3_600_000>,
) -> Result<bool, AllocError> {
    Ok(is_lost(&mut transport_to(net, alloc, address, timeout)?))
}

/// Returns whether a request is lost that nobody answers within the timeout, and one to an address
/// at which nobody listens any more.
fn are_lost<
    N: Net<Stream = TcpStream, Listener = TcpListener> + Clock + Files + AllocGlobal + Copy,
>(net: &N, alloc: Global) -> io::Result<bool> {
    let listener = TcpListener::bind(net, "127.0.0.1:0")?;
    let address = listener.local_addr()?;
    let mut transport = transport_to(net, alloc, address, Bounded::new(50))?;
    let first = is_lost(&mut transport);
    drop(listener);
    Ok(first && is_lost(&mut transport))
}

#[test]
fn no_reply_is_lost(rt: HostRuntime) -> Result<(), Fail> {
    assert!(rt; are_lost(&rt, rt.alloc())?);
    Ok(())
}

/// Reads the request of one connection whole, and closes it without a reply.
fn hang_up(listener: TcpListener) -> io::Result<()> {
    let (mut stream, _) = listener.accept()?;
    stream.read_exact(&mut [0; 4])
}

/// Not even a request that was written whole and read whole counts as taken if no reply came.
#[test]
fn a_connection_that_is_closed_without_a_reply_is_lost(rt: HostRuntime) -> Result<(), Fail> {
    let alloc = rt.alloc();
    let listener = TcpListener::bind(&rt, "127.0.0.1:0")?;
    let address = listener.local_addr()?;
    let (is_lost, read) = thread::join(
        &rt,
        || is_lost_at(&rt, alloc, address, Bounded::new(60_000)),
        || hang_up(listener),
    );
    assert!(rt; is_lost? && read.is_ok());
    Ok(())
}

/// Writes the head of a reply to one connection, a byte each 20 ms, until the client has gone or 40
/// s have passed.
fn drip<R: Clock>(clock: &R, listener: TcpListener) -> io::Result<()> {
    let (mut stream, _) = listener.accept()?;
    stream.write_all(b"HTTP/1.1 204 No Content\r\nX: ")?;
    for _ in 0..2_000 {
        stream.write_all(b"x")?;
        thread::sleep(clock, Duration::from_millis(20));
    }
    Ok(())
}

/// The timeout, of 200 ms, holds for the attempt, and not for each read of it.
#[test]
fn a_reply_that_drips_is_lost(rt: HostRuntime) -> Result<(), Fail> {
    let alloc = rt.alloc();
    let listener = TcpListener::bind(&rt, "127.0.0.1:0")?;
    let address = listener.local_addr()?;
    let start = Instant::now(&rt)?;
    let (is_lost, _) = thread::join(
        &rt,
        || is_lost_at(&rt, alloc, address, Bounded::new(200)),
        || drip(&rt, listener),
    );
    let took = start.elapsed(&rt)?;
    assert!(rt; is_lost? && took < Duration::from_secs(10));
    Ok(())
}

//! A sender and a receiver in one process, over the loopback interface.

use crate::counted::holds_as_printed;
use crate::logs::{BEHIND, FALLS, NAMES, UP, segment};
use rw_head::Capacity;
use rw_metrics::{ReceiveCounters, SendCounters};
use rw_receive::{BodyBounds, ServeUntil, Service, TakeOptions, run_receive};
use rw_send::{LogOptions, SendOptions, StopFlag, TcpConnect, run_send};
use rw_sender::Connect;
use rw_settings::read_settings;
use rw_tcp::look_up;
use rw_types::{Bounded, Room};
use std::alloc::Global;
use std::net::{Net, SocketAddr, TcpListener, TcpStream};
use std::sync::{Arc, Wait};
use std::test::Fail;
use std::thread;
use std::thread::Threads;
use std::time::Clock;

/// A log that is sent to a receiver under the same settings.
struct Row<'a> {
    name: &'static str,
    settings: &'a [u8],
    /// How many connections the sender makes.
    connections: u64,
    log: &'a [u8],
    /// What the sender prints.
    sent: &'a [u8],
    /// What the receiver prints.
    held: &'a [u8],
}

const COMPLETE: &[u8] = b"filtered 0\nreport complete 2\n";

const HELD: &[u8] = b"received {__name__=\"up\"} 1000=1\n";

/// What is printed of names that are not sent.
const NOT_SENT: &[u8] = b"dropped 2 labels 3\ndropped 3 labels 3\nfiltered 0\nreport complete 4\n";

static ROWS: [Row<'static>; 9] = [
    Row {
        name: "one sample",
        settings: b"",
        connections: 1,
        log: UP,
        sent: COMPLETE,
        held: HELD,
    },
    Row {
        name: "a receiver that is busy at first",
        settings: b"[receive]\nbusy_first = 1\n",
        connections: 2,
        log: UP,
        sent: COMPLETE,
        held: HELD,
    },
    Row {
        name: "samples that do not rise",
        settings: b"",
        connections: 1,
        log: FALLS,
        sent: b"dropped 2 notrising\ndropped 3 notrising\nfiltered 0\nreport complete 5\n",
        held: b"received {__name__=\"up\"} 10=1 20=3\n",
    },
    Row {
        name: "two references of one series",
        settings: b"[send]\nshards = 3\n",
        connections: 1,
        log: BEHIND,
        sent: b"dropped 3 notrising\nfiltered 0\nreport complete 4\n",
        held: b"received {__name__=\"up\"} 20=1\n",
    },
    Row {
        name: "both take any name",
        settings: b"[send]\nnames = 'utf8'\n[receive]\nnames = 'utf8'\n",
        connections: 1,
        log: NAMES,
        sent: b"filtered 0\nreport complete 4\n",
        held: b"received {\"9x\"=\"1\"} 10=2\nreceived {__name__=\"http.rate\",\"s\xc3\xa4ge\"=\"1\"} 10=1\n",
    },
    Row {
        name: "the sender alone takes any name",
        settings: b"[send]\nnames = 'utf8'\n",
        connections: 1,
        log: NAMES,
        sent: b"dropped 2 status 400\ndropped 3 status 400\nfiltered 0\nreport complete 4\n",
        held: b"",
    },
    Row {
        name: "legacy names by default",
        settings: b"",
        connections: 0,
        log: NAMES,
        sent: NOT_SENT,
        held: b"",
    },
    Row {
        name: "the receiver alone takes any name",
        settings: b"[receive]\nnames = 'utf8'\n",
        connections: 0,
        log: NAMES,
        sent: NOT_SENT,
        held: b"",
    },
    Row {
        name: "both take legacy names",
        settings: b"[send]\nnames = 'legacy'\n[receive]\nnames = 'legacy'\n",
        connections: 0,
        log: NAMES,
        sent: NOT_SENT,
        held: b"",
    },
];

/// Connections to a receiver.
fn connect_to<N: Net<Stream = TcpStream> + Drop>(
    net: N,
    alloc: Global,
    listener: &TcpListener,
) -> Result<TcpConnect<N>, Fail> {
    let port = listener.local_addr()?.port();
    let addresses = look_up(&net, alloc, "127.0.0.1", port)?;
    let counters = Arc::new(alloc, SendCounters::new(alloc)?)?;
    Ok(TcpConnect::new(alloc, net, addresses, Bounded::new(10_000), counters))
}

/// Returns whether a receiver takes the connections of a sender, or one if the sender makes none,
/// ends well and has counted what it holds.
fn receives<R: Threads + Wait + Clock + Sync>(
    rt: &R,
    alloc: Global,
    row: &Row<'_>,
    listener: TcpListener,
    held: &mut Room,
) -> bool {
    let Some(most) = Bounded::try_new(row.connections.max(1)) else {
        return false;
    };
    let Ok(counters) = ReceiveCounters::new(alloc) else {
        return false;
    };
    let service = Service {
        until: ServeUntil::Connections(most.get()),
        most,
        idle_ms: Bounded::new(60_000),
        request_ms: Bounded::new(60_000),
        bodies: BodyBounds::none(),
        capacity: Capacity::unlimited(),
        takes: TakeOptions::whole(),
        memory_ms: None,
        counters: &counters,
    };
    let has_ended = match read_settings(alloc, row.settings) {
        Ok(settings) => run_receive(rt, alloc, &settings, service, listener, held).is_ok(),
        Err(_) => false,
    };
    has_ended && holds_as_printed(alloc, &counters, row.held)
}

/// Returns whether a sender ships a log and ends well.
fn sends<R: Threads + Wait + Clock + Copy + Send + 'static, C: Connect + Drop>(
    rt: &R,
    alloc: Global,
    row: &Row<'_>,
    log: &[u8],
    connect: C,
    printed: &mut Room,
) -> bool {
    let Ok(segments) = vec![in alloc; log] else {
        return false;
    };
    let Ok(counters) = SendCounters::new(alloc) else {
        return false;
    };
    let Ok(stop) = StopFlag::new(alloc) else {
        return false;
    };
    let options = SendOptions {
        connect,
        counters: &counters,
        max_batch_bytes: None,
        max_skew: None,
        reading: LogOptions::without_labels(false),
        stop,
    };
    match read_settings(alloc, row.settings) {
        Ok(settings) => run_send(rt, alloc, settings, segments, options, printed).is_ok(),
        Err(_) => false,
    }
}

/// Returns whether the sender made a connection, or another client can connect after it: a receiver
/// ends after one connection.
fn passes_by<N: Net<Stream = TcpStream>>(net: &N, row: &Row<'_>, address: SocketAddr) -> bool {
    row.connections > 0 || TcpStream::connect(net, address).is_ok()
}

/// A receiver that is busy for the first connection takes the sample of the second one. Samples
/// that are not later than the last one are listed and not sent, and so are those with names that
/// the sender does not accept.
#[test]
fn what_is_sent_is_received(rt: HostRuntime) -> Result<(), Fail> {
    let alloc = rt.alloc();
    for row in &ROWS {
        let name = row.name;
        let log = segment(alloc, row.log)?;
        let mut printed = Room::new(alloc, 4096)?;
        let mut held = Room::new(alloc, 4096)?;
        let listener = TcpListener::bind(&rt, "127.0.0.1:0")?;
        let address = listener.local_addr()?;
        let connect = connect_to(rt, alloc, &listener)?;
        let (received, sent) = thread::join(
            &rt,
            || receives(&rt, alloc, row, listener, &mut held),
            || sends(&rt, alloc, row, &log, connect, &mut printed) & passes_by(&rt, row, address),
        );
        let is_right = printed.as_slice() == row.sent && held.as_slice() == row.held;
        assert!(rt; received && sent && is_right, "{name}");
    }
    Ok(())
}

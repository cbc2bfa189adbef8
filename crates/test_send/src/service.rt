//! A receiver, which is stopped by a signal or ends after its connections, and its clients, in
//! threads of one process.

use crate::clients::{Clients, Door, read_by};
use crate::counted::holds_as_printed;
use crate::rows::none_is_wrong;
use rw_follow::StopSignal;
use rw_head::Capacity;
use rw_metrics::ReceiveCounters;
use rw_receive::{BodyBounds, ServeUntil, Service, TakeOptions, run_receive};
use rw_settings::{Settings, read_settings};
use rw_types::{Bounded, Room};
use std::alloc::Global;
use std::net::{Net, TcpListener, TcpStream};
use std::sync::Wait;
use std::test::Fail;
use std::thread::Threads;
use std::time::{Clock, Duration, Instant};
use std::{io, thread};

/// The bounds of a service, what clients do, how many replies they have, and what is printed at the
/// end.
#[derive(Drop)]
struct Row<'a> {
    name: &'static str,
    /// Whether it serves until it is stopped. Otherwise it serves as many connections as it may at
    /// once.
    has_sign: bool,
    most: u64,
    idle_ms: u64,
    request_ms: u64,
    bodies: BodyBounds,
    clients: Clients,
    replies: usize,
    printed: &'a [u8],
}

/// No bounds of bodies.
const UNBOUNDED: BodyBounds = BodyBounds {
    max_bytes: None,
    max_ms: None,
};

/// The reply to a request that is taken.
const TAKEN: &[u8] = b"HTTP/1.1 204 No Content\r\n\r\n";

/// Returns whether these are `count` replies to requests that were taken.
fn are_replies(read: &[u8], count: usize) -> bool {
    let mut left = read;
    for _ in 0..count {
        match left.strip_prefix(TAKEN) {
            Some(rest) => left = rest,
            None => return false,
        }
    }
    left.is_empty()
}

/// For how many seconds a service and its clients may run. No row asks for waits of more than two;
/// a slow machine may do other work.
const MOST_SECONDS: u64 = 15;

/// Returns whether a service and its clients were done in time.
fn is_quick<K: Clock>(clock: &K, begun: Instant) -> bool {
    matches!(begun.elapsed(clock), Ok(took) if took < Duration::from_secs(MOST_SECONDS))
}

/// The bounds of a service.
#[derive(Clone, Copy)]
struct Bounds {
    most: Bounded<1, 1_000>,
    idle_ms: Bounded<10, 3_600_000>,
    request_ms: Bounded<10, 3_600_000>,
    bodies: BodyBounds,
}

/// Returns the bounds of a row, or `None` if one of them is not allowed.
fn bounds_of(row: &Row<'_>) -> Option<Bounds> {
    Some(Bounds {
        most: Bounded::try_new(row.most)?,
        idle_ms: Bounded::try_new(row.idle_ms)?,
        request_ms: Bounded::try_new(row.request_ms)?,
        bodies: row.bodies,
    })
}

/// Returns a service with these bounds. Without the signal it serves as many connections as it may
/// at once.
fn service_of<'a>(
    bounds: Bounds,
    signal: Option<&'a StopSignal>,
    counters: &'a ReceiveCounters,
) -> Service<'a> {
    let until = match signal {
        Some(signal) => ServeUntil::Stop(signal),
        None => ServeUntil::Connections(bounds.most.get()),
    };
    Service {
        until,
        most: bounds.most,
        idle_ms: bounds.idle_ms,
        request_ms: bounds.request_ms,
        bodies: bounds.bodies,
        capacity: Capacity::unlimited(),
        takes: TakeOptions::whole(),
        memory_ms: None,
        counters,
    }
}

/// Returns whether a service and its clients do as a row says, in time, and are counted
/// accordingly.
fn does_with<R: Net<Stream = TcpStream, Listener = TcpListener> + Threads + Wait + Clock + Sync>(
    rt: &R,
    alloc: Global,
    row: &Row<'_>,
    settings: &Settings,
    printed: &mut Room,
) -> io::Result<bool> {
    let Some(bounds) = bounds_of(row) else {
        return Ok(false);
    };
    let listener = TcpListener::bind(rt, "127.0.0.1:0")?;
    let signal = StopSignal::new();
    let door = Door {
        net: rt,
        alloc,
        address: listener.local_addr()?,
        signal: &signal,
    };
    let counters = ReceiveCounters::new(alloc)?;
    let (clients, has_sign) = (row.clients, row.has_sign);
    let begun = Instant::now(rt)?;
    let (read, ended) = thread::join(
        rt,
        || read_by(&door, clients),
        || {
            let service = service_of(bounds, has_sign.then_some(&signal), &counters);
            run_receive(rt, alloc, settings, service, listener, printed)
        },
    );
    let is_counted = holds_as_printed(alloc, &counters, row.printed);
    let is_done = ended.is_ok() && is_quick(rt, begun);
    let has_replies = matches!(&read, Ok(read) if are_replies(read, row.replies));
    Ok(is_done && has_replies && is_counted)
}

/// Returns whether a service and its clients do as a row says, and it prints what the row says.
fn does<R: Net<Stream = TcpStream, Listener = TcpListener> + Threads + Wait + Clock + Sync>(
    rt: &R,
    alloc: Global,
    row: &Row<'_>,
) -> Result<bool, Fail> {
    let settings = read_settings(alloc, b"")?;
    let mut printed = Room::new(alloc, 4096)?;
    let is_so = does_with(rt, alloc, row, &settings, &mut printed)?;
    Ok(is_so && printed.as_slice() == row.printed)
}

/// Returns the name of the first row that differs.
fn wrong_row<R: Net<Stream = TcpStream, Listener = TcpListener> + Threads + Wait + Clock + Sync>(
    rt: &R,
    alloc: Global,
    rows: &[Row<'_>],
) -> Result<Option<&'static str>, Fail> {
    for row in rows {
        if !does(rt, alloc, row)? {
            return Ok(Some(row.name));
        }
    }
    Ok(None)
}

static ROWS: [Row<'static>; 11] = [
    Row {
        name: "a seat is used again",
        has_sign: true,
        most: 1,
        idle_ms: 60_000,
        request_ms: 60_000,
        bodies: UNBOUNDED,
        clients: Clients::InTurn,
        replies: 5,
        printed: b"received {__name__=\"up\"} 1000=1 1001=1 1002=1 1003=1 1004=1\n",
    },
    Row {
        name: "there are more seats than clients",
        has_sign: true,
        most: 1_000,
        idle_ms: 60_000,
        request_ms: 60_000,
        bodies: UNBOUNDED,
        clients: Clients::InTurn,
        replies: 5,
        printed: b"received {__name__=\"up\"} 1000=1 1001=1 1002=1 1003=1 1004=1\n",
    },
    Row {
        name: "clients side by side",
        has_sign: true,
        most: 2,
        idle_ms: 60_000,
        request_ms: 60_000,
        bodies: UNBOUNDED,
        clients: Clients::SideBySide,
        replies: 2,
        printed: b"received {__name__=\"up\"} 1000=1 1001=1\n",
    },
    Row {
        name: "a connection without a request is closed at the stop",
        has_sign: true,
        most: 2,
        idle_ms: 60_000,
        request_ms: 60_000,
        bodies: UNBOUNDED,
        clients: Clients::Stays,
        replies: 1,
        printed: b"received {__name__=\"up\"} 1000=1\n",
    },
    Row {
        name: "a connection in a request has its reply",
        has_sign: true,
        most: 2,
        idle_ms: 60_000,
        request_ms: 60_000,
        bodies: UNBOUNDED,
        clients: Clients::IsInside,
        replies: 2,
        printed: b"received {__name__=\"up\"} 1000=1 1001=1\n",
    },
    Row {
        name: "an end at once leaves a request without its reply",
        has_sign: true,
        most: 2,
        idle_ms: 60_000,
        request_ms: 60_000,
        bodies: UNBOUNDED,
        clients: Clients::IsCutOff,
        replies: 1,
        printed: b"received {__name__=\"up\"} 1000=1\n",
    },
    Row {
        name: "a silent client does not keep the only seat",
        has_sign: true,
        most: 1,
        idle_ms: 60_000,
        request_ms: 60_000,
        bodies: UNBOUNDED,
        clients: Clients::WritesOneByte,
        replies: 1,
        printed: b"received {__name__=\"up\"} 1000=1\n",
    },
    Row {
        name: "there is one client more than places",
        has_sign: true,
        most: 2,
        idle_ms: 60_000,
        request_ms: 60_000,
        bodies: UNBOUNDED,
        clients: Clients::OneTooMany,
        replies: 1,
        printed: b"received {__name__=\"up\"} 1000=1\n",
    },
    Row {
        name: "a seat is used again while another one is not",
        has_sign: true,
        most: 2,
        idle_ms: 60_000,
        request_ms: 60_000,
        bodies: UNBOUNDED,
        clients: Clients::OneStays,
        replies: 7,
        printed: b"received {__name__=\"up\"} 1000=1 1001=1 1002=1 1003=1 1004=1 1005=1 1006=1\n",
    },
    Row {
        name: "a silent client does not delay the end",
        has_sign: false,
        most: 2,
        idle_ms: 100,
        request_ms: 60_000,
        bodies: UNBOUNDED,
        clients: Clients::WritesOneByte,
        replies: 1,
        printed: b"received {__name__=\"up\"} 1000=1\n",
    },
    Row {
        name: "a client that writes on after its last reply does not delay the end",
        has_sign: false,
        most: 1,
        idle_ms: 60_000,
        request_ms: 60_000,
        bodies: UNBOUNDED,
        clients: Clients::WritesOn,
        replies: 1,
        printed: b"received {__name__=\"up\"} 1000=1\n",
    },
];

#[test]
fn a_service_serves_until_it_is_stopped(rt: HostRuntime) -> Result<(), Fail> {
    none_is_wrong(&rt, wrong_row(&rt, rt.alloc(), &ROWS)?);
    Ok(())
}

static LIMITS: [Row<'static>; 3] = [
    Row {
        name: "a client that says nothing is closed after the idle time",
        has_sign: true,
        most: 2,
        idle_ms: 400,
        request_ms: 60_000,
        bodies: UNBOUNDED,
        clients: Clients::SaysNothing,
        replies: 1,
        printed: b"received {__name__=\"up\"} 1000=1\n",
    },
    Row {
        name: "a request that drips is closed once its time is over",
        has_sign: true,
        most: 2,
        idle_ms: 60_000,
        request_ms: 200,
        bodies: UNBOUNDED,
        clients: Clients::Drips,
        replies: 1,
        printed: b"received {__name__=\"up\"} 1000=1\n",
    },
    Row {
        name: "each byte of a request gives it a millisecond more",
        has_sign: true,
        most: 2,
        idle_ms: 60_000,
        request_ms: 200,
        bodies: UNBOUNDED,
        clients: Clients::IsSteady,
        replies: 1,
        printed: b"received {__name__=\"up\"} 1000=1\n",
    },
];

/// A client may be silent for the idle time. A request may take its time, and a millisecond more
/// for each byte that has come.
#[test]
fn a_client_has_limited_time(rt: HostRuntime) -> Result<(), Fail> {
    none_is_wrong(&rt, wrong_row(&rt, rt.alloc(), &LIMITS)?);
    Ok(())
}

static BODY_BOUNDS: [Row<'static>; 3] = [
    Row {
        name: "an unfinished body makes room for a later one",
        has_sign: true,
        most: 2,
        idle_ms: 60_000,
        request_ms: 60_000,
        bodies: BodyBounds {
            max_bytes: Some(40_000),
            max_ms: None,
        },
        clients: Clients::LeavesOneUnfinished { is_closed: true },
        replies: 1,
        printed: b"received {__name__=\"up\"} 1000=1\n",
    },
    Row {
        name: "an unfinished body stays if there is room for both",
        has_sign: true,
        most: 2,
        idle_ms: 60_000,
        request_ms: 60_000,
        bodies: BodyBounds {
            max_bytes: Some(80_000),
            max_ms: None,
        },
        clients: Clients::LeavesOneUnfinished { is_closed: false },
        replies: 1,
        printed: b"received {__name__=\"up\"} 1000=1\n",
    },
    Row {
        name: "a request has no more than the longest time",
        has_sign: true,
        most: 2,
        idle_ms: 60_000,
        request_ms: 60_000,
        bodies: BodyBounds {
            max_bytes: None,
            max_ms: Some(200),
        },
        clients: Clients::Drips,
        replies: 1,
        printed: b"received {__name__=\"up\"} 1000=1\n",
    },
];

/// Unfinished bodies have limited room together, and limited time each.
#[test]
fn unfinished_bodies_are_bounded(rt: HostRuntime) -> Result<(), Fail> {
    none_is_wrong(&rt, wrong_row(&rt, rt.alloc(), &BODY_BOUNDS)?);
    Ok(())
}

static ONLY_SEAT: Row<'static> = Row {
    name: "a client that says nothing has the only seat",
    has_sign: true,
    most: 1,
    idle_ms: 60_000,
    request_ms: 60_000,
    bodies: UNBOUNDED,
    clients: Clients::SaysNothing,
    replies: 1,
    printed: b"received {__name__=\"up\"} 1000=1\n",
};

/// A silent client loses its seat to one that waits, long before the idle time is over.
#[test]
fn a_client_that_waits_is_served(rt: HostRuntime) -> Result<(), Fail> {
    let is_so = does(&rt, rt.alloc(), &ONLY_SEAT)?;
    assert!(rt; is_so);
    Ok(())
}

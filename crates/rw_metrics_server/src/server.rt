//! The endpoint of the pages.

ghost use Rattle.std.specs.Prelude.{◌≤◌};
ghost use Rattle.std.specs.VecDeque.{deque_len};

use crate::client::Client;
use rw_metrics::{Counters, PageSource};
use rw_socket::{accept, limit_accepts};
use std::alloc::{AllocGlobal, Global};
use std::collections::VecDeque;
use std::fs::Files;
use std::net::TcpListener;
use std::thread;
use std::time::{Clock, Duration};

/// How many clients may wait at once. The oldest of them is closed if one more comes.
const MOST_CLIENTS: usize = 16;

/// How many milliseconds an accept waits before the waiting clients are looked at.
const TICK_MS: u64 = 20;

/// How many milliseconds pass after an accept that failed, for example because no descriptor was
/// left.
const NAP_MS: u64 = 200;

/// Adds a client after those that wait. If there are as many as allowed, the oldest is closed; if
/// memory runs out, the new one is.
fn admit<C: Clock + Copy>(clients: &mut VecDeque<Client<C>>, client: Client<C>)
    requires few { deque_len clients.old ≤ 16 }
    ensures few { deque_len clients.new ≤ 16 }
{
    if clients.len() >= MOST_CLIENTS {
        drop(clients.pop_front());
    }
    let _ = clients.push_back(client);
}

/// Looks at each client that waits, and keeps those that are not done.
fn serve_each<C: Clock + Files + AllocGlobal + Copy>(
    alloc: Global,
    clients: &mut VecDeque<Client<C>>,
    source: &PageSource<C>,
)
    requires few { deque_len clients.old ≤ 16 }
    ensures few { deque_len clients.new ≤ 16 }
{
    for _ in 0..clients.len() {
        let Some(client) = clients.pop_front() else {
            break;
        };
        if let Some(client) = client.serve(alloc, source) {
            admit(clients, client);
        }
    }
}

/// Accepts a client, if one comes within a tick, and looks at all that wait.
fn serve_round<C: Clock + Files + AllocGlobal + Copy>(
    alloc: Global,
    host: C,
    listener: &TcpListener,
    clients: &mut VecDeque<Client<C>>,
    source: &PageSource<C>,
)
    requires few { deque_len clients.old ≤ 16 }
    ensures few { deque_len clients.new ≤ 16 }
{
    match accept(listener) {
        Ok(Some(stream)) => {
            if let Some(client) = Client::new(host, alloc, stream) {
                admit(clients, client);
            }
        }
        Ok(None) => {}
        Err(_) => thread::sleep(&host, Duration::from_millis(NAP_MS)),
    }
    serve_each(alloc, clients, source);
}

/// Answers `GET /metrics` with the page of the counters for Prometheus, `GET /` with their page for
/// people, `GET /-/healthy` and `GET /-/ready`, until the process ends. A client has 2 seconds in
/// all, and none of them waits for another. After an accept that fails the thread sleeps for a
/// moment and accepts again. If the listener cannot be given a timeout, those that wait are looked
/// at when the next one comes.
pub fn serve_metrics<C: Clock + Files + AllocGlobal + Copy>(
    host: C,
    alloc: Global,
    listener: &TcpListener,
    counters: Counters,
    version: String,
) {
    let source = PageSource::new(host, counters, version);
    let _ = limit_accepts(listener, Duration::from_millis(TICK_MS));
    let mut clients = VecDeque::new(alloc);
    for _ in 0..u64::MAX {
        serve_round(alloc, host, listener, &mut clients, &source);
    }
}

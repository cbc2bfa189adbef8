//! A sender that ships a log to a receiver.

use crate::receiver::{Bounds, answers};
use rw_follow::StopRequest;
use rw_log_commands::run_log;
use rw_metrics::SendCounters;
use rw_send::{LogOptions, SendOptions, StopFlag, TcpConnect, run_send};
use rw_sender::Connect;
use rw_settings::read_settings;
use rw_tcp::look_up;
use rw_types::{Bounded, Room};
use std::alloc::{AllocError, Global};
use std::net::{Net, TcpListener, TcpStream};
use std::sync::{Arc, Wait};
use std::test::Fail;
use std::thread;
use std::thread::Threads;
use std::time::{Clock, Duration};

/// One shard, and a request for each sample.
const SETTINGS: &[u8] = b"[send]\nbatch = 1\nmax_shards = 1\nmax_backoff_ms = 30\n";

/// Returns the segment of log text, of at most 4 pages.
pub(crate) fn segment(alloc: Global, text: &[u8]) -> Result<Vec<u8>, AllocError> {
    let mut reader = text;
    let mut writer = Room::new(alloc, 131_072)?;
    match run_log(alloc, &mut reader, &mut writer, false, 4) {
        Ok(()) => Ok(writer.into_bytes()),
        Err(_) => Err(AllocError),
    }
}

/// Connections to a receiver.
pub(crate) fn connect_to<N: Net<Stream = TcpStream> + Drop>(
    net: N,
    alloc: Global,
    listener: &TcpListener,
) -> Result<TcpConnect<N>, Fail> {
    let port = listener.local_addr()?.port();
    let addresses = look_up(&net, alloc, "127.0.0.1", port)?;
    let counters = Arc::new(alloc, SendCounters::new(alloc)?)?;
    Ok(TcpConnect::new(alloc, net, addresses, Bounded::new(10_000), counters))
}

/// Ships a segment, a request for each sample, and prints the report. Returns whether it ends well.
fn send<R: Threads + Wait + Clock + Copy + Send + 'static, C: Connect + Drop>(
    rt: &R,
    alloc: Global,
    log: &[u8],
    connect: C,
    stop: StopFlag,
    printed: &mut Room,
) -> bool {
    let Ok(segments) = vec![in alloc; log] else {
        return false;
    };
    let Ok(counters) = SendCounters::new(alloc) else {
        return false;
    };
    let options = SendOptions {
        connect,
        counters: &counters,
        max_batch_bytes: None,
        max_skew: None,
        reading: LogOptions::without_labels(false),
        stop,
    };
    match read_settings(alloc, SETTINGS) {
        Ok(settings) => run_send(rt, alloc, settings, segments, options, printed).is_ok(),
        Err(_) => false,
    }
}

/// Ends the sender once the signal says that one side has ended, or, if that is asked for, once the
/// receiver has answered 503 twice; after ten seconds at the latest.
fn end_sender<R: Clock>(
    rt: &R,
    alloc: Global,
    bounds: Bounds<'_>,
    is_refused: bool,
    workers: &StopFlag,
) {
    for _ in 0..1_000u32 {
        let has_ended = bounds.signal.request() != StopRequest::Continue;
        if has_ended || is_refused && answers(alloc, bounds.counters, 503) >= 2 {
            break;
        }
        thread::sleep(rt, Duration::from_millis(10));
    }
    workers.set();
}

/// Ships a segment to a receiver, and stops the receiver. A sender that is to be refused is ended
/// once it was. Returns whether the sender ended well.
pub(crate) fn ship<
    R: Threads + Wait + Clock + Copy + Send + Sync + 'static,
    C: Connect + Drop + Send,
>(
    rt: &R,
    alloc: Global,
    bounds: Bounds<'_>,
    log: &[u8],
    is_refused: bool,
    connect: C,
    printed: &mut Room,
) -> Result<bool, AllocError> {
    let stop = StopFlag::new(alloc)?;
    let workers = stop.share()?;
    let (is_sent, ()) = thread::join(
        rt,
        || {
            let is_sent = send(rt, alloc, log, connect, stop, printed);
            bounds.signal.finish();
            is_sent
        },
        || end_sender(rt, alloc, bounds, is_refused, &workers),
    );
    Ok(is_sent)
}

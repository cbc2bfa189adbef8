//! The page of the metrics, asked for over loopback.

use crate::connections::{UP_BODY, request_of};
use crate::folder::ready;
use crate::logs::{Torn, UP, segment};
use crate::shipped::settings_of;
use rw_ledger::Reason;
use rw_metrics::{
    Cause, Counters, ReceiveCounters, RefusalReason, SendCounters, Skipped, drops_line,
    receive_page, send_line,
};
use rw_metrics_server::serve_metrics;
use rw_send::{LogOptions, SendOptions, StopFlag, run_send};
use rw_text::ToolFault;
use rw_types::Room;
use std::alloc::{AllocError, Global};
use std::io;
use std::io::{Read, Write};
use std::net::{Net, SocketAddr, TcpListener, TcpStream};
use std::sync::{Arc, Wait};
use std::test::Fail;
use std::thread::{self, Threads};
use std::time::Clock;

/// A name, a request, and how its reply begins.
type Row<'a> = (&'static str, &'a [u8], &'a [u8]);

static ASKED: [Row<'static>; 10] = [
    (
        "the metrics",
        b"GET /metrics HTTP/1.1\r\nHost: a\r\n\r\n",
        b"HTTP/1.1 200 OK\r\nContent-Type: text/plain; version=0.0.4\r\n",
    ),
    (
        "the page",
        b"GET / HTTP/1.1\r\n\r\n",
        b"HTTP/1.1 200 OK\r\nContent-Type: text/html; charset=utf-8\r\n",
    ),
    (
        "whether it runs",
        b"GET /-/healthy HTTP/1.1\r\n\r\n",
        b"HTTP/1.1 200 OK\r\nContent-Type: text/plain; charset=utf-8\r\n",
    ),
    (
        "whether it serves",
        b"GET /-/ready HTTP/1.1\r\n\r\n",
        b"HTTP/1.1 200 OK\r\nContent-Type: text/plain; charset=utf-8\r\n",
    ),
    (
        "another method at /-/ready",
        b"POST /-/ready HTTP/1.1\r\n\r\n",
        b"HTTP/1.1 405 Method Not Allowed\r\n",
    ),
    (
        "another path",
        b"GET /metric HTTP/1.1\r\n\r\n",
        b"HTTP/1.1 404 Not Found\r\n",
    ),
    (
        "another method at /",
        b"POST / HTTP/1.1\r\n\r\n",
        b"HTTP/1.1 405 Method Not Allowed\r\n",
    ),
    (
        "another method at /metrics",
        b"POST /metrics HTTP/1.1\r\n\r\n",
        b"HTTP/1.1 405 Method Not Allowed\r\n",
    ),
    ("no HTTP", b"EHLO\r\n\r\n", b"HTTP/1.1 400 Bad Request\r\n"),
    ("half a request", b"GET /metrics", b""),
];

/// Asks whether the program is ready.
const READY: &[u8] = b"GET /-/ready HTTP/1.1\r\n\r\n";

const PAGE: &[u8] = b"# HELP rwship_receive_connections Open connections.
# TYPE rwship_receive_connections gauge
rwship_receive_connections 1
# HELP rwship_receive_connections_total Connections that were accepted.
# TYPE rwship_receive_connections_total counter
rwship_receive_connections_total 2
# HELP rwship_receive_accepts_failed_total Accepts that failed.
# TYPE rwship_receive_accepts_failed_total counter
rwship_receive_accepts_failed_total 1
# HELP rwship_receive_requests_total Requests that were answered, by status.
# TYPE rwship_receive_requests_total counter
rwship_receive_requests_total{code=\"204\"} 2
rwship_receive_requests_total{code=\"405\"} 1
rwship_receive_requests_total{code=\"429\"} 1
# HELP rwship_receive_refused_samples_total Samples of requests that were refused, by reason.
# TYPE rwship_receive_refused_samples_total counter
rwship_receive_refused_samples_total{reason=\"order\"} 0
rwship_receive_refused_samples_total{reason=\"labels\"} 0
rwship_receive_refused_samples_total{reason=\"limits\"} 0
rwship_receive_refused_samples_total{reason=\"body\"} 0
rwship_receive_refused_samples_total{reason=\"full\"} 0
rwship_receive_refused_samples_total{reason=\"unavailable\"} 0
rwship_receive_refused_samples_total{reason=\"busy\"} 2
# HELP rwship_receive_skipped_total Parts of acknowledged requests that are not held, by kind.
# TYPE rwship_receive_skipped_total counter
rwship_receive_skipped_total{kind=\"histogram\"} 1
rwship_receive_skipped_total{kind=\"exemplar\"} 0
rwship_receive_skipped_total{kind=\"metadata\"} 0
# HELP rwship_receive_samples_held Samples that are held.
# TYPE rwship_receive_samples_held gauge
rwship_receive_samples_held 17
# HELP rwship_receive_label_sets Label sets that are held.
# TYPE rwship_receive_label_sets gauge
rwship_receive_label_sets 3
# HELP rwship_receive_max_samples Limit of held samples; 0 if none.
# TYPE rwship_receive_max_samples gauge
rwship_receive_max_samples 0
# HELP rwship_receive_max_label_sets Limit of label sets; 0 if none.
# TYPE rwship_receive_max_label_sets gauge
rwship_receive_max_label_sets 0
";

/// Returns what is replied to a request that is all that a client writes.
fn reply_to<N: Net<Stream = TcpStream>>(
    net: &N,
    alloc: Global,
    address: SocketAddr,
    request: &[u8],
) -> io::Result<Vec<u8>> {
    let mut stream = TcpStream::connect(net, address)?;
    let mut reply = Vec::new(alloc);
    stream.write_all(request)?;
    stream.shutdown(std::net::Shutdown::Write)?;
    stream.read_to_end(&mut reply)?;
    Ok(reply)
}

/// Serves the pages of these counters in a thread.
fn serve<T: Threads>(
    threads: &T,
    host: HostRuntime,
    listener: TcpListener,
    counters: Counters,
) -> io::Result<()> {
    let version = String::from_str(host.alloc(), "1")?;
    let server = thread::spawn(threads, move || {
        serve_metrics(host, host.alloc(), &listener, counters, version)
    })?;
    drop(server);
    Ok(())
}

/// Returns the name of the first request that the page of a receiver that has done nothing answers
/// differently.
fn wrong_reply<N: Net<Stream = TcpStream, Listener = TcpListener> + Threads>(
    rt: &N,
    host: HostRuntime,
) -> io::Result<Option<&'static str>> {
    let alloc = host.alloc();
    let listener = TcpListener::bind(rt, "127.0.0.1:0")?;
    let address = listener.local_addr()?;
    let counters = Arc::new(alloc, ReceiveCounters::new(alloc)?)?;
    serve(rt, host, listener, Counters::Receive(counters))?;
    for row in &ASKED {
        let reply = reply_to(rt, alloc, address, row.1)?;
        if !reply.starts_with(row.2) || reply.is_empty() != row.2.is_empty() {
            return Ok(Some(row.0));
        }
    }
    Ok(None)
}

#[test]
fn the_page_is_served(rt: HostRuntime) -> Result<(), Fail> {
    let wrong = wrong_reply(&rt, rt)?;
    assert_eq!(rt; wrong, None);
    Ok(())
}

/// Asks a receiver that keeps a log whether it is ready, before and after its log was read, and
/// returns whether the replies say so.
fn is_ready_once_read<N: Net<Stream = TcpStream, Listener = TcpListener> + Threads>(
    rt: &N,
    host: HostRuntime,
) -> io::Result<bool> {
    let alloc = host.alloc();
    let listener = TcpListener::bind(rt, "127.0.0.1:0")?;
    let address = listener.local_addr()?;
    let counters = Arc::new(alloc, ReceiveCounters::of_kept_log(alloc)?)?;
    let theirs = Counters::Receive(Arc::try_clone(&counters)?);
    serve(rt, host, listener, theirs)?;
    let before = reply_to(rt, alloc, address, READY)?;
    counters.begin_with(0, 0);
    let after = reply_to(rt, alloc, address, READY)?;
    Ok(before.starts_with(b"HTTP/1.1 503 ") && after.starts_with(b"HTTP/1.1 200 "))
}

#[test]
fn a_receiver_is_ready_once_its_log_is_read(rt: HostRuntime) -> Result<(), Fail> {
    assert!(rt; is_ready_once_read(&rt, rt)?);
    Ok(())
}

/// Returns whether this is the page of a receiver that has done something.
fn is_counted(alloc: Global) -> Result<bool, AllocError> {
    let counters = ReceiveCounters::new(alloc)?;
    counters.begin_connection();
    counters.begin_connection();
    counters.end_connection();
    counters.refuse_connection();
    counters.begin_with(4, 2);
    counters.answer(204, 6);
    counters.answer(204, 7);
    counters.skip_parts(b"\x0a\x02\x22\0");
    counters.answer(429, 0);
    counters.refuse_body(Some(RefusalReason::Busy), b"\x0a\x04\x12\0\x12\0");
    counters.answer_unasked(405);
    counters.hold_label_sets(3);
    counters.hold_label_sets(2);
    let page = receive_page(alloc, &counters.numbers(alloc)?)?;
    Ok(page.as_slice() == PAGE)
}

#[test]
fn a_receiver_counts(rt: HostRuntime) -> Result<(), Fail> {
    assert!(rt; is_counted(rt.alloc())?);
    Ok(())
}

/// What is dropped of a log.
static DROPPED: [(u64, Reason); 2] = [(3, Reason::NoSeries), (5, Reason::NotRising)];

/// Returns whether these are the lines of a sender that has done something.
fn are_told(alloc: Global) -> Result<bool, AllocError> {
    let counters = SendCounters::new(alloc)?;
    counters.begin_segment(7);
    counters.read_bytes(456);
    counters.set_entries(1234);
    counters.set_shards(4);
    counters.set_load(1200, 200);
    counters.set_folder_bytes(1000);
    counters.drop_unsent(&DROPPED[..1]);
    counters.drop_unsent(&DROPPED);
    counters.drop_sample(Reason::Status(400));
    counters.attempt();
    counters.fail(Cause::Connect);
    counters.fail(Cause::Status(503));
    let numbers = counters.numbers(alloc)?;
    let line = send_line(alloc, &numbers)?;
    let drops = drops_line(alloc, &numbers.drops)?;
    Ok(
        counters.dropped() == 3
            && drops.as_slice()
                == b"dropped 3 noseries 1 badlabels 0 notrising 1 status_400 1".as_slice()
            && line.as_slice()
                == b"entries 1234 read 1202 acknowledged 0 dropped 3 filtered 0 in_flight 1199 shards 4 \
                    attempts 1 failed 2 last status_503 segment 7 bytes 456 percent 45"
                    .as_slice(),
    )
}

#[test]
fn a_sender_tells(rt: HostRuntime) -> Result<(), Fail> {
    assert!(rt; are_told(rt.alloc())?);
    Ok(())
}

/// How many records of each type that is skipped are in a log: of the types 3 to 10, and of one
/// that has no name.
static SKIPPED: Skipped = Skipped {
    tombstones: 1,
    exemplars: 2,
    mmap_markers: 3,
    metadata: 4,
    histograms: 5,
    float_histograms: 6,
    custom_histograms: 7,
    custom_float_histograms: 8,
    unknown: 9,
};

/// Returns a segment of one sample and of the records of `SKIPPED`, each of which is its type and
/// no more.
fn skipped_segment(alloc: Global) -> Result<Vec<u8>, AllocError> {
    let mut text = Vec::from_slice(alloc, UP)?;
    for kind in 3..12u8 {
        let line = format!(in alloc; "raw {kind:02x}\n")?;
        for _ in 2..kind {
            text.extend_from_slice(line.as_bytes())?;
        }
    }
    segment(alloc, &text)
}

/// Ships the segment of `skipped_segment`.
fn ship_skipped<R: Threads + Wait + Clock + Copy + Send + 'static>(
    rt: &R,
    alloc: Global,
    counters: &SendCounters,
    printed: &mut Room,
) -> Result<Result<(), ToolFault>, AllocError> {
    let mut readers = Vec::new(alloc);
    readers.push(Torn {
        text: skipped_segment(alloc)?,
        at: 0,
        fails: false,
        failed: false,
    })?;
    let options = SendOptions {
        connect: ready(rt),
        counters,
        max_batch_bytes: None,
        max_skew: None,
        reading: LogOptions::without_labels(false),
        stop: StopFlag::new(alloc)?,
    };
    let settings = settings_of(alloc, b"")?;
    Ok(run_send(rt, alloc, settings, readers, options, printed))
}

/// Returns which records are counted as skipped once a log has been shipped whole, or `None` if it
/// was not.
fn counted_as_skipped<R: Threads + Wait + Clock + Copy + Send + 'static>(
    rt: &R,
    alloc: Global,
) -> Result<Option<Skipped>, AllocError> {
    let mut printed = Room::new(alloc, 4096)?;
    let counters = SendCounters::new(alloc)?;
    let shipped = ship_skipped(rt, alloc, &counters, &mut printed)?;
    let is_whole = shipped.is_ok()
        && printed.as_slice() == b"filtered 0\nreport complete 2\n".as_slice();
    Ok(is_whole.then_some(counters.skipped()))
}

#[test]
fn skipped_records_are_counted_by_type(rt: HostRuntime) -> Result<(), Fail> {
    assert_eq!(rt; counted_as_skipped(&rt, rt.alloc())?, Some(SKIPPED));
    Ok(())
}

/// A reply, and what is shown of its body.
type Said<'a> = (&'static str, &'a [u8], Option<&'static str>);

static SAID: [Said<'static>; 5] = [
    (
        "a text",
        b"HTTP/1.1 400 Bad Request\r\nA: b\r\n\r\nout of order\n",
        Some("out of order"),
    ),
    (
        "a text after an informational head",
        b"HTTP/1.1 100 Continue\r\n\r\nHTTP/1.1 400 Bad Request\r\n\r\nno",
        Some("no"),
    ),
    (
        "bytes that are not printable",
        b"HTTP/1.1 400 Bad Request\r\n\r\na\x00\x1b[b\xc3\xa9",
        Some("a  [b"),
    ),
    ("nothing", b"HTTP/1.1 400 Bad Request\r\n\r\n", None),
    ("half a head", b"HTTP/1.1 400 Bad Request\r\n", None),
];

/// Returns the name of the first reply of whose body something else is shown.
fn wrongly_said(alloc: Global) -> Result<Option<&'static str>, AllocError> {
    for row in &SAID {
        let counters = SendCounters::new(alloc)?;
        counters.keep_reply(400, row.1);
        let is_so = match (counters.last_reply(alloc)?, row.2) {
            (Some((status, text)), Some(wanted)) => status == 400 && text.as_str() == wanted,
            (None, None) => true,
            _ => false,
        };
        if !is_so {
            return Ok(Some(row.0));
        }
    }
    Ok(None)
}

#[test]
fn what_a_receiver_says_is_kept(rt: HostRuntime) -> Result<(), Fail> {
    assert_eq!(rt; wrongly_said(rt.alloc())?, None);
    Ok(())
}

/// Returns how many samples of a request with one sample counters have counted as acknowledged, and
/// how many after it was reported that two are resolved.
fn counted_of_one(alloc: Global, counters: &SendCounters) -> Result<(u64, u64), AllocError> {
    let request = request_of(alloc, &UP_BODY)?;
    counters.acknowledge(&request);
    let before = counters.numbers(alloc)?.acknowledged;
    counters.set_resolved(2);
    Ok((before, counters.numbers(alloc)?.acknowledged))
}

#[test]
fn only_counters_with_readers_look_at_requests(rt: HostRuntime) -> Result<(), Fail> {
    let alloc = rt.alloc();
    let read = counted_of_one(alloc, &SendCounters::new(alloc)?)?;
    let unread = counted_of_one(alloc, &SendCounters::without_readers(alloc)?)?;
    assert_eq!(rt; read, (1, 2));
    assert_eq!(rt; unread, (0, 2));
    Ok(())
}

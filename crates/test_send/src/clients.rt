//! What clients do, and what they read.

use rw_follow::StopSignal;
use std::alloc::{AllocError, Global};
use std::io::{self, Read, Write};
use std::net::{Net, Shutdown, SocketAddr, TcpStream};
use std::thread;
use std::time::{Clock, Duration};

/// What clients do.
#[derive(Clone, Copy, Debug)]
pub(crate) enum Clients {
    /// Five come one after the other.
    InTurn,
    /// A second one has its reply while a first one has a connection.
    SideBySide,
    /// One has its reply, and keeps its connection when the stop is requested.
    Stays,
    /// One writes the last byte of its second request when the stop is requested already.
    IsInside,
    /// The same, if an end at once is requested.
    IsCutOff,
    /// One says nothing. Another one comes after it.
    SaysNothing,
    /// One writes a byte and is silent. Another one comes after it.
    WritesOneByte,
    /// One writes a request byte by byte until its connection is closed. Another one comes after
    /// it.
    Drips,
    /// One writes a long request in pieces, each some time after the one before.
    IsSteady,
    /// A third one comes while two keep their connections, and then those two go.
    OneTooMany,
    /// Two come, and the first one goes. Five come one after the other while the second one keeps
    /// its connection.
    OneStays,
    /// One writes 28,090 bytes of a long request, and no more. Then another one has the reply to a
    /// whole one, of 32,090 bytes, and the first one's connection is closed or not.
    LeavesOneUnfinished { is_closed: bool },
    /// One has its last reply, and writes on, as long as it can.
    WritesOn,
}

/// For how many seconds a client waits for a reply.
const PATIENCE_SECONDS: u64 = 10;

/// The reply to a request that is taken.
const TAKEN: &[u8] = b"HTTP/1.1 204 No Content\r\n\r\n";

/// Where clients connect to, and how they ask to stop.
#[derive(Clone, Copy)]
pub(crate) struct Door<'a, N> {
    pub(crate) net: &'a N,
    pub(crate) alloc: Global,
    pub(crate) address: SocketAddr,
    pub(crate) signal: &'a StopSignal,
}

/// Returns a request to store the sample 1 of `{__name__="up"}` at 1000 ms plus `later`, which is
/// less than 8.
fn request(alloc: Global, later: u8) -> Result<Vec<u8>, AllocError> {
    let mut bytes = Vec::from_slice(
        alloc,
        b"POST /api/v1/write HTTP/1.1\r\nContent-Length: 32\r\n\r\n\x0a\x1e\x0a\x0e\x0a\x08__name__\x12\x02up\x12\x0c\x09\x00\x00\x00\x00\x00\x00\xf0\x3f\x10",
    )?;
    bytes.push(0xe8 | later)?;
    bytes.push(0x07)?;
    Ok(bytes)
}

/// Returns a connection whose reads end, so that a test fails if a reply does not come.
fn connected<N: Net<Stream = TcpStream>>(door: &Door<'_, N>) -> io::Result<TcpStream> {
    let stream = TcpStream::connect(door.net, door.address)?;
    stream.set_read_timeout(Some(Duration::from_secs(PATIENCE_SECONDS)))?;
    Ok(stream)
}

/// Asks, ends the writing side, and reads to the end.
fn ask_last(stream: &mut TcpStream, request: &[u8], read: &mut Vec<u8>) -> io::Result<()> {
    stream.write_all(request)?;
    stream.shutdown(Shutdown::Write)?;
    stream.read_to_end(read)?;
    Ok(())
}

/// Asks, and reads one reply.
fn ask(stream: &mut TcpStream, request: &[u8], read: &mut Vec<u8>) -> io::Result<()> {
    let mut reply = [0; TAKEN.len()];
    stream.write_all(request)?;
    stream.read_exact(&mut reply)?;
    read.extend_from_slice(&reply)?;
    Ok(())
}

/// Five ask, the first of them for a later sample.
fn in_turn<N: Net<Stream = TcpStream>>(
    door: &Door<'_, N>,
    first: u8,
    read: &mut Vec<u8>,
) -> io::Result<()> {
    for later in first..first.saturating_add(5) {
        let mut stream = connected(door)?;
        ask_last(&mut stream, &request(door.alloc, later)?, read)?;
    }
    Ok(())
}

fn side_by_side<N: Net<Stream = TcpStream>>(
    door: &Door<'_, N>,
    read: &mut Vec<u8>,
) -> io::Result<()> {
    let mut first = connected(door)?;
    let mut second = connected(door)?;
    ask_last(&mut second, &request(door.alloc, 0)?, read)?;
    ask_last(&mut first, &request(door.alloc, 1)?, read)
}

fn stays<N: Net<Stream = TcpStream>>(door: &Door<'_, N>, read: &mut Vec<u8>) -> io::Result<()> {
    let mut stream = connected(door)?;
    ask(&mut stream, &request(door.alloc, 0)?, read)?;
    door.signal.finish();
    stream.read_to_end(read)?;
    Ok(())
}

/// Writes a request, and another one of which the last byte comes when a stop is requested.
fn is_inside<N: Net<Stream = TcpStream> + Clock>(
    door: &Door<'_, N>,
    is_hard: bool,
    read: &mut Vec<u8>,
) -> io::Result<()> {
    let mut stream = connected(door)?;
    ask(&mut stream, &request(door.alloc, 0)?, read)?;
    let second = request(door.alloc, 1)?;
    let (most, last) = second.split_at(second.len().saturating_sub(1));
    stream.write_all(most)?;
    thread::sleep(door.net, Duration::from_millis(500));
    if is_hard {
        door.signal.abort();
    } else {
        door.signal.finish();
    }
    thread::sleep(door.net, Duration::from_millis(500));
    let _ = stream.write_all(last);
    stream.read_to_end(read)?;
    Ok(())
}

/// Writes a text and is silent, until its connection is closed. Another client asks meanwhile.
fn is_silent<N: Net<Stream = TcpStream>>(
    door: &Door<'_, N>,
    text: &[u8],
    read: &mut Vec<u8>,
) -> io::Result<()> {
    let mut first = connected(door)?;
    first.write_all(text)?;
    let mut second = connected(door)?;
    ask_last(&mut second, &request(door.alloc, 0)?, read)?;
    first.read_to_end(read)?;
    Ok(())
}

/// Writes a byte each 20 ms until the connection is closed, for 10 s at least, and returns whether
/// it was.
fn is_closed_in_drips<C: Clock>(clock: &C, stream: &mut TcpStream) -> bool {
    for _ in 0..500 {
        if stream.write_all(b"x").is_err() {
            return true;
        }
        thread::sleep(clock, Duration::from_millis(20));
    }
    false
}

/// Writes a request that never ends, byte by byte, until its connection is closed. Another client
/// asks after that.
fn drips<N: Net<Stream = TcpStream> + Clock>(
    door: &Door<'_, N>,
    read: &mut Vec<u8>,
) -> io::Result<()> {
    let mut first = connected(door)?;
    first.write_all(b"POST /api/v1/write HTTP/1.1\r\nX: ")?;
    if !is_closed_in_drips(door.net, &mut first) {
        read.extend_from_slice(b"open ")?;
    }
    let mut second = connected(door)?;
    ask_last(&mut second, &request(door.alloc, 0)?, read)
}

/// The front of a request that stores what `request` does. Its body goes on with a field that a
/// receiver skips, of 32,000 bytes.
const LONG_FRONT: &[u8] = b"POST /api/v1/write HTTP/1.1\r\nContent-Length: 32036\r\n\r\n\
    \x0a\x1e\x0a\x0e\x0a\x08__name__\x12\x02up\
    \x12\x0c\x09\x00\x00\x00\x00\x00\x00\xf0\x3f\x10\xe8\x07\x1a\x80\xfa\x01";

/// Writes a request in 8 pieces of 4,000 bytes or more, each 60 ms after the one before.
fn is_steady<N: Net<Stream = TcpStream> + Clock>(
    door: &Door<'_, N>,
    read: &mut Vec<u8>,
) -> io::Result<()> {
    let mut stream = connected(door)?;
    let piece: Vec<u8> = vec![in door.alloc; 0; 4_000]?;
    let mut first = Vec::from_slice(door.alloc, LONG_FRONT)?;
    first.extend_from_slice(&piece)?;
    stream.write_all(&first)?;
    for _ in 0..7 {
        thread::sleep(door.net, Duration::from_millis(60));
        stream.write_all(&piece)?;
    }
    stream.shutdown(Shutdown::Write)?;
    stream.read_to_end(read)?;
    Ok(())
}

fn one_too_many<N: Net<Stream = TcpStream>>(
    door: &Door<'_, N>,
    read: &mut Vec<u8>,
) -> io::Result<()> {
    let first = connected(door)?;
    let second = connected(door)?;
    let mut third = connected(door)?;
    third.write_all(&request(door.alloc, 0)?)?;
    third.set_read_timeout(Some(Duration::from_millis(500)))?;
    if third.read(&mut [0; 1]).is_ok() {
        read.extend_from_slice(b"early ")?;
    }
    third.set_read_timeout(Some(Duration::from_secs(PATIENCE_SECONDS)))?;
    drop(first);
    drop(second);
    third.shutdown(Shutdown::Write)?;
    third.read_to_end(read)?;
    Ok(())
}

fn one_stays<N: Net<Stream = TcpStream>>(door: &Door<'_, N>, read: &mut Vec<u8>) -> io::Result<()> {
    let mut first = connected(door)?;
    ask(&mut first, &request(door.alloc, 0)?, read)?;
    let mut second = connected(door)?;
    ask(&mut second, &request(door.alloc, 1)?, read)?;
    drop(first);
    in_turn(door, 2, read)?;
    second.shutdown(Shutdown::Write)?;
    second.read_to_end(read)?;
    Ok(())
}

/// Writes a long request of which this many of its last 32,000 bytes have come.
fn write_long<N: Net<Stream = TcpStream>>(
    door: &Door<'_, N>,
    stream: &mut TcpStream,
    rest: usize,
) -> io::Result<()> {
    let mut front = Vec::from_slice(door.alloc, LONG_FRONT)?;
    let rest: Vec<u8> = vec![in door.alloc; 0; rest]?;
    front.extend_from_slice(&rest)?;
    stream.write_all(&front)
}

/// Writes a part of a long request. Another client writes a whole one half a second later.
fn leaves_one_unfinished<N: Net<Stream = TcpStream> + Clock>(
    door: &Door<'_, N>,
    is_closed: bool,
    read: &mut Vec<u8>,
) -> io::Result<()> {
    let mut first = connected(door)?;
    write_long(door, &mut first, 28_000)?;
    thread::sleep(door.net, Duration::from_millis(500));
    let mut second = connected(door)?;
    write_long(door, &mut second, 32_000)?;
    second.shutdown(Shutdown::Write)?;
    second.read_to_end(read)?;
    first.set_read_timeout(Some(Duration::from_secs(1)))?;
    let was_closed = matches!(first.read(&mut [0; 1]), Ok(0));
    if was_closed != is_closed {
        read.extend_from_slice(b"wrong ")?;
    }
    Ok(())
}

/// Has the reply to a request that is refused, and then writes a byte each 300 ms, until its
/// connection is closed or 20 s have passed.
fn writes_on<N: Net<Stream = TcpStream> + Clock>(
    door: &Door<'_, N>,
    read: &mut Vec<u8>,
) -> io::Result<()> {
    let mut stream = connected(door)?;
    ask(&mut stream, &request(door.alloc, 0)?, read)?;
    stream.write_all(b"GET / HTTP/1.1\r\n\r\n")?;
    let mut last = Vec::new(door.alloc);
    stream.read_to_end(&mut last)?;
    for _ in 0..66 {
        if stream.write_all(b"G").is_err() {
            break;
        }
        thread::sleep(door.net, Duration::from_millis(300));
    }
    Ok(())
}

/// Returns what the clients read, each after the one before. They request a stop at the end.
pub(crate) fn read_by<N: Net<Stream = TcpStream> + Clock>(
    door: &Door<'_, N>,
    clients: Clients,
) -> io::Result<Vec<u8>> {
    let mut read = Vec::new(door.alloc);
    let done = match clients {
        Clients::InTurn => in_turn(door, 0, &mut read),
        Clients::SideBySide => side_by_side(door, &mut read),
        Clients::Stays => stays(door, &mut read),
        Clients::IsInside => is_inside(door, false, &mut read),
        Clients::IsCutOff => is_inside(door, true, &mut read),
        Clients::SaysNothing => is_silent(door, b"", &mut read),
        Clients::WritesOneByte => is_silent(door, b"P", &mut read),
        Clients::Drips => drips(door, &mut read),
        Clients::IsSteady => is_steady(door, &mut read),
        Clients::OneTooMany => one_too_many(door, &mut read),
        Clients::OneStays => one_stays(door, &mut read),
        Clients::LeavesOneUnfinished { is_closed } => {
            leaves_one_unfinished(door, is_closed, &mut read)
        }
        Clients::WritesOn => writes_on(door, &mut read),
    };
    door.signal.finish();
    done?;
    Ok(read)
}

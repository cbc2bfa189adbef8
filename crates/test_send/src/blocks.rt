//! Requests whose bodies are sent as Snappy blocks, over the loopback interface.

use crate::connections::{UP_BODY, long_body, request_of, statuses, transport_to};
use rw_shard_core::Target;
use rw_snappy::decode;
use rw_types::Bounded;
use std::alloc::{AllocError, AllocGlobal, Global};
use std::io::{Read, Write};
use std::net::{Net, SocketAddr, TcpListener, TcpStream};
use std::rt::Files;
use std::test::Fail;
use std::time::Clock;
use std::{io, thread};

/// The head of a request up to its length.
const HEAD: &[u8] =
    b"POST /api/v1/write HTTP/1.1\r\nHost: localhost:9090\r\nUser-Agent: rwship/1.0\r\nContent-Type: application/x-protobuf\r\nContent-Encoding: snappy\r\nX-Prometheus-Remote-Write-Version: 0.1.0\r\nConnection: close\r\nContent-Length: ";

const BUSY: &[u8] = b"HTTP/1.1 429 Too Many Requests\r\nConnection: close\r\n\r\n";

const TAKEN: &[u8] = b"HTTP/1.1 204 No Content\r\nConnection: close\r\n\r\n";

/// What came over the connections of two attempts of a request.
#[derive(Drop)]
struct Attempts {
    first: Vec<u8>,
    second: Vec<u8>,
}

/// What came of a request with the option, and without it.
#[derive(Drop)]
struct Requests {
    packed: Attempts,
    plain: Attempts,
}

/// Replies to one connection, and returns all that comes over it.
fn bytes_of(alloc: Global, listener: &TcpListener, reply: &[u8]) -> io::Result<Vec<u8>> {
    let (mut stream, _) = listener.accept()?;
    stream.write_all(reply)?;
    let mut bytes = Vec::new(alloc);
    stream.read_to_end(&mut bytes)?;
    Ok(bytes)
}

/// Returns the statuses of two attempts of a request with this body, compressed if `snappy`.
fn two_statuses<N: Net<Stream = TcpStream> + Clock + Files + AllocGlobal + Copy>(
    net: &N,
    alloc: Global,
    address: SocketAddr,
    snappy: bool,
    request: &[u8],
) -> io::Result<Vec<u8>> {
    let mut transport = transport_to(net, alloc, address, Bounded::new(60_000))?;
    if snappy {
        transport = transport.with_snappy(&Target::standard(alloc)?)?;
    }
    statuses(alloc, &mut transport, 2, request)
}

/// Returns the statuses of two attempts with the option, and of two without it.
fn all_statuses<N: Net<Stream = TcpStream> + Clock + Files + AllocGlobal + Copy>(
    net: &N,
    alloc: Global,
    address: SocketAddr,
    request: &[u8],
) -> io::Result<Vec<u8>> {
    let mut read = two_statuses(net, alloc, address, true, request)?;
    read.extend_from_slice(&two_statuses(net, alloc, address, false, request)?)?;
    Ok(read)
}

/// Answers the first attempt with 429 and the second one with 204, and returns both.
fn two_attempts(alloc: Global, listener: &TcpListener) -> io::Result<Attempts> {
    Ok(Attempts {
        first: bytes_of(alloc, listener, BUSY)?,
        second: bytes_of(alloc, listener, TAKEN)?,
    })
}

/// Answers two attempts twice, and returns what came.
fn all_attempts(alloc: Global, listener: TcpListener) -> io::Result<Requests> {
    Ok(Requests {
        packed: two_attempts(alloc, &listener)?,
        plain: two_attempts(alloc, &listener)?,
    })
}

/// Returns whether these are the digits of a length, the end of a head, and a block of that length
/// and at most `most` bytes, which decodes to the body.
fn is_block_of(alloc: Global, text: &[u8], body: &[u8], most: usize) -> Result<bool, AllocError> {
    let end = text.iter().position(|b| !b.is_ascii_digit());
    let (digits, rest) = text.split_at(end.unwrap_or(text.len()));
    let Some(block) = rest.strip_prefix(b"\r\n\r\n".as_slice()) else {
        return Ok(false);
    };
    let mut out = Vec::new(alloc);
    let is_sound = matches!(decode(block, 1 << 20, &mut out)?, Ok(()));
    let len = block.len();
    let length = format!(in alloc; "{len}")?;
    Ok(is_sound && out.as_slice() == body && len <= most && length.as_bytes() == digits)
}

/// Returns whether a body was sent in a block of at most `most` bytes, the same one in both
/// attempts, and without the option as it is.
fn is_sent_in_block(
    alloc: Global,
    requests: &Requests,
    request: &[u8],
    body: &[u8],
    most: usize,
) -> Result<bool, AllocError> {
    let Requests { packed, plain } = requests;
    let is_packed = match packed.first.as_slice().strip_prefix(HEAD) {
        Some(rest) => is_block_of(alloc, rest, body, most)?,
        None => false,
    };
    Ok(
        is_packed
            && packed.first == packed.second
            && plain.first.as_slice() == request
            && plain.second.as_slice() == request,
    )
}

/// A short body does not get shorter: its block has a length and a tag more, at most. 200 KB that
/// repeat themselves get less than half as long.
#[test]
fn bodies_are_sent_in_blocks(rt: HostRuntime) -> Result<(), Fail> {
    let alloc = rt.alloc();
    let long = long_body(alloc)?;
    for (name, body, most) in [
        ("a short body", UP_BODY.as_slice(), UP_BODY.len() + 2),
        ("a long body", long.as_slice(), long.len() / 2),
    ] {
        let request = request_of(alloc, body)?;
        let listener = TcpListener::bind(&rt, "127.0.0.1:0")?;
        let address = listener.local_addr()?;
        let (statuses, requests) = thread::join(
            &rt,
            || all_statuses(&rt, alloc, address, &request),
            || all_attempts(alloc, listener),
        );
        let is_answered = statuses?.as_slice() == b" 429 204 429 204".as_slice();
        let is_right = is_sent_in_block(alloc, &requests?, &request, body, most)?;
        assert!(rt; is_answered && is_right, "{name}");
    }
    Ok(())
}

//! Requests and replies in memory, and names that stand for addresses.

use crate::rows::none_is_wrong;
use rw_tcp::{NoReply, ask, look_up};
use rw_types::{Room, Source};
use std::alloc::{AllocError, Global};
use std::io;
use std::net::{Ipv4Addr, Net, SocketAddr, TcpListener, TcpStream};
use std::test::Fail;

const REQUEST: &[u8] = b"POST / HTTP/1.1\r\n\r\n";

/// A name, a reply, and the status that is returned for it.
type Row<'a> = (&'static str, &'a [u8], Result<u16, NoReply>);

static WHOLE: [Row<'static>; 7] = [
    ("a success", b"HTTP/1.1 204 No Content\r\n\r\n", Ok(204)),
    (
        "a busy receiver",
        b"HTTP/1.1 429 Too Many Requests\r\nContent-Length: 0\r\n\r\n",
        Ok(429),
    ),
    (
        "a reply of 100 is passed over",
        b"HTTP/1.1 100 Continue\r\n\r\nHTTP/1.1 200 OK\r\nContent-Length: 2\r\n\r\nok",
        Ok(200),
    ),
    (
        "a head without its end",
        b"HTTP/1.1 204 No Content\r\n",
        Err(NoReply::Ended),
    ),
    ("nothing", b"", Err(NoReply::Ended)),
    ("no HTTP", b"SMTP ready\r\n", Err(NoReply::Bad)),
    (
        "a status below 100",
        b"HTTP/1.1 099 Low\r\n\r\n",
        Err(NoReply::Bad),
    ),
];

static HALF: [Row<'static>; 5] = [
    (
        "a refusal counts",
        b"HTTP/1.1 413 Content Too Large\r\n\r\n",
        Ok(413),
    ),
    (
        "a busy receiver counts",
        b"HTTP/1.1 503 Service Unavailable\r\n\r\n",
        Ok(503),
    ),
    (
        "a success does not count",
        b"HTTP/1.1 204 No Content\r\n\r\n",
        Err(NoReply::Device),
    ),
    (
        "a head without its end",
        b"HTTP/1.1 204 No Content\r\n",
        Err(NoReply::Device),
    ),
    ("no HTTP", b"SMTP ready\r\n", Err(NoReply::Device)),
];

/// Returns whether a reply has this answer, and this is written if there is this much room.
fn is_answered(
    alloc: Global,
    row: &Row<'_>,
    room: usize,
    written: &[u8],
) -> Result<bool, AllocError> {
    let mut reader = row.1;
    let mut writer = Room::new(alloc, room)?;
    let answer = ask(alloc, &mut reader, &mut writer, REQUEST);
    let is_so = match (answer, row.2) {
        (Ok(reply), Ok(status)) => reply.status.as_u16() == status,
        (Err(fault), Err(wanted)) => fault == wanted,
        _ => false,
    };
    Ok(is_so && writer.as_slice() == written)
}

fn wrong_reply(
    alloc: Global,
    rows: &[Row<'_>],
    room: usize,
    written: &[u8],
) -> Result<Option<&'static str>, AllocError> {
    for row in rows {
        if !is_answered(alloc, row, room, written)? {
            return Ok(Some(row.0));
        }
    }
    Ok(None)
}

#[test]
fn replies(rt: HostRuntime) -> Result<(), Fail> {
    none_is_wrong(&rt, wrong_reply(rt.alloc(), &WHOLE, 64, REQUEST)?);
    Ok(())
}

/// The writer fails: a refusal counts, and a status that would take the request does not.
#[test]
fn replies_to_half_a_request(rt: HostRuntime) -> Result<(), Fail> {
    none_is_wrong(&rt, wrong_reply(rt.alloc(), &HALF, 4, b"")?);
    Ok(())
}

/// A net in which each name stands for two addresses, in their order. Nothing can be reached in it.
#[derive(Drop)]
struct Names {
    first: Ipv4Addr,
    second: Ipv4Addr,
}

impl Net for Names {
    type Stream = TcpStream;

    type Listener = TcpListener;

    fn bind(&self, _addr: SocketAddr) -> io::Result<TcpListener> {
        Err(io::Error::from(io::ErrorKind::Unsupported))
    }

    fn connect(&self, _addr: SocketAddr) -> io::Result<TcpStream> {
        Err(io::Error::from(io::ErrorKind::Unsupported))
    }

    fn lookup_host(&self, _host: &str, port: u16, found: &mut [SocketAddr]) -> io::Result<usize> {
        if found.len() < 2 {
            return Ok(0);
        }
        found[0] = SocketAddr::from((self.first, port));
        found[1] = SocketAddr::from((self.second, port));
        Ok(2)
    }
}

#[test]
fn all_addresses_of_a_name_are_found(rt: HostRuntime) -> Result<(), Fail> {
    let first = Ipv4Addr::new(192, 0, 2, 9);
    let second = Ipv4Addr::new(192, 0, 2, 1);
    let names = Names { first, second };
    let found = look_up(&names, rt.alloc(), "receiver.example", 9090)?;
    let wanted = [
        SocketAddr::from((first, 9090)),
        SocketAddr::from((second, 9090)),
    ];
    assert!(rt; found.as_slice() == wanted.as_slice());
    Ok(())
}

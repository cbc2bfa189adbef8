//! A client of the pages.

use crate::asked::{Asked, wanted};
use crate::reply::write_reply;
use rw_metrics::PageSource;
use rw_socket::{Deadline, Timely};
use rw_types::Std;
use std::alloc::{AllocGlobal, Global};
use std::fs::Files;
use std::io::{self, ErrorKind, Read};
use std::net::{Shutdown, TcpStream};
use std::time::{Clock, Duration};

/// How many bytes of a head are read.
const LONGEST_HEAD: usize = 4_096;

/// How many seconds a client has for its request and its reply together.
const PATIENCE_SECONDS: u64 = 2;

/// A client, and what has come of the head of its request.
#[derive(Drop)]
pub(crate) struct Client<C> {
    stream: TcpStream,
    /// When its request and its reply have to be done.
    deadline: Deadline<C>,
    head: Vec<u8>,
}

/// Returns whether a read failed because nothing has come, or was interrupted.
fn is_passing(error: &io::Error) -> bool {
    matches!(
        error.kind(),
        ErrorKind::WouldBlock | ErrorKind::TimedOut | ErrorKind::Interrupted
    )
}

impl<C: Clock + Files + AllocGlobal + Copy> Client<C> {
    /// Returns a client from which nothing has been read, or `None` if its connection has failed.
    pub(crate) fn new(clock: C, alloc: Global, stream: TcpStream) -> Option<Client<C>> {
        if stream.set_nonblocking(true).is_err() {
            return None;
        }
        Some(Client {
            stream,
            deadline: Deadline::new(clock, Duration::from_secs(PATIENCE_SECONDS)),
            head: Vec::new(alloc),
        })
    }

    /// Adds bytes to the head, and returns what it asks for, or `None` if memory runs out.
    fn take(&mut self, bytes: &[u8]) -> Option<Asked> {
        if self.head.extend_from_slice(bytes).is_err() {
            return None;
        }
        match wanted(&self.head) {
            Asked::More if self.head.len() >= LONGEST_HEAD => Some(Asked::Bad),
            asked => Some(asked),
        }
    }

    /// Reads what has come, without waiting, and returns what it asks for, or `None` if nothing
    /// more is to be expected of this client.
    fn read(&mut self) -> Option<Asked> {
        let mut bytes = [0; LONGEST_HEAD];
        let mut stream = &self.stream;
        let left = LONGEST_HEAD.saturating_sub(self.head.len());
        match stream.read(&mut bytes[..left]) {
            Ok(0) => None,
            Ok(count) => self.take(&bytes[..count]),
            Err(e) if is_passing(&e) => Some(Asked::More),
            Err(_) => None,
        }
    }

    /// Writes the reply, before the deadline.
    fn answer(&self, alloc: Global, asked: Asked, source: &PageSource<C>) {
        if self.stream.set_nonblocking(false).is_ok() {
            let mut writer = Std::new(Timely::new(&self.stream, self.deadline));
            write_reply(alloc, &mut writer, asked, source);
            let _ = self.stream.shutdown(Shutdown::Write);
        }
    }

    /// Reads what has come, and replies once it is a request. Returns the client while more of its
    /// request is to be waited for, at most up to its deadline.
    pub(crate) fn serve(self, alloc: Global, source: &PageSource<C>) -> Option<Client<C>> {
        let mut client = self;
        let Some(asked) = client.read() else {
            return None;
        };
        if asked != Asked::More {
            client.answer(alloc, asked, source);
            return None;
        }
        if client.deadline.left().is_some() {
            Some(client)
        } else {
            None
        }
    }
}

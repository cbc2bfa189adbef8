//! A connection that was accepted, and what goes over it until it closes.

ghost use Rattle.std.specs.Prelude.{◌≡◌, []};
ghost use Rattle.rw_endpoint.specs.Coding.{intake_of};
ghost use Rattle.rw_endpoint.specs.Serving.{Serves};

use crate::graceful_close::close_gracefully;
use crate::request_trace::RequestTrace;
use crate::server_context::ServerContext;
use crate::timed_stream::{Stage, TimedStream};
use rw_endpoint::{Answer, Recording, ServeEnd, serve_recorded};
use rw_history::History;
use rw_types::Std;
use std::cell::Cell;
use std::io;
use std::marker::Model;
use std::net::{SocketAddr, TcpListener, TcpStream};
use std::sync::Wait;
use std::time::Clock;

/// A connection over which nothing has gone yet. Nothing outside this module reads from it or
/// writes to it.
#[derive(Drop)]
pub(crate) struct Accepted {
    stream: TcpStream,
}

/// What went over a connection until it closed, and how it ended. Contracts see the bytes, which
/// are not kept: those that the endpoint was given, and those that the connection took of its
/// replies. A reply 400 to which a text was added counts as the endpoint wrote it. Nothing outside
/// this module makes one.
#[derive(Drop)]
pub(crate) struct Conversation {
    read: History<u8>,
    written: History<u8>,
    end: ServeEnd,
}

impl Model for Conversation {
    ghost use Rattle.rw_receive.specs.Conversations.{Conversation};

    ghost Value = { Conversation };

    ghost view = { λ c. record { read = c.read; written = c.written; end = c.end } };
}

impl Conversation {
    /// Returns that of a connection over which nothing can go.
    fn silent() -> Conversation
        ensures { result ≡ record { read = []; written = []; end = ServeEnd.Device } }
    {
        Conversation {
            read: History::new(),
            written: History::new(),
            end: ServeEnd::Device,
        }
    }
}

impl Accepted {
    /// Returns the next connection, as `rw_socket::accept` does.
    pub(crate) fn accept(listener: &TcpListener) -> io::Result<Option<Accepted>> {
        match rw_socket::accept(listener) {
            Ok(Some(stream)) => Ok(Some(Accepted { stream })),
            Ok(None) => Ok(None),
            Err(e) => Err(e),
        }
    }

    /// Returns the address of the client, if it is known.
    pub(crate) fn peer(&self) -> Option<SocketAddr> {
        self.stream.peer_addr().ok()
    }

    /// Serves the connection until it closes, and shuts it down gracefully. One that took too long
    /// is closed at once, without waiting for its client.
    pub(crate) fn serve<A: Answer, R: Wait + Clock>(
        self,
        rt: &R,
        context: &ServerContext<'_>,
        trace: &RequestTrace<'_>,
        answer: &mut A,
    ) -> Conversation
        // The requests in what was read have their replies, in order.
        ensures served { Serves context.now.limits.now.path (intake_of context.now.limits.now)
            A.answers result.read answer.old result.written answer.new result.end }
    {
        let stage = Cell::new(Stage::new(rt));
        let Ok(timed) = TimedStream::new(&self.stream, context, &stage, trace, rt) else {
            return Conversation::silent();
        };
        let mut reader = Recording::new(Std::new(timed));
        let mut writer = Recording::new(Std::new(timed));
        let end = serve_recorded(
            context.alloc,
            &mut reader,
            &mut writer,
            answer,
            context.limits,
        );
        timed.release();
        if !timed.is_cut() {
            close_gracefully(rt, &self.stream);
        }
        Conversation {
            read: reader.into_past(),
            written: writer.into_past(),
            end,
        }
    }
}

//! A connection that may be silent for a limited time, whose requests have a deadline, and that
//! ends once a stop is requested.

ghost use Rattle.std.specs.Prelude.{◌+◌, ◌*◌, ◌<◌, ◌≤◌, length, IfOk};

use crate::pace::{GRACE_MS, Pace};
use crate::request_trace::RequestTrace;
use crate::server_context::ServerContext;
use rw_follow::StopRequest;
use rw_in_flight::Intake;
use rw_types::Bounded;
use std::cell::Cell;
use std::io::{self, ErrorKind, Read, Write};
use std::net::TcpStream;
use std::sync::Wait;
use std::thread;
use std::time::{Clock, Duration};

/// How many milliseconds a read or a write waits before the stop signal is looked at.
pub(crate) const TICK_MS: u64 = 200;

/// How many milliseconds it sleeps between two looks for room for bytes that were read.
const LOOK_MS: u64 = 5;

/// How many such looks are made at most: for an hour.
const MOST_LOOKS: u64 = 720_000;

/// A wait that is divided into ticks.
#[derive(Clone, Copy, Debug, Drop)]
pub(crate) struct Patience {
    pub(crate) tick_ms: u64,
    pub(crate) ticks: u64,
}

impl Patience {
    /// Returns a wait of `idle_ms` milliseconds, rounded up to whole ticks.
    pub(crate) fn of(idle_ms: Bounded<10, 3_600_000>) -> Patience
        ensures some { 0 < result.tick_ms }
        ensures short { result.tick_ms ≤ 200 }
        ensures enough { idle_ms ≤ result.ticks * result.tick_ms }
        ensures not_more { result.ticks * result.tick_ms < idle_ms + 200 }
    {
        let idle_ms = idle_ms.get();
        if idle_ms < TICK_MS {
            return Patience {
                tick_ms: idle_ms,
                ticks: 1,
            };
        }
        Patience {
            tick_ms: TICK_MS,
            ticks: idle_ms.div_ceil(TICK_MS),
        }
    }
}

/// Where a connection is in its requests.
#[derive(Clone, Copy, Drop)]
pub(crate) struct Stage<C> {
    /// Whether a request has begun, and has no reply yet.
    is_inside: bool,
    /// Whether the connection was closed because it took too long, or for another one.
    is_cut: bool,
    /// The pace of the current request, or else of the last replies.
    pace: Pace<C>,
    /// The number of the current request among the unfinished bodies, if it is counted there.
    number: Option<u64>,
}

impl<C: Clock + Copy> Stage<C> {
    /// Returns the stage of a connection on which nothing has come.
    pub(crate) fn new(clock: C) -> Stage<C> {
        Stage {
            is_inside: false,
            is_cut: false,
            pace: Pace::new(clock),
            number: None,
        }
    }
}

/// A connection as its reader and its writer. A read or a write from which no byte comes for the
/// idle time fails with `TimedOut`, and so does each of them once the request or the reply has had
/// its time (`Pace`). Once a stop is requested, so does a read outside a request, and once an end
/// at once is requested, each read and write. While another client waits for a seat, so does a read
/// or a write of a few connections that are silent or late. A request begins with a byte that is
/// read, and ends with the bytes that are written. What is read of one is returned once there is
/// room for it (`SharedRoom`), and a read of one that makes room fails, too. A reply 400 gets its
/// text here, if it is to have one. `Accepted` has what is read and written recorded.
#[derive(Clone, Copy, Drop)]
pub(crate) struct TimedStream<'s, C> {
    stream: &'s TcpStream,
    context: &'s ServerContext<'s>,
    stage: &'s Cell<Stage<C>>,
    trace: &'s RequestTrace<'s>,
    clock: C,
    patience: Patience,
}

/// Returns whether a call gave up because its tick was over, or was interrupted.
fn is_passing(error: &io::Error) -> bool {
    matches!(
        error.kind(),
        ErrorKind::WouldBlock | ErrorKind::TimedOut | ErrorKind::Interrupted
    )
}

impl<'s, C: Wait + Clock + Copy> TimedStream<'s, C> {
    /// Returns a connection outside a request.
    pub(crate) fn new(
        stream: &'s TcpStream,
        context: &'s ServerContext<'s>,
        stage: &'s Cell<Stage<C>>,
        trace: &'s RequestTrace<'s>,
        clock: C,
    ) -> io::Result<TimedStream<'s, C>> {
        let patience = Patience::of(context.idle_ms);
        let tick = Some(Duration::from_millis(patience.tick_ms));
        stream.set_read_timeout(tick)?;
        stream.set_write_timeout(tick)?;
        Ok(TimedStream {
            stream,
            context,
            stage,
            trace,
            clock,
            patience,
        })
    }

    /// Returns whether the connection was closed because it took too long, or for another one.
    pub(crate) fn is_cut(&self) -> bool {
        self.stage.get().is_cut
    }

    /// Returns whether the connection is not to wait any more.
    fn is_over(&self) -> bool {
        match self.context.until.request() {
            StopRequest::Continue => false,
            StopRequest::Finish => !self.stage.get().is_inside,
            StopRequest::Abort => true,
        }
    }

    /// Returns whether the request or the reply has had its time, or is late while another client
    /// waits for a seat.
    fn is_late(&self) -> bool {
        let pace = self.stage.get().pace;
        if !pace.is_within(self.context.request_ms.get(), self.context.bodies.max_ms) {
            return true;
        }
        !pace.is_within(GRACE_MS, None) && self.context.seat_request.meet()
    }

    /// Returns whether the request is late, or is to be closed so that there is room for others.
    fn is_given_up(&self) -> bool {
        let number = self.stage.get().number;
        self.is_late() || self.context.room.is_closed(&self.clock, number)
    }

    /// Returns whether a read that has waited for these ticks is to be given up.
    fn is_cut_after(&self, ticks: u64) -> bool {
        if self.stage.get().is_inside {
            return self.is_given_up();
        }
        ticks.saturating_mul(self.patience.tick_ms) >= GRACE_MS && self.context.seat_request.meet()
    }

    /// Gives up: nothing more is read or written.
    fn cut(&self) -> io::Error {
        let mut stage = self.stage.get();
        stage.is_cut = true;
        self.stage.set(stage);
        io::Error::from(ErrorKind::TimedOut)
    }

    /// Takes bytes that were read. The first ones begin a request.
    fn take_read(&self, bytes: &[u8]) {
        let mut stage = self.stage.get();
        if !stage.is_inside {
            stage.is_inside = true;
            stage.pace = Pace::new(self.clock);
            stage.number = self.context.room.begin(&self.clock);
            self.trace.begin(bytes);
        }
        stage.pace.add(bytes.len());
        self.stage.set(stage);
    }

    /// Waits until there is room for more bytes of the request, or it is given up.
    fn wait_for_room(&self, more: usize) -> io::Result<()> {
        for _ in 0..MOST_LOOKS {
            let number = self.stage.get().number;
            match self.context.room.grow(&self.clock, number, more as u64) {
                Intake::Taken => return Ok(()),
                Intake::Closed => break,
                Intake::Waits => {}
            }
            if self.is_over() || self.is_late() {
                break;
            }
            thread::sleep(&self.clock, Duration::from_millis(LOOK_MS));
        }
        Err(self.cut())
    }

    /// Ends the request, if there is one: its reply begins.
    fn begin_reply(&self) {
        let mut stage = self.stage.get();
        if stage.is_inside {
            self.release();
            stage.is_inside = false;
            stage.pace = Pace::new(self.clock);
            stage.number = None;
            self.stage.set(stage);
        }
    }

    /// Counts the bytes of the request no longer, if there is one.
    pub(crate) fn release(&self) {
        self.context.room.end(&self.clock, self.stage.get().number);
    }
}

impl<C: Wait + Clock + Copy> Read for TimedStream<'_, C> {
    fn read(&mut self, buf: &mut [u8]) -> io::Result<usize> {
        let mut stream = self.stream;
        for ticks in 0..self.patience.ticks {
            if self.is_over() {
                break;
            }
            if self.is_cut_after(ticks) {
                return Err(self.cut());
            }
            match stream.read(buf) {
                Err(e) if is_passing(&e) => {}
                Err(e) => return Err(e),
                Ok(n) => {
                    self.take_read(buf.get(..n).unwrap_or(&[]));
                    self.wait_for_room(n)?;
                    return Ok(n);
                }
            }
        }
        Err(io::Error::from(ErrorKind::TimedOut))
    }
}

impl<C: Wait + Clock + Copy> TimedStream<'_, C> {
    /// Writes as much of a reply as the client takes.
    fn write_some(&self, buf: &[u8]) -> io::Result<usize>
        ensures { IfOk result (λ n. n ≤ length buf.now) }
    {
        let mut stream = self.stream;
        self.begin_reply();
        for _ in 0..self.patience.ticks {
            if self.context.until.request() == StopRequest::Abort {
                break;
            }
            if self.is_late() {
                return Err(self.cut());
            }
            match stream.write(buf) {
                Err(e) if is_passing(&e) => {}
                Err(e) => return Err(e),
                Ok(n) => {
                    self.trace.note_written(buf);
                    return Ok(n);
                }
            }
        }
        Err(io::Error::from(ErrorKind::TimedOut))
    }

    /// Writes a whole reply.
    fn write_whole(&self, reply: &[u8]) -> io::Result<()> {
        let mut rest = reply;
        for _ in 0..reply.len() {
            if rest.is_empty() {
                break;
            }
            let written = self.write_some(rest)?;
            rest = rest.get(written..).unwrap_or(&[]);
        }
        Ok(())
    }
}

impl<C: Wait + Clock + Copy> Write for TimedStream<'_, C> {
    fn write(&mut self, buf: &[u8]) -> io::Result<usize> {
        match self.trace.explained(buf) {
            Some(reply) => {
                self.write_whole(&reply)?;
                Ok(buf.len())
            }
            None => self.write_some(buf),
        }
    }

    fn flush(&mut self) -> io::Result<()> {
        Ok(())
    }
}

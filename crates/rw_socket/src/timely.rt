//! A connection, read and written up to a deadline.

use crate::deadline::Deadline;
use std::io::{self, ErrorKind, Read, Write};
use std::net::TcpStream;
use std::time::{Clock, Duration};

/// A connection whose reads and writes fail once a deadline has passed, however many of them there
/// are: a peer that sends a byte now and then cannot prolong them. No clause says anything about
/// the bytes.
#[derive(Clone, Copy, Drop)]
pub struct Timely<'s, C> {
    stream: &'s TcpStream,
    deadline: Deadline<C>,
}

impl<'s, C: Clock> Timely<'s, C> {
    /// Returns the connection, to be read and written up to `deadline`.
    pub fn new(stream: &'s TcpStream, deadline: Deadline<C>) -> Timely<'s, C> {
        Timely { stream, deadline }
    }

    /// Returns the time that is left, or the error `TimedOut`.
    fn left(&self) -> io::Result<Duration> {
        self.deadline
            .left()
            .ok_or(io::Error::from(ErrorKind::TimedOut))
    }
}

impl<C: Clock> Read for Timely<'_, C> {
    fn read(&mut self, buf: &mut [u8]) -> io::Result<usize> {
        self.stream.set_read_timeout(Some(self.left()?))?;
        let mut stream = self.stream;
        stream.read(buf)
    }
}

impl<C: Clock> Write for Timely<'_, C> {
    fn write(&mut self, buf: &[u8]) -> io::Result<usize> {
        self.stream.set_write_timeout(Some(self.left()?))?;
        let mut stream = self.stream;
        stream.write(buf)
    }

    fn flush(&mut self) -> io::Result<()> {
        Ok(())
    }
}

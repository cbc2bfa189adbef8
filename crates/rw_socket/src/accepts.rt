//! Accepts that give up after some time.

use std::io::{self, ErrorKind};
use std::net::{TcpListener, TcpStream};
use std::os::fd::AsFd;
use std::time::Duration;

/// Makes each `accept` of the listener give up after `time`. The option belongs to the socket, so a
/// duplicate of its handle shares it with the listener.
pub fn limit_accepts(listener: &TcpListener, time: Duration) -> io::Result<()> {
    let same = TcpStream::from(listener.as_fd().try_clone_to_owned()?);
    same.set_read_timeout(Some(time))
}

/// Returns whether an accept failed without a fault of this side: its time was over, it was
/// interrupted, or the client has gone.
fn is_passing(error: &io::Error) -> bool {
    matches!(
        error.kind(),
        ErrorKind::WouldBlock
            | ErrorKind::TimedOut
            | ErrorKind::Interrupted
            | ErrorKind::ConnectionAborted
    )
}

/// Returns the next connection, or `None` if none comes in time, the call was interrupted, or the
/// client has gone.
pub fn accept(listener: &TcpListener) -> io::Result<Option<TcpStream>> {
    match listener.accept() {
        Ok((stream, _)) => Ok(Some(stream)),
        Err(e) if is_passing(&e) => Ok(None),
        Err(e) => Err(e),
    }
}

//! How a connection is closed.

use rw_socket::{Deadline, Timely};
use std::io::Read;
use std::net::{Shutdown, TcpStream};
use std::time::{Clock, Duration};

/// For how many seconds a client may go on writing after the last reply.
const GRACE_SECONDS: u64 = 1;

/// How many bytes one read asks for.
const CHUNK: usize = 16_384;

/// How many reads are made of bytes that are discarded: 64 MiB.
const MOST_READS: u32 = 4_096;

/// Closes the writing side of a connection, and reads what still comes until the client closes its
/// own, for a second at most.
///
/// A connection that is closed while bytes are unread is reset, and then a client that is still
/// writing its body never sees the reply (RFC 9112, section 9.6).
pub(crate) fn close_gracefully<C: Clock>(clock: &C, stream: &TcpStream) {
    if stream.shutdown(Shutdown::Write).is_err() {
        return;
    }
    let mut rest = Timely::new(
        stream,
        Deadline::new(clock, Duration::from_secs(GRACE_SECONDS)),
    );
    let mut chunk = [0; CHUNK];
    for _ in 0..MOST_READS {
        match rest.read(&mut chunk) {
            Ok(0) | Err(_) => return,
            Ok(_) => {}
        }
    }
}

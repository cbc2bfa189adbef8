//! Reads heads and bodies from a connection.

ghost use Rattle.std.specs.Prelude.{true, ◌≡◌, ◌≢◌, ◌+◌, ◌*◌, ◌++◌, ◌<◌, ◌≤◌, max, length, Some, Err, IfOk, OnOk, OnErr, IsOk, vec_len, vec_capacity, option_map};
ghost use Rattle.std.specs.Io.KnownBytes.{Keeps, IsAtEnd, prepend_known};
ghost use Rattle.rw_endpoint.specs.inner.Reading.{HasRead, HasBody, ReadsMore};

use crate::finding::Finding;
use crate::head::{RequestReading, read_head};
use crate::intake::Intake;
use crate::pending::{MAX_HEAD_BYTES, Pending};
use crate::read_from::ReadFrom;
use rw_types::Failed;
use std::alloc::Global;

/// The most bytes of a body that one read asks for.
const CHUNK: usize = 16 * 1024;

/// The most bytes of a body for which room is made at first.
const FIRST_ROOM: usize = 64 * 1024;

/// Why no body could be read.
#[derive(Clone, Copy, Debug, PartialEq, Eq)]
pub(crate) enum Stop {
    Device,
    OutOfMemory,
}

/// What is at the front of the input.
#[derive(Clone, Copy, Debug, PartialEq, Eq)]
pub(crate) enum Front {
    /// A whole head: what it asks for, and how many bytes it takes.
    Head(Finding, usize),
    /// No head, whatever follows.
    Never,
    /// No head, and nothing follows.
    End,
}

/// Appends some bytes of a head to those that wait, and returns how many. 0 means the end of the
/// input.
fn read_pending<R, T: ReadFrom<R>>(reader: &mut R, pending: &mut Pending) -> Result<usize, Failed>
    requires { length pending.old < 8192 }
    ensures kept { OnOk result
        (Keeps (prepend_known pending.old (T.remaining reader.old))
        (prepend_known pending.new (T.remaining reader.new))) }
    ensures end { IfOk result (λ n. n ≡ 0 → IsAtEnd (T.remaining reader.new)
        × (pending.new ≡ pending.old)) }
    ensures len { IfOk result (λ n. length pending.new ≡ length pending.old + n) }
    ensures bound { OnOk result (length pending.new ≤ 8192) }
    ensures recorded { ReadsMore (T.past reader.old) (T.past reader.new)
        (λ more. OnOk result (pending.new ≡ pending.old ++ more)) }
    ensures failed { OnErr result (T.has_failed reader.new ≡ true) }
    ensures sure { T.is_sure reader.old ≡ true
        → (T.is_sure reader.new ≡ true) × IsOk result }
{
    let mut chunk = [0; MAX_HEAD_BYTES];
    let room = MAX_HEAD_BYTES - pending.len();
    match T::read(reader, &mut chunk[..room]) {
        Ok(n) => {
            pending.append(&chunk[..n]);
            Ok(n)
        }
        Err(failed) => Err(failed),
    }
}

/// Appends some bytes to those of a body, at most `most`, and returns how many. 0 means the end of
/// the input.
fn read_more<R, T: ReadFrom<R>>(
    reader: &mut R,
    body: &mut Vec<u8>,
    most: usize,
) -> Result<usize, Stop>
    requires { 0 < most }
    ensures kept { OnOk result
        (Keeps (prepend_known body.old.items (T.remaining reader.old))
        (prepend_known body.new.items (T.remaining reader.new))) }
    ensures end { IfOk result (λ n. n ≡ 0 → IsAtEnd (T.remaining reader.new)
        × (body.new.items ≡ body.old.items)) }
    ensures len { IfOk result (λ n. vec_len body.new ≡ vec_len body.old + n) }
    ensures bound { IfOk result (λ n. n ≤ most) }
    ensures recorded { ReadsMore (T.past reader.old) (T.past reader.new)
        (λ more. OnOk result (body.new.items ≡ body.old.items ++ more)) }
    ensures failed { result ≡ Err Stop.Device → T.has_failed reader.new ≡ true }
    ensures sure { T.is_sure reader.old ≡ true
        → (T.is_sure reader.new ≡ true) × (result ≢ Err Stop.Device) }
{
    let mut chunk = [0; CHUNK];
    let size = most.min(CHUNK);
    let n = match T::read(reader, &mut chunk[..size]) {
        Ok(n) => n,
        Err(_) => return Err(Stop::Device),
    };
    match body.extend_from_slice(&chunk[..n]) {
        Ok(()) => Ok(n),
        Err(_) => Err(Stop::OutOfMemory),
    }
}

/// Reads until a head is at the front of the input, or no head can be there. This takes no memory.
pub(crate) fn read_front<R, T: ReadFrom<R>>(
    reader: &mut R,
    pending: &mut Pending,
    path: &[u8],
    intake: Intake,
) -> Result<Front, Failed>
    ensures kept { OnOk result
        (Keeps (prepend_known pending.old (T.remaining reader.old))
        (prepend_known pending.new (T.remaining reader.new))) }
    ensures front { IfOk result
        (HasRead path.now intake pending.new (T.remaining reader.new)) }
    ensures recorded { ReadsMore (T.past reader.old) (T.past reader.new)
        (λ more. OnOk result (pending.new ≡ pending.old ++ more)) }
    ensures failed { OnErr result (T.has_failed reader.new ≡ true) }
    ensures sure { T.is_sure reader.old ≡ true
        → (T.is_sure reader.new ≡ true) × IsOk result }
{
    loop {
        match read_head(pending.as_slice(), path, intake) {
            RequestReading::Head(finding, len) => return Ok(Front::Head(finding, len)),
            RequestReading::Never => return Ok(Front::Never),
            RequestReading::More => match read_pending::<R, T>(reader, pending) {
                Ok(0) => return Ok(Front::End),
                Ok(_) => {}
                Err(failed) => return Err(failed),
            },
        }
    }
}

/// Makes room for more of a body of `n` bytes if there is none: as much as has come, or 64 KiB, and
/// never past its end. So a length that is only announced takes 64 KiB at most.
fn make_room(body: &mut Vec<u8>, n: usize) -> Result<usize, Stop>
    requires { vec_len body.old < n }
    ensures items { body.new.items ≡ body.old.items }
    ensures len { vec_len body.new ≡ vec_len body.old }
    ensures some { IfOk result (λ room. 0 < room) }
    ensures within { IfOk result (λ room. vec_len body.new + room ≤ n) }
    ensures there { IfOk result (λ room. vec_len body.new + room ≤ vec_capacity body.new) }
    ensures slow { vec_capacity body.new
        ≤ max (vec_capacity body.old) (2 * vec_len body.old + 65536) }
    ensures failed { result ≢ Err Stop.Device }
{
    let left = n - body.len();
    let spare = body.capacity() - body.len();
    if spare > 0 {
        return Ok(left.min(spare));
    }
    let room = left.min(body.len().max(FIRST_ROOM));
    match body.reserve_exact(room) {
        Ok(()) => Ok(room),
        Err(_) => Err(Stop::OutOfMemory),
    }
}

/// Reads a body of `n` bytes, or returns `None` if the input ends before.
pub(crate) fn read_body<R, T: ReadFrom<R>>(
    alloc: Global,
    reader: &mut R,
    pending: &mut Pending,
    n: usize,
) -> Result<Option<Vec<u8>>, Stop>
    ensures body { IfOk result
        (λ body. HasBody (prepend_known pending.old (T.remaining reader.old))
        (prepend_known pending.new (T.remaining reader.new)) n
        (option_map (λ v. v.items) body)) }
    ensures recorded { ReadsMore (T.past reader.old) (T.past reader.new)
        (λ more. IfOk result (λ body. HasBody (Some (pending.old ++ more)) (Some pending.new) n
        (option_map (λ v. v.items) body))) }
    ensures failed { result ≡ Err Stop.Device → T.has_failed reader.new ≡ true }
    ensures sure { T.is_sure reader.old ≡ true
        → (T.is_sure reader.new ≡ true) × (result ≢ Err Stop.Device) }
{
    let mut body = Vec::new(alloc);
    let front = n.min(pending.len());
    match body.extend_from_slice(&pending.as_slice()[..front]) {
        Ok(()) => {}
        Err(_) => return Err(Stop::OutOfMemory),
    }
    pending.drop_front(front);
    while body.len() < n {
        let room = make_room(&mut body, n)?;
        let more = match read_more::<R, T>(reader, &mut body, room) {
            Ok(more) => more,
            Err(stop) => return Err(stop),
        };
        if more == 0 {
            return Ok(None);
        }
    }
    Ok(Some(body))
}

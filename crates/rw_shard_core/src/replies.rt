//! Reads the status of the reply to a request.

ghost use Rattle.std.specs.Prelude.{◌≡◌, ◌≤◌, length, drop};
ghost use Rattle.rw_shard_core.specs.Replies.{ReadsReply};
ghost use Rattle.rw_shard_core.specs.inner.Replies.{Found};

use httparse::Status;
use httparse::spans::{EMPTY_HEADER_SPAN, parse_response};

/// The most bytes that the heads of a reply may take together.
pub const MAX_HEAD_BYTES: usize = 8192;

/// The most fields that a head of a reply may have.
pub const MAX_FIELDS: usize = 64;

/// What the bytes that have come of a reply say.
#[derive(Clone, Copy, Debug, PartialEq, Eq)]
pub enum ReplyRead {
    /// They end before the head that has the status is whole.
    Partial,
    /// The status of the first head that is not informational, from 200 to 999.
    Status(u16),
    /// No bytes that follow can make a reply of them: they are not a head, pass a limit, or have a
    /// status below 100.
    Bad,
}

/// What comes at the front of a reply.
enum Front {
    /// An informational head, and how many bytes it takes.
    Informational(usize),
    /// What decides what the reply says.
    Decided(ReplyRead),
}

/// Returns what comes at the front of a text whose heads may take `room` bytes.
fn front_of(text: &[u8], room: usize) -> Front
    ensures { Found room text.now result }
{
    let mut headers = [EMPTY_HEADER_SPAN; MAX_FIELDS];
    match parse_response(text, &mut headers) {
        Ok(Status::Partial) => {
            if text.len() < room {
                Front::Decided(ReplyRead::Partial)
            } else {
                Front::Decided(ReplyRead::Bad)
            }
        }
        Ok(Status::Complete(head)) => {
            if head.len > room {
                Front::Decided(ReplyRead::Bad)
            } else if head.code < 100 {
                Front::Decided(ReplyRead::Bad)
            } else if head.code < 200 {
                Front::Informational(head.len)
            } else {
                Front::Decided(ReplyRead::Status(head.code))
            }
        }
        Err(_) => Front::Decided(ReplyRead::Bad),
    }
}

/// Returns the text after its first `len` bytes.
fn without(text: &[u8], len: usize) -> &[u8]
    requires { len ≤ length text.now }
    ensures { result.now ≡ drop len text.now }
{
    &text[len..]
}

/// Returns what the bytes of a reply say (RFC 9112). Informational heads (status 100 to 199) are
/// skipped, and what follows the head with the status is ignored.
///
/// A head is what `httparse` reads as one: empty lines may come first and count among its bytes,
/// and LF alone ends a line. This takes no memory.
pub fn read_reply(text: &[u8]) -> ReplyRead
    ensures { ReadsReply 8192 text.now result }
{
    let mut rest = text;
    let mut room = MAX_HEAD_BYTES;
    loop {
        match front_of(rest, room) {
            Front::Informational(len) => {
                rest = without(rest, len);
                room -= len;
            }
            Front::Decided(read) => return read,
        }
    }
}

//! Replies with each byte changed to each other value, and cut at each length. `rt try --test` is
//! too slow for it.

use crate::changed::{Reader, wrong_byte};
use crate::plain_reply::plain_reply;
use crate::rows::no_byte_is_wrong;
use rw_shard_core::read_reply;

/// One that comes after another head.
const CONTINUED: &[u8] =
    b"HTTP/1.1 100 Continue\r\n\r\nHTTP/1.1 204 No Content\r\nConnection: close\r\n\r\n";

/// One with fields.
const REFUSAL: &[u8] =
    b"HTTP/1.1 429 Too Many Requests\r\nRetry-After: 1\r\nContent-Length: 0\r\nConnection: close\r\n\r\n";

/// Returns whether the bytes of a reply say what is expected.
pub(crate) fn is_read(text: &[u8]) -> bool {
    read_reply(text) == plain_reply(text)
}

#[test]
fn each_byte_changed_and_cut(rt: HostRuntime) {
    no_byte_is_wrong(&rt, wrong_byte(Reader::Replies, rt.alloc(), CONTINUED));
    no_byte_is_wrong(&rt, wrong_byte(Reader::Replies, rt.alloc(), REFUSAL));
}

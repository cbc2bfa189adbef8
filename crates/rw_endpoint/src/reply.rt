//! The replies, which take no memory.

ghost use Rattle.std.specs.Prelude.{◌≡◌, ◌||◌, IsTrue, true, false};
ghost use Rattle.rw_endpoint.specs.Judgement.{is_refusal};
ghost use Rattle.rw_endpoint.specs.Replies.{reply_bytes, is_body_status};

/// Returns the reply with this status after which the connection closes.
#[tactic(auto, unfolding(crate::specs::Replies::reply_bytes))]
pub(crate) fn closing_reply(status: u16) -> &'static [u8]
    requires { IsTrue (is_body_status status || is_refusal status) }
    ensures { result.now ≡ reply_bytes status true }
{
    match status {
        204 => b"HTTP/1.1 204 No Content\r\nConnection: close\r\n\r\n".as_slice(),
        400 =>
            b"HTTP/1.1 400 Bad Request\r\nContent-Length: 0\r\nConnection: close\r\n\r\n".as_slice(),
        404 =>
            b"HTTP/1.1 404 Not Found\r\nContent-Length: 0\r\nConnection: close\r\n\r\n".as_slice(),
        405 =>
            b"HTTP/1.1 405 Method Not Allowed\r\nAllow: POST\r\nContent-Length: 0\r\nConnection: close\r\n\r\n".as_slice(),
        411 =>
            b"HTTP/1.1 411 Length Required\r\nContent-Length: 0\r\nConnection: close\r\n\r\n".as_slice(),
        413 =>
            b"HTTP/1.1 413 Content Too Large\r\nContent-Length: 0\r\nConnection: close\r\n\r\n".as_slice(),
        415 =>
            b"HTTP/1.1 415 Unsupported Media Type\r\nContent-Length: 0\r\nConnection: close\r\n\r\n".as_slice(),
        429 =>
            b"HTTP/1.1 429 Too Many Requests\r\nContent-Length: 0\r\nConnection: close\r\n\r\n".as_slice(),
        _ =>
            b"HTTP/1.1 503 Service Unavailable\r\nContent-Length: 0\r\nConnection: close\r\n\r\n".as_slice(),
    }
}

/// Returns the reply with this status after which the connection stays open.
#[tactic(auto, unfolding(crate::specs::Replies::reply_bytes))]
pub(crate) fn staying_reply(status: u16) -> &'static [u8]
    requires { IsTrue (is_body_status status) }
    ensures { result.now ≡ reply_bytes status false }
{
    match status {
        204 => b"HTTP/1.1 204 No Content\r\n\r\n".as_slice(),
        400 => b"HTTP/1.1 400 Bad Request\r\nContent-Length: 0\r\n\r\n".as_slice(),
        413 => b"HTTP/1.1 413 Content Too Large\r\nContent-Length: 0\r\n\r\n".as_slice(),
        429 => b"HTTP/1.1 429 Too Many Requests\r\nContent-Length: 0\r\n\r\n".as_slice(),
        _ => b"HTTP/1.1 503 Service Unavailable\r\nContent-Length: 0\r\n\r\n".as_slice(),
    }
}

//! Reads the head of a request.

ghost use Rattle.std.specs.Prelude.{◌≤◌, length};
ghost use Rattle.rw_endpoint.specs.inner.Reading.{Judges};

use crate::fields::has_field;
use crate::finding::{Finding, judge_body};
use crate::intake::Intake;
use crate::pending::MAX_HEAD_BYTES;
use httparse::Status;
use httparse::spans::{EMPTY_HEADER_SPAN, HeaderSpan, parse_request};

/// The most fields of a head.
const MAX_FIELDS: usize = 64;

/// What the bytes of a request that have come say.
#[derive(Clone, Copy, Debug, PartialEq, Eq)]
pub enum RequestReading {
    /// A whole head: what it asks for, and how many bytes it takes.
    Head(Finding, usize),
    /// More bytes have to come.
    More,
    /// There is no head within the limits, whatever follows.
    Never,
}

/// Reads the head of the request that these bytes begin.
pub(crate) fn read_head(buf: &[u8], path: &[u8], intake: Intake) -> RequestReading
    requires { length buf.now ≤ 8192 }
    ensures { Judges path.now intake buf.now result }
{
    let mut headers = [EMPTY_HEADER_SPAN; MAX_FIELDS];
    let head = match parse_request(buf, &mut headers) {
        Ok(Status::Complete(head)) => head,
        Ok(Status::Partial) => {
            return if buf.len() < MAX_HEAD_BYTES {
                RequestReading::More
            } else {
                RequestReading::Never
            };
        }
        Err(_) => return RequestReading::Never,
    };
    let fields = &headers[..head.headers];
    let finding = if head.path.of(buf) != path {
        Finding::Refused(404)
    } else if head.method.of(buf) != b"POST".as_slice() {
        Finding::Refused(405)
    } else if has_field(buf, fields, b"transfer-encoding")
        || !has_field(buf, fields, b"content-length")
    {
        Finding::Refused(411)
    } else {
        judge_body(buf, fields, head.version, intake)
    };
    RequestReading::Head(finding, head.len)
}

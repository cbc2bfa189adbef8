//! What the head of a request asks for.

ghost use Rattle.std.specs.Prelude.{◌≡◌, length, map, All};
ghost use Rattle.httparse.specs.Spans.{IsHeaderWithin, header_bytes};
ghost use Rattle.rw_endpoint.specs.Judgement.{body_finding};
ghost use Rattle.rw_endpoint.specs.Values.{announced};

use crate::coding::Coding;
use crate::fields::{announced, are_protobuf, coding_of, has_close};
use crate::intake::Intake;
use httparse::spans::HeaderSpan;

/// What the head of a request asks for.
#[derive(Clone, Copy, Debug, PartialEq, Eq)]
pub enum Finding {
    /// It is answered with this status, and the connection closes.
    Refused(u16),
    /// A body of `len` bytes in a content coding follows, which is to be answered. `closes` says
    /// whether the connection closes after the reply.
    Body {
        len: u64,
        closes: bool,
        coding: Coding,
    },
}

/// Returns what the fields of a head say about the body after it.
pub(crate) fn judge_body(buf: &[u8], fields: &[HeaderSpan], minor: u8, intake: Intake) -> Finding
    requires { All (IsHeaderWithin (length buf.now)) fields.now }
    ensures { let fields = map (header_bytes buf.now) fields.now in
        result ≡ body_finding intake minor fields (announced fields) }
{
    let len = match announced(buf, fields) {
        Some(len) => len,
        None => return Finding::Refused(400),
    };
    if len > intake.limit {
        return Finding::Refused(413);
    }
    if !are_protobuf(buf, fields) {
        return Finding::Refused(415);
    }
    let coding = match coding_of(buf, fields, intake) {
        Some(coding) => coding,
        None => return Finding::Refused(415),
    };
    Finding::Body {
        len,
        closes: minor == 0 || has_close(buf, fields),
        coding,
    }
}

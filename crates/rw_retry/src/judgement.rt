//! What the status of a reply means for a batch.

ghost use Rattle.std.specs.Prelude.{◌≡◌};
ghost use Rattle.rw_retry.specs.Judgements.{judgement_of};

use http::StatusCode;

/// What becomes of a batch after a reply.
#[derive(Clone, Copy, Debug, PartialEq, Eq)]
pub enum Judgement {
    /// 2xx: the receiver has it.
    Done,
    /// 429 and 5xx: it is sent again, with the same bytes.
    Again,
    /// Any other status: the receiver will never take it.
    Refused,
}

/// Returns what a reply of this status means for its batch (Remote-Write 1.0, "Retries & backoff").
/// This takes no memory.
pub fn judge(status: StatusCode) -> Judgement
    ensures { result ≡ judgement_of status }
{
    if status.is_success() {
        return Judgement::Done;
    }
    if status.is_server_error() || status == StatusCode::TOO_MANY_REQUESTS {
        return Judgement::Again;
    }
    Judgement::Refused
}

//! Batches of which it is not known whether the receiver has taken them.

ghost use Rattle.std.specs.Prelude.{◌≡◌};
ghost use Rattle.rw_tcp.specs.Doubts.{may_be_taken, is_unsure};

/// Returns whether the receiver may have taken a batch after an attempt that was answered with this
/// status, or not answered, if it may have taken it before.
pub(crate) fn may_be_taken(before: bool, status: Option<u16>) -> bool
    ensures { result ≡ may_be_taken before status }
{
    match status {
        None => true,
        Some(status) => before || status == 502 || status == 504,
    }
}

/// Returns whether it is not known if the receiver holds a batch that it has refused with this
/// status, if it may have taken it before.
pub(crate) fn is_unsure(before: bool, status: u16) -> bool
    ensures { result ≡ is_unsure before status }
{
    before && status == 400
}

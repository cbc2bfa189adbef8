//! Why attempts to send a batch fail.

/// Why an attempt failed.
#[derive(Clone, Copy, Debug, PartialEq, Eq)]
pub enum Cause {
    /// No connection was made.
    Connect,
    /// The time of the attempt was over.
    Timeout,
    /// The connection broke.
    Broken,
    /// The reply ended before its status.
    Ended,
    /// What came is not a reply.
    BadReply,
    /// Memory ran out.
    Memory,
    /// The receiver answered with this status, which does not take the batch.
    Status(u16),
}

/// Returns the number by which an atomic word stores a cause: that of a status is the status.
pub(crate) fn number_of(cause: Cause) -> u64 {
    match cause {
        Cause::Connect => 1,
        Cause::Timeout => 2,
        Cause::Broken => 3,
        Cause::Ended => 4,
        Cause::BadReply => 5,
        Cause::Memory => 6,
        Cause::Status(status) => status as u64,
    }
}

/// Returns the cause of a number.
pub(crate) fn cause_of(number: u64) -> Option<Cause> {
    match number {
        0 => None,
        1 => Some(Cause::Connect),
        2 => Some(Cause::Timeout),
        3 => Some(Cause::Broken),
        4 => Some(Cause::Ended),
        5 => Some(Cause::BadReply),
        6 => Some(Cause::Memory),
        _ => Some(Cause::Status(number.min(999) as u16)),
    }
}

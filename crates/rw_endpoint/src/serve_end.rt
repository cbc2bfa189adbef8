//! How the serving of a connection ends.

/// How the serving of a connection ended.
#[derive(Clone, Copy, Debug, PartialEq, Eq)]
pub enum ServeEnd {
    /// The input ended before the first byte of a request.
    Eof,
    /// A reply closed the connection.
    Closed,
    /// The input ended inside a request, which has no reply.
    Torn,
    /// The reader or the writer failed.
    Device,
    /// Memory ran out for the body of a request, which has no reply; or 2^64 - 1 requests had
    /// theirs.
    OutOfMemory,
}

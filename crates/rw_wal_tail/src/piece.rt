//! The pieces in which a log comes.

use rw_history::History;

/// A piece of a log: bytes of the current segment, or its end.
#[derive(Debug, Drop)]
pub enum Piece {
    /// The bytes that follow, possibly no bytes.
    Bytes(Vec<u8>),
    /// The current segment has ended.
    NextSegment,
}

/// A piece that a reader was fed, whose bytes only contracts see.
#[derive(Drop)]
pub(crate) enum Told {
    Bytes(History<u8>),
    NextSegment,
    MayCompress,
}

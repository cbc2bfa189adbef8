//! Which fault a log has, and where.

use rw_wal_format::TailFault;

/// Where in a log a fault was found.
#[derive(Clone, Copy, Debug, PartialEq, Eq, Drop)]
pub struct FaultPlace {
    /// How many segments come before the one with the fault.
    pub segment: u64,
    /// The offset, in bytes, in that segment: of the fragment, or of the zeros at the end of a
    /// page, at which the fault is found. The fault of a record is found at its last fragment. If a
    /// segment ends inside a record, it is the offset of the fragment that is not whole, or the end
    /// of the segment if each fragment is whole.
    pub offset: u64,
}

/// A fault of a log, and where it is.
#[derive(Clone, Copy, Debug, PartialEq, Eq)]
pub struct Damage {
    pub fault: TailFault,
    /// No clause says that it is known.
    pub place: Option<FaultPlace>,
}

//! How the work of a sender ended.

use rw_wal_format::TailFault;

/// How the work of a sender ended.
#[derive(Debug, PartialEq, Eq, Drop)]
pub enum Outcome {
    /// All entries before this position were placed, and each sample that was put is resolved: a
    /// receiver has it, or the ledger names it.
    Complete(u64),
    /// The work was stopped. The entries before the position `placed` were placed. The samples at
    /// the positions `samples` were put and are not resolved: a receiver may have them or not.
    Abandoned { placed: u64, samples: Vec<u64> },
    /// The log has this fault. All entries before it were placed, and each sample that was put is
    /// resolved.
    Damaged(TailFault),
}

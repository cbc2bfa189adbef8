//! Numbers of a receiver.

use crate::refusals::RefusedSamples;
use crate::skipped_parts::SkippedParts;

/// How much a receiver has written to the log of a folder.
#[derive(Clone, Copy, Debug, PartialEq, Eq)]
pub struct KeptNumbers {
    /// Bytes that were written.
    pub bytes: u64,
    /// Syncs that have succeeded.
    pub syncs: u64,
    /// Microseconds that they took.
    pub sync_micros: u64,
    /// Segments that were begun.
    pub segments: u64,
    /// Writes, syncs and new segments that failed.
    pub failed: u64,
    /// Segments that were there at the start.
    pub found: u64,
    /// How many of them were read. Nothing is answered before that is all.
    pub read: u64,
    /// How many bytes these have.
    pub opening_bytes: u64,
}

/// How much a receiver has in memory that keeps only the latest samples there.
#[derive(Clone, Copy, Debug, PartialEq, Eq)]
pub struct MemoryNumbers {
    /// Samples that are in memory.
    pub samples: u64,
    /// Series of which a sample came that may be gone from memory, added up over all looks.
    pub asked: u64,
}

/// The values of a receiver's counters when they were read, one after the other.
#[derive(Drop)]
pub struct ReceiveNumbers {
    /// Open connections.
    pub connections: u64,
    /// Connections that were accepted.
    pub accepted: u64,
    /// Accepts that failed.
    pub refused: u64,
    /// What was answered: the statuses in ascending order, each with how often it came.
    pub statuses: Vec<(u16, u64)>,
    /// How many samples the refused requests had, by reason.
    pub refused_samples: RefusedSamples,
    /// How much acknowledged requests had that is not held, by kind.
    pub skipped: SkippedParts,
    /// Samples that are held.
    pub samples: u64,
    /// Label sets of which samples are held.
    pub label_sets: u64,
    /// How many samples may be held; 0 if there is no limit.
    pub max_samples: u64,
    /// How many label sets they may be of; 0 if there is no limit.
    pub max_label_sets: u64,
    /// What is in memory, if only the latest samples are.
    pub memory: Option<MemoryNumbers>,
    /// What was written to the log of a folder, if the receiver has one.
    pub kept: Option<KeptNumbers>,
}

//! The records of a log that were passed over, by type.

use rw_wal_tail::{SkippedType, Tail};
use std::alloc::{AllocError, Global};

/// The types that such a record may have, those first that may hold samples.
const TYPES: [SkippedType; 9] = [
    SkippedType::Histograms,
    SkippedType::FloatHistograms,
    SkippedType::CustomHistograms,
    SkippedType::CustomFloatHistograms,
    SkippedType::Unknown,
    SkippedType::Tombstones,
    SkippedType::Exemplars,
    SkippedType::MmapMarkers,
    SkippedType::Metadata,
];

/// How many records of a type were passed over.
#[derive(Clone, Copy, Debug, PartialEq, Eq)]
pub struct SkippedRecords {
    pub kind: SkippedType,
    pub count: u64,
}

/// Returns the types of the records that a reader has passed over, each with how many.
pub(crate) fn skipped_records(
    alloc: Global,
    tail: &Tail,
) -> Result<Vec<SkippedRecords>, AllocError> {
    let mut found = Vec::new(alloc);
    for kind in TYPES {
        let count = tail.skipped_of(kind);
        if count > 0 {
            found.push(SkippedRecords { kind, count })?;
        }
    }
    Ok(found)
}

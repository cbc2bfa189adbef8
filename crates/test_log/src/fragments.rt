//! Fragments of a log, and the records of one series.

use rw_codes::crc32c;
use rw_test_parts::raw_labels;
use rw_types::Room;
use rw_wal_write::{SegmentWriter, series_record};
use std::alloc::{AllocError, Global};

/// Adds a fragment.
pub(crate) fn put_fragment(out: &mut Vec<u8>, kind: u8, data: &[u8]) -> Result<(), AllocError> {
    let [high, low] = ((data.len() % 65_536) as u16).to_be_bytes();
    out.extend_from_slice(&[kind, high, low])?;
    out.extend_from_slice(&crc32c(data).to_be_bytes())?;
    out.extend_from_slice(data)
}

/// Returns the record of the reference 1 as `{__name__="up"}`.
pub(crate) fn up_record(alloc: Global) -> Result<Vec<u8>, AllocError> {
    series_record(alloc, 1, &raw_labels(alloc, &[("__name__", "up")])?)
}

/// Returns whether there is a record, and it is logged.
pub(crate) fn is_logged(
    writer: &mut SegmentWriter<Room>,
    record: Result<Vec<u8>, AllocError>,
) -> bool {
    match record {
        Ok(record) => !record.is_empty() && writer.log(&record).is_ok(),
        Err(_) => false,
    }
}

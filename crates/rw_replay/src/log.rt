//! The log that the `log` lines of a script write.

ghost use Rattle.std.specs.Prelude.{◌≡◌, ◌*◌, ◌<◌, ◌≤◌, length, true, IfOk, MatchOption};
ghost use Rattle.rw_wal_write.specs.Segment.{IsPlace};
ghost use Rattle.rw_replay.specs.Played.{segment_pages, is_full};
ghost use Rattle.rw_replay.specs.inner.Writing.{IsWritten};

use crate::growing::Growing;
use rw_wal_write::{LogFault, SegmentWriter};
use std::alloc::{AllocError, Global};

/// The most pages of a segment.
const SEGMENT_PAGES: usize = 4096;

/// The bytes that are written for a record, and how many bytes of its segment are written then.
#[derive(Drop)]
pub(crate) struct Written {
    pub(crate) bytes: Vec<u8>,
    pub(crate) offset: usize,
}

fn end_writing(writer: SegmentWriter<Growing>) -> Written
    ensures bytes { result.bytes.items ≡ writer.sink.bytes.items }
    ensures offset { result.offset ≡ writer.offset }
    ensures place { IsPlace writer.pages writer.offset }
{
    let offset = writer.offset();
    Written {
        bytes: writer.into_inner().bytes,
        offset,
    }
}

/// Writes a record after `offset` bytes of a segment; `None` if it has no room there.
pub(crate) fn write_behind(
    alloc: Global,
    offset: usize,
    rec: &[u8],
) -> Result<Option<Written>, AllocError>
    requires some { 0 < length rec.now }
    requires short { length rec.now ≤ 16 * 1024 * 1024 }
    requires place { IsPlace segment_pages offset }
    ensures { IfOk result (λ found. MatchOption found (is_full offset rec.now
        ≡ true) (λ w. IsWritten offset rec.now w.bytes.items w.offset)) }
{
    let mut writer = SegmentWriter::resume(Growing::new(alloc), SEGMENT_PAGES, offset);
    match writer.log(rec) {
        Ok(()) => Ok(Some(end_writing(writer))),
        Err(LogFault::SegmentFull) => Ok(None),
        Err(LogFault::Device) => Err(AllocError),
        Err(LogFault::RecordTooLong) => unreachable!(),
    }
}

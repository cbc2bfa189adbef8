//! The end of a log.

ghost use Rattle.std.specs.Prelude.{◌≡◌, ◌≤◌, ◌*◌, ◌++◌, map, IfOk};
ghost use Rattle.rw_wal_format.specs.Laws.{sample_entry};
ghost use Rattle.rw_wal_format.specs.Pieces.{page_size};
ghost use Rattle.rw_kept_log.specs.Journal.{Segments, with_more};
ghost use Rattle.rw_kept_log.specs.Logs.{entries_of};
ghost use Rattle.rw_kept_log.specs.Ends.{EndsAt};
ghost use Rattle.rw_kept_log.specs.Additions.{definition_entry};

use crate::append_error::AppendError;
use crate::buffer::Buffer;
use crate::laws::records_add_entries;
use crate::records::{put_definitions, put_samples};
use rw_types::{RawLabels, Word};
use rw_wal_write::SegmentWriter;
use std::alloc::Global;
use std::marker::Model;

/// The bytes of a usual sample in a record.
const SAMPLE_BYTES: usize = 12;

/// The end of a log: how many bytes its last segment has, of how many pages. Contracts see both.
#[derive(Debug, Drop)]
pub struct LogEnd {
    pages: usize,
    offset: usize,
}

impl Model for LogEnd {
    ghost use Rattle.rw_wal_write.specs.Segment.{IsPlace};
    ghost use Rattle.rw_kept_log.specs.Ends.{End};

    ghost Value = { End };

    ghost view = { λ e. record { pages = e.pages; offset = e.offset } };

    ghost invariant = { λ e. IsPlace e.pages e.offset };
}

impl LogEnd {
    /// Returns the end of a log whose last segment is empty, and gets at most `pages` pages of
    /// 32 KiB.
    pub fn new(pages: usize) -> LogEnd
        requires some { 1 ≤ pages }
        requires most { pages ≤ 4096 }
        ensures { result ≡ record { pages = pages; offset = 0 } }
    {
        LogEnd { pages, offset: 0 }
    }

    /// Law: the last segment has no more bytes than its pages. The call does nothing.
    pub fn conforms(&self)
        ensures place { self.now.offset ≤ self.now.pages * page_size }
        ensures bound { self.now.offset ≤ 4096 * 32768 }
    {
        let _ = &self.offset;
    }

    /// Returns how many bytes the last segment has.
    pub fn offset(&self) -> usize
        ensures offset { result ≡ self.now.offset }
        ensures place { result ≤ self.now.pages * page_size }
        ensures bound { result ≤ 4096 * 32768 }
    {
        self.offset
    }

    /// Returns the bytes to append to the last segment, and where the log ends after them. The log
    /// then has the entries that it had, after them the definitions of references, and after these
    /// the samples, each as (reference, timestamp in milliseconds, value).
    pub fn append(
        &self,
        alloc: Global,
        definitions: &[(u64, RawLabels)],
        samples: &[(u64, i64, Word)],
    ) -> Result<(Vec<u8>, LogEnd), AppendError>
        ensures pages { IfOk result (λ r. r.1.pages ≡ self.now.pages) }
        ensures entries { IfOk result (λ r. (segments : Segments) → EndsAt segments self.now.offset
            → entries_of page_size (with_more segments r.0.items)
            ≡ entries_of page_size segments
            ++ map definition_entry definitions.now ++ map sample_entry samples.now) }
        ensures end { IfOk result (λ r. (segments : Segments) → EndsAt segments self.now.offset
            → EndsAt (with_more segments r.0.items) r.1.offset) }
    {
        records_add_entries();
        let buffer = Buffer::new(alloc, samples.len().saturating_mul(SAMPLE_BYTES))?;
        let mut writer = SegmentWriter::resume(buffer, self.pages, self.offset);
        put_definitions(alloc, &mut writer, definitions)?;
        put_samples(alloc, &mut writer, samples)?;
        let end = LogEnd {
            pages: self.pages,
            offset: writer.offset(),
        };
        Ok((writer.into_inner().into_bytes(), end))
    }
}

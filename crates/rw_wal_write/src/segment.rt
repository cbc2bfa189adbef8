//! The writer of a segment (wal.md, "Segment encoding").

ghost use Rattle.std.specs.Prelude.{◌≡◌, ◌<◌, ◌≤◌, length, false, true, IfSome, None, Err, IfErr, OnOk};
ghost use Rattle.rw_wal_format.specs.Pieces.{page_size};
ghost use Rattle.rw_wal_format.specs.Writing.{log_bytes, room};
ghost use Rattle.rw_wal_write.specs.Segment.{IsPlace, IsLogged, log_refusal};
ghost use Rattle.rw_wal_write.specs.Sinks.{TakesPart};

use crate::fragment::put_record;
use crate::log_fault::LogFault;
use rw_types::Sink;
use rw_wal_format::{HEADER_BYTES, PAGE_BYTES};
use std::marker::Model;

/// The most bytes of a record.
const MAX_RECORD_BYTES: usize = 16 * 1024 * 1024;

/// Returns how many bytes of records have room in the rest of a segment, headers not counted.
fn room_in(pages: usize, offset: usize) -> usize
    requires { IsPlace pages offset }
    ensures { result ≡ room page_size pages offset }
{
    let rest = pages * PAGE_BYTES - offset;
    (rest % PAGE_BYTES).saturating_sub(HEADER_BYTES)
        + rest / PAGE_BYTES * (PAGE_BYTES - HEADER_BYTES)
}

/// Writes records to one segment of a log. Contracts see its device, the greatest number of pages,
/// the offset, and whether it is closed, as it is after `Device`.
#[derive(Debug, Drop)]
pub struct SegmentWriter<W: Sink> {
    sink: W,
    pages: usize,
    offset: usize,
    closed: bool,
}

impl<W: Sink> Model for SegmentWriter<W> {
    ghost use Rattle.std.specs.Prelude.{◌≡◌, true};
    ghost use Rattle.rw_wal_write.specs.Segment.{Segment, IsPlace};

    ghost Value = { Segment W };

    ghost view = { λ s. record {
      sink = s.sink;
      pages = s.pages;
      offset = s.offset;
      closed = s.closed;
    } };

    ghost invariant = { λ s. IsPlace s.pages s.offset
        × (s.closed ≡ true → W.has_failed s.sink ≡ true) };
}

impl<W: Sink> SegmentWriter<W> {
    /// Returns a writer of an empty segment, which has at most `pages` pages of 32 KiB.
    pub fn new(w: W, pages: usize) -> SegmentWriter<W>
        requires some { 1 ≤ pages }
        requires most { pages ≤ 4096 }
        ensures { result ≡ record { sink = w; pages = pages; offset = 0; closed = false } }
    {
        SegmentWriter {
            sink: w,
            pages,
            offset: 0,
            closed: false,
        }
    }

    /// Returns a writer that continues a segment of at most `pages` pages of 32 KiB, of which
    /// `offset` bytes are written.
    pub fn resume(w: W, pages: usize, offset: usize) -> SegmentWriter<W>
        requires { IsPlace pages offset }
        ensures { result ≡ record { sink = w; pages = pages; offset = offset; closed = false } }
    {
        SegmentWriter {
            sink: w,
            pages,
            offset,
            closed: false,
        }
    }

    /// Returns the offset, in bytes, after the records that were written whole, with their headers
    /// and zeros.
    pub fn offset(&self) -> usize
        ensures offset { result ≡ self.now.offset }
        ensures place { IsPlace self.now.pages result }
    {
        self.offset
    }

    /// Returns the device, failed or not.
    pub fn into_inner(self) -> W
        ensures sink { result ≡ self.sink }
        ensures failed { self.closed ≡ true → W.has_failed result ≡ true }
    {
        let SegmentWriter {
            sink,
            pages: _,
            offset: _,
            closed: _,
        } = self;
        sink
    }

    /// Writes a record after those that were written before. This takes no memory.
    ///
    /// If several refusals hold, `Device` comes before `RecordTooLong`, and that before
    /// `SegmentFull`. After `Device` the writer is closed, and each later call returns `Device`.
    pub fn log(&mut self, rec: &[u8]) -> Result<(), LogFault>
        requires { 0 < length rec.now }

        // A refused record writes nothing and leaves the writer as it was.
        ensures refused { IfSome (log_refusal self.old (length rec.now)) (λ fault. (result ≡ Err fault)
            × (self.new ≡ self.old)) }
        ensures taken { log_refusal self.old (length rec.now) ≡ None
            → IfErr result (λ fault. fault ≡ LogFault.Device) }

        ensures ok { OnOk result
            (IsLogged W.contents W.has_failed W.room self.old self.new rec.now) }

        // The device failed, in this call or an earlier one.
        ensures part { result ≡ Err LogFault.Device
            → TakesPart W.contents W.has_failed W.room self.old.sink self.new.sink
            (log_bytes page_size self.old.offset rec.now) }
        ensures closes { result ≡ Err LogFault.Device
            → self.new ≡ record self.old { sink = self.new.sink; closed = true } }
    {
        if self.closed {
            return Err(LogFault::Device);
        }
        if rec.len() > MAX_RECORD_BYTES {
            return Err(LogFault::RecordTooLong);
        }
        if rec.len() > room_in(self.pages, self.offset) {
            return Err(LogFault::SegmentFull);
        }
        match put_record(&mut self.sink, self.offset, rec) {
            Ok(end) => {
                self.offset = end;
                Ok(())
            }
            Err(_) => {
                self.closed = true;
                Err(LogFault::Device)
            }
        }
    }
}

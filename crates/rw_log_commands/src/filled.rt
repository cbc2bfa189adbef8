//! Segments of records in memory.

ghost use Rattle.std.specs.Prelude.{◌≡◌, ◌<◌, ◌≤◌, ℕ, List, [], ◌∷◌, true, false, IfOk, MatchBool};
ghost use Rattle.rw_log_commands.specs.inner.Filling.{HasMemory, TakesRecords};
ghost use Rattle.rw_text.specs.RecordLines.{lines};
ghost use Rattle.rw_log_commands.specs.LogText.{have_room, AreRecordsOfLines};
ghost use Rattle.rw_log_commands.specs.inner.LogText.{Fills};

use rw_text::{TextFault, first_line, read_record};
use rw_types::Room;
use rw_wal_format::PAGE_BYTES;
use rw_wal_write::{LogFault, SegmentWriter};
use std::alloc::{AllocError, Global};

/// Writes the record of a line, if it has one, and returns whether there was room for it.
fn log_line(
    alloc: Global,
    writer: &mut SegmentWriter<Room>,
    line: &[u8],
) -> Result<bool, AllocError>
    requires good { (recs : List (List ℕ)) × AreRecordsOfLines (line.now ∷ []) recs }
    requires memory { HasMemory writer.old }
    ensures { IfOk result (λ took. (recs : List (List ℕ)) × AreRecordsOfLines (line.now ∷ []) recs
        × MatchBool took (TakesRecords writer.old writer.new recs)
        ((writer.new ≡ writer.old) × (have_room writer.old.pages writer.old.offset recs ≡ false))) }
{
    if line.is_empty() {
        return Ok(true);
    }
    let rec = match read_record(alloc, line) {
        Ok(rec) => rec,
        Err(TextFault::OutOfMemory) => return Err(AllocError),
        Err(TextFault::NotOfForm) => unreachable!(),
    };
    match writer.log(&rec) {
        Ok(()) => Ok(true),
        Err(LogFault::SegmentFull) => Ok(false),
        Err(LogFault::Device) => unreachable!(),
        Err(LogFault::RecordTooLong) => unreachable!(),
    }
}

/// A segment, and the rest of a text after the lines whose records it holds.
#[derive(Drop)]
pub(crate) struct Filled<'a> {
    pub(crate) segment: Vec<u8>,
    pub(crate) rest: &'a [u8],
}

/// Returns a writer of a segment in memory.
fn new_segment(alloc: Global, pages: usize) -> Result<SegmentWriter<Room>, AllocError>
    requires some { 1 ≤ pages }
    requires most { pages ≤ 4096 }
    ensures { IfOk result (λ w. HasMemory w × (w.pages ≡ pages) × (w.sink.bytes ≡ [])) }
{
    Ok(SegmentWriter::new(Room::new(alloc, pages * PAGE_BYTES)?, pages))
}

fn end_filling(writer: SegmentWriter<Room>, rest: &[u8]) -> Filled<'_>
    ensures segment { result.segment.items ≡ writer.sink.bytes }
    ensures rest { result.rest.now ≡ rest.now }
{
    Filled {
        segment: writer.into_inner().into_bytes(),
        rest,
    }
}

/// Returns the segment of the records with which a text begins, as many as have room.
pub(crate) fn fill(alloc: Global, text: &[u8], pages: usize) -> Result<Filled<'_>, AllocError>
    requires some { 1 ≤ pages }
    requires most { pages ≤ 4096 }
    requires good { (recs : List (List ℕ)) × AreRecordsOfLines (lines text.now) recs }
    ensures { IfOk result (λ f. Fills pages text.now f.segment.items f.rest.now) }
{
    let mut writer = new_segment(alloc, pages)?;
    let mut rest = text;
    while !rest.is_empty() {
        let (line, more) = first_line(rest);
        if !log_line(alloc, &mut writer, line)? {
            return Ok(end_filling(writer, rest));
        }
        rest = more;
    }
    Ok(end_filling(writer, rest))
}

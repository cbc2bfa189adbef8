//! The command `log`, over any reader, into any writer or into a folder.

ghost use Rattle.std.specs.Prelude.{◌≡◌, ◌≢◌, ◌⊎◌, ◌≤◌, ℕ, List, true, false, Err, IfOk, OnOk, IfErr};
ghost use Rattle.rw_text.specs.RecordLines.{lines};
ghost use Rattle.rw_log_commands.specs.LogText.{have_room, segment_of, AreRecordsOfLines};
ghost use Rattle.rw_log_commands.specs.Logging.{IsFaultOfAny, IsFaultOfLog, ReadsAnyFault, ReadsRecords, ReadsFaulty, WritesLog, WritesLogPart};
ghost use Rattle.rw_log_commands.specs.inner.Logging.{IsForSegments, StopsLog};
ghost use Rattle.rw_wal_format.specs.declared.tail_fault.TailFault.{TailFault};
ghost use Rattle.rw_text.specs.declared.tool_fault.ToolFault.TheVariants.{OutOfMemory, Log, Line, SegmentFull, Device};

use crate::filled::fill;
use crate::log_text::judge;
use crate::run::{output_of, read_input};
use rw_text::ToolFault;
use rw_types::{Sink, Source, write_all};
use std::alloc::Global;
use std::fs;
use std::path::Path;
use std::rt::Files;

/// A page of a segment has 32 KiB, of which 7 bytes are the header of a fragment.
const PAGE_DATA_BYTES: usize = 32 * 1024 - 7;

/// The names of segment files have eight digits.
const MAX_SEGMENTS: u32 = 100_000_000;

/// Returns the segment of the records of log text.
fn one_segment(alloc: Global, text: &[u8], pages: usize) -> Result<Vec<u8>, ToolFault>
    requires some { 1 ≤ pages }
    requires most { pages ≤ 4096 }
    ensures ok { IfOk result (λ v. (recs : List (List ℕ)) × AreRecordsOfLines (lines text.now) recs
        × ((have_room pages 0 recs ≡ true) × (v.items ≡ segment_of recs))) }
    ensures err { IfErr result (IsFaultOfLog pages text.now) }
{
    judge(alloc, text)?;
    let filled = fill(alloc, text, pages)?;
    if !filled.rest.is_empty() {
        return Err(ToolFault::SegmentFull);
    }
    Ok(filled.segment)
}

/// Reads log text to its end, and returns the segment of its records.
fn read_segment<R: Source>(
    alloc: Global,
    reader: &mut R,
    pages: usize,
) -> Result<Vec<u8>, ToolFault>
    requires some { 1 ≤ pages }
    requires most { pages ≤ 4096 }
    ensures ok { IfOk result (λ v. (recs : List (List ℕ))
        × ReadsRecords pages (R.remaining reader.old) (R.remaining reader.new) recs
        × (v.items ≡ segment_of recs)) }
    ensures sound { OnOk result (R.has_failed reader.new ≡ false) }
    ensures err { IfErr result
        (StopsLog pages (R.remaining reader.old) (R.remaining reader.new)
        (R.has_failed reader.new)) }
{
    let text = read_input(alloc, reader)?;
    one_segment(alloc, &text, pages)
}

/// Reads log text and writes one segment (wal.md) of its records, of at most `pages` pages. The
/// text has one record a line: `series REF LABELS`, `sample REF T VALUE` or `raw HEX`. With `hex`
/// the output is lower case hexadecimal text and a newline. All lines are read and judged before
/// anything is written.
pub fn run_log<R: Source, W: Sink>(
    alloc: Global,
    reader: &mut R,
    writer: &mut W,
    hex: bool,
    pages: usize,
) -> Result<(), ToolFault>
    requires some { 1 ≤ pages }
    requires most { pages ≤ 4096 }
    ensures ok { OnOk result
        (WritesLog hex pages (R.remaining reader.old) (R.remaining reader.new)
        (W.contents writer.old) (W.contents writer.new)) }
    ensures reader_sound { OnOk result (R.has_failed reader.new ≡ false) }
    ensures writer_sound { OnOk result
        (W.has_failed writer.old ≡ false → W.has_failed writer.new ≡ false) }

    // A line that is not log text comes before records that have no room. Nothing is written in
    // either case.
    ensures line { (n : ℕ) → result ≡ Err (Line n)
        → ReadsFaulty pages (R.remaining reader.old) (R.remaining reader.new) (Line n) }
    ensures full { result ≡ Err SegmentFull
        → ReadsFaulty pages (R.remaining reader.old) (R.remaining reader.new) SegmentFull }
    ensures no_other { (f : TailFault) → result ≡ Err (Log f) → ⊥ }
    ensures untouched { IfErr result (λ e. e ≢ Device → writer.new ≡ writer.old) }

    // If a device fails, the writer holds a prefix of the output.
    ensures device { result ≡ Err Device
        → ((R.has_failed reader.new ≡ true) × (writer.new ≡ writer.old))
        ⊎ ((W.has_failed writer.new ≡ true)
        × WritesLogPart hex pages (R.remaining reader.old) (R.remaining reader.new)
        (W.contents writer.old) (W.contents writer.new)) }
{
    let segment = read_segment(alloc, reader, pages)?;
    let output = output_of(alloc, segment, hex)?;
    write_all(writer, &output)?;
    Ok(())
}

/// Judges the lines of log text, and whether each record has room in an empty segment.
fn judge_for_segments(alloc: Global, text: &[u8], pages: usize) -> Result<(), ToolFault>
    requires most { pages ≤ 4096 }
    ensures ok { OnOk result (IsForSegments pages text.now) }
    ensures err { IfErr result (IsFaultOfAny pages text.now) }
{
    let longest = judge(alloc, text)?;
    if longest > pages * PAGE_DATA_BYTES {
        return Err(ToolFault::SegmentFull);
    }
    Ok(())
}

/// Writes a segment into the file of its number. An existing file is replaced.
fn put_segment(
    rt: &impl Files,
    alloc: Global,
    dir: &str,
    number: u32,
    segment: &[u8],
) -> Result<(), ToolFault>
    ensures { IfErr result (λ e. (e ≡ OutOfMemory) ⊎ (e ≡ Device)) }
{
    let name = format!(in alloc; "{number:08}")?;
    let path = Path::new(dir).join(alloc, name.as_str())?;
    match fs::write(rt, path, segment) {
        Ok(()) => Ok(()),
        Err(_) => Err(ToolFault::Device),
    }
}

/// Writes the segments of log text one after the other.
fn put_segments(
    rt: &impl Files,
    alloc: Global,
    dir: &str,
    text: &[u8],
    pages: usize,
) -> Result<(), ToolFault>
    requires some { 1 ≤ pages }
    requires most { pages ≤ 4096 }
    requires good { IsForSegments pages text.now }
    ensures { IfErr result (λ e. (e ≡ OutOfMemory) ⊎ (e ≡ Device)) }
{
    let mut rest = text;
    for number in 0..MAX_SEGMENTS {
        let filled = fill(alloc, rest, pages)?;
        put_segment(rt, alloc, dir, number, &filled.segment)?;
        if filled.rest.is_empty() {
            return Ok(());
        }
        rest = filled.rest;
    }
    Err(ToolFault::Device)
}

/// Reads log text as `run_log` does, and writes its segments into the folder `dir`, as files
/// `00000000`, `00000001` and so on. A record that has no room in the rest of a segment begins the
/// next one. Without a record there is one empty file. All lines are read and judged before a file
/// is written.
pub fn run_log_dir<R: Source>(
    rt: &impl Files,
    alloc: Global,
    reader: &mut R,
    dir: &str,
    pages: usize,
) -> Result<(), ToolFault>
    requires some { 1 ≤ pages }
    requires most { pages ≤ 4096 }
    ensures fault { IfErr result (λ e. e ≢ OutOfMemory → e ≢ Device
        → ReadsAnyFault pages (R.remaining reader.old) (R.remaining reader.new) e) }
{
    let text = read_input(alloc, reader)?;
    judge_for_segments(alloc, &text, pages)?;
    put_segments(rt, alloc, dir, &text, pages)
}

//! The command `body`, over any reader and writer.

ghost use Rattle.std.specs.Prelude.{◌≡◌, ◌≢◌, ◌⊎◌, ℕ, List, true, false, Err, None, IfOk, OnOk, IfErr};
ghost use Rattle.std.specs.Io.KnownBytes.{Consumes, IsAtEnd};
ghost use Rattle.rw_wal_format.specs.declared.tail_fault.TailFault.{TailFault};
ghost use Rattle.rw_text.specs.declared.tool_fault.ToolFault.TheVariants.{OutOfMemory, Log, Line, SegmentFull, Device};
ghost use Rattle.rw_log_commands.specs.Body.{body_of_segment};
ghost use Rattle.rw_log_commands.specs.inner.Taking.{ReadsSegment, StopsReading};
ghost use Rattle.rw_log_commands.specs.Running.{output_of, ReadsInput, WritesBody, WritesPart, ReadsFault, ReadsLine};
ghost use Rattle.rw_log_commands.specs.inner.Running.{StopsInput};

use crate::labelling::Labelling;
use crate::log_read::read_segment;
use rw_text::ToolFault;
use rw_types::{Entry, Sink, Source, read_to_end, write_all};
use rw_wal_tail::Taker;
use rw_write_request::encode;
use std::alloc::{AllocError, Global};

impl Taker for Labelling {
    ghost taken = { λ l. l };

    ghost Fixed = { Unit {0} };

    ghost fixed = { λ _. tt };

    fn take(&mut self, entry: Entry) -> Result<(), AllocError> {
        Labelling::take(self, entry)
    }
}

/// Reads the input to its end.
pub(crate) fn read_input<R: Source>(alloc: Global, reader: &mut R) -> Result<Vec<u8>, ToolFault>
    ensures read { IfOk result
        (λ v. Consumes (R.remaining reader.old) (R.remaining reader.new) v.items) }
    ensures end { OnOk result (IsAtEnd (R.remaining reader.new)) }
    ensures sound { OnOk result (R.has_failed reader.new ≡ false) }
    ensures err { IfErr result
        (λ e. (e ≡ OutOfMemory) ⊎ ((e ≡ Device) × (R.has_failed reader.new ≡ true))) }
{
    let mut input = Vec::new(alloc);
    read_to_end(alloc, reader, &mut input)?;
    Ok(input)
}

/// Reads a log segment (wal.md) to its end, and returns the canonical body of its samples that have
/// a label set (Remote-Write 1.0).
fn read_body<R: Source>(
    alloc: Global,
    reader: &mut R,
    may_compress: bool,
) -> Result<Vec<u8>, ToolFault>
    ensures ok { IfOk result (λ v. (segment : List ℕ)
        × ReadsSegment may_compress None (R.remaining reader.old) (R.remaining reader.new) segment
        × (v.items ≡ body_of_segment may_compress segment)) }
    ensures sound { OnOk result (R.has_failed reader.new ≡ false) }
    ensures err { IfErr result
        (StopsReading may_compress (R.remaining reader.old) (R.remaining reader.new)
        (R.has_failed reader.new)) }
{
    let labelling = read_segment(alloc, reader, may_compress, Labelling::new(alloc))?;
    Ok(encode(alloc, &labelling.into_message())?)
}

/// Reads the hexadecimal text of a segment to its end, and returns its body.
fn read_hex_body<R: Source>(
    alloc: Global,
    reader: &mut R,
    may_compress: bool,
) -> Result<Vec<u8>, ToolFault>
    ensures ok { IfOk result (λ v. (segment : List ℕ)
        × ReadsInput true may_compress None (R.remaining reader.old) (R.remaining reader.new)
        segment × (v.items ≡ body_of_segment may_compress segment)) }
    ensures sound { OnOk result (R.has_failed reader.new ≡ false) }
    ensures err { IfErr result
        (StopsInput true may_compress (R.remaining reader.old) (R.remaining reader.new)
        (R.has_failed reader.new)) }
{
    let text = read_input(alloc, reader)?;
    let segment = rw_text::read_hex(alloc, &text)?;
    drop(text);
    read_body(alloc, &mut segment.as_slice(), may_compress)
}

/// Returns the output for a text: itself, or its hexadecimal digits.
pub(crate) fn output_of(alloc: Global, text: Vec<u8>, hex: bool) -> Result<Vec<u8>, AllocError>
    ensures { IfOk result (λ v. v.items ≡ output_of hex text.items) }
{
    if !hex {
        return Ok(text);
    }
    let mut digits = rw_text::hex_text(alloc, &text)?;
    digits.push('\n')?;
    Ok(digits.into_bytes())
}

/// Reads a log segment (wal.md) and writes the canonical body of its samples that have a label set
/// (Remote-Write 1.0). With `hex` the input is hexadecimal text in which white space is ignored,
/// and the output is lower case hexadecimal text and a newline. Nothing is written before the whole
/// body is made.
pub fn run_body<R: Source, W: Sink>(
    alloc: Global,
    reader: &mut R,
    writer: &mut W,
    hex: bool,
) -> Result<(), ToolFault>
    ensures ok { OnOk result
        (WritesBody hex false (R.remaining reader.old) (R.remaining reader.new)
        (W.contents writer.old) (W.contents writer.new)) }
    ensures reader_sound { OnOk result (R.has_failed reader.new ≡ false) }
    ensures writer_sound { OnOk result
        (W.has_failed writer.old ≡ false → W.has_failed writer.new ≡ false) }

    // A fault of the data is the one that the input has. Then nothing is written, nor if memory ran
    // out.
    ensures log { (f : TailFault) → result ≡ Err (Log f)
        → ReadsFault hex false f (R.remaining reader.old) (R.remaining reader.new) }
    ensures line { (n : ℕ) → result ≡ Err (Line n)
        → ReadsLine hex n (R.remaining reader.old) (R.remaining reader.new) }
    ensures no_full { result ≡ Err SegmentFull → ⊥ }
    ensures untouched { IfErr result (λ e. e ≢ Device → writer.new ≡ writer.old) }

    // If a device fails, the writer holds a prefix of the output.
    ensures device { result ≡ Err Device
        → ((R.has_failed reader.new ≡ true) × (writer.new ≡ writer.old))
        ⊎ ((W.has_failed writer.new ≡ true)
        × WritesPart hex false (R.remaining reader.old) (R.remaining reader.new)
        (W.contents writer.old) (W.contents writer.new)) }
{
    run_body_with(alloc, reader, writer, hex, false)
}

/// Writes a body as `run_body` does. With `may_compress` records of the segment may be Snappy
/// blocks.
pub fn run_body_with<R: Source, W: Sink>(
    alloc: Global,
    reader: &mut R,
    writer: &mut W,
    hex: bool,
    may_compress: bool,
) -> Result<(), ToolFault>
    ensures ok { OnOk result
        (WritesBody hex may_compress (R.remaining reader.old) (R.remaining reader.new)
        (W.contents writer.old) (W.contents writer.new)) }
    ensures reader_sound { OnOk result (R.has_failed reader.new ≡ false) }
    ensures writer_sound { OnOk result
        (W.has_failed writer.old ≡ false → W.has_failed writer.new ≡ false) }

    // A fault of the data is the one that the input has. Then nothing is written, nor if memory ran
    // out.
    ensures log { (f : TailFault) → result ≡ Err (Log f)
        → ReadsFault hex may_compress f (R.remaining reader.old) (R.remaining reader.new) }
    ensures line { (n : ℕ) → result ≡ Err (Line n)
        → ReadsLine hex n (R.remaining reader.old) (R.remaining reader.new) }
    ensures no_full { result ≡ Err SegmentFull → ⊥ }
    ensures untouched { IfErr result (λ e. e ≢ Device → writer.new ≡ writer.old) }

    // If a device fails, the writer holds a prefix of the output.
    ensures device { result ≡ Err Device
        → ((R.has_failed reader.new ≡ true) × (writer.new ≡ writer.old))
        ⊎ ((W.has_failed writer.new ≡ true)
        × WritesPart hex may_compress (R.remaining reader.old) (R.remaining reader.new)
        (W.contents writer.old) (W.contents writer.new)) }
{
    let body = if hex {
        read_hex_body(alloc, reader, may_compress)?
    } else {
        read_body(alloc, reader, may_compress)?
    };
    let output = output_of(alloc, body, hex)?;
    write_all(writer, &output)?;
    Ok(())
}

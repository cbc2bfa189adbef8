//! Lines of log text and their records.

ghost use Rattle.std.specs.Prelude.{◌≡◌, ◌<◌, ℕ, List, ◌∷◌, length, Err, IfOk};
ghost use Rattle.rw_text.specs.LineText.{line_of};
ghost use Rattle.rw_text.specs.RecordLines.{lines, record_of, IsRecordOf};

use crate::bytes::split_at_byte;
use crate::fault::TextFault;
use crate::line::LogLine;
use crate::lines::read_line;
use rw_wal_write::{sample_record, series_record};
use std::alloc::{AllocError, Global};

/// The most bytes of a record.
const MAX_RECORD_BYTES: usize = 16 * 1024 * 1024;

/// Returns the first line of a text, and what follows its LF. Only LF ends a line, and the last one
/// may lack it.
pub fn first_line(text: &[u8]) -> (&[u8], &[u8])
    requires { 0 < length text.now }
    ensures parts { lines text.now ≡ result.0.now ∷ lines result.1.now }
    ensures shorter { length result.1.now < length text.now }
{
    match split_at_byte(text, b'\n') {
        Some((line, rest)) => (line, rest),
        None => (text, &text[text.len()..]),
    }
}

/// Returns the record that a line stands for.
fn into_record(alloc: Global, line: LogLine) -> Result<Vec<u8>, AllocError>
    ensures { IfOk result (λ rec. rec.items ≡ record_of (line_of line)) }
{
    match line {
        LogLine::Series { reference, labels } => series_record(alloc, reference, &labels),
        LogLine::Sample { reference, t, word } => sample_record(alloc, &[(reference, t, word)]),
        LogLine::Raw(bytes) => Ok(bytes),
    }
}

/// Returns the record of a line of log text, without its LF: `series REF LABELS`, `sample REF T
/// VALUE` or `raw HEX`. It has 16 MiB at most.
pub fn read_record(alloc: Global, line: &[u8]) -> Result<Vec<u8>, TextFault>
    ensures ok { IfOk result (λ rec. IsRecordOf line.now rec.items) }
    ensures err { result ≡ Err TextFault.NotOfForm → (rec : List ℕ) → IsRecordOf line.now rec → ⊥ }
{
    let said = read_line(alloc, line)?;
    let rec = into_record(alloc, said)?;
    if rec.len() > MAX_RECORD_BYTES {
        return Err(TextFault::NotOfForm);
    }
    Ok(rec)
}

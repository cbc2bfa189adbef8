//! Log text and its records.

ghost use Rattle.std.specs.Prelude.{◌≡◌, ◌<◌, ℕ, List, [], ◌∷◌, length, Err, IfOk, IfErr};
ghost use Rattle.rw_text.specs.RecordLines.{lines, IsRecordOf};
ghost use Rattle.rw_log_commands.specs.LogText.{longest_of, AreRecordsOfLines};
ghost use Rattle.rw_log_commands.specs.inner.LogText.{IsFaultOfText};

use rw_text::{TextFault, ToolFault, first_line, read_record};
use std::alloc::Global;

/// Returns the length of the record of a line; 0 for an empty line, which has none.
fn record_len(alloc: Global, line: &[u8]) -> Result<usize, TextFault>
    ensures ok { IfOk result (λ len. (recs : List (List ℕ)) × AreRecordsOfLines (line.now ∷ []) recs
        × (len ≡ longest_of recs)) }
    ensures err { result ≡ Err TextFault.NotOfForm → (0 < length line.now)
        × ((rec : List ℕ) → IsRecordOf line.now rec → ⊥) }
{
    if line.is_empty() {
        return Ok(0);
    }
    let rec = read_record(alloc, line)?;
    Ok(rec.len())
}

/// Judges each line of a text, and returns the length of the longest record.
pub(crate) fn judge(alloc: Global, text: &[u8]) -> Result<usize, ToolFault>
    ensures ok { IfOk result (λ longest. (recs : List (List ℕ)) × AreRecordsOfLines (lines text.now) recs
        × (longest ≡ longest_of recs)) }
    ensures err { IfErr result (IsFaultOfText text.now) }
{
    let mut rest = text;
    let mut number = 0;
    let mut longest = 0;
    while !rest.is_empty() {
        let (line, more) = first_line(rest);
        number += 1;
        match record_len(alloc, line) {
            Ok(len) => longest = longest.max(len),
            Err(TextFault::NotOfForm) => return Err(ToolFault::Line(number)),
            Err(TextFault::OutOfMemory) => return Err(ToolFault::OutOfMemory),
        }
        rest = more;
    }
    Ok(longest)
}

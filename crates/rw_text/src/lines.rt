//! Lines of log text, read.

ghost use Rattle.std.specs.Prelude.{◌≡◌, ◌++◌, ℕ, ℤ, List, codes, Err, IfOk, MatchOption};
ghost use Rattle.std.specs.Str.{is_utf8};
ghost use Rattle.rw_types.specs.Labels.{Labels};
ghost use Rattle.rw_text.specs.LineText.{Line, IsSeriesLine, IsSampleLine, IsRaw, Says, IsLine, line_of};

use crate::bytes::{after, split_at_byte};
use crate::fault::TextFault;
use crate::hex_input::read_digits;
use crate::labels::read_labels;
use crate::line::LogLine;
use crate::numbers::{read_integer, read_number};
use crate::values::read_value;
use std::alloc::Global;

fn is_utf8_text(bytes: &[u8]) -> bool
    ensures { result ≡ is_utf8 bytes.now }
{
    str::from_utf8(bytes).is_ok()
}

/// Returns what follows `series `.
fn read_series(alloc: Global, text: &[u8]) -> Result<LogLine, TextFault>
    ensures ok { IfOk result (λ line. Says (codes "series " ++ text.now) (line_of line)) }
    ensures err { result ≡ Err TextFault.NotOfForm → (reference : ℕ) (labels : Labels)
        → IsSeriesLine text.now reference labels → ⊥ }
{
    let Some((number, braces)) = split_at_byte(text, b' ') else {
        return Err(TextFault::NotOfForm);
    };
    let Some(reference) = read_number(number) else {
        return Err(TextFault::NotOfForm);
    };
    let labels = read_labels(alloc, braces)?;
    Ok(LogLine::Series { reference, labels })
}

/// Returns what follows `sample `.
fn read_sample(text: &[u8]) -> Option<LogLine>
    ensures { MatchOption result
        ((reference : ℕ) (t : ℤ) (word : ℕ) → IsSampleLine text.now reference t word → ⊥)
        (λ line. Says (codes "sample " ++ text.now) (line_of line)) }
{
    let Some((number, rest)) = split_at_byte(text, b' ') else {
        return None;
    };
    let Some((time, value)) = split_at_byte(rest, b' ') else {
        return None;
    };
    let Some(reference) = read_number(number) else {
        return None;
    };
    let Some(t) = read_integer(time) else {
        return None;
    };
    let Some(word) = read_value(value) else {
        return None;
    };
    Some(LogLine::Sample { reference, t, word })
}

/// Returns what follows `raw `.
fn read_raw(alloc: Global, text: &[u8]) -> Result<LogLine, TextFault>
    ensures ok { IfOk result (λ line. Says (codes "raw " ++ text.now) (line_of line)) }
    ensures err { result ≡ Err TextFault.NotOfForm → (bytes : List ℕ) → IsRaw text.now bytes → ⊥ }
{
    match read_digits(alloc, text)? {
        Some(bytes) => {
            if bytes.is_empty() {
                return Err(TextFault::NotOfForm);
            }
            Ok(LogLine::Raw(bytes))
        }
        None => Err(TextFault::NotOfForm),
    }
}

/// Reads a line of log text, without its LF: `series REF LABELS`, `sample REF T VALUE` or `raw
/// HEX`, with single spaces. The line has to be UTF-8.
pub fn read_line(alloc: Global, line: &[u8]) -> Result<LogLine, TextFault>
    ensures ok { IfOk result (λ read. IsLine line.now (line_of read)) }
    ensures err { result ≡ Err TextFault.NotOfForm → (said : Line) → IsLine line.now said → ⊥ }
{
    if !is_utf8_text(line) {
        return Err(TextFault::NotOfForm);
    }
    if let Some(rest) = after(line, b"sample ") {
        return match read_sample(rest) {
            Some(sample) => Ok(sample),
            None => Err(TextFault::NotOfForm),
        };
    }
    if let Some(rest) = after(line, b"series ") {
        return read_series(alloc, rest);
    }
    if let Some(rest) = after(line, b"raw ") {
        return read_raw(alloc, rest);
    }
    Err(TextFault::NotOfForm)
}

//! What is wrong with a line of log text.

ghost use Rattle.std.specs.Prelude.{◌≡◌, ℕ, List, MatchOption, Ok, IfOk, true, false};
ghost use Rattle.rw_text.specs.RecordLines.{IsRecordOf};

use rw_text::{
    TextFault, read_integer, read_labels, read_number, read_record, read_value, split_at_byte,
};
use std::alloc::{AllocError, Global};

const FORMS: &str =
    "a line is 'series REF LABELS', 'sample REF T VALUE' or 'raw HEX', with single spaces";

const REFERENCE: &str = "REF must be a whole number from 0 to 18446744073709551615";

const TIME: &str = "T must be a whole number from -9223372036854775808 to 9223372036854775807";

const VALUE: &str =
    "VALUE must be a whole number from -2^53 to 2^53, or 0x and sixteen lower-case hexadecimal digits";

const LABELS: &str =
    "LABELS must have the form {name=\"value\",..}, with \\\\, \\\" and \\n in a value, and a name in quotes only if it needs them";

const TOO_LONG: &str = "the record would have more than 16 MiB";

/// Returns what is wrong after `series `.
fn note_on_series(alloc: Global, rest: &[u8]) -> Result<&'static str, AllocError> {
    let Some((number, labels)) = split_at_byte(rest, b' ') else {
        return Ok(FORMS);
    };
    if read_number(number).is_none() {
        return Ok(REFERENCE);
    }
    match read_labels(alloc, labels) {
        Ok(_) => Ok(TOO_LONG),
        Err(TextFault::NotOfForm) => Ok(LABELS),
        Err(TextFault::OutOfMemory) => Err(AllocError),
    }
}

/// Returns what is wrong after `sample `.
fn note_on_sample(rest: &[u8]) -> &'static str {
    let Some((number, behind)) = split_at_byte(rest, b' ') else {
        return FORMS;
    };
    let Some((time, value)) = split_at_byte(behind, b' ') else {
        return FORMS;
    };
    if read_number(number).is_none() {
        return REFERENCE;
    }
    if read_integer(time).is_none() {
        return TIME;
    }
    if read_value(value).is_none() {
        return VALUE;
    }
    FORMS
}

/// Returns what is wrong with a line that does not stand for a record.
fn note_on(alloc: Global, line: &[u8]) -> Result<&'static str, AllocError> {
    if str::from_utf8(line).is_err() {
        return Ok("the line is not UTF-8");
    }
    let Some((word, rest)) = split_at_byte(line, b' ') else {
        return Ok(FORMS);
    };
    match word {
        b"series" => note_on_series(alloc, rest),
        b"sample" => Ok(note_on_sample(rest)),
        b"raw" => Ok("HEX must be pairs of hexadecimal digits: at least one byte, at most 16 MiB"),
        _ => Ok(FORMS),
    }
}

/// Returns whether a line stands for a record.
fn is_record(alloc: Global, line: &[u8]) -> Result<bool, AllocError>
    ensures yes { result ≡ Ok true → (rec : List ℕ) × IsRecordOf line.now rec }
    ensures no { result ≡ Ok false → (rec : List ℕ) → IsRecordOf line.now rec → ⊥ }
{
    match read_record(alloc, line) {
        Ok(_) => {}
        Err(TextFault::NotOfForm) => return Ok(false),
        Err(TextFault::OutOfMemory) => return Err(AllocError),
    }
    Ok(true)
}

/// Returns what is wrong with a line of log text, without its LF, or the empty text if it stands
/// for a record. No clause says anything about the wording.
pub fn log_line_note(alloc: Global, line: &[u8]) -> Result<Option<&'static str>, AllocError>
    ensures { IfOk result (λ note. MatchOption note
        ((rec : List ℕ) × IsRecordOf line.now rec)
        (λ _. (rec : List ℕ) → IsRecordOf line.now rec → ⊥)) }
{
    if is_record(alloc, line)? {
        return Ok(None);
    }
    Ok(Some(note_on(alloc, line)?))
}

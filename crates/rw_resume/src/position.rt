//! The position of a sender in a log, as text.

ghost use Rattle.std.specs.Prelude.{◌≡◌, ◌++◌, ◌∷◌, [], decimal, IfOk, IfSome, OnOk, string_bytes};
ghost use Rattle.rw_resume.specs.Positions.{line_of, position_text};

use rw_text::{push_number, read_number};
use std::alloc::{AllocError, Global};

/// The first line of the text.
const HEAD: &str = "rwship position 1";

/// A position of a log: before it, each sample was acknowledged, listed as dropped, or filtered.
#[derive(Debug, Drop)]
pub struct Position {
    /// The path of the folder with the log.
    pub log: String,
    /// The number of the segment that comes next.
    pub segment: u64,
    /// How many bytes of that segment come before the position.
    pub bytes: u64,
}

/// Appends a name, a space, a value, and a line feed.
fn push_line(text: &mut Vec<u8>, name: &str, value: &str) -> Result<(), AllocError>
    ensures { OnOk result
        (text.new.items ≡ text.old.items ++ line_of name.now value.now) }
{
    text.extend_from_slice(name.as_bytes())?;
    text.extend_from_slice(b" ")?;
    text.extend_from_slice(value.as_bytes())?;
    text.extend_from_slice(b"\n")
}

/// Appends the same with a number.
fn push_number_line(text: &mut Vec<u8>, name: &str, value: u64) -> Result<(), AllocError>
    ensures { OnOk result
        (text.new.items ≡ text.old.items ++ line_of name.now (decimal value)) }
{
    text.extend_from_slice(name.as_bytes())?;
    text.extend_from_slice(b" ")?;
    push_number(text, value)?;
    text.extend_from_slice(b"\n")
}

impl Position {
    /// Returns the text that names this position.
    pub fn text(&self, alloc: Global) -> Result<Vec<u8>, AllocError>
        ensures { IfOk result (λ text. text.items ≡ position_text self.now) }
    {
        let mut text = Vec::new(alloc);
        text.extend_from_slice(b"rwship position 1\n")?;
        push_line(&mut text, "log", self.log.as_str())?;
        push_number_line(&mut text, "segment", self.segment)?;
        push_number_line(&mut text, "bytes", self.bytes)?;
        text.extend_from_slice(b"end\n")?;
        Ok(text)
    }
}

/// Returns the number after a name and a space.
fn number_after(line: Option<&str>, name: &str) -> Option<u64> {
    read_number(line?.strip_prefix(name)?.as_bytes())
}

/// Returns the position that a text seems to name.
fn likely_position(alloc: Global, text: &str) -> Result<Option<Position>, AllocError> {
    let mut lines = text.lines();
    if lines.next() != Some(HEAD) {
        return Ok(None);
    }
    let Some(line) = lines.next() else {
        return Ok(None);
    };
    let Some(log) = line.strip_prefix("log ") else {
        return Ok(None);
    };
    let Some(segment) = number_after(lines.next(), "segment ") else {
        return Ok(None);
    };
    let Some(bytes) = number_after(lines.next(), "bytes ") else {
        return Ok(None);
    };
    let log = String::from_str(alloc, log)?;
    Ok(Some(Position {
        log,
        segment,
        bytes,
    }))
}

/// Returns the position that a text names, or `None` if it is not the text of a position, as if it
/// was cut short or changed.
pub fn read_position(alloc: Global, text: &[u8]) -> Result<Option<Position>, AllocError>
    ensures { IfOk result (λ found. IfSome found (λ p. text.now ≡ position_text p)) }
{
    let Ok(chars) = str::from_utf8(text) else {
        return Ok(None);
    };
    let Some(position) = likely_position(alloc, chars)? else {
        return Ok(None);
    };
    let expected = position.text(alloc)?;
    if expected.as_slice() == text {
        return Ok(Some(position));
    }
    Ok(None)
}

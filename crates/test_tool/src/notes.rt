//! The notes on malformed lines.

use crate::rows::{holds, none_is_wrong};
use rw_replay::{log_line_note, numbered_line, script_line_note, shown_line};
use std::alloc::{AllocError, Global};
use std::test::Fail;

/// A line, and how the note on it begins; nothing if it is well-formed.
type Row = (&'static str, Option<&'static str>);

static LOG_LINES: [Row; 7] = [
    ("sample 1 1000 1", None),
    ("sample x 1000 1", Some("REF must be")),
    ("sample 1 1s 1", Some("T must be")),
    ("sample 1 1000 1.5", Some("VALUE must be")),
    ("series 1 {a=1}", Some("LABELS must")),
    ("raw 0", Some("HEX must be")),
    ("hello", Some("a line is")),
];

static SCRIPT_LINES: [Row; 4] = [
    ("settle", None),
    ("flush x", Some("the word must be followed")),
    ("log sample 1 1s 1", Some("T must be")),
    ("wait", Some("this is not an event")),
];

/// Returns whether the note is as wanted.
fn is_said(note: Option<&str>, wanted: Option<&str>) -> bool {
    match (note, wanted) {
        (None, None) => true,
        (Some(note), Some(wanted)) => note.starts_with(wanted),
        _ => false,
    }
}

/// Returns the first line with another note.
fn wrong_note(alloc: Global) -> Result<Option<&'static str>, AllocError> {
    for (line, wanted) in &LOG_LINES {
        if !is_said(log_line_note(alloc, line.as_bytes())?, *wanted) {
            return Ok(Some(line));
        }
    }
    for (line, wanted) in &SCRIPT_LINES {
        if !is_said(script_line_note(alloc, line.as_bytes())?, *wanted) {
            return Ok(Some(line));
        }
    }
    Ok(None)
}

#[test]
fn notes_on_lines(rt: HostRuntime) -> Result<(), Fail> {
    none_is_wrong(&rt, wrong_note(rt.alloc())?);
    let not_utf8 = log_line_note(rt.alloc(), b"raw \xff")?;
    holds(&rt, is_said(not_utf8, Some("the line is not UTF-8")));
    let second = numbered_line(b"a\n\tb\nc", 2).unwrap_or(b"");
    holds(&rt, shown_line(rt.alloc(), second)?.as_str() == "?b");
    Ok(())
}

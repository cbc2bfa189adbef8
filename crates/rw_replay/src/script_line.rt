//! What is wrong with a line of an event script.

ghost use Rattle.std.specs.Prelude.{◌≡◌, MatchOption, Ok, IfOk, true, false};
ghost use Rattle.rw_replay.specs.ScriptText.{Order, IsOrder};

use crate::lines::read_command;
use crate::log_line::log_line_note;
use rw_text::{TextFault, split_at_byte};
use std::alloc::{AllocError, Global};

const EVENTS: &str = "this is not an event. The events are: log LINE, feed HEX, segment, place, \
flush N, take N, freeze N, send N, arrive N HOW, reply N, lost N, restart, reshard N, close, kill, settle";

const NUMBER: &str = "the word must be followed by a whole number from 0 to 18446744073709551615";

/// Returns what is wrong with a line that is not an event.
fn note_on(alloc: Global, line: &[u8]) -> Result<&'static str, AllocError> {
    let Some((word, rest)) = split_at_byte(line, b' ') else {
        return Ok(EVENTS);
    };
    match word {
        b"log" => match log_line_note(alloc, rest)? {
            Some(note) => Ok(note),
            None => Ok(EVENTS),
        },
        b"feed" => Ok("'feed' must be followed by pairs of hexadecimal digits"),
        b"arrive" => Ok(
            "'arrive' must be followed by a whole number and 'plain', 'busy' or 'short'",
        ),
        b"flush" | b"take" | b"freeze" | b"send" | b"reply" | b"lost" | b"reshard" => Ok(NUMBER),
        _ => Ok(EVENTS),
    }
}

/// Returns whether a line is an event.
fn is_event(alloc: Global, line: &[u8]) -> Result<bool, AllocError>
    ensures yes { result ≡ Ok true → (o : Order) × IsOrder line.now o }
    ensures no { result ≡ Ok false → (o : Order) → IsOrder line.now o → ⊥ }
{
    match read_command(alloc, line) {
        Ok(_) => Ok(true),
        Err(TextFault::NotOfForm) => Ok(false),
        Err(TextFault::OutOfMemory) => Err(AllocError),
    }
}

/// Returns what is wrong with a line of an event script, without its LF, or the empty text if it is
/// an event. No clause says anything about the wording.
pub fn script_line_note(alloc: Global, line: &[u8]) -> Result<Option<&'static str>, AllocError>
    ensures { IfOk result (λ note. MatchOption note
        ((o : Order) × IsOrder line.now o)
        (λ _. (o : Order) → IsOrder line.now o → ⊥)) }
{
    if is_event(alloc, line)? {
        return Ok(None);
    }
    Ok(Some(note_on(alloc, line)?))
}

//! Lines of a text, as they are shown.

ghost use Rattle.std.specs.Prelude.{◌≡◌, ◌-◌, option_map, slice_get};
ghost use Rattle.rw_text.specs.RecordLines.{lines};

use rw_text::first_line;
use std::alloc::{AllocError, Global};

/// The most bytes of a line that are shown.
const MOST_SHOWN: usize = 120;

/// Returns the line of this number of a text, counted from 1, without its LF.
pub fn numbered_line(text: &[u8], number: u64) -> Option<&[u8]>
    ensures { option_map (λ line. line.now) result ≡ slice_get (lines text.now) (number - 1) }
{
    let mut rest = text;
    let mut left = number;
    while !rest.is_empty() {
        let (line, more) = first_line(rest);
        if left <= 1 {
            return Some(line);
        }
        left -= 1;
        rest = more;
    }
    None
}

/// Returns the text that is shown of a line: its first bytes, without the control characters of
/// ASCII.
pub fn shown_line(alloc: Global, line: &[u8]) -> Result<String, AllocError> {
    let mut shown = Vec::new(alloc);
    for byte in &line[..line.len().min(MOST_SHOWN)] {
        shown.push(if byte.is_ascii_control() { b'?' } else { *byte })?;
    }
    if line.len() > MOST_SHOWN {
        shown.extend_from_slice(b" ..")?;
    }
    String::from_utf8_lossy(alloc, &shown)
}

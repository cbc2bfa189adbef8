//! A plain reading of a reply whose heads are short: byte by byte, by the text of the format alone.

use rw_shard_core::ReplyRead;

/// What comes before a reason: `v` for 0 or 1, and `d` for a digit.
static START: &[u8] = b"HTTP/1.v ddd";

/// The places of a head.
#[derive(Clone, Copy)]
enum Place {
    /// After this many bytes of its start. Empty lines may come before it.
    Start(usize),
    /// After the CR of such a line.
    Empty,
    /// In the reason, or in a value.
    Text,
    /// After the CR that ends one of these.
    TextEnd,
    /// After a line.
    Line,
    /// In the name of a field.
    Name,
    /// After the CR of the last line.
    Last,
    End,
}

/// Returns whether a byte is like one of the start.
fn is_like(byte: u8, wanted: u8) -> bool {
    match wanted {
        b'v' => byte == b'0' || byte == b'1',
        b'd' => byte.is_ascii_digit(),
        _ => byte == wanted,
    }
}

/// Returns whether the start has such a byte here.
fn begins(at: usize, byte: u8) -> bool {
    match START.get(at) {
        Some(wanted) => is_like(byte, *wanted),
        None => false,
    }
}

/// Returns whether a byte may be in the name of a field.
fn is_of_name(byte: u8) -> bool {
    byte.is_ascii_alphanumeric() || b"!#$%&'*+-.^_`|~".contains(&byte)
}

/// Returns whether a byte may be in a reason or in a value.
fn is_of_text(byte: u8) -> bool {
    byte == b'\t' || (byte >= b' ' && byte != 127)
}

/// Returns the place after a byte that is not part of a line's end.
fn behind(place: Place, byte: u8) -> Option<Place> {
    match place {
        Place::Start(12) if byte == b' ' => Some(Place::Text),
        Place::Start(at) if begins(at, byte) => Some(Place::Start(at.saturating_add(1))),
        Place::Text if is_of_text(byte) => Some(Place::Text),
        Place::Line | Place::Name if is_of_name(byte) => Some(Place::Name),
        Place::Name if byte == b':' => Some(Place::Text),
        _ => None,
    }
}

/// Returns the place after a line feed.
fn behind_feed(place: Place) -> Option<Place> {
    match place {
        Place::Start(0) | Place::Empty => Some(Place::Start(0)),
        Place::Start(12) | Place::Text | Place::TextEnd => Some(Place::Line),
        Place::Line | Place::Last => Some(Place::End),
        _ => None,
    }
}

/// Returns the place after a CR.
fn behind_return(place: Place) -> Option<Place> {
    match place {
        Place::Start(0) => Some(Place::Empty),
        Place::Start(12) | Place::Text => Some(Place::TextEnd),
        Place::Line => Some(Place::Last),
        _ => None,
    }
}

/// Returns the place after a byte, or `None` if no head has it.
fn next(place: Place, byte: u8) -> Option<Place> {
    match byte {
        b'\n' => behind_feed(place),
        b'\r' => behind_return(place),
        _ => behind(place, byte),
    }
}

/// Returns what a reply says.
pub(crate) fn plain_reply(text: &[u8]) -> ReplyRead {
    let mut place = Place::Start(0);
    let mut status: u16 = 0;
    for byte in text {
        let Some(found) = next(place, *byte) else {
            return ReplyRead::Bad;
        };
        place = found;
        match place {
            Place::Start(1) => status = 0,
            Place::Start(10..=12) => {
                status = status.wrapping_mul(10).wrapping_add((*byte & 15) as u16);
            }
            Place::End if status < 100 => return ReplyRead::Bad,
            Place::End if status >= 200 => return ReplyRead::Status(status),
            Place::End => place = Place::Start(0),
            _ => {}
        }
    }
    ReplyRead::Partial
}

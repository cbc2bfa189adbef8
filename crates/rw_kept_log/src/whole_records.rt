//! Finds where the last whole record of a segment ends.

ghost use Rattle.std.specs.Prelude.{◌≡◌, ◌≢◌, ◌<◌, ◌≤◌, ◌⊎◌, ◌==◌, ◌||◌, false, get_or, length, true};
ghost use Rattle.rw_kept_log.specs.Logs.{IsCleanCut};
ghost use Rattle.rw_wal_format.specs.Pieces.{page_size};
ghost use Rattle.rw_wal_tail.specs.Places.{stop_offset};
ghost use Rattle.rw_kept_log.specs.inner.Walking.{IsHeaderOf};

use byteorder::{BigEndian, ByteOrder};
use rw_wal_format::{HEADER_BYTES, PAGE_BYTES};

/// What is at a place of a segment, by its header alone.
#[derive(Drop)]
pub(crate) struct Header {
    /// How many bytes it takes.
    pub(crate) len: usize,
    /// Whether a record ends with it.
    pub(crate) ends_record: bool,
}

/// Returns whether a fragment may begin at the front of some bytes, with `left` bytes of its page.
fn has_header(left: usize, bytes: &[u8]) -> bool
    requires { 0 < length bytes.now }
    ensures yes { result ≡ true
        → (7 ≤ left) × (7 ≤ length bytes.now) × (get_or bytes.now 0 0 ≢ 0) }
    ensures no { result ≡ false
        → (left < 7) ⊎ ((get_or bytes.now 0 0 ≡ 0) ⊎ (length bytes.now < 7)) }
{
    if left < HEADER_BYTES || bytes.len() < HEADER_BYTES {
        return false;
    }
    bytes[0] != 0
}

/// Returns whether a byte is the type of a fragment that ends a record.
fn ends_record(byte: u8) -> bool
    ensures { result ≡ (byte == 1 || byte == 4) }
{
    byte == 1 || byte == 4
}

/// Returns what the header at the front of some bytes says, with `left` bytes of its page: of a
/// fragment, or of the zeros up to the end of the page.
fn read_header(left: usize, bytes: &[u8]) -> Header
    requires some { 0 < length bytes.now }
    requires inside { 0 < left }
    ensures is { IsHeaderOf left bytes.now result }
    ensures some { 0 < result.len }
{
    if !has_header(left, bytes) {
        return Header {
            len: left,
            ends_record: false,
        };
    }
    Header {
        len: HEADER_BYTES + usize::from(BigEndian::read_u16(&bytes[1..])),
        ends_record: ends_record(bytes[0]),
    }
}

/// Returns where the last whole record of a segment ends, given the offset at which reading stops.
/// It goes by the headers alone.
pub fn whole_len(text: &[u8], stop: usize) -> usize
    ensures within { result ≤ length text.now }
    ensures clean { stop ≡ stop_offset page_size text.now → IsCleanCut page_size text.now result }
{
    let mut whole = 0;
    let mut at = 0;
    while at < stop {
        if at >= text.len() {
            return whole;
        }
        let header = read_header(PAGE_BYTES - at % PAGE_BYTES, &text[at..]);
        if header.len > text.len() - at {
            return whole;
        }
        at += header.len;
        if header.ends_record {
            whole = at;
        }
    }
    whole
}

//! Looks for a whole record after a fault.

ghost use Rattle.std.specs.Prelude.{◌≡◌, ◌<◌, length};
ghost use Rattle.rw_wal_format.specs.Segments.{full, data_at, item_at};
ghost use Rattle.rw_kept_log.specs.Records.{is_record, IsRecordAfter, FollowsFault};
ghost use Rattle.rw_kept_log.specs.inner.Reading.{IsReadOf};

use crate::segment_read::SegmentRead;
use byteorder::{BigEndian, ByteOrder};
use rw_codes::crc32c;
use rw_wal_format::{HEADER_BYTES, PAGE_BYTES};

/// Returns whether a fragment with this length and CRC-32C has data, and these are its data.
fn has_data(left: usize, len: u16, crc: u32, rest: &[u8]) -> bool
    ensures { result ≡ is_record (data_at full left len crc rest.now) }
{
    let len = len as usize;
    if len == 0 {
        return false;
    }
    if left < HEADER_BYTES + len {
        return false;
    }
    if rest.len() < len {
        return false;
    }
    crc32c(&rest[..len]) == crc
}

/// Returns whether a whole record is at the front of some bytes, with `left` bytes of its page.
fn has_record(left: usize, bytes: &[u8]) -> bool
    requires { 0 < length bytes.now }
    ensures { result ≡ is_record (item_at left bytes.now) }
{
    if left < HEADER_BYTES {
        return false;
    }
    if bytes.len() < HEADER_BYTES {
        return false;
    }
    if bytes[0] != 1 {
        return false;
    }
    let rest = &bytes[1..];
    has_data(
        left,
        BigEndian::read_u16(rest),
        BigEndian::read_u32(&rest[2..]),
        &rest[6..],
    )
}

/// Returns where the first whole record after an offset begins, if there is one.
fn find_record(text: &[u8], offset: usize) -> Option<usize>
    ensures { IsRecordAfter text.now offset result }
{
    for at in offset..text.len() {
        if at > offset && has_record(PAGE_BYTES - at % PAGE_BYTES, &text[at..]) {
            return Some(at);
        }
    }
    None
}

/// Returns where the first whole record after the fault of a segment begins, if it has a fault and
/// there is such a record.
pub(crate) fn find_after_fault(text: &[u8], read: &SegmentRead) -> Option<usize>
    requires { IsReadOf text.now read.now }
    ensures { FollowsFault text.now result }
{
    match read.fault {
        Some(fault) => find_record(text, fault.offset as usize),
        None => None,
    }
}

//! The fragments of records (wal.md, "Segment encoding").

ghost use Rattle.std.specs.Prelude.{◌≡◌, ◌++◌, ◌+◌, ◌-◌, ◌%◌, ◌^◌, ◌<◌, ◌≤◌, length, IfOk};
ghost use Rattle.rw_wal_format.specs.Pieces.{page_size};
ghost use Rattle.rw_wal_format.specs.Types.{kind_of};
ghost use Rattle.rw_wal_format.specs.Writing.{frame, padding, log_bytes};
ghost use Rattle.rw_wal_write.specs.Sinks.{Takes};

use byteorder::{BigEndian, ByteOrder};
use rw_codes::crc32c;
use rw_types::{Failed, Sink, write_all};
use rw_wal_format::{FragmentType, HEADER_BYTES, PAGE_BYTES};

/// The bytes at the end of a page that has no room for another header.
static ZEROS: [u8; 6] = [0; 6];

/// Returns the header of a fragment with this data.
#[tactic(auto, unfolding(rw_wal_format::specs::Writing::frame))]
fn header(kind: FragmentType, part: &[u8]) -> [u8; HEADER_BYTES]
    requires { length part.now < 2 ^ 16 }
    ensures { result ++ part.now ≡ frame (kind_of kind) part.now }
{
    let mut bytes = [kind.to_byte(); HEADER_BYTES];
    BigEndian::write_u16(&mut bytes[1..], part.len() as u16);
    BigEndian::write_u32(&mut bytes[3..], crc32c(part));
    bytes
}

/// Writes one fragment.
fn put_fragment<W: Sink>(sink: &mut W, kind: FragmentType, part: &[u8]) -> Result<(), Failed>
    requires { length part.now < 2 ^ 16 }
    ensures { Takes W.contents W.has_failed W.room sink.old sink.new
        (frame (kind_of kind) part.now) result }
{
    write_all(sink, &header(kind, part))?;
    write_all(sink, part)
}

/// Fills the rest of a page with zeros if it has no room for a header, and returns how many.
fn put_padding<W: Sink>(sink: &mut W, left: usize) -> Result<usize, Failed>
    ensures bytes { Takes W.contents W.has_failed W.room sink.old sink.new (padding left) result }
    ensures len { IfOk result (λ n. n ≡ length (padding left)) }
{
    if left >= HEADER_BYTES {
        return Ok(0);
    }
    write_all(sink, &ZEROS[..left])?;
    Ok(left)
}

/// Returns how many bytes of data a fragment at this offset has room for.
fn room_in_page(offset: usize) -> usize
    requires { 7 ≤ page_size - offset % page_size }
    ensures { result ≡ page_size - offset % page_size - 7 }
{
    PAGE_BYTES - offset % PAGE_BYTES - HEADER_BYTES
}

/// Writes the last fragment of a record, and zeros after it if no further fragment has room in the
/// page. Returns how many bytes these are together.
fn put_last<W: Sink>(
    sink: &mut W,
    kind: FragmentType,
    part: &[u8],
    room: usize,
) -> Result<usize, Failed>
    requires short { length part.now ≤ room }
    requires page { room < 2 ^ 15 }
    ensures bytes { Takes W.contents W.has_failed W.room sink.old sink.new
        (frame (kind_of kind) part.now
        ++ padding (room - length part.now)) result }
    ensures len { IfOk result
        (λ n. n ≡ length (frame (kind_of kind) part.now ++ padding (room - length part.now))) }
{
    put_fragment(sink, kind, part)?;
    let zeros = put_padding(sink, room - part.len())?;
    Ok(HEADER_BYTES + part.len() + zeros)
}

/// Writes a record at an offset as fragments, each the greatest that fits its page, and returns the
/// offset after them.
pub fn put_record<W: Sink>(sink: &mut W, offset: usize, rec: &[u8]) -> Result<usize, Failed>
    requires some { 0 < length rec.now }
    requires place { 7 ≤ page_size - offset % page_size }
    requires fits { offset + length (log_bytes page_size offset rec.now) ≤ 2 ^ 32 }
    ensures bytes { Takes W.contents W.has_failed W.room sink.old sink.new
        (log_bytes page_size offset rec.now) result }
    ensures end { IfOk result (λ end. end ≡ offset + length (log_bytes page_size offset rec.now)) }
{
    let mut at = offset;
    let mut rest = rec;
    let mut goes_on = false;
    loop {
        let room = room_in_page(at);
        if rest.len() <= room {
            let len = put_last(sink, FragmentType::of(goes_on, true), rest, room)?;
            return Ok(at + len);
        }
        let (part, later) = rest.split_at(room);
        put_fragment(sink, FragmentType::of(goes_on, false), part)?;
        at += HEADER_BYTES + part.len();
        rest = later;
        goes_on = true;
    }
}

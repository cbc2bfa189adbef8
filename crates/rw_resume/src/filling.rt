//! What is read in place of the first bytes of a segment that is begun in its middle.

ghost use Rattle.std.specs.Prelude.{◌≡◌, ◌++◌, ◌-◌, ◌^◌, ◌<◌, ◌≤◌, Bool, [], ◌∷◌, IfOk, length, replicate};
ghost use Rattle.rw_wal_format.specs.Pieces.{page_size};
ghost use Rattle.rw_wal_format.specs.Segments.{full, segment_in};
ghost use Rattle.rw_wal_format.specs.Writing.{frame};
ghost use Rattle.rw_resume.specs.Goings.{EndsRecord};

use byteorder::{BigEndian, ByteOrder};
use rw_codes::crc32c;
use rw_wal_format::{FragmentType, HEADER_BYTES};
use std::alloc::{AllocError, Global};

/// The type of a record that readers of samples pass over (wal.md, "Tombstone records").
const TOMBSTONES: u8 = 3;

/// Returns the header of a record that is one fragment with this data.
#[tactic(auto, unfolding(rw_wal_format::specs::Writing::frame))]
fn header(data: &[u8]) -> [u8; HEADER_BYTES]
    requires { length data.now < 2 ^ 16 }
    ensures { result ++ data.now ≡ frame full data.now }
{
    let mut bytes = [FragmentType::Full.to_byte(); HEADER_BYTES];
    BigEndian::write_u16(&mut bytes[1..], data.len() as u16);
    BigEndian::write_u32(&mut bytes[3..], crc32c(data));
    bytes
}

/// Returns the data of a record of tombstones, of this length.
fn tombstones(alloc: Global, len: usize) -> Result<Vec<u8>, AllocError>
    requires { 0 < len }
    ensures { IfOk result (λ bytes. bytes.items ≡ 3 ∷ replicate (len - 1) 0) }
{
    let mut data = vec![in alloc; 0; len]?;
    data[0] = TOMBSTONES;
    Ok(data)
}

/// Returns a record that readers of samples pass over, and that takes `len` bytes of a page. Fails
/// only if an allocation does.
pub(crate) fn filler(alloc: Global, len: usize) -> Result<Vec<u8>, AllocError>
    requires least { 8 ≤ len }
    requires most { len ≤ 32_761 }
    ensures len { IfOk result (λ text. length text.items ≡ len) }
    ensures ends { IfOk result (λ text. (c : Bool) → EndsRecord c page_size text.items) }
    ensures none { IfOk result (λ text. (c : Bool)
        → (segment_in c page_size text.items).entries ≡ []) }
{
    let data = tombstones(alloc, len - HEADER_BYTES)?;
    let mut text = Vec::with_capacity(alloc, len)?;
    text.extend_from_slice(&header(&data))?;
    text.extend_from_slice(&data)?;
    Ok(text)
}

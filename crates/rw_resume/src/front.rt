//! What is read in place of the first bytes of a segment, if others go on in its middle.

ghost use Rattle.std.specs.Prelude.{IfOk, IfSome};
ghost use Rattle.rw_resume.specs.Goings.{IsInPlaceOf};

use crate::filling::filler;
use rw_wal_format::{HEADER_BYTES, PAGE_BYTES};
use std::alloc::{AllocError, Global};

/// Returns what can be read in place of the first `count` bytes of a segment, if a record ends with
/// them: it has no entry, and ends at the same place of a page. `None` if there is nothing so long:
/// it would be shorter than a record, or leave less of a page than the header of the next one.
pub fn front_for(alloc: Global, count: u64) -> Result<Option<Vec<u8>>, AllocError>
    ensures { IfOk result (λ found. IfSome found (λ front. IsInPlaceOf count front.items)) }
{
    let len = (count % PAGE_BYTES as u64) as usize;
    if len == 0 {
        return Ok(Some(Vec::new(alloc)));
    }
    if len <= HEADER_BYTES || len > PAGE_BYTES - HEADER_BYTES {
        return Ok(None);
    }
    Ok(Some(filler(alloc, len)?))
}

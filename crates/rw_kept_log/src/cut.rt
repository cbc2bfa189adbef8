//! Finds the place at which the last segment is cut.

ghost use Rattle.std.specs.Prelude.{◌≡◌, ◌<◌, ◌≤◌, false, true, IfOk, IfErr};
ghost use Rattle.rw_kept_log.specs.Torn.{end_of_page};
ghost use Rattle.rw_wal_format.specs.Pieces.{page_size};
ghost use Rattle.rw_kept_log.specs.inner.Reading.{IsReadOf};
ghost use Rattle.rw_kept_log.specs.Reopening.{IsSegmentCut};
ghost use Rattle.rw_kept_log.specs.inner.Reopening.{IsRefusal};

use crate::error::KeptLogDamage;
use crate::segment_read::{SegmentFault, SegmentRead};
use crate::whole_records::whole_len;
use rw_wal_format::PAGE_BYTES;
use rw_wal_tail::FaultPlace;

/// Returns whether a text ends within the page of an offset.
fn ends_in_page(len: usize, offset: u64) -> bool
    ensures yes { result ≡ true → len ≤ end_of_page page_size offset }
    ensures no { result ≡ false → end_of_page page_size offset < len }
{
    let page = PAGE_BYTES as u64;
    (len as u64).saturating_sub(offset) <= page - offset % page
}

/// Returns the damage of a segment with this number and this fault.
pub(crate) fn damage_of(segment: usize, fault: SegmentFault) -> KeptLogDamage
    ensures { result ≡ record {
      fault = fault.fault;
      place = record { segment = segment; offset = fault.offset };
    } }
{
    KeptLogDamage {
        fault: fault.fault,
        place: FaultPlace {
            segment: segment as u64,
            offset: fault.offset,
        },
    }
}

/// Returns where the last segment is cut: at its end, or after its last whole record if a crash
/// tore it. An error is returned only if text follows the page in which reading stops.
pub(crate) fn find_cut(
    text: &[u8],
    read: &SegmentRead,
    segment: usize,
) -> Result<usize, KeptLogDamage>
    requires { IsReadOf text.now read.now }
    ensures cut { IfOk result (IsSegmentCut text.now) }
    ensures damaged { IfErr result (IsRefusal text.now segment) }
{
    let Some(fault) = read.fault else {
        return Ok(text.len());
    };
    if !ends_in_page(text.len(), fault.offset) {
        return Err(damage_of(segment, fault));
    }
    Ok(whole_len(text, fault.offset as usize))
}

//! What is found of a segment that may be the last one of its log.

ghost use Rattle.std.specs.Prelude.{◌≡◌, ℕ, List, length, IfOk, OnOk, IfSome, Some, ◌≤◌};
ghost use Rattle.rw_kept_log.specs.inner.Reading.{IsFaultOf};
ghost use Rattle.rw_kept_log.specs.inner.Reopening.{IsFaultAt, IsLast, IsTornOf};

use crate::cut::{damage_of, find_cut};
use crate::error::KeptLogDamage;
use crate::record_search::find_after_fault;
use crate::segment_read::{SegmentFault, read_segment};
use rw_wal_tail::Taker;
use std::alloc::{AllocError, Global};

/// What was found of a segment. It may be the last one of its log, or another one follows: then it
/// has to be whole.
#[derive(Debug, Drop)]
pub(crate) struct LastSegment {
    /// Why no other segment may follow; `None` if it ends between two records.
    pub(crate) fault: Option<KeptLogDamage>,
    /// Where it is cut if it is the last one, or why it is not.
    pub(crate) cut: Result<usize, KeptLogDamage>,
    /// The bytes after that place.
    pub(crate) torn: Vec<u8>,
    /// Where the first whole record after its fault begins.
    pub(crate) follows: Option<usize>,
}

impl LastSegment {
    /// Returns its fault, and where a whole record begins after it, if there are both and the
    /// segment can be cut.
    pub(crate) fn record_after_fault(&self) -> Option<(KeptLogDamage, usize)>
        ensures { IfSome result
            (λ r. (self.now.fault ≡ Some r.0) × (self.now.follows ≡ Some r.1)) }
    {
        if self.cut.is_err() {
            return None;
        }
        match (self.fault, self.follows) {
            (Some(damage), Some(at)) => Some((damage, at)),
            _ => None,
        }
    }
}

/// Returns the bytes that are cut off.
fn torn_of(
    alloc: Global,
    text: &[u8],
    cut: Result<usize, KeptLogDamage>,
) -> Result<Vec<u8>, AllocError>
    requires { IfOk cut (λ at. at ≤ length text.now) }
    ensures { IfOk result (λ v. IsTornOf text.now cut v.items) }
{
    match cut {
        Ok(at) => Ok(text[at..].to_vec(alloc)?),
        Err(_) => Ok(Vec::new(alloc)),
    }
}

/// Returns the damage of a segment of this number, if it has a fault.
fn damage_in(segment: usize, fault: Option<SegmentFault>) -> Option<KeptLogDamage>
    ensures { (text : List ℕ) → IsFaultOf text fault → IsFaultAt text segment result }
{
    match fault {
        Some(fault) => Some(damage_of(segment, fault)),
        None => None,
    }
}

/// Reads a segment to its end, and lets its entries be taken.
pub(crate) fn read_last<S: Taker>(
    alloc: Global,
    text: &[u8],
    sink: &mut S,
    segment: usize,
) -> Result<LastSegment, AllocError>
    ensures read { IfOk result
        (λ last. IsLast text.now segment last (S.taken sink.old) (S.taken sink.new)) }
    ensures fixed { OnOk result (S.fixed sink.new ≡ S.fixed sink.old) }
{
    let read = read_segment(alloc, text, sink)?;
    let cut = find_cut(text, &read, segment);
    let follows = find_after_fault(text, &read);
    let torn = torn_of(alloc, text, cut)?;
    Ok(LastSegment {
        fault: damage_in(segment, read.fault),
        cut,
        torn,
        follows,
    })
}

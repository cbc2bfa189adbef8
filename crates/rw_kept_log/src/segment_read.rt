//! A segment, read to its end.

ghost use Rattle.std.specs.Prelude.{◌≡◌, ◌<◌, [], None, Some, IfOk, OnOk};
ghost use Rattle.rw_wal_format.specs.Pieces.{page_size};
ghost use Rattle.rw_wal_format.specs.declared.tail_fault.TailFault.{TailFault};
ghost use Rattle.rw_wal_tail.specs.Places.{stop_after};
ghost use Rattle.rw_kept_log.specs.inner.Reading.{HasFed, IsPlaced, ReadsSegment};

use rw_wal_tail::{Tail, TailFault, Taker, take_all};
use std::alloc::{AllocError, Global};

/// How many bytes of a segment are fed at once.
const CHUNK: usize = 64 * 1024;

/// Why a segment cannot be followed by another one.
#[derive(Clone, Copy, Debug, Drop)]
pub(crate) struct SegmentFault {
    pub(crate) fault: TailFault,
    /// The offset of the fragment at which reading stops.
    pub(crate) offset: u64,
}

/// What was read of a segment.
#[derive(Debug, Drop)]
pub(crate) struct SegmentRead {
    /// How many entries it has.
    pub(crate) entries: u64,
    /// `None` if it ends between two records.
    pub(crate) fault: Option<SegmentFault>,
}

/// Feeds the bytes of a segment, and takes its entries.
fn feed_text<S: Taker>(tail: &mut Tail, text: &[u8], sink: &mut S) -> Result<(), AllocError>
    requires { tail.old ≡ record { pieces = []; given = 0; skipped = []; fault = None } }
    ensures fed { OnOk result
        (HasFed text.now tail.new (S.taken sink.old) (S.taken sink.new)) }
    ensures fixed { OnOk result (S.fixed sink.new ≡ S.fixed sink.old) }
{
    let mut rest = text;
    while !rest.is_empty() {
        let len = if rest.len() < CHUNK {
            rest.len()
        } else {
            CHUNK
        };
        let (part, later) = rest.split_at(len);
        tail.feed(part)?;
        take_all(tail, sink)?;
        rest = later;
    }
    Ok(())
}

/// Returns the offset of the fragment at which reading stopped.
fn fault_offset(tail: &Tail, fault: TailFault) -> u64
    requires { tail.now.fault ≡ Some fault }
    ensures { result ≡ (stop_after page_size 0 [] tail.now.pieces).offset }
{
    match tail.fault_place() {
        Some(place) => place.offset,
        None => unreachable!(),
    }
}

/// Returns the fault at which reading stopped, if it did, with its offset.
fn place_fault(tail: &Tail, fault: Option<TailFault>) -> Option<SegmentFault>
    requires { (f : TailFault) → fault ≡ Some f → tail.now.fault ≡ Some f }
    ensures { IsPlaced tail.now.pieces fault result }
{
    match fault {
        Some(fault) => Some(SegmentFault {
            fault,
            offset: fault_offset(tail, fault),
        }),
        None => None,
    }
}

/// Reads a segment to its end, and lets its entries be taken.
pub(crate) fn read_segment<S: Taker>(
    alloc: Global,
    text: &[u8],
    sink: &mut S,
) -> Result<SegmentRead, AllocError>
    ensures read { IfOk result
        (λ read. ReadsSegment text.now read (S.taken sink.old) (S.taken sink.new)) }
    ensures fixed { OnOk result (S.fixed sink.new ≡ S.fixed sink.old) }
{
    let mut tail = Tail::new(alloc);
    feed_text(&mut tail, text, sink)?;
    tail.next_segment();
    let fault = take_all(&mut tail, sink)?;
    Ok(SegmentRead {
        entries: tail.entries_read(),
        fault: place_fault(&tail, fault),
    })
}

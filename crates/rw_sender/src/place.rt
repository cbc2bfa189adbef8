//! Places the entries of the log.

ghost use Rattle.std.specs.Prelude.{◌≡◌, ◌<◌, ◌≤ℤ◌, ◌+ℤ◌, ◌∷◌, [], length, pos, IfOk, OnOk, None};
ghost use Rattle.rw_sender.specs.Sizes.{size_of_sample};
ghost use Rattle.std.specs.Arc.{arc_value};
ghost use Rattle.rw_fleet.specs.ShardHistories.{AreSame};
ghost use Rattle.rw_sender.specs.inner.Cutting.{AreCounted, GoesCut, HasRoomMade};
ghost use Rattle.rw_sender.specs.Shipping.{PlacesAll};
ghost use Rattle.rw_sender.specs.inner.Shipping.{GoesOn, IsPlacedOrLate, IsSince, IsSpanned, IsWaiting, Rests, Steps};

use crate::cuts::Cuts;
use crate::feeder::{Feeder, Next};
use crate::span::Span;
use rw_fleet::{Connect, Fault, ShardSet};
use rw_series_cache::RoutedSample;
use rw_types::Entry;
use rw_wal_tail::TailFault;
use std::sync::Wait;

/// What one step results in.
pub(crate) enum Progress {
    /// One entry more was placed.
    Placed,
    /// This sample comes next, and the span of the epoch does not take it.
    Late(RoutedSample),
    /// There is no entry more.
    End,
    /// The log has this fault.
    Damaged(TailFault),
}

/// What many steps result in.
pub(crate) enum Rest {
    /// All entries that there are were placed, and the log has this fault after them, or none.
    Read(Option<TailFault>),
    /// This sample comes next, and the span of the epoch does not take it.
    Late(RoutedSample),
}

/// Counts a sample for its shard, and puts a Flush into the queue of that shard if the sample would
/// take what is counted since the last mark above the limit. It may wait for room.
fn make_room<C: Connect + Drop, R: Wait>(
    rt: &R,
    fleet: &mut ShardSet<C>,
    cuts: &mut Cuts,
    shard: usize,
    sample: &RoutedSample,
) -> Result<(), Fault>
    requires within { shard < length fleet.old.current }
    requires few { shard < 1000 }
    requires counted { AreCounted cuts.old.limit cuts.old.rooms fleet.old.current }
    ensures limit { cuts.new.limit ≡ cuts.old.limit }
    ensures rest { fleet.new ≡ record fleet.old { current = fleet.new.current } }
    ensures same { AreSame fleet.old.current fleet.new.current }
    ensures len { length fleet.new.current ≡ length fleet.old.current }
    ensures none { cuts.old.limit ≡ None → fleet.new ≡ fleet.old }
    ensures ok { OnOk result (HasRoomMade shard
        (size_of_sample (arc_value sample.now.labels) (sample.now.word, sample.now.t))
        cuts.old cuts.new fleet.old.current fleet.new.current) }
{
    if cuts.count(shard, &sample.labels, sample.word, sample.t) {
        return fleet.mark_one(rt, shard);
    }
    Ok(())
}

/// Puts the sample that comes next into the queue of its shard. It may wait for room in a queue.
pub(crate) fn put_sample<C: Connect + Drop, R: Wait>(
    rt: &R,
    feeder: &mut Feeder,
    fleet: &mut ShardSet<C>,
    cuts: &mut Cuts,
    span: &mut Span,
    sample: RoutedSample,
) -> Result<(), Fault>
    requires waiting { IsWaiting feeder.old sample }
    requires takes { sample.t ≤ℤ (span.old.earliest +ℤ pos span.old.most) }
    requires some { 0 < length fleet.old.current }
    requires places { PlacesAll feeder.old fleet.old }
    requires counted { AreCounted cuts.old.limit cuts.old.rooms fleet.old.current }
    requires since { IsSince span.old.earliest fleet.old.current }
    ensures ok { OnOk result (feeder.new.hand ≡ []) }
    ensures goes { GoesOn cuts.old.limit feeder.old feeder.new fleet.old fleet.new }
    ensures limit { cuts.new.limit ≡ cuts.old.limit }
    ensures cut { OnOk result (GoesCut cuts.old cuts.new fleet.old.current fleet.new.current) }
    ensures places { PlacesAll feeder.new fleet.new }
    ensures spanned { IsSpanned span.old span.new fleet.old.current fleet.new.current }
{
    let shard = (sample.series % fleet.len() as u64) as usize;
    let (series, t) = (sample.series, sample.t);
    make_room(rt, fleet, cuts, shard, &sample)?;
    if let Err(fault) = fleet.put(rt, shard, sample) {
        return Err(fault);
    }
    *span = span.with(t);
    feeder.sent(series, t);
    Ok(())
}

/// Places the entry that was read, which has the external labels. Returns the sample that it is if
/// the span of the epoch does not take it. It may wait for room in a queue.
fn place_entry<C: Connect + Drop, R: Wait>(
    rt: &R,
    feeder: &mut Feeder,
    fleet: &mut ShardSet<C>,
    cuts: &mut Cuts,
    span: &mut Span,
    entry: Entry,
) -> Result<Option<RoutedSample>, Fault>
    requires hand { feeder.old.hand ≡ entry ∷ [] }
    requires some { 0 < length fleet.old.current }
    requires places { PlacesAll feeder.old fleet.old }
    requires counted { AreCounted cuts.old.limit cuts.old.rooms fleet.old.current }
    requires since { IsSince span.old.earliest fleet.old.current }
    ensures ok { IfOk result (λ late. IsPlacedOrLate feeder.new span.old.most late) }
    ensures goes { GoesOn cuts.old.limit feeder.old feeder.new fleet.old fleet.new }
    ensures limit { cuts.new.limit ≡ cuts.old.limit }
    ensures cut { OnOk result (GoesCut cuts.old cuts.new fleet.old.current fleet.new.current) }
    ensures places { PlacesAll feeder.new fleet.new }
    ensures spanned { IsSpanned span.old span.new fleet.old.current fleet.new.current }
{
    let Ok(found) = feeder.place(entry) else {
        return Err(Fault::OutOfMemory);
    };
    let Some(sample) = found else {
        return Ok(None);
    };
    if !span.takes(sample.t) {
        return Ok(Some(sample));
    }
    put_sample(rt, feeder, fleet, cuts, span, sample)?;
    Ok(None)
}

/// Places the next entry, if there is one. It may wait for room in a queue.
fn place_next<C: Connect + Drop, R: Wait>(
    rt: &R,
    feeder: &mut Feeder,
    fleet: &mut ShardSet<C>,
    cuts: &mut Cuts,
    span: &mut Span,
) -> Result<Progress, Fault>
    requires hand { feeder.old.hand ≡ [] }
    requires some { 0 < length fleet.old.current }
    requires places { PlacesAll feeder.old fleet.old }
    requires counted { AreCounted cuts.old.limit cuts.old.rooms fleet.old.current }
    requires since { IsSince span.old.earliest fleet.old.current }
    ensures ok { IfOk result (λ progress. Steps feeder.new span.old.most progress) }
    ensures goes { GoesOn cuts.old.limit feeder.old feeder.new fleet.old fleet.new }
    ensures limit { cuts.new.limit ≡ cuts.old.limit }
    ensures cut { OnOk result (GoesCut cuts.old cuts.new fleet.old.current fleet.new.current) }
    ensures places { PlacesAll feeder.new fleet.new }
    ensures spanned { IsSpanned span.old span.new fleet.old.current fleet.new.current }
{
    let Ok(next) = feeder.read() else {
        return Err(Fault::OutOfMemory);
    };
    match next {
        Next::Entry(entry) => {
            let Ok(entry) = feeder.label(entry) else {
                return Err(Fault::OutOfMemory);
            };
            match place_entry(rt, feeder, fleet, cuts, span, entry)? {
                Some(sample) => Ok(Progress::Late(sample)),
                None => Ok(Progress::Placed),
            }
        }
        Next::End => Ok(Progress::End),
        Next::Damaged(fault) => Ok(Progress::Damaged(fault)),
    }
}

/// Places the entries that there are, up to a sample that the span of the epoch does not take. It
/// may wait for room in a queue.
pub(crate) fn place_all<C: Connect + Drop, R: Wait>(
    rt: &R,
    feeder: &mut Feeder,
    fleet: &mut ShardSet<C>,
    cuts: &mut Cuts,
    span: &mut Span,
) -> Result<Rest, Fault>
    requires hand { feeder.old.hand ≡ [] }
    requires some { 0 < length fleet.old.current }
    requires places { PlacesAll feeder.old fleet.old }
    requires counted { AreCounted cuts.old.limit cuts.old.rooms fleet.old.current }
    requires since { IsSince span.old.earliest fleet.old.current }
    ensures ok { IfOk result (λ rest. Rests feeder.new span.old.most rest) }
    ensures goes { GoesOn cuts.old.limit feeder.old feeder.new fleet.old fleet.new }
    ensures limit { cuts.new.limit ≡ cuts.old.limit }
    ensures cut { OnOk result (GoesCut cuts.old cuts.new fleet.old.current fleet.new.current) }
    ensures places { PlacesAll feeder.new fleet.new }
    ensures spanned { IsSpanned span.old span.new fleet.old.current fleet.new.current }
{
    for _ in rt.forever() {
        match place_next(rt, feeder, fleet, cuts, span)? {
            Progress::Placed => {}
            Progress::Late(sample) => return Ok(Rest::Late(sample)),
            Progress::End => return Ok(Rest::Read(None)),
            Progress::Damaged(fault) => return Ok(Rest::Read(Some(fault))),
        }
    }
    unreachable!()
}

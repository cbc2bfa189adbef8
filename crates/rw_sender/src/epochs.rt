//! Places the entries of the log over several epochs, so that the samples of each keep a bound.

ghost use Rattle.std.specs.Prelude.{◌≡◌, [], length, IfOk, OnOk, OnErr};
ghost use Rattle.rw_sender.specs.Feeders.{HasReadAll};
ghost use Rattle.rw_sender.specs.Placement.{IsShardCount};
ghost use Rattle.rw_sender.specs.Shipping.{PlacesAll};
ghost use Rattle.rw_sender.specs.Skews.{GoesOver, GoesWhole};
ghost use Rattle.rw_sender.specs.inner.Cutting.{AreCounted};
ghost use Rattle.rw_sender.specs.inner.Reports.{IsRoomFor};
ghost use Rattle.rw_sender.specs.inner.Shipping.{IsBegun, IsBroken, IsLonger, IsSince, IsWaiting};

use crate::cuts::Cuts;
use crate::feeder::Feeder;
use crate::place::{Rest, place_all, put_sample};
use crate::span::Span;
use crate::unresolved::begin_epoch;
use rw_fleet::{Connect, Fault, ShardSet};
use rw_series_cache::RoutedSample;
use rw_wal_tail::TailFault;
use std::sync::Wait;
use std::thread::Threads;

/// Begins the next epoch with as many shards, once all that was put is resolved, and puts into it
/// the sample that comes next.
fn put_in_next<C: Connect + Drop, R: Threads + Wait + Copy + Send + 'static>(
    rt: &R,
    feeder: &mut Feeder,
    fleet: &mut ShardSet<C>,
    cuts: &mut Cuts,
    span: &mut Span,
    samples: &mut Vec<u64>,
    sample: RoutedSample,
) -> Result<(), Fault>
    requires waiting { IsWaiting feeder.old sample }
    requires number { IsShardCount (length fleet.old.current) }
    requires places { PlacesAll feeder.old fleet.old }
    requires room { IsRoomFor fleet.old samples.old }
    ensures hand { OnOk result (feeder.new.hand ≡ []) }
    ensures longer { IsLonger feeder.old feeder.new }
    ensures limit { cuts.new.limit ≡ cuts.old.limit }
    ensures most { span.new.most ≡ span.old.most }
    ensures begun { OnOk result
        (IsBegun cuts.old.limit span.old.most fleet.old fleet.new) }
    ensures broken { OnErr result
        (IsBroken cuts.old.limit span.old.most feeder.new fleet.old fleet.new) }
    ensures counted { OnOk result (AreCounted cuts.new.limit cuts.new.rooms fleet.new.current) }
    ensures since { OnOk result (IsSince span.new.earliest fleet.new.current) }
    ensures room { IsRoomFor fleet.new samples.new }
    ensures places { PlacesAll feeder.new fleet.new }
{
    let shards = fleet.len() as u32;
    begin_epoch(rt, fleet, samples, shards)?;
    cuts.reset();
    *span = Span::new(span.most);
    put_sample(rt, feeder, fleet, cuts, span, sample)
}

/// Places all entries that there are, over as many epochs as it takes for the samples of each to be
/// within the span. Returns the fault of the log after them. It may wait for room in a queue, and
/// until what was put is resolved.
pub(crate) fn place_over<C: Connect + Drop, R: Threads + Wait + Copy + Send + 'static>(
    rt: &R,
    feeder: &mut Feeder,
    fleet: &mut ShardSet<C>,
    cuts: &mut Cuts,
    span: &mut Span,
    samples: &mut Vec<u64>,
) -> Result<Option<TailFault>, Fault>
    requires hand { feeder.old.hand ≡ [] }
    requires number { IsShardCount (length fleet.old.current) }
    requires places { PlacesAll feeder.old fleet.old }
    requires counted { AreCounted cuts.old.limit cuts.old.rooms fleet.old.current }
    requires since { IsSince span.old.earliest fleet.old.current }
    requires room { IsRoomFor fleet.old samples.old }
    ensures hand { OnOk result (feeder.new.hand ≡ []) }
    ensures ok { IfOk result (λ found. HasReadAll feeder.new found) }
    ensures longer { IsLonger feeder.old feeder.new }
    ensures limit { cuts.new.limit ≡ cuts.old.limit }
    ensures whole { OnOk result (GoesWhole cuts.old.limit span.old.most fleet.old fleet.new) }
    ensures over { GoesOver cuts.old.limit span.old.most feeder.new fleet.old fleet.new }
    ensures counted { OnOk result (AreCounted cuts.new.limit cuts.new.rooms fleet.new.current) }
    ensures since { OnOk result (IsSince span.new.earliest fleet.new.current) }
    ensures room { IsRoomFor fleet.new samples.new }
    ensures places { PlacesAll feeder.new fleet.new }
{
    for _ in rt.forever() {
        match place_all(rt, feeder, fleet, cuts, span)? {
            Rest::Read(found) => return Ok(found),
            Rest::Late(sample) => put_in_next(rt, feeder, fleet, cuts, span, samples, sample)?,
        }
    }
    unreachable!()
}

//! Feeds a log to a shipper, as it grows or to its end.

ghost use Rattle.std.specs.Prelude.{◌≡◌, ◌<◌, ◌≤◌, ℕ, List, [], length, true, false, None, IfErr, IfOk, OnOk, vec_len};
ghost use Rattle.rw_follow.specs.Meals.{Meal};
ghost use Rattle.rw_follow.specs.Turns.{FitsBuffer, given_by};
ghost use Rattle.rw_follow.specs.declared.follower.Turn.TheVariants as Turn;
ghost use Rattle.rw_follow.specs.declared.signal.StopRequest.TheVariants as StopRequest;
ghost use Rattle.rw_fleet.specs.Work.{AreResolved};
ghost use Rattle.rw_fleet.specs.Loads.{IsLoad};
ghost use Rattle.rw_fleet.specs.declared.load.Load.{Load};
ghost use Rattle.rw_send.specs.Drained.{IsCount};
ghost use Rattle.rw_send.specs.Logs.{GaveNothing, IsAlmostRead, seen_of};
ghost use Rattle.rw_wal_format.specs.Pieces.{is_marked};
ghost use Rattle.rw_send.specs.Segments.{IsShortLog, AreSoundButLast, fed_of, meal_of};
ghost use Rattle.rw_send.specs.Sending.{is_undivided};
ghost use Rattle.rw_send.specs.Steps.{HasComeTo, HasLapped, KeepsSetup, HasLastEpoch};
ghost use Rattle.rw_send.specs.inner.Turns.{Goes, IsCut, Reshards};
ghost use Rattle.rw_send.specs.inner.EpochSizes.{KeepsEpochSizes};
ghost use Rattle.rw_send.specs.inner.FeedErrors.{HasDamage, IsIntact};
ghost use Rattle.rw_sender.specs.Placement.{IsShardCount};

use crate::counters::{FeedContext, update_counters};
use crate::feed_error::FeedError;
use crate::keeper::{Keeper, keep_if_due};
use crate::over::obey_over;
use crate::sharding::{Sharding, resharded, retuned};
use rw_follow::{Follower, Segments, Turn, Watch};
use rw_sender::{Connect, Shipper};
use rw_wal_tail::Piece;
use std::alloc::{AllocError, Global};
use std::sync::Wait;
use std::thread::Threads;
use std::time::Clock;

/// The most bytes of a piece.
const PIECE_BYTES: usize = 65_536;

/// Returns room for a piece.
pub(crate) fn room_for_piece(alloc: Global) -> Result<Vec<u8>, AllocError>
    ensures { IfOk result (λ v. vec_len v ≡ PIECE_BYTES) }
{
    vec![in alloc; 0; PIECE_BYTES]
}

/// Feeds some bytes of the current segment: the first ones of the buffer.
fn feed_bytes<R: Wait, C: Connect + Drop>(
    rt: &R,
    alloc: Global,
    shipper: &mut Shipper<C>,
    sharding: Sharding,
    buf: &[u8],
    count: usize,
) -> Result<Sharding, FeedError>
    requires live { shipper.old.fault ≡ None }
    requires intact { IsIntact shipper.old }
    requires shards { length shipper.old.fleet.current ≡ sharding.shards }
    requires within { count ≤ length buf.now }
    requires short { length buf.now ≤ 65_536 }
    ensures { Goes (Turn.Piece count) buf.now sharding shipper.old shipper.new result }
{
    let piece = Vec::from_slice(alloc, &buf[..count])?;
    shipper.feed(rt, Piece::Bytes(piece))?;
    Ok(sharding)
}

/// Feeds word that the next segment begins, with as many shards as are wanted under the load.
fn feed_next<R: Threads + Wait + Clock + Copy + Send + 'static, C: Connect + Drop>(
    rt: &R,
    shipper: &mut Shipper<C>,
    sharding: Sharding,
) -> Result<Sharding, FeedError>
    requires live { shipper.old.fault ≡ None }
    requires intact { IsIntact shipper.old }
    requires shards { length shipper.old.fleet.current ≡ sharding.shards }
    ensures { (buf : List ℕ) → Goes Turn.Over buf sharding shipper.old shipper.new result }
{
    let next = resharded(rt, shipper, sharding)?;
    shipper.feed(rt, Piece::NextSegment)?;
    Ok(next)
}

/// Makes each shard send what waits for a full batch.
fn flush<R: Wait, C: Connect + Drop>(
    rt: &R,
    shipper: &mut Shipper<C>,
    sharding: Sharding,
) -> Result<Sharding, FeedError>
    requires live { shipper.old.fault ≡ None }
    requires intact { IsIntact shipper.old }
    requires shards { length shipper.old.fleet.current ≡ sharding.shards }
    ensures { (buf : List ℕ) → Goes Turn.Flush buf sharding shipper.old shipper.new result }
{
    shipper.flush(rt)?;
    Ok(sharding)
}

/// Does what a turn of a follower asks for.
pub(crate) fn obey<R: Threads + Wait + Clock + Copy + Send + 'static, C: Connect + Drop>(
    rt: &R,
    alloc: Global,
    shipper: &mut Shipper<C>,
    sharding: Sharding,
    turn: Turn,
    buf: &[u8],
) -> Result<Sharding, FeedError>
    requires live { shipper.old.fault ≡ None }
    requires intact { IsIntact shipper.old }
    requires shards { length shipper.old.fleet.current ≡ sharding.shards }
    requires within { FitsBuffer turn (length buf.now) }
    requires short { length buf.now ≤ 65_536 }
    ensures { Goes turn buf.now sharding shipper.old shipper.new result }
{
    match turn {
        Turn::Piece(count) => feed_bytes(rt, alloc, shipper, sharding, buf, count),
        Turn::Over => feed_next(rt, shipper, sharding),
        Turn::Flush => flush(rt, shipper, sharding),
        Turn::Nothing | Turn::Finished | Turn::Aborted => Ok(sharding),
    }
}

/// Does what a turn of a follower asks for, and keeps the bound on how far apart in time the
/// samples of an epoch are, if there is one.
fn obey_within<R: Threads + Wait + Clock + Copy + Send + 'static, C: Connect + Drop>(
    rt: &R,
    context: FeedContext<'_>,
    shipper: &mut Shipper<C>,
    sharding: Sharding,
    turn: Turn,
    buf: &[u8],
) -> Result<Sharding, FeedError>
    requires live { shipper.old.fault ≡ None }
    requires intact { IsIntact shipper.old }
    requires shards { length shipper.old.fleet.current ≡ sharding.shards }
    requires within { FitsBuffer turn (length buf.now) }
    requires short { length buf.now ≤ 65_536 }
    ensures goes { context.entry.max_skew ≡ None
        → Goes turn buf.now sharding shipper.old shipper.new result }
    ensures reshards { Reshards turn buf.now sharding shipper.old shipper.new result }
    ensures start { IfOk result
        (λ s. (s.placed ≡ sharding.placed) × (s.resolved ≡ sharding.resolved)) }
{
    match context.max_skew {
        None => obey(rt, context.alloc, shipper, sharding, turn, buf),
        Some(most) => obey_over(rt, context.alloc, shipper, sharding, most, turn, buf),
    }
}

/// Sets the number of shards if that is due, and does what a turn of a follower asks for.
fn step<R: Threads + Wait + Clock + Copy + Send + 'static, C: Connect + Drop>(
    rt: &R,
    context: FeedContext<'_>,
    shipper: &mut Shipper<C>,
    sharding: Sharding,
    is_reshard_due: bool,
    turn: Turn,
    buf: &[u8],
) -> Result<Sharding, FeedError>
    requires live { shipper.old.fault ≡ None }
    requires intact { IsIntact shipper.old }
    requires shards { length shipper.old.fleet.current ≡ sharding.shards }
    requires within { FitsBuffer turn (length buf.now) }
    requires short { length buf.now ≤ 65_536 }
    ensures asked { is_reshard_due ≡ true → IfOk result (λ s. (load : Load)
        × IsLoad shipper.old.fleet load × (s.placed ≡ load.placed)
        × (s.resolved ≡ load.resolved)) }
    ensures goes { context.entry.max_skew ≡ None → is_reshard_due ≡ false
        → Goes turn buf.now sharding shipper.old shipper.new result }
    ensures reshards { Reshards turn buf.now sharding shipper.old shipper.new result }
{
    let next = retuned(rt, shipper, sharding, is_reshard_due)?;
    obey_within(rt, context, shipper, next, turn, buf)
}

/// Counts a turn that was done.
fn count_turn<C: Connect + Drop>(
    context: FeedContext<'_>,
    shipper: &Shipper<C>,
    shards: u32,
    turn: Turn,
) {
    if let Turn::Piece(count) = turn {
        context.counters.read_bytes(count);
    }
    context.counters.set_shards(shards);
    update_counters(context.counters, shipper);
}

/// Returns how many bytes of the current segment were fed with one more turn.
fn fed_with(fed: u64, turn: Turn) -> u64
    ensures { (buf : List ℕ) (meal : Meal) → FitsBuffer turn (length buf)
        → IsCount fed (length meal.begun) → IsCount result (length (given_by turn buf meal).begun) }
{
    match turn {
        Turn::Piece(count) => fed.saturating_add(count as u64),
        Turn::Over => 0,
        Turn::Flush | Turn::Nothing | Turn::Finished | Turn::Aborted => fed,
    }
}

/// Feeds a log until the watch asks to stop.
pub(crate) fn ship_live<
    R: Threads + Wait + Clock + Copy + Send + 'static,
    S: Segments,
    C: Connect + Drop,
    W: Watch,
    P: Keeper<S, C, W>,
>(
    rt: &R,
    context: FeedContext<'_>,
    shipper: &mut Shipper<C>,
    sharding: Sharding,
    segments: &mut S,
    watch: &mut W,
    buf: &mut [u8],
) -> Result<(), FeedError>
    requires begun { fed_of shipper.old.log.pieces ≡ [] }
    requires live { shipper.old.fault ≡ None }
    requires shards { length shipper.old.fleet.current ≡ sharding.shards }
    requires buffer { 0 < length buf.old }
    requires short { length buf.old ≤ 65_536 }
    ensures kept { KeepsSetup shipper.old shipper.new }
    ensures limit { shipper.new.fault ≡ None → shipper.new.limit ≡ shipper.old.limit }
    ensures number { shipper.new.fault ≡ None → IsShardCount (length shipper.new.fleet.current) }
    ensures sizes { shipper.new.fault ≡ None → KeepsEpochSizes sharding.fewest sharding.most
        shipper.old.fleet shipper.new.fleet }
    ensures laps { is_undivided context.entry.max_skew (W.is_quiet watch.old) ≡ true → (start : S.Start)
        → S.gave segments.old start (meal_of []) → HasComeTo sharding.fewest sharding.most
        (S.gave segments.new start) (meal_of shipper.new.log.pieces) shipper.old shipper.new }
    ensures lapped { OnOk result (is_undivided context.entry.max_skew (W.is_quiet watch.old) ≡ true
        → HasLapped sharding.fewest sharding.most
        (length (meal_of shipper.new.log.pieces).whole) shipper.old shipper.new) }
    ensures idle { is_undivided context.entry.max_skew (W.is_quiet watch.old) ≡ true → (start : S.Start)
        → S.gave segments.old start (meal_of []) → GaveNothing (S.gave segments.new start)
        → shipper.new ≡ shipper.old }
    ensures short { IsShortLog (is_marked shipper.old.log.pieces) shipper.new.log.pieces }
    ensures but_last { AreSoundButLast shipper.new.log.pieces }
    ensures live { OnOk result (shipper.new.fault ≡ None) }
    ensures begins { (start : S.Start) → S.gave segments.old start (meal_of [])
        → IsAlmostRead (S.gave segments.new start) (meal_of shipper.new.log.pieces) }
    ensures whole { OnOk result ((start : S.Start) → S.gave segments.old start (meal_of [])
        → S.had_all segments.new start (meal_of shipper.new.log.pieces)) }
    ensures signed { OnOk result (W.said watch.new ≡ StopRequest.Finish) }
    ensures damaged { IfErr result (HasDamage shipper.new) }
    ensures cut { IfErr result (λ e. (start : S.Start)
        → S.gave segments.old start (meal_of []) → IsCut shipper.new
        (seen_of (S.gave segments.new start) (S.had_all segments.new start)
        (S.lacks segments.new) (S.may_fail segments.old)) (W.said watch.new) e) }
    ensures last { AreResolved shipper.old.fleet.ended → HasLastEpoch shipper.new }
{
    let mut sharding = sharding;
    let mut follower = Follower::new();
    let mut fed = 0;
    context.counters.set_shards(sharding.shards);
    for _ in rt.forever() {
        let turn = follower.turn(segments, watch, buf)?;
        if let Turn::Aborted = turn {
            return Err(FeedError::Aborted);
        }
        let next = keep_if_due::<R, S, C, W, P>(rt, shipper, sharding, turn, fed, segments, watch)?;
        if let Turn::Finished = turn {
            return Ok(());
        }
        let is_due = watch.is_reshard_due();
        sharding = step(rt, context, shipper, next, is_due, turn, buf)?;
        fed = fed_with(fed, turn);
        count_turn(context, shipper, sharding.shards, turn);
    }
    unreachable!()
}

//! Keeps how far a log was shipped, at the end of each segment.

ghost use Rattle.std.specs.Prelude.{◌≡◌, ◌≤◌, ◌⊎◌, ◌+◌, List, ℕ, Option, true, false, None, Some, Ok, Err, IfOk, IfSome, IsSome, OnErr, OnOk, length};
ghost use Rattle.rw_follow.specs.Meals.{Meal};
ghost use Rattle.rw_resume.specs.Files.{MayLeave};
ghost use Rattle.rw_resume.specs.Positions.{Names};
ghost use Rattle.rw_sender.specs.Shipping.{PlacesAll};
ghost use Rattle.rw_send.specs.Drained.{IsCount, IsDrained, IsSoon, begun_at};
ghost use Rattle.rw_send.specs.Segments.{meal_of};
ghost use Rattle.rw_send.specs.Steps.{IsUnset};
ghost use Rattle.rw_send.specs.declared.feed_error.FeedError.TheVariants.{Failed};

use crate::feed_error::FeedError;
use crate::sharding::Sharding;
use rw_follow::{Segments, Turn, Watch};
use rw_resume::{Keeping, Numbered, PositionFiles};
use rw_sender::{Connect, Shipper};
use std::sync::Wait;
use std::thread::Threads;
use std::time::Clock;

/// Whether, and how, a watch keeps in a file how far a log was shipped.
pub trait Keeper<S: Segments, C: Connect + Drop, W: Watch> {
    ghost use Rattle.std.specs.Prelude.{Option, ℕ, List};
    ghost use Rattle.rw_resume.specs.Files.{FileState};

    /// What a crash may leave of the file.
    ghost file: { W → FileState };

    /// The number of the current segment of a log, if it has one.
    ghost number: { S → Option ℕ };

    /// How many bytes of that segment come before those that are read of it.
    ghost base: { S → ℕ };

    /// The text of the position after this many bytes of the segment of this number.
    ghost text: { W → ℕ → ℕ → List ℕ };

    /// Returns whether the position at this turn is to be kept: after `fed` bytes of those that are
    /// read of the current segment.
    fn is_keep_due(watch: &W, segments: &S, turn: Turn, fed: u64) -> bool
        ensures quiet { W.is_quiet watch.now ≡ true → result ≡ false };

    /// Keeps that position. All that was fed must be resolved, and `fed` bytes of it must be of the
    /// current segment.
    fn keep(watch: &mut W, segments: &S, turn: Turn, fed: u64, shipper: &Shipper<C>)
        requires drained { IsDrained shipper.now }
        requires fed { fed ≡ begun_at turn (meal_of shipper.now.log.pieces) }
        ensures file { (c : Option (List ℕ)) → MayLeave (file watch.new) c
            → MayLeave (file watch.old) c
            ⊎ Names (number segments.now) (λ n. text watch.old n (base segments.now + fed)) c }
        ensures said { W.said watch.new ≡ W.said watch.old }
        ensures quiet { W.is_quiet watch.old ≡ true → W.is_quiet watch.new ≡ true };
}

/// Keeps no position.
pub(crate) struct KeepsNone;

impl<S: Segments, C: Connect + Drop, W: Watch> Keeper<S, C, W> for KeepsNone {
    ghost use Rattle.std.specs.Prelude.{None, []};
    ghost use Rattle.rw_resume.specs.Files.{unknown_file};

    ghost file = { λ _. unknown_file };

    ghost number = { λ _. None };

    ghost base = { λ _. 0 };

    ghost text = { λ _ _ _. [] };

    fn is_keep_due(_watch: &W, _segments: &S, _turn: Turn, _fed: u64) -> bool {
        false
    }

    fn keep(_watch: &mut W, _segments: &S, _turn: Turn, _fed: u64, _shipper: &Shipper<C>) {}
}

/// Keeps the position at the beginning of each segment, within one if it is time and nothing more
/// can be read now, and at the end.
pub struct KeepsPlaces;

/// Returns the current segment of a log, and how many bytes of it come before the position if this
/// many were fed of those that are read of it.
fn place_in<S: Numbered>(segments: &S, fed: u64) -> Option<(u64, u64)>
    ensures { IfSome result (λ at. (S.number segments.now ≡ Some at.0)
        × (at.1 ≡ S.base segments.now + fed)) }
{
    let number = segments.number()?;
    let bytes = segments.base().checked_add(fed)?;
    Some((number, bytes))
}

impl<S: Numbered, C: Connect + Drop, K: Clock, W: Watch, F: PositionFiles> Keeper<
    S,
    C,
    Keeping<K, W, F>,
> for KeepsPlaces {
    ghost use Rattle.std.specs.Prelude.{string_bytes};
    ghost use Rattle.rw_resume.specs.Positions.{text_at};

    ghost file = { λ k. F.state k.files };

    ghost number = { λ s. S.number s };

    ghost base = { λ s. S.base s };

    ghost text = { λ k n bytes. text_at (string_bytes k.log) n bytes };

    fn is_keep_due(watch: &Keeping<K, W, F>, segments: &S, turn: Turn, fed: u64) -> bool {
        let Some((number, bytes)) = place_in(segments, fed) else {
            return false;
        };
        if !watch.is_new(number, bytes) {
            return false;
        }
        match turn {
            Turn::Over | Turn::Finished => true,
            Turn::Nothing => watch.is_time(),
            Turn::Piece(_) | Turn::Flush | Turn::Aborted => false,
        }
    }

    fn keep(
        watch: &mut Keeping<K, W, F>,
        segments: &S,
        _turn: Turn,
        fed: u64,
        _shipper: &Shipper<C>,
    ) {
        if let Some((number, bytes)) = place_in(segments, fed) {
            watch.keep(number, bytes);
        }
    }
}

/// Waits until all that was put is resolved, and begins the next epoch with as many shards, within
/// their bounds.
fn drain<R: Threads + Wait + Clock + Copy + Send + 'static, C: Connect + Drop>(
    rt: &R,
    shipper: &mut Shipper<C>,
    sharding: Sharding,
) -> Result<Sharding, FeedError>
    requires shards { length shipper.old.fleet.current ≡ sharding.shards }
    requires live { shipper.old.fault ≡ None }
    ensures drained { OnOk result (IsDrained shipper.new) }
    ensures soon { IfOk result (IsSoon sharding shipper.old shipper.new) }
    ensures bounds { IfOk result (λ s. (s.fewest ≤ s.shards) × (s.shards ≤ s.most)) }
    ensures unset { OnErr result (IsUnset shipper.old shipper.new) }
    ensures config { shipper.new.fleet.config ≡ shipper.old.fleet.config }
    ensures err { OnErr result (result ≡ Err Failed) }
    ensures failed { OnErr result (IsSome shipper.new.fault) }
{
    let _ = shipper.load();
    let next = sharding.within_bounds();
    if shipper.reshard(rt, next.shards).is_err() {
        return Err(FeedError::Failed);
    }
    Ok(next)
}

/// Changes the number of shards to the nearest one within their bounds, once all that was put is
/// resolved, if it is not within them.
pub(crate) fn bounded<R: Threads + Wait + Clock + Copy + Send + 'static, C: Connect + Drop>(
    rt: &R,
    shipper: &mut Shipper<C>,
    sharding: Sharding,
) -> Result<Sharding, FeedError>
    requires shards { length shipper.old.fleet.current ≡ sharding.shards }
    requires live { shipper.old.fault ≡ None }
    ensures soon { IfOk result (IsSoon sharding shipper.old shipper.new) }
    ensures bounds { IfOk result (λ s. (s.fewest ≤ s.shards) × (s.shards ≤ s.most)) }
    ensures unset { OnErr result (IsUnset shipper.old shipper.new) }
    ensures config { shipper.new.fleet.config ≡ shipper.old.fleet.config }
    ensures placed { PlacesAll shipper.old.log shipper.old.fleet }
    ensures err { OnErr result (result ≡ Err Failed) }
    ensures failed { OnErr result (IsSome shipper.new.fault) }
{
    shipper.conforms();
    if sharding.within_bounds().shards == sharding.shards {
        return Ok(sharding);
    }
    drain(rt, shipper, sharding)
}

/// Returns how many bytes of the current segment were fed, if this many were before a turn was
/// returned: none if the turn says that a segment is over.
fn begun_at(turn: Turn, fed: u64) -> u64
    ensures { (meal : Meal) → IsCount fed (length meal.begun)
        → IsCount result (begun_at turn meal) }
{
    if turn == Turn::Over { 0 } else { fed }
}

/// If the position at this turn is to be kept: waits until all that was put is resolved, and keeps
/// it. `fed` bytes of the segment before the turn were fed.
pub(crate) fn keep_if_due<
    R: Threads + Wait + Clock + Copy + Send + 'static,
    S: Segments,
    C: Connect + Drop,
    W: Watch,
    P: Keeper<S, C, W>,
>(
    rt: &R,
    shipper: &mut Shipper<C>,
    sharding: Sharding,
    turn: Turn,
    fed: u64,
    segments: &S,
    watch: &mut W,
) -> Result<Sharding, FeedError>
    requires shards { length shipper.old.fleet.current ≡ sharding.shards }
    requires live { shipper.old.fault ≡ None }
    requires fed { IsCount fed (length (meal_of shipper.old.log.pieces).begun) }
    ensures kept { IfOk result (IsSoon sharding shipper.old shipper.new) }
    ensures unset { OnErr result (IsUnset shipper.old shipper.new) }
    ensures config { shipper.new.fleet.config ≡ shipper.old.fleet.config }
    ensures placed { PlacesAll shipper.old.log shipper.old.fleet }
    ensures err { OnErr result (result ≡ Err Failed) }
    ensures failed { OnErr result (IsSome shipper.new.fault) }
    ensures same { W.is_quiet watch.old ≡ true → shipper.new ≡ shipper.old }
    ensures done { W.is_quiet watch.old ≡ true → result ≡ Ok sharding }
    ensures said { W.said watch.new ≡ W.said watch.old }
    ensures quiet { W.is_quiet watch.old ≡ true → W.is_quiet watch.new ≡ true }
{
    shipper.conforms();
    let begun = begun_at(turn, fed);
    if begun == u64::MAX || !P::is_keep_due(watch, segments, turn, begun) {
        return Ok(sharding);
    }
    let next = drain(rt, shipper, sharding)?;
    P::keep(watch, segments, turn, begun, shipper);
    Ok(next)
}

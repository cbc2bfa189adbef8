//! Feeds a log to a shipper over epochs of which each keeps a bound on how far apart in time its
//! samples are.

ghost use Rattle.std.specs.Prelude.{◌≡◌, ◌≤◌, ℕ, List, None, IfOk, length};
ghost use Rattle.rw_follow.specs.Turns.{FitsBuffer};
ghost use Rattle.rw_follow.specs.declared.follower.Turn.TheVariants as Turn;
ghost use Rattle.rw_wal_tail.specs.Fed.{piece_of};
ghost use Rattle.rw_send.specs.Segments.{IsShortPiece};
ghost use Rattle.rw_send.specs.inner.FeedErrors.{IsIntact};
ghost use Rattle.rw_send.specs.inner.Turns.{IsFedOver, Reshards};

use crate::feed_error::FeedError;
use crate::keeper::bounded;
use crate::live::obey;
use crate::sharding::{Sharding, resharded};
use rw_follow::Turn;
use rw_sender::{Connect, Shipper};
use rw_wal_tail::Piece;
use std::alloc::Global;
use std::sync::Wait;
use std::thread::Threads;
use std::time::Clock;

/// Feeds a piece of the log.
fn feed_over<R: Threads + Wait + Clock + Copy + Send + 'static, C: Connect + Drop>(
    rt: &R,
    shipper: &mut Shipper<C>,
    sharding: Sharding,
    piece: Piece,
    max_skew: u64,
) -> Result<Sharding, FeedError>
    requires live { shipper.old.fault ≡ None }
    requires intact { IsIntact shipper.old }
    requires shards { length shipper.old.fleet.current ≡ sharding.shards }
    requires bounds { (sharding.fewest ≤ sharding.shards) × (sharding.shards ≤ sharding.most) }
    requires short { IsShortPiece (piece_of piece) }
    ensures fed { IsFedOver sharding (piece_of piece) shipper.old shipper.new result }
    ensures same { IfOk result (λ s. s ≡ sharding) }
{
    shipper.feed_with_skew(rt, piece, max_skew)?;
    Ok(sharding)
}

/// Feeds some bytes of the current segment: the first ones of the buffer.
fn feed_bytes_over<R: Threads + Wait + Clock + Copy + Send + 'static, C: Connect + Drop>(
    rt: &R,
    alloc: Global,
    shipper: &mut Shipper<C>,
    sharding: Sharding,
    max_skew: u64,
    buf: &[u8],
    count: usize,
) -> Result<Sharding, FeedError>
    requires live { shipper.old.fault ≡ None }
    requires intact { IsIntact shipper.old }
    requires shards { length shipper.old.fleet.current ≡ sharding.shards }
    requires within { count ≤ length buf.now }
    requires short { length buf.now ≤ 65_536 }
    ensures reshards { Reshards (Turn.Piece count) buf.now sharding shipper.old shipper.new result }
    ensures start { IfOk result
        (λ s. (s.placed ≡ sharding.placed) × (s.resolved ≡ sharding.resolved)) }
{
    let next = bounded(rt, shipper, sharding)?;
    let piece = Vec::from_slice(alloc, &buf[..count])?;
    feed_over(rt, shipper, next, Piece::Bytes(piece), max_skew)
}

/// Feeds word that the next segment begins, with as many shards as are wanted under the load.
fn feed_next_over<R: Threads + Wait + Clock + Copy + Send + 'static, C: Connect + Drop>(
    rt: &R,
    shipper: &mut Shipper<C>,
    sharding: Sharding,
    max_skew: u64,
) -> Result<Sharding, FeedError>
    requires live { shipper.old.fault ≡ None }
    requires intact { IsIntact shipper.old }
    requires shards { length shipper.old.fleet.current ≡ sharding.shards }
    ensures reshards { (buf : List ℕ) → Reshards Turn.Over buf sharding shipper.old shipper.new result }
    ensures start { IfOk result
        (λ s. (s.placed ≡ sharding.placed) × (s.resolved ≡ sharding.resolved)) }
{
    let next = resharded(rt, shipper, sharding)?;
    feed_over(rt, shipper, next, Piece::NextSegment, max_skew)
}

/// Does what a turn of a follower asks for. No sample is put into a queue that is later by more
/// than `max_skew` milliseconds than one before it in the log that may not be resolved.
pub(crate) fn obey_over<R: Threads + Wait + Clock + Copy + Send + 'static, C: Connect + Drop>(
    rt: &R,
    alloc: Global,
    shipper: &mut Shipper<C>,
    sharding: Sharding,
    max_skew: u64,
    turn: Turn,
    buf: &[u8],
) -> Result<Sharding, FeedError>
    requires live { shipper.old.fault ≡ None }
    requires intact { IsIntact shipper.old }
    requires shards { length shipper.old.fleet.current ≡ sharding.shards }
    requires within { FitsBuffer turn (length buf.now) }
    requires short { length buf.now ≤ 65_536 }
    ensures reshards { Reshards turn buf.now sharding shipper.old shipper.new result }
    ensures start { IfOk result
        (λ s. (s.placed ≡ sharding.placed) × (s.resolved ≡ sharding.resolved)) }
{
    match turn {
        Turn::Piece(count) => feed_bytes_over(rt, alloc, shipper, sharding, max_skew, buf, count),
        Turn::Over => feed_next_over(rt, shipper, sharding, max_skew),
        Turn::Flush | Turn::Nothing | Turn::Finished | Turn::Aborted => {
            obey(rt, alloc, shipper, sharding, turn, buf)
        }
    }
}

//! The two ends of a queue that was ended.

ghost use Rattle.std.specs.Prelude.{◌≡◌, ◌+◌, ◌≤◌, length, true, false};
ghost use Rattle.rw_plain_queue.specs.Items.{samples_in, places_in};
ghost use Rattle.rw_plain_queue.specs.History.{IsHistory, IsEnded};
ghost use Rattle.rw_worker.specs.Report.{drain_of};
ghost use Rattle.rw_fleet.specs.Work.{feeding, queue_of_ends, put_of, taken_of, is_compared, IsApart, IsTakenOf, IsEndedBy};
ghost use Rattle.rw_fleet.specs.inner.Work.{IsUnended, IsEndTaken};

use rw_shard_queue::{Ended, Feed, Kind, Open, Whole, begins, compare};
use rw_worker::TakingEnd;
use std::sync::Wait;

/// The end of a queue that puts, once an End was to be put.
#[derive(Drop)]
pub enum Fed {
    /// No End could be put: nobody was at the other end.
    Open(Feed<Open>),
    /// An End was put.
    Ended(Feed<Ended>),
}

/// Both ends of a queue whose worker has ended.
#[derive(Drop)]
pub enum Ends {
    /// All that was put was taken.
    Compared(Whole),
    /// No End was put, or the worker has not taken it.
    Apart(Fed, TakingEnd),
}

/// Puts an End if the other end still takes.
pub(crate) fn end_of<R: Wait>(rt: &R, feed: Feed<Open>, kind: Kind) -> Fed
    ensures queue { (feeding result).queue ≡ feed.queue }
    ensures places { places_in (feeding result).put ≡ places_in feed.put }
    ensures samples { samples_in (feeding result).put ≡ samples_in feed.put }
    ensures ended { IsUnended feed.put → IsEndedBy kind (feeding result).put }
{
    match feed.end(rt, kind) {
        Ok(feed) => Fed::Ended(feed),
        Err((feed, _)) => Fed::Open(feed),
    }
}

/// Brings the ends of a queue together: what was taken is a prefix of what was put, and all of it
/// if an End was put and taken.
pub(crate) fn meet<R>(rt: &R, fed: Fed, end: TakingEnd) -> Ends
    requires { (feeding fed).queue ≡ (drain_of end).queue }
    ensures queue { queue_of_ends result ≡ (feeding fed).queue }
    ensures put { put_of result ≡ (feeding fed).put }
    ensures taken { taken_of result ≡ (drain_of end).taken }
    ensures begins { IsTakenOf result }
    ensures ended { is_compared result ≡ true → IsEndTaken end }
    ensures apart { is_compared result ≡ false → IsApart result }
    ensures fits { length (put_of result)
        ≤ length (taken_of result) + (feeding fed).queue.capacity }
    ensures history { IsHistory (feeding fed).queue.epoch (feeding fed).queue.shard
        (put_of result) }
    ensures last { is_compared result ≡ true → IsEnded (taken_of result) }
    ensures within { length (places_in (put_of result))
        ≤ length (places_in (taken_of result)) + (feeding fed).queue.capacity }
{
    match (fed, end) {
        (Fed::Open(feed), TakingEnd::Killed(drain)) => {
            let (feed, drain) = begins(feed, drain);
            Ends::Apart(Fed::Open(feed), TakingEnd::Killed(drain))
        }
        (Fed::Open(feed), TakingEnd::Ended(kind, drain)) => {
            let (feed, drain) = begins(feed, drain);
            Ends::Apart(Fed::Open(feed), TakingEnd::Ended(kind, drain))
        }
        (Fed::Ended(feed), TakingEnd::Killed(drain)) => {
            let (feed, drain) = begins(feed, drain);
            Ends::Apart(Fed::Ended(feed), TakingEnd::Killed(drain))
        }
        (Fed::Ended(feed), TakingEnd::Ended(_, drain)) => Ends::Compared(compare(rt, feed, drain)),
    }
}

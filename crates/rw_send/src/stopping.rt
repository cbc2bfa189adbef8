//! Stops a shipper whose log was fed.

ghost use Rattle.std.specs.Prelude.{◌≡◌, IsSome, None, IfErr, IfSome, IsOk, OnOk, is_some};
ghost use Rattle.rw_fleet.specs.Fleets.{EndBy};
ghost use Rattle.rw_sender.specs.Reports.{IsAbandoned, ListsCut, end_kind, workers_of};
ghost use Rattle.rw_sender.specs.Shipping.{HasStopped};
ghost use Rattle.rw_send.specs.inner.FeedErrors.{HasDamage};
ghost use Rattle.rw_send.specs.inner.Sending.{answer_for, answer_to, hard_fault};

use crate::feed_error::FeedError;
use crate::follow_fault::FollowFault;
use rw_sender::{Connect, Outcome, Report, Shipper};
use rw_text::ToolFault;
use rw_wal_tail::FaultPlace;
use std::sync::Wait;
use std::thread::Threads;

/// The result of shipping.
#[derive(Drop)]
pub(crate) struct Sent<T> {
    pub(crate) report: Report<T>,
    pub(crate) answer: Result<(), FollowFault>,
    /// Where a fault of the log was found, if one was.
    pub(crate) place: Option<FaultPlace>,
}

/// Returns the answer of a run whose shipper was stopped in order.
fn answer_to(outcome: &Outcome) -> Result<(), FollowFault>
    ensures { result ≡ answer_to outcome.now }
{
    match outcome {
        Outcome::Complete(_) => Ok(()),
        Outcome::Abandoned { .. } => Err(FollowFault::Tool(ToolFault::OutOfMemory)),
        Outcome::Damaged(fault) => Err(FollowFault::Tool(ToolFault::Log(*fault))),
    }
}

/// Returns the fault for which a shipper is stopped at once.
fn hard_fault(shipped: Result<(), FeedError>) -> Option<FollowFault>
    ensures { result ≡ hard_fault shipped }
{
    match shipped {
        Ok(()) | Err(FeedError::Damaged(_)) => None,
        Err(FeedError::Failed) => Some(FollowFault::Tool(ToolFault::OutOfMemory)),
        Err(FeedError::Unreadable) => Some(FollowFault::Tool(ToolFault::Device)),
        Err(FeedError::Missing(number)) => Some(FollowFault::Missing(number)),
        Err(FeedError::Aborted) => Some(FollowFault::Stopped),
    }
}

/// Stops a shipper whose log was fed, to its end or as far as it goes.
pub(crate) fn stop_shipper<R: Threads + Wait, C: Connect + Drop>(
    rt: &R,
    shipper: Shipper<C>,
    shipped: Result<(), FeedError>,
) -> Sent<C::T>
    requires halted { IfErr shipped (HasDamage shipper) }
    requires live { OnOk shipped (shipper.fault ≡ None) }
    ensures stopped { HasStopped C.T.tells C.T.seen C.T.is_for shipper result.report }
    ensures ended { EndBy (end_kind (is_some (hard_fault shipped))) shipper.fleet
        (workers_of result.report) }
    ensures cut { hard_fault shipped ≡ None → IsAbandoned result.report.outcome
        → ListsCut (workers_of result.report) }
    ensures answer { result.answer ≡ answer_for (hard_fault shipped) result.report.outcome }
    ensures whole { IsOk result.answer → IsOk shipped }
    ensures hard { IsSome (hard_fault shipped) → IsAbandoned result.report.outcome }
    ensures failed { IfSome shipper.fault (λ _. IsAbandoned result.report.outcome) }
{
    let place = shipper.fault_place();
    match hard_fault(shipped) {
        None => {
            let end = shipper.entries_read();
            let report = shipper.stop_orderly(rt, end);
            let answer = answer_to(&report.outcome);
            Sent {
                report,
                answer,
                place,
            }
        }
        Some(fault) => Sent {
            report: shipper.stop_hard(rt),
            answer: Err(fault),
            place,
        },
    }
}

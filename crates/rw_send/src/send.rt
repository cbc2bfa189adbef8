//! The command `send` over a log that is there whole.

ghost use Rattle.std.specs.Prelude.{◌≡◌, ℕ, List, Option, map, true, false, OnOk};
ghost use Rattle.rw_follow.specs.declared.signal.StopRequest.TheVariants.{Finish};
ghost use Rattle.rw_send.specs.Logs.{readers};
ghost use Rattle.rw_send.specs.Sending.{Prints, as_answer, is_undivided};

use crate::follow::run_follow;
use crate::follow_fault::{FollowFault, RunFault};
use crate::options::SendOptions;
use rw_follow::{Queue, ToTheEnd};
use rw_sender::Connect;
use rw_settings::Settings;
use rw_text::ToolFault;
use rw_types::{Sink, Source};
use std::alloc::Global;
use std::sync::Wait;
use std::thread::Threads;
use std::time::Clock;

/// Ships the segments of a log in their order, stops, and prints the report, as `run_follow` does
/// of a log that does not grow, if it is asked to finish from the start: each reader is a segment.
pub fn run_send<
    R: Threads + Wait + Clock + Copy + Send + 'static,
    S: Source + Drop,
    C: Connect + Drop,
    W: Sink,
>(
    rt: &R,
    alloc: Global,
    settings: Settings,
    segments: Vec<S>,
    options: SendOptions<'_, C>,
    writer: &mut W,
) -> Result<(), ToolFault>
    ensures prints { (now : List (Option (List ℕ))) × Prints C.T.tells C.T.seen C.T.is_for
        settings.config options.entry.max_batch_bytes options.entry.reading
        (readers (map S.remaining segments.items) now (map S.is_sure segments.items))
        (is_undivided options.entry.max_skew true) Finish
        (W.contents writer.old) (W.contents writer.new) (writer.new ≡ writer.old)
        (W.has_failed writer.new ≡ true) (as_answer result) }
    ensures sound { OnOk result
        (W.has_failed writer.old ≡ false → W.has_failed writer.new ≡ false) }
{
    let mut log = Queue::new(segments);
    let mut watch = ToTheEnd;
    let ended = run_follow(rt, alloc, settings, &mut log, options, &mut watch, writer);
    match RunFault::answer_of(ended) {
        Ok(()) => Ok(()),
        Err(FollowFault::Tool(fault)) => Err(fault),
        // A log that is there whole lacks no segment, and the watch only asks to finish.
        Err(FollowFault::Missing(_) | FollowFault::Stopped) => unreachable!(),
    }
}

//! The command `send`, over any segments, connections, watch and writer.

ghost use Rattle.std.specs.Prelude.{◌≡◌, ◌⊎◌, [], true, false, Err, IfOk, OnOk};
ghost use Rattle.rw_follow.specs.declared.signal.StopRequest.TheVariants as StopRequest;
ghost use Rattle.rw_send.specs.Logs.{seen_of};
ghost use Rattle.rw_send.specs.RunFaults.{answer_of};
ghost use Rattle.rw_send.specs.Segments.{meal_of};
ghost use Rattle.rw_send.specs.Sending.{IsSent, Prints, is_undivided};
ghost use Rattle.rw_send.specs.inner.Sending.{left_undone};
ghost use Rattle.rw_send.specs.declared.follow_fault.FollowFault.TheVariants.{Stopped};

use crate::counters::{FeedContext, count_report, update_counters};
use crate::follow_fault::{FollowFault, RunFault};
use crate::keeper::{Keeper, KeepsNone};
use crate::live::{room_for_piece, ship_live};
use crate::options::SendOptions;
use crate::printed_report::print_report;
use crate::sharding::Sharding;
use crate::stopping::{Sent, stop_shipper};
use rw_follow::{Segments, StopRequest, Watch};
use rw_sender::{Connect, Shipper};
use rw_settings::Settings;
use rw_shard_core::Config;
use rw_text::ToolFault;
use rw_types::Sink;
use std::alloc::{AllocError, Global};
use std::sync::Wait;
use std::thread::Threads;
use std::time::Clock;

/// Returns the answer of a run that has ended. If its work was cut short, a request to end at once
/// may have cut it: the stop signal is looked at once more.
fn or_stopped<W: Watch>(watch: &mut W, answer: Result<(), FollowFault>) -> Result<(), FollowFault>
    ensures answer { (result ≡ answer) ⊎ ((answer ≡ left_undone) × (result ≡ Err Stopped)
        × (W.said watch.new ≡ StopRequest.Abort)) }
    ensures watch { (answer ≡ left_undone → ⊥) → W.said watch.new ≡ W.said watch.old }
    ensures heeded { result ≡ left_undone → W.said watch.new ≡ StopRequest.Abort → ⊥ }
{
    let Err(FollowFault::Tool(ToolFault::OutOfMemory)) = answer else {
        return answer;
    };
    if watch.stop_request() == StopRequest::Abort {
        return Err(FollowFault::Stopped);
    }
    answer
}

/// Ships a log, and stops.
fn ship<
    R: Threads + Wait + Clock + Copy + Send + 'static,
    S: Segments,
    C: Connect + Drop,
    W: Watch,
    P: Keeper<S, C, W>,
>(
    rt: &R,
    alloc: Global,
    config: Config,
    segments: &mut S,
    options: SendOptions<'_, C>,
    watch: &mut W,
) -> Result<Sent<C::T>, AllocError>
    ensures { IfOk result (λ sent. (start : S.Start) → S.gave segments.old start (meal_of [])
        → IsSent C.T.tells C.T.seen C.T.is_for config options.entry.max_batch_bytes
        options.entry.reading
        (seen_of (S.gave segments.new start) (S.had_all segments.new start)
        (S.lacks segments.new) (S.may_fail segments.old))
        (is_undivided options.entry.max_skew (W.is_quiet watch.old)) (W.said watch.new) sent.report sent.answer) }
{
    let sharding = Sharding::of(&config);
    let mut buf = room_for_piece(alloc)?;
    let SendOptions {
        connect,
        counters,
        max_batch_bytes,
        max_skew,
        reading,
        stop,
    } = options;
    let mut shipper = Shipper::start_with(
        rt,
        alloc,
        config,
        connect,
        max_batch_bytes,
        stop,
        reading,
    )?;
    let context = FeedContext {
        alloc,
        counters,
        max_skew,
    };
    let ended = ship_live::<R, S, C, W, P>(
        rt,
        context,
        &mut shipper,
        sharding,
        segments,
        watch,
        &mut buf,
    );
    update_counters(counters, &shipper);
    let Sent {
        report,
        answer,
        place,
    } = stop_shipper(rt, shipper, ended);
    count_report(counters, &report);
    let answer = or_stopped(watch, answer);
    Ok(Sent {
        report,
        answer,
        place,
    })
}

/// Ships a log as `run_follow` does. At the end of a segment, if a position is due, it waits until
/// all that was fed is resolved, and has the position after the segment kept.
pub fn run_kept<
    R: Threads + Wait + Clock + Copy + Send + 'static,
    S: Segments,
    C: Connect + Drop,
    W: Watch,
    P: Keeper<S, C, W>,
    K: Sink,
>(
    rt: &R,
    alloc: Global,
    settings: Settings,
    segments: &mut S,
    options: SendOptions<'_, C>,
    watch: &mut W,
    writer: &mut K,
) -> Result<(), RunFault>
    ensures prints { (start : S.Start) → S.gave segments.old start (meal_of [])
        → Prints C.T.tells C.T.seen C.T.is_for settings.config options.entry.max_batch_bytes
        options.entry.reading
        (seen_of (S.gave segments.new start) (S.had_all segments.new start)
        (S.lacks segments.new) (S.may_fail segments.old))
        (is_undivided options.entry.max_skew (W.is_quiet watch.old)) (W.said watch.new) (K.contents writer.old)
        (K.contents writer.new) (writer.new ≡ writer.old) (K.has_failed writer.new ≡ true)
        (answer_of result) }
    ensures sound { OnOk result
        (K.has_failed writer.old ≡ false → K.has_failed writer.new ≡ false) }
{
    let Settings {
        config,
        limits: _,
        may_compress: _,
    } = settings;
    let Sent {
        report,
        answer,
        place,
    } = ship::<R, S, C, W, P>(rt, alloc, config, segments, options, watch)?;
    print_report(alloc, report, writer)?;
    RunFault::at(answer, place)
}

/// Ships a log until the watch asks to stop, then stops, and prints the report: `dropped POS
/// REASON` by position, `filtered COUNT`, `abandoned POS` by position, and `report ..`, each line
/// ended by LF. Of what was read it keeps the labels and last timestamps of series, the samples
/// that wait to be acknowledged, and the dropped ones, and nothing else.
///
/// A segment is fed as it is read, in pieces of at most 64 KiB. It is over once the next one exists
/// and, read again after that was seen, it gives no more bytes. Between two of them the number of
/// shards is changed to what is wanted under the load, for which the workers are given a moment to
/// catch up. A log fault ends the reading, and what comes before it is still shipped. If there is
/// no memory or no thread, a worker has gone, a segment is missing between two or cannot be read,
/// the work is stopped at once. If it could not start, or there is no memory to print the report,
/// nothing is printed.
///
/// Asked to finish, it reads what the log has, and waits until the receiver has acknowledged all of
/// it; asked to end at once, it leaves what is not done. While it waits for room in a queue, or for
/// the receiver, it sees that only if the stop flag of `options` is set too, after the stop signal.
/// The counters are updated after each turn, and once the work has stopped. With a fault of the log
/// comes its place.
pub fn run_follow<
    R: Threads + Wait + Clock + Copy + Send + 'static,
    S: Segments,
    C: Connect + Drop,
    W: Watch,
    K: Sink,
>(
    rt: &R,
    alloc: Global,
    settings: Settings,
    segments: &mut S,
    options: SendOptions<'_, C>,
    watch: &mut W,
    writer: &mut K,
) -> Result<(), RunFault>
    ensures prints { (start : S.Start) → S.gave segments.old start (meal_of [])
        → Prints C.T.tells C.T.seen C.T.is_for settings.config options.entry.max_batch_bytes
        options.entry.reading
        (seen_of (S.gave segments.new start) (S.had_all segments.new start)
        (S.lacks segments.new) (S.may_fail segments.old))
        (is_undivided options.entry.max_skew (W.is_quiet watch.old)) (W.said watch.new) (K.contents writer.old)
        (K.contents writer.new) (writer.new ≡ writer.old) (K.has_failed writer.new ≡ true)
        (answer_of result) }
    ensures sound { OnOk result
        (K.has_failed writer.old ≡ false → K.has_failed writer.new ≡ false) }
{
    run_kept::<R, S, C, W, KeepsNone, K>(rt, alloc, settings, segments, options, watch, writer)
}

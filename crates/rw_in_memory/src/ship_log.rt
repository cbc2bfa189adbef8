//! Ships a log to a head in the same process.

ghost use Rattle.std.specs.Prelude.{◌≡◌, ◌+◌, [], ◌∷◌, None, map, All, length, IfOk, Some};
ghost use Rattle.std.specs.Arc.{arc_value};
ghost use Rattle.std.specs.FinMap.{empty};
ghost use Rattle.rw_fleet.specs.Work.{finished_of};
ghost use Rattle.rw_sender.specs.Feeders.{HasReadAll};
ghost use Rattle.rw_sender.specs.Reports.{part_of};
ghost use Rattle.rw_in_memory.specs.Lines.{IsSeatLine};
ghost use Rattle.rw_in_memory.specs.Held.{seat_of};
ghost use Rattle.rw_in_memory.specs.Shipped.{IsGathered, IsShipped, IsShippedTo};
ghost use Rattle.rw_in_memory.specs.inner.Shipped.{HasFed, IsSound};

use crate::line::Line;
use crate::lines::Lines;
use crate::receiver::{Endpoint, Receiver};
use rw_head::{Head, Limits};
use rw_ledger::Ledger;
use rw_recv_head::{Blank, Holding, Seat};
use rw_sender::{Connect, FeedFault, Outcome, Report, Shipper, StoppedShard};
use rw_shard_core::{Config, Target};
use rw_types::{Bounded, RequestPath};
use rw_wal_tail::Piece;
use rw_worker::{Pause, StopFlag};
use std::alloc::{AllocError, Global};
use std::marker::Brand;
use std::sync::{Arc, Wait};
use std::thread::Threads;

/// What was shipped, and what the head then holds.
#[derive(Drop)]
pub struct Shipped {
    pub outcome: Outcome,
    /// `Ok` if the whole log was read and placed, or why it was not.
    pub fed: Result<(), FeedFault>,
    /// The samples that were not sent, and for each shard those that were refused.
    pub parts: Vec<Ledger>,
    /// How many samples were placed whose series the rules drop.
    pub filtered: u64,
    pub head: Head,
}

/// Feeds the pieces of a log, up to its fault or to what fails.
fn feed_all<R: Wait, C: Connect + Drop>(
    rt: &R,
    shipper: &mut Shipper<C>,
    log: Vec<Piece>,
) -> Result<(), FeedFault>
    requires fault { shipper.old.fault ≡ None }
    requires read { HasReadAll shipper.old.log None }
    ensures { HasFed shipper.old shipper.new log.items result }
{
    for piece in log {
        match shipper.feed(rt, piece) {
            Ok(()) => {}
            Err(fault) => return Err(fault),
        }
    }
    Ok(())
}

/// Returns the refused samples of a shard, and the seat of its worker's transport.
fn part_and_seat<R: Drop, L: Endpoint + Holding<Head>>(
    shard: StoppedShard<Line<R, L>>,
) -> (Ledger, Seat<L>)
    ensures part { result.0 ≡ part_of shard }
    ensures seat { result.1 ≡ seat_of (finished_of shard) }
    ensures line { IsSeatLine L.opening L.path L.limit shard.finished.transport }
{
    let StoppedShard { part, finished, .. } = shard;
    (part, finished.transport.into_seat())
}

/// Returns the dropped samples, and the seats of the workers' transports.
fn parts_and_seats<R: Drop, L: Endpoint + Holding<Head>>(
    alloc: Global,
    dropped: Ledger,
    shards: Vec<StoppedShard<Line<R, L>>>,
) -> Result<(Vec<Ledger>, Vec<Seat<L>>), AllocError>
    ensures parts { IfOk result (λ r. r.0.items ≡ dropped ∷ map part_of shards.items) }
    ensures seats { IfOk result
        (λ r. r.1.items ≡ map seat_of (map finished_of shards.items)) }
    ensures lines { IfOk result
        (λ _. All (λ f. IsSeatLine L.opening L.path L.limit f.transport)
        (map finished_of shards.items)) }
{
    let mut parts = Vec::with_capacity(alloc, 1)?;
    let mut seats = Vec::new(alloc);
    parts.push_reserved(dropped);
    parts.reserve(shards.len())?;
    seats.reserve(shards.len())?;
    for shard in shards {
        let (part, seat) = part_and_seat(shard);
        parts.push_reserved(part);
        seats.push_reserved(seat);
    }
    Ok((parts, seats))
}

/// Stops a shipper, and gathers the seats of its workers.
fn gathered<
    R: Threads + Wait + Copy + Send + 'static,
    L: Endpoint + Holding<Head> + Send + Sync + 'static,
    P: Pause + Copy + Send + Drop + 'static,
>(
    rt: &R,
    alloc: Global,
    shipper: Shipper<Lines<R, L, P>>,
    fed: Result<(), FeedFault>,
    receiver: Arc<Receiver<L>>,
) -> Result<Shipped, AllocError>
    requires first { shipper.fleet.ended ≡ [] }
    requires seats { length shipper.fleet.current ≡ (arc_value receiver).seats }
    ensures { IfOk result (λ v. IsGathered L.opening L.path L.limit shipper v × (v.fed ≡ fed)) }
{
    shipper.conforms();
    let end = shipper.entries_read();
    let Report {
        outcome,
        dropped,
        filtered,
        ended,
    } = shipper.stop_orderly(rt, end);
    let (parts, seats) = parts_and_seats(alloc, dropped, ended.into_kept())?;
    let Some(receiver) = Arc::into_inner(receiver) else {
        return Err(AllocError);
    };
    let head = receiver.into_shared().gather(seats);
    Ok(Shipped {
        outcome,
        fed,
        parts,
        filtered,
        head,
    })
}

/// Returns transports to a receiver, beside a share of it, and a stop flag.
fn lined<R: Copy, L: Endpoint + Holding<Head>, P: Copy>(
    rt: R,
    alloc: Global,
    receiver: Receiver<L>,
    seats: Vec<Seat<L>>,
    pause: P,
) -> Result<(Arc<Receiver<L>>, Lines<R, L, P>, StopFlag), AllocError>
    requires { All (λ s. s.asked ≡ []) seats.items }
    ensures { IfOk result (λ r. arc_value r.0 ≡ receiver) }
{
    let stop = StopFlag::new(alloc)?;
    let receiver = Arc::new(alloc, receiver)?;
    let theirs = receiver.clone()?;
    Ok((receiver, Lines::new(rt, alloc, theirs, seats, pause), stop))
}

/// Ships a log to a receiver, each shard from its own seat.
fn ship_to<
    R: Threads + Wait + Copy + Send + 'static,
    L: Endpoint + Holding<Head> + Send + Sync + 'static,
    P: Pause + Copy + Send + Drop + 'static,
>(
    rt: &R,
    alloc: Global,
    config: Config,
    log: Vec<Piece>,
    receiver: Receiver<L>,
    seats: Vec<Seat<L>>,
    pause: P,
) -> Result<Shipped, AllocError>
    requires unasked { All (λ s. s.asked ≡ []) seats.items }
    requires seats { receiver.seats ≡ config.shards }
    requires sound { IsSound config }
    requires empty { L.opening.store ≡ empty }
    requires path { L.path ≡ config.target.path }
    ensures { IfOk result (IsShippedTo L.opening L.path L.limit config log.items) }
{
    let limit = receiver.limits().max_body_bytes.get();
    let (receiver, lines, stop) = lined(*rt, alloc, receiver, seats, pause)?;
    let mut shipper = Shipper::start_within(rt, alloc, config, lines, Some(limit), stop)?;
    let fed = feed_all(rt, &mut shipper, log);
    gathered(rt, alloc, shipper, fed, receiver)
}

/// Shares a head among as many seats as there are shards, and ships a log to it.
fn ship_shared<
    R: Threads + Wait + Copy + Send + 'static,
    L: Endpoint + Holding<Head> + Send + Sync + 'static,
    P: Pause + Copy + Send + Drop + 'static,
>(
    rt: &R,
    alloc: Global,
    config: Config,
    log: Vec<Piece>,
    limits: Limits,
    blank: Blank,
    head: Head,
    count: usize,
    pause: P,
) -> Result<Shipped, AllocError>
    requires seats { count ≡ config.shards }
    requires sound { IsSound config }
    requires name { blank.name ≡ L.name }
    requires parts { (blank.parts ≡ count + 1) × (L.parts ≡ count + 1) }
    requires table { blank.table ≡ L.table }
    requires opening { head ≡ L.opening }
    requires first { L.first ≡ Some head }
    requires empty { head.store ≡ empty }
    requires path { limits.path ≡ L.path }
    requires limit { limits.max_body_bytes ≡ L.limit }
    requires target { limits.path ≡ config.target.path }
    ensures { IfOk result (IsShippedTo L.opening L.path L.limit config log.items) }
{
    let (receiver, seats) = Receiver::<L>::open(alloc, limits, blank, head, count)?;
    ship_to(rt, alloc, config, log, receiver, seats, pause)
}

/// Returns the path of a target, as that of an endpoint.
fn path_of(alloc: Global, target: &Target) -> Result<RequestPath, AllocError>
    ensures { IfOk result (λ path. path ≡ target.now.path) }
{
    let text = String::from_str(alloc, target.path.as_str())?;
    match RequestPath::check(text) {
        Some(path) => Ok(path),
        None => unreachable!(),
    }
}

/// Returns how many shards a configuration has.
fn count_of(config: &Config) -> u64
    ensures count { result ≡ config.now.shards }
    ensures sound { IsSound config.now }
{
    config.conforms();
    config.fields().shards.get()
}

/// Ships a log to a new head in this process, by the threads of a sender, and returns what it did
/// and the head.
///
/// Each shard asks a seat of the head, over the receiver's endpoint, which has the path of the
/// configured target and reads bodies of up to 64 MiB, whatever `limits` says of these two; no
/// batch takes more. The pieces are fed one after the other, up to the fault of the log. What is
/// left if a queue was cut, or memory ran out, is in the outcome.
///
/// An `Err` means that memory ran out or no thread could be made at the start, or that memory ran
/// out for the report.
pub fn ship<R: Threads + Wait + Copy + Send + 'static, P: Pause + Copy + Send + Drop + 'static>(
    rt: &R,
    alloc: Global,
    config: Config,
    log: Vec<Piece>,
    limits: Limits,
    pause: P,
) -> Result<Shipped, AllocError>
    ensures { IfOk result (IsShipped config limits log.items) }
{
    let count = count_of(&config);
    let mut limits = limits;
    limits.path = path_of(alloc, &config.fields().target)?;
    limits.max_body_bytes = Bounded::new(67_108_864);
    let blank = Blank::new(alloc, count + 1)?;
    let head = Head::new(alloc, &limits);
    let count = count as usize;
    ship_shared::<R, Brand, P>(rt, alloc, config, log, limits, blank, head, count, pause)
}

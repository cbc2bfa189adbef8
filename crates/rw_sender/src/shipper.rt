//! The shipper.

ghost use Rattle.std.specs.Prelude.{◌≡◌, ◌⊎◌, List, true, false, ◌+◌, ◌≤◌, ◌<◌, [], ◌∷◌, ◌++◌, length, map, None, Some, Err, IfOk, IfErr, IfSome, OnOk, is_some};
ghost use Rattle.rw_wal_tail.specs.Fed.{piece_of};
ghost use Rattle.rw_wal_tail.specs.Places.{fault_place};
ghost use Rattle.rw_wal_tail.specs.Taking.{HasTaken};
ghost use Rattle.rw_fleet.specs.ShardHistories.{AreFresh, AreSame, marked, marks_of};
ghost use Rattle.rw_fleet.specs.Work.{AreResolved, HasCut};
ghost use Rattle.rw_fleet.specs.Fleets.{EndBy};
ghost use Rattle.rw_fleet.specs.Loads.{IsLoad};
ghost use Rattle.rw_types.specs.declared.entry.Entry.{Entry};
ghost use Rattle.rw_wal_format.specs.Pieces.{begun_log, fault};
ghost use Rattle.rw_sender.specs.Feeders.{log_of};
ghost use Rattle.rw_sender.specs.Logs.{named, dropped, filtered};
ghost use Rattle.rw_shard_core.specs.Configs.{choice_of};
ghost use Rattle.rw_sender.specs.Cutting.{AreCutBy};
ghost use Rattle.rw_sender.specs.Placement.{AreKept};
ghost use Rattle.rw_sender.specs.Reports.{IsAbandoned, ListsCut, end_kind, workers_of};
ghost use Rattle.rw_sender.specs.inner.Reports.{IsAbandonedAt, end_of};
ghost use Rattle.rw_sender.specs.Shipping.{feed_fault_of, FailsBy, Feeds, Joins, HasCompared, HasStopped, PlacesAll};
ghost use Rattle.rw_sender.specs.Skews.{GoesOver, GoesWhole};

use crate::cuts::Cuts;
use crate::epochs::place_over;
use crate::feeder::Feeder;
use crate::place::{Rest, place_all};
use crate::report::Report;
use crate::span::Span;
use crate::unresolved::{begin_epoch, finish_listed, open_listed};
use rw_external_labels::ExternalLabels;
use rw_fleet::{Connect, Fault, Load, Resolution, ShardSet};
use rw_ledger::Ledger;
use rw_relabel::{Choice, Rules};
use rw_shard_core::{Config, ConfigFields, Outcome};
use rw_shard_queue::Kind;
use rw_wal_tail::{FaultPlace, Piece, SkippedType, Tail, TailFault};
use rw_worker::StopFlag;
use std::alloc::{AllocError, Global};
use std::error::Error;
use std::fmt;
use std::marker::Model;
use std::sync::Wait;
use std::thread::Threads;

/// Why a call of a shipper did not do all that it was to do.
#[derive(Clone, Copy, Debug, PartialEq, Eq)]
pub enum FeedFault {
    /// Memory ran out or no thread could be made. The shipper has failed, and returns this from
    /// then on.
    OutOfMemory,
    /// The log has this fault. All entries before it were placed.
    Damaged(TailFault),
    /// A worker has gone. The shipper has failed, and returns this from then on.
    Gone,
}

impl fmt::Display for FeedFault {
    fn fmt<W: fmt::Write>(&self, f: &mut fmt::Formatter<W>) -> fmt::Result {
        match self {
            FeedFault::OutOfMemory => f.write_str("out of memory"),
            FeedFault::Damaged(fault) => fault.fmt(f),
            FeedFault::Gone => f.write_str("a worker has stopped"),
        }
    }
}

impl Error for FeedFault {}

fn answer_to(fault: Fault) -> FeedFault
    ensures { result ≡ feed_fault_of fault }
{
    match fault {
        Fault::OutOfMemory => FeedFault::OutOfMemory,
        Fault::Gone => FeedFault::Gone,
    }
}

/// Returns the kind of the End by which the shards are ended.
fn kind_of(is_hard: bool) -> Kind
    ensures { result ≡ end_kind is_hard }
{
    if is_hard { Kind::Hard } else { Kind::Orderly }
}

/// Returns how the work has ended: at once, or with samples that are not resolved, or else with all
/// that the log has.
fn outcome_of(
    is_hard: bool,
    resolution: Resolution,
    placed: u64,
    damage: Option<TailFault>,
    samples: Vec<u64>,
) -> Outcome
    ensures hard { is_hard ≡ true → IsAbandonedAt placed samples.items result }
    ensures apart { resolution ≡ Resolution.NotAll → IsAbandonedAt placed samples.items result }
    ensures whole { is_hard ≡ false → resolution ≡ Resolution.All
        → result ≡ end_of placed damage }
{
    if is_hard || resolution == Resolution::NotAll {
        return Outcome::Abandoned { placed, samples };
    }
    match damage {
        Some(fault) => Outcome::Damaged(fault),
        None => Outcome::Complete(placed),
    }
}

/// How a log is read.
#[derive(Debug, Drop)]
pub struct LogOptions {
    /// Whether its records may be Snappy blocks.
    pub may_compress: bool,
    /// The labels that are added to each of its series.
    pub labels: ExternalLabels,
}

impl LogOptions {
    /// Returns how a log is read to whose series no labels are added.
    pub fn without_labels(may_compress: bool) -> LogOptions
        ensures { result ≡ record { may_compress = may_compress; labels = [] } }
    {
        LogOptions {
            may_compress,
            labels: ExternalLabels::none(),
        }
    }
}

/// Returns a reader of a log, to which nothing was fed.
fn tail_for(alloc: Global, may_compress: bool) -> Result<Tail, AllocError>
    ensures pieces { IfOk result (λ t. t.pieces ≡ begun_log may_compress) }
    ensures taken { IfOk result (λ t. HasTaken t []) }
{
    if may_compress {
        Tail::for_compressed(alloc)
    } else {
        Ok(Tail::new(alloc))
    }
}

/// Takes the rules out of a configuration, which the workers do not need.
fn split_choice(alloc: Global, config: Config) -> (Config, Choice)
    ensures config { result.0 ≡ record config { rules = [] } }
    ensures choice { result.1 ≡ choice_of config }
{
    config.conforms();
    let ConfigFields {
        target,
        shards,
        min_shards,
        max_shards,
        capacity,
        batch,
        min_backoff_ms,
        max_backoff_ms,
        timeout_ms,
        names,
        snappy,
        rules,
    } = config.into_fields();
    let fields = ConfigFields {
        target,
        shards,
        min_shards,
        max_shards,
        capacity,
        batch,
        min_backoff_ms,
        max_backoff_ms,
        timeout_ms,
        names,
        snappy,
        rules: Rules::new(Vec::new(alloc)),
    };
    let Some(config) = Config::new(fields) else {
        unreachable!()
    };
    (config, Choice { names, rules })
}

/// Reads a log as it grows, and puts its samples into the queues of their shards, each with a
/// worker in its own thread.
///
/// Contracts see the log as far as it was placed, the shards with what they were put, the fault by
/// which the shipper has failed, and how many bytes a batch may take. A shipper that was started
/// has to be stopped.
pub struct Shipper<C: Connect + Drop> {
    feeder: Feeder,
    fleet: ShardSet<C>,
    /// Has room for the positions of the samples that may not be resolved.
    samples: Vec<u64>,
    cuts: Cuts,
    /// The earliest timestamp of the samples that were put in the epoch, or the latest that there
    /// can be.
    earliest: i64,
    /// Why it has failed.
    fault: Option<Fault>,
    /// The fault of the log, as far as it was fed while the shipper had not failed.
    damage: Option<TailFault>,
}

impl<C: Connect + Drop> Model for Shipper<C> {
    ghost use Rattle.std.specs.Coded.{codes};
    ghost use Rattle.std.specs.FinMap as names;
    ghost use Rattle.rw_sender.specs.inner.Reports.{IsRoomFor};
    ghost use Rattle.rw_sender.specs.Shipping.{Shipping, PlacesAll};
    ghost use Rattle.rw_sender.specs.inner.Shipping.{IsReady, IsRead, IsReckoned, IsTimed};

    ghost Value = { Shipping C.T };

    ghost coded = { Prim.hlevel (codes, names.code) };

    ghost view = { λ s. record {
      log = s.feeder;
      fleet = s.fleet;
      fault = s.fault;
      limit = s.cuts.limit;
    } };

    ghost invariant = { λ s. PlacesAll s.feeder s.fleet
        × IsReady s.feeder s.fleet s.fault
        × IsRead s.feeder s.fault s.damage
        × IsReckoned s.cuts s.fleet s.fault
        × IsRoomFor s.fleet s.samples
        × IsTimed s.earliest s.fleet s.fault };
}

impl<C: Connect + Drop> Shipper<C> {
    /// Opens epoch 0 with as many shards as are configured, and starts their workers. If memory
    /// runs out or no thread can be made, the workers that were started are stopped and joined.
    pub fn start<R: Threads + Wait + Copy + Send + 'static>(
        rt: &R,
        alloc: Global,
        config: Config,
        connect: C,
    ) -> Result<Shipper<C>, AllocError>
        ensures log { IfOk result (λ s. s.log
            ≡ record {
              choice = choice_of config;
              labels = [];
              pieces = [];
              placed = [];
              hand = [];
            }) }
        ensures config { IfOk result (λ s. s.fleet.config ≡ record config { rules = [] }) }
        ensures opened { IfOk result (λ s. (s.fleet.epoch ≡ 0) × (s.fleet.ended ≡ [])
            × (length s.fleet.current ≡ config.shards) × AreFresh 0 s.fleet.current) }
        ensures fault { IfOk result (λ s. s.fault ≡ None) }
        ensures limit { IfOk result (λ s. s.limit ≡ None) }
    {
        let stop = StopFlag::new(alloc)?;
        Shipper::start_within(rt, alloc, config, connect, None, stop)
    }

    /// Opens epoch 0 as `start` does, for batches that may have a limit in bytes: no body is
    /// longer, but that of a single sample that is. A sample counts as many bytes as a message of
    /// it alone takes, so batches of several samples of a series end below the limit. If memory
    /// runs out or no thread can be made, the workers that were started are stopped and joined.
    ///
    /// All workers look at `stop`. If another thread sets it, they abandon what is not sent, so
    /// that a call that waits for room, or for them, comes back: a call that puts something then
    /// returns `Gone`, and a stop after it is a hard one.
    pub fn start_within<R: Threads + Wait + Copy + Send + 'static>(
        rt: &R,
        alloc: Global,
        config: Config,
        connect: C,
        limit: Option<u64>,
        stop: StopFlag,
    ) -> Result<Shipper<C>, AllocError>
        ensures log { IfOk result (λ s. s.log
            ≡ record {
              choice = choice_of config;
              labels = [];
              pieces = [];
              placed = [];
              hand = [];
            }) }
        ensures config { IfOk result (λ s. s.fleet.config ≡ record config { rules = [] }) }
        ensures opened { IfOk result (λ s. (s.fleet.epoch ≡ 0) × (s.fleet.ended ≡ [])
            × (length s.fleet.current ≡ config.shards) × AreFresh 0 s.fleet.current) }
        ensures fault { IfOk result (λ s. s.fault ≡ None) }
        ensures limit { IfOk result (λ s. s.limit ≡ limit) }
    {
        let reading = LogOptions::without_labels(false);
        Shipper::start_with(rt, alloc, config, connect, limit, stop, reading)
    }

    /// Opens epoch 0 as `start_within` does, for a log that is read as `reading` says. Memory may
    /// also run out for one decoded record, or for a series with the external labels.
    pub fn start_with<R: Threads + Wait + Copy + Send + 'static>(
        rt: &R,
        alloc: Global,
        config: Config,
        connect: C,
        limit: Option<u64>,
        stop: StopFlag,
        reading: LogOptions,
    ) -> Result<Shipper<C>, AllocError>
        ensures log { IfOk result (λ s. s.log
            ≡ record {
              choice = choice_of config;
              labels = reading.labels;
              pieces = begun_log reading.may_compress;
              placed = [];
              hand = [];
            }) }
        ensures config { IfOk result (λ s. s.fleet.config ≡ record config { rules = [] }) }
        ensures opened { IfOk result (λ s. (s.fleet.epoch ≡ 0) × (s.fleet.ended ≡ [])
            × (length s.fleet.current ≡ config.shards) × AreFresh 0 s.fleet.current) }
        ensures fault { IfOk result (λ s. s.fault ≡ None) }
        ensures limit { IfOk result (λ s. s.limit ≡ limit) }
    {
        let tail = tail_for(alloc, reading.may_compress)?;
        let shards = config.fields().shards.get() as u32;
        let (config, choice) = split_choice(alloc, config);
        let cuts = Cuts::within(alloc, limit)?;
        let mut samples = Vec::new(alloc);
        let mut fleet = ShardSet::new(alloc, config, connect, stop);
        if open_listed(rt, &mut fleet, &mut samples, shards).is_err() {
            let _ = fleet.finish(rt, Kind::Hard);
            return Err(AllocError);
        }
        Ok(Shipper {
            feeder: Feeder::with_tail(alloc, choice, reading.labels, tail),
            fleet,
            samples,
            cuts,
            earliest: i64::MAX,
            fault: None,
            damage: None,
        })
    }

    /// Places the entries that the log has with one piece more, and hands all of them to the
    /// workers. It may wait for room in a queue.
    pub fn feed<R: Wait>(&mut self, rt: &R, piece: Piece) -> Result<(), FeedFault>
        ensures failed { IfSome self.old.fault
            (λ f. (result ≡ Err (feed_fault_of f)) × (self.new ≡ self.old)) }
        ensures fed { self.old.fault ≡ None → Feeds self.new result }
        ensures pieces { self.old.fault ≡ None
            → Joins self.old.log self.new.log (piece_of piece) result }
        ensures grown { (more : List Entry) × (self.new.log.placed ≡ self.old.log.placed ++ more) }
        ensures choice { self.new.log.choice ≡ self.old.log.choice }
        ensures labels { self.new.log.labels ≡ self.old.log.labels }
        ensures rest { self.new.fleet ≡ record self.old.fleet { current = self.new.fleet.current } }
        ensures len { length self.new.fleet.current ≡ length self.old.fleet.current }
        ensures placed { PlacesAll self.new.log self.new.fleet }
        ensures kept { AreKept self.old.fleet.current self.new.fleet.current }
        ensures limit { self.new.limit ≡ self.old.limit }
        ensures marks { self.old.limit ≡ None
            → map marks_of self.new.fleet.current ≡ map marks_of self.old.fleet.current }
        // While it has not failed, a mark comes only before a sample that would take what is
        // counted since the last one above the limit.
        ensures cut { self.new.fault ≡ None
            → AreCutBy self.old.limit self.old.fleet.current self.new.fleet.current }
    {
        if let Some(fault) = self.fault {
            return Err(answer_to(fault));
        }
        if self.feeder.feed(&piece).is_err() {
            self.fault = Some(Fault::OutOfMemory);
            return Err(FeedFault::OutOfMemory);
        }
        let mut span = Span {
            earliest: self.earliest,
            most: u64::MAX,
        };
        let read = place_all(
            rt,
            &mut self.feeder,
            &mut self.fleet,
            &mut self.cuts,
            &mut span,
        );
        self.earliest = span.earliest;
        self.fleet.hand_over(rt);
        match read {
            Ok(Rest::Read(None)) => {
                self.damage = None;
                Ok(())
            }
            Ok(Rest::Read(Some(fault))) => {
                self.damage = Some(fault);
                Err(FeedFault::Damaged(fault))
            }
            Ok(Rest::Late(_)) => unreachable!(),
            Err(fault) => {
                self.fault = Some(fault);
                Err(answer_to(fault))
            }
        }
    }

    /// Places the entries that the log has with one piece more, as `feed` does. No sample is put
    /// that is later by more than `max_skew` milliseconds than one before it in the log that may
    /// not be resolved: if one comes, the epoch ends, once all that was put is resolved, and the
    /// next one begins with as many shards. So a receiver that refuses samples which are much older
    /// than its newest one refuses none because one shard is ahead of another.
    ///
    /// It may wait for room in a queue, and until what was put is resolved.
    pub fn feed_with_skew<R: Threads + Wait + Copy + Send + 'static>(
        &mut self,
        rt: &R,
        piece: Piece,
        max_skew: u64,
    ) -> Result<(), FeedFault>
        ensures failed { IfSome self.old.fault
            (λ f. (result ≡ Err (feed_fault_of f)) × (self.new ≡ self.old)) }
        ensures fed { self.old.fault ≡ None → Feeds self.new result }
        ensures pieces { self.old.fault ≡ None
            → Joins self.old.log self.new.log (piece_of piece) result }
        ensures grown { (more : List Entry) × (self.new.log.placed ≡ self.old.log.placed ++ more) }
        ensures choice { self.new.log.choice ≡ self.old.log.choice }
        ensures labels { self.new.log.labels ≡ self.old.log.labels }
        ensures limit { self.new.limit ≡ self.old.limit }
        ensures placed { PlacesAll self.new.log self.new.fleet }
        ensures over { self.old.fault ≡ None → GoesOver self.old.limit max_skew self.new.log
            self.old.fleet self.new.fleet }
        ensures whole { self.old.fault ≡ None → self.new.fault ≡ None
            → GoesWhole self.old.limit max_skew self.old.fleet self.new.fleet }
    {
        if let Some(fault) = self.fault {
            return Err(answer_to(fault));
        }
        if self.feeder.feed(&piece).is_err() {
            self.fault = Some(Fault::OutOfMemory);
            return Err(FeedFault::OutOfMemory);
        }
        let mut span = Span {
            earliest: self.earliest,
            most: max_skew,
        };
        let read = place_over(
            rt,
            &mut self.feeder,
            &mut self.fleet,
            &mut self.cuts,
            &mut span,
            &mut self.samples,
        );
        self.earliest = span.earliest;
        self.fleet.hand_over(rt);
        match read {
            Ok(damage) => {
                self.damage = damage;
                match damage {
                    None => Ok(()),
                    Some(fault) => Err(FeedFault::Damaged(fault)),
                }
            }
            Err(fault) => {
                self.fault = Some(fault);
                Err(answer_to(fault))
            }
        }
    }

    /// Returns where the fault of the log is that `feed` has answered, or `None` before it has
    /// answered one.
    pub fn fault_place(&self) -> Option<FaultPlace>
        ensures { IfSome result (λ place. fault_place self.now.log.pieces ≡ Some place) }
    {
        self.feeder.fault_place()
    }

    /// Puts one Flush into each queue of the epoch. It may wait for room in a queue.
    pub fn flush<R: Wait>(&mut self, rt: &R) -> Result<(), FeedFault>
        ensures failed { IfSome self.old.fault
            (λ f. (result ≡ Err (feed_fault_of f)) × (self.new ≡ self.old)) }
        ensures marked { OnOk result (self.new
            ≡ record self.old {
              fleet = record self.old.fleet {
                current = map marked
                    self.old.fleet.current;
              };
            }) }
        ensures log { self.new.log ≡ self.old.log }
        ensures rest { self.new.fleet ≡ record self.old.fleet { current = self.new.fleet.current } }
        ensures placed { PlacesAll self.new.log self.new.fleet }
        ensures same { AreSame self.old.fleet.current self.new.fleet.current }
        ensures fails { IfErr result (FailsBy self.new.fault) }
    {
        if let Some(fault) = self.fault {
            return Err(answer_to(fault));
        }
        if let Err(fault) = self.fleet.mark(rt) {
            self.fault = Some(fault);
            return Err(answer_to(fault));
        }
        self.cuts.reset();
        Ok(())
    }

    /// Ends the epoch, once all that was put is resolved, and opens the next one with `shards`
    /// shards.
    pub fn reshard<R: Threads + Wait + Copy + Send + 'static>(
        &mut self,
        rt: &R,
        shards: u32,
    ) -> Result<(), FeedFault>
        requires some { 1 ≤ shards }
        requires most { shards ≤ 1000 }
        ensures failed { IfSome self.old.fault
            (λ f. (result ≡ Err (feed_fault_of f)) × (self.new ≡ self.old)) }
        ensures log { self.new.log ≡ self.old.log }
        ensures config { self.new.fleet.config ≡ self.old.fleet.config }
        ensures limit { self.new.limit ≡ self.old.limit }
        ensures opened { OnOk result ((self.new.fleet.epoch ≡ self.old.fleet.epoch + 1)
            × (length self.new.fleet.current ≡ shards)
            × AreFresh self.new.fleet.epoch self.new.fleet.current) }
        ensures drained { OnOk result (AreResolved self.new.fleet.ended) }
        ensures gone { self.old.fault ≡ None → result ≡ Err FeedFault.Gone
            → HasCut self.new.fleet.ended }
        ensures placed { PlacesAll self.new.log self.new.fleet }
        ensures compared { (self.new.fleet ≡ self.old.fleet)
            ⊎ HasCompared self.old.fleet self.new.fleet }
        ensures fault { OnOk result (self.new.fault ≡ None) }
        ensures fails { IfErr result (FailsBy self.new.fault) }
    {
        if let Some(fault) = self.fault {
            return Err(answer_to(fault));
        }
        if let Err(fault) = begin_epoch(rt, &mut self.fleet, &mut self.samples, shards) {
            self.fault = Some(fault);
            return Err(answer_to(fault));
        }
        self.cuts.reset();
        self.earliest = i64::MAX;
        Ok(())
    }

    /// Returns how many entries were placed.
    pub fn entries_read(&self) -> u64
        ensures { result ≡ length self.now.log.placed }
    {
        self.feeder.count()
    }

    /// Returns how many records of a type were skipped, up to the end of the last piece.
    pub fn skipped_of(&self, kind: SkippedType) -> u64 {
        self.feeder.skipped_of(kind)
    }

    /// Returns the latest timestamp of the samples that were put into a queue, in milliseconds. It
    /// is best effort: no clause says what it is.
    pub fn newest(&self) -> i64 {
        self.feeder.newest()
    }

    /// Returns the samples that were dropped so far without being put into a queue, as the report
    /// will list them. Those of a batch that the receiver has refused are not among them: their
    /// workers name them, and the report has them.
    pub fn dropped(&self) -> &Ledger
        ensures { result.now.names ≡ named (dropped self.now.log.choice self.now.log.placed) }
    {
        self.feeder.dropped()
    }

    /// Returns how many samples were placed so far whose series the rules drop, as the report will
    /// count them.
    pub fn filtered(&self) -> u64
        ensures { result ≡ length (filtered self.now.log.choice self.now.log.placed) }
    {
        self.feeder.filtered()
    }

    /// Law: the shards have what was placed. The call does nothing.
    pub fn conforms(&self)
        ensures { PlacesAll self.now.log self.now.fleet }
    {
        let _ = &self.feeder;
    }

    /// Returns how far the samples have come, as of the last updates of the workers; it is best
    /// effort, and decides how many shards are wanted. Samples that only wait for a batch to be
    /// full count as resolved. By its contract at most as many wait as can.
    pub fn load(&self) -> Load
        ensures load { IsLoad self.now.fleet result }
        ensures placed { PlacesAll self.now.log self.now.fleet }
        ensures read { self.now.fault ≡ None → self.now.log.placed ≡ log_of self.now.log }
    {
        self.fleet.load()
    }

    /// Ends all shards, and waits for their workers.
    fn stop<R: Threads + Wait>(self, rt: &R, is_hard: bool, placed: u64) -> Report<C::T>
        requires placed { placed ≡ length self.log.placed }
        requires ready { is_hard ≡ false → self.fault ≡ None }
        ensures stopped { HasStopped C.T.tells C.T.seen C.T.is_for self result }
        ensures ended { EndBy (end_kind is_hard) self.fleet (workers_of result) }
        ensures folded { result.ended.folded ≤ length self.fleet.ended }
        ensures hard { is_hard ≡ true → IsAbandoned result.outcome }
        ensures cut { is_hard ≡ false → IsAbandoned result.outcome → ListsCut (workers_of result) }
    {
        let Shipper {
            feeder,
            fleet,
            samples,
            cuts: _,
            earliest: _,
            fault: _,
            damage,
        } = self;
        let (dropped, filtered) = feeder.finish();
        let kind = kind_of(is_hard);
        let (ended, samples, resolution) = finish_listed(rt, fleet, samples, kind);
        let outcome = outcome_of(is_hard, resolution, placed, damage, samples);
        Report {
            outcome,
            dropped,
            filtered,
            ended,
        }
    }

    /// Ends all shards once all that was put is resolved, and waits for their workers. `end` is the
    /// number of entries placed. A shipper that has failed is stopped at once.
    pub fn stop_orderly<R: Threads + Wait>(self, rt: &R, end: u64) -> Report<C::T>
        requires { end ≡ length self.log.placed }
        ensures stopped { HasStopped C.T.tells C.T.seen C.T.is_for self result }
        ensures ended { EndBy (end_kind (is_some self.fault)) self.fleet (workers_of result) }
        ensures folded { result.ended.folded ≤ length self.fleet.ended }
        ensures failed { IfSome self.fault (λ _. IsAbandoned result.outcome) }
        ensures cut { self.fault ≡ None → IsAbandoned result.outcome
            → ListsCut (workers_of result) }
    {
        let is_hard = self.fault.is_some();
        self.stop(rt, is_hard, end)
    }

    /// Ends all shards at once, and waits for their workers.
    pub fn stop_hard<R: Threads + Wait>(self, rt: &R) -> Report<C::T>
        ensures stopped { HasStopped C.T.tells C.T.seen C.T.is_for self result }
        ensures ended { EndBy Kind.Hard self.fleet (workers_of result) }
        ensures folded { result.ended.folded ≤ length self.fleet.ended }
        ensures hard { IsAbandoned result.outcome }
    {
        let placed = self.entries_read();
        self.stop(rt, true, placed)
    }
}

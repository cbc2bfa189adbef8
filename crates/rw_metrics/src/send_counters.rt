//! Counters of a sender.

use crate::atomics::{add, read, set};
use crate::body::{Cargo, cargo_of, reply_body};
use crate::cause::{Cause, cause_of, number_of};
use crate::codes::Codes;
use crate::heard_text::HeardText;
use crate::send_numbers::{Drops, Failures, SendNumbers, Skipped};
use crate::skipped_counters::SkippedCounters;
use rw_ledger::Reason;
use std::alloc::{AllocError, Global};
use std::sync::atomic::{AtomicU64, Ordering};

/// How many samples were dropped, by reason. Those of refused batches are counted twice, by whoever
/// hears the receiver and by the report at the end; the larger count is shown.
#[derive(Drop)]
struct DropCounters {
    no_series: AtomicU64,
    bad_labels: AtomicU64,
    not_rising: AtomicU64,
    heard: Codes,
    heard_in_all: AtomicU64,
    listed: Codes,
    listed_in_all: AtomicU64,
}

impl DropCounters {
    fn new(alloc: Global) -> Result<DropCounters, AllocError> {
        let heard = Codes::new(alloc)?;
        let listed = Codes::new(alloc)?;
        Ok(DropCounters {
            no_series: AtomicU64::new(0),
            bad_labels: AtomicU64::new(0),
            not_rising: AtomicU64::new(0),
            heard,
            heard_in_all: AtomicU64::new(0),
            listed,
            listed_in_all: AtomicU64::new(0),
        })
    }

    /// Returns how many of them were never sent.
    fn unsent(&self) -> u64 {
        read(&self.no_series)
            .saturating_add(read(&self.bad_labels))
            .saturating_add(read(&self.not_rising))
    }

    /// Returns how many of them were in refused batches.
    fn refused(&self) -> u64 {
        read(&self.heard_in_all).max(read(&self.listed_in_all))
    }

    fn numbers(&self, alloc: Global) -> Result<Drops, AllocError> {
        Ok(Drops {
            all: self.unsent().saturating_add(self.refused()),
            no_series: read(&self.no_series),
            bad_labels: read(&self.bad_labels),
            not_rising: read(&self.not_rising),
            refused: self.heard.read_with(&self.listed, alloc)?,
        })
    }
}

/// How many attempts failed, by cause.
#[derive(Drop)]
struct FailureCounters {
    all: AtomicU64,
    connect: AtomicU64,
    timeout: AtomicU64,
    broken: AtomicU64,
    ended: AtomicU64,
    bad_reply: AtomicU64,
    memory: AtomicU64,
    statuses: Codes,
    in_a_row: AtomicU64,
    last: AtomicU64,
}

impl FailureCounters {
    fn new(alloc: Global) -> Result<FailureCounters, AllocError> {
        Ok(FailureCounters {
            all: AtomicU64::new(0),
            connect: AtomicU64::new(0),
            timeout: AtomicU64::new(0),
            broken: AtomicU64::new(0),
            ended: AtomicU64::new(0),
            bad_reply: AtomicU64::new(0),
            memory: AtomicU64::new(0),
            statuses: Codes::new(alloc)?,
            in_a_row: AtomicU64::new(0),
            last: AtomicU64::new(0),
        })
    }

    fn numbers(&self, alloc: Global) -> Result<Failures, AllocError> {
        Ok(Failures {
            all: read(&self.all),
            connect: read(&self.connect),
            timeout: read(&self.timeout),
            broken: read(&self.broken),
            ended: read(&self.ended),
            bad_reply: read(&self.bad_reply),
            memory: read(&self.memory),
            statuses: self.statuses.read(alloc)?,
            in_a_row: read(&self.in_a_row),
            last: cause_of(read(&self.last)),
        })
    }
}

/// What a sender does, counted by its threads and read by others. It is best effort: no contract
/// says what the counters hold, and no promise depends on them.
#[derive(Drop)]
pub struct SendCounters {
    entries: AtomicU64,
    bytes: AtomicU64,
    folder_bytes: AtomicU64,
    segment: AtomicU64,
    newest_segment: AtomicU64,
    segment_bytes: AtomicU64,
    placed: AtomicU64,
    acknowledged: AtomicU64,
    waiting: AtomicU64,
    filtered: AtomicU64,
    newest_read_ms: AtomicU64,
    newest_acknowledged_ms: AtomicU64,
    drops: DropCounters,
    skipped: SkippedCounters,
    shards: AtomicU64,
    attempts: AtomicU64,
    /// Samples of refused batches that the receiver may hold.
    unsure: AtomicU64,
    failures: FailureCounters,
    heard: HeardText,
    /// Whether it is looked at what a request carries.
    has_readers: bool,
}

impl SendCounters {
    /// Returns counters that are all 0, for a run in which they are read.
    pub fn new(alloc: Global) -> Result<SendCounters, AllocError> {
        SendCounters::for_readers(alloc, true)
    }

    /// Returns counters that are all 0, for a run in which nobody reads them before it has ended:
    /// they do not look at what a request carries. So how many samples are acknowledged or refused
    /// is counted only once the work has ended, and which of them are the newest, never.
    pub fn without_readers(alloc: Global) -> Result<SendCounters, AllocError> {
        SendCounters::for_readers(alloc, false)
    }

    /// Returns counters that are all 0, for a run in which somebody reads them if `has_readers`
    /// says so.
    fn for_readers(alloc: Global, has_readers: bool) -> Result<SendCounters, AllocError> {
        let drops = DropCounters::new(alloc)?;
        let failures = FailureCounters::new(alloc)?;
        Ok(SendCounters {
            entries: AtomicU64::new(0),
            bytes: AtomicU64::new(0),
            folder_bytes: AtomicU64::new(0),
            segment: AtomicU64::new(0),
            newest_segment: AtomicU64::new(0),
            segment_bytes: AtomicU64::new(0),
            placed: AtomicU64::new(0),
            acknowledged: AtomicU64::new(0),
            waiting: AtomicU64::new(0),
            filtered: AtomicU64::new(0),
            newest_read_ms: AtomicU64::new(0),
            newest_acknowledged_ms: AtomicU64::new(0),
            drops,
            skipped: SkippedCounters::default(),
            shards: AtomicU64::new(0),
            attempts: AtomicU64::new(0),
            unsure: AtomicU64::new(0),
            failures,
            heard: HeardText::new(),
            has_readers,
        })
    }

    /// Returns what a request carries, if somebody reads that, and else nothing.
    fn cargo_of(&self, request: &[u8]) -> Cargo {
        if self.has_readers {
            return cargo_of(request);
        }
        Cargo {
            samples: 0,
            newest_ms: 0,
        }
    }

    /// Sets the number of the segment that is read, from its first byte on.
    pub fn begin_segment(&self, number: u64) {
        set(&self.segment, number);
        set(&self.segment_bytes, 0);
    }

    /// Sets how many bytes the segments of the folder have.
    pub fn set_folder_bytes(&self, bytes: u64) {
        set(&self.folder_bytes, bytes);
    }

    /// Counts `count` bytes more that were read.
    pub fn read_bytes(&self, count: usize) {
        add(&self.bytes, count as u64);
        add(&self.segment_bytes, count as u64);
    }

    /// Sets how many entries were read.
    pub fn set_entries(&self, entries: u64) {
        set(&self.entries, entries);
    }

    /// Sets how many shards are at work.
    pub fn set_shards(&self, shards: u32) {
        set(&self.shards, shards as u64);
    }

    /// Sets how many samples were put into queues, and how many of them have no answer and do not
    /// only wait for a batch to be full.
    pub fn set_load(&self, placed: u64, waiting: u64) {
        set(&self.placed, placed);
        set(&self.waiting, waiting);
    }

    /// Takes the latest timestamp of the samples that were put into a queue, in milliseconds.
    pub fn set_newest(&self, newest_ms: i64) {
        set(&self.newest_read_ms, newest_ms.max(0) as u64);
    }

    /// Takes the number of the newest segment in the folder.
    pub fn set_newest_segment(&self, number: u64) {
        set(&self.newest_segment, number);
    }

    /// Takes how many records were skipped so far, by what they hold.
    pub fn set_skipped(&self, skipped: &Skipped) {
        self.skipped.set(skipped);
    }

    /// Takes how many samples are resolved once the work has ended, and those of refused batches
    /// were counted.
    pub fn set_resolved(&self, resolved: u64) {
        let refused = read(&self.drops.listed_in_all);
        set(&self.acknowledged, resolved.saturating_sub(refused));
        set(&self.waiting, read(&self.placed).saturating_sub(resolved));
    }

    /// Sets how many samples the rules have filtered.
    pub fn set_filtered(&self, filtered: u64) {
        set(&self.filtered, filtered);
    }

    /// Counts a dropped sample, as the report lists it.
    pub fn drop_sample(&self, reason: Reason) {
        match reason {
            Reason::NoSeries => add(&self.drops.no_series, 1),
            Reason::BadLabels(_) => add(&self.drops.bad_labels, 1),
            Reason::NotRising => add(&self.drops.not_rising, 1),
            Reason::Status(status) => {
                add(&self.drops.listed_in_all, 1);
                self.drops.listed.count(status);
            }
        }
    }

    /// Counts the samples that were dropped so far as the log was read, in order: only those after
    /// the ones that were counted before.
    pub fn drop_unsent(&self, names: &[(u64, Reason)]) {
        let told = self.drops.unsent() as usize;
        if let Some(more) = names.get(told..) {
            for name in more {
                self.drop_sample(name.1);
            }
        }
    }

    /// Returns how many samples were dropped.
    pub fn dropped(&self) -> u64 {
        self.drops.unsent().saturating_add(self.drops.refused())
    }

    /// Returns how many records were skipped, by what they hold.
    pub fn skipped(&self) -> Skipped {
        self.skipped.read()
    }

    /// Counts an attempt that begins.
    pub fn attempt(&self) {
        add(&self.attempts, 1);
    }

    /// Counts an attempt that succeeded.
    pub fn succeed(&self) {
        set(&self.failures.in_a_row, 0);
    }

    /// Counts an attempt that succeeded, and the samples of its request, which are acknowledged.
    pub fn acknowledge(&self, request: &[u8]) {
        let cargo = self.cargo_of(request);
        add(&self.acknowledged, cargo.samples);
        self.newest_acknowledged_ms
            .fetch_max(cargo.newest_ms, Ordering::Relaxed);
        self.succeed();
    }

    /// Counts an attempt that was refused permanently with this status, and the samples of its
    /// request, which are dropped.
    pub fn refuse(&self, status: u16, request: &[u8]) {
        let cargo = self.cargo_of(request);
        self.drops.heard.add(status, cargo.samples);
        add(&self.drops.heard_in_all, cargo.samples);
        self.fail(Cause::Status(status));
    }

    /// Counts the samples of a request that is refused, although the receiver may hold them: an
    /// earlier attempt had no answer.
    pub fn doubt(&self, request: &[u8]) {
        add(&self.unsure, cargo_of(request).samples);
    }

    /// Returns how many samples of refused batches the receiver may hold.
    pub fn unsure(&self) -> u64 {
        read(&self.unsure)
    }

    /// Keeps the first bytes of the body of a reply that did not take its batch. `reply` is what
    /// was read of it, from its head on.
    pub fn keep_reply(&self, status: u16, reply: &[u8]) {
        self.heard.keep(status, reply_body(reply));
    }

    /// Returns the status of the last reply that did not take its batch and had a body, and the
    /// first 200 bytes of this body as one line of printable characters; `None` if there is none.
    pub fn last_reply(&self, alloc: Global) -> Result<Option<(u16, String)>, AllocError> {
        self.heard.read(alloc)
    }

    /// Counts an attempt that has failed.
    pub fn fail(&self, cause: Cause) {
        let failures = &self.failures;
        add(&failures.all, 1);
        add(&failures.in_a_row, 1);
        set(&failures.last, number_of(cause));
        match cause {
            Cause::Connect => add(&failures.connect, 1),
            Cause::Timeout => add(&failures.timeout, 1),
            Cause::Broken => add(&failures.broken, 1),
            Cause::Ended => add(&failures.ended, 1),
            Cause::BadReply => add(&failures.bad_reply, 1),
            Cause::Memory => add(&failures.memory, 1),
            Cause::Status(status) => failures.statuses.count(status),
        }
    }

    /// Returns what was counted. Samples are read, acknowledged, dropped, filtered and in flight so
    /// that the first number is the sum of the others, though they are not read at one moment.
    pub fn numbers(&self, alloc: Global) -> Result<SendNumbers, AllocError> {
        let drops = self.drops.numbers(alloc)?;
        let failures = self.failures.numbers(alloc)?;
        let acknowledged = read(&self.acknowledged);
        let resolved = acknowledged.saturating_add(drops.refused_in_all());
        let placed = read(&self.placed).max(resolved);
        let in_flight = placed.saturating_sub(resolved);
        let filtered = read(&self.filtered);
        let sent = acknowledged.saturating_add(in_flight);
        let unsent = drops.all.saturating_add(filtered);
        Ok(SendNumbers {
            entries: read(&self.entries),
            bytes: read(&self.bytes),
            folder_bytes: read(&self.folder_bytes),
            segment: read(&self.segment),
            newest_segment: read(&self.newest_segment),
            segment_bytes: read(&self.segment_bytes),
            read: sent.saturating_add(unsent),
            placed,
            acknowledged,
            in_flight,
            resolved,
            waiting: read(&self.waiting),
            filtered,
            newest_read: read(&self.newest_read_ms) / 1_000,
            newest_acknowledged: read(&self.newest_acknowledged_ms) / 1_000,
            drops,
            skipped: self.skipped.read(),
            shards: read(&self.shards),
            attempts: read(&self.attempts),
            unsure: read(&self.unsure),
            failures,
        })
    }
}

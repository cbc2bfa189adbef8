//! Counters of a receiver.

use crate::atomics::{add, read, set};
use crate::body_contents::contents_of;
use crate::codes::Codes;
use crate::kept_counters::KeptCounters;
use crate::memory_counters::MemoryCounters;
use crate::receive_numbers::ReceiveNumbers;
use crate::refusals::{RefusalCounters, RefusalReason, RefusedRequest};
use crate::skipped_parts::SkippedPartCounters;
use std::alloc::{AllocError, Global};
use std::sync::atomic::{AtomicU64, Ordering};

/// What a receiver does, counted by its threads and read by others. The counters are best effort:
/// no clause says anything about them, and no promise depends on them.
#[derive(Drop)]
pub struct ReceiveCounters {
    accepted: AtomicU64,
    ended: AtomicU64,
    refused: AtomicU64,
    statuses: Codes,
    refusals: RefusalCounters,
    skipped: SkippedPartCounters,
    samples: AtomicU64,
    label_sets: AtomicU64,
    max_samples: AtomicU64,
    max_label_sets: AtomicU64,
    memory: Option<MemoryCounters>,
    kept: Option<KeptCounters>,
}

impl ReceiveCounters {
    /// Returns counters that are all 0, of a receiver that keeps no log.
    pub fn new(alloc: Global) -> Result<ReceiveCounters, AllocError> {
        ReceiveCounters::with(alloc, None, None)
    }

    /// Returns counters that are all 0, of a receiver that writes to the log of a folder.
    pub fn of_kept_log(alloc: Global) -> Result<ReceiveCounters, AllocError> {
        ReceiveCounters::with(alloc, None, Some(KeptCounters::default()))
    }

    /// Returns counters that are all 0, of a receiver that writes to the log of a folder, and keeps
    /// only the latest samples in memory.
    pub fn of_recent_log(alloc: Global) -> Result<ReceiveCounters, AllocError> {
        let memory = Some(MemoryCounters::default());
        ReceiveCounters::with(alloc, memory, Some(KeptCounters::default()))
    }

    fn with(
        alloc: Global,
        memory: Option<MemoryCounters>,
        kept: Option<KeptCounters>,
    ) -> Result<ReceiveCounters, AllocError> {
        let statuses = Codes::new(alloc)?;
        Ok(ReceiveCounters {
            accepted: AtomicU64::new(0),
            ended: AtomicU64::new(0),
            refused: AtomicU64::new(0),
            statuses,
            refusals: RefusalCounters::new(),
            skipped: SkippedPartCounters::default(),
            samples: AtomicU64::new(0),
            label_sets: AtomicU64::new(0),
            max_samples: AtomicU64::new(0),
            max_label_sets: AtomicU64::new(0),
            memory,
            kept,
        })
    }

    /// Counts a connection that was accepted, and is served.
    pub fn begin_connection(&self) {
        add(&self.accepted, 1);
    }

    /// Counts a connection that has ended.
    pub fn end_connection(&self) {
        add(&self.ended, 1);
    }

    /// Counts an accept that has failed.
    pub fn refuse_connection(&self) {
        add(&self.refused, 1);
    }

    /// Counts an answer of the head: its status, and how many samples it stored.
    pub fn answer(&self, status: u16, stored: u64) {
        self.statuses.count(status);
        add(&self.samples, stored);
    }

    /// Counts what a body that was acknowledged has and that is not held: native histograms,
    /// exemplars and metadata.
    pub fn skip_parts(&self, body: &[u8]) {
        self.skipped.count(&contents_of(body));
    }

    /// Counts the samples of a body that was refused, by the reason if that is known, and returns
    /// how many it has.
    pub fn refuse_body(&self, reason: Option<RefusalReason>, body: &[u8]) -> u64 {
        let samples = contents_of(body).samples;
        if let Some(reason) = reason {
            self.refusals.count(reason, samples);
        }
        samples
    }

    /// Counts samples that were refused for this reason, of a body of which others were taken.
    pub fn refuse_samples(&self, reason: RefusalReason, samples: u64) {
        self.refusals.count(reason, samples);
    }

    /// Counts a request that was answered without asking the head.
    pub fn answer_unasked(&self, status: u16) {
        self.statuses.count(status);
    }

    /// Returns whether an example of a refused request is wanted: there is none since the last call
    /// of `take_refusal`.
    pub fn wants_refusal(&self) -> bool {
        self.refusals.lacks_example()
    }

    /// Takes an example of a refused request.
    pub fn set_refusal(&self, refusal: RefusedRequest) {
        self.refusals.set_example(refusal);
    }

    /// Returns the example of a refused request, if there is one, and has none from then on.
    pub fn take_refusal(&self) -> Option<RefusedRequest> {
        self.refusals.take_example()
    }

    /// Sets of how many label sets the head holds samples. The number never becomes smaller.
    pub fn hold_label_sets(&self, count: usize) {
        self.label_sets.fetch_max(count as u64, Ordering::Relaxed);
    }

    /// Counts what is held before the first answer, since the head was opened from the log of a
    /// folder: how many samples, and of how many label sets.
    pub fn begin_with(&self, samples: u64, label_sets: usize) {
        add(&self.samples, samples);
        self.hold_label_sets(label_sets);
        if let Some(kept) = &self.kept {
            set(&kept.is_open, 1);
        }
    }

    /// Returns whether requests are answered: they are not before `begin_with`, if the receiver
    /// keeps a log.
    pub(crate) fn is_ready(&self) -> bool {
        match &self.kept {
            Some(kept) => read(&kept.is_open) > 0,
            None => true,
        }
    }

    /// Takes how many samples may be held, and of how many label sets; 0 if there is no limit.
    pub fn set_limits(&self, max_samples: u64, max_label_sets: u64) {
        set(&self.max_samples, max_samples);
        set(&self.max_label_sets, max_label_sets);
    }

    /// Sets how many samples are in memory, and counts the series of which a sample came that may
    /// be gone from there. It counts nothing if all samples are in memory.
    pub fn hold_in_memory(&self, samples: u64, asked: u64) {
        if let Some(memory) = &self.memory {
            set(&memory.samples, samples);
            add(&memory.asked, asked);
        }
    }

    /// Counts bytes that were written to the log of a folder. This and the next five calls count
    /// nothing if the receiver keeps no log.
    pub fn write_log(&self, bytes: u64) {
        if let Some(kept) = &self.kept {
            add(&kept.bytes, bytes);
        }
    }

    /// Counts a sync of that log, and for how long it took.
    pub fn sync_log(&self, micros: u64) {
        if let Some(kept) = &self.kept {
            add(&kept.syncs, 1);
            add(&kept.sync_micros, micros);
        }
    }

    /// Counts a segment of that log that was begun.
    pub fn begin_log_segment(&self) {
        if let Some(kept) = &self.kept {
            add(&kept.segments, 1);
        }
    }

    /// Counts a write, a sync or a new segment of that log that failed.
    pub fn fail_log(&self) {
        if let Some(kept) = &self.kept {
            add(&kept.failed, 1);
        }
    }

    /// Counts the segments of that log that are there at the start, and are about to be read.
    pub fn find_log_segments(&self, count: usize) {
        if let Some(kept) = &self.kept {
            add(&kept.found, count as u64);
        }
    }

    /// Counts one of them that was read, of this many bytes.
    pub fn read_log_segment(&self, bytes: u64) {
        if let Some(kept) = &self.kept {
            add(&kept.read, 1);
            add(&kept.opening_bytes, bytes);
        }
    }

    /// Returns the values of the counters.
    pub fn numbers(&self, alloc: Global) -> Result<ReceiveNumbers, AllocError> {
        let statuses = self.statuses.read(alloc)?;
        let ended = read(&self.ended);
        let accepted = read(&self.accepted);
        Ok(ReceiveNumbers {
            connections: accepted.saturating_sub(ended),
            accepted,
            refused: read(&self.refused),
            statuses,
            refused_samples: self.refusals.samples(),
            skipped: self.skipped.read(),
            samples: read(&self.samples),
            label_sets: read(&self.label_sets),
            max_samples: read(&self.max_samples),
            max_label_sets: read(&self.max_label_sets),
            memory: self.memory.as_ref().map(|memory| memory.numbers()),
            kept: self.kept.as_ref().map(|kept| kept.numbers()),
        })
    }
}

//! The log of a run: with `--log` a line on standard error for each thing that happens, with its
//! time and level, in the form of the log of a Prometheus.

use crate::refusal_lines::RefusalsSeen;
use jiff::Timestamp;
use rw_metrics::{Cause, ReceiveCounters, ReceiveNumbers, SendCounters, SendNumbers};
use std::alloc::{AllocError, Global};
use std::sync::Arc;
use std::thread::{self, Threads};
use std::time::Duration;

/// How many milliseconds pass between two looks at the counters.
const LOOK_MS: u64 = 1_000;

/// How many looks pass at least between two lines on what was refused or dropped.
const LOOKS_BETWEEN: u64 = 60;

/// Where the lines go, if they are asked for.
#[derive(Clone, Copy)]
pub struct EventLog {
    rt: HostRuntime,
    is_on: bool,
}

impl EventLog {
    /// Returns the log of a run, which writes nothing unless `is_on` says so.
    pub fn new(rt: &HostRuntime, is_on: bool) -> EventLog {
        EventLog { rt: *rt, is_on }
    }

    /// Returns what texts are made in.
    fn alloc(&self) -> Global {
        self.rt.alloc()
    }

    /// Writes a line, unless there was no memory for its text.
    fn write(&self, level: &str, text: Result<String, AllocError>) {
        if !self.is_on {
            return;
        }
        if let (Ok(now), Ok(text)) = (Timestamp::now(&self.rt), text) {
            let _ = eprintln!(self.rt; "ts={now:.3} level={level} msg={text:?}");
        }
    }

    /// Writes a line on what a user expects to happen.
    pub fn info(&self, text: Result<String, AllocError>) {
        self.write("info", text);
    }

    /// Writes a line on what a user may have to look after.
    fn warn(&self, text: Result<String, AllocError>) {
        self.write("warn", text);
    }

    /// Says that a stop is requested.
    pub fn note_stop(&self) {
        self.info(String::from_str(self.alloc(), "a stop is requested"));
    }

    /// Has a thread write what the counters of a sender show, if lines are asked for. It is never
    /// joined.
    pub fn watch_sender<R: Threads>(
        &self,
        threads: &R,
        counters: &Arc<SendCounters, Global>,
    ) -> Result<(), AllocError> {
        if !self.is_on {
            return Ok(());
        }
        let (log, counters) = (*self, Arc::try_clone(counters)?);
        let watcher = thread::spawn(threads, move || {
            let mut seen = SenderSeen::new();
            for _ in 0..u64::MAX {
                thread::sleep(&log.rt, Duration::from_millis(LOOK_MS));
                if let Ok(numbers) = counters.numbers(log.alloc()) {
                    seen.look(&log, &numbers, &LastReply::of(log.alloc(), &counters));
                }
            }
        })?;
        drop(watcher);
        Ok(())
    }

    /// Has a thread write what the counters of a receiver show, if lines are asked for. It is never
    /// joined.
    pub fn watch_receiver<R: Threads>(
        &self,
        threads: &R,
        counters: &Arc<ReceiveCounters, Global>,
    ) -> Result<(), AllocError> {
        if !self.is_on {
            return Ok(());
        }
        let (log, counters) = (*self, Arc::try_clone(counters)?);
        let watcher = thread::spawn(threads, move || {
            let mut seen = ReceiverSeen::new();
            for _ in 0..u64::MAX {
                thread::sleep(&log.rt, Duration::from_millis(LOOK_MS));
                if let Ok(numbers) = counters.numbers(log.alloc()) {
                    seen.look(&log, &counters, &numbers);
                }
            }
        })?;
        drop(watcher);
        Ok(())
    }
}

/// The last line on a count: how large that was, and how many looks ago the line was written.
#[derive(Clone, Copy)]
pub struct LastLine {
    count: u64,
    looks: u64,
}

impl LastLine {
    /// Returns what it is before the first line.
    pub fn new() -> LastLine {
        LastLine {
            count: 0,
            looks: LOOKS_BETWEEN,
        }
    }

    /// Returns by how much a count is larger than it was at the last line, if it is, and that line
    /// is long enough ago.
    pub fn news(&mut self, count: u64) -> Option<u64> {
        self.looks = self.looks.saturating_add(1);
        let more = count.saturating_sub(self.count);
        if more == 0 || self.looks < LOOKS_BETWEEN {
            return None;
        }
        self.count = count;
        self.looks = 0;
        Some(more)
    }
}

/// What the receiver last said of a batch that it did not take, with which status.
#[derive(Drop)]
struct LastReply {
    said: Option<(u16, String)>,
}

impl LastReply {
    /// Returns what these counters have kept. It is nothing if memory runs out.
    fn of(alloc: Global, counters: &SendCounters) -> LastReply {
        LastReply {
            said: counters.last_reply(alloc).unwrap_or(None),
        }
    }

    /// Returns the end of a line on answers with this status: what the receiver said, if it said
    /// anything with that.
    fn ending(&self, alloc: Global, status: u16) -> Result<String, AllocError> {
        match &self.said {
            Some((other, text)) if *other == status => {
                format!(in alloc; "; receiver said: {text}")
            }
            _ => Ok(String::new(alloc)),
        }
    }

    /// Returns the end of a line on an attempt that failed of this cause.
    fn after_failure(&self, alloc: Global, cause: Option<Cause>) -> Result<String, AllocError> {
        match cause {
            Some(Cause::Status(status)) => self.ending(alloc, status),
            _ => Ok(String::new(alloc)),
        }
    }

    /// Returns the end of a line on dropped samples.
    fn after_drops(&self, alloc: Global, refused: &[(u16, u64)]) -> Result<String, AllocError> {
        for (status, _) in refused {
            let ending = self.ending(alloc, *status)?;
            if !ending.is_empty() {
                return Ok(ending);
            }
        }
        Ok(String::new(alloc))
    }
}

/// What was written about a sender.
#[derive(Clone, Copy)]
struct SenderSeen {
    /// The segment that was read at the last line on that; `None` before the first one.
    segment: Option<u64>,
    is_acknowledged: bool,
    is_failing: bool,
    dropped: LastLine,
    skipped: LastLine,
}

/// Returns why the last attempt failed, in words.
fn words_of(alloc: Global, cause: Option<Cause>) -> Result<String, AllocError> {
    let words = match cause {
        Some(Cause::Status(status)) => return format!(in alloc; "it was answered with {status}"),
        Some(Cause::Connect) => "no connection was made",
        Some(Cause::Timeout) => "its time was over",
        Some(Cause::Broken) => "the connection broke",
        Some(Cause::Ended) => "the reply ended too early",
        Some(Cause::BadReply) => "what came is not a reply",
        Some(Cause::Memory) => "out of memory",
        None => "unknown",
    };
    String::from_str(alloc, words)
}

impl SenderSeen {
    /// Returns what it is before the first line.
    fn new() -> SenderSeen {
        SenderSeen {
            segment: None,
            is_acknowledged: false,
            is_failing: false,
            dropped: LastLine::new(),
            skipped: LastLine::new(),
        }
    }

    /// Writes a line if another segment is read.
    fn look_at_segment(&mut self, log: &EventLog, numbers: &SendNumbers) {
        let segment = numbers.segment;
        if numbers.bytes > 0 && self.segment != Some(segment) {
            log.info(format!(in log.alloc(); "reads segment {segment}"));
            self.segment = Some(segment);
        }
    }

    /// Writes a line if attempts begin to fail, or the receiver acknowledges for the first time, or
    /// again.
    fn look_at_answers(&mut self, log: &EventLog, numbers: &SendNumbers, reply: &LastReply) {
        let (alloc, failures) = (log.alloc(), &numbers.failures);
        if failures.in_a_row > 0 {
            if !self.is_failing {
                let said = reply.after_failure(alloc, failures.last);
                if let (Ok(why), Ok(said)) = (words_of(alloc, failures.last), said) {
                    log.warn(format!(in alloc;
                        "an attempt has failed, and is made again: {why}{said}"
                    ));
                }
            }
            self.is_failing = true;
        } else if numbers.acknowledged > 0 && (self.is_failing || !self.is_acknowledged) {
            let count = numbers.acknowledged;
            log.info(format!(in alloc; "the receiver acknowledges; samples so far: {count}"));
            self.is_failing = false;
            self.is_acknowledged = true;
        }
    }

    /// Writes a line if samples were dropped, or records skipped that may hold samples.
    fn look_at_losses(&mut self, log: &EventLog, numbers: &SendNumbers, reply: &LastReply) {
        let alloc = log.alloc();
        if let Some(more) = self.dropped.news(numbers.drops.all) {
            if let Ok(said) = reply.after_drops(alloc, numbers.drops.refused.as_slice()) {
                log.warn(format!(in alloc; "samples were dropped: {more}{said}"));
            }
        }
        if let Some(more) = self.skipped.news(numbers.skipped.lost()) {
            log.warn(format!(in alloc; "records that may hold samples were skipped: {more}"));
        }
    }

    /// Writes a line for each thing that has happened since the last look.
    fn look(&mut self, log: &EventLog, numbers: &SendNumbers, reply: &LastReply) {
        self.look_at_segment(log, numbers);
        self.look_at_answers(log, numbers, reply);
        self.look_at_losses(log, numbers, reply);
    }
}

/// What was written about a receiver.
#[derive(Clone, Copy)]
struct ReceiverSeen {
    has_client: bool,
    segments: u64,
    syncs: u64,
    sync_micros: u64,
    refusals: RefusalsSeen,
}

impl ReceiverSeen {
    /// Returns what it is before the first line.
    fn new() -> ReceiverSeen {
        ReceiverSeen {
            has_client: false,
            segments: 0,
            syncs: 0,
            sync_micros: 0,
            refusals: RefusalsSeen::new(),
        }
    }

    /// Writes a line if the first client has come.
    fn look_at_clients(&mut self, log: &EventLog, numbers: &ReceiveNumbers) {
        let alloc = log.alloc();
        if numbers.accepted > 0 && !self.has_client {
            log.info(String::from_str(alloc, "a first client has connected"));
            self.has_client = true;
        }
    }

    /// Writes a line if requests were refused, and one if a limit is reached.
    fn look_at_refusals(
        &mut self,
        log: &EventLog,
        counters: &ReceiveCounters,
        numbers: &ReceiveNumbers,
    ) {
        if let Some(text) = self.refusals.refusals(log.alloc(), counters, numbers) {
            log.warn(text);
        }
        if let Some(text) = self.refusals.limit(log.alloc(), numbers) {
            log.warn(text);
        }
    }

    /// Writes a line if a segment was begun, or syncs took a second and more.
    fn look_at_folder(&mut self, log: &EventLog, numbers: &ReceiveNumbers) {
        let Some(kept) = &numbers.kept else {
            return;
        };
        let alloc = log.alloc();
        if kept.segments > self.segments {
            let count = kept.segments;
            log.info(format!(in alloc; "a segment was begun; since the start: {count}"));
        }
        let syncs = kept.syncs.saturating_sub(self.syncs);
        let millis = kept.sync_micros.saturating_sub(self.sync_micros) / 1_000;
        if syncs > 0 && millis / syncs >= 1_000 {
            log.warn(format!(in alloc; "syncs are slow: {syncs} took {millis} ms"));
        }
        self.segments = kept.segments;
        self.syncs = kept.syncs;
        self.sync_micros = kept.sync_micros;
    }

    /// Writes a line for each thing that has happened since the last look.
    fn look(&mut self, log: &EventLog, counters: &ReceiveCounters, numbers: &ReceiveNumbers) {
        self.look_at_clients(log, numbers);
        self.look_at_refusals(log, counters, numbers);
        self.look_at_folder(log, numbers);
    }
}

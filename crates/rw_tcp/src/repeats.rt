//! A stop for a receiver that answers with the same failure for a long time.

ghost use Rattle.std.specs.Prelude.{◌≡◌, ◌==◌, ◌&&◌, None, OnOk, OnErr};
ghost use Rattle.std.specs.Str.{bytes_eq};
ghost use Rattle.rw_tcp.specs.Repeats.{is_server_error, after_answer, is_given_up};

use rw_follow::StopSignal;
use rw_metrics::reply_text;
use rw_worker::StopFlag;
use std::alloc::{AllocError, Global};
use std::marker::Model;
use std::sync::{Arc, Mutex};
use std::time::{Clock, Instant};

/// The first of some answers with the same status and text.
#[derive(Drop)]
struct First {
    status: u16,
    text: Vec<u8>,
    since: u64,
}

impl Model for First {
    ghost use Rattle.rw_tcp.specs.Repeats.{Repeat};

    ghost Value = { Repeat };

    ghost view = { λ f. record { status = f.status; text = f.text.items; since = f.since } };
}

impl First {
    /// Returns whether an answer has the same status and text.
    fn is_same(&self, status: u16, text: &[u8]) -> bool
        ensures { result ≡ (self.now.status == status && bytes_eq self.now.text text.now) }
    {
        self.status == status && self.text.as_slice() == text
    }
}

/// The failure that a receiver has answered with since a time, if it has.
#[derive(Drop)]
pub(crate) struct Repeats {
    alloc: Global,
    first: Option<First>,
}

impl Model for Repeats {
    ghost use Rattle.std.specs.Prelude.{Option};
    ghost use Rattle.rw_tcp.specs.Repeats.{Repeat};

    ghost Value = { Option Repeat };

    ghost view = { λ r. r.first };
}

/// Returns whether a status is a 5xx.
fn is_server_error(status: u16) -> bool
    ensures { result ≡ is_server_error status }
{
    500 <= status && status <= 599
}

impl Repeats {
    /// Returns what it is before the first answer.
    pub(crate) fn new(alloc: Global) -> Repeats
        ensures { result ≡ None }
    {
        Repeats { alloc, first: None }
    }

    /// Forgets what was answered.
    pub(crate) fn clear(&mut self)
        ensures { self.new ≡ None }
    {
        self.first = None;
    }

    /// Takes an answer that came at this time, in milliseconds. An `Err` means that memory ran out;
    /// then nothing has changed.
    pub(crate) fn hear(&mut self, now: u64, status: u16, text: &[u8]) -> Result<(), AllocError>
        ensures heard { OnOk result
            (self.new ≡ after_answer self.old now status text.now) }
        ensures unchanged { OnErr result (self.new ≡ self.old) }
    {
        if !is_server_error(status) {
            self.first = None;
            return Ok(());
        }
        if let Some(first) = &self.first {
            if first.is_same(status, text) {
                return Ok(());
            }
        }
        let text = Vec::from_slice(self.alloc, text)?;
        self.first = Some(First {
            status,
            text,
            since: now,
        });
        Ok(())
    }

    /// Returns whether the same failure has been answered for at least `most` milliseconds.
    pub(crate) fn is_given_up(&self, most: u64, now: u64) -> bool
        ensures { result ≡ is_given_up most self.now now }
    {
        match &self.first {
            None => false,
            Some(first) => now.saturating_sub(first.since) >= most,
        }
    }
}

/// Stops a run at once if its receiver has answered one batch with the same 5xx and the same text
/// for a time. The transports of a run share it.
#[derive(Drop)]
pub struct GiveUp {
    most_ms: u64,
    /// The failure that has stopped the run.
    found: Mutex<Option<(u16, String)>>,
    signal: Arc<StopSignal, Global>,
    workers: StopFlag,
}

impl GiveUp {
    /// Returns a stop after `most_ms` milliseconds, which sets this signal, and then this flag of
    /// the workers.
    pub fn new(most_ms: u64, signal: Arc<StopSignal, Global>, workers: StopFlag) -> GiveUp {
        GiveUp {
            most_ms,
            found: Mutex::new(None),
            signal,
            workers,
        }
    }

    /// Returns the status and the text of the failure that has stopped the run, if one has.
    pub fn failure(&self, alloc: Global) -> Result<Option<(u16, String)>, AllocError> {
        let Some(found) = self.found.try_lock() else {
            return Ok(None);
        };
        match &*found {
            None => Ok(None),
            Some((status, text)) => Ok(Some((*status, String::from_str(alloc, text.as_str())?))),
        }
    }

    /// Stops the run, since the receiver has answered with this failure.
    fn stop(&self, status: u16, text: String) {
        if let Some(mut found) = self.found.try_lock() {
            if found.is_none() {
                *found = Some((status, text));
            }
        }
        self.signal.abort();
        self.workers.set();
    }
}

/// Looks at the answers to one transport, and has a run given up.
#[derive(Drop)]
pub(crate) struct FailureWatch {
    alloc: Global,
    give_up: Arc<GiveUp, Global>,
    repeats: Repeats,
    /// When the first answer came.
    began: Option<Instant>,
}

impl FailureWatch {
    /// Returns what it is before the first answer.
    pub(crate) fn new(alloc: Global, give_up: Arc<GiveUp, Global>) -> FailureWatch {
        FailureWatch {
            alloc,
            give_up,
            repeats: Repeats::new(alloc),
            began: None,
        }
    }

    /// Returns how many milliseconds have passed since the first answer.
    fn now<C: Clock>(&mut self, clock: &C) -> Option<u64> {
        let now = Instant::now(clock).ok()?;
        match self.began {
            Some(began) => u64::try_from(now.saturating_duration_since(began).as_millis()).ok(),
            None => {
                self.began = Some(now);
                Some(0)
            }
        }
    }

    /// Takes an answer, or that none came, and stops the run if that was the same failure for too
    /// long.
    pub(crate) fn hear<C: Clock>(&mut self, clock: &C, answer: Option<(u16, &[u8])>) {
        let Some(now) = self.now(clock) else {
            return;
        };
        let Some((status, reply)) = answer else {
            self.repeats.clear();
            return;
        };
        let Ok(text) = reply_text(self.alloc, reply) else {
            return;
        };
        if self.repeats.hear(now, status, text.as_bytes()).is_ok()
            && self.repeats.is_given_up(self.give_up.most_ms, now)
        {
            self.give_up.stop(status, text);
        }
    }
}

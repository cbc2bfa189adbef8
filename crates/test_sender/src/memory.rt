//! A transport within memory, and a pause that takes no time.

ghost use Rattle.std.specs.Prelude.{◌≡◌, [], ◌∷◌, ◌++◌, true};
ghost use Rattle.rw_worker.specs.Transcript.{exchange_of};
ghost use Rattle.test_sender.specs.Noted.{noted};

use rw_worker::{Lost, Pause, Reply, StopFlag, Transport};
use std::alloc::Global;
use std::sync::Arc;
use std::sync::atomic::{AtomicU64, Ordering};

/// An exchange that was made.
#[derive(Drop)]
pub struct Note {
    pub request: Vec<u8>,
    pub answer: Result<Reply, Lost>,
}

/// Answers as its list says, and loses what comes after it. It notes each exchange, and sets a stop
/// flag at one of them.
#[derive(Drop)]
pub struct Script {
    alloc: Global,
    answers: Vec<Result<Reply, Lost>>,
    notes: Vec<Note>,
    is_complete: bool,
    stop: StopFlag,
    stops_at: usize,
}

impl Script {
    /// Returns a transport with these answers. Exchanges count from 1.
    pub fn new(
        alloc: Global,
        answers: Vec<Result<Reply, Lost>>,
        stop: StopFlag,
        stops_at: usize,
    ) -> Script
        ensures empty { result.notes.items ≡ [] }
        ensures complete { result.is_complete ≡ true }
    {
        Script {
            alloc,
            answers,
            notes: Vec::new(alloc),
            is_complete: true,
            stop,
            stops_at,
        }
    }

    /// Returns the exchanges so far.
    pub fn notes(&self) -> &[Note] {
        &self.notes
    }

    /// Returns whether there was memory to note all of them.
    pub fn is_complete(&self) -> bool {
        self.is_complete
    }

    fn next_answer(&self) -> Result<Reply, Lost> {
        let next = self.notes.len();
        if next < self.answers.len() {
            self.answers[next]
        } else {
            Err(Lost)
        }
    }

    fn note(&mut self, request: &[u8], answer: Result<Reply, Lost>)
        ensures { self.new.is_complete ≡ true → (self.old.is_complete ≡ true)
            × (noted self.new.notes.items
            ≡ noted self.old.notes.items ++ exchange_of request.now answer ∷ []) }
    {
        let Ok(request) = request.to_vec(self.alloc) else {
            self.is_complete = false;
            return;
        };
        if self.notes.push(Note { request, answer }).is_err() {
            self.is_complete = false;
        }
    }
}

impl Transport for Script {
    ghost use Rattle.std.specs.Prelude.{◌≡◌, true, ⊤};
    ghost use Rattle.test_sender.specs.Noted.{noted};

    ghost is_for = { λ _ _ _. ⊤ };

    ghost tells = { λ s. s.is_complete ≡ true };

    ghost seen = { λ s. noted s.notes.items };

    fn exchange(&mut self, request: &[u8]) -> Result<Reply, Lost> {
        let answer = self.next_answer();
        let noted = answer;
        self.note(request, noted);
        if self.notes.len() == self.stops_at {
            self.stop.set();
        }
        answer
    }
}

/// Notes the pauses that were asked for, in milliseconds. It never waits.
#[derive(Drop)]
pub struct Times {
    pub milliseconds: Vec<u64>,
    /// Whether there was memory to note all of them.
    pub is_complete: bool,
}

impl Pause for Times {
    ghost use Rattle.std.specs.Prelude.{◌≡◌, true};

    ghost tells = { λ t. t.is_complete ≡ true };

    ghost paused = { λ t. t.milliseconds.items };

    fn pause(&mut self, ms: u64) {
        if self.milliseconds.push(ms).is_err() {
            self.is_complete = false;
        }
    }
}

/// Adds up the pauses that were asked for, in milliseconds, for another thread to see. It never
/// waits.
#[derive(Drop)]
pub struct SharedTimes {
    pub sum: Arc<AtomicU64>,
}

impl Pause for SharedTimes {
    ghost use Rattle.std.specs.Prelude.{[]};

    ghost tells = { λ _. ⊥ };

    ghost paused = { λ _. [] };

    fn pause(&mut self, ms: u64) {
        self.sum.fetch_add(ms, Ordering::SeqCst);
    }
}

//! A life of a head: a journal is opened, and requests are asked.

ghost use Rattle.std.specs.Prelude.{◌≡◌, IfOk};
ghost use Rattle.rw_kept_log.specs.Memory.{image_segments};

use crate::plan::{Plan, Request};
use rw_head::{Admission, Limits};
use rw_kept_head::{HeadReading, KeptHead, OpenError};
use rw_kept_log::{Journal, JournalError, MemoryJournal, ReopenError};
use rw_recv_head::Admit;
use std::alloc::{AllocError, Global};

/// What is wrong with a head that is kept in a journal.
#[derive(Clone, Copy, Debug, PartialEq, Eq)]
pub(crate) enum Wrong {
    OutOfMemory,
    /// A call of the journal failed before the head was open.
    Failed,
    NotOpened,
    /// The head that is opened holds too little, too much, or something else.
    HeldAtFirst,
    /// A request has another answer than in the plan.
    Answer,
    /// A failed call of the journal is recorded as if memory had run out.
    Fault,
    /// The head holds too little, too much, or something else after the requests.
    HeldAtLast,
    /// Another number of requests is answered, or of calls made.
    Count,
}

impl From<AllocError> for Wrong {
    fn from(_: AllocError) -> Self {
        Wrong::OutOfMemory
    }
}

impl From<JournalError> for Wrong {
    fn from(error: JournalError) -> Self {
        match error {
            JournalError::OutOfMemory => Wrong::OutOfMemory,
            JournalError::Failed => Wrong::Failed,
        }
    }
}

/// What a head holds at first: what is held after `least` requests of a plan, and of those up to
/// `most` a part. And which requests it is asked then: those from `first` on, up to `end`.
#[derive(Clone, Copy)]
pub(crate) struct Life {
    pub(crate) least: usize,
    pub(crate) most: usize,
    pub(crate) first: usize,
    pub(crate) end: usize,
}

impl Life {
    /// Returns a life in which all requests up to `first` are held, and those up to `end` are
    /// asked.
    pub(crate) fn whole(first: usize, end: usize) -> Life {
        Life {
            least: first,
            most: first,
            first,
            end,
        }
    }

    /// Returns a life in which a part of the request `first` may be held, and those up to `end` are
    /// asked.
    pub(crate) fn torn(first: usize, end: usize) -> Life {
        Life {
            least: first,
            most: first.saturating_add(1),
            first,
            end,
        }
    }
}

/// Asks a request as the threads of a receiver do, once more if memory may have run out and the
/// plan says so: what is held is then as it was. Returns whether it has the answer of the plan,
/// which is 503 after a fault of the journal.
fn ask<J: Journal>(
    alloc: Global,
    plan: &Plan,
    kept: &mut KeptHead<J>,
    life: &Life,
    request: &Request,
) -> bool {
    let mut admission = Admit::admit(kept, &request.body, &plan.capacity);
    if plan.asks_again && admission == Admission::Answered(503) && kept.fault().is_none() {
        if !plan.is_held(alloc, kept.head(), life.least, life.most) {
            return false;
        }
        admission = Admit::admit(kept, &request.body, &plan.capacity);
    }
    if kept.fault().is_some() {
        admission == Admission::Answered(503)
    } else {
        admission == request.admission
    }
}

/// Asks a head the requests in turn, and looks at what it holds before and after them. Returns how
/// many requests of the plan are answered then as it says.
fn ask_each<J: Journal>(
    alloc: Global,
    plan: &Plan,
    kept: &mut KeptHead<J>,
    mut life: Life,
) -> Result<usize, Wrong> {
    if !plan.is_held(alloc, kept.head(), life.least, life.most) {
        return Err(Wrong::HeldAtFirst);
    }
    for number in life.first..life.end {
        let Some(request) = plan.requests.get(number) else {
            return Err(Wrong::Count);
        };
        if !ask(alloc, plan, kept, &life, request) {
            return Err(Wrong::Answer);
        }
        if kept.fault().is_none() {
            life = Life::whole(life.least.max(number.saturating_add(1)), life.end);
        }
    }
    if Admit::admit(kept, b"no message", &plan.capacity) != Admission::Answered(400) {
        return Err(Wrong::Answer);
    }
    if !plan.asks_again && kept.fault() == Some(JournalError::OutOfMemory) {
        return Err(Wrong::Fault);
    }
    if plan.is_held(alloc, kept.head(), life.least, life.most) {
        Ok(life.least)
    } else {
        Err(Wrong::HeldAtLast)
    }
}

/// Returns why a journal was not opened.
fn not_opened(error: OpenError) -> Wrong {
    match error {
        OpenError::Log(ReopenError::OutOfMemory) => Wrong::OutOfMemory,
        OpenError::Log(ReopenError::Failed) => Wrong::Failed,
        _ => Wrong::NotOpened,
    }
}

/// Reads the log in a journal, for a head with these limits.
pub(crate) fn read_head(
    alloc: Global,
    limits: &Limits,
    journal: &MemoryJournal,
) -> Result<HeadReading, AllocError>
    ensures { IfOk result (λ r. r.segments ≡ image_segments journal.now.image) }
{
    let mut reading = HeadReading::new(alloc, limits)?;
    journal.give_all(&mut reading)?;
    Ok(reading)
}

/// Opens a journal whose segments were read, asks requests, and looks at what is held before and
/// after them. Returns the journal, and how many requests of the plan are answered then as it says:
/// all up to the end of the life, if no call of the journal failed.
pub(crate) fn live_after<J: Journal>(
    alloc: Global,
    plan: &Plan,
    reading: HeadReading,
    mut journal: J,
    life: Life,
) -> (J, Result<usize, Wrong>)
    requires { reading.segments ≡ J.seen journal }
{
    if let Err(error) = journal.sync() {
        return (journal, Err(Wrong::from(error)));
    }
    match KeptHead::open(reading, journal, plan.pages.max(1).min(4096)) {
        Ok(opened) => {
            let mut kept = opened.kept;
            let answered = ask_each(alloc, plan, &mut kept, life);
            (kept.into_journal(), answered)
        }
        Err((error, journal)) => (journal, Err(not_opened(error))),
    }
}

/// Does the same with a journal in memory, whose segments it reads.
pub(crate) fn live(
    alloc: Global,
    plan: &Plan,
    journal: MemoryJournal,
    life: Life,
) -> (MemoryJournal, Result<usize, Wrong>) {
    match read_head(alloc, &plan.limits, &journal) {
        Ok(reading) => live_after(alloc, plan, reading, journal, life),
        Err(_) => (journal, Err(Wrong::OutOfMemory)),
    }
}

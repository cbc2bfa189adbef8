//! A head in a journal that lets samples go from memory: what it answers then, and what is in the
//! journal.

ghost use Rattle.std.specs.Prelude.{◌≡◌, IfOk};
ghost use Rattle.rw_kept_log.specs.Memory.{image_segments};

use crate::life::{Life, live};
use crate::plan::Plan;
use rw_head::{Admission, Limits, RecentSamples};
use rw_kept_head::{HeadReading, KeepFor, KeptHead};
use rw_kept_log::{Journal, MemoryJournal};
use rw_recv_head::Admit;
use std::alloc::{AllocError, Global};
use std::test::Fail;

/// The samples at 0 to 249 are held, and those up to 119 are gone from memory. A request has the
/// one at this place, and is answered with this status.
type Row = (&'static str, usize, u16);

static ROWS: [Row; 4] = [
    ("the first sample", 0, 503),
    ("the last that is gone", 119, 503),
    ("the first in memory", 120, 204),
    ("the last sample", 249, 204),
];

/// Returns a plan of a request with all samples, the requests of the rows, and one with a later
/// sample.
fn plan(alloc: Global) -> Result<Plan, AllocError> {
    let mut plan = Plan::new(alloc, 1, 1)?;
    plan.push_rows(alloc, &[(250, Admission::Answered(204))])?;
    for (_, place, status) in &ROWS {
        let Some(sample) = plan.all.get(*place).copied() else {
            return Err(AllocError);
        };
        plan.push(alloc, &[sample], Admission::Answered(*status))?;
    }
    plan.push_rows(alloc, &[(1, Admission::Answered(204))])?;
    Ok(plan)
}

/// Reads the log in a journal, for a head that has only the samples of the last 50 milliseconds in
/// memory then, as far as they are whole blocks.
fn read_recent(
    alloc: Global,
    limits: &Limits,
    journal: &MemoryJournal,
) -> Result<HeadReading<RecentSamples>, AllocError>
    ensures { IfOk result (λ r. r.segments ≡ image_segments journal.now.image) }
{
    let keep = KeepFor {
        span_ms: 50,
        now_ms: i64::MAX,
    };
    let mut reading = HeadReading::recent(alloc, limits, keep)?;
    journal.give_all(&mut reading)?;
    Ok(reading)
}

/// Asks a head the requests of the rows and the last one. Returns the first with another answer.
fn ask_rows<J: Journal>(
    plan: &Plan,
    kept: &mut KeptHead<J, RecentSamples>,
) -> Option<&'static str> {
    for (at, (name, _, _)) in ROWS.iter().enumerate() {
        let Some(request) = plan.requests.get(at.saturating_add(1)) else {
            return Some(*name);
        };
        if Admit::admit(kept, &request.body, &plan.capacity) != request.admission {
            return Some(*name);
        }
    }
    match plan.requests.last() {
        Some(last) if Admit::admit(kept, &last.body, &plan.capacity) == last.admission => None,
        _ => Some("a later sample"),
    }
}

/// Asks a new head the first request, has it let samples go, and asks it the others.
fn ask_all<J: Journal>(plan: &Plan, kept: &mut KeptHead<J, RecentSamples>) -> Option<&'static str> {
    let Some(first) = plan.requests.first() else {
        return Some("a plan");
    };
    if Admit::admit(kept, &first.body, &plan.capacity) != first.admission {
        return Some("the first request");
    }
    if kept.forget(200).samples != 130 || Admit::total(kept) != 250 || Admit::places(kept) != 1 {
        return Some("what is in memory");
    }
    ask_rows(plan, kept)
}

/// Opens a journal whose segments were read for a head that forgets, and asks it all requests, or
/// only those after the first one. Returns the journal, and what is wrong first.
fn ask_recent<J: Journal>(
    plan: &Plan,
    reading: HeadReading<RecentSamples>,
    mut journal: J,
    asks_all: bool,
) -> (J, Option<&'static str>)
    requires { reading.segments ≡ J.seen journal }
{
    if let Err(_) = journal.sync() {
        return (journal, Some("a sync"));
    }
    match KeptHead::open(reading, journal, 4096) {
        Ok(opened) => {
            let mut kept = opened.kept;
            let wrong = if asks_all {
                ask_all(plan, &mut kept)
            } else {
                ask_rows(plan, &mut kept)
            };
            (kept.into_journal(), wrong)
        }
        Err((_, journal)) => (journal, Some("an open journal")),
    }
}

/// Reads a journal for a head that forgets, and asks it. Returns the journal, and what is wrong
/// first.
fn live_recent(
    alloc: Global,
    plan: &Plan,
    journal: MemoryJournal,
    asks_all: bool,
) -> (MemoryJournal, Option<&'static str>) {
    match read_recent(alloc, &plan.limits, &journal) {
        Ok(reading) => ask_recent(plan, reading, journal, asks_all),
        Err(_) => (journal, Some("a reading")),
    }
}

/// Returns what is wrong first: a head that lets samples go, one that is opened after it, or what
/// one finds in the journal that has all samples in memory.
fn first_wrong(alloc: Global) -> Option<&'static str> {
    let Ok(plan) = plan(alloc) else {
        return Some("a plan");
    };
    let (journal, wrong) = live_recent(alloc, &plan, MemoryJournal::new(alloc), true);
    if wrong.is_some() {
        return wrong;
    }
    let (journal, wrong) = live_recent(alloc, &plan, journal, false);
    if wrong.is_some() {
        return wrong;
    }
    let end = plan.requests.len();
    match live(alloc, &plan, journal, Life::whole(end, end)) {
        (_, Ok(_)) => None,
        _ => Some("what is in the journal"),
    }
}

#[test]
fn a_head_that_forgets_keeps_all_in_its_journal(rt: HostRuntime) -> Result<(), Fail> {
    let wrong = first_wrong(rt.alloc());
    assert_eq!(rt; wrong, None);
    Ok(())
}

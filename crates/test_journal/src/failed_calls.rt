//! A head over a journal of which each call fails in turn, and which is then crashed and opened
//! again.

use crate::failing_journal::FailingJournal;
use crate::life::{Life, Wrong, live, live_after, read_head};
use crate::plan::{Plan, Row};
use rw_head::Admission;
use rw_kept_log::{Journal, MemoryJournal};
use std::alloc::{AllocError, Global};
use std::test::Fail;

/// Each new sample is of a new series, whose definition takes a fourth of a page. The first request
/// is asked while no call fails. The second one is written in one page, the third one in two pages,
/// and the last one, also in two pages, has room only in a next segment.
static ROWS: [Row; 4] = [
    (1, Admission::Answered(204)),
    (1, Admission::Answered(204)),
    (4, Admission::Answered(204)),
    (5, Admission::Answered(204)),
];

/// The calls from the second opening on: a sync, a cut, a sync and a begun segment, an append and a
/// sync for each page, and a begun segment before the last request.
const CALLS: u64 = 4 + 2 + 4 + 1 + 4;

/// A torn record.
const TORN: [u8; 5] = [1, 0, 22, 0x39, 0x19];

/// What a crash leaves of bytes that are not synced.
#[derive(Clone, Copy)]
enum Left {
    All,
    Nothing,
    Torn,
}

/// How a call fails: whether it has synced or begun a segment nevertheless, and what the crash
/// after it leaves.
struct Way {
    name: &'static str,
    is_made: bool,
    left: Left,
}

static WAYS: [Way; 4] = [
    Way {
        name: "nothing is left of what was not synced",
        is_made: false,
        left: Left::Nothing,
    },
    Way {
        name: "all is left of what was not synced",
        is_made: false,
        left: Left::All,
    },
    Way {
        name: "other bytes are left in place of what was not synced",
        is_made: false,
        left: Left::Torn,
    },
    Way {
        name: "the call succeeded though it is said to have failed",
        is_made: true,
        left: Left::Nothing,
    },
];

fn plan(alloc: Global) -> Result<Plan, AllocError> {
    let mut plan = Plan::new(alloc, 11, 8000)?;
    plan.pages = 2;
    plan.push_rows(alloc, &ROWS)?;
    Ok(plan)
}

/// Returns a journal with the first request and a torn record after it.
fn torn_journal(alloc: Global, plan: &Plan) -> Result<MemoryJournal, Wrong> {
    let (mut journal, answered) = live(alloc, plan, MemoryJournal::new(alloc), Life::whole(0, 1));
    answered?;
    journal.sync()?;
    journal.append(&TORN)?;
    journal.crash(&TORN)?;
    Ok(journal)
}

/// Crashes a journal, opens it again and asks the other requests, and opens it once more.
fn crash(
    alloc: Global,
    plan: &Plan,
    mut journal: MemoryJournal,
    left: Left,
    answered: usize,
) -> Result<(), Wrong> {
    match left {
        Left::All => {}
        Left::Nothing => journal.crash(&[])?,
        Left::Torn => journal.crash(&TORN)?,
    }
    let end = plan.requests.len();
    let (journal, all) = live(alloc, plan, journal, Life::torn(answered, end));
    if all? != end {
        return Err(Wrong::Count);
    }
    let (_, all) = live(alloc, plan, journal, Life::whole(end, end));
    all?;
    Ok(())
}

/// Has a call fail in a way; if it would come after all calls, none fails, and all requests are
/// answered.
fn fail(alloc: Global, plan: &Plan, call: u64, way: &Way) -> Result<(), Wrong> {
    let end = plan.requests.len();
    let journal = torn_journal(alloc, plan)?;
    let reading = read_head(alloc, &plan.limits, &journal)?;
    let journal = FailingJournal::new(journal, call, way.is_made);
    let (journal, answered) = live_after(alloc, plan, reading, journal, Life::whole(1, end));
    let answered = match answered {
        Err(Wrong::Failed) => 1,
        answered => answered?,
    };
    let is_failed = call <= CALLS;
    if journal.has_failed() != is_failed || is_failed != (answered < end) {
        return Err(Wrong::Count);
    }
    crash(alloc, plan, journal.into_inner(), way.left, answered)
}

/// Returns the first call that is wrong if it fails, and in which way.
fn first_wrong(alloc: Global) -> Result<Option<(u64, &'static str, Wrong)>, AllocError> {
    let plan = plan(alloc)?;
    for way in &WAYS {
        for call in 1..CALLS + 2 {
            if let Err(wrong) = fail(alloc, &plan, call, way) {
                return Ok(Some((call, way.name, wrong)));
            }
        }
    }
    Ok(None)
}

#[test]
fn a_failed_call_loses_nothing_acknowledged(rt: HostRuntime) -> Result<(), Fail> {
    let wrong = first_wrong(rt.alloc());
    assert_eq!(rt; wrong, Ok(None));
    Ok(())
}

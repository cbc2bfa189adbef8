//! A log whose first segments give way to their definitions, and a head that is opened after it.

use crate::life::{Life, live, read_head};
use crate::plan::Plan;
use rw_head::Admission;
use rw_kept_head::KeptHead;
use rw_kept_log::{Journal, MemoryJournal, OldSegments, RetireError, retire_old_segments};
use rw_recv_head::Admit;
use std::alloc::{AllocError, Global};
use std::test::Fail;

/// Of four segments the first one is empty, and the others have ten samples each, at 0 to 29. With
/// this floor the second number of them give way, and a head that is opened then has the third
/// number of samples.
type Row = (i64, usize, u64);

static ROWS: [Row; 6] = [
    (-1, 1, 30),
    (8, 1, 30),
    (9, 2, 20),
    (18, 2, 20),
    (19, 3, 10),
    // The last segment stays, though all its samples are old.
    (1_000, 3, 10),
];

/// Returns a plan of three requests with ten samples each, and a fourth one.
fn plan(alloc: Global) -> Result<Plan, AllocError> {
    let mut plan = Plan::new(alloc, 1, 1)?;
    plan.push_rows(alloc, &[(10, Admission::Answered(204)); 4])?;
    Ok(plan)
}

/// Returns a journal with the segments of three lives, each of which has taken a request.
fn after_three_lives(alloc: Global, plan: &Plan) -> Option<MemoryJournal> {
    let mut journal = MemoryJournal::new(alloc);
    for life in 0..3 {
        let (next, answered) = live(alloc, plan, journal, Life::whole(life, life + 1));
        journal = next;
        if answered.is_err() {
            return None;
        }
    }
    Some(journal)
}

/// Has the old segments give way, and returns how many did.
fn retire(alloc: Global, journal: &mut MemoryJournal, floor: i64) -> Result<usize, RetireError> {
    let mut old = OldSegments::new(alloc, floor);
    journal.give_all(&mut old)?;
    journal.sync()?;
    retire_old_segments(alloc, old, journal)
}

/// Opens the head in a journal, and asks it the fourth request. Returns how many samples it has
/// before and after it, and whether the log defines each reference that it uses, and none twice.
fn open_and_ask(
    alloc: Global,
    plan: &Plan,
    mut journal: MemoryJournal,
) -> Option<(u64, u64, bool)> {
    let Ok(reading) = read_head(alloc, &plan.limits, &journal) else {
        return None;
    };
    let Ok(()) = journal.sync() else {
        return None;
    };
    let Ok(opened) = KeptHead::open(reading, journal, 4096) else {
        return None;
    };
    let oddities = opened.oddities;
    let is_plain = oddities.repeated_definitions == 0 && oddities.samples_without_series == 0;
    let mut kept = opened.kept;
    let before = Admit::total(&kept);
    let Some(last) = plan.requests.last() else {
        return None;
    };
    if Admit::admit(&mut kept, &last.body, &plan.capacity) != last.admission {
        return None;
    }
    Some((before, Admit::total(&kept), is_plain))
}

/// Returns whether a log has what is left of it with this floor.
fn is_row_right(alloc: Global, plan: &Plan, row: &Row) -> bool {
    let Some(mut journal) = after_three_lives(alloc, plan) else {
        return false;
    };
    match retire(alloc, &mut journal, row.0) {
        Ok(count) if count == row.1 => {
            open_and_ask(alloc, plan, journal) == Some((row.2, row.2.saturating_add(10), true))
        }
        _ => false,
    }
}

/// Returns the floor of the first row that is wrong.
fn first_wrong(alloc: Global) -> Option<i64> {
    let Ok(plan) = plan(alloc) else {
        return Some(0);
    };
    for row in &ROWS {
        if !is_row_right(alloc, &plan, row) {
            return Some(row.0);
        }
    }
    None
}

#[test]
fn old_segments_give_way_to_their_definitions(rt: HostRuntime) -> Result<(), Fail> {
    let wrong = first_wrong(rt.alloc());
    assert_eq!(rt; wrong, None);
    Ok(())
}

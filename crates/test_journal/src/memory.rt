//! What happens if memory runs out while a journal is opened or a request is answered. The test can
//! be run with each allocation failing in turn: the head is then as it was, and what a call did not
//! do is done when it is asked once more.

use crate::life::{Life, Wrong, live};
use crate::plan::{Plan, Row};
use rw_head::Admission;
use rw_kept_log::MemoryJournal;
use std::alloc::{AllocError, Global};
use std::test::Fail;

static ROWS: [Row; 3] = [
    (3, Admission::Answered(204)),
    (0, Admission::Answered(204)),
    (5, Admission::Answered(204)),
];

fn plan(alloc: Global) -> Result<Plan, AllocError> {
    let mut plan = Plan::new(alloc, 4, 1)?;
    plan.asks_again = true;
    plan.push_rows(alloc, &ROWS)?;
    Ok(plan)
}

/// Asks the requests, each in a life of its own, and in one more if memory ran out. Returns the
/// number of the first that is wrong, and why.
fn play(alloc: Global, plan: &Plan) -> Result<(), (usize, Wrong)> {
    let mut journal = MemoryJournal::new(alloc);
    let mut life = Life::whole(0, 1);
    for _ in 0..ROWS.len().saturating_add(1) {
        let (left, answered) = live(alloc, plan, journal, life);
        journal = left;
        let number = life.first;
        life = match answered {
            Ok(answered) if answered > number => {
                Life::whole(answered, answered.saturating_add(1).min(ROWS.len()))
            }
            Ok(_) => Life::torn(number, number.saturating_add(1)),
            Err(Wrong::OutOfMemory) => life,
            Err(wrong) => return Err((number, wrong)),
        };
    }
    if life.first == ROWS.len() {
        Ok(())
    } else {
        Err((life.first, Wrong::Count))
    }
}

/// Returns the number of the first request that is wrong, and why.
fn first_wrong(alloc: Global) -> Option<(usize, Wrong)> {
    let made = match plan(alloc) {
        Err(_) => plan(alloc),
        made => made,
    };
    match made {
        Ok(plan) => play(alloc, &plan).err(),
        Err(_) => Some((0, Wrong::OutOfMemory)),
    }
}

#[test]
fn refused_memory_changes_nothing(rt: HostRuntime) -> Result<(), Fail> {
    let wrong = first_wrong(rt.alloc());
    assert_eq!(rt; wrong, None);
    Ok(())
}

//! Messages of several pages, messages with which a next segment begins, and messages to a head
//! that is full.

use crate::life::{Life, Wrong, live};
use crate::plan::{Plan, Row};
use rw_head::{Admission, Capacity};
use rw_kept_log::{Journal, MemoryJournal};
use std::alloc::{AllocError, Global};
use std::test::Fail;

/// Requests to a head which holds at most `max_samples`, and whose segments have at most `pages`
/// pages; each new sample is of the next one of the series, whose names have about `width` bytes.
/// And how many segments the journal has after them: an empty one, which was there before, and
/// those that were begun.
struct Case {
    name: &'static str,
    pages: usize,
    series: usize,
    width: usize,
    max_samples: u64,
    rows: &'static [Row],
    segments: usize,
}

static CASES: [Case; 7] = [
    Case {
        name: "samples in several pages",
        pages: 4096,
        series: 4,
        width: 1,
        max_samples: u64::MAX,
        rows: &[
            (10_000, Admission::Answered(204)),
            (1, Admission::Answered(204)),
        ],
        segments: 2,
    },
    Case {
        name: "definitions in several pages",
        pages: 4096,
        series: 10,
        width: 8000,
        max_samples: u64::MAX,
        rows: &[(9, Admission::Answered(204)), (1, Admission::Answered(204))],
        segments: 2,
    },
    Case {
        name: "a message that has no room begins the next segment",
        pages: 1,
        series: 6,
        width: 8000,
        max_samples: u64::MAX,
        rows: &[
            (2, Admission::Answered(204)),
            (3, Admission::Answered(204)),
            (1, Admission::Answered(204)),
        ],
        segments: 3,
    },
    Case {
        name: "a message that has no room in an empty segment is refused, and later ones are not",
        pages: 1,
        series: 10,
        width: 8000,
        max_samples: u64::MAX,
        rows: &[
            (1, Admission::Answered(204)),
            (5, Admission::Answered(503)),
            (1, Admission::Answered(204)),
        ],
        segments: 3,
    },
    Case {
        name: "a message that has no room in any segment begins one, however often it comes",
        pages: 1,
        series: 10,
        width: 8000,
        max_samples: u64::MAX,
        rows: &[
            (1, Admission::Answered(204)),
            (5, Admission::Answered(503)),
            (5, Admission::Answered(503)),
            (5, Admission::Answered(503)),
            (1, Admission::Answered(204)),
        ],
        segments: 3,
    },
    Case {
        name: "a message without samples adds nothing",
        pages: 1,
        series: 1,
        width: 1,
        max_samples: u64::MAX,
        rows: &[(0, Admission::Answered(204)), (0, Admission::Answered(204))],
        segments: 2,
    },
    Case {
        name: "a full head takes what has room, and repeats",
        pages: 1,
        series: 4,
        width: 1,
        max_samples: 3,
        rows: &[
            (2, Admission::Answered(204)),
            (2, Admission::Full),
            (1, Admission::Answered(204)),
            (1, Admission::Full),
            (0, Admission::Answered(204)),
        ],
        segments: 2,
    },
];

fn plan_of(alloc: Global, case: &Case) -> Result<Plan, AllocError> {
    let mut plan = Plan::new(alloc, case.series, case.width)?;
    plan.pages = case.pages;
    plan.capacity = Capacity {
        max_samples: case.max_samples,
        max_series: 10,
    };
    plan.push_rows(alloc, case.rows)?;
    Ok(plan)
}

/// Asks the requests of a case, counts the segments, and opens the journal again.
fn play(alloc: Global, case: &Case) -> Result<(), Wrong> {
    let plan = plan_of(alloc, case)?;
    let end = plan.requests.len();
    let (journal, answered) = live(alloc, &plan, MemoryJournal::new(alloc), Life::whole(0, end));
    if answered? != end || journal.count() != case.segments {
        return Err(Wrong::Count);
    }
    let (_, answered) = live(alloc, &plan, journal, Life::whole(end, end));
    answered?;
    Ok(())
}

/// Returns the first case that is wrong, and why.
fn first_wrong(alloc: Global) -> Option<(&'static str, Wrong)> {
    for case in &CASES {
        if let Err(wrong) = play(alloc, case) {
            return Some((case.name, wrong));
        }
    }
    None
}

#[test]
fn segments_begin_with_messages_that_have_no_room(rt: HostRuntime) -> Result<(), Fail> {
    let wrong = first_wrong(rt.alloc());
    assert_eq!(rt; wrong, None);
    Ok(())
}

//! Heads with a capacity: which requests find them full, and what they hold after each.

use crate::messages::{DOWN, FALLING, Labels, Parts, UP, message, standard};
use crate::rows::{holds, none_is_wrong};
use rw_head::{Admission, Capacity, Head};
use rw_write_request::encode;
use std::alloc::Global;

const IDLE: Labels<'static> = &[("__name__", "idle")];

/// A request to a head with a capacity, and what becomes of it. The requests of a table come one
/// after the other to one head.
struct Row {
    name: &'static str,
    series: Parts<'static>,
    /// The most samples and the most series that the head may hold.
    limits: (u64, u64),
    is_full: bool,
    status: u16,
    /// How many samples and series the head holds then.
    held: (u64, usize),
}

static ROWS: [Row; 19] = [
    Row {
        name: "one sample to a head for none",
        series: &[(UP, &[(10, 1)])],
        limits: (0, 9),
        is_full: true,
        status: 503,
        held: (0, 0),
    },
    Row {
        name: "one series to a head for none",
        series: &[(UP, &[(10, 1)])],
        limits: (9, 0),
        is_full: true,
        status: 503,
        held: (0, 0),
    },
    Row {
        name: "no series",
        series: &[],
        limits: (0, 0),
        is_full: false,
        status: 204,
        held: (0, 0),
    },
    Row {
        name: "a series without samples",
        series: &[(UP, &[])],
        limits: (0, 0),
        is_full: false,
        status: 204,
        held: (0, 0),
    },
    Row {
        name: "up to both limits",
        series: &[(UP, &[(10, 1), (20, 2)]), (DOWN, &[(10, 3)])],
        limits: (3, 2),
        is_full: false,
        status: 204,
        held: (3, 2),
    },
    Row {
        name: "a repeat at both limits",
        series: &[(UP, &[(10, 1), (20, 2)]), (DOWN, &[(10, 3)])],
        limits: (3, 2),
        is_full: false,
        status: 204,
        held: (3, 2),
    },
    Row {
        name: "a repeat above both limits",
        series: &[(DOWN, &[(10, 3)]), (UP, &[(10, 1), (20, 2)])],
        limits: (1, 1),
        is_full: false,
        status: 204,
        held: (3, 2),
    },
    Row {
        name: "one sample above the limit",
        series: &[(UP, &[(30, 3)])],
        limits: (3, 2),
        is_full: true,
        status: 503,
        held: (3, 2),
    },
    Row {
        name: "a repeat and one sample above the limit",
        series: &[(DOWN, &[(10, 3)]), (UP, &[(20, 2), (30, 3)])],
        limits: (3, 2),
        is_full: true,
        status: 503,
        held: (3, 2),
    },
    Row {
        name: "two samples for the room of one",
        series: &[(UP, &[(30, 3)]), (DOWN, &[(20, 4)])],
        limits: (4, 2),
        is_full: true,
        status: 503,
        held: (3, 2),
    },
    Row {
        name: "repeats and one sample up to the limit",
        series: &[(DOWN, &[(10, 3)]), (UP, &[(10, 1), (20, 2), (30, 3)])],
        limits: (4, 2),
        is_full: false,
        status: 204,
        held: (4, 2),
    },
    Row {
        name: "one series above the limit",
        series: &[(IDLE, &[(10, 7)])],
        limits: (9, 2),
        is_full: true,
        status: 503,
        held: (4, 2),
    },
    Row {
        name: "a later sample and one series above the limit",
        series: &[(UP, &[(40, 4)]), (IDLE, &[(10, 7)])],
        limits: (9, 2),
        is_full: true,
        status: 503,
        held: (4, 2),
    },
    Row {
        name: "a later sample above the limit of series",
        series: &[(DOWN, &[(20, 4)])],
        limits: (9, 1),
        is_full: false,
        status: 204,
        held: (5, 2),
    },
    Row {
        name: "one series up to the limit, twice in one request",
        series: &[(IDLE, &[(10, 7)]), (IDLE, &[(10, 7)])],
        limits: (6, 3),
        is_full: false,
        status: 204,
        held: (6, 3),
    },
    Row {
        name: "a sample out of order to a full head",
        series: &[(UP, &[(35, 4)]), (UP, &[(5, 1)])],
        limits: (1, 1),
        is_full: false,
        status: 400,
        held: (6, 3),
    },
    Row {
        name: "labels that do not rise to a full head",
        series: &[(FALLING, &[(10, 1)])],
        limits: (1, 1),
        is_full: false,
        status: 400,
        held: (6, 3),
    },
    Row {
        name: "all that did not fit, at last",
        series: &[(UP, &[(40, 4), (50, 5)]), (DOWN, &[(30, 5)])],
        limits: (9, 3),
        is_full: false,
        status: 204,
        held: (9, 3),
    },
    Row {
        name: "no limits",
        series: &[(UP, &[(60, 6)]), (&[("__name__", "new")], &[(10, 8)])],
        limits: (u64::MAX, u64::MAX),
        is_full: false,
        status: 204,
        held: (11, 4),
    },
];

/// Returns the head, and whether it finds as `admit` does whether it is full when it stages the
/// body and aborts it.
fn stages(head: Head, body: &[u8], capacity: &Capacity, is_full: bool) -> (Head, bool) {
    match head.stage(body) {
        Ok(staged) => {
            let is_so = staged.exceeds(capacity) == is_full;
            (staged.abort(), is_so)
        }
        Err((head, status)) => (head, status == 400 && !is_full),
    }
}

/// Gives the body of a row to a head. Returns the head, and whether it did what the row says.
fn is_admitted(alloc: Global, head: Head, row: &Row) -> (Head, bool) {
    let Ok(message) = message(alloc, row.series) else {
        return (head, false);
    };
    let Ok(body) = encode(alloc, &message) else {
        return (head, false);
    };
    let capacity = Capacity {
        max_samples: row.limits.0,
        max_series: row.limits.1,
    };
    let (mut head, is_staged) = stages(head, &body, &capacity, row.is_full);
    let admission = head.admit(&body, &capacity);
    let is_full = admission == Admission::Full;
    let counts = head.total() == row.held.0 && head.places() == row.held.1;
    (
        head,
        is_staged && is_full == row.is_full && admission.status() == row.status && counts,
    )
}

/// Returns the first row that goes wrong.
fn wrong_row(alloc: Global) -> Option<&'static str> {
    let Ok(mut head) = standard(alloc) else {
        return Some("a head");
    };
    for row in &ROWS {
        let (next, is_right) = is_admitted(alloc, head, row);
        head = next;
        if !is_right {
            return Some(row.name);
        }
    }
    None
}

#[test]
fn a_head_holds_no_more_than_its_capacity(rt: HostRuntime) {
    none_is_wrong(&rt, wrong_row(rt.alloc()));
}

/// Returns whether a head with a capacity of 0 answers bytes that are not a message with 400, and a
/// head without limits is that of `Capacity::unlimited`.
fn judges_first(alloc: Global) -> bool {
    let Ok(mut head) = standard(alloc) else {
        return false;
    };
    let none = Capacity {
        max_samples: 0,
        max_series: 0,
    };
    let all = Capacity {
        max_samples: u64::MAX,
        max_series: u64::MAX,
    };
    head.admit(&[255], &none) == Admission::Answered(400) && Capacity::unlimited() == all
}

#[test]
fn a_full_head_judges_first(rt: HostRuntime) {
    holds(&rt, judges_first(rt.alloc()));
}

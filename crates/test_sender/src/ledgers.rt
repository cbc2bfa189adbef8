//! Dropped samples. The calls that take memory are made again if they fail, so each test can be run
//! with each allocation failing in turn: the failed call changes nothing.

use crate::rows::holds;
use rw_ledger::{Ledger, Reason};

/// A position, and why its sample was dropped.
type Name = (u64, Reason);

/// Names, in the order in which they are made.
static MADE: [Name; 4] = [
    (5, Reason::Status(400)),
    (9, Reason::NoSeries),
    (2, Reason::BadLabels(3)),
    (7, Reason::Status(404)),
];

/// The same in the order of their positions.
static SORTED: [Name; 4] = [
    (2, Reason::BadLabels(3)),
    (5, Reason::Status(400)),
    (7, Reason::Status(404)),
    (9, Reason::NoSeries),
];

/// Reserves room for `n` names, and returns whether a failed call, if there was one, changed
/// nothing.
fn add_room(ledger: &mut Ledger, n: usize) -> bool {
    let (left, total) = (ledger.left(), ledger.total());
    ledger.room(n).is_ok()
        || (ledger.left() == left && ledger.total() == total && ledger.room(n).is_ok())
}

/// Names a position, if there is room for it and it has no name.
fn add_name(ledger: &mut Ledger, pos: u64, reason: Reason) -> bool {
    if ledger.left() == 0 || ledger.get(pos).is_some() {
        return false;
    }
    ledger.name(pos, reason);
    true
}

fn add_names(ledger: &mut Ledger) -> bool {
    for (pos, reason) in MADE {
        if !add_name(ledger, pos, reason) {
            return false;
        }
    }
    true
}

/// Gives the room back that is left, if that is `n`.
fn give_back(ledger: &mut Ledger, n: usize) -> bool {
    if ledger.left() != n {
        return false;
    }
    ledger.give_back(n);
    ledger.left() == 0
}

/// Returns whether a position has this name, and the one after it none.
fn is_named(ledger: &Ledger, pos: u64, reason: Reason) -> bool {
    ledger.get(pos) == Some(reason) && ledger.get(pos.saturating_add(1)).is_none()
}

/// Returns whether these are all names in the ledger.
fn has_names(ledger: &Ledger) -> bool {
    for (pos, reason) in SORTED {
        if !is_named(ledger, pos, reason) {
            return false;
        }
    }
    ledger.total() == 4 && ledger.iter().eq(SORTED.iter())
}

/// Returns whether names can be made in room for five, and one of the five given back.
fn names_stand(ledger: &mut Ledger) -> bool {
    add_room(ledger, 3)
        && add_room(ledger, 2)
        && add_names(ledger)
        && give_back(ledger, 1)
        && has_names(ledger)
}

#[test]
fn names_stand_by_position(rt: HostRuntime) {
    holds(&rt, names_stand(&mut Ledger::new(rt.alloc())));
}

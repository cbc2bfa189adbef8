//! The files that are read of a listing, by rows.

use rw_log_folder::{Checkpoint, Listing, LogFile, NumberedName, OrderFault, log_order};
use std::alloc::{AllocError, Global};

/// A number and its digits.
type Written = (u64, usize);

/// The number of a checkpoint that a file is in, 0 for none, and the number and the digits of the
/// file.
type Read = (u64, u64, usize);

/// A listing and what is read of it.
struct Row {
    name: &'static str,
    segments: &'static [Written],
    checkpoints: &'static [(u64, &'static [Written])],
    /// `None` if this number is missing.
    missing: Option<u64>,
    read: &'static [Read],
}

static NO_CHECKPOINT: Row = Row {
    name: "no checkpoint",
    segments: &[(2, 8), (0, 8), (1, 8)],
    checkpoints: &[],
    missing: None,
    read: &[(0, 0, 8), (0, 1, 8), (0, 2, 8)],
};

static EMPTY: Row = Row {
    name: "an empty folder",
    segments: &[],
    checkpoints: &[],
    missing: None,
    read: &[],
};

static TWO_NAMES: Row = Row {
    name: "two names of one number, and a gap, without a checkpoint",
    segments: &[(3, 8), (1, 8), (1, 1)],
    checkpoints: &[],
    missing: None,
    read: &[(0, 1, 1), (0, 1, 8), (0, 3, 8)],
};

static CHECKPOINT: Row = Row {
    name: "a checkpoint of two segments",
    segments: &[(12, 8), (11, 8)],
    checkpoints: &[(10, &[(1, 8), (0, 8)])],
    missing: None,
    read: &[(10, 0, 8), (10, 1, 8), (0, 11, 8), (0, 12, 8)],
};

static KILLED: Row = Row {
    name: "segments up to the checkpoint are still there",
    segments: &[(8, 8), (9, 8), (10, 8), (11, 8)],
    checkpoints: &[(10, &[(0, 8)])],
    missing: None,
    read: &[(10, 0, 8), (0, 11, 8)],
};

static TWO_CHECKPOINTS: Row = Row {
    name: "two checkpoints",
    segments: &[(12, 8), (11, 8), (13, 8)],
    checkpoints: &[(12, &[(0, 8)]), (10, &[(0, 8), (1, 8)])],
    missing: None,
    read: &[(12, 0, 8), (0, 13, 8)],
};

static NOTHING_AFTER: Row = Row {
    name: "no segment after the checkpoint",
    segments: &[(3, 8)],
    checkpoints: &[(3, &[(0, 8)])],
    missing: None,
    read: &[(3, 0, 8)],
};

static FIRST_MISSING: Row = Row {
    name: "the first segment after the checkpoint is missing",
    segments: &[(5, 8), (6, 8)],
    checkpoints: &[(3, &[(0, 8)])],
    missing: Some(4),
    read: &[],
};

static LATER_MISSING: Row = Row {
    name: "two segments are missing, of which the least is reported",
    segments: &[(4, 8), (6, 8), (9, 8)],
    checkpoints: &[(3, &[(0, 8)])],
    missing: Some(5),
    read: &[],
};

static LONG_AGO: Row = Row {
    name: "a gap up to the checkpoint is no gap",
    segments: &[(0, 8), (2, 8), (4, 8)],
    checkpoints: &[(3, &[(0, 8)])],
    missing: None,
    read: &[(3, 0, 8), (0, 4, 8)],
};

fn names_of(alloc: Global, written: &[Written]) -> Result<Vec<NumberedName>, AllocError> {
    let mut names = Vec::with_capacity(alloc, written.len())?;
    for (number, digits) in written {
        names.push(NumberedName {
            number: *number,
            digits: *digits,
        })?;
    }
    Ok(names)
}

fn listing_of(alloc: Global, row: &Row) -> Result<Listing, AllocError> {
    let mut checkpoints = Vec::with_capacity(alloc, row.checkpoints.len())?;
    for (number, segments) in row.checkpoints {
        let name = NumberedName {
            number: *number,
            digits: 8,
        };
        let segments = names_of(alloc, segments)?;
        checkpoints.push(Checkpoint { name, segments })?;
    }
    Ok(Listing {
        segments: names_of(alloc, row.segments)?,
        checkpoints,
    })
}

fn is_read(place: &LogFile, wanted: &Read) -> bool {
    let checkpoint = match place.checkpoint {
        Some(name) => name.number,
        None => 0,
    };
    checkpoint == wanted.0 && place.segment.number == wanted.1 && place.segment.digits == wanted.2
}

fn are_read(places: &[LogFile], wanted: &[Read]) -> bool {
    if places.len() != wanted.len() {
        return false;
    }
    for (i, place) in places.iter().enumerate() {
        if !is_read(place, &wanted[i]) {
            return false;
        }
    }
    true
}

/// Returns whether the listing of a row is read as it says.
fn holds(alloc: Global, row: &Row) -> bool {
    let Ok(listing) = listing_of(alloc, row) else {
        return false;
    };
    match log_order(alloc, listing) {
        Ok(places) => row.missing.is_none() && are_read(&places, row.read),
        Err(OrderFault::Missing(number)) => row.missing == Some(number),
        Err(OrderFault::OutOfMemory) => false,
    }
}

/// Returns the first row that does not hold.
fn first_wrong(alloc: Global, rows: &[&'static Row]) -> Option<&'static str> {
    for row in rows {
        if !holds(alloc, row) {
            return Some(row.name);
        }
    }
    None
}

#[test]
fn all_segments_without_a_checkpoint(rt: HostRuntime) {
    let rows = [&NO_CHECKPOINT, &EMPTY, &TWO_NAMES];
    assert_eq!(rt; first_wrong(rt.alloc(), &rows), None);
}

#[test]
fn the_newest_checkpoint_and_what_is_after_it(rt: HostRuntime) {
    let rows = [
        &CHECKPOINT,
        &KILLED,
        &TWO_CHECKPOINTS,
        &NOTHING_AFTER,
        &LONG_AGO,
    ];
    assert_eq!(rt; first_wrong(rt.alloc(), &rows), None);
}

#[test]
fn the_least_number_that_is_missing(rt: HostRuntime) {
    let rows = [&FIRST_MISSING, &LATER_MISSING];
    assert_eq!(rt; first_wrong(rt.alloc(), &rows), None);
}

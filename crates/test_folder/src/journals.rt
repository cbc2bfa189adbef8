//! What a crash leaves of a journal in memory.

use rw_kept_log::{Journal, JournalError, MemoryJournal, write_in_pages};
use std::alloc::Global;
use std::test::Fail;

/// Bytes that were written to the last segment, in pages of four bytes, and what a crash puts in
/// place of what is not synced.
struct Row {
    name: &'static str,
    written: &'static [u8],
    unsynced: &'static [u8],
    torn: &'static [u8],
    left: &'static [u8],
}

static ROWS: [Row; 5] = [
    Row {
        name: "nothing was on its way",
        written: &[1, 2, 3, 4, 5],
        unsynced: &[],
        torn: &[9],
        left: &[1, 2, 3, 4, 5],
    },
    Row {
        name: "all that was on its way is lost",
        written: &[1, 2, 3, 4, 5],
        unsynced: &[6, 7],
        torn: &[],
        left: &[1, 2, 3, 4, 5],
    },
    Row {
        name: "other bytes are left in its place",
        written: &[1, 2],
        unsynced: &[3, 4],
        torn: &[0, 9],
        left: &[1, 2, 0, 9],
    },
    Row {
        name: "no more bytes are left than were written",
        written: &[1],
        unsynced: &[2],
        torn: &[8, 8, 8],
        left: &[1, 8],
    },
    Row {
        name: "an empty segment is torn from its first byte on",
        written: &[],
        unsynced: &[1, 2],
        torn: &[7],
        left: &[7],
    },
];

/// Returns the bytes of the last segment after a row's crash; the segment before it has one byte.
fn left_of(alloc: Global, row: &Row) -> Result<Vec<u8>, JournalError> {
    let mut journal = MemoryJournal::new(alloc);
    journal.append(&[255])?;
    journal.sync()?;
    journal.begin()?;
    write_in_pages(&mut journal, 4, 0, row.written)?;
    journal.append(row.unsynced)?;
    journal.crash(row.torn)?;
    Ok(journal.read(alloc, 1)?)
}

/// Returns the first row that does not hold.
fn first_wrong(alloc: Global) -> Result<Option<&'static str>, JournalError> {
    for row in &ROWS {
        if left_of(alloc, row)?.as_slice() != row.left {
            return Ok(Some(row.name));
        }
    }
    Ok(None)
}

#[test]
fn a_crash_leaves_what_was_synced(rt: HostRuntime) -> Result<(), Fail> {
    let wrong = first_wrong(rt.alloc());
    assert_eq!(rt; wrong, Ok(None));
    Ok(())
}

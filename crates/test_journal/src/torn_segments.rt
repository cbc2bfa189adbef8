//! Crashes while records are being written, each of which is opened.

use crate::entry_counter::{UP, reopen};
use rw_kept_log::{Journal, JournalError, MemoryJournal, ReopenError};
use std::alloc::Global;
use std::test::Fail;

/// Returns how many entries the first bytes of `UP` have.
fn entries_in(len: usize) -> u64 {
    if len < 29 {
        0
    } else if len < UP.len() {
        1
    } else {
        2
    }
}

/// A crash leaves this many of the bytes that were being written, and `junk` in place of the
/// others.
#[derive(Drop)]
struct Crash {
    synced: usize,
    left: usize,
    junk: &'static [u8],
}

impl Crash {
    /// Returns how many bytes of `UP` are in the log, also those that the junk has by chance.
    fn known_len(&self) -> usize {
        let mut len = self.left;
        for byte in self.junk {
            if len < UP.len() && *byte == UP[len] {
                len += 1;
            } else {
                return len;
            }
        }
        len
    }
}

/// Opens a log of two segments, `UP` and the torn part of another one that a crash left, and
/// returns how many entries the second one has.
fn entries_after(alloc: Global, crash: &Crash) -> Result<u64, ReopenError> {
    let synced = crash.synced.min(UP.len());
    let left = crash.left.max(synced).min(UP.len());
    let mut journal = MemoryJournal::new(alloc);
    journal.append(&UP)?;
    journal.sync()?;
    journal.begin()?;
    journal.append(&UP[..synced])?;
    journal.sync()?;
    journal.append(&UP[synced..])?;
    let mut torn = UP[synced..left].to_vec(alloc)?;
    torn.extend_from_slice(crash.junk)?;
    journal.crash(&torn)?;
    let (count, _) = reopen(alloc, &mut journal)?;
    let (again, _) = reopen(alloc, &mut journal)?;
    if again == count {
        Ok(count.saturating_sub(2))
    } else {
        Ok(u64::MAX)
    }
}

static SYNCED: [usize; 4] = [0, 7, 29, 40];

static JUNK: [&[u8]; 4] = [&[], &[0], &[9; 40], &[0; 40]];

/// Returns the first crash that is not opened with the entries of the bytes that it left: how many
/// bytes were synced, and how many were left.
fn first_wrong(alloc: Global) -> Result<Option<(usize, usize)>, ReopenError> {
    for synced in SYNCED {
        for left in synced..UP.len() {
            for junk in JUNK {
                let crash = Crash { synced, left, junk };
                if entries_after(alloc, &crash)? != entries_in(crash.known_len()) {
                    return Ok(Some((synced, left)));
                }
            }
        }
    }
    Ok(None)
}

#[test]
fn each_crash_is_opened(rt: HostRuntime) -> Result<(), Fail> {
    let wrong = first_wrong(rt.alloc());
    assert_eq!(rt; wrong, Ok(None));
    Ok(())
}

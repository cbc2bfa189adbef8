//! Writing page by page.

ghost use Rattle.std.specs.Prelude.{◌≡◌, ◌<◌, ◌≤◌, ◌+◌, ◌^◌, length, OnOk, IsErrOf};
ghost use Rattle.rw_kept_log.specs.Journal.{with_more, Only, LeavesOnly};
ghost use Rattle.rw_kept_log.specs.Torn.{left_at, IsTornLog};

use crate::journal::{Journal, JournalError};

/// Returns how many of the bytes that are left to write fit into the page of an offset.
fn part_len(page: usize, at: usize, left: usize) -> usize
    requires page { 0 < page }
    requires some { 0 < left }
    ensures page { result ≤ left_at page at }
    ensures within { result ≤ left }
    ensures some { 0 < result }
{
    let room = page - at % page;
    if left < room { left } else { room }
}

/// Appends bytes to the last segment, which has `offset` bytes, page by page, and syncs each page
/// before it begins the next one. So whatever a crash leaves of them ends within one page.
pub fn write_in_pages<J: Journal>(
    journal: &mut J,
    page: usize,
    offset: usize,
    bytes: &[u8],
) -> Result<(), JournalError>
    requires page { 0 < page }
    requires synced { Only (J.seen journal.old) (J.may_leave journal.old) }
    requires fits { offset + length bytes.now < 2 ^ 63 }

    ensures written { OnOk result
        (J.seen journal.new ≡ with_more (J.seen journal.old) bytes.now) }
    ensures synced { OnOk result (Only (J.seen journal.new) (J.may_leave journal.new)) }

    // A crash at any moment leaves what was there, and after it a torn part of the bytes.
    ensures any_moment { LeavesOnly J.moment J.left_since journal.old journal.new
        (IsTornLog J.tears page offset (J.seen journal.old) bytes.now) }

    // It does not give up by itself.
    ensures failed { IsErrOf result JournalError.Failed
        → J.faults journal.old < J.faults journal.new }
{
    let mut at = offset;
    let mut rest = bytes;
    while !rest.is_empty() {
        let len = part_len(page, at, rest.len());
        let (part, later) = rest.split_at(len);
        journal.append(part)?;
        journal.sync()?;
        at += len;
        rest = later;
    }
    Ok(())
}

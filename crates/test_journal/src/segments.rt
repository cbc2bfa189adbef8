//! The segments of a journal, read out and written again as a crash leaves them.

use rw_kept_log::{Journal, JournalError, MemoryJournal};
use std::alloc::Global;

/// The bytes of a page.
pub(crate) const PAGE: usize = 32 * 1024;

/// The segments of a journal.
pub(crate) fn texts_of(
    alloc: Global,
    journal: &MemoryJournal,
) -> Result<Vec<Vec<u8>>, JournalError> {
    let mut texts = Vec::new(alloc);
    for segment in 0..u64::MAX {
        if segment as usize >= journal.count() {
            break;
        }
        texts.push(journal.read(alloc, segment as usize)?)?;
    }
    Ok(texts)
}

/// A journal with these segments, whose last one a crash cut to this length, and junk after them
/// within the page.
pub(crate) fn torn_at(
    alloc: Global,
    texts: &[Vec<u8>],
    cut: usize,
    junk: &[u8],
) -> Result<MemoryJournal, JournalError> {
    let mut journal = MemoryJournal::new(alloc);
    let Some((last, earlier)) = texts.split_last() else {
        return Ok(journal);
    };
    for text in earlier {
        journal.sync()?;
        journal.append(text)?;
        journal.sync()?;
        journal.begin()?;
    }
    let cut = cut.min(last.len());
    let synced = cut - cut % PAGE;
    journal.sync()?;
    journal.append(&last[..synced])?;
    journal.sync()?;
    let end = last.len().min(synced.saturating_add(PAGE));
    journal.append(&last[synced..end])?;
    let mut torn = last[synced..cut].to_vec(alloc)?;
    torn.extend_from_slice(junk)?;
    journal.crash(&torn)?;
    Ok(journal)
}

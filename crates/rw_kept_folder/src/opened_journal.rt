//! Opens the journal in a folder.

ghost use Rattle.std.specs.Prelude.{◌≡◌, ◌++◌, [], ℕ, length, None, OnOk, IfOk};
ghost use Rattle.rw_kept_log.specs.Journal.{Segments, Only};
ghost use Rattle.rw_kept_folder.specs.Noted.{seen_of, MayLeave};
ghost use Rattle.rw_kept_folder.specs.inner.Loaded.{IsHeld, IsLoaded};

use crate::fault::{FailedCall, FolderCall, cause_of};
use crate::file_call::FileCall;
use crate::folder_error::FolderError;
use crate::folder_handle::FolderHandle;
use crate::folder_journal::FolderJournal;
use crate::folder_monitor::FolderMonitor;
use crate::open_folder::OpenFolder;
use crate::ownership::{FolderRules, claim_folder};
use crate::record::Record;
use rw_history::History;
use rw_kept_log::SegmentTaker;
use rw_log_folder::{SegmentName, segment_names};
use std::alloc::Global;
use std::fs::OpenFile;
use std::io::{ErrorKind, Read};
use std::path::Path;
use std::rt::Files;
use std::time::Clock;
use std::{fs, io};

/// Returns the error of a call on a segment.
fn error_of(call: FolderCall, segment: u64, error: &io::Error) -> FolderError {
    FolderError::Fault(FailedCall {
        call,
        segment,
        cause: cause_of(error),
    })
}

/// Checks that no number is missing between segments in order, and none is there twice.
fn check_numbers(names: &[SegmentName]) -> Result<(), FolderError> {
    let mut next = None;
    for name in names {
        match next {
            Some(next) if name.number < next => return Err(FolderError::Twice(name.number)),
            Some(next) if next < name.number => return Err(FolderError::Missing(next)),
            _ => next = Some(name.number.saturating_add(1)),
        }
    }
    Ok(())
}

/// Returns whether a folder has a name that begins as that of a checkpoint.
fn has_checkpoint<R: Files + AllocGlobal + Copy>(rt: &R, dir: &str) -> io::Result<bool> {
    for entry in fs::read_dir(rt, dir)? {
        match entry {
            Ok(entry) if entry.file_name().starts_with("checkpoint.") => return Ok(true),
            Ok(_) => {}
            // The name is not UTF-8.
            Err(error) if error.kind() == ErrorKind::InvalidFilename => {}
            Err(error) => return Err(error),
        }
    }
    Ok(false)
}

/// Returns the segments of a folder, in order.
fn list<R: Files + AllocGlobal + Copy>(rt: &R, dir: &str) -> Result<Vec<SegmentName>, FolderError> {
    match has_checkpoint(rt, dir) {
        Ok(false) => {}
        Ok(true) => return Err(FolderError::Checkpoint),
        Err(error) => return Err(FolderError::Unreadable(cause_of(&error))),
    }
    match segment_names(rt, dir) {
        Ok(names) => {
            check_numbers(&names)?;
            Ok(names)
        }
        Err(error) => Err(FolderError::Unreadable(cause_of(&error))),
    }
}

/// Returns the bytes of a file, and syncs it.
fn read_file<R: Files + AllocGlobal + Copy>(rt: &R, dir: &str, name: &str) -> io::Result<Vec<u8>> {
    let alloc = rt.alloc();
    let path = Path::new(dir).join(alloc, name)?;
    let mut file = fs::open(rt, path.as_path())?;
    let mut bytes = Vec::new(alloc);
    bytes.reserve(file.metadata()?.len() as usize)?;
    file.read_to_end(&mut bytes)?;
    file.sync_data()?;
    Ok(bytes)
}

/// Reads the segments, one after the other, and lets them be taken. Each is noted in a record as it
/// is read, and freed before the next one is; `last` has the last one at the end.
fn load_all<R: Files + AllocGlobal + Copy, T: SegmentTaker>(
    rt: &R,
    dir: &str,
    names: &[SegmentName],
    monitor: &FolderMonitor,
    taker: &mut T,
    last: &mut Option<Vec<u8>>,
    noted: &mut Record,
) -> Result<(), FolderError>
    requires nothing { noted.old.calls ≡ [] }
    requires none { last.old ≡ None }
    ensures loaded { OnOk result (IsLoaded (T.taken taker.old) (T.taken taker.new)
        noted.new.calls last.new (length names.now)) }
    ensures fixed { OnOk result (T.fixed taker.new ≡ T.fixed taker.old) }
{
    monitor.count_found(names.len());
    for name in names {
        *last = None;
        match read_file(rt, dir, name.name.as_str()) {
            Ok(text) => {
                noted.note(&FileCall::Load(History::of(&text)));
                taker.take(&text)?;
                monitor.count_read(text.len());
                *last = Some(text);
            }
            Err(error) => return Err(error_of(FolderCall::Read, name.number, &error)),
        }
    }
    Ok(())
}

/// Writes the last segment anew, since its bytes may be in the operating system's memory alone: a
/// copy is written, synced, renamed over it, and the folder synced.
fn write_last_anew<R: Files + Clock + AllocGlobal + Copy>(
    handle: &mut FolderHandle<R>,
    last: &Option<Vec<u8>>,
    noted: &mut Record,
) -> Result<(), FailedCall>
    ensures anew { OnOk result ((before after : Segments) (count : ℕ)
        → IsLoaded before after noted.old.calls last.now count
        → IsHeld before after noted.new count) }
{
    let Some(text) = last else {
        return Ok(());
    };
    handle.write_copy(text)?;
    noted.note(&FileCall::WriteCopy(History::of(text)));
    handle.sync_copy()?;
    noted.note(&FileCall::SyncCopy);
    handle.rename_copy()?;
    noted.note(&FileCall::RenameCopy);
    handle.sync_folder()?;
    noted.note(&FileCall::SyncFolder);
    Ok(())
}

/// Returns the number of the first segment: 0 if there is none, since the first one gets that.
fn first_number(names: &[SegmentName]) -> u64 {
    match names.first() {
        Some(first) => first.number,
        None => 0,
    }
}

/// Returns the number and the name of the last segment, if there is one.
fn last_name(names: &[SegmentName]) -> Option<(u64, &str)> {
    match names.last() {
        Some(last) => Some((last.number, last.name.as_str())),
        None => None,
    }
}

/// Opens the journal in a folder, which has to exist: reads its segments, one after the other, and
/// lets them be taken, and writes the last one anew, so that all of them are on the disk. Segments
/// are the files whose names are one to eight digits; other files are skipped. No more than one of
/// them is in memory at a time.
///
/// A folder in which a number is missing or is there twice, or which has a checkpoint, is refused,
/// and so is one that the rules do not let a receiver have. A folder that is taken gets a mark, the
/// file `rwship-receive`, which is synced before a segment is begun. The monitor counts the
/// segments that are read, the syncs that are made here, and the calls that the journal makes from
/// then on.
pub fn open_journal<R: Files + Clock + AllocGlobal + Copy, T: SegmentTaker>(
    rt: &R,
    dir: &str,
    rules: FolderRules,
    monitor: FolderMonitor,
    taker: &mut T,
) -> Result<FolderJournal<OpenFolder<R>>, FolderError>
    ensures synced { IfOk result (λ j. Only (seen_of j) (MayLeave j)) }

    // The journal has the segments that were taken, and no others.
    ensures taken { IfOk result (λ j. T.taken taker.new ≡ T.taken taker.old ++ seen_of j) }
    ensures fixed { OnOk result (T.fixed taker.new ≡ T.fixed taker.old) }
{
    let alloc = rt.alloc();
    let names = list(rt, dir)?;
    claim_folder(rt, dir, &names, rules)?;
    let mut last = None;
    let mut noted = Record::new();
    load_all(rt, dir, &names, &monitor, taker, &mut last, &mut noted)?;
    let first = first_number(&names);
    let dir = String::from_str(alloc, dir)?;
    let mut handle = FolderHandle::new(*rt, dir, last_name(&names), monitor)?;
    match write_last_anew(&mut handle, &last, &mut noted) {
        Ok(()) => Ok(FolderJournal::new(OpenFolder::new(handle, first, names.len(), noted))),
        Err(fault) => Err(FolderError::Fault(fault)),
    }
}

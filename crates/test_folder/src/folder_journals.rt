//! Journals in the files of a folder: which folders are refused, and why, and what is counted.

use crate::texts::{open_folder, read_folder};
use rw_kept_folder::{FaultCause, FolderError, FolderMonitor, FolderRules, refuse_running_server};
use rw_kept_log::{Journal, JournalError};
use rw_metrics::{KeptNumbers, ReceiveCounters};
use std::alloc::{AllocError, Global};
use std::path::{Path, PathBuf};
use std::sync::Arc;
use std::test::Fail;
use std::{env, fs};

/// Neither a folder that no receiver wrote nor one without its first segments is taken.
pub(crate) const STRICT: FolderRules = FolderRules {
    adopts: false,
    allows_missing_start: false,
};

/// Both are taken.
pub(crate) const LENIENT: FolderRules = FolderRules {
    adopts: true,
    allows_missing_start: true,
};

/// Makes a folder of this name that holds files, each with its text.
pub(crate) fn make_folder(
    rt: &HostRuntime,
    name: &str,
    files: &[(&str, &str)],
) -> Result<PathBuf, Fail> {
    let temp = env::temp_dir(rt)?;
    let dir = temp.as_path().join(rt.alloc(), name)?;
    let _ = fs::remove_dir_all(rt, dir.as_path());
    fs::create_dir(rt, dir.as_path())?;
    for (file, text) in files {
        fs::write(rt, dir.as_path().join(rt.alloc(), file)?, *text)?;
    }
    Ok(dir)
}

/// Files of a folder, and why it is refused.
struct Refused {
    name: &'static str,
    files: &'static [(&'static str, &'static str)],
    error: FolderError,
}

static REFUSED: [Refused; 4] = [
    Refused {
        name: "a checkpoint",
        files: &[("00000001", "a"), ("checkpoint.00000000", "")],
        error: FolderError::Checkpoint,
    },
    Refused {
        name: "a segment is missing",
        files: &[("00000001", "a"), ("00000003", "b")],
        error: FolderError::Missing(2),
    },
    Refused {
        name: "two names of one number",
        files: &[("00000001", "a"), ("1", "b")],
        error: FolderError::Twice(1),
    },
    Refused {
        name: "a number that is too long is no segment",
        files: &[("00000001", "a"), ("000000002", "b"), ("00000003", "c")],
        error: FolderError::Missing(2),
    },
];

/// Returns the first folder that is not refused as its row says.
fn first_not_refused(rt: &HostRuntime) -> Result<Option<&'static str>, Fail> {
    for row in &REFUSED {
        let dir = make_folder(rt, "rwship-a-refused-journal", row.files)?;
        let error = open_folder(rt, dir.as_path().as_str(), STRICT, FolderMonitor::none()).err();
        fs::remove_dir_all(rt, dir.as_path())?;
        if error != Some(row.error) {
            return Ok(Some(row.name));
        }
    }
    Ok(None)
}

#[test]
fn folders_that_are_no_journal_are_refused(rt: HostRuntime) -> Result<(), Fail> {
    assert_eq!(rt; first_not_refused(&rt)?, None);
    Ok(())
}

#[test]
fn a_folder_that_cannot_be_listed_says_why(rt: HostRuntime) -> Result<(), Fail> {
    let dir = make_folder(&rt, "rwship-an-unlisted-journal", &[("00000000", "a")])?;
    let file = dir.as_path().join(rt.alloc(), "00000000")?;
    let none = dir.as_path().join(rt.alloc(), "none")?;
    let of_file = open_folder(&rt, file.as_path().as_str(), STRICT, FolderMonitor::none()).err();
    let of_none = open_folder(&rt, none.as_path().as_str(), STRICT, FolderMonitor::none()).err();
    fs::remove_dir_all(&rt, dir.as_path())?;
    assert_eq!(rt;
        of_file,
        Some(FolderError::Unreadable(FaultCause::NotAFolder))
    );
    assert_eq!(rt;
        of_none,
        Some(FolderError::Unreadable(FaultCause::NotFound))
    );
    Ok(())
}

/// Makes a folder with a folder `wal` in it, and returns what is found of a server that writes to
/// the latter: without a file `lock`, while that is locked, and after that.
fn found_servers(rt: &HostRuntime) -> Result<[Option<FolderError>; 3], Fail> {
    let alloc = rt.alloc();
    let dir = make_folder(rt, "rwship-a-server", &[])?;
    let wal = dir.as_path().join(alloc, "wal")?;
    fs::create_dir(rt, wal.as_path())?;
    let without = refuse_running_server(rt, wal.as_path().as_str()).err();
    let lock = fs::create(rt, dir.as_path().join(alloc, "lock")?)?;
    lock.lock()?;
    let locked = refuse_running_server(rt, wal.as_path().as_str()).err();
    lock.unlock()?;
    let released = refuse_running_server(rt, wal.as_path().as_str()).err();
    fs::remove_dir_all(rt, dir.as_path())?;
    Ok([without, locked, released])
}

#[test]
fn the_log_of_a_running_server_is_refused(rt: HostRuntime) -> Result<(), Fail> {
    let found = found_servers(&rt)?;
    assert_eq!(rt; found, [None, Some(FolderError::ServerRuns), None]);
    Ok(())
}

#[test]
fn a_segment_has_the_number_of_its_name(rt: HostRuntime) -> Result<(), Fail> {
    let files = [("00000007", "a"), ("00000008", "b")];
    let dir = make_folder(&rt, "rwship-a-late-journal", &files)?;
    let journal = open_folder(&rt, dir.as_path().as_str(), LENIENT, FolderMonitor::none())?;
    let number = journal.files().number_of(1);
    fs::remove_dir_all(&rt, dir.as_path())?;
    assert_eq!(rt; number, 8);
    Ok(())
}

/// Returns 300,000 bytes.
fn long_bytes(alloc: Global) -> Result<Vec<u8>, AllocError> {
    let mut bytes = Vec::new(alloc);
    for k in 0..300_000_u32 {
        bytes.push((k % 251) as u8)?;
    }
    Ok(bytes)
}

/// Writes a segment of three bytes, and a last one that gets these bytes by two appends.
fn write_long(rt: &HostRuntime, dir: Path<'_>, bytes: &[u8]) -> Result<(), Fail> {
    let (front, rest) = bytes.split_at(bytes.len() / 2);
    let mut journal = open_folder(rt, dir.as_str(), STRICT, FolderMonitor::none())?;
    journal.begin()?;
    journal.append(b"abc")?;
    journal.sync()?;
    journal.begin()?;
    journal.append(front)?;
    journal.sync()?;
    journal.append(rest)?;
    journal.sync()?;
    Ok(())
}

/// Opens the folder, and returns whether it has two segments, which are read as `abc` and as these
/// bytes.
fn has_last(rt: &HostRuntime, dir: Path<'_>, bytes: &[u8]) -> Result<bool, Fail> {
    let (journal, texts) = read_folder(rt, dir.as_str(), STRICT, FolderMonitor::none())?;
    Ok(
        journal.count() == 2
            && texts.len() == 2
            && texts[0].as_slice() == b"abc".as_slice()
            && texts[1].as_slice() == bytes,
    )
}

/// No single read gives such a segment. If its end were not read, it would be taken for torn.
#[test]
fn a_long_segment_is_read_to_its_end(rt: HostRuntime) -> Result<(), Fail> {
    let bytes = long_bytes(rt.alloc())?;
    let dir = make_folder(&rt, "rwship-a-long-segment", &[])?;
    write_long(&rt, dir.as_path(), &bytes)?;
    let is_whole = has_last(&rt, dir.as_path(), &bytes)?;
    fs::remove_dir_all(&rt, dir.as_path())?;
    assert!(rt; is_whole);
    Ok(())
}

/// Begins a segment, appends three bytes and syncs them, and begins a segment whose file exists.
/// Returns whether that failed, and a sync after it.
fn write_until_a_fault(
    rt: &HostRuntime,
    dir: Path<'_>,
    monitor: FolderMonitor,
) -> Result<bool, Fail> {
    let mut journal = open_folder(rt, dir.as_str(), STRICT, monitor)?;
    journal.begin()?;
    journal.append(b"abc")?;
    journal.sync()?;
    fs::write(rt, dir.join(rt.alloc(), "00000001")?, "")?;
    let begun = journal.begin();
    Ok(begun == Err(JournalError::Failed) && journal.sync().is_err())
}

#[test]
fn a_journal_is_counted_up_to_its_fault(rt: HostRuntime) -> Result<(), Fail> {
    let alloc = rt.alloc();
    let counters = Arc::new(alloc, ReceiveCounters::of_kept_log(alloc)?)?;
    let monitor = FolderMonitor::new(Arc::try_clone(&counters)?);
    let dir = make_folder(&rt, "rwship-a-counted-journal", &[])?;
    let has_failed = write_until_a_fault(&rt, dir.as_path(), monitor)?;
    fs::remove_dir_all(&rt, dir.as_path())?;
    let counted = counters.numbers(alloc)?.kept;
    let sync_micros = counted.map_or(0, |numbers| numbers.sync_micros);
    let wanted = KeptNumbers {
        bytes: 3,
        syncs: 2,
        sync_micros,
        segments: 1,
        failed: 1,
        found: 0,
        read: 0,
        opening_bytes: 0,
    };
    assert!(rt; has_failed);
    assert_eq!(rt; counted, Some(wanted));
    Ok(())
}

/// Writes three bytes to a segment and syncs them, and again after something was done to the
/// folder. Returns why that failed.
fn cause_after(
    rt: &HostRuntime,
    dir: Path<'_>,
    change: Change,
) -> Result<Option<FaultCause>, Fail> {
    let mut journal = open_folder(rt, dir.as_str(), STRICT, FolderMonitor::none())?;
    journal.begin()?;
    journal.append(b"abc")?;
    journal.sync()?;
    change.make(rt, dir)?;
    let is_written = journal.append(b"def").is_ok() && journal.sync().is_ok();
    match journal.files().fault() {
        Some(fault) if !is_written => Ok(Some(fault.cause)),
        _ => Ok(None),
    }
}

/// What is done to a folder while a journal in it is open.
#[derive(Clone, Copy)]
enum Change {
    RemoveSegment,
    ReplaceSegment,
    RenameFolder,
    AddFile,
}

impl Change {
    fn make(&self, rt: &HostRuntime, dir: Path<'_>) -> Result<(), Fail> {
        let alloc = rt.alloc();
        let segment = dir.join(alloc, "00000000")?;
        let other = dir.join(alloc, "other")?;
        match self {
            Change::RemoveSegment => fs::remove_file(rt, segment.as_path())?,
            Change::ReplaceSegment => {
                fs::write(rt, other.as_path(), "abc")?;
                fs::rename(rt, other.as_path(), segment.as_path())?;
            }
            Change::RenameFolder => {
                let moved = format!(in alloc; "{}-moved", dir.as_str())?;
                let _ = fs::remove_dir_all(rt, moved.as_str());
                fs::rename(rt, dir, moved.as_str())?;
                fs::create_dir(rt, dir)?;
                fs::remove_dir_all(rt, moved.as_str())?;
            }
            Change::AddFile => fs::write(rt, other.as_path(), "abc")?,
        }
        Ok(())
    }
}

static CHANGES: [(&'static str, Change, Option<FaultCause>); 4] = [
    (
        "a removed segment",
        Change::RemoveSegment,
        Some(FaultCause::Removed),
    ),
    (
        "another file of its name",
        Change::ReplaceSegment,
        Some(FaultCause::Removed),
    ),
    (
        "another folder of its name",
        Change::RenameFolder,
        Some(FaultCause::Removed),
    ),
    ("one more file", Change::AddFile, None),
];

/// Returns the first change that is not noticed as its row says.
fn first_not_noticed(rt: &HostRuntime) -> Result<Option<&'static str>, Fail> {
    for row in &CHANGES {
        let dir = make_folder(rt, "rwship-a-changed-journal", &[])?;
        let cause = cause_after(rt, dir.as_path(), row.1)?;
        fs::remove_dir_all(rt, dir.as_path())?;
        if cause != row.2 {
            return Ok(Some(row.0));
        }
    }
    Ok(None)
}

#[test]
fn a_segment_that_is_gone_is_a_failed_write(rt: HostRuntime) -> Result<(), Fail> {
    assert_eq!(rt; first_not_noticed(&rt)?, None);
    Ok(())
}

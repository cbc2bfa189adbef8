//! In which folders a journal is opened by the rules of a receiver, and how it marks them.

use crate::failing_files::{Countdown, FailingFiles};
use crate::folder_journals::{LENIENT, STRICT, make_folder};
use crate::texts::open_folder;
use rw_kept_folder::{FaultCause, FolderError, FolderMonitor, FolderRules};
use rw_kept_log::Journal;
use std::fs;
use std::path::{Path, PathBuf};
use std::rt::Files;
use std::test::Fail;
use std::time::Clock;

/// What the mark of a folder says.
const MARK: &str = "'rwship receive --dir' writes the log in this folder.\n";

const ADOPTS: FolderRules = FolderRules {
    adopts: true,
    allows_missing_start: false,
};

const ALLOWS: FolderRules = FolderRules {
    adopts: false,
    allows_missing_start: true,
};

/// A folder `wal` with these files in a folder with others, the rules, and why it is refused.
struct Row {
    name: &'static str,
    above: &'static [(&'static str, &'static str)],
    files: &'static [(&'static str, &'static str)],
    rules: FolderRules,
    error: Option<FolderError>,
}

static ROWS: [Row; 15] = [
    Row {
        name: "an empty folder",
        above: &[],
        files: &[],
        rules: STRICT,
        error: None,
    },
    Row {
        name: "other files beside it and in it",
        above: &[("chunks", ""), ("lock", "")],
        files: &[("torn-00000000", "a"), ("x", "b")],
        rules: STRICT,
        error: None,
    },
    Row {
        name: "a segment without a mark",
        above: &[],
        files: &[("00000000", "a")],
        rules: STRICT,
        error: Some(FolderError::NotReceived),
    },
    Row {
        name: "it is adopted",
        above: &[],
        files: &[("00000000", "a")],
        rules: ADOPTS,
        error: None,
    },
    Row {
        name: "a segment and a mark",
        above: &[],
        files: &[("00000000", "a"), ("rwship-receive", MARK)],
        rules: STRICT,
        error: None,
    },
    Row {
        name: "chunks of a server",
        above: &[("chunks_head", "")],
        files: &[],
        rules: STRICT,
        error: Some(FolderError::BesideServer),
    },
    Row {
        name: "queries of a server, and a mark",
        above: &[("queries.active", "")],
        files: &[("00000000", "a"), ("rwship-receive", MARK)],
        rules: ALLOWS,
        error: Some(FolderError::BesideServer),
    },
    Row {
        name: "the folder of a server is adopted",
        above: &[("chunks_head", ""), ("queries.active", "")],
        files: &[("00000000", "a")],
        rules: ADOPTS,
        error: None,
    },
    Row {
        name: "the first segment is missing",
        above: &[],
        files: &[("00000001", "a"), ("rwship-receive", MARK)],
        rules: STRICT,
        error: Some(FolderError::StartMissing(0)),
    },
    Row {
        name: "it is adopted, but not without its first segments",
        above: &[],
        files: &[("00000003", "a"), ("00000004", "b")],
        rules: ADOPTS,
        error: Some(FolderError::StartMissing(2)),
    },
    Row {
        name: "the first segments may be missing",
        above: &[],
        files: &[("00000003", "a"), ("rwship-receive", MARK)],
        rules: ALLOWS,
        error: None,
    },
    Row {
        name: "they may be missing, but it is not adopted",
        above: &[],
        files: &[("00000003", "a")],
        rules: ALLOWS,
        error: Some(FolderError::NotReceived),
    },
    Row {
        name: "it is adopted without its first segments",
        above: &[],
        files: &[("00000003", "a")],
        rules: LENIENT,
        error: None,
    },
    Row {
        name: "a gap is always refused",
        above: &[],
        files: &[("00000000", "a"), ("00000002", "b")],
        rules: LENIENT,
        error: Some(FolderError::Missing(1)),
    },
    Row {
        name: "a checkpoint is always refused",
        above: &[],
        files: &[("00000000", "a"), ("checkpoint.00000000", "")],
        rules: LENIENT,
        error: Some(FolderError::Checkpoint),
    },
];

/// Makes the folder of a row, and returns the one that it is in.
fn make_wal(rt: &HostRuntime, row: &Row) -> Result<PathBuf, Fail> {
    let alloc = rt.alloc();
    let dir = make_folder(rt, "rwship-an-owner", row.above)?;
    let wal = dir.as_path().join(alloc, "wal")?;
    fs::create_dir(rt, wal.as_path())?;
    for (file, text) in row.files {
        fs::write(rt, wal.as_path().join(alloc, file)?, *text)?;
    }
    Ok(dir)
}

/// Returns whether a folder has a mark that says what it is to say.
fn is_marked(rt: &HostRuntime, dir: Path<'_>) -> Result<bool, Fail> {
    match fs::read(rt, dir.join(rt.alloc(), "rwship-receive")?) {
        Ok(text) => Ok(text.as_slice() == MARK.as_bytes()),
        Err(_) => Ok(false),
    }
}

/// Returns whether the folder of a row is taken and marked, or refused as the row says. One that is
/// refused gets no mark.
fn does(rt: &HostRuntime, row: &Row) -> Result<bool, Fail> {
    let dir = make_wal(rt, row)?;
    let wal = dir.as_path().join(rt.alloc(), "wal")?;
    let had_mark = is_marked(rt, wal.as_path())?;
    let name = wal.as_path().as_str();
    let error = open_folder(rt, name, row.rules, FolderMonitor::none()).err();
    let has_mark = is_marked(rt, wal.as_path())?;
    fs::remove_dir_all(rt, dir.as_path())?;
    Ok(error == row.error && has_mark == (had_mark || error.is_none()))
}

/// Returns the name of the first row that differs.
fn wrong_row(rt: &HostRuntime) -> Result<Option<&'static str>, Fail> {
    for row in &ROWS {
        if !does(rt, row)? {
            return Ok(Some(row.name));
        }
    }
    Ok(None)
}

#[test]
fn a_folder_of_somebody_else_is_refused(rt: HostRuntime) -> Result<(), Fail> {
    assert_eq!(rt; wrong_row(&rt)?, None);
    Ok(())
}

static TEXTS: [(FolderError, &'static str); 6] = [
    (
        FolderError::NotReceived,
        "it has segments that no receiver wrote; give --adopt to go on there, or choose another folder",
    ),
    (
        FolderError::BesideServer,
        "the folder above it has 'chunks_head' or 'queries.active', as that of a Prometheus has; choose another folder, or give --adopt if no Prometheus writes there",
    ),
    (
        FolderError::OwnerUnknown(FaultCause::NoPermission),
        "cannot see whether a receiver writes there, or a Prometheus: permission denied; permit reading it and the folder above it, or choose another folder",
    ),
    (
        FolderError::Unmarked(FaultCause::DiskFull),
        "cannot write the file 'rwship-receive' there: no space left on the device",
    ),
    (
        FolderError::StartMissing(0),
        "segment 0 is missing; copy what is missing there, or give --allow-missing-start to go on without the samples whose labels only that has",
    ),
    (
        FolderError::StartMissing(2),
        "segments 0 to 2 are missing; copy what is missing there, or give --allow-missing-start to go on without the samples whose labels only that has",
    ),
];

/// Returns whether an error has this text.
fn says(rt: &HostRuntime, error: FolderError, text: &str) -> Result<bool, Fail> {
    let said = format!(in rt.alloc(); "{error}")?;
    Ok(said.as_str() == text)
}

/// Returns the first text that an error does not have.
fn wrong_text(rt: &HostRuntime) -> Result<Option<&'static str>, Fail> {
    for row in &TEXTS {
        if !says(rt, row.0, row.1)? {
            return Ok(Some(row.1));
        }
    }
    Ok(None)
}

#[test]
fn a_refusal_says_what_to_do(rt: HostRuntime) -> Result<(), Fail> {
    assert_eq!(rt; wrong_text(&rt)?, None);
    Ok(())
}

/// Opens a folder and begins its first segment. Returns why it is refused, if it is, and otherwise
/// `Ok` with whether the segment has begun.
fn open_and_begin<R: Files + Clock + AllocGlobal + Copy>(
    rt: &R,
    dir: &str,
) -> Result<bool, FolderError> {
    let mut journal = open_folder(rt, dir, STRICT, FolderMonitor::none())?;
    Ok(journal.begin().is_ok())
}

/// How often each error came while the calls on a new folder failed in turn.
#[derive(Clone, Copy, Debug, PartialEq, Eq)]
struct Errors {
    unreadable: u64,
    unknown: u64,
    unmarked: u64,
    not_begun: u64,
}

impl Errors {
    /// Counts how it ended. Returns whether it ended so because the disk was full.
    fn count(&mut self, end: Result<bool, FolderError>) -> bool {
        let count = match end {
            Err(FolderError::Unreadable(FaultCause::DiskFull)) => &mut self.unreadable,
            Err(FolderError::OwnerUnknown(FaultCause::DiskFull)) => &mut self.unknown,
            Err(FolderError::Unmarked(FaultCause::DiskFull)) => &mut self.unmarked,
            Ok(false) => &mut self.not_begun,
            _ => return false,
        };
        *count = count.saturating_add(1);
        true
    }
}

/// Has the device fail at one call. Returns how it ends, and whether a segment is there without the
/// whole mark.
fn fail_one_call(
    rt: &HostRuntime,
    countdown: &Countdown,
) -> Result<(Result<bool, FolderError>, bool), Fail> {
    let dir = make_folder(rt, "rwship-a-failing-mark", &[])?;
    let failing = FailingFiles { rt: *rt, countdown };
    let end = open_and_begin(&failing, dir.as_path().as_str());
    let segment = dir.as_path().join(rt.alloc(), "00000000")?;
    let has_segment = fs::metadata(rt, segment.as_path()).is_ok();
    let is_early = has_segment && !is_marked(rt, dir.as_path())?;
    fs::remove_dir_all(rt, dir.as_path())?;
    Ok((end, is_early))
}

/// Has each call of the device fail in turn. Returns how often each error came, or `None` if one of
/// them is passed over or a segment is begun before the mark.
fn count_errors(rt: &HostRuntime) -> Result<Option<Errors>, Fail> {
    let mut errors = Errors {
        unreadable: 0,
        unknown: 0,
        unmarked: 0,
        not_begun: 0,
    };
    for call in 0..1000u64 {
        let countdown = Countdown::new(call);
        let (end, is_early) = fail_one_call(rt, &countdown)?;
        if end == Ok(true) && !countdown.has_failed() {
            return Ok(Some(errors));
        }
        if is_early || !countdown.has_failed() || !errors.count(end) {
            return Ok(None);
        }
    }
    Ok(None)
}

/// The folder is listed twice. Two files of a server and the mark are looked for. The mark is
/// created, written a byte at a time and synced; the folder is opened and synced. Then the segment
/// is created, and the folder opened and synced.
#[test]
fn a_segment_is_begun_once_the_mark_is_synced(rt: HostRuntime) -> Result<(), Fail> {
    let wanted = Errors {
        unreadable: 2,
        unknown: 3,
        unmarked: 1 + 54 + 1 + 2,
        not_begun: 3,
    };
    assert_eq!(rt; count_errors(&rt)?, Some(wanted));
    Ok(())
}

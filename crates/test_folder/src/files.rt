//! The files that are read of folders, by rows. Each file holds its own path in the folder and a
//! space.

use rw_follow::{Ahead, Segments};
use rw_log_folder::{Folder, FolderFault, Gap, Opened, SegmentFile, log_files, segment_files};
use rw_metrics::SendCounters;
use rw_types::read_to_end;
use std::alloc::{AllocError, Global};
use std::os::unix::fs::symlink;
use std::path::{Path, PathBuf};
use std::sync::Arc;
use std::test::Fail;
use std::{env, fs};

/// A folder and what is read of it.
struct Row {
    name: &'static str,
    folders: &'static [&'static str],
    files: &'static [&'static str],
    /// What the files that are read hold, and the number of the segment that is missing.
    text: &'static str,
    missing: Option<u64>,
}

static ROWS: [Row; 9] = [
    Row {
        name: "no checkpoint",
        folders: &[],
        files: &["00000001", "00000000", "x"],
        text: "00000000 00000001 ",
        missing: None,
    },
    Row {
        name: "a checkpoint",
        folders: &["checkpoint.00000003"],
        files: &[
            "checkpoint.00000003/00000001",
            "checkpoint.00000003/00000000",
            "00000005",
            "00000004",
        ],
        text: "checkpoint.00000003/00000000 checkpoint.00000003/00000001 00000004 00000005 ",
        missing: None,
    },
    Row {
        name: "an unfinished checkpoint is passed over",
        folders: &["checkpoint.00000003", "checkpoint.00000004.tmp"],
        files: &[
            "checkpoint.00000003/00000000",
            "checkpoint.00000004.tmp/00000000",
            "00000004",
        ],
        text: "checkpoint.00000003/00000000 00000004 ",
        missing: None,
    },
    Row {
        name: "segments up to the checkpoint are passed over",
        folders: &["checkpoint.00000003"],
        files: &[
            "00000002",
            "00000003",
            "checkpoint.00000003/00000000",
            "00000004",
        ],
        text: "checkpoint.00000003/00000000 00000004 ",
        missing: None,
    },
    Row {
        name: "of two checkpoints the newer one counts",
        folders: &["checkpoint.00000003", "checkpoint.00000011"],
        files: &[
            "checkpoint.00000003/00000000",
            "checkpoint.00000011/00000000",
            "00000011",
            "00000012",
        ],
        text: "checkpoint.00000011/00000000 00000012 ",
        missing: None,
    },
    Row {
        name: "nothing after the checkpoint",
        folders: &["checkpoint.00000003"],
        files: &["checkpoint.00000003/00000000"],
        text: "checkpoint.00000003/00000000 ",
        missing: None,
    },
    Row {
        name: "old segments, and none after the checkpoint",
        folders: &["checkpoint.00000003"],
        files: &["00000002", "00000003", "checkpoint.00000003/00000000"],
        text: "checkpoint.00000003/00000000 ",
        missing: None,
    },
    Row {
        name: "a gap after the checkpoint",
        folders: &["checkpoint.00000003"],
        files: &["checkpoint.00000003/00000000", "00000005"],
        text: "",
        missing: Some(4),
    },
    Row {
        name: "a short name keeps its digits",
        folders: &["checkpoint.3"],
        files: &["checkpoint.3/0", "checkpoint.3/007", "4"],
        text: "checkpoint.3/0 checkpoint.3/007 4 ",
        missing: None,
    },
];

/// Makes a folder of this name that holds what a row says.
fn make_folder(rt: &HostRuntime, name: &str, row: &Row) -> Result<PathBuf, Fail> {
    let temp = env::temp_dir(rt)?;
    let dir = temp.as_path().join(rt.alloc(), name)?;
    let _ = fs::remove_dir_all(rt, dir.as_path());
    fs::create_dir(rt, dir.as_path())?;
    for folder in row.folders {
        fs::create_dir(rt, dir.as_path().join(rt.alloc(), folder)?.as_path())?;
    }
    for file in row.files {
        let text = format!(in rt.alloc(); "{file} ")?;
        fs::write(rt, dir.as_path().join(rt.alloc(), file)?, text)?;
    }
    Ok(dir)
}

/// Appends what files hold. Returns whether all could be read.
fn read_all(
    rt: &HostRuntime,
    files: Vec<Opened<SegmentFile<HostRuntime>>>,
    text: &mut Vec<u8>,
) -> bool {
    for file in files {
        let mut file = file;
        if read_to_end(rt.alloc(), &mut file, text).is_err() {
            return false;
        }
    }
    true
}

/// Returns whether the log in a folder is read as a row says. The folder is removed once it was
/// opened, if that is asked for.
fn is_read(rt: &HostRuntime, dir: Path<'_>, row: &Row, goes: bool) -> Result<bool, AllocError> {
    let listed = log_files(rt, dir.as_str(), None);
    if goes {
        let _ = fs::remove_dir_all(rt, dir);
    }
    let mut text = Vec::new(rt.alloc());
    match listed {
        Ok(files) => {
            let is_whole = read_all(rt, files, &mut text);
            Ok(is_whole && row.missing.is_none() && text.as_slice() == row.text.as_bytes())
        }
        Err(FolderFault::Missing(number)) => Ok(row.missing == Some(number)),
        Err(FolderFault::OutOfMemory) => Err(AllocError),
        Err(_) => Ok(false),
    }
}

/// Goes to what comes after a segment of which nothing was left. Returns `None` if the folder goes
/// on, and else the number that is missing, if one is; `Err` if the folder cannot be read.
fn go_on(folder: &mut Folder<HostRuntime>, text: &mut Vec<u8>) -> Result<Option<Option<u64>>, ()> {
    match folder.look() {
        Ok(Ahead::Segment) => {}
        Ok(Ahead::Missing(number)) => return Ok(Some(Some(number))),
        Ok(Ahead::Nothing) => return Ok(Some(None)),
        Err(_) => return Err(()),
    }
    // Something may have been added to the segment before the next one was seen.
    let mut buf = [0u8; 64];
    let is_well = match folder.read(&mut buf) {
        Ok(0) => folder.advance().is_ok(),
        Ok(count) => text.extend_from_slice(&buf[..count]).is_ok(),
        Err(_) => false,
    };
    if is_well { Ok(None) } else { Err(()) }
}

/// Follows a folder to its end. Returns the number that is missing, or `Err` if the folder cannot
/// be read.
fn follow(folder: &mut Folder<HostRuntime>, text: &mut Vec<u8>) -> Result<Option<u64>, ()> {
    let mut buf = [0u8; 64];
    for _ in 0..100 {
        let Ok(count) = folder.read(&mut buf) else {
            return Err(());
        };
        if count > 0 {
            if text.extend_from_slice(&buf[..count]).is_err() {
                return Err(());
            }
            continue;
        }
        if let Some(end) = go_on(folder, text)? {
            return Ok(end);
        }
    }
    Err(())
}

/// Returns whether the log in a folder is followed as a row says.
fn is_followed(rt: &HostRuntime, dir: Path<'_>, row: &Row) -> Result<bool, AllocError> {
    let alloc = rt.alloc();
    let counters = Arc::new(alloc, SendCounters::new(alloc)?)?;
    let path = String::from_str(alloc, dir.as_str())?;
    let mut folder = Folder::from_checkpoint(*rt, path, counters);
    let mut text = Vec::new(alloc);
    let missing = follow(&mut folder, &mut text);
    Ok(missing == Ok(row.missing) && text.as_slice() == row.text.as_bytes())
}

/// Returns the first row that does not hold, over folders that begin with this name.
fn first_wrong(rt: &HostRuntime, name: &str) -> Result<Option<&'static str>, Fail> {
    for row in &ROWS {
        let dir = make_folder(rt, name, row)?;
        let is_so = is_read(rt, dir.as_path(), row, false)? && is_followed(rt, dir.as_path(), row)?;
        fs::remove_dir_all(rt, dir.as_path())?;
        if !is_so {
            return Ok(Some(row.name));
        }
    }
    Ok(None)
}

#[test]
fn folders_are_read_from_their_newest_checkpoint_on(rt: HostRuntime) -> Result<(), Fail> {
    assert_eq!(rt; first_wrong(&rt, "rwship-folders-from-a-checkpoint")?, None);
    Ok(())
}

/// The folder is removed: what was open can be read, and the second segment after the checkpoint
/// was not open.
static GOES: Row = Row {
    name: "a checkpoint that is removed once it is open",
    folders: &["checkpoint.00000003"],
    files: &[
        "checkpoint.00000003/00000000",
        "checkpoint.00000003/00000001",
        "00000004",
    ],
    text: "checkpoint.00000003/00000000 checkpoint.00000003/00000001 00000004 ",
    missing: None,
};

#[test]
fn a_checkpoint_that_goes_is_read_to_its_end(rt: HostRuntime) -> Result<(), Fail> {
    let dir = make_folder(&rt, "rwship-a-checkpoint-that-goes", &GOES)?;
    let is_so = is_read(&rt, dir.as_path(), &GOES, true)?;
    assert!(rt; is_so);
    Ok(())
}

/// A file that has the name of a checkpoint cannot be listed.
static NO_FOLDER: Row = Row {
    name: "a checkpoint that is no folder",
    folders: &[],
    files: &["checkpoint.00000003", "00000004"],
    text: "",
    missing: None,
};

/// Returns whether the folder of a log cannot be listed or, if a name is given, the file of this
/// name in it cannot be opened.
fn is_fault(rt: &HostRuntime, dir: &str, closed: Option<&str>) -> bool {
    match (log_files(rt, dir, None), closed) {
        (Err(FolderFault::Unreadable), None) => true,
        (Err(FolderFault::Closed(name)), Some(closed)) => name.as_str() == closed,
        _ => false,
    }
}

/// Returns whether following the log in a folder fails, at the file of this name if one is given.
fn is_unreadable(rt: &HostRuntime, dir: &str, unread: Option<&str>) -> Result<bool, AllocError> {
    let alloc = rt.alloc();
    let mut text = Vec::new(alloc);
    let counters = Arc::new(alloc, SendCounters::new(alloc)?)?;
    let mut folder = Folder::from_checkpoint(*rt, String::from_str(alloc, dir)?, counters);
    let is_err = follow(&mut folder, &mut text).is_err();
    Ok(match (folder.into_unread(), unread) {
        (Some(name), Some(unread)) => is_err && name.as_str() == unread,
        (None, None) => is_err,
        _ => false,
    })
}

#[test]
fn what_cannot_be_read_is_no_empty_log(rt: HostRuntime) -> Result<(), Fail> {
    let dir = make_folder(&rt, "rwship-a-checkpoint-that-is-no-folder", &NO_FOLDER)?;
    let is_so = is_unreadable(&rt, dir.as_str(), None)?
        && is_unreadable(&rt, "/no such folder", None)?;
    let is_reported = is_fault(&rt, dir.as_str(), None) && is_fault(&rt, "/no such folder", None);
    fs::remove_dir_all(&rt, dir.as_path())?;
    assert!(rt; is_so && is_reported);
    Ok(())
}

/// The file of its checkpoint is added as a link to a file that does not exist.
static GONE: Row = Row {
    name: "a file that is listed and gone before it is opened",
    folders: &["checkpoint.00000003"],
    files: &["00000004"],
    text: "",
    missing: None,
};

#[test]
fn a_checkpoint_that_goes_before_it_is_opened_is_a_fault(rt: HostRuntime) -> Result<(), Fail> {
    let dir = make_folder(&rt, "rwship-a-checkpoint-that-has-gone", &GONE)?;
    let file = dir
        .as_path()
        .join(rt.alloc(), "checkpoint.00000003/00000000")?;
    symlink(&rt, "nowhere", file.as_path())?;
    let unread = Some("checkpoint.00000003/00000000");
    let is_so = is_unreadable(&rt, dir.as_str(), unread)?;
    let is_reported = is_fault(&rt, dir.as_str(), unread);
    fs::remove_dir_all(&rt, dir.as_path())?;
    assert!(rt; is_so && is_reported);
    Ok(())
}

/// A folder can be opened as a file is, and its first read fails.
static NO_FILE: Row = Row {
    name: "a segment that is a folder",
    folders: &["00000004"],
    files: &[],
    text: "",
    missing: None,
};

#[test]
fn a_segment_that_is_a_folder_is_named(rt: HostRuntime) -> Result<(), Fail> {
    let dir = make_folder(&rt, "rwship-a-segment-that-is-a-folder", &NO_FILE)?;
    let is_so = is_unreadable(&rt, dir.as_str(), Some("00000004"))?;
    fs::remove_dir_all(&rt, dir.as_path())?;
    assert!(rt; is_so);
    Ok(())
}

/// Its segments, in order, are 2 twice, 3, 5 and 10.
static GAPS: Row = Row {
    name: "segments are missing between others",
    folders: &[],
    files: &["00000010", "2", "00000005", "00000002", "00000003"],
    text: "",
    missing: None,
};

/// The segments that are missing before the second file and each later one.
static GAPS_BEFORE: [Option<Gap>; 4] = [
    None,
    None,
    Some(Gap { first: 4, last: 4 }),
    Some(Gap { first: 6, last: 9 }),
];

/// Returns whether the segments that are missing in a folder are those of `GAPS_BEFORE`.
fn has_gaps(rt: &HostRuntime, dir: &str) -> bool {
    let Ok(files) = segment_files(rt, dir, None) else {
        return false;
    };
    if files.len() != 5 {
        return false;
    }
    for at in 1..5 {
        if files[at - 1].place().gap_before(files[at].place()) != GAPS_BEFORE[at - 1] {
            return false;
        }
    }
    true
}

#[test]
fn missing_segments_are_named(rt: HostRuntime) -> Result<(), Fail> {
    let dir = make_folder(&rt, "rwship-missing-segments", &GAPS)?;
    let is_so = has_gaps(&rt, dir.as_str());
    fs::remove_dir_all(&rt, dir.as_path())?;
    assert!(rt; is_so);
    Ok(())
}

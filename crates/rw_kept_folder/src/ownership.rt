//! Finds out whose log a folder has, and marks it as that of a receiver.

use crate::fault::cause_of;
use crate::folder_error::FolderError;
use rw_log_folder::SegmentName;
use std::fs::OpenFile;
use std::io::{ErrorKind, Write};
use std::path::Path;
use std::rt::Files;
use std::{fs, io};

/// In which folders a receiver goes on.
#[derive(Clone, Copy)]
pub struct FolderRules {
    /// Whether it goes on after segments that no receiver wrote, and beside the files of a server.
    pub adopts: bool,
    /// Whether it goes on if the first segments are missing.
    pub allows_missing_start: bool,
}

/// The file that marks a folder in which a receiver writes. Prometheus passes over such a name, and
/// so does `segment_names`.
const MARK: &str = "rwship-receive";

/// What that file says.
const MARK_TEXT: &str = "'rwship receive --dir' writes the log in this folder.\n";

/// Returns whether there is a file or a folder of this name, as seen from a folder.
fn has_file<R: Files + AllocGlobal>(rt: &R, dir: &str, name: &str) -> io::Result<bool> {
    let path = Path::new(dir).join(rt.alloc(), name)?;
    match fs::metadata(rt, path.as_path()) {
        Ok(_) => Ok(true),
        Err(error) => match error.kind() {
            ErrorKind::NotFound | ErrorKind::NotADirectory => Ok(false),
            _ => Err(error),
        },
    }
}

/// Returns whether the folder above has what a Prometheus has beside its log.
fn has_server_files<R: Files + AllocGlobal>(rt: &R, dir: &str) -> io::Result<bool> {
    Ok(has_file(rt, dir, "../chunks_head")? || has_file(rt, dir, "../queries.active")?)
}

/// Writes the mark of a folder, and syncs it and the folder.
fn write_mark<R: Files + AllocGlobal>(rt: &R, dir: &str) -> io::Result<()> {
    let path = Path::new(dir).join(rt.alloc(), MARK)?;
    let mut file = fs::create(rt, path.as_path())?;
    file.write_all(MARK_TEXT.as_bytes())?;
    file.sync_all()?;
    fs::open(rt, dir)?.sync_all()
}

/// Returns whether a folder is marked. One that is not is refused if it has segments, and so is the
/// folder of a server.
fn check_owner<R: Files + AllocGlobal>(
    rt: &R,
    dir: &str,
    names: &[SegmentName],
    rules: FolderRules,
) -> Result<bool, FolderError> {
    if !rules.adopts {
        match has_server_files(rt, dir) {
            Ok(false) => {}
            Ok(true) => return Err(FolderError::BesideServer),
            Err(error) => return Err(FolderError::OwnerUnknown(cause_of(&error))),
        }
    }
    match has_file(rt, dir, MARK) {
        Ok(false) if !rules.adopts && !names.is_empty() => Err(FolderError::NotReceived),
        Ok(is_marked) => Ok(is_marked),
        Err(error) => Err(FolderError::OwnerUnknown(cause_of(&error))),
    }
}

/// Checks that the first segment is not missing.
fn check_start(names: &[SegmentName]) -> Result<(), FolderError> {
    match names.first() {
        Some(first) if first.number > 0 => Err(FolderError::StartMissing(first.number - 1)),
        _ => Ok(()),
    }
}

/// Checks that a receiver may go on in a folder with these segments, and marks the folder if it is
/// not marked. A folder that is refused is not changed.
pub(crate) fn claim_folder<R: Files + AllocGlobal>(
    rt: &R,
    dir: &str,
    names: &[SegmentName],
    rules: FolderRules,
) -> Result<(), FolderError> {
    let is_marked = check_owner(rt, dir, names, rules)?;
    if !rules.allows_missing_start {
        check_start(names)?;
    }
    if is_marked {
        return Ok(());
    }
    match write_mark(rt, dir) {
        Ok(()) => Ok(()),
        Err(error) => Err(FolderError::Unmarked(cause_of(&error))),
    }
}

//! Finds out whether a server writes to a folder.

use crate::fault::cause_of;
use crate::folder_error::FolderError;
use std::fs::{File, TryLockError};
use std::io::ErrorKind;
use std::path::Path;
use std::rt::Files;
use std::{fs, io};

/// The file that a running Prometheus locks, as seen from the folder with its log.
const LOCK: &str = "../lock";

/// Returns whether another open file of this path holds a lock on it. A path without a file has no
/// lock.
fn is_locked<R: Files<File = File>>(rt: &R, path: Path<'_>) -> io::Result<bool> {
    // (A pipe would wait for its writer.)
    if !fs::metadata(rt, path)?.is_file() {
        return Ok(false);
    }
    match fs::open(rt, path)?.try_lock_shared() {
        Ok(()) => Ok(false),
        Err(TryLockError::WouldBlock) => Ok(true),
        Err(TryLockError::Error(error)) => Err(error),
    }
}

/// Refuses a folder while a Prometheus runs whose log it is, which holds a lock on the file `lock`
/// in the folder above. A server that is started without that file is not noticed. The lock is not
/// kept here, so a server can be started later. Nothing is changed.
pub fn refuse_running_server<R: Files<File = File> + AllocGlobal>(
    rt: &R,
    dir: &str,
) -> Result<(), FolderError> {
    let path = Path::new(dir).join(rt.alloc(), LOCK)?;
    match is_locked(rt, path.as_path()) {
        Ok(false) => Ok(()),
        Ok(true) => Err(FolderError::ServerRuns),
        Err(error) => match error.kind() {
            ErrorKind::NotFound | ErrorKind::NotADirectory => Ok(()),
            _ => Err(FolderError::LockUnreadable(cause_of(&error))),
        },
    }
}

//! The file with a position, as the operating system has it.

ghost use Rattle.std.specs.Prelude.{◌≡◌, fold};
ghost use Rattle.rw_resume.specs.Files.{file_state, step};

use crate::position_call::PositionCall;
use crate::position_files::{PositionFault, PositionFiles};
use rw_history::History;
use std::alloc::{AllocError, Global};
use std::fs::OpenFile;
use std::io::{ErrorKind, Write};
use std::marker::Model;
use std::path::{Path, PathBuf};
use std::rt::Files;
use std::{fs, io};

/// The file at a path, and its copy beside it, whose name ends in `.tmp`. Contracts see what a
/// crash may leave, by what was asked of the operating system.
#[derive(Drop)]
pub struct PositionFile<R> {
    rt: R,
    path: PathBuf,
    copy: PathBuf,
    folder: PathBuf,
    calls: History<PositionCall>,
}

impl<R> Model for PositionFile<R> {
    ghost use Rattle.rw_resume.specs.Files.{FileState, file_state};

    ghost Value = { FileState };

    ghost view = { λ f. file_state f.calls };
}

/// Returns the fault of a call of the operating system.
fn fault_of(error: &io::Error) -> PositionFault {
    match error.kind() {
        ErrorKind::OutOfMemory => PositionFault::OutOfMemory,
        _ => PositionFault::Failed,
    }
}

/// Returns the outcome of a call of the operating system.
fn outcome_of(outcome: io::Result<()>) -> Result<(), PositionFault> {
    match outcome {
        Ok(()) => Ok(()),
        Err(error) => Err(fault_of(&error)),
    }
}

/// Returns the path of the folder of a file.
fn folder_of(alloc: Global, path: &str) -> Result<PathBuf, AllocError> {
    match path.rfind('/') {
        Some(0) => PathBuf::from_str(alloc, "/"),
        Some(at) => PathBuf::from_str(alloc, &path[..at]),
        None => PathBuf::from_str(alloc, "."),
    }
}

impl<R: Files + AllocGlobal + Copy> PositionFile<R> {
    /// Returns the file at a path, of which nothing was asked.
    pub fn new(rt: R, path: &str) -> Result<PositionFile<R>, AllocError> {
        let alloc = rt.alloc();
        let copy = format!(in alloc; "{path}.tmp")?;
        Ok(PositionFile {
            rt,
            path: PathBuf::from_str(alloc, path)?,
            copy: PathBuf::from_str(alloc, copy.as_str())?,
            folder: folder_of(alloc, path)?,
            calls: History::new(),
        })
    }

    /// Returns the text in the file, or `None` if there is no file.
    pub fn read(&self) -> io::Result<Option<Vec<u8>>> {
        match fs::read(&self.rt, self.path.as_path()) {
            Ok(text) => Ok(Some(text)),
            Err(error) if error.kind() == ErrorKind::NotFound => Ok(None),
            Err(error) => Err(error),
        }
    }

    /// Writes the copy.
    fn write(&self, text: &[u8]) -> io::Result<()> {
        let mut file = fs::create(&self.rt, self.copy.as_path())?;
        file.write_all(text)
    }

    /// Syncs a file or a folder.
    fn sync(&self, path: Path<'_>) -> io::Result<()> {
        fs::open(&self.rt, path)?.sync_all()
    }
}

impl<R: Files + AllocGlobal + Copy> PositionFiles for PositionFile<R> {
    ghost state = { λ f. f };

    fn write_copy(&mut self, text: &[u8]) -> Result<(), PositionFault> {
        let outcome = outcome_of(self.write(text));
        let call = match outcome {
            Ok(()) => PositionCall::Write(History::of(text)),
            Err(_) => PositionCall::Spoil,
        };
        self.calls.push(&call);
        outcome
    }

    fn sync_copy(&mut self) -> Result<(), PositionFault> {
        let outcome = outcome_of(self.sync(self.copy.as_path()));
        if outcome.is_ok() {
            self.calls.push(&PositionCall::Sync);
        }
        outcome
    }

    fn rename_copy(&mut self) -> Result<(), PositionFault> {
        self.calls.push(&PositionCall::Rename);
        outcome_of(fs::rename(&self.rt, self.copy.as_path(), self.path.as_path()))
    }

    fn sync_folder(&mut self) -> Result<(), PositionFault> {
        let outcome = outcome_of(self.sync(self.folder.as_path()));
        if outcome.is_ok() {
            self.calls.push(&PositionCall::SyncFolder);
        }
        outcome
    }
}

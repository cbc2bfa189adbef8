//! A folder of segments as the operating system has it, with the file of the last one.

use crate::fault::{FailedCall, FaultCause, FolderCall, cause_of};
use crate::folder_monitor::FolderMonitor;
use std::alloc::{AllocError, Global};
use std::fs::{OpenFile, OpenOptions};
use std::io::{ErrorKind, Read, Seek, SeekFrom, Write};
use std::os::unix::fs::MetadataExt;
use std::path::{Path, PathBuf};
use std::rt::Files;
use std::time::{Clock, Instant};
use std::{fs, io};

/// The greatest number of a segment, whose name has eight digits.
const MAX_NUMBER: u64 = 99_999_999;

/// A folder of segments, of which the file of the last one is open. After a failed call it makes no
/// further one, except that it cuts the last segment to what was synced of it.
#[derive(Drop)]
pub(crate) struct FolderHandle<R: Files> {
    rt: R,
    dir: String,
    /// The number of the last segment, if there is one.
    number: Option<u64>,
    /// The path of the last segment.
    path: PathBuf,
    file: Option<R::File>,
    /// How many bytes the last segment has.
    len: u64,
    /// How many of them are synced.
    synced: u64,
    fault: Option<FailedCall>,
    monitor: FolderMonitor,
}

/// Returns the number of the segment after this one.
fn next_number(number: Option<u64>) -> io::Result<u64> {
    match number {
        None => Ok(0),
        Some(number) if number < MAX_NUMBER => Ok(number + 1),
        Some(_) => Err(io::Error::from(ErrorKind::FileTooLarge)),
    }
}

/// Returns the path of the file with this number between two parts of its name.
fn path_of(
    alloc: Global,
    dir: &str,
    prefix: &str,
    number: u64,
    suffix: &str,
) -> Result<PathBuf, AllocError> {
    let name = format!(in alloc; "{prefix}{number:08}{suffix}")?;
    Path::new(dir).join(alloc, name.as_str())
}

/// Returns the bytes of a file from an offset on.
fn read_from<F: Read + Seek>(alloc: Global, file: &mut F, offset: u64) -> io::Result<Vec<u8>> {
    let mut bytes = Vec::new(alloc);
    file.seek(SeekFrom::Start(offset))?;
    file.read_to_end(&mut bytes)?;
    Ok(bytes)
}

/// Creates a file, which must not exist, to append to it.
fn create_file<R: Files>(rt: &R, path: Path<'_>) -> io::Result<R::File> {
    OpenOptions::new()
        .read(true)
        .append(true)
        .create_new(true)
        .open(rt, path)
}

/// Returns an outcome with the cause of its error.
fn with_cause(outcome: io::Result<()>) -> Result<(), FaultCause> {
    match outcome {
        Ok(()) => Ok(()),
        Err(error) => Err(cause_of(&error)),
    }
}

impl<R: Files + Clock + AllocGlobal + Copy> FolderHandle<R> {
    /// Returns a folder whose last segment has this number and this name. Its file is not open: it
    /// has to be written anew first.
    pub(crate) fn new(
        rt: R,
        dir: String,
        last: Option<(u64, &str)>,
        monitor: FolderMonitor,
    ) -> Result<FolderHandle<R>, AllocError> {
        let alloc = rt.alloc();
        let (number, path) = match last {
            Some((number, name)) => (Some(number), Path::new(dir.as_str()).join(alloc, name)?),
            None => (None, PathBuf::new(alloc)),
        };
        Ok(FolderHandle {
            rt,
            dir,
            number,
            path,
            file: None,
            len: 0,
            synced: 0,
            fault: None,
            monitor,
        })
    }

    /// Returns the fault after which no call is made, if there was one.
    pub(crate) fn fault(&self) -> Option<FailedCall> {
        self.fault
    }

    /// Returns the fault of a segment that has no number.
    pub(crate) fn cannot_create(&self) -> FailedCall {
        FailedCall {
            call: FolderCall::Create,
            segment: MAX_NUMBER,
            cause: FaultCause::Other,
        }
    }

    fn last_file(&mut self) -> io::Result<&mut R::File> {
        match &mut self.file {
            Some(file) => Ok(file),
            None => Err(io::Error::from(ErrorKind::NotFound)),
        }
    }

    fn write(&mut self, bytes: &[u8]) -> io::Result<()> {
        self.last_file()?.write_all(bytes)
    }

    fn sync_file(&mut self) -> io::Result<()> {
        match &self.file {
            Some(file) => file.sync_data(),
            None => Ok(()),
        }
    }

    fn sync_dir(&mut self) -> io::Result<()> {
        fs::open(&self.rt, self.dir.as_str())?.sync_all()
    }

    /// Returns whether the path of the last segment still leads to the file that is open.
    fn is_in_place(&self) -> io::Result<bool> {
        let Some(file) = &self.file else {
            return Ok(true);
        };
        let open = file.metadata()?;
        match fs::metadata(&self.rt, self.path.as_path()) {
            Ok(found) => Ok(found.dev() == open.dev() && found.ino() == open.ino()),
            Err(error) if error.kind() == ErrorKind::NotFound => Ok(false),
            Err(error) => Err(error),
        }
    }

    /// Fails if the last segment was removed or renamed, or its folder was.
    fn check_place(&self) -> Result<(), FaultCause> {
        match self.is_in_place() {
            Ok(true) => Ok(()),
            Ok(false) => Err(FaultCause::Removed),
            Err(error) => Err(cause_of(&error)),
        }
    }

    fn create(&mut self) -> io::Result<()> {
        let number = next_number(self.number)?;
        let path = path_of(self.rt.alloc(), self.dir.as_str(), "", number, "")?;
        let file = create_file(&self.rt, path.as_path())?;
        self.number = Some(number);
        self.path = path;
        self.file = Some(file);
        self.len = 0;
        self.synced = 0;
        Ok(())
    }

    fn copy_path(&self) -> Result<PathBuf, AllocError> {
        let number = self.number.unwrap_or(0);
        path_of(self.rt.alloc(), self.dir.as_str(), "", number, ".tmp")
    }

    /// Writes a copy in place of one that an earlier start has left.
    fn write_new(&mut self, path: Path<'_>, text: &[u8]) -> io::Result<()> {
        let _ = fs::remove_file(&self.rt, path);
        let mut file = create_file(&self.rt, path)?;
        file.write_all(text)?;
        self.file = Some(file);
        self.len = text.len() as u64;
        Ok(())
    }

    /// Writes a copy, or none.
    fn write_whole(&mut self, text: &[u8]) -> io::Result<()> {
        let path = self.copy_path()?;
        let outcome = self.write_new(path.as_path(), text);
        if outcome.is_err() {
            let _ = fs::remove_file(&self.rt, path.as_path());
        }
        outcome
    }

    fn sync_whole(&mut self) -> io::Result<()> {
        self.last_file()?.sync_all()?;
        self.synced = self.len;
        Ok(())
    }

    fn rename(&mut self) -> io::Result<()> {
        let copy = self.copy_path()?;
        fs::rename(&self.rt, copy.as_path(), self.path.as_path())
    }

    fn copy_from(&mut self, offset: u64) -> io::Result<()> {
        let alloc = self.rt.alloc();
        let Some(file) = &mut self.file else {
            return Ok(());
        };
        let torn = read_from(alloc, file, offset)?;
        if torn.is_empty() {
            return Ok(());
        }
        let number = self.number.unwrap_or(0);
        let path = path_of(alloc, self.dir.as_str(), "torn-", number, "")?;
        let mut copy = fs::create(&self.rt, path.as_path())?;
        copy.write_all(&torn)?;
        copy.sync_all()?;
        self.sync_dir()
    }

    fn shorten(&mut self, len: u64) -> io::Result<()> {
        match &self.file {
            Some(file) if file.metadata()?.len() > len => file.set_len(len),
            _ => Ok(()),
        }
    }

    /// Counts a sync that began then, if it has succeeded.
    fn count_sync(&self, begun: Option<Instant>, outcome: &io::Result<()>) {
        if outcome.is_err() {
            return;
        }
        let took = match begun {
            Some(begun) => begun.elapsed(&self.rt).ok(),
            None => None,
        };
        self.monitor.count_sync(took);
    }

    /// Keeps the fault of a call that failed, and counts it.
    fn end(&mut self, call: FolderCall, outcome: Result<(), FaultCause>) -> Result<(), FailedCall> {
        match outcome {
            Ok(()) => Ok(()),
            Err(cause) => {
                let fault = FailedCall {
                    call,
                    segment: self.number.unwrap_or(0),
                    cause,
                };
                self.fault = Some(fault);
                self.monitor.count_failure();
                Err(fault)
            }
        }
    }

    /// Does the same for a write or sync of the last segment. If it failed, cuts the segment to
    /// what was synced before, so that nobody reads from the operating system's memory what may not
    /// be on the disk. This is best effort.
    fn end_write(
        &mut self,
        call: FolderCall,
        outcome: Result<(), FaultCause>,
    ) -> Result<(), FailedCall> {
        if outcome.is_err() {
            let _ = self.shorten(self.synced);
        }
        self.end(call, outcome)
    }

    /// Writes a copy of the last segment, which has these bytes, to a file `NNNNNNNN.tmp` beside
    /// it.
    pub(crate) fn write_copy(&mut self, text: &[u8]) -> Result<(), FailedCall> {
        if let Some(fault) = self.fault {
            return Err(fault);
        }
        let outcome = self.write_whole(text);
        self.end(FolderCall::WriteCopy, with_cause(outcome))
    }

    /// Syncs the copy.
    pub(crate) fn sync_copy(&mut self) -> Result<(), FailedCall> {
        if let Some(fault) = self.fault {
            return Err(fault);
        }
        let begun = Instant::now(&self.rt).ok();
        let outcome = self.sync_whole();
        self.count_sync(begun, &outcome);
        self.end(FolderCall::SyncCopy, with_cause(outcome))
    }

    /// Renames the copy over the last segment, of which it is the file from then on.
    pub(crate) fn rename_copy(&mut self) -> Result<(), FailedCall> {
        if let Some(fault) = self.fault {
            return Err(fault);
        }
        let outcome = self.rename();
        self.end(FolderCall::RenameCopy, with_cause(outcome))
    }

    /// Appends bytes to the file of the last segment.
    pub(crate) fn append(&mut self, bytes: &[u8]) -> Result<(), FailedCall> {
        if let Some(fault) = self.fault {
            return Err(fault);
        }
        let outcome = self.write(bytes);
        if outcome.is_ok() {
            self.len = self.len.saturating_add(bytes.len() as u64);
            self.monitor.count_bytes(bytes.len());
        }
        self.end_write(FolderCall::Write, with_cause(outcome))
    }

    /// Copies the bytes of the last segment from an offset on to a file `torn-NNNNNNNN`, and syncs
    /// it and the folder, if there are any such bytes.
    pub(crate) fn set_aside(&mut self, offset: u64) -> Result<(), FailedCall> {
        if let Some(fault) = self.fault {
            return Err(fault);
        }
        let outcome = self.copy_from(offset);
        self.end(FolderCall::SetAside, with_cause(outcome))
    }

    /// Cuts the file of the last segment to a length, if it is longer.
    pub(crate) fn set_len(&mut self, len: u64) -> Result<(), FailedCall> {
        if let Some(fault) = self.fault {
            return Err(fault);
        }
        let outcome = self.shorten(len);
        self.len = self.len.min(len);
        self.synced = self.synced.min(len);
        self.end(FolderCall::Cut, with_cause(outcome))
    }

    /// Syncs the bytes of the file of the last segment. Fails if that is no longer in its place.
    pub(crate) fn sync_data(&mut self) -> Result<(), FailedCall> {
        if let Some(fault) = self.fault {
            return Err(fault);
        }
        let begun = Instant::now(&self.rt).ok();
        let outcome = self.sync_file();
        self.count_sync(begun, &outcome);
        let outcome = match with_cause(outcome) {
            Ok(()) => self.check_place(),
            Err(cause) => Err(cause),
        };
        if outcome.is_ok() {
            self.synced = self.len;
        }
        self.end_write(FolderCall::Sync, outcome)
    }

    /// Syncs the folder.
    pub(crate) fn sync_folder(&mut self) -> Result<(), FailedCall> {
        if let Some(fault) = self.fault {
            return Err(fault);
        }
        let begun = Instant::now(&self.rt).ok();
        let outcome = self.sync_dir();
        self.count_sync(begun, &outcome);
        self.end(FolderCall::SyncFolder, with_cause(outcome))
    }

    /// Creates the file of a next segment, which must not exist. Fails if the last one is no longer
    /// in its place.
    pub(crate) fn create_next(&mut self) -> Result<(), FailedCall> {
        if let Some(fault) = self.fault {
            return Err(fault);
        }
        let outcome = match self.check_place() {
            Ok(()) => with_cause(self.create()),
            Err(cause) => Err(cause),
        };
        if outcome.is_ok() {
            self.monitor.count_segment();
        }
        self.end(FolderCall::Create, outcome)
    }
}

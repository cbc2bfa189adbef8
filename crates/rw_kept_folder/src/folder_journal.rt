//! A journal in the files of a folder.

ghost use Rattle.std.specs.Prelude.{◌≡◌};

use crate::segment_files::SegmentFiles;
use rw_kept_log::{Journal, JournalError};
use std::marker::Model;

/// A journal in the files of a folder. Contracts see the files.
#[derive(Drop)]
pub struct FolderJournal<F: SegmentFiles> {
    files: F,
    /// Whether each segment is certain to be in the folder after a crash.
    has_all: bool,
}

impl<F: SegmentFiles> Model for FolderJournal<F> {
    ghost use Rattle.std.specs.Prelude.{◌≡◌, true};
    ghost use Rattle.rw_kept_folder.specs.Files.{HasAll};

    ghost Value = { F };

    ghost view = { λ j. j.files };

    ghost invariant = { λ j. j.has_all ≡ true → HasAll (F.seen j.files) (F.may_leave j.files) };
}

impl<F: SegmentFiles> FolderJournal<F> {
    /// Returns the journal in these files.
    pub fn new(files: F) -> FolderJournal<F>
        ensures { result ≡ files }
    {
        FolderJournal {
            files,
            has_all: false,
        }
    }

    /// Returns the files.
    pub fn files(&self) -> &F
        ensures { result.now ≡ self.now }
    {
        &self.files
    }
}

impl<F: SegmentFiles> Journal for FolderJournal<F> {
    ghost seen = { λ j. F.seen j };

    ghost may_leave = { λ j. F.may_leave j };

    ghost moment = { λ j. F.moment j };

    ghost left_since = { λ j. F.left_since j };

    ghost tears = { F.tears };

    ghost faults = { λ j. F.faults j };

    ghost counts_now = { λ j t c le now. F.counts_now j t c le now };

    ghost only_now = { λ j c left. F.only_now j c left };

    ghost leaves_seen = { λ j. F.leaves_seen j };

    fn count(&self) -> usize {
        self.files.count()
    }

    fn append(&mut self, bytes: &[u8]) -> Result<(), JournalError> {
        self.has_all = false;
        self.files.append(bytes)?;
        self.has_all = true;
        Ok(())
    }

    fn cut(&mut self, len: usize) -> Result<(), JournalError> {
        self.has_all = false;
        self.files.set_aside(len)?;
        self.files.set_len(len)?;
        self.has_all = true;
        Ok(())
    }

    fn sync(&mut self) -> Result<(), JournalError> {
        if !self.has_all {
            self.files.sync_folder()?;
            self.has_all = true;
        }
        self.files.sync_data()?;
        Ok(())
    }

    fn begin(&mut self) -> Result<(), JournalError> {
        self.has_all = false;
        self.files.create_next()?;
        self.files.sync_folder()?;
        self.has_all = true;
        Ok(())
    }
}

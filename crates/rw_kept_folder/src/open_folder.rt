//! The files of a folder of a runtime, with a record of what was asked of them.

ghost use Rattle.std.specs.Prelude.{◌≡◌, ◌+◌, length};
ghost use Rattle.rw_kept_log.specs.Journal.{Only};
ghost use Rattle.rw_kept_folder.specs.Noted.{seen_of, MayLeave, LeftSinceNoted, Tears};
ghost use Rattle.rw_kept_folder.specs.inner.Noted.{counts_now, only_now, leaves_seen};

use crate::fault::{FailedCall, FaultCause};
use crate::file_call::FileCall;
use crate::folder_handle::FolderHandle;
use crate::record::Record;
use crate::segment_files::SegmentFiles;
use rw_history::History;
use rw_kept_log::JournalError;
use std::marker::Model;
use std::rt::Files;
use std::time::Clock;

/// The files of a folder. Contracts see what was asked of the operating system, from the loading of
/// the segments on; what the files hold and what a crash may leave of them is defined by that.
#[derive(Drop)]
pub struct OpenFolder<R: Files> {
    handle: FolderHandle<R>,
    /// The number of the first segment.
    first: u64,
    count: usize,
    record: Record,
}

impl<R: Files> Model for OpenFolder<R> {
    ghost use Rattle.std.specs.Prelude.{◌≡◌, length};
    ghost use Rattle.rw_kept_folder.specs.Noted.{Noted, seen_of};
    ghost use Rattle.rw_kept_folder.specs.inner.Noted.{HasOwn};

    ghost Value = { Noted };

    ghost view = { λ f. f.record };

    ghost invariant = { λ f. (f.count ≡ length (seen_of f.record)) × HasOwn f.record };
}

/// Returns the error of a call that failed, and adds the fault to the record.
fn fail(noted: &mut Record, fault: FailedCall) -> JournalError
    ensures { noted.new ≡ record noted.old { faults = noted.old.faults + 1 } }
{
    noted.fail(&fault);
    match fault.cause {
        FaultCause::OutOfMemory => JournalError::OutOfMemory,
        _ => JournalError::Failed,
    }
}

impl<R: Files + Clock + AllocGlobal + Copy> OpenFolder<R> {
    /// Returns the files of a folder that has this many segments by the record, by which they are
    /// also on the disk, and whose first segment has this number.
    pub(crate) fn new(
        handle: FolderHandle<R>,
        first: u64,
        count: usize,
        noted: Record,
    ) -> OpenFolder<R>
        requires count { count ≡ length (seen_of noted) }
        requires synced { Only (seen_of noted) (MayLeave noted) }
        ensures noted { result ≡ noted }
    {
        OpenFolder {
            handle,
            first,
            count,
            record: noted,
        }
    }

    /// Returns the number in the name of a segment. Segments are counted from 0.
    pub fn number_of(&self, segment: u64) -> u64 {
        self.first.saturating_add(segment)
    }

    /// Returns the fault after which each call fails, if there was one.
    pub fn fault(&self) -> Option<FailedCall> {
        self.handle.fault()
    }
}

impl<R: Files + Clock + AllocGlobal + Copy> SegmentFiles for OpenFolder<R> {
    ghost seen = { λ f. seen_of f };

    ghost may_leave = { λ f c. MayLeave f c };

    ghost moment = { λ f. length f.calls };

    ghost left_since = { λ f t c. LeftSinceNoted f t c };

    ghost tears = { Tears };

    ghost faults = { λ f. f.faults };

    ghost counts_now = { λ f t c le now. counts_now f t c now };

    ghost only_now = { λ f c left. only_now f c left };

    ghost leaves_seen = { λ f. leaves_seen f };

    fn count(&self) -> usize {
        self.count
    }

    fn append(&mut self, bytes: &[u8]) -> Result<(), JournalError> {
        self.record.note(&FileCall::Append(History::of(bytes)));
        match self.handle.append(bytes) {
            Ok(()) => Ok(()),
            Err(fault) => Err(fail(&mut self.record, fault)),
        }
    }

    fn set_aside(&mut self, len: usize) -> Result<(), JournalError> {
        match self.handle.set_aside(len as u64) {
            Ok(()) => Ok(()),
            Err(fault) => Err(fail(&mut self.record, fault)),
        }
    }

    fn set_len(&mut self, len: usize) -> Result<(), JournalError> {
        self.record.note(&FileCall::SetLen(len));
        match self.handle.set_len(len as u64) {
            Ok(()) => Ok(()),
            Err(fault) => Err(fail(&mut self.record, fault)),
        }
    }

    fn sync_data(&mut self) -> Result<(), JournalError> {
        match self.handle.sync_data() {
            Ok(()) => {
                self.record.note(&FileCall::SyncData);
                Ok(())
            }
            Err(fault) => Err(fail(&mut self.record, fault)),
        }
    }

    fn create_next(&mut self) -> Result<(), JournalError> {
        if self.count >= usize::MAX {
            let fault = self.handle.cannot_create();
            return Err(fail(&mut self.record, fault));
        }
        self.record.note(&FileCall::CreateNext);
        self.count += 1;
        match self.handle.create_next() {
            Ok(()) => Ok(()),
            Err(fault) => Err(fail(&mut self.record, fault)),
        }
    }

    fn sync_folder(&mut self) -> Result<(), JournalError> {
        match self.handle.sync_folder() {
            Ok(()) => {
                self.record.note(&FileCall::SyncFolder);
                Ok(())
            }
            Err(fault) => Err(fail(&mut self.record, fault)),
        }
    }
}

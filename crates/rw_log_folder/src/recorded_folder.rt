//! The folder of a log, and the calls on it.

ghost use Rattle.std.specs.Prelude.{◌≡◌, ◌++◌, ◌∷◌, [], take, string_len, IfOk, OnOk, OnErr};
ghost use Rattle.std.specs.Io.{ReadsAtMost};
ghost use Rattle.std.specs.Io.KnownBytes.{ReadConsumes};
ghost use Rattle.std.specs.List.Sorted.{IsSortedBy};
ghost use Rattle.rw_log_folder.specs.Folders.{comes_before};
ghost use Rattle.rw_log_folder.specs.declared.folder_call.FolderCall.TheVariants.{Listed, Opened, TookOpen, Read};

use crate::checkpoint::first_files;
use crate::files::{SegmentName, names_in};
use crate::folder::Current;
use crate::folder_call::FolderCall;
use crate::folder_fault::FolderFault;
use rw_history::History;
use rw_types::{ReadFault, Source, Std};
use std::fs;
use std::fs::File;
use std::marker::Model;
use std::path::Path;
use std::rt::Files;

/// The folder of a log, as the operating system has it. Contracts see what the calls on it and on
/// its files have returned.
#[derive(Drop)]
pub(crate) struct RecordedFolder<R> {
    rt: R,
    dir: String,
    calls: History<FolderCall>,
}

impl<R> Model for RecordedFolder<R> {
    ghost use Rattle.std.specs.Prelude.{List};
    ghost use Rattle.rw_log_folder.specs.declared.folder_call.FolderCall.{FolderCall};

    ghost Value = { List FolderCall };

    ghost view = { λ f. f.calls };
}

impl<R: Files<File = File> + AllocGlobal + Copy> RecordedFolder<R> {
    /// Returns the folder of this name, of which nothing was asked.
    pub(crate) fn new(rt: R, dir: String) -> RecordedFolder<R>
        ensures { result ≡ [] }
    {
        RecordedFolder {
            rt,
            dir,
            calls: History::new(),
        }
    }

    /// Returns the names of its segments, in order.
    pub(crate) fn list(&mut self) -> Result<Vec<SegmentName>, ReadFault>
        ensures listed { IfOk result (λ names. self.new ≡ self.old ++ Listed names.items ∷ []) }
        ensures sorted { IfOk result (λ names. IsSortedBy comes_before names.items) }
        ensures failed { OnErr result (self.new ≡ self.old) }
    {
        match names_in(&self.rt, self.dir.as_str()) {
            Ok(names) => {
                self.calls.push(&FolderCall::Listed(History::of(&names)));
                Ok(names)
            }
            Err(FolderFault::OutOfMemory) => Err(ReadFault::OutOfMemory),
            Err(_) => Err(ReadFault::Failed),
        }
    }

    /// Opens a segment, which is the current one from then on.
    pub(crate) fn open(&mut self, segment: &SegmentName) -> Result<Std<File>, ReadFault>
        ensures opened { OnOk result (self.new ≡ self.old
            ++ Opened segment.now.number (string_len segment.now.name) ∷ []) }
        ensures failed { OnErr result (self.new ≡ self.old) }
    {
        let name = segment.name.as_str();
        let path = Path::new(self.dir.as_str()).join(self.rt.alloc(), name)?;
        match fs::open(&self.rt, path.as_path()) {
            Ok(file) => {
                self.calls
                    .push(&FolderCall::Opened(segment.number, name.len()));
                Ok(Std::new(file))
            }
            Err(_) => Err(ReadFault::Failed),
        }
    }

    /// Opens the files of the newest checkpoint and the first one after it, of which none is the
    /// current segment yet.
    pub(crate) fn open_first(&self) -> Result<Vec<Current>, FolderFault> {
        first_files(&self.rt, self.dir.as_str())
    }

    /// Notes that a file that is open is the current segment from now on.
    pub(crate) fn take_open(&mut self, segment: &SegmentName)
        ensures { self.new ≡ self.old
            ++ TookOpen segment.now.number (string_len segment.now.name) ∷ [] }
    {
        let len = segment.name.len();
        self.calls.push(&FolderCall::TookOpen(segment.number, len));
    }

    /// Reads the current segment as its file does.
    pub(crate) fn read<S: Source>(
        &mut self,
        file: &mut S,
        buf: &mut [u8],
    ) -> Result<usize, ReadFault>
        ensures bound { ReadsAtMost result buf.new }
        ensures read { IfOk result (λ n. self.new ≡ self.old ++ Read (take n buf.new) ∷ []) }
        ensures failed { OnErr result (self.new ≡ self.old) }
        ensures bytes { ReadConsumes (S.remaining file.old) (S.remaining file.new) result buf.new }
    {
        match file.read(buf) {
            Ok(count) => {
                self.calls
                    .push(&FolderCall::Read(History::of(&buf[..count])));
                Ok(count)
            }
            Err(_) => Err(ReadFault::Failed),
        }
    }
}

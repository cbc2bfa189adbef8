//! The files of a log in a folder.

ghost use Rattle.std.specs.Prelude.{◌≡◌, ◌<◌, ◌≤◌, ◌^◌, ℕ, suc, IfOk, MatchOption, string_bytes};
ghost use Rattle.std.specs.List.Sorted.{IsPermutation, IsSortedBy};
ghost use Rattle.rw_log_folder.specs.Folders.{comes_before};
ghost use Rattle.rw_log_folder.specs.inner.Folders.{IsNameOf};

use crate::folder_fault::{FolderFault, fault_of};
use crate::opened::{OpenSource, Opened};
use rw_metrics::SendCounters;
use rw_text::read_number;
use rw_types::{Failed, Std};
use std::alloc::{AllocError, Global};
use std::fs::File;
use std::io::ErrorKind;
use std::path::{Path, PathBuf};
use std::rt::Files;
use std::sync::Arc;
use std::{fs, io};

/// The longest name of a segment.
const MAX_DIGITS: usize = 8;

/// The numbers of segments that are missing one after the other, from `first` to `last`.
#[derive(Clone, Copy, Debug, PartialEq, Eq)]
pub struct Gap {
    pub first: u64,
    pub last: u64,
}

/// The file at a path.
#[derive(Drop)]
pub struct SegmentFile<R> {
    rt: R,
    path: PathBuf,
    name: String,
    number: u64,
    /// They count it when it is opened.
    counters: Option<Arc<SendCounters, Global>>,
}

impl<R> SegmentFile<R> {
    /// Returns the name of the file in its folder.
    pub fn name(&self) -> &str
        ensures { result.now ≡ string_bytes self.now.name }
    {
        self.name.as_str()
    }

    /// Returns the number in its name, or the checkpoint's number if it is a file of a checkpoint.
    pub fn number(&self) -> u64
        ensures { result ≡ self.now.number }
    {
        self.number
    }

    /// Returns whether it is a file of a checkpoint.
    pub fn is_of_checkpoint(&self) -> bool {
        number_of(self.name.as_str()).is_none()
    }

    /// Returns the numbers between those of two segments that are read one after the other.
    pub fn gap_before(&self, next: &SegmentFile<R>) -> Option<Gap>
        ensures { MatchOption result (next.now.number ≤ suc self.now.number)
            (λ gap. (gap.first ≡ suc self.now.number) × ((suc gap.last ≡ next.now.number)
            × (gap.first ≤ gap.last))) }
    {
        if next.number.saturating_sub(self.number) < 2 {
            return None;
        }
        Some(Gap {
            first: self.number + 1,
            last: next.number - 1,
        })
    }
}

impl<R: Files> SegmentFile<R> {
    /// Returns how many bytes the file has now, or 0 if that is not known.
    fn bytes(&self) -> u64 {
        match fs::metadata(&self.rt, self.path.as_path()) {
            Ok(metadata) => metadata.len(),
            Err(_) => 0,
        }
    }
}

impl<R: Files<File = File>> OpenSource for SegmentFile<R> {
    ghost use Rattle.std.specs.Prelude.{None};

    type S = Std<File>;

    ghost text = { λ _. None };

    fn open(&self) -> Result<Std<File>, Failed> {
        match fs::open(&self.rt, self.path.as_path()) {
            Ok(file) => {
                if let Some(counters) = &self.counters {
                    counters.begin_segment(self.number);
                }
                Ok(Std::new(file))
            }
            Err(_) => Err(Failed),
        }
    }
}

/// The name of a segment's file, and its number.
#[derive(Drop)]
pub struct SegmentName {
    pub number: u64,
    pub name: String,
}

/// Returns the number of a segment by the name of its file, or `None` if the name is not that of a
/// segment.
pub(crate) fn number_of(name: &str) -> Option<u64>
    ensures { MatchOption result ((n : ℕ) → n < 2 ^ 64 → IsNameOf name.now n → ⊥)
        (IsNameOf name.now) }
{
    if name.len() > MAX_DIGITS {
        return None;
    }
    read_number(name.as_bytes())
}

fn put_in_order(names: &mut Vec<SegmentName>)
    ensures permutation { IsPermutation names.old.items names.new.items }
    ensures sorted { IsSortedBy comes_before names.new.items }
{
    names.sort_unstable_by_key(|segment| (segment.number, segment.name.len()));
}

/// Returns the names of a folder's segments, in order: those of one to eight decimal digits, by
/// number, and of two names of one number the shorter first. Other names are skipped. An `Err` says
/// why the folder cannot be read.
pub fn segment_names<R: Files + AllocGlobal + Copy>(
    rt: &R,
    dir: &str,
) -> io::Result<Vec<SegmentName>>
    ensures { IfOk result (λ names. IsSortedBy comes_before names.items) }
{
    let alloc = rt.alloc();
    let entries = fs::read_dir(rt, dir)?;
    let mut names = Vec::new(alloc);
    for entry in entries {
        match entry {
            Ok(entry) => {
                let name = entry.file_name();
                if let Some(number) = number_of(name) {
                    let name = String::from_str(alloc, name)?;
                    names.push(SegmentName { number, name })?;
                }
            }
            // The name is not UTF-8.
            Err(error) if error.kind() == ErrorKind::InvalidFilename => {}
            Err(error) => return Err(error),
        }
    }
    put_in_order(&mut names);
    Ok(names)
}

/// Returns the names of a folder's segments, in order.
pub(crate) fn names_in<R: Files + AllocGlobal + Copy>(
    rt: &R,
    dir: &str,
) -> Result<Vec<SegmentName>, FolderFault>
    ensures { IfOk result (λ names. IsSortedBy comes_before names.items) }
{
    match segment_names(rt, dir) {
        Ok(names) => Ok(names),
        Err(error) => Err(fault_of(&error)),
    }
}

/// Returns the file of a segment. The counters count it when it is opened.
pub(crate) fn file_of<R: Files + AllocGlobal + Copy>(
    rt: &R,
    dir: &str,
    segment: SegmentName,
    counters: Option<&Arc<SendCounters, Global>>,
) -> Result<SegmentFile<R>, AllocError> {
    let path = Path::new(dir).join(rt.alloc(), segment.name.as_str())?;
    let counters = match counters {
        Some(counters) => Some(Arc::try_clone(counters)?),
        None => None,
    };
    Ok(SegmentFile {
        rt: *rt,
        path,
        name: segment.name,
        number: segment.number,
        counters,
    })
}

/// Sets in the counters, if there are any, how many bytes the files have.
pub(crate) fn count_bytes<R: Files<File = File> + AllocGlobal + Copy>(
    files: &[Opened<SegmentFile<R>>],
    counters: Option<&Arc<SendCounters, Global>>,
) {
    if let Some(counters) = counters {
        let mut bytes = 0u64;
        for file in files {
            bytes = bytes.saturating_add(file.place().bytes());
        }
        counters.set_folder_bytes(bytes);
    }
}

/// Returns the segments of a log in a folder, in the order of their numbers: the files whose names
/// are one to eight decimal digits, and of two names of one number the shorter first. Other names
/// are skipped. The counters get the number of bytes of all segments, and count each one that is
/// opened. If the folder cannot be listed, the fault is `Unreadable`.
pub fn segment_files<R: Files<File = File> + AllocGlobal + Copy>(
    rt: &R,
    dir: &str,
    counters: Option<&Arc<SendCounters, Global>>,
) -> Result<Vec<Opened<SegmentFile<R>>>, FolderFault> {
    let mut files = Vec::new(rt.alloc());
    for segment in names_in(rt, dir)? {
        let file = Opened::new(file_of(rt, dir, segment, counters)?);
        if files.push(file).is_err() {
            return Err(FolderFault::OutOfMemory);
        }
    }
    count_bytes(&files, counters);
    Ok(files)
}

/// Returns `Ok` if a folder can be listed.
pub fn check_folder<R: Files + AllocGlobal + Copy>(rt: &R, dir: &str) -> Result<(), FolderFault> {
    let _ = names_in(rt, dir)?;
    Ok(())
}

//! The files of a log in a folder, from its newest checkpoint on.

ghost use Rattle.std.specs.Prelude.{◌≡◌, ◌<◌, ◌^◌, ◌+◌, ℕ, length, IfSome, MatchOption};
ghost use Rattle.rw_log_folder.specs.inner.Folders.{IsCheckpointName, IsNameOf};

use crate::files::{SegmentFile, SegmentName, count_bytes, file_of, number_of};
use crate::folder::Current;
use crate::folder_fault::{FolderFault, fault_of};
use crate::listing::{Checkpoint, Listing, LogFile, NumberedName};
use crate::opened::Opened;
use crate::order::log_order;
use rw_metrics::SendCounters;
use rw_types::Std;
use std::alloc::{AllocError, Global};
use std::fs;
use std::fs::File;
use std::io::ErrorKind;
use std::path::Path;
use std::rt::Files;
use std::sync::Arc;

/// The prefix of the name of a checkpoint's folder.
const CHECKPOINT: &str = "checkpoint.";

/// How often a folder is listed at most, if a file is gone before it is opened.
const MOST_LISTINGS: usize = 3;

/// Returns the number that a text of one to eight decimal digits spells, and how many digits these
/// are.
fn name_of(text: &str) -> Option<NumberedName>
    ensures number { MatchOption result ((n : ℕ) → n < 2 ^ 64 → IsNameOf text.now n → ⊥)
        (λ name. IsNameOf text.now name.number) }
    ensures digits { IfSome result (λ name. name.digits ≡ length text.now) }
{
    match number_of(text) {
        Some(number) => Some(NumberedName {
            number,
            digits: text.len(),
        }),
        None => None,
    }
}

/// Returns the number of a checkpoint by the name of its folder, or `None` if the name is not that
/// of a checkpoint. A name that goes on after the number belongs to one that the server has not
/// finished.
fn checkpoint_of(text: &str) -> Option<NumberedName>
    ensures number { MatchOption result ((n : ℕ) → n < 2 ^ 64 → IsCheckpointName text.now n → ⊥)
        (λ name. IsCheckpointName text.now name.number) }
    ensures digits { IfSome result (λ name. length text.now ≡ 11 + name.digits) }
{
    match text.strip_prefix("checkpoint.") {
        Some(rest) => name_of(rest),
        None => None,
    }
}

/// Adds a name in a folder to a listing, if it is that of a segment or of a checkpoint.
fn add_name(alloc: Global, listing: &mut Listing, text: &str) -> Result<(), AllocError> {
    if let Some(segment) = name_of(text) {
        return Ok(listing.segments.push(segment)?);
    }
    match checkpoint_of(text) {
        Some(name) => {
            let segments = Vec::new(alloc);
            Ok(listing.checkpoints.push(Checkpoint { name, segments })?)
        }
        None => Ok(()),
    }
}

/// Lists a folder, without the contents of its checkpoints.
fn list<R: Files + AllocGlobal + Copy>(rt: &R, dir: &str) -> Result<Listing, FolderFault> {
    let alloc = rt.alloc();
    let entries = match fs::read_dir(rt, dir) {
        Ok(entries) => entries,
        Err(error) => return Err(fault_of(&error)),
    };
    let mut listing = Listing {
        segments: Vec::new(alloc),
        checkpoints: Vec::new(alloc),
    };
    for entry in entries {
        match entry {
            Ok(entry) => add_name(alloc, &mut listing, entry.file_name())?,
            // The name is not UTF-8.
            Err(error) if error.kind() == ErrorKind::InvalidFilename => {}
            Err(error) => return Err(fault_of(&error)),
        }
    }
    Ok(listing)
}

/// Returns whether a folder has a checkpoint. The answer is `false` if the folder cannot be read.
pub fn has_checkpoint<R: Files + AllocGlobal + Copy>(rt: &R, dir: &str) -> bool {
    match list(rt, dir) {
        Ok(listing) => !listing.checkpoints.is_empty(),
        Err(_) => false,
    }
}

/// Appends a number with its digits.
fn push_name(alloc: Global, text: &mut String, name: NumberedName) -> Result<(), AllocError> {
    let number = name.number;
    let decimal = format!(in alloc; "{number}")?;
    for _ in decimal.len()..name.digits {
        text.push('0')?;
    }
    text.push_str(&decimal)
}

/// Returns the name of a checkpoint's folder.
fn folder_name(alloc: Global, checkpoint: NumberedName) -> Result<String, AllocError> {
    let mut text = String::from_str(alloc, CHECKPOINT)?;
    push_name(alloc, &mut text, checkpoint)?;
    Ok(text)
}

/// Lists the contents of a checkpoint.
fn list_checkpoint<R: Files + AllocGlobal + Copy>(
    rt: &R,
    dir: &str,
    checkpoint: &mut Checkpoint,
) -> Result<(), FolderFault> {
    let folder = folder_name(rt.alloc(), checkpoint.name)?;
    let path = Path::new(dir).join(rt.alloc(), folder.as_str())?;
    checkpoint.segments = list(rt, path.as_path().as_str())?.segments;
    Ok(())
}

/// Lists a folder and its checkpoints.
fn list_all<R: Files + AllocGlobal + Copy>(rt: &R, dir: &str) -> Result<Listing, FolderFault> {
    let mut listing = list(rt, dir)?;
    for checkpoint in &mut listing.checkpoints {
        list_checkpoint(rt, dir, checkpoint)?;
    }
    Ok(listing)
}

/// Returns the file at a place, by its path in the folder. One in a checkpoint has the
/// checkpoint's number.
fn segment_at(alloc: Global, place: LogFile) -> Result<SegmentName, AllocError> {
    let Some(checkpoint) = place.checkpoint else {
        let mut name = String::new(alloc);
        push_name(alloc, &mut name, place.segment)?;
        return Ok(SegmentName {
            number: place.segment.number,
            name,
        });
    };
    let mut name = folder_name(alloc, checkpoint)?;
    name.push('/')?;
    push_name(alloc, &mut name, place.segment)?;
    Ok(SegmentName {
        number: checkpoint.number,
        name,
    })
}

/// Returns the files of a log, of which those of the checkpoint and the first one after it are
/// open.
fn open_files<R: Files<File = File> + AllocGlobal + Copy>(
    rt: &R,
    dir: &str,
    counters: Option<&Arc<SendCounters, Global>>,
) -> Result<Vec<Opened<SegmentFile<R>>>, FolderFault> {
    let alloc = rt.alloc();
    let places = log_order(alloc, list_all(rt, dir)?)?;
    let mut files = Vec::with_capacity(alloc, places.len())?;
    let mut is_at_checkpoint = true;
    for place in places {
        let segment = segment_at(alloc, place)?;
        let mut file = Opened::new(file_of(rt, dir, segment, counters)?);
        if is_at_checkpoint && !file.open_now() {
            let name = String::from_str(alloc, file.place().name())?;
            return Err(FolderFault::Closed(name));
        }
        is_at_checkpoint = is_at_checkpoint && place.checkpoint.is_some();
        if files.push(file).is_err() {
            return Err(FolderFault::OutOfMemory);
        }
    }
    Ok(files)
}

/// Opens the file at a place.
fn open_place<R: Files<File = File> + AllocGlobal + Copy>(
    rt: &R,
    dir: &str,
    place: LogFile,
) -> Result<Current, FolderFault> {
    let segment = segment_at(rt.alloc(), place)?;
    let path = Path::new(dir).join(rt.alloc(), segment.name.as_str())?;
    match fs::open(rt, path.as_path()) {
        Ok(file) => {
            let file = Std::new(file);
            Ok(Current { segment, file })
        }
        Err(_) => Err(FolderFault::Closed(segment.name)),
    }
}

/// Opens the files of the newest checkpoint and the first one after it.
fn open_first<R: Files<File = File> + AllocGlobal + Copy>(
    rt: &R,
    dir: &str,
) -> Result<Vec<Current>, FolderFault> {
    let places = log_order(rt.alloc(), list_all(rt, dir)?)?;
    let mut opened = Vec::new(rt.alloc());
    for place in places {
        let current = open_place(rt, dir, place)?;
        if opened.push(current).is_err() {
            return Err(FolderFault::OutOfMemory);
        }
        if place.checkpoint.is_none() {
            return Ok(opened);
        }
    }
    Ok(opened)
}

/// Opens the files of a folder's newest checkpoint and the first one after it, or, without a
/// checkpoint, the first one. If one is gone before it is opened, the folder is listed again.
pub(crate) fn first_files<R: Files<File = File> + AllocGlobal + Copy>(
    rt: &R,
    dir: &str,
) -> Result<Vec<Current>, FolderFault> {
    let mut outcome = Err(FolderFault::Unreadable);
    for _ in 0..MOST_LISTINGS {
        outcome = open_first(rt, dir);
        if let Ok(_) | Err(FolderFault::OutOfMemory) = &outcome {
            return outcome;
        }
    }
    outcome
}

/// Returns the files of a log, from the newest checkpoint of its folder on: the segments of that
/// checkpoint, and then those of the folder that come after it.
///
/// The files of the checkpoint and the first one after it are open, so that they can be read even
/// if a server removes them. If one of them is gone before it is opened, the folder is listed
/// again, three times at most; the fault is that of the last time.
pub fn log_files<R: Files<File = File> + AllocGlobal + Copy>(
    rt: &R,
    dir: &str,
    counters: Option<&Arc<SendCounters, Global>>,
) -> Result<Vec<Opened<SegmentFile<R>>>, FolderFault> {
    let mut last = FolderFault::Unreadable;
    for _ in 0..MOST_LISTINGS {
        match open_files(rt, dir, counters) {
            Ok(files) => {
                count_bytes(&files, counters);
                return Ok(files);
            }
            Err(FolderFault::OutOfMemory) => return Err(FolderFault::OutOfMemory),
            Err(fault) => last = fault,
        }
    }
    Err(last)
}

//! The segments of a folder to which a writer may still be writing.

ghost use Rattle.std.specs.Prelude.{◌≡◌, ◌<◌, None, Some, is_some, true, false, OnOk, OnErr, IfSome};
ghost use Rattle.std.specs.List.{find};
ghost use Rattle.rw_follow.specs.Meals.{Meal, no_meal};
ghost use Rattle.rw_log_folder.specs.Reading.{is_after, key_of};
ghost use Rattle.rw_log_folder.specs.GrowingFolders.{HasGiven, HasListed, HasOpened, HasTaken, IsBelow, IsByNumber, IsPassed, WasListed, key_at, next, reading, state};

use crate::files::{SegmentName, number_of};
use crate::folder_fault::FolderFault;
use crate::recorded_folder::RecordedFolder;
use rw_follow::{Ahead, Segments};
use rw_metrics::SendCounters;
use rw_types::{ReadFault, Std};
use std::alloc::Global;
use std::fs::File;
use std::rt::Files;
use std::sync::Arc;

/// A segment that is read.
#[derive(Drop)]
pub(crate) struct Current {
    pub(crate) segment: SegmentName,
    pub(crate) file: Std<File>,
}

/// The segments of a log in a folder, as they come: the files whose names are one to eight decimal
/// digits, by number, and of two names of one number the shorter first. Contracts see what the
/// calls on the folder and its files have returned.
#[derive(Drop)]
pub struct Folder<R> {
    device: RecordedFolder<R>,
    /// `None` before the first one is there.
    current: Option<Current>,
    /// The name of the one before it.
    previous: Option<SegmentName>,
    /// How many were opened.
    begun: u64,
    /// The one after it, or the first one, by the last listing since the current one was opened.
    ahead: Option<SegmentName>,
    /// Whether the one ahead could not be opened.
    is_closed: bool,
    /// The number of the current segment, unless it is one of a checkpoint.
    number: Option<u64>,
    /// The number of the segment with which it begins, if no earlier one is read.
    first: u64,
    /// Whether a checkpoint is still to be looked for.
    from_checkpoint: bool,
    /// Those that are open and come after the current one, the last one first.
    opened: Vec<Current>,
    /// The segment of this number is missing after the checkpoint, or before the first one.
    gap: Option<u64>,
    /// Whether the current file could not be read.
    has_failed: bool,
    /// The file of a checkpoint that could not be opened.
    closed: Option<String>,
    counters: Arc<SendCounters, Global>,
}

/// Returns whether a segment comes after the current one, or, without one, has this number or a
/// greater one.
fn comes_after(next: &SegmentName, current: &Option<Current>, first: u64) -> bool
    ensures { result ≡ is_after first (key_at current.now) next.now }
{
    let Some(current) = current else {
        return !(next.number < first);
    };
    let name = &current.segment;
    name.number < next.number || name.number == next.number && name.name.len() < next.name.len()
}

/// Returns the first of the names in order that comes after this one, or without one the first of
/// those from this number on.
fn name_after(names: Vec<SegmentName>, current: &Option<Current>, first: u64) -> Option<SegmentName>
    ensures { result ≡ find (is_after first (key_at current.now)) names.items }
{
    for next in names {
        if comes_after(&next, current, first) {
            return Some(next);
        }
    }
    None
}

impl<R: Files<File = File> + AllocGlobal + Copy> Folder<R> {
    /// Returns the segments of a folder, none of which was read.
    fn unread(
        rt: R,
        dir: String,
        first: u64,
        from_checkpoint: bool,
        counters: Arc<SendCounters, Global>,
    ) -> Folder<R>
        ensures first { (state result).first ≡ first }
        ensures early { (state result).early ≡ from_checkpoint }
        ensures unread { HasGiven (state result) no_meal }
    {
        let opened = Vec::new(rt.alloc());
        Folder {
            device: RecordedFolder::new(rt, dir),
            current: None,
            previous: None,
            begun: 0,
            ahead: None,
            is_closed: false,
            number: None,
            first,
            from_checkpoint,
            opened,
            gap: None,
            has_failed: false,
            closed: None,
            counters,
        }
    }

    /// Returns the segments of the folder of this name, from the first one on. The counters count
    /// each segment that is opened.
    pub fn new(rt: R, dir: String, counters: Arc<SendCounters, Global>) -> Folder<R>
        ensures first { (state result).first ≡ 0 }
        ensures early { (state result).early ≡ false }
        ensures unread { HasGiven (state result) no_meal }
    {
        Folder::unread(rt, dir, 0, false, counters)
    }

    /// Returns the segments of the folder of this name, from its newest checkpoint on, if it has
    /// one when it is first read: the segments of that checkpoint, and then those of the folder
    /// that come after it. The files of the checkpoint and the first one after it are opened before
    /// the first byte is read.
    pub fn from_checkpoint(rt: R, dir: String, counters: Arc<SendCounters, Global>) -> Folder<R>
        ensures unread { HasGiven (state result) no_meal }
    {
        Folder::unread(rt, dir, 0, true, counters)
    }

    /// Returns the segments of the folder of this name, from the one of this number on. If it is
    /// not there when it is first read, although a later one is, it is reported as missing.
    pub fn from_segment(
        rt: R,
        dir: String,
        first: u64,
        counters: Arc<SendCounters, Global>,
    ) -> Folder<R>
        ensures first { (state result).first ≡ first }
        ensures early { (state result).early ≡ false }
        ensures unread { HasGiven (state result) no_meal }
    {
        Folder::unread(rt, dir, first, false, counters)
    }

    /// Returns the number of the current segment, or `None` if it is one of a checkpoint or none is
    /// read.
    pub fn number(&self) -> Option<u64>
        ensures { result ≡ self.now.number }
    {
        self.number
    }

    /// Makes a segment the current one.
    fn go_to(&mut self, next: Current)
        ensures { state self.new
            ≡ record (state self.old) { current = Some (key_of next.segment); ahead = None } }
    {
        self.number = number_of(next.segment.name.as_str());
        self.counters.begin_segment(next.segment.number);
        self.begun = self.begun.saturating_add(1);
        self.previous = match self.current.take() {
            Some(current) => Some(current.segment),
            None => None,
        };
        self.current = Some(next);
        self.ahead = None;
    }

    /// Makes the next one of the open files the current one, if there is one.
    fn take_opened(&mut self)
        ensures some { 0 < (state self.old).opened → HasTaken (state self.old) (state self.new) }
        ensures none { (state self.old).opened ≡ 0 → state self.new ≡ state self.old }
    {
        if let Some(next) = self.opened.pop() {
            self.device.take_open(&next.segment);
            self.go_to(next);
        }
    }

    /// Returns the name of a segment of the log, by how many segments come before it. It is known
    /// of the current segment and of the one before it.
    pub fn name_of(&self, segment: u64) -> Option<&str> {
        let name = match self.begun.saturating_sub(segment) {
            1 => match &self.current {
                Some(current) => &current.segment,
                None => return None,
            },
            2 => match &self.previous {
                Some(previous) => previous,
                None => return None,
            },
            _ => return None,
        };
        Some(name.name.as_str())
    }

    /// Returns the name of the file that could not be read or opened, if a call failed at one.
    pub fn into_unread(self) -> Option<String> {
        let Folder {
            current,
            has_failed,
            ahead,
            is_closed,
            closed,
            ..
        } = self;
        match (current, ahead) {
            (Some(current), _) if has_failed => Some(current.segment.name),
            (_, Some(ahead)) if is_closed => Some(ahead.name),
            _ => closed,
        }
    }

    /// Opens the file that is read first, if it is there and no other one is current.
    fn begin(&mut self) -> Result<(), ReadFault>
        ensures same { is_some (state self.old).current ≡ true
            → state self.new ≡ state self.old }
        ensures stays { (meal : Meal) → HasGiven (state self.old) meal
            → HasGiven (state self.new) meal }
        ensures listed { OnOk result ((state self.new).current ≡ None
            → WasListed (state self.new).early (reading (state self.new)).listed) }
    {
        if self.current.is_some() {
            return Ok(());
        }
        self.gap = None;
        if self.from_checkpoint {
            return self.begin_at_checkpoint();
        }
        self.look_ahead()?;
        if self.is_first_missing() {
            self.gap = Some(self.first);
            return Ok(());
        }
        if self.ahead.is_none() {
            return Ok(());
        }
        self.open_ahead()
    }

    /// Returns whether the segment that was seen comes after one of which the number was asked.
    fn is_first_missing(&self) -> bool
        ensures { result ≡ true → IsBelow (state self.now).first (state self.now).ahead }
    {
        match &self.ahead {
            Some(next) => 0 < self.first && self.first < next.number,
            None => false,
        }
    }

    /// Opens the files of the checkpoint and the first one after it.
    fn begin_at_checkpoint(&mut self) -> Result<(), ReadFault>
        requires none { (state self.old).current ≡ None }
        requires early { (state self.old).early ≡ true }
        requires gap { (state self.old).gap ≡ None }
        ensures stays { (meal : Meal) → HasGiven (state self.old) meal
            → HasGiven (state self.new) meal }
        ensures early { (state self.new).early ≡ true }
    {
        match self.device.open_first() {
            Ok(files) => {
                self.opened = files;
                self.opened.reverse();
                self.take_opened();
                Ok(())
            }
            Err(FolderFault::Missing(number)) => {
                self.gap = Some(number);
                Ok(())
            }
            Err(FolderFault::OutOfMemory) => Err(ReadFault::OutOfMemory),
            Err(FolderFault::Closed(name)) => {
                self.closed = Some(name);
                Err(ReadFault::Failed)
            }
            Err(FolderFault::Unreadable) => Err(ReadFault::Failed),
        }
    }

    /// Lists the folder, and sees which segment comes after the current one.
    fn look_ahead(&mut self) -> Result<(), ReadFault>
        ensures listed { OnOk result (HasListed (state self.old) (state self.new)) }
        ensures stays { OnErr result (state self.new ≡ state self.old) }
    {
        let names = self.device.list()?;
        self.ahead = name_after(names, &self.current, self.first);
        self.is_closed = false;
        Ok(())
    }

    /// Lists the folder to see which segment comes after the current one. If a number is missing
    /// before it, the listing may have missed a segment that was created meanwhile: it is listed
    /// once more.
    fn see_next(&mut self) -> Result<(), ReadFault>
        requires gap { (state self.old).gap ≡ None }
        ensures seen { OnOk result ((state self.new).ahead ≡ next (state self.new)) }
        ensures by_number { OnOk result (IsByNumber (reading (state self.new)).listed) }
        ensures fresh { OnOk result ((reading (state self.new)).is_fresh ≡ true) }
        ensures at_end { (reading (state self.new)).at_end ≡ (reading (state self.old)).at_end }
        ensures same { state self.new ≡ record (state self.old)
            { calls = (state self.new).calls; ahead = (state self.new).ahead } }
        ensures stays { (meal : Meal) → HasGiven (state self.old) meal
            → HasGiven (state self.new) meal }
    {
        self.look_ahead()?;
        if self.missing().is_some() {
            return self.look_ahead();
        }
        Ok(())
    }

    /// Opens the segment that was seen, which is the current one from then on.
    fn open_ahead(&mut self) -> Result<(), ReadFault>
        ensures opened { OnOk result (HasOpened (state self.old) (state self.new)) }
        ensures stays { OnErr result (state self.new ≡ state self.old) }
    {
        let Some(segment) = self.ahead.take() else {
            return Err(ReadFault::Failed);
        };
        match self.device.open(&segment) {
            Ok(file) => {
                self.go_to(Current { segment, file });
                Ok(())
            }
            Err(fault) => {
                self.ahead = Some(segment);
                self.is_closed = fault == ReadFault::Failed;
                Err(fault)
            }
        }
    }

    /// Returns the number that is missing before the segment that was seen.
    fn missing(&self) -> Option<u64>
        ensures { IfSome result (IsPassed (state self.now) (state self.now).ahead) }
    {
        match (&self.current, &self.ahead) {
            (Some(current), Some(ahead)) => {
                let next = current.segment.number.saturating_add(1);
                if next < ahead.number {
                    Some(next)
                } else {
                    None
                }
            }
            _ => None,
        }
    }
}

impl<R: Files<File = File> + AllocGlobal + Copy> Segments for Folder<R> {
    ghost use Rattle.std.specs.Prelude.{⊤};
    ghost use Rattle.rw_log_folder.specs.GrowingFolders.{HadAll, HasGiven, HasNext, IsLast, IsSegmentRead, Lacks, state};

    ghost Start = { ⊤ };

    ghost gave = { λ f _ meal. HasGiven (state f) meal };

    ghost had_all = { λ f _ meal. HadAll (state f) meal };

    ghost is_read = { λ f. IsSegmentRead (state f) };

    ghost is_followed = { λ f. HasNext (state f) };

    ghost is_last = { λ f. IsLast (state f) };

    ghost lacks = { λ f n. Lacks (state f) n };

    ghost may_fail = { λ _ _. ⊤ };

    ghost has_failed = { λ _. ⊤ };

    ghost is_sound = { λ _. ⊤ };

    fn read(&mut self, buf: &mut [u8]) -> Result<usize, ReadFault> {
        self.begin()?;
        let outcome = match &mut self.current {
            Some(current) => self.device.read(&mut current.file, buf),
            None => return Ok(0),
        };
        self.has_failed = outcome.is_err();
        outcome
    }

    fn look(&mut self) -> Result<Ahead, ReadFault> {
        if let Some(number) = self.gap {
            return Ok(Ahead::Missing(number));
        }
        if self.current.is_none() {
            // A segment that could not be opened is there.
            return match &self.ahead {
                Some(_) => Err(ReadFault::Failed),
                None => Ok(Ahead::Nothing),
            };
        }
        if !self.opened.is_empty() {
            return Ok(Ahead::Segment);
        }
        self.see_next()?;
        match self.missing() {
            Some(number) => Ok(Ahead::Missing(number)),
            None if self.ahead.is_some() => Ok(Ahead::Segment),
            None => Ok(Ahead::Nothing),
        }
    }

    fn advance(&mut self) -> Result<(), ReadFault> {
        if !self.opened.is_empty() {
            self.take_opened();
            return Ok(());
        }
        self.open_ahead()
    }
}

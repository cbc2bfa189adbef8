//! A journal in memory. Only contracts see what it held at each moment.

ghost use Rattle.std.specs.Prelude.{◌≡◌, ◌<◌, ◌-◌, ◌++◌, [], ◌∷◌, length, take, get_or, IfOk, OnOk};
ghost use Rattle.std.proofs.Common.{inl};
ghost use Rattle.rw_kept_log.specs.Journal.{Only};
ghost use Rattle.rw_kept_log.specs.Memory.{image_segments, IsLeftOf, LeftSince, only_this, all_left};
ghost use Rattle.rw_kept_log.specs.Retiring.{texts_of};

use crate::image::Image;
use crate::journal::{Journal, JournalError};
use crate::retiring_journal::RetiringJournal;
use crate::segment_taker::SegmentTaker;
use rw_history::History;
use std::alloc::{AllocError, Global};

/// Appends copies of texts.
fn put_copies(alloc: Global, copies: &mut Vec<Vec<u8>>, texts: &[Vec<u8>]) -> Result<(), AllocError>
    ensures { OnOk result (texts_of copies.new.items
        ≡ texts_of copies.old.items ++ texts_of texts.now) }
{
    for text in texts {
        copies.push(text.to_vec(alloc)?)?;
    }
    Ok(())
}

/// A journal in memory, for tests. Bytes that are appended survive a crash only if they are synced.
#[derive(Drop)]
pub struct MemoryJournal {
    alloc: Global,
    image: Image,
    past: History<Image>,
}

impl MemoryJournal {
    /// Returns a journal with one segment, which is empty.
    pub fn new(alloc: Global) -> MemoryJournal
        ensures segments { image_segments result.image ≡ [] ∷ [] }
        ensures synced { Only (image_segments result.image) (IsLeftOf result.image) }
    {
        MemoryJournal {
            alloc,
            image: Image {
                done: Vec::new(alloc),
                last: Vec::new(alloc),
                synced: 0,
            },
            past: History::new(),
        }
    }

    /// Crashes: the bytes that were appended since the last sync are replaced by these, as many of
    /// them as have room. An `Err` changes nothing.
    pub fn crash(&mut self, torn: &[u8]) -> Result<(), AllocError>
        ensures left { OnOk result (IsLeftOf self.old.image (image_segments self.new.image)) }
        ensures synced { OnOk result
            (Only (image_segments self.new.image) (IsLeftOf self.new.image)) }
    {
        let mut last = self.image.last[..self.image.synced].to_vec(self.alloc)?;
        let room = self.image.last.len() - self.image.synced;
        if torn.len() <= room {
            last.extend_from_slice(torn)?;
        } else {
            last.extend_from_slice(&torn[..room])?;
        }
        self.past.push(&self.image);
        self.image.synced = 0;
        self.image.last = last;
        self.image.synced = self.image.last.len();
        Ok(())
    }
}

impl MemoryJournal {
    /// Has a taker take the segments, in their order, as after a restart.
    pub fn give_all<T: SegmentTaker>(&self, taker: &mut T) -> Result<(), AllocError>
        ensures given { OnOk result
            (T.taken taker.new ≡ T.taken taker.old ++ image_segments self.now.image) }
        ensures fixed { OnOk result (T.fixed taker.new ≡ T.fixed taker.old) }
    {
        for text in &self.image.done {
            taker.take(text)?;
        }
        taker.take(&self.image.last)
    }

    /// Returns the bytes of a segment.
    pub fn read(&self, alloc: Global, segment: usize) -> Result<Vec<u8>, AllocError>
        requires { segment < length (image_segments self.now.image) }
        ensures { IfOk result
            (λ v. v.items ≡ get_or (image_segments self.now.image) segment []) }
    {
        if segment < self.image.done.len() {
            return self.image.done[segment].to_vec(alloc);
        }
        self.image.last.to_vec(alloc)
    }
}

impl Journal for MemoryJournal {
    ghost seen = { λ m. image_segments m.image };

    ghost may_leave = { λ m c. IsLeftOf m.image c };

    ghost moment = { λ m. length m.past };

    ghost left_since = { λ m t c. LeftSince m.past m.image t c };

    ghost tears = { λ bytes torn. Unit {0} };

    ghost faults = { λ m. 0 };

    ghost counts_now = { λ m t c le now. inl now };

    ghost only_now = { λ m c left. only_this m.past m.image c left };

    ghost leaves_seen = { λ m. all_left m.image };

    fn count(&self) -> usize {
        self.image.done.len() + 1
    }

    fn append(&mut self, bytes: &[u8]) -> Result<(), JournalError> {
        let mut last = self.image.last.to_vec(self.alloc)?;
        last.extend_from_slice(bytes)?;
        self.past.push(&self.image);
        self.image.last = last;
        Ok(())
    }

    fn cut(&mut self, len: usize) -> Result<(), JournalError> {
        if len >= self.image.last.len() {
            return Ok(());
        }
        let last = self.image.last[..len].to_vec(self.alloc)?;
        self.past.push(&self.image);
        self.image.synced = 0;
        self.image.last = last;
        self.image.synced = len;
        Ok(())
    }

    fn sync(&mut self) -> Result<(), JournalError> {
        self.past.push(&self.image);
        self.image.synced = self.image.last.len();
        Ok(())
    }

    fn begin(&mut self) -> Result<(), JournalError> {
        let last = self.image.last.to_vec(self.alloc)?;
        self.past.push(&self.image);
        self.image.done.push(last)?;
        self.image.synced = 0;
        self.image.last.clear();
        Ok(())
    }
}

impl RetiringJournal for MemoryJournal {
    fn retire(&mut self, n: usize, texts: &[Vec<u8>]) -> Result<(), JournalError> {
        let mut done = Vec::new(self.alloc);
        put_copies(self.alloc, &mut done, texts)?;
        put_copies(self.alloc, &mut done, &self.image.done[n..])?;
        self.past.push(&self.image);
        self.image.done = done;
        Ok(())
    }
}

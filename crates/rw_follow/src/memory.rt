//! A log in memory that grows by a list of events.

ghost use Rattle.std.specs.Prelude.{◌≡◌, ◌<◌, ◌++◌, ◌∷◌, [], length, None, OnOk, OnErr};
ghost use Rattle.std.specs.Io.{ReadsAtMost};
ghost use Rattle.rw_follow.specs.Growth.{Gives, Later};

use crate::segments::{Ahead, Segments};
use rw_types::ReadFault;
use std::alloc::Global;
use std::collections::VecDeque;
use std::marker::Model;
use std::mem;

/// What happens to a log.
#[derive(Drop)]
pub enum Event {
    /// Nothing.
    Quiet,
    /// The current segment grows, if it is the last one.
    More(Vec<u8>),
    /// A new segment comes, with its bytes.
    Next(Vec<u8>),
    /// The current segment grows, if it is the last one, and then a new segment comes.
    Turn(Vec<u8>, Vec<u8>),
    /// The segment of this number is missing after the last one.
    Gap(u64),
}

/// A log in memory. One event of the list happens before each look and each read.
#[derive(Drop)]
pub struct Listed {
    alloc: Global,
    events: VecDeque<Event>,
    done: Vec<Vec<u8>>,
    given: Vec<u8>,
    rest: Vec<u8>,
    after: Vec<Vec<u8>>,
    gap: Option<u64>,
}

impl Model for Listed {
    ghost use Rattle.std.specs.Prelude.{map};
    ghost use Rattle.rw_follow.specs.Growth.{Moment};

    ghost Value = { Moment };

    ghost view = { λ l. record {
      done = map (λ v. v.items) l.done.items;
      given = l.given.items;
      rest = l.rest.items;
      after = map (λ v. v.items) l.after.items;
      gap = l.gap;
    } };
}

impl Listed {
    /// Returns a log of one segment that is empty.
    pub fn new(alloc: Global, events: VecDeque<Event>) -> Listed
        ensures { result ≡ record { done = []; given = []; rest = []; after = []; gap = None } }
    {
        Listed {
            alloc,
            events,
            done: Vec::new(alloc),
            given: Vec::new(alloc),
            rest: Vec::new(alloc),
            after: Vec::new(alloc),
            gap: None,
        }
    }

    /// Appends to the current segment, if it is the last one.
    fn grow(&mut self, bytes: &[u8]) -> Result<(), ReadFault>
        ensures { Later self.old [] self.new }
    {
        if !self.after.is_empty() {
            return Ok(());
        }
        let Ok(()) = self.rest.extend_from_slice(bytes) else {
            return Err(ReadFault::OutOfMemory);
        };
        Ok(())
    }

    /// Adds a segment.
    fn begin(&mut self, bytes: Vec<u8>) -> Result<(), ReadFault>
        ensures { Later self.old [] self.new }
    {
        let Ok(()) = self.after.push(bytes) else {
            return Err(ReadFault::OutOfMemory);
        };
        Ok(())
    }

    /// Lets one event happen. If memory runs out, only part of it happens.
    fn play(&mut self) -> Result<(), ReadFault>
        ensures { Later self.old [] self.new }
    {
        match self.events.pop_front() {
            None => Ok(()),
            Some(Event::Quiet) => Ok(()),
            Some(Event::More(bytes)) => self.grow(&bytes),
            Some(Event::Next(bytes)) => self.begin(bytes),
            Some(Event::Turn(last, next)) => {
                self.grow(&last)?;
                self.begin(next)
            }
            Some(Event::Gap(number)) => {
                self.gap = Some(number);
                Ok(())
            }
        }
    }

    /// Goes to the next segment, if nothing is left of the current one.
    fn step(&mut self) -> Result<(), ReadFault>
        requires read { self.old.rest ≡ [] }
        requires followed { 0 < length self.old.after }
        ensures ok { OnOk result ((self.new.done ≡ self.old.done ++ self.old.given ∷ [])
            × ((self.new.given ≡ []) × (self.new.rest ∷ self.new.after ≡ self.old.after))) }
        ensures err { OnErr result (self.new ≡ self.old) }
    {
        let Ok(()) = self.done.reserve(1) else {
            return Err(ReadFault::OutOfMemory);
        };
        let given = mem::replace(&mut self.given, Vec::new(self.alloc));
        self.done.push_reserved(given);
        self.rest = self.after.remove(0);
        Ok(())
    }

    /// Copies the front of what is left into the buffer.
    fn give(&mut self, buf: &mut [u8]) -> Result<usize, ReadFault>
        ensures bound { ReadsAtMost result buf.new }
        ensures gives { Gives self.old self.new result buf.new }
        ensures others { (self.new.done ≡ self.old.done) × (self.new.after ≡ self.old.after) }
    {
        let n = buf.len().min(self.rest.len());
        let Ok(rest) = Vec::from_slice(self.alloc, &self.rest[n..]) else {
            return Err(ReadFault::OutOfMemory);
        };
        let Ok(()) = self.given.extend_from_slice(&self.rest[..n]) else {
            return Err(ReadFault::OutOfMemory);
        };
        buf[..n].copy_from_slice(&self.rest[..n]);
        self.rest = rest;
        Ok(n)
    }
}

impl Segments for Listed {
    ghost use Rattle.std.specs.Prelude.{⊤};
    ghost use Rattle.rw_follow.specs.Growth.{HadAll, HasGap, HasNextSegment, IsLastSegment, IsReadOf, IsSegmentRead, Moment};

    ghost Start = { Moment };

    ghost gave = { λ l start meal. IsReadOf start meal l };

    ghost had_all = { λ l _ meal. HadAll meal l };

    ghost is_read = { λ l. IsSegmentRead l };

    ghost is_followed = { λ l. HasNextSegment l };

    ghost is_last = { λ l. IsLastSegment l };

    ghost lacks = { λ l n. HasGap n l };

    ghost may_fail = { λ _ _. ⊤ };

    ghost has_failed = { λ _. ⊤ };

    ghost is_sound = { λ _. ⊤ };

    fn read(&mut self, buf: &mut [u8]) -> Result<usize, ReadFault> {
        self.play()?;
        self.give(buf)
    }

    fn look(&mut self) -> Result<Ahead, ReadFault> {
        self.play()?;
        if !self.after.is_empty() {
            return Ok(Ahead::Segment);
        }
        match self.gap {
            Some(number) => Ok(Ahead::Missing(number)),
            None => Ok(Ahead::Nothing),
        }
    }

    fn advance(&mut self) -> Result<(), ReadFault> {
        let Ok(()) = self.step() else {
            return Err(ReadFault::OutOfMemory);
        };
        Ok(())
    }
}

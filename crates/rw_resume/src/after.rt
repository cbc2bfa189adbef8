//! Segments in memory, and after them those of a log.

ghost use Rattle.std.specs.Prelude.{◌≡◌, ◌<◌, ◌≤◌, ◌+◌, ◌++◌, ◌↔◌, ℕ, IsTrue, Option, drop, length, take};
ghost use Rattle.rw_resume.specs.Logs.{IsTextRead, ReadsOn};

use rw_follow::{Ahead, Segments};
use rw_log_folder::Folder;
use rw_types::ReadFault;
use std::collections::VecDeque;
use std::fs::File;
use std::marker::Model;
use std::rt::Files;

/// A log whose segments have numbers.
pub trait Numbered: Segments {
    /// The number of the current segment, if it has one.
    ghost number: { Self → Option ℕ };

    /// How many bytes of the current segment come before those that are read of it.
    ghost base: { Self → ℕ };

    /// Returns the number of the current segment, or `None` if it has none or none is read.
    fn number(&self) -> Option<u64>
        ensures { result ≡ number self.now };

    /// Returns how many bytes of the current segment come before those that are read of it: 0 but
    /// for one that is begun in its middle.
    fn base(&self) -> u64
        ensures { result ≡ base self.now };
}

/// Segments in memory that are left, the current one first, and how much of it was read.
#[derive(Drop)]
struct Texts {
    left: VecDeque<Vec<u8>>,
    offset: usize,
}

impl Model for Texts {
    ghost use Rattle.rw_resume.specs.Logs.{TextsLeft};
    ghost use Rattle.rw_kept_log.specs.Retiring.{texts_of};

    ghost Value = { TextsLeft };

    ghost view = { λ t. record { left = texts_of t.left.items; offset = t.offset } };
}

/// Copies what a text has from an offset on to the front of the buffer, as much as fits, and
/// returns how much that is.
pub(crate) fn copy_from(text: &[u8], offset: usize, buf: &mut [u8]) -> usize
    ensures room { length buf.new ≡ length buf.old }
    ensures bound { result ≤ length buf.new }
    ensures fits { 0 < result → offset + result ≤ length text.now }
    ensures bytes { take (offset + result) text.now
        ≡ take offset text.now ++ take result buf.new }
    ensures end { result ≡ 0 → 0 < length buf.new → length text.now ≤ offset }
{
    let rest = &text[offset.min(text.len())..];
    let count = buf.len().min(rest.len());
    buf[..count].copy_from_slice(&rest[..count]);
    count
}

impl Texts {
    ghost use Rattle.std.specs.Prelude.{[]};
    ghost use Rattle.rw_kept_log.specs.Retiring.{texts_of};

    /// Returns these texts, of which nothing was read.
    fn new(texts: Vec<Vec<u8>>) -> Texts
        ensures left { result.left ≡ texts_of texts.items }
        ensures offset { result.offset ≡ 0 }
    {
        Texts {
            left: VecDeque::from(texts),
            offset: 0,
        }
    }

    /// Returns whether all of them were read.
    fn are_read(&self) -> bool
        ensures { IsTrue result ↔ (self.now.left ≡ []) }
    {
        self.left.is_empty()
    }

    /// Reads some bytes of the current text into the buffer, and returns how many.
    fn read(&mut self, buf: &mut [u8]) -> usize
        ensures room { length buf.new ≡ length buf.old }
        ensures bound { result ≤ length buf.new }
        ensures left { self.new.left ≡ self.old.left }
        ensures bytes { ReadsOn self.old.left self.old.offset self.new.offset
            (take result buf.new) }
        ensures end { result ≡ 0 → 0 < length buf.new
            → IsTextRead self.new.left self.new.offset }
    {
        let Some(text) = self.left.front() else {
            return 0;
        };
        let count = copy_from(text.as_slice(), self.offset, buf);
        self.offset += count;
        count
    }

    /// Goes to the next text.
    fn advance(&mut self)
        ensures left { self.new.left ≡ drop 1 self.old.left }
        ensures offset { self.new.offset ≡ 0 }
    {
        self.left.pop_front();
        self.offset = 0;
    }
}

/// Segments in memory, and then those of a log. Contracts see what was read of both.
#[derive(Drop)]
pub struct After<S> {
    first: Texts,
    then: S,
}

impl<S: Segments + Drop> After<S> {
    ghost use Rattle.rw_follow.specs.Meals.{no_meal};
    ghost use Rattle.rw_resume.specs.Logs.{GaveBoth};
    ghost use Rattle.rw_kept_log.specs.Retiring.{texts_of};

    /// Returns these segments, in order, and then those of this log.
    pub fn new(first: Vec<Vec<u8>>, then: S) -> After<S>
        ensures unread { (start : S.Start) → S.gave then start no_meal
            → GaveBoth result.first.left result.first.offset (texts_of first.items)
            (S.gave result.then start) no_meal }
    {
        After {
            first: Texts::new(first),
            then,
        }
    }

    /// Returns the log that is read after the segments in memory.
    pub fn into_then(self) -> S
        ensures { result ≡ self.then }
    {
        let After { first: _, then } = self;
        then
    }
}

impl<S: Segments + Drop> Segments for After<S> {
    ghost use Rattle.std.specs.Prelude.{List, ⊤};
    ghost use Rattle.rw_resume.specs.Logs.{GaveBoth, HadBoth, IsReadBoth, unless_past};

    ghost Start = { List (List ℕ) × S.Start };

    ghost gave = { λ a start meal. GaveBoth a.first.left a.first.offset start.0
        (S.gave a.then start.1) meal };

    ghost had_all = { λ a start meal. HadBoth a.first.left start.0 (S.had_all a.then start.1)
        meal };

    ghost is_read = { λ a. IsReadBoth a.first.left a.first.offset (S.is_read a.then) };

    ghost is_followed = { λ a. unless_past a.first.left ⊤ (S.is_followed a.then) };

    ghost is_last = { λ a. unless_past a.first.left ⊥ (S.is_last a.then) };

    ghost lacks = { λ a n. S.lacks a.then n };

    ghost may_fail = { λ a f. S.may_fail a.then f };

    ghost has_failed = { λ a. unless_past a.first.left ⊥ (S.has_failed a.then) };

    ghost is_sound = { λ a. unless_past a.first.left ⊤ (S.is_sound a.then) };

    fn read(&mut self, buf: &mut [u8]) -> Result<usize, ReadFault> {
        if self.first.are_read() {
            return self.then.read(buf);
        }
        Ok(self.first.read(buf))
    }

    fn look(&mut self) -> Result<Ahead, ReadFault> {
        if self.first.are_read() {
            return self.then.look();
        }
        Ok(Ahead::Segment)
    }

    fn advance(&mut self) -> Result<(), ReadFault> {
        if self.first.are_read() {
            return self.then.advance();
        }
        self.first.advance();
        Ok(())
    }
}

impl<S: Numbered + Drop> Numbered for After<S> {
    ghost use Rattle.rw_resume.specs.Logs.{base_past, number_past};

    ghost number = { λ a. number_past a.first.left (S.number a.then) };

    ghost base = { λ a. base_past a.first.left (S.base a.then) };

    fn number(&self) -> Option<u64> {
        if self.first.are_read() {
            return self.then.number();
        }
        None
    }

    fn base(&self) -> u64 {
        if self.first.are_read() {
            return self.then.base();
        }
        0
    }
}

impl<R: Files<File = File> + AllocGlobal + Copy> Numbered for Folder<R> {
    ghost number = { λ f. f.number };

    ghost base = { λ _. 0 };

    fn number(&self) -> Option<u64> {
        Folder::number(self)
    }

    fn base(&self) -> u64 {
        0
    }
}

//! A log whose first segment is begun in its middle.

ghost use Rattle.std.specs.Prelude.{◌≡◌, ◌≤◌, length};
ghost use Rattle.rw_follow.specs.Meals.{no_meal};

use crate::after::{Numbered, copy_from};
use rw_follow::{Ahead, Segments};
use rw_types::ReadFault;

/// A log of which the first segment has some bytes in place of its first ones, which were read
/// before. Contracts see what is read so.
#[derive(Drop)]
pub struct Midway<S> {
    /// What is read in place of the first bytes.
    front: Vec<u8>,
    /// How many bytes of it were read.
    shown: usize,
    /// How many bytes it replaces.
    passed: u64,
    /// Whether the first segment is the current one.
    is_first: bool,
    /// Whether the log was read after them.
    reads_on: bool,
    then: S,
}

impl<S: Segments + Drop> Midway<S> {
    ghost use Rattle.rw_resume.specs.Midway.{GaveMidway, HasReadBytes};

    /// Returns this log, of whose first segment `passed` bytes were passed over, with others in
    /// their place.
    pub fn new(front: Vec<u8>, passed: u64, then: S) -> Midway<S>
        ensures unread { (start : S.Start) → HasReadBytes (S.gave then start) passed
            → GaveMidway result.front.items result.shown result.passed
            (S.gave result.then start) no_meal }
        ensures front { result.front.items ≡ front.items }
        ensures passed { result.passed ≡ passed }
    {
        Midway {
            front,
            shown: 0,
            passed,
            is_first: true,
            reads_on: false,
            then,
        }
    }

    /// Returns the log.
    pub fn into_then(self) -> S
        ensures { result ≡ self.then }
    {
        let Midway {
            front: _,
            shown: _,
            passed: _,
            is_first: _,
            reads_on: _,
            then,
        } = self;
        then
    }
}

impl<S: Segments + Drop> Segments for Midway<S> {
    ghost use Rattle.std.specs.Prelude.{◌⊎◌, false};
    ghost use Rattle.rw_resume.specs.Midway.{GaveMidway, HadMidway};

    ghost Start = { S.Start };

    ghost gave = { λ m start meal. GaveMidway m.front.items m.shown m.passed (S.gave m.then start)
        meal };

    ghost had_all = { λ m start meal. HadMidway m.front.items m.passed (S.had_all m.then start)
        meal };

    ghost is_read = { λ m. (length m.front.items ≤ m.shown) × S.is_read m.then };

    ghost is_followed = { λ m. S.is_followed m.then };

    ghost is_last = { λ m. S.is_last m.then };

    ghost lacks = { λ m n. S.lacks m.then n };

    ghost may_fail = { λ m f. S.may_fail m.then f };

    ghost has_failed = { λ m. S.has_failed m.then };

    ghost is_sound = { λ m. (m.reads_on ≡ false) ⊎ S.is_sound m.then };

    fn read(&mut self, buf: &mut [u8]) -> Result<usize, ReadFault> {
        if self.shown < self.front.len() {
            self.reads_on = false;
            let count = copy_from(self.front.as_slice(), self.shown, buf);
            self.shown += count;
            return Ok(count);
        }
        self.reads_on = true;
        self.then.read(buf)
    }

    fn look(&mut self) -> Result<Ahead, ReadFault> {
        self.then.look()
    }

    fn advance(&mut self) -> Result<(), ReadFault> {
        self.then.advance()?;
        self.is_first = false;
        Ok(())
    }
}

impl<S: Numbered + Drop> Numbered for Midway<S> {
    ghost use Rattle.std.specs.Prelude.{nat_lt};
    ghost use Rattle.rw_resume.specs.Midway.{base_of, number_once};

    ghost number = { λ m. number_once (nat_lt m.shown (length m.front.items)) (S.number m.then) };

    ghost base = { λ m. base_of m.is_first m.passed (length m.front.items) (S.base m.then) };

    fn number(&self) -> Option<u64> {
        if self.shown < self.front.len() {
            return None;
        }
        self.then.number()
    }

    fn base(&self) -> u64 {
        if self.is_first {
            return self.passed.saturating_sub(self.front.len() as u64);
        }
        self.then.base()
    }
}

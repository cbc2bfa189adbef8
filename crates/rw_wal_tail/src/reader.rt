//! The steps in which a log is read.

ghost use Rattle.std.specs.Prelude.{◌≡◌, ◌⊎◌, ℕ, vec_capacity, ◌+◌, ◌<◌, ◌≤◌, ◌^◌, [], ◌∷◌, true, false, length, drop, take, MatchResult, IfOk, OnOk, OnErr};
ghost use Rattle.rw_wal_format.specs.Records as grammar;
ghost use Rattle.rw_wal_format.specs.Segments.{left_after, full, first, middle, last};
ghost use Rattle.rw_wal_format.specs.Pieces.{page_size, bytes, next_segment};
ghost use Rattle.rw_wal_tail.specs.declared.reader.Step.TheVariants.{Failed};
ghost use Rattle.rw_wal_format.specs.Types.{kind_of};
ghost use Rattle.rw_wal_tail.specs.inner.Held.{passed, can_count};
ghost use Rattle.rw_wal_tail.specs.inner.Placed.{front_of};
ghost use Rattle.rw_wal_tail.specs.inner.Steps.{Same, Takes, Stepped, PausesAt, FoundAt, FoundFragment, IsReader, IsUnfed, IsRead, IsTextRead, Ran, compresses, is_failed_by, IsKept, MayLack};
ghost use Rattle.rw_wal_tail.specs.inner.Form.{HasEntries, StoresEntries};

use crate::decoder::Decoder;
use crate::form::is_record;
use crate::input::{COUNT_END, Input, copy_of};
use crate::item::{Found, item};
use crate::place::FaultPlace;
use crate::record::read_record;
use crate::skips::Skips;
use rw_types::Entry;
use rw_wal_format::{FragmentType, HEADER_BYTES, PAGE_BYTES, SkippedType, TailFault};
use std::alloc::{AllocError, Global};
use std::collections::VecDeque;

/// Bytes that are not read yet, the record that is open, and entries that were not returned yet.
#[derive(Drop)]
pub(crate) struct Reader {
    pub(crate) alloc: Global,
    pub(crate) input: Input,
    /// The bytes that are left of the page.
    pub(crate) left: usize,
    /// How many of the bytes at the front were seen to be zeros of the page's end.
    pub(crate) zeros: usize,
    /// The data so far of the record that is open. The data of a record that was read stays here
    /// until the next record in fragments begins. There is room for all bytes that are not read:
    /// `feed` reserves it.
    pub(crate) begun: Vec<u8>,
    pub(crate) is_open: bool,
    /// Whether the record that is open is a Snappy block.
    pub(crate) is_block: bool,
    pub(crate) decoder: Decoder,
    pub(crate) ready: VecDeque<Entry>,
    /// The skipped records.
    pub(crate) passed: Skips,
    pub(crate) fault: Option<TailFault>,
}

/// What a step results in.
#[derive(Clone, Copy, Debug, PartialEq, Eq)]
pub(crate) enum Step {
    More,
    /// What has come ends.
    Waits,
    Failed(TailFault),
}

/// Returns whether a record is skipped.
fn is_skipped(bytes: &[u8]) -> bool
    ensures { result ≡ grammar.is_skipped bytes.now }
{
    bytes.is_empty() || !(bytes[0] == 1 || bytes[0] == 2)
}

/// Returns the data of the fragment at the front.
fn fragment_data(bytes: &[u8], len: usize) -> &[u8]
    requires { 7 + len ≤ length bytes.now }
    ensures { result.now ≡ take len (drop 7 bytes.now) }
{
    let data = &bytes[HEADER_BYTES..];
    &data[..len]
}

/// Reads what a record holds into the queue. Returns `false` if it is malformed, which is judged
/// before memory is taken.
fn read_text(
    alloc: Global,
    bytes: &[u8],
    ready: &mut VecDeque<Entry>,
    passed: &mut Skips,
) -> Result<bool, AllocError>
    requires { length passed.old < 2 ^ 60 }
    ensures ok { IfOk result
        (λ b. IsTextRead bytes.now passed.old ready.new.items passed.new b) }
    ensures err { OnErr result ((ready.new.items ≡ []) × (passed.new ≡ passed.old)) }
    ensures count { length passed.new < 2 ^ 60 }
    ensures certain { OnErr result (HasEntries bytes.now ⊎ (2 ^ 60 ≤ length passed.old + 1)) }
{
    ready.clear();
    if !is_record(bytes) {
        return Ok(false);
    }
    if is_skipped(bytes) {
        if passed.len() + 1 == COUNT_END {
            return Err(AllocError);
        }
        passed.push(SkippedType::of(bytes));
        return Ok(true);
    }
    if bytes.len() == 1 {
        return Ok(true);
    }
    match read_record(alloc, bytes, ready) {
        Ok(()) => Ok(true),
        Err(_) => {
            ready.clear();
            Err(AllocError)
        }
    }
}

/// Reads a whole record into the queue. Returns `false` if it is a Snappy block that cannot be
/// decoded, or if it is malformed.
fn read_whole(
    alloc: Global,
    is_block: bool,
    data: &[u8],
    decoder: &mut Decoder,
    ready: &mut VecDeque<Entry>,
    passed: &mut Skips,
) -> Result<bool, AllocError>
    requires decodes { is_block ≡ true → decoder.old.ready ≡ true }
    requires few { length passed.old < 2 ^ 60 }
    ensures ok { IfOk result
        (λ b. IsRead (is_block, data.now) passed.old ready.new.items passed.new b) }
    ensures err { OnErr result ((ready.new.items ≡ []) × (passed.new ≡ passed.old)) }
    ensures count { length passed.new < 2 ^ 60 }
    ensures certain { OnErr result
        (StoresEntries (is_block, data.now) ⊎ (2 ^ 60 ≤ length passed.old + 1)) }
    ensures same_decoder { decoder.new.ready ≡ decoder.old.ready }
{
    if !is_block {
        return read_text(alloc, data, ready, passed);
    }
    if !decoder.decode(data) {
        ready.clear();
        return Ok(false);
    }
    read_text(alloc, decoder.text(), ready, passed)
}

/// Returns a copy of the bytes, with room for `more` bytes.
fn copy_with_room(alloc: Global, bytes: &[u8], more: usize) -> Result<Vec<u8>, AllocError>
    ensures items { IfOk result (λ v. v.items ≡ bytes.now) }
    ensures room { IfOk result (λ v. length bytes.now + more ≤ vec_capacity v) }
{
    let mut copy = copy_of(alloc, bytes)?;
    copy.reserve(more)?;
    Ok(copy)
}

/// Returns a copy of the entries.
fn copy_ready(alloc: Global, ready: &VecDeque<Entry>) -> Result<VecDeque<Entry>, AllocError>
    ensures { IfOk result (λ d. d.items ≡ ready.now.items) }
{
    let mut copy = VecDeque::new(alloc);
    for i in 0..ready.len() {
        copy.push_back(ready[i].copy(alloc)?)?;
    }
    Ok(copy)
}

impl Reader {
    pub(crate) fn new(alloc: Global) -> Reader
        ensures reader { IsReader result }
        ensures unfed { IsUnfed false result }
        ensures kept { IsKept 0 result }
    {
        Reader::with_decoder(alloc, Decoder::none(alloc))
    }

    /// Returns a reader of a log that may have Snappy blocks.
    pub(crate) fn for_compressed(alloc: Global) -> Result<Reader, AllocError>
        ensures reader { IfOk result (λ r. IsReader r) }
        ensures unfed { IfOk result (λ r. IsUnfed true r) }
        ensures kept { IfOk result (λ r. IsKept 0 r) }
    {
        Ok(Reader::with_decoder(alloc, Decoder::for_blocks(alloc)?))
    }

    fn with_decoder(alloc: Global, decoder: Decoder) -> Reader
        ensures reader { IsReader result }
        ensures unfed { IsUnfed decoder.ready result }
        ensures kept { IsKept 0 result }
    {
        Reader {
            alloc,
            input: Input::new(alloc),
            left: PAGE_BYTES,
            zeros: 0,
            begun: Vec::new(alloc),
            is_open: false,
            is_block: false,
            decoder,
            ready: VecDeque::new(alloc),
            passed: Skips::new(),
            fault: None,
        }
    }

    /// Takes more bytes of the segment that came last. After a fault they are dropped, since
    /// nothing more is read.
    pub(crate) fn feed(&mut self, piece: &[u8]) -> Result<(), AllocError>
        requires { IsReader self.old }
        ensures ok { OnOk result (Takes (bytes piece.now) self.old self.new) }
        ensures err { OnErr result (Same self.old self.new) }
        ensures fault { self.new.fault ≡ self.old.fault }
        ensures ready { self.new.ready ≡ self.old.ready }
        ensures kept { (n : ℕ) → IsKept n self.old
            → MatchResult result (λ _. IsKept (n + length piece.now) self.new)
            (λ _. IsKept n self.new) }
    {
        if let Some(_) = self.fault {
            return Ok(());
        }
        if !self.input.can_count() {
            return Err(AllocError);
        }
        let Some(unread) = self.input.unread(piece.len()) else {
            return Err(AllocError);
        };
        // Joining fragments takes no memory later, so no fault waits for memory.
        self.begun.reserve(unread)?;
        self.input.feed(piece)
    }

    /// Marks the segment that came last as ended.
    pub(crate) fn next_segment(&mut self)
        requires { IsReader self.old }
        ensures takes { Takes next_segment self.old self.new }
        ensures fault { self.new.fault ≡ self.old.fault }
        ensures ready { self.new.ready ≡ self.old.ready }
        ensures kept { (n : ℕ) → IsKept n self.old → IsKept (n + 1) self.new }
    {
        self.input.end_segment();
    }

    /// Advances past a fragment: its header and `len` bytes of data.
    fn advance(&mut self, len: usize)
        requires whole { 7 + len ≤ length self.old.input.rest }
        requires in_page { 7 + len ≤ self.old.left }
        requires counted { can_count self.old.input ≡ true }
        ensures { self.new
            ≡ record self.old {
              input = passed (7 + len) self.old.input;
              left = left_after page_size self.old.left (7 + len);
              zeros = 0;
            } }
    {
        let left = self.left;
        let size = HEADER_BYTES + len;
        self.input.pass(size);
        self.left = if size < left { left - size } else { PAGE_BYTES };
        self.zeros = 0;
    }

    fn fail(&mut self, fault: TailFault) -> Step
        ensures new { self.new ≡ is_failed_by fault self.old }
        ensures step { result ≡ Failed fault }
    {
        self.fault = Some(fault);
        Step::Failed(fault)
    }

    /// Takes the first fragment of a record.
    fn first(&mut self, is_block: bool, len: usize) -> Result<Step, AllocError>
        requires { FoundAt is_block first len self.old }
        ensures same { Same self.old self.new }
        ensures stepped { MatchResult result (λ s. Stepped s self.old self.new)
            (λ _. self.new.ready.items ≡ []) }
        ensures kept { (n : ℕ) → IsKept n self.old → IsKept n self.new }
        ensures certain { (n : ℕ) → IsKept n self.old → OnErr result (MayLack n self.new) }
    {
        self.begun.clear();
        self.begun
            .extend_from_slice(fragment_data(self.input.rest(), len))?;
        self.is_open = true;
        self.is_block = is_block;
        self.advance(len);
        Ok(Step::More)
    }

    /// Takes a fragment in the middle of a record.
    fn middle(&mut self, len: usize) -> Result<Step, AllocError>
        requires { FoundAt self.old.is_block middle len self.old }
        ensures same { Same self.old self.new }
        ensures stepped { MatchResult result (λ s. Stepped s self.old self.new)
            (λ _. self.new.ready.items ≡ []) }
        ensures kept { (n : ℕ) → IsKept n self.old → IsKept n self.new }
        ensures certain { (n : ℕ) → IsKept n self.old → OnErr result (MayLack n self.new) }
    {
        self.begun
            .extend_from_slice(fragment_data(self.input.rest(), len))?;
        self.advance(len);
        Ok(Step::More)
    }

    /// Takes a record in one fragment.
    fn full(&mut self, is_block: bool, len: usize) -> Result<Step, AllocError>
        requires { FoundAt is_block full len self.old }
        ensures same { Same self.old self.new }
        ensures stepped { MatchResult result (λ s. Stepped s self.old self.new)
            (λ _. self.new.ready.items ≡ []) }
        ensures kept { (n : ℕ) → IsKept n self.old → IsKept n self.new }
        ensures certain { (n : ℕ) → IsKept n self.old → OnErr result (MayLack n self.new) }
    {
        let data = fragment_data(self.input.rest(), len);
        if !read_whole(
            self.alloc,
            is_block,
            data,
            &mut self.decoder,
            &mut self.ready,
            &mut self.passed,
        )? {
            return Ok(self.fail(TailFault::BadRecord));
        }
        self.advance(len);
        Ok(Step::More)
    }

    /// Takes the last fragment of a record.
    fn last(&mut self, len: usize) -> Result<Step, AllocError>
        requires { FoundAt self.old.is_block last len self.old }
        ensures same { Same self.old self.new }
        ensures stepped { MatchResult result (λ s. Stepped s self.old self.new)
            (λ _. self.new.ready.items ≡ []) }
        ensures kept { (n : ℕ) → IsKept n self.old → IsKept n self.new }
        ensures certain { (n : ℕ) → IsKept n self.old → OnErr result (MayLack n self.new) }
    {
        let before = self.begun.len();
        self.begun
            .extend_from_slice(fragment_data(self.input.rest(), len))?;
        match read_whole(
            self.alloc,
            self.is_block,
            self.begun.as_slice(),
            &mut self.decoder,
            &mut self.ready,
            &mut self.passed,
        ) {
            Ok(true) => {}
            Ok(false) => {
                self.begun.truncate(before);
                return Ok(self.fail(TailFault::BadRecord));
            }
            Err(e) => {
                self.begun.truncate(before);
                return Err(e);
            }
        }
        self.is_open = false;
        self.advance(len);
        Ok(Step::More)
    }

    /// Takes the fragment at the front.
    fn fragment(
        &mut self,
        kind: FragmentType,
        is_block: bool,
        len: usize,
    ) -> Result<Step, AllocError>
        requires { FoundFragment is_block (kind_of kind) len self.old }
        ensures same { Same self.old self.new }
        ensures stepped { MatchResult result (λ s. Stepped s self.old self.new)
            (λ _. self.new.ready.items ≡ []) }
        ensures kept { (n : ℕ) → IsKept n self.old → IsKept n self.new }
        ensures certain { (n : ℕ) → IsKept n self.old → OnErr result (MayLack n self.new) }
    {
        if self.is_open {
            if self.is_block != is_block {
                return Ok(self.fail(TailFault::Sequence));
            }
            match kind {
                FragmentType::Full => Ok(self.fail(TailFault::Sequence)),
                FragmentType::First => Ok(self.fail(TailFault::Sequence)),
                FragmentType::Middle => self.middle(len),
                FragmentType::Last => self.last(len),
            }
        } else {
            match kind {
                FragmentType::Full => self.full(is_block, len),
                FragmentType::First => self.first(is_block, len),
                FragmentType::Middle => Ok(self.fail(TailFault::Sequence)),
                FragmentType::Last => Ok(self.fail(TailFault::Sequence)),
            }
        }
    }

    /// Stops at the end of what has come of the current segment.
    fn pause(&mut self, is_inside: bool) -> Step
        requires { PausesAt is_inside self.old }
        ensures same { Same self.old self.new }
        ensures stepped { Stepped result self.old self.new }
        ensures kept { (n : ℕ) → IsKept n self.old → IsKept n self.new }
    {
        if !self.input.has_ended() {
            return Step::Waits;
        }
        if is_inside {
            return self.fail(TailFault::TornSegment);
        }
        self.input.begin_segment();
        self.left = PAGE_BYTES;
        self.zeros = 0;
        Step::More
    }

    /// Reads what comes at the front.
    fn step(&mut self) -> Result<Step, AllocError>
        requires reader { IsReader self.old }
        requires none_ready { self.old.ready.items ≡ [] }
        ensures same { Same self.old self.new }
        ensures stepped { MatchResult result (λ s. Stepped s self.old self.new)
            (λ _. self.new.ready.items ≡ []) }
        ensures kept { (n : ℕ) → IsKept n self.old → IsKept n self.new }
        ensures certain { (n : ℕ) → IsKept n self.old → OnErr result (MayLack n self.new) }
    {
        if let Some(fault) = self.fault {
            return Ok(Step::Failed(fault));
        }
        if !self.input.can_count() {
            return Err(AllocError);
        }
        match item(
            self.decoder.is_ready(),
            self.left,
            self.zeros,
            self.input.rest(),
        ) {
            Found::Nothing => {
                self.zeros = self.input.rest().len();
                Ok(self.pause(self.is_open))
            }
            Found::Begun => Ok(self.pause(true)),
            Found::Zeros => {
                self.input.pass(self.left);
                self.left = PAGE_BYTES;
                self.zeros = 0;
                Ok(Step::More)
            }
            Found::Fragment(kind, is_block, len) => self.fragment(kind, is_block, len),
            Found::Wrong(fault) => Ok(self.fail(fault)),
        }
    }

    /// Reads on until an entry is ready or no more can be read.
    pub(crate) fn run(&mut self) -> Result<Step, AllocError>
        requires { IsReader self.old }
        ensures same { Same self.old self.new }
        ensures ran { IfOk result (λ s. Ran s self.new) }
        ensures kept { (n : ℕ) → IsKept n self.old → IsKept n self.new }
        ensures certain { (n : ℕ) → IsKept n self.old → OnErr result (MayLack n self.new) }
    {
        while self.ready.is_empty() {
            match self.step()? {
                Step::More => {}
                end => return Ok(end),
            }
        }
        Ok(Step::More)
    }

    /// Takes the entry that is ready.
    pub(crate) fn take_entry(&mut self) -> Entry
        requires { 0 < length self.old.ready.items }
        ensures taken { self.old.ready.items ≡ result ∷ self.new.ready.items }
        ensures rest { self.new ≡ record self.old { ready = self.new.ready } }
    {
        self.ready.pop_front().unwrap()
    }

    /// Returns the current segment, and the offset in it of what comes at the front.
    pub(crate) fn place(&self) -> FaultPlace
        ensures { result ≡ front_of self.now.input }
    {
        FaultPlace {
            segment: self.input.segment(),
            offset: self.input.offset(),
        }
    }

    /// Returns a copy of the reader.
    pub(crate) fn copy(&self) -> Result<Reader, AllocError>
        requires { IsReader self.now }
        ensures same { IfOk result (λ r. Same self.now r) }
        ensures fault { IfOk result (λ r. r.fault ≡ self.now.fault) }
        ensures ready { IfOk result (λ r. r.ready.items ≡ self.now.ready.items) }
        ensures kept { (n : ℕ) → IsKept n self.now → IfOk result (λ r. IsKept n r) }
    {
        let Some(unread) = self.input.unread(0) else {
            return Err(AllocError);
        };
        Ok(Reader {
            alloc: self.alloc,
            input: self.input.copy(self.alloc)?,
            left: self.left,
            zeros: self.zeros,
            begun: copy_with_room(self.alloc, &self.begun, unread)?,
            is_open: self.is_open,
            is_block: self.is_block,
            decoder: self.decoder.copy(self.alloc)?,
            ready: copy_ready(self.alloc, &self.ready)?,
            passed: self.passed.again(),
            fault: self.fault,
        })
    }
}

//! The bytes of a log that are not read yet.

ghost use Rattle.std.specs.Prelude.{◌≡◌, ◌≤◌, ◌<◌, ◌+◌, ◌*◌, true, length, drop, map, IfOk, IfSome, OnOk, OnErr};
ghost use Rattle.rw_wal_tail.specs.inner.Held.{has_ended, begun_with, extend_last, fed, unfed, passed, marked, can_count, waits_as, later_bytes};

use std::alloc::{AllocError, Global};
use std::collections::VecDeque;
use std::marker::Model;

/// No count reaches this. If one would, the call reports that memory ran out.
pub(crate) const COUNT_END: u64 = 1 << 60;

/// A segment that waits to be read.
#[derive(Drop)]
struct Segment {
    /// How many segments come before it.
    number: u64,
    bytes: Vec<u8>,
}

/// The rest of the current segment, and what has come of the segments after it.
#[derive(Drop)]
pub(crate) struct Input {
    /// How many segments come before the current one.
    segment: u64,
    /// How many of its bytes were read.
    offset: u64,
    buffer: Vec<u8>,
    /// Where the rest begins in the buffer.
    at: usize,
    later: VecDeque<Segment>,
    ended: bool,
    /// How many segments have ended, up to `COUNT_END`.
    ends: u64,
}

impl Model for Input {
    ghost use Rattle.std.specs.Prelude.{◌≤◌, drop, length, map};
    ghost use Rattle.rw_wal_tail.specs.inner.Held.{Held, waits_as};

    ghost Value = { Held };

    ghost view = { λ i. record {
      segment = i.segment;
      offset = i.offset;
      rest = drop i.at i.buffer.items;
      later = map waits_as i.later.items;
      ended = i.ended;
      ends = i.ends;
    } };

    ghost invariant = { λ i. i.at ≤ length i.buffer.items };
}

/// Removes the first `count` bytes.
fn remove_front(buffer: &mut Vec<u8>, count: usize)
    requires { count ≤ length buffer.old.items }
    ensures { buffer.new.items ≡ drop count buffer.old.items }
{
    buffer.drain(..count);
}

/// Moves what is not read to the front, once that is no more than what was read. So each byte that
/// is read pays for one that is moved, and the buffer is at most twice as long as what is not read.
fn compact(buffer: &mut Vec<u8>, at: &mut usize)
    requires { at.old ≤ length buffer.old.items }
    ensures within { at.new ≤ length buffer.new.items }
    ensures rest { drop at.new buffer.new.items ≡ drop at.old buffer.old.items }
    ensures few { length buffer.new.items ≤ 2 * length (drop at.old buffer.old.items) }
{
    if *at >= buffer.len() - *at {
        remove_front(buffer, *at);
        *at = 0;
    }
}

/// Appends bytes to the last segment.
fn extend_last_segment(later: &mut VecDeque<Segment>, piece: &[u8]) -> Result<(), AllocError>
    requires { 0 < length later.old.items }
    ensures ok { OnOk result
        (map waits_as later.new.items ≡ extend_last piece.now (map waits_as later.old.items)) }
    ensures err { OnErr result (map waits_as later.new.items ≡ map waits_as later.old.items) }
{
    let last = later.len() - 1;
    later[last].bytes.extend_from_slice(piece)
}

/// Returns a copy of the bytes.
pub(crate) fn copy_of(alloc: Global, bytes: &[u8]) -> Result<Vec<u8>, AllocError>
    ensures { IfOk result (λ v. v.items ≡ bytes.now) }
{
    bytes.to_vec(alloc)
}

/// Returns a copy of the segments.
fn copy_all(alloc: Global, segments: &VecDeque<Segment>) -> Result<VecDeque<Segment>, AllocError>
    ensures { IfOk result (λ d. map waits_as d.items ≡ map waits_as segments.now.items) }
{
    let mut copy = VecDeque::new(alloc);
    for i in 0..segments.len() {
        let segment = &segments[i];
        copy.push_back(Segment {
            number: segment.number,
            bytes: copy_of(alloc, &segment.bytes)?,
        })?;
    }
    Ok(copy)
}

/// Returns the number of bytes of the segments plus `count`, or `None` if it does not fit `usize`.
fn add_bytes(count: usize, segments: &VecDeque<Segment>) -> Option<usize>
    ensures { IfSome result (λ n. n ≡ count + later_bytes (map waits_as segments.now.items)) }
{
    let mut total = count;
    for i in 0..segments.len() {
        let Some(more) = total.checked_add(segments[i].bytes.len()) else {
            return None;
        };
        total = more;
    }
    Some(total)
}

impl Input {
    pub(crate) fn new(alloc: Global) -> Input
        ensures { result ≡ unfed }
    {
        Input {
            segment: 0,
            offset: 0,
            buffer: Vec::new(alloc),
            at: 0,
            later: VecDeque::new(alloc),
            ended: false,
            ends: 0,
        }
    }

    /// Returns how many segments come before the current one.
    pub(crate) fn segment(&self) -> u64
        ensures { result ≡ self.now.segment }
    {
        self.segment
    }

    /// Returns how many bytes of the current segment were read.
    pub(crate) fn offset(&self) -> u64
        ensures { result ≡ self.now.offset }
    {
        self.offset
    }

    /// Returns whether bytes and segments can still be counted.
    pub(crate) fn can_count(&self) -> bool
        ensures { result ≡ can_count self.now }
    {
        self.offset < COUNT_END && self.ends < COUNT_END
    }

    /// Returns the bytes of the current segment that are not read.
    pub(crate) fn rest(&self) -> &[u8]
        ensures { result.now ≡ self.now.rest }
    {
        &self.buffer[self.at..]
    }

    /// Returns how many bytes are not read, of all segments and of `more`, or `None` if the number
    /// does not fit `usize`.
    pub(crate) fn unread(&self, more: usize) -> Option<usize>
        ensures { IfSome result
            (λ n. n ≡ more + length self.now.rest + later_bytes self.now.later) }
    {
        match more.checked_add(self.rest().len()) {
            Some(count) => add_bytes(count, &self.later),
            None => None,
        }
    }

    /// Advances past `count` bytes of the current segment.
    pub(crate) fn pass(&mut self, count: usize)
        requires rest { count ≤ length self.old.rest }
        requires counted { can_count self.old ≡ true }
        ensures { self.new ≡ passed count self.old }
    {
        self.at += count;
        self.offset += count as u64;
    }

    /// Returns whether the current segment has ended.
    pub(crate) fn has_ended(&self) -> bool
        ensures { result ≡ has_ended self.now.later self.now.ended }
    {
        self.ended || !self.later.is_empty()
    }

    /// Goes on to the next segment.
    pub(crate) fn begin_segment(&mut self)
        requires { has_ended self.old.later self.old.ended ≡ true }
        ensures { self.new ≡ begun_with self.old.later self.old.ended self.old.ends }
    {
        self.at = 0;
        self.offset = 0;
        match self.later.pop_front() {
            Some(segment) => {
                self.segment = segment.number;
                self.buffer = segment.bytes;
            }
            None => {
                self.segment = self.ends;
                self.buffer.clear();
                self.ended = false;
            }
        }
    }

    /// Marks the last segment as ended. If it had ended before, the segment between the two ends is
    /// empty, and the two ends need not be distinguished.
    pub(crate) fn end_segment(&mut self)
        ensures { self.new ≡ marked self.old }
    {
        self.ended = true;
        if self.ends < COUNT_END {
            self.ends += 1;
        }
    }

    /// Appends bytes to the last segment.
    pub(crate) fn feed(&mut self, piece: &[u8]) -> Result<(), AllocError>
        ensures ok { OnOk result (self.new ≡ fed piece.now self.old) }
        ensures err { OnErr result (self.new ≡ self.old) }
    {
        if self.ended {
            let alloc = *self.buffer.allocator();
            self.later.push_back(Segment {
                number: self.ends,
                bytes: piece.to_vec(alloc)?,
            })?;
            self.ended = false;
            Ok(())
        } else if self.later.is_empty() {
            compact(&mut self.buffer, &mut self.at);
            self.buffer.extend_from_slice(piece)
        } else {
            extend_last_segment(&mut self.later, piece)
        }
    }

    /// Returns a copy of the input.
    pub(crate) fn copy(&self, alloc: Global) -> Result<Input, AllocError>
        ensures { IfOk result (λ i. i ≡ self.now) }
    {
        let later = copy_all(alloc, &self.later)?;
        Ok(Input {
            segment: self.segment,
            offset: self.offset,
            buffer: copy_of(alloc, self.rest())?,
            at: 0,
            later,
            ended: self.ended,
            ends: self.ends,
        })
    }
}

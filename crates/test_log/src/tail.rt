//! The reader that follows a log: rows of the format, whole, in pieces, changed, and with failing
//! allocations.

use crate::fragments::{is_logged, put_fragment, up_record};
use crate::rows::{holds, no_number_is_wrong, none_is_wrong};
use End::{All, Place};
use Piece::{Bytes, Next, Up};
use rw_test_parts::UP_SEGMENT as UP;
use rw_types::{Entry, Room, Word};
use rw_wal_tail::{FaultPlace, SkippedType, Tail, TailFault};
use rw_wal_write::{SegmentWriter, sample_record};
use std::alloc::{AllocError, Global};

/// What a reader returned, and how it ended.
#[derive(Clone, Copy, PartialEq, Eq)]
struct Seen {
    definitions: u64,
    samples: u64,
    /// Reference, time and bits of the last sample.
    last: (u64, i64, u64),
    end: Option<TailFault>,
}

const NOTHING: Seen = Seen {
    definitions: 0,
    samples: 0,
    last: (0, 0, 0),
    end: None,
};

const DEFINITION: Seen = Seen {
    definitions: 1,
    samples: 0,
    last: (0, 0, 0),
    end: None,
};

const BOTH: Seen = Seen {
    definitions: 1,
    samples: 1,
    last: (1, 1000, 0x3ff0_0000_0000_0000),
    end: None,
};

impl Seen {
    fn but(self, end: TailFault) -> Seen {
        Seen {
            end: Some(end),
            ..self
        }
    }

    fn take(&mut self, entry: Entry) {
        match entry {
            Entry::Def { reference, labels } => {
                if reference == 1 && labels.len() == 1 {
                    self.definitions = self.definitions.wrapping_add(1);
                }
            }
            Entry::Sample { reference, t, word } => {
                self.samples = self.samples.wrapping_add(1);
                self.last = (reference, t, word.0);
            }
        }
    }

    /// Reads on until no entry comes. A call for which memory ran out is made again.
    fn read(&mut self, tail: &mut Tail) {
        for _ in 0..100_000u32 {
            match tail.next_entry() {
                Ok(Some(entry)) => self.take(entry),
                Ok(None) => {
                    self.end = None;
                    return;
                }
                Err(TailFault::OutOfMemory) => {}
                Err(fault) => {
                    self.end = Some(fault);
                    return;
                }
            }
        }
    }

    /// Feeds a piece, and reads on.
    fn feed(&mut self, tail: &mut Tail, piece: &[u8]) {
        if is_fed(tail, piece) {
            self.read(tail);
        } else {
            self.end = Some(TailFault::OutOfMemory);
        }
    }
}

/// Feeds a piece, a second time if memory ran out: so if an allocation fails, each in turn, the
/// same is read.
fn is_fed(tail: &mut Tail, piece: &[u8]) -> bool {
    tail.feed(piece).is_ok() || tail.feed(piece).is_ok()
}

/// Puts a fragment of this kind with `len` bytes 3, which begin a record of another type.
fn put_filler(out: &mut Vec<u8>, kind: u8, len: usize) -> Result<(), AllocError> {
    let data = vec![in *out.allocator(); 3u8; len]?;
    put_fragment(out, kind, &data)
}

/// Returns whether a reader returns this for a prefix, and then everything for both parts.
fn reads_in_two(alloc: Global, front: &[u8], back: &[u8], first: Seen) -> bool {
    let mut tail = Tail::new(alloc);
    let mut seen = NOTHING;
    seen.feed(&mut tail, front);
    let is_so = seen == first;
    seen.feed(&mut tail, back);
    is_so && seen == BOTH
}

/// Returns what is read of a prefix of `cut` bytes.
fn of_front(cut: usize) -> Seen {
    match cut {
        0..29 => NOTHING,
        29..63 => DEFINITION,
        _ => BOTH,
    }
}

fn wrong_cut(alloc: Global) -> Option<usize> {
    for cut in 0..=63usize {
        let (front, back) = UP.split_at(cut);
        if !reads_in_two(alloc, front, back, of_front(cut)) {
            return Some(cut);
        }
    }
    None
}

#[test]
fn cut_anywhere(rt: HostRuntime) {
    no_number_is_wrong(&rt, wrong_cut(rt.alloc()));
}

/// Feeds pieces of `size` bytes, and reads after each of them.
fn feed_by(tail: &mut Tail, text: &[u8], size: usize) -> Seen {
    let mut seen = NOTHING;
    for piece in text.chunks(size.max(1)) {
        seen.feed(tail, piece);
    }
    seen
}

/// Returns whether a text in pieces of `size` bytes gives this, and this many entries are read and
/// skipped.
fn reads_all(alloc: Global, text: &[u8], size: usize, all: Seen, read: u64, skipped: u64) -> bool {
    let mut tail = Tail::new(alloc);
    let seen = feed_by(&mut tail, text, size);
    seen == all && tail.entries_read() == read && tail.skipped() == skipped
}

#[test]
fn byte_by_byte(rt: HostRuntime) {
    holds(&rt, reads_all(rt.alloc(), &UP, 1, BOTH, 2, 0));
}

/// Returns what a copy of a reader has returned in all once the copy is fed another piece.
fn read_by_copy(tail: &Tail, seen: Seen, piece: &[u8]) -> Option<Seen> {
    let mut copy = tail.copy().ok()?;
    let mut all = seen;
    all.feed(&mut copy, piece);
    Some(all)
}

/// Returns whether a copy returns the rest, the reader does not without it, and does with it.
fn reads_beside_copy(alloc: Global) -> bool {
    let mut tail = Tail::new(alloc);
    let (front, back) = UP.split_at(40);
    let mut seen = NOTHING;
    seen.feed(&mut tail, front);
    let is_so = read_by_copy(&tail, seen, back) == Some(BOTH);
    seen.read(&mut tail);
    let is_unmoved = seen == DEFINITION;
    seen.feed(&mut tail, back);
    is_so && is_unmoved && seen == BOTH
}

#[test]
fn copy_reads_on_by_itself(rt: HostRuntime) {
    holds(&rt, reads_beside_copy(rt.alloc()));
}

/// Returns what is seen once a byte has another value.
fn changed(at: usize, value: u8) -> Seen {
    let before = if at < 29 { NOTHING } else { DEFINITION };
    match (at, value) {
        (0 | 29, 0) => before.but(TailFault::NonzeroPadding),
        (29, 2) => before,
        (0 | 29, 2..=4) => before.but(TailFault::Sequence),
        (0 | 29, 8..=31) => before.but(TailFault::Compressed),
        (0 | 29, _) => before.but(TailFault::BadType),
        (1 | 30, 0..=127) => before,
        (1 | 30, _) => before.but(TailFault::BadLength),
        (2, 57..) => before,
        (31, 28..) => before,
        _ => before.but(TailFault::BadCrc),
    }
}

/// Returns whether the text with this byte changed is read as it should be.
fn is_as_changed(alloc: Global, text: &[u8], at: usize, value: u8) -> bool {
    let mut tail = Tail::new(alloc);
    let mut seen = NOTHING;
    seen.feed(&mut tail, text);
    seen == changed(at, value)
}

/// Returns the first value of the byte at this place that is read differently.
fn wrong_value(alloc: Global, at: usize) -> Option<u8> {
    let mut text = UP;
    for value in 0..=255u8 {
        text[at % 63] = value;
        if value != UP[at % 63] && !is_as_changed(alloc, &text, at, value) {
            return Some(value);
        }
    }
    None
}

fn wrong_change(alloc: Global) -> Option<usize> {
    for at in 0..UP.len() {
        if wrong_value(alloc, at).is_some() {
            return Some(at);
        }
    }
    None
}

#[test]
fn each_byte_changed(rt: HostRuntime) {
    no_number_is_wrong(&rt, wrong_change(rt.alloc()));
}

/// Returns whether each of the next calls returns this fault, whatever is fed between them.
fn answers_only(tail: &mut Tail, fault: TailFault) -> bool {
    for _ in 0..3u32 {
        match tail.next_entry() {
            Err(found) if found == fault => {}
            _ => return false,
        }
        if !is_fed(tail, &UP) {
            return false;
        }
    }
    true
}

/// Returns whether `UP` with its last byte changed gives its definition, and then only this fault.
fn repeats_its_fault(alloc: Global, fault: TailFault) -> bool {
    let mut text = UP;
    text[62] = 1;
    let mut tail = Tail::new(alloc);
    let mut seen = NOTHING;
    seen.feed(&mut tail, &text);
    seen == DEFINITION.but(fault) && answers_only(&mut tail, fault)
}

#[test]
fn a_wrong_crc_is_the_answer_of_each_later_call(rt: HostRuntime) {
    holds(&rt, repeats_its_fault(rt.alloc(), TailFault::BadCrc));
}

/// A fragment of a malformed record.
const BAD_RECORD: &[u8] = &[
    1, 0, 19, 0x7e, 0xa6, 0xff, 0x1a, 1, 0, 0, 0, 0, 0, 0, 0, 1, 255, 255, 255, 255, 255, 255, 255,
    255, 255, 1,
];

/// Texts, and the fault that their last byte shows.
static FAULTS: [(&str, &[u8], TailFault); 8] = [
    ("an unknown type", &[5], TailFault::BadType),
    ("a long one", &[1, 128, 0, 0, 0, 0, 0], TailFault::BadLength),
    ("another CRC", &[1, 0, 1, 0, 0, 0, 0, 2], TailFault::BadCrc),
    ("a compressed record", &[8], TailFault::Compressed),
    ("bad padding", &[0, 0, 1], TailFault::NonzeroPadding),
    ("a lone middle", &[3, 0, 0, 0, 0, 0, 0], TailFault::Sequence),
    (
        "two beginnings",
        &[2, 0, 0, 0, 0, 0, 0, 2, 0, 0, 0, 0, 0, 0],
        TailFault::Sequence,
    ),
    ("a malformed record", BAD_RECORD, TailFault::BadRecord),
];

/// Feeds a text byte by byte, and returns whether anything is read before the last of them.
fn feed_bytes(seen: &mut Seen, tail: &mut Tail, text: &[u8]) -> bool {
    let mut is_early = false;
    for byte in text {
        is_early |= *seen != NOTHING;
        seen.feed(tail, &[*byte]);
    }
    is_early
}

/// Returns whether the fault comes with the last byte and not before, and stays.
fn is_fault_at_once(alloc: Global, text: &[u8], fault: TailFault) -> bool {
    let mut tail = Tail::new(alloc);
    let mut seen = NOTHING;
    let is_early = feed_bytes(&mut seen, &mut tail, text);
    let is_at_end = seen == NOTHING.but(fault);
    seen.feed(&mut tail, &UP);
    tail.next_segment();
    seen.read(&mut tail);
    !is_early && is_at_end && seen == NOTHING.but(fault)
}

fn wrong_fault(alloc: Global) -> Option<&'static str> {
    for (name, text, fault) in &FAULTS {
        if !is_fault_at_once(alloc, text, *fault) {
            return Some(name);
        }
    }
    None
}

#[test]
fn faults_stay_and_come_at_once(rt: HostRuntime) {
    none_is_wrong(&rt, wrong_fault(rt.alloc()));
}

/// What a reader is given.
enum Piece {
    /// The bytes of `UP` from one place up to another.
    Up(usize, usize),
    Bytes(&'static [u8]),
    /// The next segment.
    Next,
}

/// What is seen at the end.
enum End {
    /// This, if it is read at the end.
    All(Seen),
    /// The segment and the offset of a fault, if it is also read after each piece.
    Place(Option<(u64, u64)>),
}

/// A whole fragment of a record that lacks the others.
const OPENING: Piece = Bytes(&[2, 0, 0, 0, 0, 0, 0]);

const TORN: End = All(Seen {
    definitions: 1,
    samples: 0,
    last: (0, 0, 0),
    end: Some(TailFault::TornSegment),
});

const TWICE: End = All(Seen {
    definitions: 2,
    samples: 2,
    last: (1, 1000, 0x3ff0_0000_0000_0000),
    end: None,
});

/// Pieces, and what is seen of them.
static ENDS: [(&str, &[Piece], End); 11] = [
    ("torn", &[Up(0, 34), Next], TORN),
    ("torn, and a rest", &[Up(0, 34), Next, Up(34, 63)], TORN),
    (
        "three segments",
        &[Up(0, 63), Next, Next, Up(0, 34), Up(34, 63), Next],
        TWICE,
    ),
    (
        "zeros at the end",
        &[Next, Up(0, 63), Bytes(&[0, 0]), Next, Up(0, 63)],
        TWICE,
    ),
    ("begun, and no end", &[Up(0, 63), OPENING], Place(None)),
    (
        "a bad type",
        &[Up(0, 63), Bytes(&[5])],
        Place(Some((0, 63))),
    ),
    (
        "bad padding",
        &[Up(0, 63), Bytes(&[0, 0, 1])],
        Place(Some((0, 63))),
    ),
    (
        "a bad record in the third segment",
        &[
            Up(0, 63),
            Next,
            Next,
            Up(0, 29),
            Bytes(BAD_RECORD),
            Up(0, 63),
        ],
        Place(Some((2, 29))),
    ),
    (
        "not read yet",
        &[Up(0, 29), Up(29, 63), Next, Bytes(&[4])],
        Place(None),
    ),
    (
        "torn in the data",
        &[Up(0, 29), Up(29, 34), Next],
        Place(Some((0, 29))),
    ),
    (
        "torn between parts",
        &[Up(0, 63), OPENING, Next, Up(0, 63)],
        Place(Some((0, 70))),
    ),
];

/// Feeds a piece. The answer is no if memory runs out.
fn is_given(tail: &mut Tail, piece: &Piece) -> bool {
    match piece {
        Up(from, to) => match UP.get(*from..*to) {
            Some(bytes) => is_fed(tail, bytes),
            None => false,
        },
        Bytes(bytes) => is_fed(tail, bytes),
        Next => {
            tail.next_segment();
            true
        }
    }
}

/// Feeds pieces, and reads after each of them if asked to.
fn are_given(tail: &mut Tail, seen: &mut Seen, pieces: &[Piece], reads: bool) -> bool {
    for piece in pieces {
        if !is_given(tail, piece) {
            return false;
        }
        if reads {
            seen.read(tail);
        }
    }
    true
}

/// Returns the segment and the offset of the fault, if there is one.
fn place_of(tail: &Tail) -> Option<(u64, u64)> {
    match tail.fault_place() {
        Some(FaultPlace { segment, offset }) => Some((segment, offset)),
        None => None,
    }
}

/// Returns whether this is seen of pieces.
fn is_seen(alloc: Global, pieces: &[Piece], end: &End) -> bool {
    let mut tail = Tail::new(alloc);
    let mut seen = NOTHING;
    if !are_given(&mut tail, &mut seen, pieces, matches!(end, Place(_))) {
        return false;
    }
    seen.read(&mut tail);
    match end {
        All(all) => seen == *all,
        Place(place) => place_of(&tail) == *place,
    }
}

fn wrong_end(alloc: Global) -> Option<&'static str> {
    for (name, pieces, end) in &ENDS {
        if !is_seen(alloc, pieces, end) {
            return Some(name);
        }
    }
    None
}

#[test]
fn ends_of_segments_and_places_of_faults(rt: HostRuntime) {
    none_is_wrong(&rt, wrong_end(rt.alloc()));
}

/// A filler of this many bytes, and the end of its page. With seven bytes left there is a fragment
/// without data, with six there are zeros.
static PAGES: [(&str, usize, &[u8]); 2] = [
    (
        "a fragment without data",
        32_754,
        &[2, 0, 0, 0, 0, 0, 0, 4, 0, 1, 0xb3, 0x46, 0x23, 0xa6, 2],
    ),
    (
        "zeros",
        32_755,
        &[0, 0, 0, 0, 0, 0, 1, 0, 1, 0xb3, 0x46, 0x23, 0xa6, 2],
    ),
];

/// Puts a filler of `filler` bytes, this end of its page, and the two records.
fn put_page(text: &mut Vec<u8>, filler: usize, end: &[u8]) -> Result<(), AllocError> {
    put_filler(text, 1, filler)?;
    text.extend_from_slice(end)?;
    text.extend_from_slice(&UP)
}

/// Returns whether both records are read of such a page, and the filler is skipped.
fn is_page_read(alloc: Global, filler: usize, end: &[u8]) -> bool {
    let mut text = Vec::new(alloc);
    put_page(&mut text, filler, end).is_ok() && reads_all(alloc, &text, text.len(), BOTH, 2, 1)
}

fn wrong_page(alloc: Global) -> Option<&'static str> {
    for (name, filler, end) in &PAGES {
        if !is_page_read(alloc, *filler, end) {
            return Some(name);
        }
    }
    None
}

#[test]
fn ends_of_pages(rt: HostRuntime) {
    none_is_wrong(&rt, wrong_page(rt.alloc()));
}

/// Puts a record of 7,000 samples.
fn put_long_record(record: &mut Vec<u8>) -> Result<(), AllocError> {
    record.extend_from_slice(&UP[36..53])?;
    for _ in 0..7_000u32 {
        record.extend_from_slice(&[0, 2, 0, 0, 0, 0, 0, 0, 0, 9])?;
    }
    Ok(())
}

/// Puts a record in fragments of three pages, and zeros.
fn put_pages(text: &mut Vec<u8>, record: &[u8]) -> Result<(), AllocError> {
    for (kind, data) in [2u8, 3, 4].iter().zip(record.chunks(32_761)) {
        put_fragment(text, *kind, data)?;
    }
    text.extend_from_slice(&[0; 1_000])
}

/// What is seen of the record.
const LONG: Seen = Seen {
    definitions: 0,
    samples: 7_000,
    last: (1, 1_001, 9),
    end: None,
};

/// Returns whether the record is read of its pages.
fn is_long_record_read(alloc: Global) -> bool {
    let mut record = Vec::new(alloc);
    let mut text = Vec::new(alloc);
    put_long_record(&mut record).is_ok()
        && put_pages(&mut text, &record).is_ok()
        && reads_all(alloc, &text, 1_000, LONG, 7_000, 0)
}

#[test]
fn a_record_over_three_pages(rt: HostRuntime) {
    holds(&rt, is_long_record_read(rt.alloc()));
}

/// Returns whether a definition, a record of another type, two samples and no sample are logged.
fn are_logged(alloc: Global, writer: &mut SegmentWriter<Room>) -> bool {
    let samples = [(1, 1000, Word(5)), (3, 990, Word(7))];
    is_logged(writer, up_record(alloc))
        && is_logged(writer, b"\x03 of another type".to_vec(alloc))
        && is_logged(writer, sample_record(alloc, &samples))
        && is_logged(writer, sample_record(alloc, &[]))
}

/// What is seen of these records.
const WRITTEN: Seen = Seen {
    definitions: 1,
    samples: 2,
    last: (3, 990, 7),
    end: None,
};

/// Returns whether these records are read of their segment.
fn is_written_read(alloc: Global) -> bool {
    let Ok(room) = Room::new(alloc, 1000) else {
        return false;
    };
    let mut writer = SegmentWriter::new(room, 1);
    let is_written = are_logged(alloc, &mut writer);
    let text = writer.into_inner().into_bytes();
    is_written && reads_all(alloc, &text, text.len(), WRITTEN, 3, 1)
}

#[test]
fn what_was_written_is_read(rt: HostRuntime) {
    holds(&rt, is_written_read(rt.alloc()));
}

/// Returns whether the fault is here in a segment whose first page is a fragment of this kind, and
/// whose second page begins in this way.
fn is_place_past_page(alloc: Global, kind: u8, next: &[u8], offset: u64) -> bool {
    let mut text = Vec::new(alloc);
    let mut tail = Tail::new(alloc);
    let mut seen = NOTHING;
    if put_filler(&mut text, kind, 32_761).is_err() || text.extend_from_slice(next).is_err() {
        return false;
    }
    seen.feed(&mut tail, &text);
    place_of(&tail) == Some((0, offset))
}

/// The second record of the page has another CRC, and so has the end of the record that began on
/// the first page.
#[test]
fn places_of_faults_past_a_page(rt: HostRuntime) {
    let mut damaged = UP;
    damaged[62] = 1;
    holds(&rt, is_place_past_page(rt.alloc(), 1, &damaged, 32_797));
    let end = [4, 0, 1, 0, 0, 0, 0, 2];
    holds(&rt, is_place_past_page(rt.alloc(), 2, &end, 32_768));
}

/// Puts a record of each type up to 12, an empty one, and two more of histograms.
fn put_skipped(text: &mut Vec<u8>) -> Result<(), AllocError> {
    for kind in 0..=12u8 {
        put_fragment(text, 1, &[kind])?;
    }
    put_fragment(text, 1, &[])?;
    put_fragment(text, 1, &[7, 1, 2])?;
    put_fragment(text, 1, &[7, 9])
}

/// Returns how many records of each type a reader has skipped.
fn counts(tail: &Tail) -> [u64; 9] {
    [
        tail.skipped_of(SkippedType::Unknown),
        tail.skipped_of(SkippedType::Tombstones),
        tail.skipped_of(SkippedType::Exemplars),
        tail.skipped_of(SkippedType::MmapMarkers),
        tail.skipped_of(SkippedType::Metadata),
        tail.skipped_of(SkippedType::Histograms),
        tail.skipped_of(SkippedType::FloatHistograms),
        tail.skipped_of(SkippedType::CustomHistograms),
        tail.skipped_of(SkippedType::CustomFloatHistograms),
    ]
}

/// Whether a reader counts these records by type, once it has read to their end, and so does its
/// copy.
fn are_counted_by_type(alloc: Global) -> bool {
    let mut text = Vec::new(alloc);
    if put_skipped(&mut text).is_err() {
        return false;
    }
    let mut tail = Tail::new(alloc);
    if !is_fed(&mut tail, &text) || counts(&tail) != [0; 9] {
        return false;
    }
    let mut seen = NOTHING;
    seen.read(&mut tail);
    let Ok(copy) = tail.copy() else {
        return false;
    };
    let wanted = [4, 1, 1, 1, 1, 3, 1, 1, 1];
    seen == NOTHING && tail.skipped() == 14 && counts(&tail) == wanted && counts(&copy) == wanted
}

#[test]
fn records_that_are_passed_over_are_counted_by_type(rt: HostRuntime) {
    holds(&rt, are_counted_by_type(rt.alloc()));
}

/// The first byte whose type has another number than the byte, or 0 if it is not from 3 to 10.
fn wrong_number() -> Option<usize> {
    for byte in 0..=255u8 {
        let wanted = if byte >= 3 && byte <= 10 { byte } else { 0 };
        if SkippedType::from_byte(byte).number() != wanted {
            return Some(byte as usize);
        }
    }
    None
}

#[test]
fn types_of_records_have_their_bytes(rt: HostRuntime) {
    no_number_is_wrong(&rt, wrong_number());
}

//! The bytes of records and segments, and devices that fail in mid-stream.

ghost use Rattle.std.specs.Prelude.{◌<◌, ◌≤◌};

use crate::fragments::{is_logged, put_fragment, up_record};
use crate::rows::{holds, no_number_is_wrong, none_is_wrong};
use rw_test_parts::{Taking, UP_SEGMENT as UP};
use rw_types::{Room, Sink, Word};
use rw_wal_write::{LogFault, SegmentWriter, sample_record};
use std::alloc::{AllocError, Global};
use std::cell::Cell;

/// What is in a segment.
enum Expected {
    /// A fragment of this type, whose data are this byte, this many times.
    Fragment(u8, u8, usize),
    Zeros(usize),
}

use Expected::{Fragment, Zeros};

/// Returns a run of `len` times a byte.
fn run_of(alloc: Global, byte: u8, len: usize) -> Result<Vec<u8>, AllocError> {
    vec![in alloc; byte; len]
}

fn put_expected(alloc: Global, out: &mut Vec<u8>, expected: &Expected) -> Result<(), AllocError> {
    match expected {
        Fragment(kind, byte, len) => put_fragment(out, *kind, &run_of(alloc, *byte, *len)?),
        Zeros(len) => out.extend_from_slice(&run_of(alloc, 0, *len)?),
    }
}

fn put_all_expected(
    alloc: Global,
    out: &mut Vec<u8>,
    expected: &[Expected],
) -> Result<(), AllocError> {
    for item in expected {
        put_expected(alloc, out, item)?;
    }
    Ok(())
}

/// Returns whether logging a record of `len` times this byte has this result.
fn logs<W: Sink>(
    alloc: Global,
    writer: &mut SegmentWriter<W>,
    byte: u8,
    len: usize,
    want: Result<(), LogFault>,
) -> bool {
    match run_of(alloc, byte, len) {
        Ok(run) => !run.is_empty() && writer.log(&run) == want,
        Err(_) => false,
    }
}

/// A run of a byte that is logged, the result, and where the writer then is.
struct Step {
    name: &'static str,
    byte: u8,
    len: usize,
    want: Result<(), LogFault>,
    offset: usize,
}

/// Returns the first step that differs.
fn wrong_step(
    alloc: Global,
    writer: &mut SegmentWriter<Room>,
    steps: &[Step],
) -> Option<&'static str> {
    for step in steps {
        let is_so = logs(alloc, writer, step.byte, step.len, step.want);
        if !is_so || writer.offset() != step.offset {
            return Some(step.name);
        }
    }
    None
}

/// Returns whether each of these runs is logged.
fn are_logged(alloc: Global, writer: &mut SegmentWriter<Room>, runs: &[(u8, usize)]) -> bool {
    for (byte, len) in runs {
        if !logs(alloc, writer, *byte, *len, Ok(())) {
            return false;
        }
    }
    true
}

/// Returns the segment of such runs, which have room in three pages, or nothing if one is not
/// logged.
fn segment_of(alloc: Global, runs: &[(u8, usize)]) -> Vec<u8> {
    let Ok(room) = Room::new(alloc, 98_304) else {
        return Vec::new(alloc);
    };
    let mut writer = SegmentWriter::new(room, 3);
    let is_whole = are_logged(alloc, &mut writer, runs);
    let mut segment = writer.into_inner().into_bytes();
    if !is_whole {
        segment.clear();
    }
    segment
}

/// Returns whether the segment of such runs has this length and this end.
fn ends_with(alloc: Global, runs: &[(u8, usize)], len: usize, end: &[u8]) -> bool {
    let segment = segment_of(alloc, runs);
    segment.len() == len && segment.as_slice().ends_with(end)
}

/// Runs of a byte that are logged one after the other.
type Runs = &'static [(u8, usize)];

/// What a row says.
enum Row {
    /// Runs, and the segment of them.
    Whole(Runs, &'static [Expected]),
    /// Runs, how many bytes their segment has, and its end.
    Ends(Runs, usize, &'static [u8]),
}

use Row::{Ends, Whole};

static SEGMENTS: [(&str, Row); 7] = [
    (
        "a record that fills a page",
        Whole(&[(3, 32_761)], &[Fragment(1, 3, 32_761)]),
    ),
    (
        "a record of one byte more",
        Whole(&[(3, 32_762)], &[Fragment(2, 3, 32_761), Fragment(4, 3, 1)]),
    ),
    (
        "a record of three pages",
        Whole(
            &[(3, 70_000)],
            &[
                Fragment(2, 3, 32_761),
                Fragment(3, 3, 32_761),
                Fragment(4, 3, 4_478),
            ],
        ),
    ),
    (
        "a fragment without data",
        Whole(
            &[(3, 32_754), (2, 1)],
            &[Fragment(1, 3, 32_754), Fragment(2, 2, 0), Fragment(4, 2, 1)],
        ),
    ),
    (
        "zeros at the end of a page",
        Whole(
            &[(3, 32_755), (2, 1)],
            &[Fragment(1, 3, 32_755), Zeros(6), Fragment(1, 2, 1)],
        ),
    ),
    (
        "the bytes of a fragment without data",
        Ends(
            &[(3, 32_754), (2, 1)],
            32_776,
            b"\x02\0\0\0\0\0\0\x04\0\x01\xb3\x46\x23\xa6\x02",
        ),
    ),
    (
        "the bytes of zeros at the end of a page",
        Ends(
            &[(3, 32_755), (2, 1)],
            32_776,
            b"\x03\0\0\0\0\0\0\x01\0\x01\xb3\x46\x23\xa6\x02",
        ),
    ),
];

fn is_segment(alloc: Global, runs: &[(u8, usize)], expected: &[Expected]) -> bool {
    let mut wanted = Vec::new(alloc);
    put_all_expected(alloc, &mut wanted, expected).is_ok()
        && ends_with(alloc, runs, wanted.len(), &wanted)
}

fn is_so(alloc: Global, row: &Row) -> bool {
    match row {
        Whole(runs, expected) => is_segment(alloc, runs, expected),
        Ends(runs, len, end) => ends_with(alloc, runs, *len, end),
    }
}

fn wrong_segment(alloc: Global) -> Option<&'static str> {
    for (name, row) in &SEGMENTS {
        if !is_so(alloc, row) {
            return Some(name);
        }
    }
    None
}

#[test]
fn fills_and_ends_pages(rt: HostRuntime) {
    none_is_wrong(&rt, wrong_segment(rt.alloc()));
}

static ONE_PAGE: [Step; 4] = [
    Step {
        name: "above a page",
        byte: 3,
        len: 32_762,
        want: Err(LogFault::SegmentFull),
        offset: 0,
    },
    Step {
        name: "too long",
        byte: 3,
        len: 16_777_217,
        want: Err(LogFault::RecordTooLong),
        offset: 0,
    },
    Step {
        name: "a full page",
        byte: 3,
        len: 32_761,
        want: Ok(()),
        offset: 32_768,
    },
    Step {
        name: "a byte more",
        byte: 2,
        len: 1,
        want: Err(LogFault::SegmentFull),
        offset: 32_768,
    },
];

static TWO_PAGES: [Step; 2] = [
    Step {
        name: "above two pages",
        byte: 3,
        len: 65_523,
        want: Err(LogFault::SegmentFull),
        offset: 0,
    },
    Step {
        name: "two full pages",
        byte: 3,
        len: 65_522,
        want: Ok(()),
        offset: 65_536,
    },
];

/// Returns the first step that differs in a segment of this many pages, for which there is room.
fn wrong_step_in(alloc: Global, room: usize, pages: usize, steps: &[Step]) -> Option<&'static str>
    requires some { 0 < pages }
    requires most { pages ≤ 4096 }
{
    match Room::new(alloc, room) {
        Ok(room) => wrong_step(alloc, &mut SegmentWriter::new(room, pages), steps),
        Err(_) => Some("a room"),
    }
}

#[test]
fn refuses_what_has_no_room(rt: HostRuntime) {
    none_is_wrong(&rt, wrong_step_in(rt.alloc(), 32_768, 1, &ONE_PAGE));
    none_is_wrong(&rt, wrong_step_in(rt.alloc(), 65_536, 2, &TWO_PAGES));
}

/// Returns the record of one sample.
fn one_record(alloc: Global) -> Result<Vec<u8>, AllocError> {
    let one = Word::of_int(1).unwrap_or(Word(0));
    sample_record(alloc, &[(1, 1_000, one)])
}

/// Returns whether there is a record, and it has these bytes.
fn is_spelled(record: Result<Vec<u8>, AllocError>, bytes: &[u8]) -> bool {
    match record {
        Ok(record) => record.as_slice() == bytes,
        Err(_) => false,
    }
}

/// Returns whether there is a record, and it has this end.
fn ends_so(record: Result<Vec<u8>, AllocError>, end: &[u8]) -> bool {
    match record {
        Ok(record) => record.as_slice().ends_with(end),
        Err(_) => false,
    }
}

#[test]
fn spells_records(rt: HostRuntime) {
    let alloc = rt.alloc();
    let series = b"\x01\0\0\0\0\0\0\0\x01\x01\x08__name__\x02up".as_slice();
    let sample = b"\x02\0\0\0\0\0\0\0\x01\0\0\0\0\0\0\x03\xe8\0\0\x3f\xf0\0\0\0\0\0\0".as_slice();
    let end = b"\x03\xe8\0\0\0\0\0\0\0\0\0\0\x04\x13\0\0\0\0\0\0\0\x01".as_slice();
    let two = [(1, 1_000, Word(0)), (3, 990, Word(1))];
    holds(&rt, is_spelled(up_record(alloc), series));
    holds(&rt, is_spelled(one_record(alloc), sample));
    holds(&rt, ends_so(sample_record(alloc, &two), end));
    holds(&rt, is_spelled(sample_record(alloc, &[]), b"\x02"));
}

/// Returns whether the segment of the records of one series and one sample is `UP`, which has them
/// in full fragments.
fn is_up_segment(alloc: Global) -> bool {
    let Ok(room) = Room::new(alloc, 63) else {
        return false;
    };
    let mut writer = SegmentWriter::new(room, 4_096);
    let is_whole = is_logged(&mut writer, up_record(alloc))
        && is_logged(&mut writer, one_record(alloc));
    is_whole && writer.into_inner().into_bytes().as_slice() == UP.as_slice()
}

#[test]
fn writes_full_fragments(rt: HostRuntime) {
    holds(&rt, is_up_segment(rt.alloc()));
}

/// Returns a writer to a device that takes at most 8,192 bytes at a write.
fn failing_writer(alloc: Global, writes: &Cell<usize>) -> SegmentWriter<Taking<'_>> {
    SegmentWriter::new(Taking::new(alloc, 8_192, writes), 2)
}

/// Returns whether a device of which this write fails, counted from 1, closes the segment, and has
/// a prefix of the whole one.
fn closes(alloc: Global, whole: &[u8], failing: usize) -> bool {
    let failed = Err(LogFault::Device);
    let writes = Cell::new(failing);
    let mut writer = failing_writer(alloc, &writes);
    let is_so = logs(alloc, &mut writer, 3, 32_770, failed)
        && logs(alloc, &mut writer, 3, 1, failed)
        && logs(alloc, &mut writer, 3, 16_777_217, failed);
    let taken = writer.into_inner().taken;
    is_so && taken.len() < whole.len() && whole.starts_with(taken.as_slice())
}

/// Returns whether a device whose eighth write would fail has the whole segment.
fn takes_all(alloc: Global, whole: &[u8]) -> bool {
    let writes = Cell::new(8);
    let mut writer = failing_writer(alloc, &writes);
    let is_so = logs(alloc, &mut writer, 3, 32_770, Ok(()));
    is_so && writer.into_inner().taken.as_slice() == whole
}

/// Returns the failing write with which a device behaves differently. A header, four times data, a
/// header and data are seven writes.
fn wrong_device(alloc: Global, whole: &[u8]) -> Option<usize> {
    for failing in 1..8 {
        if !closes(alloc, whole, failing) {
            return Some(failing);
        }
    }
    if takes_all(alloc, whole) {
        None
    } else {
        Some(8)
    }
}

#[test]
fn closes_where_the_device_fails(rt: HostRuntime) {
    let whole = segment_of(rt.alloc(), &[(3, 32_770)]);
    no_number_is_wrong(&rt, wrong_device(rt.alloc(), &whole));
}

//! The bytes that are appended to a log, and what is read of them.

use rw_kept_log::{AppendError, LogEnd};
use rw_types::{Entry, RawLabels, Word};
use rw_wal_tail::Tail;
use std::alloc::{AllocError, Global};
use std::test::Fail;

/// The value 1.
const ONE: Word = Word(0x3ff0_0000_0000_0000);

/// Metric names that are defined, each with its reference; samples of the value 1, each as
/// (reference, timestamp in milliseconds); and the bytes that they add to an empty segment.
struct Row {
    name: &'static str,
    names: &'static [(u64, &'static [u8])],
    times: &'static [(u64, i64)],
    bytes: &'static [u8],
}

static ROWS: [Row; 6] = [
    Row {
        name: "nothing",
        names: &[],
        times: &[],
        bytes: &[],
    },
    Row {
        name: "the definition of reference 1 as {__name__=\"up\"}",
        names: &[(1, b"up")],
        times: &[],
        bytes: &[
            1, 0, 22, 0x39, 0x19, 0x94, 0xf3, 1, 0, 0, 0, 0, 0, 0, 0, 1, 1, 8, 95, 95, 110, 97,
            109, 101, 95, 95, 2, 117, 112,
        ],
    },
    Row {
        name: "a sample at 1000",
        names: &[],
        times: &[(1, 1000)],
        bytes: &[
            1, 0, 27, 0x2c, 0x51, 0x4c, 0x07, 2, 0, 0, 0, 0, 0, 0, 0, 1, 0, 0, 0, 0, 0, 0, 0x03,
            0xe8, 0, 0, 0x3f, 0xf0, 0, 0, 0, 0, 0, 0,
        ],
    },
    Row {
        name: "the definition comes before the sample",
        names: &[(1, b"up")],
        times: &[(1, 1000)],
        bytes: &[
            1, 0, 22, 0x39, 0x19, 0x94, 0xf3, 1, 0, 0, 0, 0, 0, 0, 0, 1, 1, 8, 95, 95, 110, 97,
            109, 101, 95, 95, 2, 117, 112, 1, 0, 27, 0x2c, 0x51, 0x4c, 0x07, 2, 0, 0, 0, 0, 0, 0,
            0, 1, 0, 0, 0, 0, 0, 0, 0x03, 0xe8, 0, 0, 0x3f, 0xf0, 0, 0, 0, 0, 0, 0,
        ],
    },
    Row {
        name: "two definitions are two records",
        names: &[(1, b"up"), (1, b"up")],
        times: &[],
        bytes: &[
            1, 0, 22, 0x39, 0x19, 0x94, 0xf3, 1, 0, 0, 0, 0, 0, 0, 0, 1, 1, 8, 95, 95, 110, 97,
            109, 101, 95, 95, 2, 117, 112, 1, 0, 22, 0x39, 0x19, 0x94, 0xf3, 1, 0, 0, 0, 0, 0, 0,
            0, 1, 1, 8, 95, 95, 110, 97, 109, 101, 95, 95, 2, 117, 112,
        ],
    },
    Row {
        name: "two samples are one record, with the deltas 2 and -10",
        names: &[],
        times: &[(1, 1000), (3, 990)],
        bytes: &[
            1, 0, 37, 0x7e, 0x00, 0x85, 0x52, 2, 0, 0, 0, 0, 0, 0, 0, 1, 0, 0, 0, 0, 0, 0, 3, 232,
            0, 0, 63, 240, 0, 0, 0, 0, 0, 0, 4, 19, 63, 240, 0, 0, 0, 0, 0, 0,
        ],
    },
];

/// Returns definitions of metric names.
pub(crate) fn definitions_of(
    alloc: Global,
    names: &[(u64, &[u8])],
) -> Result<Vec<(u64, RawLabels)>, AppendError> {
    let mut definitions = Vec::new(alloc);
    for (reference, name) in names {
        let mut labels = RawLabels::new(alloc);
        labels.push(b"__name__", name)?;
        put_definition(&mut definitions, *reference, labels)?;
    }
    Ok(definitions)
}

fn put_definition(
    definitions: &mut Vec<(u64, RawLabels)>,
    reference: u64,
    labels: RawLabels,
) -> Result<(), AllocError> {
    definitions.push((reference, labels))?;
    Ok(())
}

/// Returns samples of the value 1.
pub(crate) fn samples_at(
    alloc: Global,
    times: &[(u64, i64)],
) -> Result<Vec<(u64, i64, Word)>, AllocError> {
    let mut samples = Vec::with_capacity(alloc, times.len())?;
    for (reference, time) in times {
        samples.push((*reference, *time, ONE))?;
    }
    Ok(samples)
}

/// Returns the first row that does not hold.
fn first_wrong(alloc: Global) -> Result<Option<&'static str>, AppendError> {
    for row in &ROWS {
        let definitions = definitions_of(alloc, row.names)?;
        let samples = samples_at(alloc, row.times)?;
        let (bytes, end) = LogEnd::new(1).append(alloc, &definitions, &samples)?;
        if bytes.as_slice() != row.bytes || end.offset() != row.bytes.len() {
            return Ok(Some(row.name));
        }
    }
    Ok(None)
}

#[test]
fn these_bytes_are_appended(rt: HostRuntime) -> Result<(), Fail> {
    let wrong = first_wrong(rt.alloc());
    assert_eq!(rt; wrong, Ok(None));
    Ok(())
}

/// Returns samples of a reference: at 0 the word 0, at 1 the word 1, and so on.
fn many(alloc: Global, reference: u64, count: usize) -> Result<Vec<(u64, i64, Word)>, AllocError> {
    let mut samples = Vec::with_capacity(alloc, count)?;
    for i in 0..count {
        samples.push((reference, i as i64, Word(i as u64)))?;
    }
    Ok(samples)
}

/// Returns whether the entry is this sample.
fn is_sample(entry: &Entry, sample: (u64, i64, Word)) -> bool {
    match entry {
        Entry::Sample { reference, t, word } => {
            *reference == sample.0 && *t == sample.1 && word.0 == sample.2.0
        }
        Entry::Def { .. } => false,
    }
}

/// Counts the samples that are read, in order, up to the first that differs.
fn read_count(alloc: Global, reference: u64, bytes: &[u8]) -> usize {
    let mut tail = Tail::new(alloc);
    if tail.feed(bytes).is_err() {
        return 0;
    }
    for i in 0..bytes.len() {
        match tail.next_entry() {
            Ok(Some(entry)) if is_sample(&entry, (reference, i as i64, Word(i as u64))) => {}
            _ => return i,
        }
    }
    bytes.len()
}

/// Returns how many samples are read of those that are appended in two steps to an empty segment.
fn read_of(
    alloc: Global,
    start: &LogEnd,
    first: usize,
    count: usize,
) -> Result<usize, AppendError> {
    let samples = many(alloc, 7, count)?;
    let (front, back) = samples.split_at(first.min(samples.len()));
    let (mut text, end) = start.append(alloc, &[], front)?;
    let (more, later) = end.append(alloc, &[], back)?;
    text.extend_from_slice(&more)?;
    if later.offset() != text.len() {
        return Ok(0);
    }
    Ok(read_count(alloc, 7, &text))
}

#[test]
fn many_samples_are_read_again(rt: HostRuntime) -> Result<(), Fail> {
    // Over many pages, from the middle of a page on.
    assert_eq!(rt;
        read_of(rt.alloc(), &LogEnd::new(10), 1000, 10_000),
        Ok(10_000)
    );
    // A segment of one page has room for some, and not for more.
    assert_eq!(rt; read_of(rt.alloc(), &LogEnd::new(1), 1000, 2000), Ok(2000));
    assert_eq!(rt;
        read_of(rt.alloc(), &LogEnd::new(1), 1000, 4000),
        Err(AppendError::SegmentFull)
    );
    Ok(())
}

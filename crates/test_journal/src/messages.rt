//! Messages that are appended to a log, one after the other, and the references that they get.

ghost use Rattle.std.specs.Prelude.{OnOk};
ghost use Rattle.rw_kept_log.specs.References.{AreReferenced};

use rw_kept_log::{AppendError, LogEnd, References};
use rw_types::{LabelSet, Names, RawLabels, Word};
use std::alloc::{AllocError, Global};
use std::test::Fail;

/// The samples of a series in a message: its metric name, and their timestamps. All have the value
/// 1.
struct Part {
    metric: &'static [u8],
    times: &'static [i64],
}

/// The value 1.
const ONE: Word = Word(0x3ff0_0000_0000_0000);

/// A message of two parts, whether it is noted as written, and the bytes that it adds to an empty
/// segment of a log that has what was written before.
struct Row {
    name: &'static str,
    first: Part,
    second: Part,
    is_written: bool,
    bytes: &'static [u8],
}

static ROWS: [Row; 5] = [
    Row {
        name: "a new label set is defined before its sample",
        first: Part {
            metric: b"up",
            times: &[1000],
        },
        second: Part {
            metric: b"up",
            times: &[],
        },
        is_written: false,
        bytes: &[
            1, 0, 22, 57, 25, 148, 243, 1, 0, 0, 0, 0, 0, 0, 0, 1, 1, 8, 95, 95, 110, 97, 109, 101,
            95, 95, 2, 117, 112, 1, 0, 27, 44, 81, 76, 7, 2, 0, 0, 0, 0, 0, 0, 0, 1, 0, 0, 0, 0, 0,
            0, 3, 232, 0, 0, 63, 240, 0, 0, 0, 0, 0, 0,
        ],
    },
    Row {
        name: "what was not written is defined again, under the same reference",
        first: Part {
            metric: b"up",
            times: &[1000],
        },
        second: Part {
            metric: b"up",
            times: &[],
        },
        is_written: true,
        bytes: &[
            1, 0, 22, 57, 25, 148, 243, 1, 0, 0, 0, 0, 0, 0, 0, 1, 1, 8, 95, 95, 110, 97, 109, 101,
            95, 95, 2, 117, 112, 1, 0, 27, 44, 81, 76, 7, 2, 0, 0, 0, 0, 0, 0, 0, 1, 0, 0, 0, 0, 0,
            0, 3, 232, 0, 0, 63, 240, 0, 0, 0, 0, 0, 0,
        ],
    },
    Row {
        name: "what was written is not defined again",
        first: Part {
            metric: b"up",
            times: &[1000],
        },
        second: Part {
            metric: b"up",
            times: &[],
        },
        is_written: true,
        bytes: &[
            1, 0, 27, 44, 81, 76, 7, 2, 0, 0, 0, 0, 0, 0, 0, 1, 0, 0, 0, 0, 0, 0, 3, 232, 0, 0, 63,
            240, 0, 0, 0, 0, 0, 0,
        ],
    },
    Row {
        name: "no sample adds nothing",
        first: Part {
            metric: b"up",
            times: &[],
        },
        second: Part {
            metric: b"up",
            times: &[],
        },
        is_written: true,
        bytes: &[],
    },
    Row {
        name: "a second label set gets the next reference",
        first: Part {
            metric: b"go",
            times: &[2000],
        },
        second: Part {
            metric: b"up",
            times: &[2000, 3000],
        },
        is_written: true,
        bytes: &[
            1, 0, 22, 147, 221, 81, 29, 1, 0, 0, 0, 0, 0, 0, 0, 2, 1, 8, 95, 95, 110, 97, 109, 101,
            95, 95, 2, 103, 111, 1, 0, 48, 231, 114, 174, 246, 2, 0, 0, 0, 0, 0, 0, 0, 2, 0, 0, 0,
            0, 0, 0, 7, 208, 0, 0, 63, 240, 0, 0, 0, 0, 0, 0, 1, 0, 63, 240, 0, 0, 0, 0, 0, 0, 1,
            208, 15, 63, 240, 0, 0, 0, 0, 0, 0,
        ],
    },
];

/// Returns the label set of one name.
fn named(alloc: Global, name: &[u8]) -> Result<LabelSet, AppendError> {
    let mut labels = RawLabels::new(alloc);
    labels.push(b"__name__", name)?;
    match LabelSet::check_as(alloc, Names::Utf8, &labels) {
        Ok(set) => Ok(set),
        Err(_) => Err(AppendError::OutOfMemory),
    }
}

/// Returns samples at these times.
fn points_at(alloc: Global, times: &[i64]) -> Result<Vec<(i64, Word)>, AllocError> {
    let mut points = Vec::with_capacity(alloc, times.len())?;
    for time in times {
        points.push((*time, ONE))?;
    }
    Ok(points)
}

/// Adds the samples of a part.
fn add(
    alloc: Global,
    references: &mut References,
    samples: &mut Vec<(u64, i64, Word)>,
    part: &Part,
) -> Result<(), AppendError>
    requires { AreReferenced references.old samples.old.items }
    ensures { OnOk result (AreReferenced references.new samples.new.items) }
{
    let set = named(alloc, part.metric)?;
    let points = points_at(alloc, part.times)?;
    references.add(samples, &set, &points)?;
    Ok(())
}

/// Returns the bytes that a message adds to an empty segment.
fn append(alloc: Global, references: &mut References, row: &Row) -> Result<Vec<u8>, AppendError> {
    let mut samples = Vec::new(alloc);
    add(alloc, references, &mut samples, &row.first)?;
    add(alloc, references, &mut samples, &row.second)?;
    let definitions = references.undefined(alloc)?;
    let (bytes, _) = LogEnd::new(1).append(alloc, &definitions, &samples)?;
    Ok(bytes)
}

/// Returns the first row that does not hold.
fn first_wrong(alloc: Global) -> Result<Option<&'static str>, AppendError> {
    let mut references = References::new(alloc, 1);
    for row in &ROWS {
        if append(alloc, &mut references, row)?.as_slice() != row.bytes {
            return Ok(Some(row.name));
        }
        if row.is_written {
            references.commit();
        } else {
            references.abort();
        }
    }
    Ok(None)
}

#[test]
fn messages_add_these_bytes(rt: HostRuntime) -> Result<(), Fail> {
    let wrong = first_wrong(rt.alloc());
    assert_eq!(rt; wrong, Ok(None));
    Ok(())
}

/// Returns the reference that a label set with this name of a label gets first.
fn reference_of(alloc: Global, name: &[u8]) -> Result<u64, AllocError> {
    let mut labels = RawLabels::new(alloc);
    labels.push(name, b"x")?;
    match LabelSet::check_as(alloc, Names::Utf8, &labels) {
        Ok(set) => References::new(alloc, 1).reference(&set),
        Err(_) => Err(AllocError),
    }
}

#[test]
fn a_name_that_is_not_legacy_gets_a_reference(rt: HostRuntime) -> Result<(), Fail> {
    assert_eq!(rt; reference_of(rt.alloc(), b"http.status"), Ok(1));
    Ok(())
}

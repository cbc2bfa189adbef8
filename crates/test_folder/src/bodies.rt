//! What a receiver counts of the bodies of its requests. Each body is written by the fields of
//! Remote-Write 1.0: a request has series (1) and metadata (3), a series labels (1), samples (2),
//! exemplars (3) and native histograms (4).

use rw_metrics::{ReceiveCounters, RefusalReason, RefusedSamples, SkippedParts};
use std::alloc::{AllocError, Global};
use std::test::Fail;

/// What is in a body: its samples, and what is skipped of it, as histograms, exemplars and
/// metadata.
static BODIES: [(&str, &[u8], u64, [u64; 3]); 11] = [
    ("nothing", b"", 0, [0, 0, 0]),
    (
        "a series with a sample",
        b"\x0a\x13\x0a\x04\x0a\x02up\x12\x0b\x09\0\0\0\0\0\0\0\0\x10\x05",
        1,
        [0, 0, 0],
    ),
    (
        "a series with two samples, an exemplar and a histogram",
        b"\x0a\x0c\x12\0\x1a\x04\x0a\0\x18\x07\x12\0\x22\0",
        2,
        [1, 1, 0],
    ),
    ("a histogram alone", b"\x0a\x02\x22\0", 0, [1, 0, 0]),
    (
        "what a histogram holds is not looked at",
        b"\x0a\x08\x22\x06\x22\0\x12\0\x1a\0",
        0,
        [1, 0, 0],
    ),
    (
        "metadata with a unit and a help",
        b"\x1a\x0c\x08\x01\x12\x02up\x22\x01h\x2a\x01s",
        0,
        [0, 0, 1],
    ),
    (
        "two series around metadata",
        b"\x0a\x04\x12\0\x1a\0\x1a\0\x0a\x04\x22\0\x22\0",
        1,
        [2, 1, 1],
    ),
    (
        "fields of other numbers and types",
        b"\x10\x05\x2a\x02\x22\0\x0a\x06\x20\x05\x2d\0\0\0",
        0,
        [0, 0, 0],
    ),
    (
        "a number of a field that is longer than needed",
        b"\x0a\x03\xa2\0\0\x9a\0\0",
        0,
        [1, 0, 1],
    ),
    (
        "a series that ends inside a field",
        b"\x0a\x04\x12\0\x22\x05\x1a\0",
        1,
        [0, 0, 1],
    ),
    (
        "a body that ends inside a field",
        b"\x1a\0\x0a\x05\x22\0",
        0,
        [0, 0, 1],
    ),
];

/// Returns the name of the first body of which something else is counted.
fn wrong_body(alloc: Global) -> Result<Option<&'static str>, AllocError> {
    for row in &BODIES {
        let (name, body, samples, [histograms, exemplars, metadata]) = *row;
        let counters = ReceiveCounters::new(alloc)?;
        counters.skip_parts(body);
        let wanted = SkippedParts {
            histograms,
            exemplars,
            metadata,
        };
        let refused = counters.refuse_body(Some(RefusalReason::Order), body);
        let numbers = counters.numbers(alloc)?;
        if numbers.skipped != wanted
            || refused != samples
            || numbers.refused_samples.order != samples
        {
            return Ok(Some(name));
        }
    }
    Ok(None)
}

#[test]
fn what_a_body_holds_is_counted(rt: HostRuntime) -> Result<(), Fail> {
    let wrong = wrong_body(rt.alloc())?;
    assert_eq!(rt; wrong, None);
    Ok(())
}

/// Two samples.
const TWO: &[u8] = b"\x0a\x04\x12\0\x12\0";

/// Returns how many samples are counted once bodies of two were refused: one for each reason, one
/// more for the last, and one for a reason that is not known.
fn refused(alloc: Global) -> Result<RefusedSamples, AllocError> {
    let counters = ReceiveCounters::new(alloc)?;
    for reason in [
        RefusalReason::Order,
        RefusalReason::Labels,
        RefusalReason::Limits,
        RefusalReason::Body,
        RefusalReason::Full,
        RefusalReason::Unavailable,
        RefusalReason::Busy,
        RefusalReason::Busy,
    ] {
        counters.refuse_body(Some(reason), TWO);
    }
    counters.refuse_body(None, TWO);
    Ok(counters.numbers(alloc)?.refused_samples)
}

#[test]
fn refused_samples_are_counted_by_reason(rt: HostRuntime) -> Result<(), Fail> {
    let counted = refused(rt.alloc())?;
    let wanted = RefusedSamples {
        order: 2,
        labels: 2,
        limits: 2,
        body: 2,
        full: 2,
        unavailable: 2,
        busy: 4,
    };
    assert_eq!(rt; counted, wanted);
    Ok(())
}

//! Logs as bytes.

use rw_types::{RawLabels, Room, Word};
use rw_wal_write::{SegmentWriter, sample_record, series_record};
use std::alloc::{AllocError, Global};

/// The bits of the values 1 and 2.
pub(crate) const ONE: u64 = 0x3ff0_0000_0000_0000;

pub(crate) const TWO: u64 = 0x4000_0000_0000_0000;

/// The metric name of a series.
#[derive(Clone, Copy)]
pub(crate) struct Named {
    pub(crate) reference: u64,
    pub(crate) name: &'static [u8],
}

pub(crate) const UP: Named = Named {
    reference: 1,
    name: b"up",
};

/// Four references, of which the last two are one series.
pub(crate) const FOUR: [Named; 4] = [
    Named {
        reference: 1,
        name: b"a",
    },
    Named {
        reference: 2,
        name: b"b",
    },
    Named {
        reference: 3,
        name: b"c",
    },
    Named {
        reference: 4,
        name: b"c",
    },
];

/// Three series whose names have 200 bytes.
pub(crate) const LONG: [Named; 3] = [
    Named {
        reference: 1,
        name: &[b'a'; 200],
    },
    Named {
        reference: 2,
        name: &[b'b'; 200],
    },
    Named {
        reference: 3,
        name: &[b'c'; 200],
    },
];

/// Samples: their references, times and the bits of their values.
pub(crate) type Samples<'a> = &'a [(u64, i64, u64)];

fn put_samples(words: &mut Vec<(u64, i64, Word)>, samples: Samples<'_>) -> Result<(), AllocError> {
    for (reference, t, bits) in samples {
        words.push((*reference, *t, Word(*bits)))?;
    }
    Ok(())
}

fn record_of(alloc: Global, samples: Samples<'_>) -> Result<Vec<u8>, AllocError> {
    let mut words = Vec::new(alloc);
    match put_samples(&mut words, samples) {
        Ok(()) => sample_record(alloc, &words),
        Err(refused) => Err(refused),
    }
}

/// Returns whether there is a record, and it is logged.
fn is_logged(writer: &mut SegmentWriter<Room>, record: Result<Vec<u8>, AllocError>) -> bool {
    match record {
        Ok(record) => !record.is_empty() && writer.log(&record).is_ok(),
        Err(_) => false,
    }
}

fn definition(alloc: Global, named: Named) -> Result<Vec<u8>, AllocError> {
    let mut labels = RawLabels::new(alloc);
    match labels.push(b"__name__", named.name) {
        Ok(()) => series_record(alloc, named.reference, &labels),
        Err(refused) => Err(refused),
    }
}

fn are_logged(
    alloc: Global,
    writer: &mut SegmentWriter<Room>,
    series: &[Named],
    samples: Samples<'_>,
) -> bool {
    for named in series {
        if !is_logged(writer, definition(alloc, *named)) {
            return false;
        }
    }
    is_logged(writer, record_of(alloc, samples))
}

/// Returns a segment that defines these series, and then has these samples.
pub(crate) fn segment(
    alloc: Global,
    series: &[Named],
    samples: Samples<'_>,
) -> Result<Vec<u8>, AllocError> {
    let mut writer = SegmentWriter::new(Room::new(alloc, 1000)?, 1);
    if are_logged(alloc, &mut writer, series, samples) {
        Ok(writer.into_inner().into_bytes())
    } else {
        Err(AllocError)
    }
}

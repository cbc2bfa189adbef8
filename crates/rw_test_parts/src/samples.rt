//! One sample, the value 1 at 1000 ms of the series `up`, in both formats, and labels.

use rw_types::RawLabels;
use std::alloc::{AllocError, Global};

/// Its segment: the definition of reference 1 as `{__name__="up"}`, and a sample of it.
pub const UP_SEGMENT: [u8; 63] = [
    1, 0, 22, 0x39, 0x19, 0x94, 0xf3, 1, 0, 0, 0, 0, 0, 0, 0, 1, 1, 8, 95, 95, 110, 97, 109, 101,
    95, 95, 2, 117, 112, 1, 0, 27, 0x2c, 0x51, 0x4c, 0x07, 2, 0, 0, 0, 0, 0, 0, 0, 1, 0, 0, 0, 0,
    0, 0, 0x03, 0xe8, 0, 0, 0x3f, 0xf0, 0, 0, 0, 0, 0, 0,
];

/// Its message.
pub const UP_MESSAGE: [u8; 32] = [
    0x0a, 0x1e, 0x0a, 0x0e, 0x0a, 0x08, 0x5f, 0x5f, 0x6e, 0x61, 0x6d, 0x65, 0x5f, 0x5f, 0x12, 0x02,
    0x75, 0x70, 0x12, 0x0c, 0x09, 0x00, 0x00, 0x00, 0x00, 0x00, 0x00, 0xf0, 0x3f, 0x10, 0xe8, 0x07,
];

/// The word of its value.
pub const WORD_OF_ONE: u64 = 0x3ff0_0000_0000_0000;

/// Returns labels with these names and values.
pub fn raw_labels(alloc: Global, labels: &[(&str, &str)]) -> Result<RawLabels, AllocError> {
    let mut raw = RawLabels::new(alloc);
    for (name, value) in labels {
        raw.push(name.as_bytes(), value.as_bytes())?;
    }
    Ok(raw)
}

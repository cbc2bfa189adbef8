//! Readers and writers that fail.

use crate::played::run;
use rw_test_parts::Giving;
use rw_text::ToolFault;
use rw_types::Source;
use std::alloc::Global;
use std::cell::Cell;

/// Returns how much is written if a run ends with a device fault, or `None` if it does not.
fn written_before_it_failed<S: Source>(
    alloc: Global,
    script: &mut S,
    room: usize,
) -> Option<usize> {
    match run(alloc, b"", script, room) {
        Some((Err(ToolFault::Device), text)) => Some(text.len()),
        _ => None,
    }
}

#[test]
fn a_reader_that_fails(rt: HostRuntime) {
    let second = Cell::new(2);
    let mut reader = Giving::new(b"settle\n", 7, &second);
    assert!(rt; written_before_it_failed(rt.alloc(), &mut reader, 4096) == Some(0));
}

#[test]
fn a_writer_without_room(rt: HostRuntime) {
    let mut reader = b"settle\n".as_slice();
    assert!(rt; written_before_it_failed(rt.alloc(), &mut reader, 10).is_some());
}

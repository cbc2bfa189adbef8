//! A segment with each byte changed to each other value, and cut at each length.

use crate::changed::{Reader, wrong_byte};
use crate::plain_segment::{Reading, plain_reading};
use crate::rows::no_byte_is_wrong;
use rw_test_parts::UP_SEGMENT;
use rw_types::Entry;
use rw_wal_tail::{Tail, TailFault};
use std::alloc::Global;

/// The definition of reference 1 as `{__name__="up"}`, and a sample of it at 1000 with the value 1.
static UP: [u8; 63] = UP_SEGMENT;

/// Returns whether this is the entry of the record of this number.
fn is_known(entry: &Entry, number: usize) -> bool {
    match entry {
        Entry::Def { reference, labels } => { number == 0 && *reference == 1 && labels.len() == 1 }
        Entry::Sample { reference, t, word } => {
            number == 1 && *reference == 1 && *t == 1000 && word.0 == 0x3ff0_0000_0000_0000
        }
    }
}

/// Returns what a reader gives: each entry has to be that of the next record.
fn given(tail: &mut Tail) -> Option<Reading> {
    for records in 0..=2usize {
        match tail.next_entry() {
            Ok(Some(entry)) if is_known(&entry, records) => {}
            Ok(Some(_)) => return None,
            Ok(None) => return Some(Reading {
                records,
                fault: None,
            }),
            Err(fault) => return Some(Reading {
                records,
                fault: Some(fault),
            }),
        }
    }
    None
}

fn up() -> &'static [u8; 63] {
    &UP
}

/// Returns whether a page is read as expected.
pub(crate) fn is_read(alloc: Global, page: &[u8]) -> bool {
    let mut tail = Tail::new(alloc);
    tail.feed(page).is_ok()
        && given(&mut tail) == Some(plain_reading(page, &[&up()[7..29], &up()[36..63]]))
}

#[test]
fn each_byte_changed_and_cut(rt: HostRuntime) {
    no_byte_is_wrong(&rt, wrong_byte(Reader::Segments, rt.alloc(), up()));
}

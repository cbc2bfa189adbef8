//! What happens if memory runs out. The test can be run with each allocation failing in turn: the
//! failed call answers 503 and leaves what the head holds, and the same body is then taken. A body
//! that is not a message is bad, whatever allocation fails.

use crate::bodies::TWO;
use crate::messages::narrow;
use crate::rows::{holds, none_is_wrong};
use rw_head::Head;
use rw_test_parts::UP_MESSAGE as ONE;
use std::alloc::Global;

/// Returns how many samples and how many label sets a head holds.
fn counts(head: &Head) -> (u64, usize) {
    (head.total(), head.label_sets().count())
}

/// Returns the status of a body, asked for again if memory ran out and the head holds as much as
/// before.
pub(crate) fn status_at_last(head: &mut Head, body: &[u8], before: (u64, usize)) -> u16 {
    let status = head.answer(body);
    if status == 503 && counts(head) == before {
        head.answer(body)
    } else {
        status
    }
}

/// Bodies one after the other, with what a head holds before and after them.
static BODIES: [(&str, &[u8], (u64, usize), (u64, usize)); 2] = [
    ("one series", &ONE, (0, 0), (1, 1)),
    ("two series", &TWO, (1, 1), (3, 2)),
];

/// Returns the first body that is not taken as it should be, after one whose last byte is missing.
fn first_wrong(head: &mut Head) -> Option<&'static str> {
    if head.answer(&TWO[..65]) != 400 || counts(head) != (0, 0) {
        return Some("two series without the last byte");
    }
    for (name, body, before, after) in &BODIES {
        if status_at_last(head, body, *before) != 204 || counts(head) != *after {
            return Some(name);
        }
    }
    None
}

fn wrong_body(alloc: Global) -> Option<&'static str> {
    let head = match narrow(alloc) {
        Err(_) => narrow(alloc),
        head => head,
    };
    match head {
        Ok(mut head) => first_wrong(&mut head),
        Err(_) => Some("a head"),
    }
}

#[test]
fn refused_memory_changes_nothing(rt: HostRuntime) {
    none_is_wrong(&rt, wrong_body(rt.alloc()));
}

/// Asks a head with one body several times. Returns whether each answer is that the body is stored,
/// or that memory ran out and nothing has changed. A body that is not a message is bad each time.
fn answers_are_whole(head: &mut Head) -> bool {
    let mut held = (0, 0);
    for _ in 0..3u32 {
        if head.answer(&TWO[..65]) != 400 {
            return false;
        }
        match head.answer(&ONE) {
            204 => held = (1, 1),
            503 => {}
            _ => return false,
        }
        if counts(head) != held {
            return false;
        }
    }
    true
}

/// Returns the same of a new head, if there is memory for one.
fn are_whole(alloc: Global) -> bool {
    match narrow(alloc) {
        Ok(mut head) => answers_are_whole(&mut head),
        Err(_) => true,
    }
}

/// Holds also if memory stays exhausted, from whichever allocation on.
#[test]
fn lasting_refusals_change_nothing(rt: HostRuntime) {
    holds(&rt, are_whole(rt.alloc()));
}

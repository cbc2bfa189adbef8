//! What happens if memory runs out. Each test takes memory in the two calls alone, so it can be run
//! with each allocation failing in turn: the failed call says so, and the next one answers as if
//! nothing had happened. Bytes that are not a message are refused for their first fault whatever
//! allocation fails.

use crate::message_rows::is_spelled;
use crate::rows::holds;
use rw_test_parts::UP_MESSAGE as ONE;
use rw_write_request::{Message, WireFault, check_message, decode};
use std::alloc::Global;

fn decoded(alloc: Global, bytes: &[u8]) -> Result<Message, WireFault> {
    match decode(alloc, bytes) {
        Err(WireFault::OutOfMemory) => decode(alloc, bytes),
        answer => answer,
    }
}

fn is_there_and_back(alloc: Global) -> bool {
    match decoded(alloc, &ONE) {
        Ok(message) => is_spelled(alloc, &message, &ONE),
        Err(_) => false,
    }
}

/// The message, and a field after it that is cut off.
const CUT: [u8; 33] = [
    0x0a, 0x1e, 0x0a, 0x0e, 0x0a, 0x08, 0x5f, 0x5f, 0x6e, 0x61, 0x6d, 0x65, 0x5f, 0x5f, 0x12, 0x02,
    0x75, 0x70, 0x12, 0x0c, 0x09, 0x00, 0x00, 0x00, 0x00, 0x00, 0x00, 0xf0, 0x3f, 0x10, 0xe8, 0x07,
    0x0a,
];

/// Returns whether bytes that are cut off are found to be, at the first call.
fn is_truncated(alloc: Global, bytes: &[u8]) -> bool {
    decode(alloc, bytes).err() == Some(WireFault::Truncated)
        && check_message(bytes) == Err(WireFault::Truncated)
}

#[test]
fn a_call_after_refused_memory_is_right(rt: HostRuntime) {
    holds(&rt, is_truncated(rt.alloc(), &ONE[..31]));
    holds(&rt, is_truncated(rt.alloc(), &CUT));
    holds(&rt, is_there_and_back(rt.alloc()));
}

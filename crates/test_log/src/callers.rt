//! Callers of the reader of a log and of messages, proved by the contracts of these alone.

ghost use Rattle.std.specs.Prelude.{◌≡◌, ◌⊎◌, ◌∷◌, [], Err, IfOk};
ghost use Rattle.rw_wal_format.specs.Pieces.{bytes};
ghost use Rattle.rw_wal_format.specs.declared.tail_fault.TailFault.TheVariants.{OutOfMemory};
ghost use Rattle.rw_wal_tail.specs.Fed.{next_of};

use crate::message_rows::is_spelled;
use crate::rows::holds;
use rw_test_parts::{UP_MESSAGE, UP_SEGMENT};
use rw_types::Entry;
use rw_wal_tail::{Tail, TailFault};
use rw_write_request::{Message, WireFault, decode, encode};
use std::alloc::Global;

/// Reads the first entry of a segment, or returns `None` if the segment has no entry.
fn first_entry(alloc: Global, segment: &[u8]) -> Result<Option<Entry>, TailFault>
    ensures { (result ≡ Err OutOfMemory) ⊎ (result ≡ next_of (bytes segment.now ∷ []) 0) }
{
    let mut tail = Tail::new(alloc);
    if tail.feed(segment).is_err() {
        return Err(TailFault::OutOfMemory);
    }
    tail.next_entry()
}

/// Reads what is written of a message.
fn written_and_read(alloc: Global, message: &Message) -> Result<Message, WireFault>
    ensures { IfOk result (λ again. again ≡ message.now) }
{
    let body = encode(alloc, message)?;
    decode(alloc, &body)
}

/// Returns whether the first entry of this segment defines the reference 1.
fn defines_one(alloc: Global, segment: &[u8]) -> bool {
    match first_entry(alloc, segment) {
        Ok(Some(Entry::Def { reference, .. })) => reference == 1,
        _ => false,
    }
}

/// Returns whether a message is the same after it was written and read.
fn is_same_again(alloc: Global, body: &[u8]) -> bool {
    let Ok(message) = decode(alloc, body) else {
        return false;
    };
    match written_and_read(alloc, &message) {
        Ok(again) => is_spelled(alloc, &again, body),
        Err(_) => false,
    }
}

#[test]
fn callers_get_what_the_libraries_promise(rt: HostRuntime) {
    holds(&rt, defines_one(rt.alloc(), &UP_SEGMENT));
    holds(&rt, is_same_again(rt.alloc(), &UP_MESSAGE));
}

//! The body of a request, with sorted labels.

ghost use Rattle.std.specs.Prelude.{◌≡◌, IfOk, IfErr, MatchOption, Ok};
ghost use Rattle.rw_write_request.specs.Message.{WriteRequest};
ghost use Rattle.rw_write_request.specs.Read.{read};
ghost use Rattle.rw_sorted_labels.specs.Sorting.{SortsBody};

use crate::message::{are_sorted, sort_each};
use rw_write_request::{WireFault, decode, encode, reads_spellings};
use std::alloc::{AllocError, Global};

/// Returns a body that spells the message of this one with the labels of each series sorted by
/// name. `None` means that this body is one itself: all its labels are sorted, or it is no message.
/// An `Err` means that memory ran out, and that the body is a message.
pub fn sorted_body(alloc: Global, body: &[u8]) -> Result<Option<Vec<u8>>, AllocError>
    ensures sorted { IfOk result (λ found. MatchOption found
        (SortsBody body.now body.now) (λ text. SortsBody body.now text.items)) }
    ensures memory { IfErr result (λ _. (m : WriteRequest) × (read body.now ≡ Ok m)) }
{
    reads_spellings();
    let mut message = match decode(alloc, body) {
        Ok(message) => message,
        Err(fault) if fault == WireFault::OutOfMemory => return Err(AllocError),
        Err(_) => return Ok(None),
    };
    if are_sorted(&message.series) {
        return Ok(None);
    }
    sort_each(&mut message.series);
    let text = encode(alloc, &message)?;
    Ok(Some(text))
}

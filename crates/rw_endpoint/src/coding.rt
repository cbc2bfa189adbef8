//! Content codings, and the texts that bodies hold in them.

ghost use Rattle.std.specs.Prelude.{◌≡◌, IsTrue, IfOk, OnErr};
ghost use Rattle.rw_endpoint.specs.Coding.{fault_status, text_of, through};
ghost use Rattle.rw_endpoint.specs.Replies.{is_body_status};
ghost use Rattle.rw_endpoint.specs.inner.Coding.{Holds};

use crate::answer::Answer;
use rw_snappy::laws::limit_only_refuses;
use rw_snappy::{SnappyFault, decode};
use std::alloc::{AllocError, Global};

/// The content coding of a body.
#[derive(Clone, Copy, Debug, PartialEq, Eq)]
pub enum Coding {
    /// None: the body is the text.
    Plain,
    /// The body is a Snappy block, which may decode to at most `limit` bytes.
    Snappy { limit: u64 },
}

/// Returns the status of a block that cannot be decoded.
fn fault_status(fault: SnappyFault) -> u16
    ensures { result ≡ fault_status fault }
{
    match fault {
        SnappyFault::TooLong => 413,
        SnappyFault::BadLength
        | SnappyFault::Truncated
        | SnappyFault::BadOffset
        | SnappyFault::WrongLength => 400,
    }
}

/// Returns what a block decodes to, or the status of a block that cannot be decoded.
#[tactic(auto, using(crate::proofs::CodingLemmas::held_text, crate::proofs::CodingLemmas::no_text))]
fn block_text(alloc: Global, block: &[u8], limit: u64) -> Result<Result<Vec<u8>, u16>, AllocError>
    ensures { IfOk result (λ held. Holds held (text_of (Coding.Snappy limit) block.now)) }
{
    limit_only_refuses();
    let mut text = Vec::new(alloc);
    match decode(block, limit as usize, &mut text)? {
        Ok(()) => Ok(Ok(text)),
        Err(fault) => Ok(Err(fault_status(fault))),
    }
}

/// Returns the text that a body holds, or the status of a body that holds none.
fn text_of(alloc: Global, body: Vec<u8>, coding: Coding) -> Result<Result<Vec<u8>, u16>, AllocError>
    ensures { IfOk result (λ held. Holds held (text_of coding body.items)) }
{
    match coding {
        Coding::Plain => Ok(Ok(body)),
        Coding::Snappy { limit } => block_text(alloc, body.as_slice(), limit),
    }
}

/// Returns the status of a body. An `Err` means that memory ran out for the text that it holds, and
/// then `answer` was not called.
#[tactic(auto, using(crate::proofs::CodingLemmas::text_answered, crate::proofs::CodingLemmas::text_refused, crate::proofs::CodingLemmas::refusal_status))]
pub(crate) fn status_of<A: Answer>(
    alloc: Global,
    answer: &mut A,
    body: Vec<u8>,
    coding: Coding,
) -> Result<u16, AllocError>
    ensures given { IfOk result
        (λ status. through coding A.answers answer.old body.items status answer.new) }
    ensures verdict { IfOk result (λ status. IsTrue (is_body_status status)) }
    ensures unasked { OnErr result (answer.new ≡ answer.old) }
{
    match text_of(alloc, body, coding)? {
        Ok(text) => Ok(answer.answer(text.as_slice())),
        Err(status) => Ok(status),
    }
}

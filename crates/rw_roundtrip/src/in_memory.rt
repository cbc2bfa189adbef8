//! A request and its reply in memory.

ghost use Rattle.std.specs.Prelude.{ℕ, List};
ghost use Rattle.rw_endpoint.specs.Alone.{IsOneRequest, IsOneRefusal};
ghost use Rattle.rw_endpoint.specs.Coding.{intake_of};
ghost use Rattle.rw_roundtrip.specs.Exchanges.{IsRequest, IsExchanged, IsRefusedUnasked};

use rw_endpoint::{Answer, ServeEnd, serve};
use rw_head::Limits;
use rw_shard_core::{ReplyRead, read_reply};
use rw_types::Room;
use std::alloc::{AllocError, Global};

/// The most bytes of a reply.
const REPLY_ROOM: usize = 86;

/// Returns the status with which the endpoint replies to one request, as a sender reads it. Both
/// work in memory, without a connection.
///
/// An `Err` means that memory ran out, and then `answer` was not asked.
pub fn exchange<A: Answer>(
    alloc: Global,
    request: &[u8],
    answer: &mut A,
    limits: &Limits,
) -> Result<u16, AllocError>
    requires { IsRequest limits.now.path (intake_of limits.now) request.now }
    ensures answered { (body : List ℕ)
        → IsOneRequest limits.now.path (intake_of limits.now) request.now body
        → IsExchanged A.answers body answer.old result answer.new }
    ensures refused { (status : ℕ)
        → IsOneRefusal limits.now.path (intake_of limits.now) request.now status
        → IsRefusedUnasked status answer.old result answer.new }
{
    let mut reader = request;
    let mut writer = Room::new(alloc, REPLY_ROOM)?;
    match serve(alloc, &mut reader, &mut writer, answer, limits) {
        ServeEnd::OutOfMemory => Err(AllocError),
        _ => match read_reply(writer.as_slice()) {
            ReplyRead::Status(status) => Ok(status),
            ReplyRead::Partial | ReplyRead::Bad => unreachable!(),
        },
    }
}

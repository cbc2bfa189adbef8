//! One attempt to send a batch.

ghost use Rattle.std.specs.Prelude.{◌≡◌, true, false, not, IfOk, OnErr};
ghost use Rattle.rw_shard_core.specs.Shard.{HasRoomFor, awaits, can_send, batch_id};
ghost use Rattle.rw_worker.specs.Transcript.{is_again};
ghost use Rattle.rw_worker.specs.Steps.{working, after_attempt};
ghost use Rattle.rw_worker.specs.inner.Steps.{resolved_after, WasSent};

use crate::transport::{Lost, Reply, Transport};
use rw_batch::BatchId;
use rw_ledger::Ledger;
use rw_retry::Judgement;
use rw_shard_core::{Attempt, ShardCore};
use std::alloc::AllocError;

/// Notes the answer to the attempt that is under way, and returns whether it settles the batch.
fn note(core: &mut ShardCore, ledger: &mut Ledger, id: BatchId, answer: Result<Reply, Lost>) -> bool
    requires waiting { awaits core.old ≡ true }
    requires id { id ≡ batch_id core.old.batch }
    requires room { HasRoomFor core.old ledger.old }
    ensures becomes { working core.new ledger.new
        ≡ after_attempt answer (working core.old ledger.old) }
    ensures resolved { core.new.resolved ≡ resolved_after result core.old }
    ensures again { is_again answer ≡ not result }
{
    let Ok(reply) = answer else {
        core.lost();
        return false;
    };
    match core.reply(id, reply.status, ledger) {
        Some(Judgement::Again) => false,
        Some(Judgement::Done | Judgement::Refused) => true,
        None => unreachable!(),
    }
}

/// Sends the open batch once, and returns whether the answer settles it. If memory runs out,
/// nothing changes.
pub(crate) fn send_once<T: Transport>(
    core: &mut ShardCore,
    ledger: &mut Ledger,
    transport: &mut T,
) -> Result<bool, AllocError>
    requires guard { can_send core.old ≡ true }
    requires room { HasRoomFor core.old ledger.old }
    ensures ok { IfOk result
        (λ settled. WasSent (T.tells transport.old) (T.tells transport.new) (T.seen transport.old)
        (T.seen transport.new) (working core.old ledger.old)
        (working core.new ledger.new) settled) }
    ensures err { OnErr result (core.new ≡ core.old) }
    ensures err_ledger { OnErr result (ledger.new ≡ ledger.old) }
    ensures err_transport { OnErr result (transport.new ≡ transport.old) }
{
    let Some(Attempt { id, request }) = core.attempt()? else {
        unreachable!();
    };
    let answer = transport.exchange(request.as_slice());
    Ok(note(core, ledger, id, answer))
}

//! A shard after its queue: what it takes, sends and resolves. The calls that take memory are made
//! again if they fail, so each test can be run with each allocation failing in turn: the failed
//! call changes nothing.

use crate::rows::{holds, none_is_wrong};
use crate::samples::sample;
use http::StatusCode;
use rw_batch::BatchId;
use rw_ledger::{Ledger, Reason};
use rw_plain_queue::{Item, Kind};
use rw_retry::Judgement;
use rw_shard_core::{Attempt, ShardCore, Target, request_bytes};
use rw_types::LabelFault;
use std::alloc::{AllocError, Global};

/// The message of the sample 1 at 1000 ms of the series `up`.
const UP: &[u8] = &[
    0x0a, 0x1e, 0x0a, 0x0e, 0x0a, 0x08, 0x5f, 0x5f, 0x6e, 0x61, 0x6d, 0x65, 0x5f, 0x5f, 0x12, 0x02,
    0x75, 0x70, 0x12, 0x0c, 0x09, 0x00, 0x00, 0x00, 0x00, 0x00, 0x00, 0xf0, 0x3f, 0x10, 0xe8, 0x07,
];

const UP_REQUEST: &[u8] =
    b"POST /api/v1/write HTTP/1.1\r\nHost: localhost:9090\r\nUser-Agent: rwship/1.0\r\nContent-Type: application/x-protobuf\r\nX-Prometheus-Remote-Write-Version: 0.1.0\r\nConnection: close\r\nContent-Length: 32\r\n\r\n";

/// Returns the sample numbered `seq`, at the position 10 + `seq`: 1 at 1000 ms of the series `up`.
fn up(alloc: Global, seq: u64) -> Result<Item, LabelFault> {
    sample(
        alloc,
        seq,
        seq.saturating_add(10),
        ("up", 0x3ff0_0000_0000_0000, 1000),
    )
}

fn target(alloc: Global) -> Result<Target, AllocError> {
    match Target::standard(alloc) {
        Ok(target) => Ok(target),
        Err(_) => Target::standard(alloc),
    }
}

/// Returns shard 1 of epoch 3, with batches of two samples.
fn core_of(alloc: Global) -> Result<ShardCore, AllocError> {
    let target = target(alloc)?;
    match ShardCore::new(alloc, &target, 3, 1, 2) {
        Ok(core) => Ok(core),
        Err(_) => ShardCore::new(alloc, &target, 3, 1, 2),
    }
}

/// What is done, or seen.
#[derive(Clone, Copy)]
enum Step {
    /// The next sample is taken.
    Sample,
    Flush,
    End(Kind),
    /// The builder is frozen, or not.
    Freeze(bool),
    /// The batch whose first sample has this number is sent, with the bytes of the attempt before
    /// it if there is one. `None` if nothing is sent.
    Send(Option<u64>),
    /// A reply to the batch whose first sample has this number, with this status.
    Reply(u64, u16, Option<Judgement>),
    Lost(bool),
    Kill,
    CanTake(bool),
    Due(bool),
    /// The room that is left in the ledger.
    Left(usize),
    /// How many samples are not resolved.
    Pending(usize),
    IsEmpty(bool),
    HasEnded(bool),
    /// The open batch is the one that was sent last, with this head and this body.
    IsSent(&'static [u8], &'static [u8]),
    /// The sample of this number cannot be taken.
    NotTaken(u64),
    /// The positions that are named, each with its reason.
    Names(&'static [(u64, Reason)]),
}

#[derive(Drop)]
struct Shard {
    core: ShardCore,
    ledger: Ledger,
    /// The number of the next sample.
    seq: u64,
    /// The attempt that was made last.
    last: Option<Attempt>,
}

/// Takes an item that may be taken.
fn take(core: &mut ShardCore, item: Item) -> bool {
    if !core.can_take() || !core.may_take(&item) {
        return false;
    }
    core.take(item);
    true
}

fn take_sample(alloc: Global, shard: &mut Shard) -> bool {
    match up(alloc, shard.seq) {
        Ok(item) => {
            shard.seq = shard.seq.saturating_add(1);
            take(&mut shard.core, item)
        }
        Err(_) => false,
    }
}

/// Returns whether freezing has this result. If memory runs out, nothing is changed, and it freezes
/// again.
fn freezes(core: &mut ShardCore, ledger: &mut Ledger, done: bool) -> bool {
    let (due, left, pending) = (core.due(), ledger.left(), core.pending_places().len());
    if let Ok(answer) = core.freeze(ledger) {
        return answer == done;
    }
    core.due() == due
        && core.batch_id().is_none()
        && core.pending_places().len() == pending
        && ledger.left() == left
        && core.freeze(ledger) == Ok(done)
}

/// Returns whether two attempts have the same bytes, if they are of one batch.
fn is_again(last: &Option<Attempt>, attempt: &Attempt) -> bool {
    match last {
        Some(last) if last.id == attempt.id => {
            last.request.as_slice() == attempt.request.as_slice()
        }
        _ => true,
    }
}

/// Returns whether this is an attempt to send the batch whose first sample has this number, with
/// the bytes of the attempt before it, or none.
fn note_attempt(last: &mut Option<Attempt>, attempt: Option<Attempt>, seq: Option<u64>) -> bool {
    match attempt {
        Some(attempt) => {
            let is_right = seq == Some(attempt.id.seq) && is_again(last, &attempt);
            *last = Some(attempt);
            is_right
        }
        None => seq.is_none(),
    }
}

/// Begins an attempt. If memory runs out, nothing is changed, and it tries again.
fn sends(shard: &mut Shard, seq: Option<u64>) -> bool {
    let id = shard.core.batch_id();
    if let Ok(attempt) = shard.core.attempt() {
        return note_attempt(&mut shard.last, attempt, seq);
    }
    let is_same = !shard.core.is_waiting() && shard.core.batch_id() == id;
    match shard.core.attempt() {
        Ok(attempt) => note_attempt(&mut shard.last, attempt, seq) && is_same,
        Err(_) => false,
    }
}

/// Returns whether a reply of this status to the batch whose first sample has the number `seq` gets
/// this judgement.
fn judges(shard: &mut Shard, seq: u64, status: u16, wanted: Option<Judgement>) -> bool {
    let id = BatchId {
        epoch: 3,
        shard: 1,
        seq,
    };
    if !shard.core.has_room_in(&shard.ledger) {
        return false;
    }
    match StatusCode::from_u16(status) {
        Ok(status) => shard.core.reply(id, status, &mut shard.ledger) == wanted,
        Err(_) => false,
    }
}

/// Returns whether the open batch is the one that was sent last, with this head and this body.
fn is_sent(shard: &Shard, head: &[u8], body: &[u8]) -> bool {
    match &shard.last {
        Some(last) => {
            shard.core.batch_id() == Some(last.id)
                && last.request.as_slice().strip_prefix(head) == Some(body)
        }
        None => false,
    }
}

/// Returns whether the shard is as a step says.
fn sees(shard: &Shard, step: Step) -> bool {
    match step {
        Step::CanTake(can) => shard.core.can_take() == can,
        Step::Due(due) => shard.core.due() == due,
        Step::Left(left) => shard.ledger.left() == left,
        Step::Pending(count) => shard.core.pending_places().len() == count,
        Step::IsEmpty(is_empty) => shard.core.is_empty() == is_empty,
        Step::HasEnded(has_ended) => shard.core.has_ended() == has_ended,
        Step::IsSent(head, body) => is_sent(shard, head, body),
        Step::Names(names) => shard.ledger.iter().eq(names.iter()),
        _ => false,
    }
}

/// Returns whether the sample of this number cannot be taken.
fn is_not_taken(alloc: Global, core: &ShardCore, seq: u64) -> bool {
    match up(alloc, seq) {
        Ok(item) => !core.may_take(&item),
        Err(_) => false,
    }
}

/// Returns whether a step goes as it says.
fn does(alloc: Global, shard: &mut Shard, step: Step) -> bool {
    match step {
        Step::Sample => take_sample(alloc, shard),
        Step::Flush => take(&mut shard.core, Item::Flush),
        Step::End(kind) => take(&mut shard.core, Item::End(kind)),
        Step::Freeze(done) => freezes(&mut shard.core, &mut shard.ledger, done),
        Step::Send(seq) => sends(shard, seq),
        Step::Reply(seq, status, answer) => judges(shard, seq, status, answer),
        Step::Lost(lost) => shard.core.lost() == lost,
        Step::Kill => {
            shard.core.kill();
            true
        }
        Step::NotTaken(seq) => is_not_taken(alloc, &shard.core, seq),
        _ => sees(shard, step),
    }
}

/// Returns whether each of these steps goes as it says.
fn does_all(alloc: Global, shard: &mut Shard, steps: &[Step]) -> bool {
    for step in steps {
        if !does(alloc, shard, *step) {
            return false;
        }
    }
    true
}

/// Returns the same with a new shard.
fn goes(alloc: Global, steps: &[Step]) -> bool {
    match core_of(alloc) {
        Ok(core) => {
            let mut shard = Shard {
                core,
                ledger: Ledger::new(alloc),
                seq: 0,
                last: None,
            };
            does_all(alloc, &mut shard, steps)
        }
        Err(_) => false,
    }
}

const TRIED_TWICE: &[Step] = &[
    Step::Sample,
    Step::CanTake(true),
    Step::Sample,
    Step::Due(true),
    Step::CanTake(false),
    Step::Send(None),
    Step::Freeze(true),
    Step::Left(2),
    Step::Freeze(false),
    Step::Due(false),
    Step::CanTake(false),
    Step::Lost(false),
    Step::Reply(0, 204, None),
    Step::Send(Some(0)),
    Step::Send(None),
    Step::Reply(1, 204, None),
    Step::Reply(0, 503, Some(Judgement::Again)),
    Step::Left(2),
    Step::CanTake(false),
    Step::Send(Some(0)),
    Step::Lost(true),
    Step::Lost(false),
    Step::Reply(0, 204, None),
    Step::Send(Some(0)),
    Step::Reply(0, 204, Some(Judgement::Done)),
    Step::Left(0),
    Step::Reply(0, 204, None),
    Step::CanTake(true),
    Step::Names(&[]),
];

const REFUSED_TWICE: &[Step] = &[
    Step::Sample,
    Step::Flush,
    Step::Due(true),
    Step::Freeze(true),
    Step::Send(Some(0)),
    Step::Reply(0, 400, Some(Judgement::Refused)),
    Step::Left(0),
    Step::Sample,
    Step::End(Kind::Orderly),
    Step::Due(true),
    Step::Freeze(true),
    Step::Send(Some(1)),
    Step::Reply(0, 204, None),
    Step::Reply(1, 404, Some(Judgement::Refused)),
    Step::Left(0),
    Step::Names(&[(10, Reason::Status(400)), (11, Reason::Status(404))]),
];

const MARKED_EMPTY: &[Step] = &[
    Step::Flush,
    Step::Due(false),
    Step::CanTake(true),
    Step::Freeze(false),
    Step::Send(None),
    Step::End(Kind::Orderly),
    Step::Due(false),
    Step::Names(&[]),
];

const KILLED: &[Step] = &[
    Step::Sample,
    Step::Sample,
    Step::Freeze(true),
    Step::Send(Some(0)),
    Step::Kill,
    Step::Reply(0, 400, None),
    Step::Lost(false),
    Step::CanTake(false),
    Step::Freeze(false),
    Step::Left(2),
    Step::Names(&[]),
];

const ONE_SAMPLE: &[Step] = &[
    Step::Sample,
    Step::Pending(1),
    Step::Freeze(true),
    Step::Send(Some(0)),
    Step::IsSent(UP_REQUEST, UP),
    Step::IsEmpty(false),
    Step::Reply(0, 200, Some(Judgement::Done)),
    Step::IsEmpty(true),
    Step::HasEnded(false),
    Step::End(Kind::Reshard),
    Step::HasEnded(true),
    Step::NotTaken(2),
];

/// A name, and the steps of a shard.
type Schedule = (&'static str, &'static [Step]);

static SCHEDULES: [Schedule; 5] = [
    ("a batch that is tried twice", TRIED_TWICE),
    ("two batches that are refused", REFUSED_TWICE),
    ("marks without samples", MARKED_EMPTY),
    ("a kill", KILLED),
    ("one sample", ONE_SAMPLE),
];

fn schedules() -> &'static [Schedule] {
    &SCHEDULES
}

fn wrong_schedule(alloc: Global, schedules: &[Schedule]) -> Option<&'static str> {
    for (name, steps) in schedules {
        if !goes(alloc, steps) {
            return Some(name);
        }
    }
    None
}

#[test]
fn steps(rt: HostRuntime) {
    none_is_wrong(&rt, wrong_schedule(rt.alloc(), schedules()));
}

fn request(alloc: Global, target: &Target) -> Result<Vec<u8>, AllocError> {
    match request_bytes(alloc, target, UP) {
        Err(_) => request_bytes(alloc, target, UP),
        request => request,
    }
}

/// Returns whether the request to a target that carries the message has that head.
fn is_requested_of(alloc: Global, target: &Target) -> bool {
    match request(alloc, target) {
        Ok(request) => request.strip_prefix(UP_REQUEST) == Some(UP),
        Err(_) => false,
    }
}

fn is_requested(alloc: Global) -> bool {
    match target(alloc) {
        Ok(target) => is_requested_of(alloc, &target),
        Err(_) => false,
    }
}

#[test]
fn requests_have_a_head(rt: HostRuntime) {
    holds(&rt, is_requested(rt.alloc()));
}

//! One request and its reply, over any reader and writer.

ghost use Rattle.std.specs.Prelude.{◌≡◌, ◌+◌, ◌⊎◌, [], true, false, Ok, Err, IfOk, IfErr, vec_len, if◌then◌else◌};
ghost use Rattle.std.specs.Io.KnownBytes.{Appends, IsAtEnd};
ghost use Rattle.rw_retry.specs.Judgements.{judgement_of};
ghost use Rattle.rw_types.specs.Memory.{ReadsOnto};
ghost use Rattle.rw_fields.specs.Fields.{with_fields};
ghost use Rattle.rw_tcp.specs.Hearing.{Hears};

use http::StatusCode;
use rw_fields::ExtraFields;
use rw_retry::{Judgement, judge};
use rw_shard_core::{MAX_HEAD_BYTES, ReplyRead, read_reply};
use rw_types::{ReadFault, Sink, Source, write_all};
use rw_worker::Reply;
use std::alloc::{AllocError, Global};
use std::marker::Model;

/// How many bytes one read asks for.
const CHUNK: usize = 1024;

/// A status that a reply brought, and that counts for its request, with the bytes that were read of
/// the reply. Nothing outside this module makes one. Contracts see the status.
#[derive(Drop)]
pub(crate) struct Heard {
    status: StatusCode,
    text: Vec<u8>,
}

impl Model for Heard {
    ghost use Rattle.std.specs.Prelude.{ℕ};

    ghost Value = { ℕ };

    ghost view = { λ h. h.status };
}

impl Heard {
    /// Returns the status.
    pub(crate) fn status(&self) -> StatusCode
        ensures { result ≡ self.now }
    {
        self.status
    }

    /// Returns what was read of the reply: its head, and what came of its body with that.
    pub(crate) fn text(&self) -> &[u8] {
        self.text.as_slice()
    }

    /// Returns the reply with this status.
    pub(crate) fn into_reply(self) -> Reply
        ensures { result.status ≡ self }
    {
        Reply {
            status: self.status,
        }
    }
}

/// Why a request has no reply. The receiver may have taken it or not.
#[derive(Clone, Copy, Debug, PartialEq, Eq)]
pub enum NoReply {
    /// Memory ran out.
    OutOfMemory,
    /// The reader or the writer failed.
    Device,
    /// The input ended before the status of a reply.
    Ended,
    /// What came is not a reply.
    Bad,
}

impl From<AllocError> for NoReply {
    ghost use Rattle.std.specs.Prelude.{◌≡◌};
    ghost use Rattle.rw_tcp.specs.declared.reply.NoReply.TheVariants.{OutOfMemory};

    ghost from_gives = { λ _ e. e ≡ OutOfMemory };

    fn from(_e: AllocError) -> NoReply {
        NoReply::OutOfMemory
    }
}

impl From<ReadFault> for NoReply {
    ghost use Rattle.std.specs.Prelude.{◌≡◌};
    ghost use Rattle.rw_tcp.specs.Hearing.{no_reply_of_reading};

    ghost from_gives = { λ f e. e ≡ no_reply_of_reading f };

    fn from(fault: ReadFault) -> NoReply {
        match fault {
            ReadFault::OutOfMemory => NoReply::OutOfMemory,
            ReadFault::Failed => NoReply::Device,
        }
    }
}

/// Appends what one read returns, and returns how many bytes came.
fn read_more<R: Source>(reader: &mut R, text: &mut Vec<u8>) -> Result<usize, ReadFault>
    ensures onto { IfOk result
        (λ _. ReadsOnto (R.remaining reader.old)
        (R.remaining reader.new) text.old.items text.new.items) }
    ensures len { IfOk result (λ n. vec_len text.new ≡ vec_len text.old + n) }
    ensures end { result ≡ Ok 0 → IsAtEnd (R.remaining reader.new) }
    ensures failed { result ≡ Err ReadFault.Failed → R.has_failed reader.new ≡ true }
{
    let mut chunk = [0; CHUNK];
    match reader.read(&mut chunk) {
        Ok(n) => {
            text.extend_from_slice(&chunk[..n])?;
            Ok(n)
        }
        Err(_) => Err(ReadFault::Failed),
    }
}

/// Reads until the bytes that came say what the reply is, or no more come.
fn hear<R: Source>(reader: &mut R, text: &mut Vec<u8>) -> Result<ReplyRead, ReadFault>
    requires { text.old.items ≡ [] }
    ensures heard { IfOk result (Hears (R.remaining reader.old) (R.remaining reader.new)) }
    ensures ended { result ≡ Ok ReplyRead.Partial → IsAtEnd (R.remaining reader.new) }
    ensures failed { result ≡ Err ReadFault.Failed → R.has_failed reader.new ≡ true }
{
    loop {
        match read_reply(text.as_slice()) {
            ReplyRead::Partial => {
                let count = read_more(reader, text)?;
                if count == 0 {
                    return Ok(ReplyRead::Partial);
                }
            }
            said => return Ok(said),
        }
    }
}

/// Returns what the status of a reply, of which this text was read, means for a request that may
/// not have been written whole.
fn answer_of(status: StatusCode, text: Vec<u8>, sent: bool) -> Result<Heard, NoReply>
    ensures reply { IfOk result (λ h. h ≡ status) }
    ensures sent { IfOk result (λ h. judgement_of h ≡ Judgement.Done → sent ≡ true) }
    ensures unsent { IfErr result (λ e. (e ≡ NoReply.Device) × (sent ≡ false)) }
{
    match judge(status) {
        Judgement::Done if !sent => Err(NoReply::Device),
        _ => Ok(Heard { status, text }),
    }
}

/// Returns why a reply has no status.
fn no_status(fault: NoReply, sent: bool) -> NoReply
    ensures { result ≡ (if sent then fault else NoReply.Device) }
{
    if sent { fault } else { NoReply::Device }
}

/// Does what `ask` does. Nothing outside this module can make up its answer.
pub(crate) fn hear_answer<R: Source, W: Sink>(
    alloc: Global,
    reader: &mut R,
    writer: &mut W,
    request: &[u8],
) -> Result<Heard, NoReply>
    ensures reply { IfOk result
        (λ h. Hears (R.remaining reader.old) (R.remaining reader.new) (ReplyRead.Status h)) }
    ensures written { IfOk result (λ h. judgement_of h ≡ Judgement.Done
        → Appends (W.contents writer.old) (W.contents writer.new) request.now) }
    ensures device { result ≡ Err NoReply.Device
        → (R.has_failed reader.new ≡ true) ⊎ (W.has_failed writer.new ≡ true) }
    ensures ended { result ≡ Err NoReply.Ended
        → Hears (R.remaining reader.old) (R.remaining reader.new) ReplyRead.Partial
        × IsAtEnd (R.remaining reader.new) }
    ensures bad { result ≡ Err NoReply.Bad
        → Hears (R.remaining reader.old) (R.remaining reader.new) ReplyRead.Bad }
{
    let mut text = Vec::with_capacity(alloc, MAX_HEAD_BYTES + CHUNK)?;
    let sent = write_all(writer, request).is_ok();
    let said = hear(reader, &mut text)?;
    match said {
        ReplyRead::Status(status) => match StatusCode::from_u16(status) {
            Ok(status) => answer_of(status, text, sent),
            Err(_) => unreachable!(),
        },
        ReplyRead::Partial => Err(no_status(NoReply::Ended, sent)),
        ReplyRead::Bad => Err(no_status(NoReply::Bad, sent)),
    }
}

/// Does what `hear_answer` does, for a request to which these fields are added.
pub(crate) fn hear_answer_to<R: Source, W: Sink>(
    alloc: Global,
    reader: &mut R,
    writer: &mut W,
    fields: &ExtraFields,
    request: &[u8],
) -> Result<Heard, NoReply>
    ensures reply { IfOk result
        (λ h. Hears (R.remaining reader.old) (R.remaining reader.new) (ReplyRead.Status h)) }
    ensures written { IfOk result (λ h. judgement_of h ≡ Judgement.Done
        → Appends (W.contents writer.old) (W.contents writer.new)
        (with_fields fields.now request.now)) }
    ensures device { result ≡ Err NoReply.Device
        → (R.has_failed reader.new ≡ true) ⊎ (W.has_failed writer.new ≡ true) }
{
    let bytes = fields.add_to(request)?;
    hear_answer(alloc, reader, writer, bytes.as_slice())
}

/// Writes a request with these fields after its request line, and reads until the status of its
/// reply has come, as `ask` does.
pub fn ask_with_fields<R: Source, W: Sink>(
    alloc: Global,
    reader: &mut R,
    writer: &mut W,
    fields: &ExtraFields,
    request: &[u8],
) -> Result<Reply, NoReply>
    ensures reply { IfOk result
        (λ r. Hears (R.remaining reader.old) (R.remaining reader.new) (ReplyRead.Status r.status)) }
    ensures written { IfOk result (λ r. judgement_of r.status ≡ Judgement.Done
        → Appends (W.contents writer.old) (W.contents writer.new)
        (with_fields fields.now request.now)) }
    ensures device { result ≡ Err NoReply.Device
        → (R.has_failed reader.new ≡ true) ⊎ (W.has_failed writer.new ≡ true) }
{
    match hear_answer_to(alloc, reader, writer, fields, request) {
        Ok(heard) => Ok(heard.into_reply()),
        Err(fault) => Err(fault),
    }
}

/// Writes a request, and reads until the status of its reply has come.
///
/// A receiver may answer after the head of a request, and close the connection before the body has
/// come. So the reply is read even if the writer failed; a status that takes the request counts
/// only if the request was written whole.
pub fn ask<R: Source, W: Sink>(
    alloc: Global,
    reader: &mut R,
    writer: &mut W,
    request: &[u8],
) -> Result<Reply, NoReply>
    ensures reply { IfOk result
        (λ r. Hears (R.remaining reader.old) (R.remaining reader.new) (ReplyRead.Status r.status)) }
    ensures written { IfOk result (λ r. judgement_of r.status ≡ Judgement.Done
        → Appends (W.contents writer.old) (W.contents writer.new) request.now) }
    ensures device { result ≡ Err NoReply.Device
        → (R.has_failed reader.new ≡ true) ⊎ (W.has_failed writer.new ≡ true) }
    ensures ended { result ≡ Err NoReply.Ended
        → Hears (R.remaining reader.old) (R.remaining reader.new) ReplyRead.Partial
        × IsAtEnd (R.remaining reader.new) }
    ensures bad { result ≡ Err NoReply.Bad
        → Hears (R.remaining reader.old) (R.remaining reader.new) ReplyRead.Bad }
{
    match hear_answer(alloc, reader, writer, request) {
        Ok(heard) => Ok(heard.into_reply()),
        Err(fault) => Err(fault),
    }
}

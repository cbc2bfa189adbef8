//! The requests of a connection, one after the other.

ghost use Rattle.std.specs.Prelude.{length, ◌<◌, ◌-◌, ◌^◌, true, false, ◌⊎◌, ◌≡◌, ℕ, ◌+◌, ◌≤◌, List, ◌++◌, Bool, Some, Err, OnOk};
ghost use Rattle.std.specs.Io.KnownBytes.{prepend_known};
ghost use Rattle.rw_endpoint.specs.Coding.{intake_of, through};
ghost use Rattle.rw_endpoint.specs.Serving.{Replies, HasWritten, IsTooSmall, AsksForBody, IsStoppedAtBody};
ghost use Rattle.rw_endpoint.specs.Alone.{IsOneRequest, IsServedAlone, IsOneRefusal, IsTurnedAway};
ghost use Rattle.rw_endpoint.specs.inner.Reading.{ReadsMore};
ghost use Rattle.rw_endpoint.specs.inner.Steps.{IsBodyAnswered, HasBodyServed, HasServed};

use crate::answer::Answer;
use crate::coding::{Coding, status_of};
use crate::finding::Finding;
use crate::input::{Front, Stop, read_body, read_front};
use crate::intake::{Intake, intake_of};
use crate::pending::Pending;
use crate::read_from::{FromRecording, FromSource, ReadFrom};
use crate::recording::Recording;
use crate::reply::{closing_reply, staying_reply};
use crate::serve_end::ServeEnd;
use rw_head::Limits;
use rw_types::{Sink, Source, write_all};
use std::alloc::Global;

/// What a head says of the body after it.
#[derive(Clone, Copy)]
struct Asked {
    len: usize,
    closes: bool,
    coding: Coding,
}

/// Answers the body that a head announced.
fn serve_body<R, T: ReadFrom<R>, W: Sink, A: Answer>(
    alloc: Global,
    reader: &mut R,
    writer: &mut W,
    answer: &mut A,
    pending: &mut Pending,
    asked: Asked,
) -> Result<(), ServeEnd>
    ensures served { (input before : List ℕ)
        → prepend_known pending.old (T.remaining reader.old) ≡ Some input
        → W.contents writer.old ≡ Some before
        → (text : List ℕ) × (W.contents writer.new ≡ Some (before ++ text))
        × HasBodyServed (through asked.coding A.answers) asked.len asked.closes input answer.old text
        (prepend_known pending.new (T.remaining reader.new)) answer.new result
        × OnOk result
        (W.has_failed writer.old ≡ false
        → (W.has_failed writer.new ≡ false)
        × (W.room writer.old ≤ W.room writer.new + length text)) }
    ensures recorded { (before : List ℕ) → W.contents writer.old ≡ Some before
        → ReadsMore (T.past reader.old) (T.past reader.new)
        (λ more. (text : List ℕ) × (W.contents writer.new ≡ Some (before ++ text))
        × HasBodyServed (through asked.coding A.answers) asked.len asked.closes
        (pending.old ++ more) answer.old text (Some pending.new) answer.new result) }
    ensures device { result ≡ Err ServeEnd.Device → (T.has_failed reader.new ≡ true)
        ⊎ (W.has_failed writer.new ≡ true) }
    ensures sure { T.is_sure reader.old ≡ true → T.is_sure reader.new ≡ true }
    ensures fits { (input : List ℕ)
        → prepend_known pending.old (T.remaining reader.old) ≡ Some input
        → T.is_sure reader.old ≡ true → W.has_failed writer.old ≡ false
        → result ≡ Err ServeEnd.Device
        → (whole : List ℕ) × (rest : List ℕ)
        × IsBodyAnswered (through asked.coding A.answers) asked.len input answer.old whole rest
        asked.closes answer.new
        × (W.room writer.old < length whole) }
{
    let body = match read_body::<R, T>(alloc, reader, pending, asked.len) {
        Ok(Some(body)) => body,
        Ok(None) => return Err(ServeEnd::Torn),
        Err(Stop::Device) => return Err(ServeEnd::Device),
        Err(Stop::OutOfMemory) => return Err(ServeEnd::OutOfMemory),
    };
    let status = match status_of(alloc, answer, body, asked.coding) {
        Ok(status) => status,
        Err(_) => return Err(ServeEnd::OutOfMemory),
    };
    if asked.closes {
        return match write_all(writer, closing_reply(status)) {
            Ok(()) => Err(ServeEnd::Closed),
            Err(_) => Err(ServeEnd::Device),
        };
    }
    match write_all(writer, staying_reply(status)) {
        Ok(()) => Ok(()),
        Err(_) => Err(ServeEnd::Device),
    }
}

/// Replies to the request at the front of the input.
fn serve_one<R, T: ReadFrom<R>, W: Sink, A: Answer>(
    alloc: Global,
    reader: &mut R,
    writer: &mut W,
    answer: &mut A,
    pending: &mut Pending,
    path: &[u8],
    intake: Intake,
) -> Result<(), ServeEnd>
    ensures served { (input before : List ℕ)
        → prepend_known pending.old (T.remaining reader.old) ≡ Some input
        → W.contents writer.old ≡ Some before
        → (text : List ℕ) × (W.contents writer.new ≡ Some (before ++ text))
        × HasServed path.now intake A.answers input answer.old text
        (prepend_known pending.new (T.remaining reader.new)) answer.new result
        × OnOk result
        (W.has_failed writer.old ≡ false
        → (W.has_failed writer.new ≡ false)
        × (W.room writer.old ≤ W.room writer.new + length text)) }
    ensures recorded { (before : List ℕ) → W.contents writer.old ≡ Some before
        → ReadsMore (T.past reader.old) (T.past reader.new)
        (λ more. (text : List ℕ) × (W.contents writer.new ≡ Some (before ++ text))
        × HasServed path.now intake A.answers (pending.old ++ more) answer.old text
        (Some pending.new) answer.new result) }
    ensures device { result ≡ Err ServeEnd.Device → (T.has_failed reader.new ≡ true)
        ⊎ (W.has_failed writer.new ≡ true) }
    ensures sure { T.is_sure reader.old ≡ true → T.is_sure reader.new ≡ true }
    ensures fits { (input : List ℕ)
        → prepend_known pending.old (T.remaining reader.old) ≡ Some input
        → T.is_sure reader.old ≡ true → W.has_failed writer.old ≡ false
        → result ≡ Err ServeEnd.Device
        → (whole : List ℕ) × (rest : List ℕ) × (closes : Bool)
        × Replies path.now intake A.answers input answer.old whole rest closes answer.new
        × (W.room writer.old < length whole) }
    ensures certain { (input : List ℕ)
        → prepend_known pending.old (T.remaining reader.old) ≡ Some input
        → result ≡ Err ServeEnd.OutOfMemory → AsksForBody path.now intake input }
{
    let front = match read_front::<R, T>(reader, pending, path, intake) {
        Ok(front) => front,
        Err(_) => return Err(ServeEnd::Device),
    };
    match front {
        Front::End => {
            if pending.len() == 0 {
                Err(ServeEnd::Eof)
            } else {
                Err(ServeEnd::Torn)
            }
        }
        Front::Never => match write_all(writer, closing_reply(400)) {
            Ok(()) => Err(ServeEnd::Closed),
            Err(_) => Err(ServeEnd::Device),
        },
        Front::Head(finding, len) => match finding {
            Finding::Refused(status) => match write_all(writer, closing_reply(status)) {
                Ok(()) => Err(ServeEnd::Closed),
                Err(_) => Err(ServeEnd::Device),
            },
            Finding::Body {
                len: n,
                closes,
                coding,
            } => {
                pending.drop_front(len);
                let asked = Asked {
                    len: n as usize,
                    closes,
                    coding,
                };
                serve_body::<R, T, W, A>(alloc, reader, writer, answer, pending, asked)
            }
        },
    }
}

/// Replies to the requests of a connection in order, up to the end of the input or to the first
/// reply that closes it.
fn serve_all<R, T: ReadFrom<R>, W: Sink, A: Answer>(
    alloc: Global,
    reader: &mut R,
    writer: &mut W,
    answer: &mut A,
    path: &[u8],
    intake: Intake,
) -> ServeEnd
    ensures served { (input before : List ℕ) → T.remaining reader.old ≡ Some input
        → W.contents writer.old ≡ Some before
        → HasWritten path.now intake A.answers input answer.old before
        (W.contents writer.new) answer.new result }
    ensures recorded { (before : List ℕ) → W.contents writer.old ≡ Some before
        → ReadsMore (T.past reader.old) (T.past reader.new)
        (λ input. HasWritten path.now intake A.answers input answer.old before
        (W.contents writer.new) answer.new result) }
    ensures device { result ≡ ServeEnd.Device → (T.has_failed reader.new ≡ true)
        ⊎ (W.has_failed writer.new ≡ true) }
    ensures fits { (input before : List ℕ) → T.remaining reader.old ≡ Some input
        → W.contents writer.old ≡ Some before
        → T.is_sure reader.old ≡ true → W.has_failed writer.old ≡ false
        → result ≡ ServeEnd.Device
        → IsTooSmall path.now intake A.answers input answer.old (W.room writer.old) }
    ensures certain { (input before : List ℕ) → T.remaining reader.old ≡ Some input
        → W.contents writer.old ≡ Some before
        → length input < 2 ^ 64 - 1 → result ≡ ServeEnd.OutOfMemory
        → IsStoppedAtBody path.now intake A.answers input answer.old before
        (W.contents writer.new) answer.new }
{
    let mut pending = Pending::new();
    for _ in 0..u64::MAX {
        match serve_one::<R, T, W, A>(alloc, reader, writer, answer, &mut pending, path, intake) {
            Ok(()) => {}
            Err(how) => return how,
        }
    }
    ServeEnd::OutOfMemory
}

/// Replies to the requests of a connection in order, up to the end of the input or to the first
/// reply that closes it.
///
/// A head is read and judged without memory, so what it refuses is answered even when memory is
/// exhausted. A body over the limit is refused by the length that its head announces; no clause
/// says that none of it is read before the reply. The memory for a body grows with what has come of
/// it. A Snappy block is decoded if the limits say so (`Limits::snappy`); one that has a fault, or
/// decodes to more than the limit, is refused without a call of `answer`. Once `answer` was called,
/// no memory is taken until its reply is written.
pub fn serve<R: Source, W: Sink, A: Answer>(
    alloc: Global,
    reader: &mut R,
    writer: &mut W,
    answer: &mut A,
    limits: &Limits,
) -> ServeEnd
    ensures served { (input before : List ℕ) → R.remaining reader.old ≡ Some input
        → W.contents writer.old ≡ Some before
        → HasWritten limits.now.path (intake_of limits.now) A.answers input answer.old before
        (W.contents writer.new) answer.new result }

    // Device: the reader or the writer has failed.
    ensures device { result ≡ ServeEnd.Device → (R.has_failed reader.new ≡ true)
        ⊎ (W.has_failed writer.new ≡ true) }

    // Over a sure reader the result is `Device` only if the writer had no room for the replies.
    ensures fits { (input before : List ℕ) → R.remaining reader.old ≡ Some input
        → W.contents writer.old ≡ Some before
        → R.is_sure reader.old ≡ true → W.has_failed writer.old ≡ false
        → result ≡ ServeEnd.Device
        → IsTooSmall limits.now.path (intake_of limits.now) A.answers input answer.old
        (W.room writer.old) }

    // Memory runs out only at a request whose head asks for its body: what a head refuses has its
    // reply.
    ensures certain { (input before : List ℕ) → R.remaining reader.old ≡ Some input
        → W.contents writer.old ≡ Some before
        → length input < 2 ^ 64 - 1 → result ≡ ServeEnd.OutOfMemory
        → IsStoppedAtBody limits.now.path (intake_of limits.now) A.answers input answer.old
        before (W.contents writer.new) answer.new }

    // A single request that asks to close has its reply, if there is room for one.
    ensures alone { (input before text : List ℕ) → R.remaining reader.old ≡ Some input
        → W.contents writer.old ≡ Some before
        → R.is_sure reader.old ≡ true → W.has_failed writer.old ≡ false → 86 ≤ W.room writer.old
        → IsOneRequest limits.now.path (intake_of limits.now) input text
        → IsServedAlone A.answers text answer.old before (W.contents writer.new) answer.new result }

    // A request that its head refuses has its reply, if there is room for it, and `answer` is not
    // called. No memory is needed.
    ensures refused { (input before : List ℕ) (status : ℕ) → R.remaining reader.old ≡ Some input
        → W.contents writer.old ≡ Some before
        → R.is_sure reader.old ≡ true → W.has_failed writer.old ≡ false → 86 ≤ W.room writer.old
        → length input < 2 ^ 64 - 1
        → IsOneRefusal limits.now.path (intake_of limits.now) input status
        → IsTurnedAway status answer.old before (W.contents writer.new) answer.new result }
{
    let path = limits.path.as_str().as_bytes();
    serve_all::<R, FromSource, W, A>(alloc, reader, writer, answer, path, intake_of(limits))
}

/// Does what `serve` does, and also says so of what was read, if it was not known before.
pub fn serve_recorded<R: Source, W: Sink, A: Answer>(
    alloc: Global,
    reader: &mut Recording<R>,
    writer: &mut W,
    answer: &mut A,
    limits: &Limits,
) -> ServeEnd
    // Of the bytes that were read.
    ensures recorded { (before : List ℕ) → W.contents writer.old ≡ Some before
        → (input : List ℕ) × (reader.new.past ≡ reader.old.past ++ input)
        × HasWritten limits.now.path (intake_of limits.now) A.answers input answer.old before
        (W.contents writer.new) answer.new result }

    // Device: the reader or the writer has failed.
    ensures device { result ≡ ServeEnd.Device → (R.has_failed reader.new.device ≡ true)
        ⊎ (W.has_failed writer.new ≡ true) }
{
    let path = limits.path.as_str().as_bytes();
    serve_all::<Recording<R>, FromRecording, W, A>(
        alloc,
        reader,
        writer,
        answer,
        path,
        intake_of(limits),
    )
}

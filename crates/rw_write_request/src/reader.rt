//! Messages, read from their bytes.

ghost use Rattle.std.specs.Prelude.{◌≡◌, ◌+◌, ◌<◌, ◌≤◌, List, [], length, vec_capacity, IfOk, IfErr, MatchResult, ◌≢◌, Ok, Err};
ghost use Rattle.rw_write_request.specs.Message.{WriteRequest};
ghost use Rattle.rw_types.specs.Labels.{text_label};
ghost use Rattle.rw_write_request.specs.Texts.{series_of_texts};
ghost use Rattle.rw_write_request.specs.Fields.{Field, known_wire, contents};
ghost use Rattle.rw_write_request.specs.Read.{GivesOrMemory, uvarint_at, bytes_at, content_at, judged_tag, field_at, text, word, timestamp, nested, label_step, read_label, sample_step, read_sample, series_step, read_series, request_step, read};
ghost use Rattle.rw_write_request.specs.inner.Read.{Gives};
ghost use Rattle.rw_write_request.specs.Spells.{AreFieldsOf, Spells};
ghost use Rattle.rw_write_request.specs.declared.fault.WireFault.TheVariants.{OutOfMemory};
ghost use Rattle.rw_write_request.specs.inner.View.{content_view, field_view};

use crate::fault::WireFault;
use crate::kind::Kind;
use crate::message::{Message, Series};
use crate::message_check::check_message;
use byteorder::{ByteOrder, LittleEndian};
use rw_codes::get_uvarint;
use rw_types::Word;
use std::alloc::{AllocError, Global};

/// What a field holds, by its wire type.
#[derive(Clone, Copy)]
pub enum WireValue<'a> {
    Varint(u64),
    Fixed64(u64),
    Bytes(&'a [u8]),
    Fixed32(u32),
}

/// A field: its number, and what it holds.
#[derive(Clone, Copy)]
pub struct Part<'a> {
    pub number: u64,
    pub held: WireValue<'a>,
}

/// Returns the varint at the front, and the bytes after it.
#[tactic(auto, unfolding(crate::specs::Read::in_message))]
fn uvarint_at(bytes: &[u8]) -> Result<(u64, &[u8]), WireFault>
    ensures { Gives (λ x. (x.0, x.1.now)) result (uvarint_at bytes.now) }
{
    let (n, len) = get_uvarint(bytes)?;
    Ok((n, &bytes[len..]))
}

fn bytes_at(n: u64, bytes: &[u8]) -> Result<(&[u8], &[u8]), WireFault>
    ensures gives { Gives (λ x. (x.0.now, x.1.now)) result (bytes_at n bytes.now) }
    ensures length { IfOk result (λ x. length x.0.now ≡ n) }
{
    if (bytes.len() as u64) < n {
        return Err(WireFault::Truncated);
    }
    Ok(bytes.split_at(n as usize))
}

#[tactic(auto, using(crate::proofs::LittleEnd::eight, crate::proofs::LittleEnd::four), unfolding(crate::specs::Read::content_at))]
fn content_at(wire: u64, bytes: &[u8]) -> Result<(WireValue<'_>, &[u8]), WireFault>
    ensures { Gives (λ x. (content_view x.0, x.1.now)) result (content_at wire bytes.now) }
{
    match wire {
        0 => {
            let (n, rest) = uvarint_at(bytes)?;
            Ok((WireValue::Varint(n), rest))
        }
        1 => {
            let (b, rest) = bytes_at(8, bytes)?;
            Ok((WireValue::Fixed64(LittleEndian::read_u64(b)), rest))
        }
        2 => {
            let (len, rest) = uvarint_at(bytes)?;
            let (held, rest) = bytes_at(len, rest)?;
            Ok((WireValue::Bytes(held), rest))
        }
        5 => {
            let (b, rest) = bytes_at(4, bytes)?;
            Ok((WireValue::Fixed32(LittleEndian::read_u32(b)), rest))
        }
        _ => Err(WireFault::BadWire),
    }
}

fn known_wire(kind: Kind, number: u64) -> Option<u64>
    ensures { result ≡ known_wire kind number }
{
    match kind {
        Kind::WriteRequest if number == 1 => Some(2),
        Kind::TimeSeries if number == 1 || number == 2 => Some(2),
        Kind::Label if number == 1 || number == 2 => Some(2),
        Kind::Sample if number == 1 => Some(1),
        Kind::Sample if number == 2 => Some(0),
        _ => None,
    }
}

#[tactic(auto, unfolding(crate::specs::Read::judged_tag, crate::specs::Read::known_judged))]
fn judged(kind: Kind, number: u64, wire: u64) -> Result<u64, WireFault>
    ensures { Gives (λ w. w) result (judged_tag kind number wire) }
{
    if number == 0 {
        return Err(WireFault::FieldZero);
    }
    if wire > 2 && wire != 5 {
        return Err(WireFault::BadWire);
    }
    match known_wire(kind, number) {
        Some(known) if wire != known => Err(WireFault::WrongWire),
        _ => Ok(wire),
    }
}

#[tactic(auto, unfolding(crate::specs::Read::field_at))]
pub(crate) fn field_at(kind: Kind, bytes: &[u8]) -> Result<(Part<'_>, &[u8]), WireFault>
    ensures { Gives (λ x. (field_view x.0, x.1.now)) result (field_at kind bytes.now) }
{
    let (tag, rest) = uvarint_at(bytes)?;
    let number = tag / 8;
    let wire = judged(kind, number, tag % 8)?;
    let (held, rest) = content_at(wire, rest)?;
    Ok((Part { number, held }, rest))
}

/// Returns how many fields have the number 1, and how many the number 2, before the first fault.
pub(crate) fn field_counts(kind: Kind, bytes: &[u8]) -> (usize, usize)
    ensures { (fields : List Field) → AreFieldsOf kind bytes.now fields
        → (result.0 ≡ length (contents 1 fields)) × (result.1 ≡ length (contents 2 fields)) }
{
    let mut ones = 0;
    let mut twos = 0;
    let mut rest = bytes;
    while let Ok((part, after)) = field_at(kind, rest) {
        match part.number {
            1 => ones += 1,
            2 => twos += 1,
            _ => {}
        }
        rest = after;
    }
    (ones, twos)
}

/// Reserves room for `count` items, each of which is in some of the bytes, and for at most as many
/// as there are bytes.
fn room_for<T>(alloc: Global, count: usize, bytes: &[u8]) -> Result<Vec<T>, AllocError>
    ensures items { IfOk result (λ v. v.items ≡ []) }
    ensures room { IfOk result (λ v. vec_capacity v ≤ length bytes.now) }
{
    Vec::with_capacity(alloc, count.min(bytes.len()))
}

#[tactic(auto, unfolding(crate::specs::Read::text))]
fn text(held: WireValue<'_>) -> Result<&str, WireFault>
    ensures { Gives (λ s. s.now) result (text (content_view held.entry)) }
{
    match held {
        WireValue::Bytes(bytes) => match str::from_utf8(bytes) {
            Ok(s) => Ok(s),
            Err(_) => Err(WireFault::NotUtf8),
        },
        _ => Err(WireFault::WrongWire),
    }
}

#[tactic(auto, unfolding(crate::specs::Read::label_step))]
fn set_label<'a>(label: (&'a str, &'a str), part: Part<'a>) -> Result<(&'a str, &'a str), WireFault>
    ensures { Gives (λ x. (x.0.now, x.1.now)) result
        (label_step (label.entry.0.now, label.entry.1.now) (field_view part.entry)) }
{
    match part.number {
        1 => {
            let name = text(part.held)?;
            Ok((name, label.1))
        }
        2 => {
            let value = text(part.held)?;
            Ok((label.0, value))
        }
        _ => Ok(label),
    }
}

/// Returns the last name and the last value that the bytes of a label have.
pub(crate) fn label_texts(bytes: &[u8]) -> Result<(&str, &str), WireFault>
    ensures { Gives (λ x. (x.0.now, x.1.now)) result (read_label bytes.now) }
{
    let mut label = ("", "");
    let mut rest = bytes;
    while !rest.is_empty() {
        let (part, after) = field_at(Kind::Label, rest)?;
        label = set_label(label, part)?;
        rest = after;
    }
    Ok(label)
}

fn read_label(alloc: Global, bytes: &[u8]) -> Result<(String, String), WireFault>
    ensures { GivesOrMemory text_label result (read_label bytes.now) }
{
    let texts = label_texts(bytes)?;
    let name = String::from_str(alloc, texts.0)?;
    let value = String::from_str(alloc, texts.1)?;
    Ok((name, value))
}

#[tactic(auto, unfolding(crate::specs::Read::word))]
fn word(held: WireValue<'_>) -> Result<Word, WireFault>
    ensures { Gives (λ w. w) result (word (content_view held.entry)) }
{
    match held {
        WireValue::Fixed64(n) => Ok(Word(n)),
        _ => Err(WireFault::WrongWire),
    }
}

#[tactic(auto, unfolding(crate::specs::Read::timestamp))]
fn timestamp(held: WireValue<'_>) -> Result<i64, WireFault>
    ensures { Gives (λ t. t) result (timestamp (content_view held.entry)) }
{
    match held {
        WireValue::Varint(n) => Ok(n.cast_signed()),
        _ => Err(WireFault::WrongWire),
    }
}

#[tactic(auto, unfolding(crate::specs::Read::sample_step))]
fn set_sample(sample: (Word, i64), part: Part<'_>) -> Result<(Word, i64), WireFault>
    ensures { Gives (λ x. x) result (sample_step sample (field_view part.entry)) }
{
    match part.number {
        1 => {
            let w = word(part.held)?;
            Ok((w, sample.1))
        }
        2 => {
            let t = timestamp(part.held)?;
            Ok((sample.0, t))
        }
        _ => Ok(sample),
    }
}

fn read_sample(bytes: &[u8]) -> Result<(Word, i64), WireFault>
    ensures { Gives (λ x. x) result (read_sample bytes.now) }
{
    let mut sample = (Word(0), 0);
    let mut rest = bytes;
    while !rest.is_empty() {
        let (part, after) = field_at(Kind::Sample, rest)?;
        sample = set_sample(sample, part)?;
        rest = after;
    }
    Ok(sample)
}

#[tactic(auto, unfolding(crate::specs::Read::nested))]
pub(crate) fn nested_label(
    alloc: Global,
    held: WireValue<'_>,
) -> Result<(String, String), WireFault>
    ensures { GivesOrMemory text_label result (nested read_label (content_view held.entry)) }
{
    match held {
        WireValue::Bytes(bytes) => read_label(alloc, bytes),
        _ => Err(WireFault::WrongWire),
    }
}

#[tactic(auto, unfolding(crate::specs::Read::nested))]
pub(crate) fn nested_sample(held: WireValue<'_>) -> Result<(Word, i64), WireFault>
    ensures { Gives (λ x. x) result (nested read_sample (content_view held.entry)) }
{
    match held {
        WireValue::Bytes(bytes) => read_sample(bytes),
        _ => Err(WireFault::WrongWire),
    }
}

#[tactic(auto, unfolding(crate::specs::Read::series_step))]
fn add_to_series(
    alloc: Global,
    labels: &mut Vec<(String, String)>,
    samples: &mut Vec<(Word, i64)>,
    part: Part<'_>,
) -> Result<(), WireFault>
    ensures { GivesOrMemory (λ _. series_of_texts labels.new.items samples.new.items) result
        (series_step (series_of_texts labels.old.items samples.old.items) (field_view part.entry)) }
{
    match part.number {
        1 => {
            let label = nested_label(alloc, part.held)?;
            labels.push(label)?;
        }
        2 => {
            let sample = nested_sample(part.held)?;
            samples.push(sample)?;
        }
        _ => {}
    }
    Ok(())
}

/// Returns the series that the bytes spell, or the first fault in reading order. If memory runs
/// out, nothing is kept.
pub fn read_series(alloc: Global, bytes: &[u8]) -> Result<Series, WireFault>
    ensures { GivesOrMemory (λ s. s) result (read_series bytes.now) }
{
    let (label_count, sample_count) = field_counts(Kind::TimeSeries, bytes);
    let mut labels = room_for(alloc, label_count, bytes)?;
    let mut samples = room_for(alloc, sample_count, bytes)?;
    let mut rest = bytes;
    while !rest.is_empty() {
        let (part, after) = field_at(Kind::TimeSeries, rest)?;
        add_to_series(alloc, &mut labels, &mut samples, part)?;
        rest = after;
    }
    Ok(Series { labels, samples })
}

#[tactic(auto, unfolding(crate::specs::Read::nested))]
fn nested_series(alloc: Global, held: WireValue<'_>) -> Result<Series, WireFault>
    ensures { GivesOrMemory (λ s. s) result (nested read_series (content_view held.entry)) }
{
    match held {
        WireValue::Bytes(bytes) => read_series(alloc, bytes),
        _ => Err(WireFault::WrongWire),
    }
}

#[tactic(auto, unfolding(crate::specs::Read::request_step))]
fn add_to_message(alloc: Global, message: &mut Vec<Series>, part: Part<'_>) -> Result<(), WireFault>
    ensures { GivesOrMemory (λ _. message.new.items) result
        (request_step message.old.items (field_view part.entry)) }
{
    if part.number == 1 {
        let series = nested_series(alloc, part.held)?;
        message.push(series)?;
    }
    Ok(())
}

fn read_message(alloc: Global, bytes: &[u8]) -> Result<Message, WireFault>
    ensures { GivesOrMemory (λ m. m) result (read bytes.now) }
{
    let (series_count, _) = field_counts(Kind::WriteRequest, bytes);
    let mut series = room_for(alloc, series_count, bytes)?;
    let mut rest = bytes;
    while !rest.is_empty() {
        let (part, after) = field_at(Kind::WriteRequest, rest)?;
        add_to_message(alloc, &mut series, part)?;
        rest = after;
    }
    Ok(Message { series })
}

/// Returns the message that the bytes spell. Fields may come in any order, and unknown ones are
/// skipped; of a scalar or a string the last one counts, and one that is absent is zero or empty.
/// If memory runs out, nothing is kept.
pub fn decode(alloc: Global, bytes: &[u8]) -> Result<Message, WireFault>
    // What is read is spelled so.
    ensures found { IfOk result (λ m. Spells bytes.now m) }
    // What is spelled so is read, unless memory runs out.
    ensures only { (m : WriteRequest) → Spells bytes.now m
        → MatchResult result (λ n. n ≡ m) (λ e. e ≡ OutOfMemory) }
    // Any other fault is the first one in reading order.
    ensures fault { IfErr result (λ e. e ≢ OutOfMemory → read bytes.now ≡ Err e) }
    // Memory runs out only if a message is spelled.
    ensures memory { IfErr result
        (λ e. e ≡ OutOfMemory → (m : WriteRequest) × (read bytes.now ≡ Ok m)) }
{
    match read_message(alloc, bytes) {
        Ok(message) => Ok(message),
        Err(fault) if fault == WireFault::OutOfMemory => {
            check_message(bytes)?;
            Err(fault)
        }
        Err(fault) => Err(fault),
    }
}

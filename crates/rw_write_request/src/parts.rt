//! Reads messages part by part: their series one after the other, and the samples of a series whose
//! labels are known by its first bytes.

ghost use Rattle.std.specs.Prelude.{◌≡◌, ◌≢◌, ℕ, ◌<◌, ◌≤◌, ◌+◌, ◌++◌, List, None, Ok, Err, false, length, IfOk, IfErr, IfSome, OnOk};
ghost use Rattle.rw_types.specs.Labels.{Labels};
ghost use Rattle.rw_write_request.specs.Message.{Sample, TimeSeries, WriteRequest};
ghost use Rattle.rw_write_request.specs.Read.{GivesOrMemory, read_series, series_step};
ghost use Rattle.rw_write_request.specs.declared.fault.WireFault.TheVariants.{OutOfMemory};
ghost use Rattle.rw_write_request.specs.Texts.{series_of_texts};
ghost use Rattle.rw_write_request.specs.inner.View.{field_view};
ghost use Rattle.rw_write_request.specs.Parts.{read_on, read_on_after, series_on, IsHeadOf, SamplesGive};

use crate::fault::WireFault;
use crate::kind::Kind;
use crate::reader::{Part, WireValue, field_at, field_counts, nested_label, nested_sample};
use rw_types::Word;
use std::alloc::Global;

/// How many samples of a series are read at a time.
const MOST_SAMPLES: usize = 4096;

/// How many fields of a series are read at a time.
const MOST_FIELDS: usize = 4096;

/// Returns the first field of a message's bytes: the bytes of its series, if it is one, and the
/// bytes after it.
pub fn message_part(bytes: &[u8]) -> Result<(Option<&[u8]>, &[u8]), WireFault>
    requires { 0 < length bytes.now }
    // A series is read, and then the rest.
    ensures series { IfOk result (λ x. IfSome x.0 (λ s. (m : WriteRequest)
        → read_on m bytes.now ≡ read_on_after m (read_series s.now) x.1.now)) }
    // Any other field is skipped.
    ensures other { IfOk result
        (λ x. x.0 ≡ None → (m : WriteRequest) → read_on m bytes.now ≡ read_on m x.1.now) }
    ensures fault { IfErr result (λ e. (m : WriteRequest) → read_on m bytes.now ≡ Err e) }
    ensures shorter { IfOk result (λ x. length x.1.now < length bytes.now) }
{
    let (part, rest) = field_at(Kind::WriteRequest, bytes)?;
    if part.number != 1 {
        return Ok((None, rest));
    }
    match part.held {
        WireValue::Bytes(series) => Ok((Some(series), rest)),
        _ => Err(WireFault::WrongWire),
    }
}

/// Returns how many labels a series has, if the bytes are a series. This takes no memory.
pub fn label_count(bytes: &[u8]) -> usize
    ensures { IfOk (read_series bytes.now) (λ s. result ≡ length s.labels) }
{
    let (labels, _) = field_counts(Kind::TimeSeries, bytes);
    labels
}

/// Returns the bytes of a series before its first sample, or before a fault.
pub fn head_of(bytes: &[u8]) -> &[u8]
    ensures { (rest : List ℕ) × (bytes.now ≡ result.now ++ rest) }
{
    let mut rest = bytes;
    while let Ok((part, after)) = field_at(Kind::TimeSeries, rest) {
        if part.number == 2 {
            break;
        }
        rest = after;
    }
    let (head, _) = bytes.split_at(bytes.len() - rest.len());
    head
}

/// Adds the sample of a field if it holds one; the field is not a label.
#[tactic(auto, unfolding(crate::specs::Read::series_step))]
fn add_sample(samples: &mut Vec<(Word, i64)>, part: Part<'_>) -> Result<(), WireFault>
    requires { part.number ≢ 1 }
    ensures step { (labels : Labels)
        → GivesOrMemory (λ _. record { labels = labels; samples = samples.new.items }) result
        (series_step (record { labels = labels; samples = samples.old.items })
        (field_view part.entry)) }
    ensures one { length samples.new.items ≤ length samples.old.items + 1 }
{
    if part.number == 2 {
        let sample = nested_sample(part.held)?;
        samples.push(sample)?;
    }
    Ok(())
}

/// Overwrites `samples` with those of a series, from the bytes after its head. The answer is
/// `false` if a label comes there or a field follows 4,096 samples; the caller then has to read it
/// another way.
pub fn read_samples(samples: &mut Vec<(Word, i64)>, bytes: &[u8]) -> Result<bool, WireFault>
    ensures given { (head : List ℕ) (labels : Labels) → IsHeadOf head labels
        → SamplesGive result labels samples.new.items (read_series (head ++ bytes.now)) }
    // If no label comes there, a series of fewer than 4,096 samples is read.
    ensures enough { (head : List ℕ) (whole : TimeSeries) → IsHeadOf head whole.labels
        → read_series (head ++ bytes.now) ≡ Ok whole → length whole.samples < 4096
        → result ≢ Ok false }
    ensures few { length samples.new.items ≤ 4096 }
{
    samples.clear();
    let mut rest = bytes;
    while !rest.is_empty() {
        let (part, after) = field_at(Kind::TimeSeries, rest)?;
        if part.number == 1 || samples.len() >= MOST_SAMPLES {
            return Ok(false);
        }
        add_sample(samples, part)?;
        rest = after;
    }
    Ok(true)
}

/// Adds the label of a field if it holds one. A sample is only judged.
#[tactic(auto, unfolding(crate::specs::Read::series_step))]
fn add_label(
    alloc: Global,
    labels: &mut Vec<(String, String)>,
    part: Part<'_>,
) -> Result<(), WireFault>
    ensures found { OnOk result ((samples : List Sample) → (more : List Sample)
        × (series_step (series_of_texts labels.old.items samples) (field_view part.entry)
        ≡ Ok (series_of_texts labels.new.items more))) }
    ensures fault { IfErr result (λ e. e ≢ OutOfMemory → (samples : List Sample)
        → series_step (series_of_texts labels.old.items samples) (field_view part.entry) ≡ Err e) }
{
    match part.number {
        1 => {
            let label = nested_label(alloc, part.held)?;
            labels.push(label)?;
        }
        2 => {
            nested_sample(part.held)?;
        }
        _ => {}
    }
    Ok(())
}

/// Returns the labels of the series that the bytes spell, or the first fault in reading order. Its
/// samples are judged too, and take no memory.
pub fn read_labels(alloc: Global, bytes: &[u8]) -> Result<Vec<(String, String)>, WireFault>
    ensures found { IfOk result (λ labels. (samples : List Sample)
        × (read_series bytes.now ≡ Ok (series_of_texts labels.items samples))) }
    ensures fault { IfErr result (λ e. e ≢ OutOfMemory → read_series bytes.now ≡ Err e) }
{
    let mut labels = Vec::new(alloc);
    let mut rest = bytes;
    while !rest.is_empty() {
        let (part, after) = field_at(Kind::TimeSeries, rest)?;
        add_label(alloc, &mut labels, part)?;
        rest = after;
    }
    Ok(labels)
}

/// Adds the sample of a field of a sound series if it holds one.
#[tactic(auto, unfolding(crate::specs::Read::series_step))]
fn add_next(samples: &mut Vec<(Word, i64)>, part: Part<'_>) -> Result<(), WireFault>
    ensures found { OnOk result ((labels : Labels) (before : List Sample) (next : TimeSeries)
        → series_step (record { labels = labels; samples = before ++ samples.old.items })
        (field_view part.entry) ≡ Ok next → next.samples ≡ before ++ samples.new.items) }
    ensures fault { IfErr result (λ e. e ≢ OutOfMemory
        → (series : TimeSeries) → series_step series (field_view part.entry) ≡ Err e) }
    ensures one { length samples.new.items ≤ length samples.old.items + 1 }
{
    if part.number == 2 {
        let sample = nested_sample(part.held)?;
        samples.push(sample)?;
    }
    Ok(())
}

/// Overwrites `samples` with the next ones of a series, those of at most 4,096 fields, and returns
/// the bytes after them. Labels are skipped without a check.
pub fn next_samples<'a>(
    samples: &mut Vec<(Word, i64)>,
    bytes: &'a [u8],
) -> Result<&'a [u8], WireFault>
    requires { 0 < length bytes.now }
    // What is left spells the rest of the series.
    ensures found { IfOk result (λ rest. (before whole : TimeSeries)
        → series_on before bytes.now ≡ Ok whole → (labels : Labels) × (series_on
        (record { labels = labels; samples = before.samples ++ samples.new.items }) rest.now
        ≡ Ok whole)) }
    ensures fault { IfErr result (λ e. e ≢ OutOfMemory
        → (before whole : TimeSeries) → series_on before bytes.now ≢ Ok whole) }
    ensures shorter { IfOk result (λ rest. length rest.now < length bytes.now) }
    ensures few { length samples.new.items ≤ 4096 }
{
    samples.clear();
    let mut rest = bytes;
    for _ in 0..MOST_FIELDS {
        if rest.is_empty() {
            return Ok(rest);
        }
        let (part, after) = field_at(Kind::TimeSeries, rest)?;
        add_next(samples, part)?;
        rest = after;
    }
    Ok(rest)
}

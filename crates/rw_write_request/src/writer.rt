//! Writes the canonical spelling of messages, into room that was made before.

ghost use Rattle.std.specs.Prelude.{◌≡◌, ◌≤◌, ◌<◌, ◌+◌, ◌^◌, ◌++◌, length, IfOk};
ghost use Rattle.std.specs.Vec.{vec_len, vec_capacity};
ghost use Rattle.std.specs.List.{AllByRecursion};
ghost use Rattle.rw_codes.specs.Varint.{uvarint};
ghost use Rattle.rw_types.specs.LabelFields.{tag};
ghost use Rattle.rw_write_request.specs.Canon.{fixed64_field, int64_field, sample_field, sample_fields, series_field, series_head, canon};
ghost use Rattle.rw_write_request.specs.Valid.{IsLabel, IsValidSample, IsSeries};
ghost use Rattle.rw_write_request.specs.Spells.{Spells};
ghost use Rattle.rw_write_request.specs.Texts.{series_of_texts};

use crate::lengths::{encoded_len, parts_len, sample_len};
use crate::message::{Message, Series};
use rw_codes::push_uvarint;
use rw_types::{LabelSet, Word, put_bytes, put_field_front, put_label_fields};
use std::alloc::{AllocError, Global};

#[tactic(auto, unfolding(crate::specs::Canon::fixed64_field))]
fn put_word(out: &mut Vec<u8>, word: Word)
    requires room { vec_len out.old + length (fixed64_field 1 word) ≤ vec_capacity out.old }
    ensures items { out.new.items ≡ out.old.items ++ fixed64_field 1 word }
    ensures fits { word < 2 ^ 64 }
    ensures capacity { vec_capacity out.old ≤ vec_capacity out.new }
{
    if word.0 != 0 {
        out.push_reserved(0x09);
        put_bytes(out, &word.0.to_le_bytes());
    }
}

#[tactic(auto, unfolding(crate::specs::Canon::int64_field))]
fn put_timestamp(out: &mut Vec<u8>, timestamp: i64)
    requires room { vec_len out.old + length (int64_field 2 timestamp) ≤ vec_capacity out.old }
    ensures items { out.new.items ≡ out.old.items ++ int64_field 2 timestamp }
    ensures capacity { vec_capacity out.old ≤ vec_capacity out.new }
{
    let bits = timestamp.cast_unsigned();
    if bits != 0 {
        out.push_reserved(0x10);
        push_uvarint(out, bits);
    }
}

/// Appends the field of a sample in its series, at most 22 bytes, to a vector that has room for it.
/// This takes no memory.
#[tactic(auto, unfolding(crate::specs::Canon::sample_field, crate::specs::Canon::sample))]
pub fn put_sample_field(out: &mut Vec<u8>, word: Word, timestamp: i64)
    requires room { vec_len out.old + length (sample_field (word, timestamp))
        ≤ vec_capacity out.old }
    ensures items { out.new.items ≡ out.old.items ++ sample_field (word, timestamp) }
    ensures fits { word < 2 ^ 64 }
    ensures capacity { vec_capacity out.old ≤ vec_capacity out.new }
{
    put_field_front(out, 2, sample_len(word, timestamp));
    put_word(out, word);
    put_timestamp(out, timestamp);
}

/// Appends the tag and the length of a series whose label and sample fields take `len` bytes in
/// all, to a vector that has room for them. This takes no memory.
pub fn put_series_front(out: &mut Vec<u8>, len: usize)
    requires room { vec_len out.old + 1 + length (uvarint len) ≤ vec_capacity out.old }
    ensures items { out.new.items ≡ out.old.items ++ tag 1 2 ++ uvarint len }
    ensures capacity { vec_capacity out.old ≤ vec_capacity out.new }
{
    put_field_front(out, 1, len);
}

/// Appends what comes before the sample fields of a series with these labels, if these fields take
/// `len` bytes, to a vector that has room for it. This takes no memory.
#[tactic(auto, unfolding(crate::specs::Canon::series_head))]
pub fn put_series_head(out: &mut Vec<u8>, labels: &LabelSet, len: usize)
    requires fits { length (series_head labels.now len) + len < 2 ^ 64 }
    requires room { vec_len out.old + length (series_head labels.now len) ≤ vec_capacity out.old }
    ensures items { out.new.items ≡ out.old.items ++ series_head labels.now len }
    ensures texts { AllByRecursion IsLabel labels.now }
    ensures capacity { vec_capacity out.old ≤ vec_capacity out.new }
{
    let fields = labels.fields();
    put_series_front(out, fields.len() + len);
    put_bytes(out, fields);
}

fn put_sample_fields(out: &mut Vec<u8>, samples: &[(Word, i64)])
    requires room { vec_len out.old + length (sample_fields samples.now) ≤ vec_capacity out.old }
    ensures items { out.new.items ≡ out.old.items ++ sample_fields samples.now }
    ensures words { AllByRecursion IsValidSample samples.now }
    ensures capacity { vec_capacity out.old ≤ vec_capacity out.new }
{
    for (word, timestamp) in samples {
        put_sample_field(out, *word, *timestamp);
    }
}

/// Appends the field of a series with these labels and samples to a vector that has room for it.
/// This takes no memory.
#[tactic(auto, unfolding(crate::specs::Canon::series_field, crate::specs::Canon::series))]
pub fn put_series(out: &mut Vec<u8>, labels: &[(String, String)], samples: &[(Word, i64)])
    requires room { vec_len out.old + length (series_field (series_of_texts labels.now samples.now))
        ≤ vec_capacity out.old }
    ensures items { out.new.items
        ≡ out.old.items ++ series_field (series_of_texts labels.now samples.now) }
    ensures valid { IsSeries (series_of_texts labels.now samples.now) }
    ensures capacity { vec_capacity out.old ≤ vec_capacity out.new }
{
    let len = parts_len(labels, samples).unwrap();
    put_series_front(out, len);
    put_label_fields(out, labels);
    put_sample_fields(out, samples);
}

fn put_series_field(out: &mut Vec<u8>, s: &Series)
    requires room { vec_len out.old + length (series_field s.now) ≤ vec_capacity out.old }
    ensures items { out.new.items ≡ out.old.items ++ series_field s.now }
    ensures valid { IsSeries s.now }
    ensures capacity { vec_capacity out.old ≤ vec_capacity out.new }
{
    put_series(out, &s.labels, &s.samples);
}

fn put_all_series(out: &mut Vec<u8>, list: &[Series])
    requires room { vec_len out.old + length (canon list.now) ≤ vec_capacity out.old }
    ensures items { out.new.items ≡ out.old.items ++ canon list.now }
    ensures valid { AllByRecursion IsSeries list.now }
    ensures capacity { vec_capacity out.old ≤ vec_capacity out.new }
{
    for s in list {
        put_series_field(out, s);
    }
}

/// Returns the canonical spelling of a message: fields in the order of their numbers, the shortest
/// varints, and neither scalars whose bits are all zero nor empty strings. It is in one buffer of
/// exactly its length. An `Err` means that this buffer could not be allocated, or that the length
/// does not fit 64 bits.
pub fn encode(alloc: Global, message: &Message) -> Result<Vec<u8>, AllocError>
    ensures canonical { IfOk result (λ v. v.items ≡ canon message.now) }
    // A reader finds the message again.
    ensures again { IfOk result (λ v. Spells v.items message.now) }
{
    let Some(len) = encoded_len(message) else {
        return Err(AllocError);
    };
    let mut out = Vec::with_capacity(alloc, len)?;
    put_all_series(&mut out, &message.series);
    Ok(out)
}

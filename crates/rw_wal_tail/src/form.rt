//! Judges whether bytes have the form of a record. This takes no memory.

ghost use Rattle.std.specs.Prelude.{◌≡◌, ◌≤◌, ◌<◌, length, is_some, MatchOption, IfSome, None};
ghost use Rattle.std.specs.Int.{cast_signed, w64};
ghost use Rattle.rw_wal_format.specs.Records.{label_list_at, definition_at, series_entries, samples_at, sample_entries, record_entries};
ghost use Rattle.rw_wal_tail.specs.inner.Form.{Leaves};

use crate::read::{eight, label, sample, unsigned};
use rw_wal_format::RecordType;

/// Returns the bytes after `count` labels.
fn after_labels(count: u64, bytes: &[u8]) -> Option<&[u8]>
    ensures value { MatchOption result (label_list_at count bytes.now ≡ None)
        (λ rest. Leaves (label_list_at count bytes.now) rest.now) }
    ensures shorter { IfSome result (λ rest. length rest.now ≤ length bytes.now) }
{
    let mut rest = bytes;
    for _ in 0..count {
        let Some((_, more)) = label(rest) else {
            return None;
        };
        rest = more;
    }
    Some(rest)
}

/// Returns the bytes after the definition of a series.
fn after_definition(bytes: &[u8]) -> Option<&[u8]>
    ensures value { MatchOption result (definition_at bytes.now ≡ None)
        (λ rest. Leaves (definition_at bytes.now) rest.now) }
    ensures shorter { IfSome result (λ rest. length rest.now < length bytes.now) }
{
    let Some((_, rest)) = eight(bytes) else {
        return None;
    };
    let Some((count, rest)) = unsigned(rest) else {
        return None;
    };
    after_labels(count, rest)
}

/// Returns whether all of the bytes are definitions.
fn are_definitions(bytes: &[u8]) -> bool
    ensures { result ≡ is_some (series_entries bytes.now) }
{
    let mut rest = bytes;
    while !rest.is_empty() {
        let Some(more) = after_definition(rest) else {
            return false;
        };
        rest = more;
    }
    true
}

/// Returns whether all of the bytes are samples, of which there is at least one.
fn are_samples(base: u64, start: u64, bytes: &[u8]) -> bool
    ensures { result ≡ is_some (samples_at base (cast_signed w64 start) bytes.now) }
{
    if bytes.is_empty() {
        return false;
    }
    let mut rest = bytes;
    while !rest.is_empty() {
        let Some((_, more)) = sample(base, start, rest) else {
            return false;
        };
        rest = more;
    }
    true
}

/// Returns whether the bytes are the samples of a sample record, after its type byte.
fn are_based_samples(bytes: &[u8]) -> bool
    ensures { result ≡ is_some (sample_entries bytes.now) }
{
    if bytes.is_empty() {
        return true;
    }
    let Some((base, rest)) = eight(bytes) else {
        return false;
    };
    let Some((start, rest)) = eight(rest) else {
        return false;
    };
    are_samples(base, start, rest)
}

/// Returns whether the bytes have the form of a record.
pub(crate) fn is_record(bytes: &[u8]) -> bool
    ensures { result ≡ is_some (record_entries bytes.now) }
{
    if bytes.is_empty() {
        return true;
    }
    match RecordType::from_byte(bytes[0]) {
        Some(RecordType::Series) => are_definitions(&bytes[1..]),
        Some(RecordType::Samples) => are_based_samples(&bytes[1..]),
        None => true,
    }
}

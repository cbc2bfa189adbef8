//! How long the canonical spelling of a message is.

ghost use Rattle.std.specs.Prelude.{◌≡◌, ◌≤◌, ◌+◌, ◌^◌, length, IfSome, IfNone};
ghost use Rattle.rw_write_request.specs.Canon.{sample, sample_field, sample_fields, series, series_field, series_head, canon};
ghost use Rattle.rw_write_request.specs.Texts.{series_of_texts};

use crate::message::{Message, Series};
use rw_codes::uvarint_len;
use rw_types::{LabelSet, Word, bytes_field_len, label_fields_len};

#[tactic(auto, unfolding(crate::specs::Canon::sample, crate::specs::Canon::fixed64_field, crate::specs::Canon::int64_field))]
pub(crate) fn sample_len(word: Word, timestamp: i64) -> usize
    ensures exact { result ≡ length (sample (word, timestamp)) }
    ensures bound { result ≤ 20 }
{
    let value = if word.0 == 0 { 0 } else { 9 };
    let bits = timestamp.cast_unsigned();
    if bits == 0 {
        return value;
    }
    value + 1 + uvarint_len(bits)
}

fn sample_field_len(word: Word, timestamp: i64) -> usize
    ensures exact { result ≡ length (sample_field (word, timestamp)) }
    ensures bound { result ≤ 22 }
{
    2 + sample_len(word, timestamp)
}

fn sample_fields_len(samples: &[(Word, i64)]) -> Option<usize>
    ensures some { IfSome result (λ n. n ≡ length (sample_fields samples.now)) }
    ensures none { IfNone result (2 ^ 64 ≤ length (sample_fields samples.now)) }
{
    let mut total = 0usize;
    for (word, timestamp) in samples {
        total = total.checked_add(sample_field_len(*word, *timestamp))?;
    }
    Some(total)
}

#[tactic(auto, unfolding(crate::specs::Canon::series))]
pub(crate) fn parts_len(labels: &[(String, String)], samples: &[(Word, i64)]) -> Option<usize>
    ensures some { IfSome result (λ n. n ≡ length (series (series_of_texts labels.now samples.now))) }
    ensures none { IfNone result (2 ^ 64 ≤ length (series (series_of_texts labels.now samples.now))) }
{
    let labels = label_fields_len(labels)?;
    let samples = sample_fields_len(samples)?;
    labels.checked_add(samples)
}

/// Returns the length of what comes before the sample fields of a series with these labels, if
/// these fields take `len` bytes, or `None` if both together do not fit 64 bits.
#[tactic(auto, unfolding(crate::specs::Canon::series_head))]
pub fn series_head_len(labels: &LabelSet, len: usize) -> Option<usize>
    ensures some { IfSome result (λ n. n ≡ length (series_head labels.now len)) }
    ensures none { IfNone result (2 ^ 64 ≤ length (series_head labels.now len) + len) }
{
    let fields = labels.fields().len();
    let inner = fields.checked_add(len)?;
    fields.checked_add(1 + uvarint_len(inner as u64))
}

/// Returns the length of the field of a series with these labels and samples, in the canonical
/// spelling, or `None` if it does not fit 64 bits.
#[tactic(auto, unfolding(crate::specs::Canon::series_field))]
pub fn series_field_len(labels: &[(String, String)], samples: &[(Word, i64)]) -> Option<usize>
    ensures some { IfSome result
        (λ n. n ≡ length (series_field (series_of_texts labels.now samples.now))) }
    ensures none { IfNone result
        (2 ^ 64 ≤ length (series_field (series_of_texts labels.now samples.now))) }
{
    let inner = parts_len(labels, samples)?;
    bytes_field_len(inner)
}

pub(crate) fn series_len(s: &Series) -> Option<usize>
    ensures some { IfSome result (λ n. n ≡ length (series s.now)) }
    ensures none { IfNone result (2 ^ 64 ≤ length (series s.now)) }
{
    parts_len(&s.labels, &s.samples)
}

#[tactic(auto, unfolding(crate::specs::Canon::series_field))]
fn all_series_len(list: &[Series]) -> Option<usize>
    ensures some { IfSome result (λ n. n ≡ length (canon list.now)) }
    ensures none { IfNone result (2 ^ 64 ≤ length (canon list.now)) }
{
    let mut total = 0usize;
    for s in list {
        let inner = series_len(s)?;
        let field = bytes_field_len(inner)?;
        total = total.checked_add(field)?;
    }
    Some(total)
}

/// Returns how many bytes `encode` writes for the message, or `None` if the number does not fit 64
/// bits.
pub fn encoded_len(message: &Message) -> Option<usize>
    ensures some { IfSome result (λ n. n ≡ length (canon message.now)) }
    ensures none { IfNone result (2 ^ 64 ≤ length (canon message.now)) }
{
    all_series_len(&message.series)
}

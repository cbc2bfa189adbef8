//! The body of a batch.

ghost use Rattle.std.specs.Prelude.{◌≡◌, ◌+◌, ◌<◌, ◌≤◌, ◌^◌, ◌++◌, length, IfSome, IfNone, OnOk, OnErr};
ghost use Rattle.std.specs.Vec.{vec_len, vec_capacity};
ghost use Rattle.std.specs.List.{AllByRecursion, flat_map};
ghost use Rattle.rw_write_request.specs.Canon.{series_field, canon};
ghost use Rattle.rw_write_request.specs.Spells.{Spells};
ghost use Rattle.rw_write_request.specs.Valid.{IsLabel};
ghost use Rattle.rw_batch.specs.Grouping.{message};
ghost use Rattle.rw_batch.specs.inner.Grouping.{series_at};
ghost use Rattle.rw_batch.specs.inner.Kept.{samples_alone, field_at, parts_len, HasLabels};

use crate::fields::Fields;
use crate::rows::Rows;
use rw_types::put_bytes;
use rw_write_request::{put_series_head, series_head_len};
use std::alloc::AllocError;

/// Returns how many bytes the field of series number `place` of the message takes, or `None` if the
/// number does not fit 64 bits.
fn series_len(rows: &Rows, place: usize) -> Option<usize>
    requires { place < length (message rows.now.samples) }
    ensures some { IfSome result (λ n. n ≡ parts_len (series_at rows.now.samples place)) }
    ensures none { IfNone result (2 ^ 64 ≤ parts_len (series_at rows.now.samples place)) }
{
    let bytes = rows.sample_bytes(place);
    let head = series_head_len(rows.labels(place), bytes)?;
    head.checked_add(bytes)
}

/// Returns how many bytes the body takes, or `None` if the number does not fit 64 bits.
pub(crate) fn body_len(rows: &Rows) -> Option<usize>
    ensures some { IfSome result (λ n. n ≡ length (canon (message rows.now.samples))) }
    ensures none { IfNone result (2 ^ 64 ≤ length (canon (message rows.now.samples))) }
{
    let mut total = 0usize;
    for place in 0..rows.len() {
        total = total.checked_add(series_len(rows, place)?)?;
    }
    Some(total)
}

/// Appends the fields of the samples of these numbers.
fn put_numbered(out: &mut Vec<u8>, fields: &Fields, numbers: &[usize])
    requires within { AllByRecursion (λ j. j < length fields.now.samples) numbers.now }
    requires room { vec_len out.old + length (flat_map (field_at fields.now.samples) numbers.now)
        ≤ vec_capacity out.old }
    ensures items { out.new.items
        ≡ out.old.items ++ flat_map (field_at fields.now.samples) numbers.now }
    ensures capacity { vec_capacity out.old ≤ vec_capacity out.new }
{
    for number in numbers {
        put_bytes(out, fields.get(*number));
    }
}

/// Appends the field of series number `place` of the message. `row` is room for the numbers of its
/// samples.
fn put_series(out: &mut Vec<u8>, rows: &Rows, fields: &Fields, place: usize, row: &mut Vec<usize>)
    requires same { fields.now.samples ≡ samples_alone rows.now.samples }
    requires place { place < length (message rows.now.samples) }
    requires fits { length (series_field (series_at rows.now.samples place)) < 2 ^ 64 }
    requires room { vec_len out.old + length (series_field (series_at rows.now.samples place))
        ≤ vec_capacity out.old }
    requires row { length rows.now.samples ≤ vec_capacity row.old }
    ensures items { out.new.items
        ≡ out.old.items ++ series_field (series_at rows.now.samples place) }
    ensures labels { AllByRecursion IsLabel (series_at rows.now.samples place).labels }
    ensures capacity { vec_capacity out.old ≤ vec_capacity out.new }
    ensures row { vec_capacity row.new ≡ vec_capacity row.old }
{
    put_series_head(out, rows.labels(place), rows.sample_bytes(place));
    rows.numbers(place, row);
    put_numbered(out, fields, row);
}

/// Appends the fields of all series.
fn put_all_series(out: &mut Vec<u8>, rows: &Rows, fields: &Fields, row: &mut Vec<usize>)
    requires same { fields.now.samples ≡ samples_alone rows.now.samples }
    requires fits { length (canon (message rows.now.samples)) < 2 ^ 64 }
    requires room { vec_len out.old + length (canon (message rows.now.samples))
        ≤ vec_capacity out.old }
    requires row { length rows.now.samples ≤ vec_capacity row.old }
    ensures items { out.new.items ≡ out.old.items ++ canon (message rows.now.samples) }
    ensures labels { AllByRecursion HasLabels (message rows.now.samples) }
{
    for place in 0..rows.len() {
        put_series(out, rows, fields, place, row);
    }
}

/// Appends the canonical spelling of the message that groups the samples by label set.
pub(crate) fn put_body(out: &mut Vec<u8>, rows: &Rows, fields: &Fields) -> Result<(), AllocError>
    requires same { fields.now.samples ≡ samples_alone rows.now.samples }
    requires room { vec_len out.old + length (canon (message rows.now.samples))
        ≤ vec_capacity out.old }
    ensures ok { OnOk result (out.new.items ≡ out.old.items ++ canon (message rows.now.samples)) }
    ensures err { OnErr result (out.new ≡ out.old) }
    ensures spells { OnOk result
        (Spells (canon (message rows.now.samples)) (message rows.now.samples)) }
{
    let mut row = Vec::with_capacity(*out.allocator(), fields.len())?;
    put_all_series(out, rows, fields, &mut row);
    Ok(())
}

//! The labels of a series in the wire format of Protocol Buffers, canonically spelled (Remote-Write
//! 1.0, `TimeSeries`).

ghost use Rattle.std.specs.Prelude.{◌≡◌, ◌≤◌, ◌<◌, ◌+◌, ◌^◌, ◌++◌, length, map, IfSome, IfNone};
ghost use Rattle.std.specs.Vec.{vec_len, vec_capacity};
ghost use Rattle.rw_codes.specs.Varint.{uvarint};
ghost use Rattle.rw_types.specs.Labels.{text_label};
ghost use Rattle.rw_types.specs.LabelFields.{tag, string_field, label, label_field, label_fields};

use rw_codes::{push_uvarint, uvarint_len};

/// Returns the length of a length-delimited field of `len` bytes, with a tag of one byte, or `None`
/// if it does not fit 64 bits.
pub fn bytes_field_len(len: usize) -> Option<usize>
    ensures some { IfSome result (λ n. n ≡ 1 + length (uvarint len) + len) }
    ensures none { IfNone result (2 ^ 64 ≤ 1 + length (uvarint len) + len) }
{
    len.checked_add(1 + uvarint_len(len as u64))
}

fn string_field_len(text: &str) -> Option<usize>
    ensures some { IfSome result (λ n. n ≡ length (string_field 1 text.now)) }
    ensures none { IfNone result (2 ^ 64 ≤ length (string_field 1 text.now)) }
{
    if text.is_empty() {
        Some(0)
    } else {
        bytes_field_len(text.len())
    }
}

#[tactic(auto, unfolding(crate::specs::LabelFields::label))]
fn label_len(name: &str, value: &str) -> Option<usize>
    ensures some { IfSome result (λ n. n ≡ length (label (name.now, value.now))) }
    ensures none { IfNone result (2 ^ 64 ≤ length (label (name.now, value.now))) }
{
    let name = string_field_len(name)?;
    let value = string_field_len(value)?;
    name.checked_add(value)
}

/// Returns the length of the field of a label in its series, or `None` if it does not fit 64 bits.
#[tactic(auto, unfolding(crate::specs::LabelFields::label_field))]
pub fn label_field_len(name: &str, value: &str) -> Option<usize>
    ensures some { IfSome result (λ n. n ≡ length (label_field (name.now, value.now))) }
    ensures none { IfNone result (2 ^ 64 ≤ length (label_field (name.now, value.now))) }
{
    let inner = label_len(name, value)?;
    bytes_field_len(inner)
}

/// Returns the length of the fields of the labels in their series, or `None` if it does not fit 64
/// bits.
pub fn label_fields_len(labels: &[(String, String)]) -> Option<usize>
    ensures some { IfSome result (λ n. n ≡ length (label_fields (map text_label labels.now))) }
    ensures none { IfNone result (2 ^ 64 ≤ length (label_fields (map text_label labels.now))) }
{
    let mut total = 0usize;
    for (name, value) in labels {
        let field = label_field_len(name, value)?;
        total = total.checked_add(field)?;
    }
    Some(total)
}

/// Appends bytes to a vector that has room for them. This takes no memory.
pub fn put_bytes(out: &mut Vec<u8>, bytes: &[u8])
    requires room { vec_len out.old + length bytes.now ≤ vec_capacity out.old }
    ensures items { out.new.items ≡ out.old.items ++ bytes.now }
    ensures capacity { vec_capacity out.old ≤ vec_capacity out.new }
{
    out.extend_from_slice(bytes).unwrap();
}

/// Appends the front of a field that holds `len` bytes, its tag and its length, to a vector that
/// has room for them. This takes no memory.
pub fn put_field_front(out: &mut Vec<u8>, number: u8, len: usize)
    requires number { number < 16 }
    requires room { vec_len out.old + 1 + length (uvarint len) ≤ vec_capacity out.old }
    ensures items { out.new.items ≡ out.old.items ++ tag number 2 ++ uvarint len }
    ensures capacity { vec_capacity out.old ≤ vec_capacity out.new }
{
    out.push_reserved(number * 8 + 2);
    push_uvarint(out, len as u64);
}

fn put_string_field(out: &mut Vec<u8>, number: u8, text: &str)
    requires number { number < 16 }
    requires room { vec_len out.old + length (string_field number text.now) ≤ vec_capacity out.old }
    ensures items { out.new.items ≡ out.old.items ++ string_field number text.now }
    ensures capacity { vec_capacity out.old ≤ vec_capacity out.new }
{
    if !text.is_empty() {
        put_field_front(out, number, text.len());
        put_bytes(out, text.as_bytes());
    }
}

/// Appends the field of a label in its series to a vector that has room for it. This takes no
/// memory.
#[tactic(auto, unfolding(crate::specs::LabelFields::label_field, crate::specs::LabelFields::label))]
pub fn put_label_field(out: &mut Vec<u8>, name: &str, value: &str)
    requires room { vec_len out.old + length (label_field (name.now, value.now))
        ≤ vec_capacity out.old }
    ensures items { out.new.items ≡ out.old.items ++ label_field (name.now, value.now) }
    ensures capacity { vec_capacity out.old ≤ vec_capacity out.new }
{
    let len = label_len(name, value).unwrap();
    put_field_front(out, 1, len);
    put_string_field(out, 1, name);
    put_string_field(out, 2, value);
}

/// Appends the fields of the labels in their series to a vector that has room for them. This takes
/// no memory.
pub fn put_label_fields(out: &mut Vec<u8>, labels: &[(String, String)])
    requires room { vec_len out.old + length (label_fields (map text_label labels.now))
        ≤ vec_capacity out.old }
    ensures items { out.new.items ≡ out.old.items ++ label_fields (map text_label labels.now) }
    ensures capacity { vec_capacity out.old ≤ vec_capacity out.new }
{
    for (name, value) in labels {
        put_label_field(out, name, value);
    }
}

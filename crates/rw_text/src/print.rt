//! Labels, printed.

ghost use Rattle.std.specs.Prelude.{◌≡◌, ◌++◌, ◌∷◌, [], OnOk, OnErr, map, flat_map};
ghost use Rattle.std.specs.List.{list_all};
ghost use Rattle.rw_types.specs.Labels.{text_label};
ghost use Rattle.rw_text.specs.LabelText.{escaped, is_plain, quoted, name_text, label_text, labels_text};
ghost use Rattle.rw_types.specs.Beginnings.{Begins};

use crate::bytes::push_byte;
use rw_types::{LabelSet, is_metric_name};
use std::alloc::AllocError;

/// Adds a byte of a text in quotes.
fn put_byte(out: &mut Vec<u8>, byte: u8) -> Result<(), AllocError>
    ensures ok { OnOk result (out.new.items ≡ out.old.items ++ escaped byte) }
    ensures err { OnErr result (out.new.items ≡ out.old.items) }
{
    match byte {
        b'\\' => out.extend_from_slice(b"\\\\"),
        b'"' => out.extend_from_slice(b"\\\""),
        b'\n' => out.extend_from_slice(b"\\n"),
        _ => push_byte(out, byte),
    }
}

/// Returns whether a byte is written in quotes as it is.
fn is_plain(byte: u8) -> bool
    ensures { result ≡ is_plain byte }
{
    byte != b'\\' && byte != b'"' && byte != b'\n'
}

/// Returns whether a text is written in quotes as it is.
fn is_plain_text(text: &[u8]) -> bool
    ensures { result ≡ list_all is_plain text.now }
{
    text.iter().all(|b| is_plain(*b))
}

/// Adds the bytes of a text in quotes: at once if none needs a backslash, as in most texts.
fn put_bytes(out: &mut Vec<u8>, text: &[u8]) -> Result<(), AllocError>
    ensures ok { OnOk result (out.new.items ≡ out.old.items ++ flat_map escaped text.now) }
    ensures err { OnErr result (Begins out.old.items out.new.items) }
{
    if is_plain_text(text) {
        return out.extend_from_slice(text);
    }
    for byte in text {
        put_byte(out, *byte)?;
    }
    Ok(())
}

/// Adds a text in quotes.
#[tactic(auto, unfolding(crate::specs::LabelText::quoted))]
fn put_quoted(out: &mut Vec<u8>, text: &[u8]) -> Result<(), AllocError>
    ensures ok { OnOk result (out.new.items ≡ out.old.items ++ quoted text.now) }
    ensures err { OnErr result (Begins out.old.items out.new.items) }
{
    push_byte(out, b'"')?;
    put_bytes(out, text)?;
    push_byte(out, b'"')
}

/// Adds the name of a label.
#[tactic(auto, unfolding(crate::specs::LabelText::name_text))]
fn put_name(out: &mut Vec<u8>, name: &[u8]) -> Result<(), AllocError>
    ensures ok { OnOk result (out.new.items ≡ out.old.items ++ name_text name.now) }
    ensures err { OnErr result (Begins out.old.items out.new.items) }
{
    if is_metric_name(name) {
        return out.extend_from_slice(name);
    }
    put_quoted(out, name)
}

/// Adds a label.
fn put_label(out: &mut Vec<u8>, label: &(String, String)) -> Result<(), AllocError>
    ensures ok { OnOk result (out.new.items ≡ out.old.items ++ label_text (text_label label.now)) }
    ensures err { OnErr result (Begins out.old.items out.new.items) }
{
    put_name(out, label.0.as_bytes())?;
    push_byte(out, b'=')?;
    put_quoted(out, label.1.as_bytes())
}

/// Adds a label after another one.
fn put_next(out: &mut Vec<u8>, label: &(String, String)) -> Result<(), AllocError>
    ensures ok { OnOk result
        (out.new.items ≡ out.old.items ++ 44 ∷ label_text (text_label label.now)) }
    ensures err { OnErr result (Begins out.old.items out.new.items) }
{
    push_byte(out, b',')?;
    put_label(out, label)
}

/// Adds the labels after the first one, and the closing brace.
fn put_more(out: &mut Vec<u8>, labels: &[(String, String)]) -> Result<(), AllocError>
    ensures ok { OnOk result (out.new.items
        ≡ out.old.items ++ flat_map (λ l. 44 ∷ label_text (text_label l)) labels.now ++ 125 ∷ []) }
    ensures err { OnErr result (Begins out.old.items out.new.items) }
{
    for label in labels {
        put_next(out, label)?;
    }
    push_byte(out, b'}')
}

/// Adds labels in braces.
fn put_labels(out: &mut Vec<u8>, labels: &[(String, String)]) -> Result<(), AllocError>
    ensures ok { OnOk result
        (out.new.items ≡ out.old.items ++ labels_text (map text_label labels.now)) }
    ensures err { OnErr result (Begins out.old.items out.new.items) }
{
    push_byte(out, b'{')?;
    match labels.split_first() {
        Some((first, more)) => {
            put_label(out, first)?;
            put_more(out, more)
        }
        None => push_byte(out, b'}'),
    }
}

/// Appends the labels of a label set: `{name="value",..}`. A name is in quotes only if it needs
/// them. An `Err` leaves `out` as it was.
pub fn push_labels(out: &mut Vec<u8>, labels: &LabelSet) -> Result<(), AllocError>
    ensures ok { OnOk result (out.new.items ≡ out.old.items ++ labels_text labels.now) }
    ensures err { OnErr result (out.new.items ≡ out.old.items) }
{
    let len = out.len();
    let result = put_labels(out, labels.as_slice());
    if result.is_err() {
        out.truncate(len);
    }
    result
}

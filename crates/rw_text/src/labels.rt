//! Labels as text: `{name="value",..}`.

ghost use Rattle.std.specs.Prelude.{◌≡◌, ℕ, List, [], ◌∷◌, ◌++◌, Err, IfOk, true, false};
ghost use Rattle.rw_types.specs.Labels.{Label, Labels, is_metric_name};
ghost use Rattle.rw_text.specs.LabelText.{quoted, name_text, label_text, labels_text};

use crate::bytes::{after, split_at_byte};
use crate::fault::TextFault;
use crate::quotes::read_quoted;
use rw_types::{RawLabels, is_metric_name};
use std::alloc::Global;

/// Reads a name in quotes that could not be bare, and the `=` after it.
fn read_quoted_name<'a>(text: &'a [u8], out: &mut Vec<u8>) -> Result<&'a [u8], TextFault>
    ensures ok { IfOk result (λ rest. (text.now ≡ quoted out.new.items ++ 61 ∷ rest.now)
        × (is_metric_name out.new.items ≡ false)) }
    ensures err { result ≡ Err TextFault.NotOfForm → (name rest : List ℕ)
        → is_metric_name name ≡ false
        → text.now ≡ quoted name ++ 61 ∷ rest → ⊥ }
{
    let rest = read_quoted(text, out)?;
    if is_metric_name(out) {
        return Err(TextFault::NotOfForm);
    }
    match after(rest, b"=") {
        Some(more) => Ok(more),
        None => Err(TextFault::NotOfForm),
    }
}

/// Reads a bare name and the `=` after it.
fn read_bare_name<'a>(text: &'a [u8], out: &mut Vec<u8>) -> Result<&'a [u8], TextFault>
    ensures ok { IfOk result (λ rest. (text.now ≡ out.new.items ++ 61 ∷ rest.now)
        × (is_metric_name out.new.items ≡ true)) }
    ensures err { result ≡ Err TextFault.NotOfForm → (name rest : List ℕ)
        → is_metric_name name ≡ true
        → text.now ≡ name ++ 61 ∷ rest → ⊥ }
{
    let Some((name, rest)) = split_at_byte(text, b'=') else {
        return Err(TextFault::NotOfForm);
    };
    if !is_metric_name(name) {
        return Err(TextFault::NotOfForm);
    }
    out.clear();
    out.extend_from_slice(name)?;
    Ok(rest)
}

/// Reads the name of a label and the `=` after it.
fn read_name<'a>(text: &'a [u8], out: &mut Vec<u8>) -> Result<&'a [u8], TextFault>
    ensures ok { IfOk result (λ rest. text.now ≡ name_text out.new.items ++ 61 ∷ rest.now) }
    ensures err { result ≡ Err TextFault.NotOfForm → (name rest : List ℕ)
        → text.now ≡ name_text name ++ 61 ∷ rest → ⊥ }
{
    match after(text, b"\"") {
        Some(_) => read_quoted_name(text, out),
        None => read_bare_name(text, out),
    }
}

/// The labels that were read, and room for the next one.
#[derive(Drop)]
struct LabelReader {
    labels: RawLabels,
    name: Vec<u8>,
    value: Vec<u8>,
}

impl LabelReader {
    fn new(alloc: Global) -> LabelReader
        ensures { result.labels ≡ [] }
    {
        LabelReader {
            labels: RawLabels::new(alloc),
            name: Vec::new(alloc),
            value: Vec::new(alloc),
        }
    }

    /// Reads the label with which a text begins, and returns what follows it.
    fn read_label<'a>(&mut self, text: &'a [u8]) -> Result<&'a [u8], TextFault>
        ensures ok { IfOk result
            (λ rest. (l : Label) × (self.new.labels ≡ self.old.labels ++ l ∷ [])
            × (text.now ≡ label_text l ++ rest.now)) }
        ensures err { result ≡ Err TextFault.NotOfForm → (l : Label) (rest : List ℕ)
            → text.now ≡ label_text l ++ rest → ⊥ }
    {
        let behind_name = read_name(text, &mut self.name)?;
        let rest = read_quoted(behind_name, &mut self.value)?;
        self.labels.push(&self.name, &self.value)?;
        Ok(rest)
    }

    fn into_labels(self) -> RawLabels
        ensures { result ≡ self.labels }
    {
        let LabelReader {
            labels,
            name: _,
            value: _,
        } = self;
        labels
    }
}

/// Reads labels in braces: `{name="value",..}`. In quotes `\\`, `\"` and `\n` stand for backslash,
/// quote and LF. A name that can be written without quotes must be.
pub fn read_labels(alloc: Global, text: &[u8]) -> Result<RawLabels, TextFault>
    ensures ok { IfOk result (λ ls. text.now ≡ labels_text ls) }
    ensures err { result ≡ Err TextFault.NotOfForm → (ls : Labels) → text.now ≡ labels_text ls → ⊥ }
{
    let mut reader = LabelReader::new(alloc);
    let Some(inside) = after(text, b"{") else {
        return Err(TextFault::NotOfForm);
    };
    if inside == b"}".as_slice() {
        return Ok(reader.into_labels());
    }
    let mut rest = reader.read_label(inside)?;
    while let Some(next) = after(rest, b",") {
        rest = reader.read_label(next)?;
    }
    if rest != b"}".as_slice() {
        return Err(TextFault::NotOfForm);
    }
    Ok(reader.into_labels())
}

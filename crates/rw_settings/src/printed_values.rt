//! Lines of a table: keys and their values.

ghost use Rattle.std.specs.Prelude.{◌≡◌, [], ◌∷◌, ◌++◌, ◌≤◌, length, map, codes, string_bytes, IfOk, OnOk};
ghost use Rattle.std.specs.List.{concat, join_by};
ghost use Rattle.toml_writer.specs.Text.{string_text};
ghost use Rattle.rw_settings.specs.inner.Keys.{row_of};
ghost use Rattle.rw_settings.specs.Values.{names_text, switch_values};
ghost use Rattle.rw_settings.specs.SettingsText.{pair_line, setting_value_text, lines_of, list_text};
ghost use Rattle.rw_settings.specs.inner.SettingsText.{setting_of};

use crate::keys::Key;
use itoa::Buffer;
use rw_types::Names;
use std::alloc::{AllocError, Global};
use std::fmt::Formatter;
use toml_writer::write_string;

/// The word of the names that are taken.
pub(crate) fn names_text(names: Names) -> &'static str
    ensures { result.now ≡ names_text names }
{
    match names {
        Names::Legacy => "legacy",
        Names::Utf8 => "utf8",
    }
}

/// The text as a value, in the first form of TOML that needs no escape.
fn quoted(alloc: Global, text: &str) -> Result<String, AllocError>
    ensures { IfOk result (λ t. string_bytes t ≡ string_text text.now) }
{
    let mut f = Formatter::new(String::new(alloc));
    match write_string(&mut f, text) {
        Ok(()) => Ok(f.into_inner()),
        Err(_) => Err(AllocError),
    }
}

/// Adds a key with this value.
#[tactic(auto, unfolding(crate::specs::SettingsText::pair_line))]
fn push_pair(out: &mut String, key: &str, value: &str) -> Result<(), AllocError>
    ensures { OnOk result
        (string_bytes out.new ≡ string_bytes out.old ++ pair_line key.now value.now) }
{
    out.push_str(key)?;
    out.push_str(" = ")?;
    out.push_str(value)?;
    out.push_str("\n")?;
    Ok(())
}

/// Adds the text as a value.
fn push_quoted(alloc: Global, out: &mut String, text: &str) -> Result<(), AllocError>
    ensures { OnOk result (string_bytes out.new ≡ string_bytes out.old ++ string_text text.now) }
{
    let value = quoted(alloc, text)?;
    out.push_str(value.as_str())
}

/// Returns the texts as values, with commas between them.
fn joined(alloc: Global, texts: &[String]) -> Result<String, AllocError>
    ensures { IfOk result (λ t. string_bytes t
        ≡ join_by string_text (codes ", ") (map string_bytes texts.now)) }
{
    let mut joined = String::new(alloc);
    for (i, text) in texts.iter().enumerate() {
        if i > 0 {
            joined.push_str(", ")?;
        }
        push_quoted(alloc, &mut joined, text.as_str())?;
    }
    Ok(joined)
}

/// Returns the value that is a list of texts.
fn list(alloc: Global, texts: &[String]) -> Result<String, AllocError>
    ensures { IfOk result (λ t. string_bytes t ≡ list_text (map string_bytes texts.now)) }
{
    let mut value = String::from_str(alloc, "[")?;
    value.push_str(joined(alloc, texts)?.as_str())?;
    value.push_str("]")?;
    Ok(value)
}

/// A value as it is printed.
#[derive(Clone, Copy)]
pub(crate) enum Shown<'a> {
    /// A whole number.
    Number(u64),
    /// A text.
    Text(&'a str),
    /// A list of texts.
    Texts(&'a [String]),
}

/// Adds a key with its value.
fn push_shown(
    alloc: Global,
    out: &mut String,
    key: &Key,
    value: &Shown<'_>,
) -> Result<(), AllocError>
    ensures { OnOk result (string_bytes out.new
        ≡ string_bytes out.old
        ++ pair_line key.now.0.now (setting_value_text (setting_of value.now))) }
{
    match value {
        Shown::Number(number) => {
            let mut buffer = Buffer::new();
            push_pair(out, key.0, buffer.format(*number))
        }
        Shown::Text(text) => push_pair(out, key.0, quoted(alloc, text)?.as_str()),
        Shown::Texts(texts) => push_pair(out, key.0, list(alloc, texts)?.as_str()),
    }
}

/// Adds a line for a switch that is on, with its key.
pub(crate) fn push_switch(out: &mut String, key: &Key, on: bool) -> Result<(), AllocError>
    ensures { OnOk result (string_bytes out.new ≡ string_bytes out.old
        ++ concat (lines_of (row_of key.now ∷ []) (switch_values on))) }
{
    if !on {
        return Ok(());
    }
    push_pair(out, key.0, "true")
}

/// Adds a line for each value, with its key.
pub(crate) fn push_lines(
    alloc: Global,
    out: &mut String,
    keys: &[Key],
    values: &[Shown<'_>],
) -> Result<(), AllocError>
    requires { length values.now ≤ length (map row_of keys.now) }
    ensures { OnOk result (string_bytes out.new ≡ string_bytes out.old
        ++ concat (lines_of (map row_of keys.now) (map setting_of values.now))) }
{
    for (i, value) in values.iter().enumerate() {
        let key = &keys[i];
        push_shown(alloc, out, key, value)?;
    }
    Ok(())
}

//! The text that the pattern of a rule is matched against.

ghost use Rattle.std.specs.Prelude.{◌≡◌, map, string_bytes, IfOk};
ghost use Rattle.std.specs.List.{join_by};
ghost use Rattle.rw_types.specs.Labels.{text_label};
ghost use Rattle.rw_relabel.specs.Rules.{value_of};

use std::alloc::{AllocError, Global};

/// Returns the value of the label of this name, or the empty text.
fn value_in<'a>(labels: &'a [(String, String)], name: &str) -> &'a str
    ensures { result.now ≡ value_of (map text_label labels.now) name.now }
{
    for (label, value) in labels {
        if label.as_str() == name {
            return value.as_str();
        }
    }
    ""
}

/// Returns the values of the labels of these names, with the separator between them.
pub(crate) fn join_values(
    alloc: Global,
    labels: &[(String, String)],
    names: &[String],
    separator: &str,
) -> Result<String, AllocError>
    ensures { IfOk result (λ t. string_bytes t
        ≡ join_by (value_of (map text_label labels.now)) separator.now
        (map string_bytes names.now)) }
{
    let mut text = String::new(alloc);
    for (i, name) in names.iter().enumerate() {
        if i > 0 {
            text.push_str(separator)?;
        }
        text.push_str(value_in(labels, name.as_str()))?;
    }
    Ok(text)
}

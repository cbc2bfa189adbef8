//! The text of a note on shards or backoff that are not between their bounds.

use crate::keys::{Key, MAX_BACKOFF_MS, MAX_SHARDS, MIN_BACKOFF_MS, MIN_SHARDS, SHARDS};
use crate::table_faults::fault_at;
use crate::values::{number_of, value_at};
use std::alloc::{AllocError, Global};
use toml::Table;

/// Returns whether a number is the default of its key: the key is missing, or its value is refused.
fn is_default(send: &Table, key: &Key) -> bool {
    match value_at(send, key.0) {
        None => true,
        Some(_) => fault_at(send, key).is_some(),
    }
}

/// Adds a key, and its number in parentheses.
fn push_number(
    alloc: Global,
    text: &mut String,
    send: &Table,
    key: &Key,
) -> Result<(), AllocError> {
    let name = key.0;
    let number = number_of(send, key);
    let shown = if is_default(send, key) {
        format!(in alloc; "{name} ({number}, the default)")?
    } else {
        format!(in alloc; "{name} ({number})")?
    };
    text.push_str(shown.as_str())
}

/// Adds that one number is greater than another, if it is.
fn push_order(
    alloc: Global,
    text: &mut String,
    send: &Table,
    low: &Key,
    high: &Key,
) -> Result<(), AllocError> {
    if number_of(send, low) <= number_of(send, high) {
        return Ok(());
    }
    if !text.is_empty() {
        text.push_str("; ")?;
    }
    push_number(alloc, text, send, low)?;
    text.push_str(" must be at most ")?;
    push_number(alloc, text, send, high)
}

/// Returns which bounds of shards and backoff are broken, with the numbers.
pub(crate) fn order_text(alloc: Global, send: &Table) -> Result<String, AllocError> {
    let mut text = String::new(alloc);
    push_order(alloc, &mut text, send, &MIN_SHARDS, &SHARDS)?;
    push_order(alloc, &mut text, send, &SHARDS, &MAX_SHARDS)?;
    push_order(alloc, &mut text, send, &MIN_BACKOFF_MS, &MAX_BACKOFF_MS)?;
    Ok(text)
}

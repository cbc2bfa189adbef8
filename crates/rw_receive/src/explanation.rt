//! Why a request was refused, in words. It is best effort: no clause says anything about it.

use crate::first_refused::{RefusedSeries, first_refused};
use rw_head::Limits;
use rw_metrics::RefusalReason;
use rw_types::is_metric_name;
use std::alloc::{AllocError, Global};

/// What is said of a request for whose body the head was not asked.
pub(crate) const NOT_ASKED: &str = "it is not valid HTTP/1.1, or its Snappy block is not valid\n";

/// How many bytes of labels are shown at most, and then the rest of one label.
const MOST_BYTES: usize = 600;

/// How many characters of a name or a value are shown at most.
const MOST_CHARS: usize = 200;

/// What was refused of a body.
#[derive(Clone, Copy)]
pub(crate) struct Refusal {
    /// Why, if it is known.
    pub(crate) reason: Option<RefusalReason>,
    /// How many samples were taken.
    pub(crate) taken: u64,
    /// How many were refused.
    pub(crate) refused: u64,
}

/// Returns why the body of a request was refused, in words.
pub fn refusal_words(reason: RefusalReason) -> &'static str {
    match reason {
        RefusalReason::Order =>
            "a sample is neither later than the last one of its series nor a repeat",
        RefusalReason::Labels => "the labels of a series are not valid",
        RefusalReason::Limits => "a series is over receive.max_labels or receive.max_label_bytes",
        RefusalReason::Body => "the body is not a message of Remote-Write 1.0",
        RefusalReason::Full => "it goes beyond a limit of the receiver",
        RefusalReason::Unavailable => "memory ran out, or the folder cannot be written",
        RefusalReason::Busy => "the receiver is busy",
    }
}

/// Adds a name or a value in quotes, on one line.
fn push_quoted(out: &mut String, text: &str) -> Result<(), AllocError> {
    out.push('"')?;
    for (i, c) in text.chars().enumerate() {
        if i >= MOST_CHARS {
            out.push_str("..")?;
            break;
        }
        match c {
            '\\' => out.push_str("\\\\")?,
            '"' => out.push_str("\\\"")?,
            '\n' => out.push_str("\\n")?,
            _ if c.is_control() => out.push('?')?,
            _ => out.push(c)?,
        }
    }
    out.push('"')
}

/// Adds a name, in quotes if it needs them.
fn push_name(out: &mut String, name: &str) -> Result<(), AllocError> {
    if name.len() <= MOST_CHARS && is_metric_name(name.as_bytes()) {
        return out.push_str(name);
    }
    push_quoted(out, name)
}

/// Adds labels in braces.
fn push_labels(out: &mut String, labels: &[(String, String)]) -> Result<(), AllocError> {
    out.push('{')?;
    let front = out.len();
    for (i, label) in labels.iter().enumerate() {
        if i > 0 {
            out.push(',')?;
        }
        if out.len().saturating_sub(front) > MOST_BYTES {
            out.push_str("..")?;
            break;
        }
        push_name(out, &label.0)?;
        out.push('=')?;
        push_quoted(out, &label.1)?;
    }
    out.push('}')
}

/// Adds a series, and its timestamp if it has one.
fn push_series(alloc: Global, out: &mut String, series: &RefusedSeries) -> Result<(), AllocError> {
    push_labels(out, &series.labels)?;
    if let Some(timestamp) = series.timestamp {
        out.push_str(format!(in alloc; " at {timestamp}")?.as_str())?;
    }
    Ok(())
}

/// Returns why a head with these limits has refused a body, of which what `taken` spells was taken,
/// in one line. An error means that memory ran out.
fn text_of(
    alloc: Global,
    limits: &Limits,
    refusal: Refusal,
    body: &[u8],
    taken: &Option<Vec<u8>>,
) -> Result<String, AllocError> {
    let words = match refusal.reason {
        Some(reason) => refusal_words(reason),
        None => "for a reason that is not known",
    };
    let mut out = String::from_str(alloc, words)?;
    if refusal.reason != Some(RefusalReason::Body) {
        let (held, refused) = (refusal.taken, refusal.refused);
        let counts = format!(in alloc; "; samples taken {held}, refused {refused}")?;
        out.push_str(counts.as_str())?;
        if let Ok(Some(series)) = first_refused(alloc, limits, refusal.reason, body, taken) {
            let is_known = taken.is_some() || refusal.reason != Some(RefusalReason::Order);
            out.push_str(if is_known {
                "; the first one: "
            } else {
                "; the request begins with "
            })?;
            push_series(alloc, &mut out, &series)?;
        }
    }
    out.push('\n')?;
    Ok(out)
}

/// Returns the text of the reply to a body that a head with these limits has refused, of which what
/// `taken` spells was taken. `None` if memory runs out.
pub(crate) fn explanation(
    alloc: Global,
    limits: &Limits,
    refusal: Refusal,
    body: &[u8],
    taken: &Option<Vec<u8>>,
) -> Option<String> {
    text_of(alloc, limits, refusal, body, taken).ok()
}

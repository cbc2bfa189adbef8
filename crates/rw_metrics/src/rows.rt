//! Rows of a page or of a line: a label and its number.

ghost use Rattle.std.specs.Prelude.{◌≡◌, ◌++◌, ◌≤◌, OnOk, map, length};
ghost use Rattle.rw_metrics.specs.Rows.{cause_text, has_row, row_text, rows_text, seconds_text, shown_text, status_text, statuses_text, three_digits};
ghost use Rattle.rw_metrics.specs.inner.Rows.{shape_of, text_of};

use crate::cause::Cause;
use rw_text::push_number;
use std::alloc::AllocError;

/// The number of a row.
#[derive(Clone, Copy)]
pub(crate) enum Shown {
    /// A count.
    Count(u64),
    /// A count that has no row if it is 0, unless the form has rows of zeros.
    IfAny(u64),
    /// A count that has no row if it is not known.
    Known(Option<u64>),
    /// Microseconds, which are shown as seconds.
    Micros(u64),
    /// Why the last attempt that failed has failed, which has no row if none has.
    Last(Option<Cause>),
}

/// The texts of a row around its label and its number.
#[derive(Clone, Copy)]
pub(crate) struct Form<'a> {
    /// The name of the metric that it is of, or nothing.
    pub(crate) metric: &'a str,
    /// What is between that and the label.
    pub(crate) start: &'a str,
    pub(crate) between: &'a str,
    pub(crate) end: &'a str,
    /// Whether there is a row of an [`Shown::IfAny`] that is 0.
    pub(crate) zeros: bool,
}

/// A table or a line: its heading or its first word, the labels of its rows, and what the label of
/// a status begins with.
pub(crate) type Table = (&'static str, &'static [&'static str], &'static str);

/// Adds a text.
pub(crate) fn push_text(out: &mut Vec<u8>, text: &str) -> Result<(), AllocError>
    ensures { OnOk result (out.new.items ≡ out.old.items ++ text.now) }
{
    out.extend_from_slice(text.as_bytes())
}

/// Adds the last three digits of a number.
#[tactic(auto, unfolding(crate::specs::Rows::three_digits))]
fn push_three_digits(out: &mut Vec<u8>, n: u64) -> Result<(), AllocError>
    ensures { OnOk result (out.new.items ≡ out.old.items ++ three_digits n) }
{
    push_number(out, n / 100 % 10)?;
    push_number(out, n / 10 % 10)?;
    push_number(out, n % 10)
}

/// Adds microseconds as seconds.
#[tactic(auto, unfolding(crate::specs::Rows::seconds_text))]
fn push_seconds(out: &mut Vec<u8>, micros: u64) -> Result<(), AllocError>
    ensures { OnOk result (out.new.items ≡ out.old.items ++ seconds_text micros) }
{
    push_number(out, micros / 1_000_000)?;
    push_text(out, ".")?;
    push_three_digits(out, micros / 1_000)?;
    push_three_digits(out, micros)
}

/// Adds the name of a cause.
pub(crate) fn push_cause(out: &mut Vec<u8>, cause: Cause) -> Result<(), AllocError>
    ensures { OnOk result (out.new.items ≡ out.old.items ++ cause_text cause) }
{
    match cause {
        Cause::Connect => push_text(out, "connect"),
        Cause::Timeout => push_text(out, "timeout"),
        Cause::Broken => push_text(out, "broken"),
        Cause::Ended => push_text(out, "ended"),
        Cause::BadReply => push_text(out, "bad_reply"),
        Cause::Memory => push_text(out, "memory"),
        Cause::Status(status) => {
            push_text(out, "status_")?;
            push_number(out, status as u64)
        }
    }
}

/// Returns whether there is a row of this number, in a form with rows of zeros or without.
fn has_row(shown: Shown, zeros: bool) -> bool
    ensures { result ≡ has_row zeros shown }
{
    match shown {
        Shown::Count(_) | Shown::Micros(_) => true,
        Shown::IfAny(n) => zeros || n > 0,
        Shown::Known(count) => count.is_some(),
        Shown::Last(cause) => cause.is_some(),
    }
}

/// Adds a number as it is shown.
fn push_shown(out: &mut Vec<u8>, shown: Shown) -> Result<(), AllocError>
    ensures { OnOk result (out.new.items ≡ out.old.items ++ shown_text shown) }
{
    match shown {
        Shown::Count(n) | Shown::IfAny(n) | Shown::Known(Some(n)) => push_number(out, n),
        Shown::Micros(n) => push_seconds(out, n),
        Shown::Last(Some(cause)) => push_cause(out, cause),
        Shown::Known(None) | Shown::Last(None) => Ok(()),
    }
}

/// Adds the start of a row, up to the end of its label.
fn push_label(out: &mut Vec<u8>, form: &Form<'_>, label: &str) -> Result<(), AllocError>
    ensures { OnOk result
        (out.new.items ≡ out.old.items ++ (shape_of form.now).start ++ label.now) }
{
    push_text(out, form.metric)?;
    push_text(out, form.start)?;
    push_text(out, label)
}

/// Adds a row, if there is one of this number.
#[tactic(auto, unfolding(crate::specs::Rows::row_text))]
pub(crate) fn push_row(
    out: &mut Vec<u8>,
    form: &Form<'_>,
    label: &str,
    shown: Shown,
) -> Result<(), AllocError>
    ensures { OnOk result
        (out.new.items ≡ out.old.items ++ row_text (shape_of form.now) label.now shown) }
{
    if !has_row(shown, form.zeros) {
        return Ok(());
    }
    push_label(out, form, label)?;
    push_text(out, form.between)?;
    push_shown(out, shown)?;
    push_text(out, form.end)
}

/// Adds a row for each of these labels, with its number.
pub(crate) fn push_rows(
    out: &mut Vec<u8>,
    form: &Form<'_>,
    labels: &[&str],
    numbers: &[Shown],
) -> Result<(), AllocError>
    requires { length labels.now ≤ length numbers.now }
    ensures { OnOk result (out.new.items
        ≡ out.old.items ++ rows_text (shape_of form.now) (map text_of labels.now) numbers.now) }
{
    for (i, label) in labels.iter().enumerate() {
        push_row(out, form, label, numbers[i])?;
    }
    Ok(())
}

/// Adds the row of a status, which follows the label, with how often it came.
#[tactic(auto, unfolding(crate::specs::Rows::status_text))]
fn push_status(
    out: &mut Vec<u8>,
    form: &Form<'_>,
    label: &str,
    count: &(u16, u64),
) -> Result<(), AllocError>
    ensures { OnOk result
        (out.new.items ≡ out.old.items ++ status_text (shape_of form.now) label.now count.now) }
{
    push_label(out, form, label)?;
    push_number(out, count.0 as u64)?;
    push_text(out, form.between)?;
    push_number(out, count.1)?;
    push_text(out, form.end)
}

/// Adds a row for each of these statuses.
pub(crate) fn push_statuses(
    out: &mut Vec<u8>,
    form: &Form<'_>,
    label: &str,
    counts: &[(u16, u64)],
) -> Result<(), AllocError>
    ensures { OnOk result
        (out.new.items ≡ out.old.items ++ statuses_text (shape_of form.now) label.now counts.now) }
{
    for count in counts {
        push_status(out, form, label, count)?;
    }
    Ok(())
}

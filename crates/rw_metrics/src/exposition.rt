//! Metrics in the text format 0.0.4 of Prometheus.

ghost use Rattle.std.specs.Prelude.{◌≡◌, ◌++◌, ◌≤◌, OnOk, map, length};
ghost use Rattle.rw_metrics.specs.Exposition.{about, family_text, metric_text, metrics_text};
ghost use Rattle.rw_metrics.specs.inner.Exposition.{family_of, metric_of};
ghost use Rattle.rw_metrics.specs.inner.Rows.{text_of};

use crate::rows::{Form, Shown, push_row, push_rows, push_statuses, push_text};
use std::alloc::AllocError;

/// A metric with one number: its name, its type and its help.
pub(crate) type Metric = (&'static str, &'static str, &'static str);

/// A table of metrics: the name of each, its type and its help.
macro_rules! metrics {
    ($($name:literal $kind:literal $help:literal)*) => {
        [$(($name, $kind, $help)),*]
    };
}

pub(crate) use metrics;

/// A counter with labels: its name, its help, the text between its name and the value of the
/// label, and what such a value begins with if it is a status.
pub(crate) type Family = (&'static str, &'static str, &'static str, &'static str);

/// The line of a metric with one number, with the name as the label.
const LINE: Form<'static> = Form {
    metric: "",
    start: "",
    between: " ",
    end: "\n",
    zeros: true,
};

/// Adds the lines of a metric that come before its numbers.
fn push_about(out: &mut Vec<u8>, metric: &Metric) -> Result<(), AllocError>
    ensures { OnOk result (out.new.items ≡ out.old.items ++ about (metric_of metric.now)) }
{
    let (name, kind, help) = *metric;
    push_text(out, "# HELP ")?;
    push_text(out, name)?;
    push_text(out, " ")?;
    push_text(out, help)?;
    push_text(out, "\n# TYPE ")?;
    push_text(out, name)?;
    push_text(out, " ")?;
    push_text(out, kind)?;
    push_text(out, "\n")
}

/// Adds a metric with one number.
#[tactic(auto, unfolding(crate::specs::Exposition::metric_text))]
fn push_metric(out: &mut Vec<u8>, metric: &Metric, number: Shown) -> Result<(), AllocError>
    ensures { OnOk result
        (out.new.items ≡ out.old.items ++ metric_text (metric_of metric.now) number) }
{
    push_about(out, metric)?;
    push_row(out, &LINE, metric.0, number)
}

/// Adds each of these metrics, with its number.
pub(crate) fn push_metrics(
    out: &mut Vec<u8>,
    metrics: &[Metric],
    numbers: &[Shown],
) -> Result<(), AllocError>
    requires { length metrics.now ≤ length numbers.now }
    ensures { OnOk result (out.new.items
        ≡ out.old.items ++ metrics_text (map metric_of metrics.now) numbers.now) }
{
    for (i, metric) in metrics.iter().enumerate() {
        push_metric(out, metric, numbers[i])?;
    }
    Ok(())
}

/// Adds a counter with labels: a number for each of these values of its label, and for each status.
#[tactic(auto, unfolding(crate::specs::Exposition::family_text))]
pub(crate) fn push_family(
    out: &mut Vec<u8>,
    family: &Family,
    labels: &[&str],
    numbers: &[Shown],
    counts: &[(u16, u64)],
) -> Result<(), AllocError>
    requires { length labels.now ≤ length numbers.now }
    ensures { OnOk result (out.new.items ≡ out.old.items ++ family_text
        (family_of family.now) (map text_of labels.now) numbers.now counts.now) }
{
    let (metric, help, start, status) = *family;
    let (between, end, zeros) = ("\"} ", "\n", true);
    let form = Form {
        metric,
        start,
        between,
        end,
        zeros,
    };
    push_about(out, &(metric, "counter", help))?;
    push_rows(out, &form, labels, numbers)?;
    push_statuses(out, &form, status, counts)
}

//! Samples grouped by label set. The calls that take memory are made again if they fail, so each
//! test can be run with each allocation failing in turn: the failed call changes nothing.

ghost use Rattle.std.specs.Prelude.{◌≡◌, ◌∷◌, [], codes, OnOk};
ghost use Rattle.rw_batch.specs.Grouping.{with_sample};
ghost use Rattle.rw_batch.specs.Groups.{StandsFor, with_number};

use crate::rows::holds;
use crate::samples::metric;
use rw_batch::Grouping;
use rw_types::{LabelFault, Word};
use rw_write_request::{Message, Series};
use std::alloc::Global;

/// Groups one more sample of a metric, whose word is 0.
fn add(
    alloc: Global,
    grouping: &mut Grouping,
    number: u64,
    name: &str,
    t: i64,
) -> Result<(), LabelFault>
    requires { StandsFor number ((codes "__name__", name.now) ∷ []) grouping.old }
    ensures series { OnOk result (grouping.new.series
        ≡ with_sample ((codes "__name__", name.now) ∷ []) (0, t) grouping.old.series) }
    ensures numbers { OnOk result (grouping.new.numbers ≡ with_number number grouping.old.numbers) }
{
    let labels = metric(alloc, name)?;
    match grouping.add(number, &labels, t, Word(0)) {
        Err(_) => Ok(grouping.add(number, &labels, t, Word(0))?),
        Ok(()) => Ok(()),
    }
}

/// Returns whether a series has this metric's name as its only label, and these samples.
fn shows(series: &Series, name: &str, samples: &[(Word, i64)]) -> bool {
    series.labels.len() == 1
        && series.labels[0].0.as_str() == "__name__"
        && series.labels[0].1.as_str() == name
        && series.samples.as_slice() == samples
}

/// Groups samples of two metrics, the first one twice.
fn add_all(alloc: Global, grouping: &mut Grouping) -> Result<(), LabelFault>
    requires { grouping.old ≡ record { numbers = []; series = [] } }
{
    add(alloc, grouping, 4, "a", 1)?;
    add(alloc, grouping, 9, "b", 2)?;
    add(alloc, grouping, 4, "a", 3)
}

/// Returns whether a message has the two series.
fn has_both(message: &Message) -> bool {
    message.series.len() == 2
        && shows(&message.series[0], "a", &[(Word(0), 1), (Word(0), 3)])
        && shows(&message.series[1], "b", &[(Word(0), 2)])
}

fn are_grouped(alloc: Global) -> bool {
    let mut grouping = Grouping::new(alloc);
    add_all(alloc, &mut grouping).is_ok()
        && grouping.len() == 2
        && !grouping.is_empty()
        && has_both(&grouping.into_message())
}

fn is_no_message(alloc: Global) -> bool {
    let grouping = Grouping::new(alloc);
    grouping.is_empty() && grouping.len() == 0 && grouping.into_message().series.is_empty()
}

#[test]
fn samples_are_grouped_by_labels(rt: HostRuntime) {
    holds(&rt, are_grouped(rt.alloc()));
    holds(&rt, is_no_message(rt.alloc()));
}

//! The references that a log defines, once it has been read.

ghost use Rattle.std.specs.Prelude.{◌≡◌, ◌≢◌, ◌<◌, ◌≤◌, ◌^◌, [], map, IfOk, OnOk};
ghost use Rattle.std.specs.List.{AllByRecursion};
ghost use Rattle.rw_types.specs.Labels.{text_label};
ghost use Rattle.rw_kept_log.specs.References.{with_pair};
ghost use Rattle.rw_kept_head.specs.inner.Noting.{CanNote, no_references, noted_from};

use crate::oddities::Oddities;
use indexmap::IndexMap;
use rw_kept_log::References;
use rw_types::{LabelSet, Names};
use rw_write_request::Series;
use std::alloc::{AllocError, Global};

/// Notes that a reference stands for these labels, unless another one does already.
fn note_series(
    references: &mut References,
    reference: u64,
    labels: Vec<(String, String)>,
    oddities: &mut Oddities,
) -> Result<(), AllocError>
    requires fresh { references.old.fresh ≡ [] }
    requires below { reference < references.old.next }
    requires unknown { AllByRecursion (λ p. p.0 ≢ reference) references.old.known }
    ensures { OnOk result (references.new
        ≡ with_pair (reference, map text_label labels.items) references.old) }
{
    // They are a label set, so only memory can be missing.
    let Ok(set) = LabelSet::of_texts(Names::Utf8, labels) else {
        return Err(AllocError);
    };
    let first = references.note(reference, set)?;
    oddities.count_definition(first);
    Ok(())
}

/// Returns the references of a log that has none from `next` on: of each label set the first one of
/// these series that has it.
pub(crate) fn note_all(
    alloc: Global,
    series: IndexMap<u64, Option<Series>>,
    next: u64,
    oddities: &mut Oddities,
) -> Result<References, AllocError>
    requires room { next ≤ 2 ^ 63 }
    requires notes { CanNote (no_references next) series.entries }
    ensures { IfOk result (λ r. r ≡ noted_from (no_references next) series.entries) }
{
    let mut references = References::new(alloc, next);
    for (reference, found) in series {
        if let Some(one) = found {
            note_series(&mut references, reference, one.labels, oddities)?;
        }
    }
    Ok(references)
}

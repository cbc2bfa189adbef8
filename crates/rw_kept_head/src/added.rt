//! What a staged message adds, under the references of its label sets.

ghost use Rattle.std.specs.Prelude.{◌≡◌, ◌++◌, [], if◌then◌else◌, IfOk, OnOk};
ghost use Rattle.rw_types.specs.Labels.{Labels};
ghost use Rattle.rw_types.specs.LabelOrder.{labels_eq};
ghost use Rattle.rw_head.specs.Added.{AddsUp, samples_added};
ghost use Rattle.rw_kept_log.specs.References.{AreReferenced, points_of, only_defined};

use rw_head::{AddedSeries, Memory, StagedHead};
use rw_kept_log::References;
use rw_types::Word;
use std::alloc::{AllocError, Global};

/// Appends the new samples of a label set under its reference.
fn put_series(
    references: &mut References,
    samples: &mut Vec<(u64, i64, Word)>,
    points: &mut Vec<(i64, Word)>,
    series: &AddedSeries<'_>,
) -> Result<(), AllocError>
    requires { AreReferenced references.old samples.old.items }
    ensures of { OnOk result (AreReferenced references.new samples.new.items) }
    ensures points { OnOk result ((l : Labels) → points_of references.new l samples.new.items
        ≡ points_of references.old l samples.old.items
        ++ (if labels_eq series.now.labels l then series.now.samples else [])) }
    ensures undone { only_defined references.new ≡ only_defined references.old }
{
    series.copy_samples(points)?;
    references.add(samples, series.labels(), points)?;
    Ok(())
}

/// Returns the samples that a staged message adds, each as (reference, timestamp in milliseconds,
/// value). A label set without a reference gets the next one.
pub(crate) fn collect<M: Memory>(
    alloc: Global,
    references: &mut References,
    staged: &StagedHead<M>,
) -> Result<Vec<(u64, i64, Word)>, AllocError>
    ensures of { IfOk result (λ v. AreReferenced references.new v.items) }
    ensures points { IfOk result (λ v. (l : Labels) → points_of references.new l v.items
        ≡ samples_added l staged.now.added) }
    ensures adds { AddsUp staged.now.before.store staged.now.after.store staged.now.added }
    ensures undone { only_defined references.new ≡ only_defined references.old }
{
    let mut samples = Vec::new(alloc);
    let mut points = Vec::new(alloc);
    for series in staged.added() {
        put_series(references, &mut samples, &mut points, &series)?;
    }
    Ok(samples)
}

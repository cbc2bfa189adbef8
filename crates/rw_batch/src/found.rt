//! Where a label set is among those that came before it.

ghost use Rattle.std.specs.Prelude.{◌≡◌, ◌+◌, ◌<◌, ◌≤◌, [], ◌∷◌, ◌++◌, true, not, Some, slice_get, IsTrue, if◌then◌else◌};
ghost use Rattle.std.specs.Arc.{arc_value};
ghost use Rattle.std.specs.List.{list_any};
ghost use Rattle.indexmap.specs.IndexSet.{spare};
ghost use Rattle.rw_types.specs.LabelOrder.{labels_eq};
ghost use Rattle.rw_batch.specs.inner.Kept.{Shared};

use indexmap::IndexSet;
use rw_types::LabelSet;
use std::sync::Arc;

/// No place: a hint that says nothing.
pub(crate) const NOWHERE: usize = usize::MAX;

/// Returns whether the label set at this place is `labels`.
fn is_at(sets: &IndexSet<Arc<LabelSet>>, place: usize, labels: &LabelSet) -> bool
    ensures { IsTrue result → (k : Shared) × (slice_get sets.now.keys place ≡ Some k)
        × (labels_eq labels.now (arc_value k) ≡ true) }
{
    match sets.get_index(place) {
        Some(known) => *labels == **known,
        None => false,
    }
}

/// Returns the place of a label set, and whether it is new: a new one comes last. The place that
/// the hint gives is tried first, so that no text is hashed if the hint is right.
pub(crate) fn place_of(
    sets: &mut IndexSet<Arc<LabelSet>>,
    hints: &mut [usize],
    number: u64,
    labels: Arc<LabelSet>,
) -> (usize, bool)
    requires room { 0 < spare sets.old }
    ensures added { result.1
        ≡ not (list_any (λ k. labels_eq labels.value (arc_value k)) sets.old.keys) }
    ensures keys { sets.new.keys
        ≡ (if list_any (λ k. labels_eq labels.value (arc_value k)) sets.old.keys
        then sets.old.keys else sets.old.keys ++ labels ∷ []) }
    ensures stored { (k : Shared) × (slice_get sets.new.keys result.0 ≡ Some k)
        × (labels_eq labels.value (arc_value k) ≡ true) }
    ensures room { spare sets.old ≤ spare sets.new + 1 }
{
    let slot = match number.checked_rem(hints.len() as u64) {
        Some(slot) => slot as usize,
        None => 0,
    };
    if let Some(hint) = hints.get(slot) {
        if is_at(sets, *hint, &labels) {
            return (*hint, false);
        }
    }
    let (place, is_new) = sets.insert_full(labels).unwrap();
    if let Some(hint) = hints.get_mut(slot) {
        *hint = place;
    }
    (place, is_new)
}

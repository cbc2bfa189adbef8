//! Laws of sorted labels. Each function has an empty body: its contract is the law.

ghost use Rattle.std.specs.Prelude.{◌≡◌};
ghost use Rattle.std.specs.List.Sorted.{IsPermutation};
ghost use Rattle.rw_types.specs.Labels.{Labels, IsLabelSet};
ghost use Rattle.rw_types.specs.declared.names.Names.{Names};
ghost use Rattle.rw_sorted_labels.specs.Sorting.{SortsLabels};

/// Law: if labels are a label set in some order, sorting gives just that label set.
pub fn label_set_is_found()
    ensures { (names : Names) (before after set : Labels) → SortsLabels before after
        → IsPermutation before set → IsLabelSet names set → after ≡ set }
{}

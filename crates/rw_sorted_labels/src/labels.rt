//! Labels, sorted by name.

ghost use Rattle.std.specs.Prelude.{◌≡◌, map, true};
ghost use Rattle.std.specs.List.Sorted.{IsSorted};
ghost use Rattle.rw_types.specs.LabelOrder.{label_cmp};
ghost use Rattle.rw_types.specs.Labels.{text_label};
ghost use Rattle.rw_sorted_labels.specs.Sorting.{SortsLabels};

/// Returns whether labels are sorted by name, and those of one name by value.
pub(crate) fn are_sorted(labels: &[(String, String)]) -> bool
    ensures { result ≡ true → IsSorted label_cmp (map text_label labels.now) }
{
    for i in 1..labels.len() {
        if labels[i].cmp(&labels[i - 1]).is_lt() {
            return false;
        }
    }
    true
}

/// Sorts labels by name, and those of one name by value. This takes no memory.
pub(crate) fn sort(labels: &mut [(String, String)])
    ensures { SortsLabels (map text_label labels.old) (map text_label labels.new) }
{
    labels.sort_unstable();
}

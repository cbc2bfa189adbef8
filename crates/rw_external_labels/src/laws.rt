//! Laws of external labels, and small rows. Each function has an empty body: its contract is the
//! law.

ghost use Rattle.std.specs.Prelude.{◌≡◌, ℕ, List, [], ◌∷◌, true};
ghost use Rattle.std.specs.Option.{option_or};
ghost use Rattle.rw_types.specs.Labels.{Labels, are_sorted};
ghost use Rattle.rw_external_labels.specs.External.{with_labels};
ghost use Rattle.rw_external_labels.specs.Laws.{value_at};
ghost use Rattle.rw_external_labels.specs.Rows as rows;

/// Law: labels that are sorted by name without a repeated one stay so.
pub fn labels_stay_sorted()
    ensures { (external labels : Labels) → are_sorted labels ≡ true
        → are_sorted (with_labels external labels) ≡ true }
{}

/// Law: at each name there is the value that the series has, else that of the external label. So a
/// label that the series has stays as it is, and no other label is added.
pub fn own_values_stay()
    ensures { (external labels : Labels) (name : List ℕ) → are_sorted labels ≡ true
        → value_at (with_labels external labels) name
        ≡ option_or (value_at labels name) (value_at external name) }
{}

/// Law: small series have these labels with external ones.
pub fn rows_are_labelled()
    ensures none { with_labels [] rows.series ≡ rows.series }
    ensures before { with_labels (rows.cluster ∷ []) rows.series
        ≡ rows.cluster ∷ rows.instance ∷ rows.job ∷ [] }
    ensures prefix { with_labels (rows.inst ∷ []) rows.series
        ≡ rows.inst ∷ rows.instance ∷ rows.job ∷ [] }
    ensures between { with_labels (rows.instances ∷ []) rows.series
        ≡ rows.instance ∷ rows.instances ∷ rows.job ∷ [] }
    ensures after { with_labels (rows.replica ∷ []) rows.series
        ≡ rows.instance ∷ rows.job ∷ rows.replica ∷ [] }
    ensures own { with_labels (rows.other_job ∷ []) rows.series ≡ rows.series }
    ensures several { with_labels (rows.cluster ∷ rows.other_job ∷ rows.replica ∷ []) rows.series
        ≡ rows.cluster ∷ rows.instance ∷ rows.job ∷ rows.replica ∷ [] }
    ensures empty { with_labels (rows.cluster ∷ rows.replica ∷ []) []
        ≡ rows.cluster ∷ rows.replica ∷ [] }
{}

//! Laws of what the entries of a log say of its series, for the crates that keep a cache beside a
//! log. Each function has an empty body: its contract is the law.

ghost use Rattle.std.specs.Prelude.{◌≡◌, ◌≢◌, ◌++◌, ◌∷◌, [], ℕ, ℤ, true, false, List, length, take};
ghost use Rattle.std.specs.Ordering.{nat_cmp};
ghost use Rattle.std.specs.FinMap.{FinMap, empty, insert};
ghost use Rattle.rw_types.specs.Labels.{Labels};
ghost use Rattle.rw_types.specs.declared.entry.Entry.{Entry};
ghost use Rattle.rw_types.specs.declared.entry.Entry.TheVariants.{Def, Sample};
ghost use Rattle.rw_wal_format.specs.Series.{labels_of};
ghost use Rattle.rw_relabel.specs.declared.choice.Choice.{Choice};
ghost use Rattle.rw_series_cache.specs.Known.{Kept, standing_of, known, definitions_of};
ghost use Rattle.rw_series_cache.specs.Numbers.{series_of, HasNumber};
ghost use Rattle.rw_series_cache.specs.Points.{kept_points, kept_points_below};
ghost use Rattle.rw_series_cache.specs.Rising.{rises, IsNoted};

/// Law: samples change nothing of what is known of references and series; only definitions do.
pub fn samples_define_nothing()
    ensures known { (choice : Choice) (entries : List Entry) (reference : ℕ)
        → known choice (definitions_of entries) reference ≡ known choice entries reference }
    ensures series { (choice : Choice) (entries : List Entry)
        → series_of choice (definitions_of entries) ≡ series_of choice entries }
    ensures definition { (entries : List Entry) (reference : ℕ) (labels : Labels)
        → definitions_of (entries ++ Def reference labels ∷ [])
        ≡ definitions_of entries ++ Def reference labels ∷ [] }
    ensures sample { (entries : List Entry) (reference : ℕ) (t : ℤ) (word : ℕ)
        → definitions_of (entries ++ Sample reference t word ∷ []) ≡ definitions_of entries }
{}

/// Law: what is known of a reference after the first `position` entries of a log is what its labels
/// there say.
pub fn known_at_a_position()
    ensures { (choice : Choice) (entries : List Entry) (reference position : ℕ)
        → known choice (take position entries) reference
        ≡ standing_of choice (labels_of entries reference position) }
{}

/// Law: a reference whose label set is kept stands for a numbered series, and a series keeps its
/// number as more entries come.
pub fn numbers_stay()
    ensures numbered { (choice : Choice) (entries : List Entry) (reference : ℕ) (labels : Labels)
        → known choice entries reference ≡ Kept labels
        → (number : ℕ) × HasNumber (series_of choice entries) labels number }
    ensures stay { (choice : Choice) (entries more : List Entry) (labels : Labels) (number : ℕ)
        → HasNumber (series_of choice entries) labels number
        → HasNumber (series_of choice (entries ++ more)) labels number }
{}

/// Law: a sample belongs to the series that its reference stands for, if the rules keep it, and to
/// no other.
pub fn points_entry_by_entry()
    ensures definition { (choice : Choice) (entries : List Entry) (labels other : Labels)
        (reference : ℕ)
        → kept_points choice (entries ++ Def reference other ∷ []) labels
        ≡ kept_points choice entries labels }
    ensures kept { (choice : Choice) (entries : List Entry) (labels : Labels) (reference : ℕ)
        (t : ℤ) (word : ℕ)
        → known choice entries reference ≡ Kept labels
        → kept_points choice (entries ++ Sample reference t word ∷ []) labels
        ≡ kept_points choice entries labels ++ (length entries, t, word) ∷ [] }
    ensures other { (choice : Choice) (entries : List Entry) (labels : Labels) (reference : ℕ)
        (t : ℤ) (word : ℕ)
        → known choice entries reference ≢ Kept labels
        → kept_points choice (entries ++ Sample reference t word ∷ []) labels
        ≡ kept_points choice entries labels }
{}

/// Law: the samples of a series before a position are those among the entries before it.
pub fn points_below_a_position()
    ensures { (choice : Choice) (entries : List Entry) (labels : Labels) (end : ℕ)
        → kept_points_below choice entries labels end
        ≡ kept_points choice (take end entries) labels }
{}

/// Law: the timestamps that are noted decide which samples rise, entry by entry: a sample that
/// rises is noted, and nothing else.
pub fn notes_entry_by_entry()
    ensures first { (choice : Choice) → IsNoted choice [] empty }
    ensures definition { (choice : Choice) (entries : List Entry) (reference : ℕ) (labels : Labels)
        (noted : FinMap nat_cmp ℤ)
        → IsNoted choice entries noted
        → IsNoted choice (entries ++ Def reference labels ∷ []) noted }
    ensures other { (choice : Choice) (entries : List Entry) (reference : ℕ) (t : ℤ) (word : ℕ)
        (noted : FinMap nat_cmp ℤ)
        → ((labels : Labels) → known choice entries reference ≢ Kept labels)
        → IsNoted choice entries noted
        → IsNoted choice (entries ++ Sample reference t word ∷ []) noted }
    ensures falling { (choice : Choice) (entries : List Entry) (reference : ℕ) (t : ℤ) (word : ℕ)
        (labels : Labels) (noted : FinMap nat_cmp ℤ)
        → known choice entries reference ≡ Kept labels → rises choice entries labels t ≡ false
        → IsNoted choice entries noted
        → IsNoted choice (entries ++ Sample reference t word ∷ []) noted }
    ensures rising { (choice : Choice) (entries : List Entry) (reference : ℕ) (t : ℤ) (word : ℕ)
        (labels : Labels) (number : ℕ) (noted : FinMap nat_cmp ℤ)
        → known choice entries reference ≡ Kept labels
        → HasNumber (series_of choice entries) labels number
        → rises choice entries labels t ≡ true → IsNoted choice entries noted
        → IsNoted choice (entries ++ Sample reference t word ∷ []) (insert noted number t) }
{}

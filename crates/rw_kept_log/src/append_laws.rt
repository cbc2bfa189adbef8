//! Laws of what is added to a log, and of where it ends. Each function has an empty body: its
//! contract is the law.

ghost use Rattle.std.specs.Prelude.{◌≡◌, ◌++◌, [], ◌∷◌, ℕ, List, Some, length, ℤ, map};
ghost use Rattle.rw_types.specs.Beginnings.{Begins};
ghost use Rattle.rw_types.specs.Labels.{Labels};
ghost use Rattle.rw_types.specs.declared.entry.Entry.{Entry};
ghost use Rattle.rw_types.specs.declared.entry.Entry.TheVariants.{Def};
ghost use Rattle.rw_wal_format.specs.Laws.{sample_entry};
ghost use Rattle.rw_wal_format.specs.Pieces.{page_size};
ghost use Rattle.rw_wal_format.specs.Series.{labels_of};
ghost use Rattle.rw_kept_log.specs.Journal.{Segments};
ghost use Rattle.rw_kept_log.specs.Logs.{IsWholeText};
ghost use Rattle.rw_kept_log.specs.TornLogs.{AllBefore};
ghost use Rattle.rw_kept_log.specs.Additions.{Addition, samples_of_labels, added_entries, samples_of_additions, AreNamed, definition_entry};
ghost use Rattle.rw_kept_log.specs.Definitions.{IsDefinedOnce};
ghost use Rattle.rw_kept_log.specs.References.{ReferenceTable, all_defined, AreReferenced, IsNoted, IsTable, points_of, undefined};
ghost use Rattle.rw_kept_log.specs.Ends.{EndsAt};

/// Law: if the reference of each addition stands for its label set, the log with the added samples
/// has of each label set the samples that it had, and then the added ones, in their order.
pub fn what_is_written_is_said()
    ensures { (es : List Entry) (added : List Addition) (l : Labels) → AreNamed es added
        → samples_of_labels (es ++ added_entries added) l ≡ samples_of_labels es l
        ++ samples_of_additions l added }
{}

/// Law: a definition adds no sample, and from then on its reference stands for its label set.
pub fn definitions_give_names()
    ensures none { (es : List Entry) (reference : ℕ) (labels l : Labels)
        → samples_of_labels (es ++ Def reference labels ∷ []) l ≡ samples_of_labels es l }
    ensures named { (es : List Entry) (reference : ℕ) (labels : Labels)
        → labels_of (es ++ Def reference labels ∷ []) reference
        (length (es ++ Def reference labels ∷ [])) ≡ Some labels }
{}

/// Law: if a log gets the definitions that it does not have, and then samples of these references,
/// it has all definitions, and of each label set the samples that it had, and then the new ones. If
/// it defined each label set once, it does so after.
pub fn new_samples_are_read()
    ensures defined { (es : List Entry) (n : ReferenceTable) (samples : List (ℕ × ℤ × ℕ))
        → IsNoted es n → IsTable n
        → IsNoted (es ++ map definition_entry (undefined n) ++ map sample_entry samples)
        (all_defined n) }
    ensures samples { (es : List Entry) (n : ReferenceTable) (samples : List (ℕ × ℤ × ℕ)) (l : Labels)
        → IsNoted es n → IsTable n → AreReferenced n samples
        → samples_of_labels (es ++ map definition_entry (undefined n) ++ map sample_entry samples) l
        ≡ samples_of_labels es l ++ points_of n l samples }
    ensures once { (es : List Entry) (n : ReferenceTable) (samples : List (ℕ × ℤ × ℕ))
        → IsNoted es n → IsTable n → IsDefinedOnce es → IsDefinedOnce
        (es ++ map definition_entry (undefined n) ++ map sample_entry samples) }
{}

/// Law: if a log defines each label set once, so does each beginning of it.
pub fn a_beginning_is_defined_once()
    ensures { (es fs : List Entry) → Begins es fs → IsDefinedOnce fs → IsDefinedOnce es }
{}

/// Law: a log with an empty last segment ends at 0, if each segment before it ends between two
/// records.
pub fn an_empty_segment_ends_at_0()
    ensures { (done : Segments) → AllBefore (IsWholeText page_size) (done ++ [] ∷ [])
        → EndsAt (done ++ [] ∷ []) 0 }
{}

/// Law: a log that ends between two records also does so with a next segment.
pub fn a_next_segment_may_begin()
    ensures whole { (segments : Segments) (offset : ℕ) → EndsAt segments offset
        → AllBefore (IsWholeText page_size) segments }
    ensures next { (segments : Segments) (offset : ℕ) → EndsAt segments offset
        → EndsAt (segments ++ [] ∷ []) 0 }
{}

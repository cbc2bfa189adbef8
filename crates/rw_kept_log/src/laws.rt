//! Laws of a log that a crash tore. Each function has an empty body: its contract is the law.

ghost use Rattle.std.specs.Prelude.{◌≡◌, ◌<◌, ◌≤◌, ◌++◌, [], ◌∷◌, ℕ, List, None, Some, length, take, drop};
ghost use Rattle.std.specs.List.{AllByRecursion};
ghost use Rattle.rw_types.specs.Beginnings.{Begins};
ghost use Rattle.rw_types.specs.declared.entry.Entry.{Entry};
ghost use Rattle.rw_wal_format.specs.Laws.{AreRecords, log_all, entries_of_records};
ghost use Rattle.rw_wal_format.specs.Pieces.{bytes, next_segment, page_size, fault};
ghost use Rattle.rw_wal_format.specs.Segments.{segment};
ghost use Rattle.rw_types.specs.Labels.{Labels};
ghost use Rattle.rw_kept_log.specs.Additions.{Point, samples_of_labels};
ghost use Rattle.rw_kept_log.specs.Checkpoints.{definitions_of, IsCheckpointOf, SaySame};
ghost use Rattle.rw_kept_log.specs.Definitions.{definitions_in};
ghost use Rattle.rw_kept_log.specs.References.{IsNoted, ReferenceTable};
ghost use Rattle.rw_kept_log.specs.Retiring.{with_first};
ghost use Rattle.rw_kept_log.specs.Logs.{entries_of, IsWholeText, IsCleanCut};
ghost use Rattle.rw_kept_log.specs.Journal.{Segments, with_more};
ghost use Rattle.rw_kept_log.specs.Torn.{IsTorn, IsTornLog};
ghost use Rattle.rw_kept_log.specs.TornLogs.{NoChance, last_of, AllBefore};

use crate::journal::Journal;

/// Law: a segment that a crash tore has the entries of what was synced, and after them a prefix of
/// those that were being written.
pub fn a_torn_end_is_a_beginning()
    ensures { (page synced : ℕ) (written left : List ℕ) → 0 < page
        → IsTorn page synced written left → NoChance page written left
        → Begins (segment page (take synced written)).entries (segment page left).entries
        × Begins (segment page left).entries (segment page written).entries }
{}

/// Law: if bytes were being written to the last segment of a log page by page, and each page was
/// synced before the next one was begun, a crash leaves a log with all entries that were there, and
/// after them a prefix of those that were being written.
pub fn a_torn_log_is_a_beginning<J: Journal>()
    ensures { (page : ℕ) (old : Segments) (written : List ℕ) (left : Segments) → 0 < page
        → NoChance page (last_of (with_more old written)) (last_of left)
        → AllBefore (IsWholeText page) old
        → IsTornLog J.tears page (length (last_of old)) old written left
        → Begins (entries_of page old) (entries_of page left)
        × Begins (entries_of page left) (entries_of page (with_more old written)) }
{}

/// Law: if all segments of a log but the last one end between two records, the log has their
/// entries, and then those of the last one.
pub fn segments_add_up()
    ensures { (page : ℕ) (done : List (List ℕ)) (text last : List ℕ)
        → AllByRecursion (IsWholeText page) done → IsWholeText page text
        → entries_of page (done ++ text ∷ last ∷ [])
        ≡ entries_of page (done ++ text ∷ []) ++ (segment page last).entries }
{}

/// Law: if the last segment of a log is cut after its last whole record and a next one is begun,
/// the log has the entries that it had, and then those of the next one.
pub fn a_cut_log_goes_on()
    ensures { (page : ℕ) (done : List (List ℕ)) (text next : List ℕ) (at : ℕ)
        → AllByRecursion (IsWholeText page) done → IsCleanCut page text at
        → entries_of page (done ++ take at text ∷ next ∷ [])
        ≡ entries_of page (done ++ text ∷ []) ++ (segment page next).entries }
{}

/// Law: if the last segment of a log is cut, and what is left ends without a fault and has as many
/// entries as before, the cut is clean.
pub fn a_checked_cut_is_clean()
    ensures { (text : List ℕ) (at : ℕ) → at ≤ length text
        → fault (bytes (take at text) ∷ next_segment ∷ []) ≡ None
        → length (segment page_size text).entries
        ≤ length (segment page_size (take at text)).entries
        → IsCleanCut page_size text at }
{}

/// Law: records that are written after those of the last segment add their entries, and change
/// nothing before them.
pub fn records_add_entries()
    ensures { (done : Segments) (ds more : List (List ℕ)) (es fs : List Entry)
        → AllByRecursion (IsWholeText page_size) done → AreRecords (ds ++ more)
        → entries_of_records ds ≡ Some es → entries_of_records more ≡ Some fs
        → entries_of page_size (done ++ log_all page_size 0 (ds ++ more) ∷ [])
        ≡ entries_of page_size (done ++ log_all page_size 0 ds ∷ []) ++ fs }
{}

/// Law: if a checkpoint of some entries says of each reference that is used after them what they
/// say, each label set has the same samples after the checkpoint as after them. The definitions of
/// the entries are such a checkpoint, and have no samples.
pub fn a_checkpoint_keeps_what_follows()
    ensures follows { (full cp later : List Entry) (l : Labels) → SaySame full cp later
        → (rest : List Point)
        × (samples_of_labels (full ++ later) l ≡ samples_of_labels full l ++ rest)
        × (samples_of_labels (cp ++ later) l ≡ samples_of_labels cp l ++ rest) }
    ensures labels { (full later : List Entry) → SaySame full (definitions_of full) later }
    ensures none { (full : List Entry) (l : Labels)
        → samples_of_labels (definitions_of full) l ≡ [] }
{}

/// Law: a log whose first segments give way to a checkpoint of them has of each label set the
/// samples that it had, less those of these segments. Its definitions are those that it had, in
/// their order, and so are the references that it defines. All that comes after these segments is
/// read as before.
pub fn a_retired_log_goes_on()
    ensures samples { (page n : ℕ) (segments texts : Segments) (l : Labels)
        → IsCheckpointOf page n segments texts
        → samples_of_labels (entries_of page segments) l
        ≡ samples_of_labels (entries_of page (take n segments)) l
        ++ samples_of_labels (entries_of page (with_first n texts segments)) l }
    ensures definitions { (page n : ℕ) (segments texts : Segments)
        → IsCheckpointOf page n segments texts
        → definitions_in (entries_of page (with_first n texts segments))
        ≡ definitions_in (entries_of page segments) }
    ensures noted { (page n : ℕ) (segments texts : Segments) (t : ReferenceTable)
        → IsCheckpointOf page n segments texts → IsNoted (entries_of page segments) t
        → IsNoted (entries_of page (with_first n texts segments)) t }
    ensures entries { (page n : ℕ) (segments texts : Segments)
        → IsCheckpointOf page n segments texts
        → entries_of page (with_first n texts segments)
        ≡ definitions_of (entries_of page (take n segments)) ++ entries_of page (drop n segments) }
{}

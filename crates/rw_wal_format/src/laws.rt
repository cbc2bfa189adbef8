//! Laws of the log's grammar, for the crates that read and write logs. Each function has an empty
//! body: its contract is the law.

ghost use Rattle.std.specs.Prelude.{◌≡◌, ◌+◌, ◌^◌, ◌<◌, ◌≤◌, ◌++◌, ℕ, ℤ, List, [], ◌∷◌, map, length, Some, None};
ghost use Rattle.rw_types.specs.declared.entry.Entry.{Entry};
ghost use Rattle.rw_types.specs.declared.entry.Entry.TheVariants.{Def};
ghost use Rattle.rw_types.specs.Labels.{Labels};
ghost use Rattle.rw_wal_format.specs.Records.{series_record, sample_record, record_entries};
ghost use Rattle.rw_wal_format.specs.Pieces.{Piece, bytes, reading, page_size, entries, fault};
ghost use Rattle.rw_wal_format.specs.Writing.{log_bytes};
ghost use Rattle.rw_wal_format.specs.Series.{labels_of};
ghost use Rattle.rw_wal_format.specs.Laws.{Extends, AreRecords, log_all, reading_of_records, entries_of_records, AreTexts, AreSamples, sample_entry};

/// Law: the series record of one definition is read as that definition.
pub fn series_record_is_read()
    ensures { (reference : ℕ) (labels : Labels) → reference < 2 ^ 64 → length labels < 2 ^ 64
        → AreTexts labels
        → record_entries (series_record reference labels) ≡ Some (Def reference labels ∷ []) }
{}

/// Law: the sample record of samples is read as these samples, in their order.
pub fn sample_record_is_read()
    ensures { (samples : List (ℕ × ℤ × ℕ)) → AreSamples samples
        → record_entries (sample_record samples) ≡ Some (map sample_entry samples) }
{}

/// Law: the records that were written to a segment, one after the other, are what is read of it.
pub fn records_are_read()
    ensures { (page : ℕ) (records : List (List ℕ)) → 7 < page → page < 2 ^ 16 → AreRecords records
        → reading page (bytes (log_all page 0 records) ∷ []) ≡ reading_of_records records }
{}

/// Law: of a segment with well-formed records the entries are read, in their order, and no fault.
pub fn entries_are_read()
    ensures { (records : List (List ℕ)) (all : List Entry) → AreRecords records
        → entries_of_records records ≡ Some all
        → (entries (bytes (log_all page_size 0 records) ∷ []) ≡ all)
        × (fault (bytes (log_all page_size 0 records) ∷ []) ≡ None) }
{}

/// Law: one more record adds its fragments at the end of a segment, and changes nothing before
/// them.
pub fn one_more_record()
    ensures { (page offset : ℕ) (records : List (List ℕ)) (d : List ℕ)
        → log_all page offset (records ++ d ∷ [])
        ≡ log_all page offset records
        ++ log_bytes page (offset + length (log_all page offset records)) d }
{}

/// Law: as more of a log comes, what was read of it does not change, and a fault stays.
pub fn reading_goes_on()
    ensures { (page : ℕ) (pieces more : List Piece) → 0 < page
        → Extends (reading page pieces) (reading page (pieces ++ more)) }
{}

/// Law: it does not matter how the bytes of a segment are cut into pieces, and an empty piece
/// changes nothing.
pub fn cuts_do_not_matter()
    ensures cut { (page : ℕ) (before after : List Piece) (a b : List ℕ)
        → reading page (before ++ bytes a ∷ bytes b ∷ after)
        ≡ reading page (before ++ bytes (a ++ b) ∷ after) }
    ensures empty { (page : ℕ) (before after : List Piece)
        → reading page (before ++ bytes [] ∷ after) ≡ reading page (before ++ after) }
{}

/// Law: entries that come later in a log do not change which labels a reference has below them.
pub fn labels_stay()
    ensures { (all more : List Entry) (reference position : ℕ) → position ≤ length all
        → labels_of (all ++ more) reference position ≡ labels_of all reference position }
{}

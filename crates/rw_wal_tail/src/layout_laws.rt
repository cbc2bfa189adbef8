//! Laws of the log's layout. Each function has an empty body: its contract is the law.

ghost use Rattle.std.specs.Prelude.{◌≡◌, ◌↔◌, ℕ, ◌<◌, ◌^◌, Bool, true, false, List, [], ◌∷◌, Some};
ghost use Rattle.rw_types.specs.declared.entry.Entry.{Entry};
ghost use Rattle.rw_types.specs.declared.entry.Entry.TheVariants.{Def};
ghost use Rattle.rw_wal_format.specs.Segments.{Item, item_in, between, inside, at_fault, Reading, segment_in};
ghost use Rattle.rw_wal_format.specs.Pieces.{Piece, reading, entries, fault};
ghost use Rattle.rw_wal_format.specs.Laws.{AreRecords, log_all, reading_of_records};
ghost use Rattle.rw_wal_format.specs.declared.skipped_type.SkippedType.TheVariants.{Unknown};
ghost use Rattle.rw_wal_format.specs.declared.tail_fault.TailFault.{TailFault};
ghost use Rattle.rw_wal_format.specs.declared.tail_fault.TailFault.TheVariants.{BadCrc, Sequence};
ghost use Rattle.rw_wal_format.specs.declared.tail_fault.TailFault.TheVariants.{NonzeroPadding};
ghost use Rattle.rw_wal_format.specs.declared.tail_fault.TailFault.TheVariants.{TornSegment};
ghost use Rattle.rw_wal_tail.specs.Places.{stop_offset_in, stop_after, fault_place};
ghost use Rattle.rw_wal_tail.specs.declared.place.FaultPlace.{FaultPlace};
ghost use Rattle.rw_wal_tail.specs.LayoutExamples as examples;
ghost use Rattle.rw_wal_tail.specs.LayoutItems.{IsItem};
ghost use Rattle.rw_wal_tail.specs.LayoutSegment.{IsSegment};
ghost use Rattle.rw_wal_tail.specs.LayoutLog.{segments_of, IsLog, HasEntries, HasFirstFault};

/// Law: at each place of a segment the reader's definition finds exactly the item that is there.
pub fn items_are_read()
    ensures { (c : Bool) (left : ℕ) (text : List ℕ) (item : Item) → 0 < left
        → (item_in c left text ≡ item) ↔ IsItem c left text item }
{}

/// Law: a segment's text is read exactly as it is laid out, and reading stops at the same offset.
pub fn segments_are_read()
    ensures { (c : Bool) (page : ℕ) (text : List ℕ) (outcome : Reading) (offset : ℕ) → 0 < page
        → ((segment_in c page text ≡ outcome) × (stop_offset_in c page text ≡ offset))
        ↔ IsSegment c page text outcome offset }
{}

/// Law: a log is read exactly as its segments are laid out, and reading stops at the same place.
pub fn logs_are_read()
    ensures { (page : ℕ) (pieces : List Piece) (outcome : Reading) (place : FaultPlace)
        → 0 < page
        → ((reading page pieces ≡ outcome) × (stop_after page 0 [] pieces ≡ place))
        ↔ IsLog page (segments_of pieces) outcome place }
{}

/// Law: the entries of a log are those of the records before its end or its first fault.
pub fn entries_are_laid_out()
    ensures { (pieces : List Piece) (all : List Entry)
        → (entries pieces ≡ all) ↔ HasEntries pieces all }
{}

/// Law: the fault of a log and its place are those of the first fault of its layout.
pub fn faults_are_first()
    ensures { (pieces : List Piece) (f : TailFault) (place : FaultPlace)
        → ((fault pieces ≡ Some f) × (fault_place pieces ≡ Some place))
        ↔ HasFirstFault pieces f place }
{}

/// Law: what a writer makes of records is one of the layouts of these records.
pub fn written_records_are_laid_out()
    ensures { (page : ℕ) (records : List (List ℕ)) → 7 < page → page < 2 ^ 16 → AreRecords records
        → (offset : ℕ)
        × IsSegment false page (log_all page 0 records) (reading_of_records records) offset }
{}

/// Law: small segments have the layout that the format gives them, up to these offsets.
pub fn examples_are_laid_out()
    ensures flushed_page { IsSegment false 32 examples.flushed_page
        (record { entries = Def 7 [] ∷ []; skipped = []; stop = between }) 46 }
    ensures no_room { IsSegment false 14 examples.no_room_for_a_header
        (record { entries = []; skipped = Unknown ∷ []; stop = between }) 22 }
    ensures open { IsSegment false 32 examples.begins_while_open
        (record { entries = []; skipped = Unknown ∷ []; stop = at_fault Sequence }) 23 }
    ensures padding { IsSegment false 32 examples.byte_in_empty_rest
        (record { entries = []; skipped = Unknown ∷ []; stop = at_fault NonzeroPadding }) 8 }
    ensures crc { IsSegment false 32 examples.changed_crc
        (record { entries = []; skipped = Unknown ∷ []; stop = at_fault BadCrc }) 8 }
    ensures header { IsSegment false 32 examples.begun_header
        (record { entries = []; skipped = []; stop = inside }) 8 }
    ensures torn { IsLog 32
        ((false, examples.open_record) ∷ (false, examples.flushed_page) ∷ [])
        (record { entries = []; skipped = []; stop = at_fault TornSegment })
        (record { segment = 0; offset = 15 }) }
{}

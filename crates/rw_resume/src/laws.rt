//! A law of a segment that is begun in its middle. The function has an empty body: its contract is
//! the law.

ghost use Rattle.std.specs.Prelude.{◌≡◌, ◌<◌, ◌+◌, ◌%◌, ◌++◌, ℕ, List, Bool, length};
ghost use Rattle.rw_wal_format.specs.Segments.{Reading, segment_in};
ghost use Rattle.rw_wal_format.specs.Pieces.{then_next};
ghost use Rattle.rw_wal_tail.specs.Places.{stop_offset_in};
ghost use Rattle.rw_resume.specs.Goings.{EndsRecord};

/// Law: after whole records a segment is read on in the same way, whatever these records are, if
/// they end at the same place of a page. The same entries follow, the same records are passed over,
/// and reading stops in the same way, at the same number of bytes after the whole records.
pub fn a_segment_goes_on_after_a_record()
    ensures entries { (c : Bool) (page : ℕ) (text front rest : List ℕ) → 0 < page
        → EndsRecord c page text → EndsRecord c page front
        → length text % page ≡ length front % page
        → (more : Reading)
        × (segment_in c page (text ++ rest) ≡ then_next (segment_in c page text) more)
        × (segment_in c page (front ++ rest) ≡ then_next (segment_in c page front) more) }
    ensures offset { (c : Bool) (page : ℕ) (text front rest : List ℕ) → 0 < page
        → EndsRecord c page text → EndsRecord c page front
        → length text % page ≡ length front % page
        → (more : ℕ)
        × (stop_offset_in c page (text ++ rest) ≡ length text + more)
        × (stop_offset_in c page (front ++ rest) ≡ length front + more) }
{}

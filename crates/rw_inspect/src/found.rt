//! The entries of a log at given positions.

ghost use Rattle.std.specs.Prelude.{◌≡◌, ◌++◌, ◌∷◌, [], List, map, flat_map, count_by, length, not, true, None, Some, Err, IfOk, OnOk, OnErr, MatchOption, ◌<◌, vec_len, vec_capacity};
ghost use Rattle.rw_types.specs.declared.entry.Entry.{Entry};
ghost use Rattle.rw_types.specs.declared.transfer.ReadFault.TheVariants.{Failed};
ghost use Rattle.rw_series_cache.specs.Known.{definitions_of};
ghost use Rattle.rw_series_cache.specs.Found.{standing_in};
ghost use Rattle.rw_inspect.specs.Finding.{Finds, any_names, entry_text, label_fault_text, is_missing, name_at, not_there_text, position_text, sample_text, series_text, set_text, standing_text, there_text};
ghost use Rattle.rw_inspect.specs.inner.Finding.{is_asked, note_of, noted_at, notes_in, told};
ghost use Rattle.rw_follow.specs.Queues.{AreSure};
ghost use Rattle.rw_log_read.specs.Logs.{source_of};
ghost use Rattle.rw_log_read.specs.declared.named.UnreadLog.{UnreadLog};

use rw_history::History;
use rw_log_read::{Damage, LogRead, Named, Segment, UnreadLog, one_more, read_named};
use rw_relabel::{Choice, Rules};
use rw_series_cache::{Cache, Known};
use rw_text::{push_integer, push_labels, push_number, push_value};
use rw_types::{Entry, LabelFault, LabelSet, Names, RawLabels, Source, Word};
use rw_wal_tail::Taker;
use std::alloc::{AllocError, Global};
use std::marker::Model;

/// What was found at positions of a log.
#[derive(Debug, Drop)]
pub struct Found {
    /// A line for each position.
    pub text: Vec<u8>,
    /// How many of the positions have no entry.
    pub missing: u64,
    /// The damage of the log, if it has one.
    pub damage: Option<Damage>,
}

/// Returns the choice of all label sets, with any UTF-8 names.
fn any_names(alloc: Global) -> Choice
    ensures { result ≡ any_names }
{
    Choice {
        names: Names::Utf8,
        rules: Rules::new(Vec::new(alloc)),
    }
}

/// Adds a fault of labels.
#[tactic(auto, unfolding(crate::specs::Finding::label_fault_text))]
fn push_fault(out: &mut Vec<u8>, fault: LabelFault) -> Result<(), AllocError>
    ensures { OnOk result (out.new.items ≡ out.old.items ++ label_fault_text fault) }
{
    out.extend_from_slice(b"bad ")?;
    push_number(out, u64::from(fault.number()))
}

/// Adds labels, or their fault.
fn push_set(out: &mut Vec<u8>, alloc: Global, labels: &RawLabels) -> Result<(), AllocError>
    ensures { OnOk result (out.new.items ≡ out.old.items ++ set_text labels.now) }
{
    match LabelSet::check_as(alloc, Names::Utf8, labels) {
        Ok(set) => push_labels(out, &set),
        Err(LabelFault::OutOfMemory) => Err(AllocError),
        Err(fault) => push_fault(out, fault),
    }
}

/// Adds what a reference stands for.
fn push_known(out: &mut Vec<u8>, known: &Known<'_>) -> Result<(), AllocError>
    ensures { OnOk result (out.new.items ≡ out.old.items ++ standing_text (standing_in known.now)) }
{
    match known {
        Known::Unknown => out.extend_from_slice(b"noseries"),
        Known::Bad(fault) => push_fault(out, *fault),
        Known::Filtered => out.extend_from_slice(b"filtered"),
        Known::Kept(_, labels) => push_labels(out, labels),
    }
}

/// Adds a definition.
#[tactic(auto, unfolding(crate::specs::Finding::series_text))]
fn push_series(
    out: &mut Vec<u8>,
    alloc: Global,
    reference: u64,
    labels: &RawLabels,
) -> Result<(), AllocError>
    ensures { OnOk result (out.new.items ≡ out.old.items ++ series_text reference labels.now) }
{
    out.extend_from_slice(b"series ")?;
    push_number(out, reference)?;
    out.extend_from_slice(b" ")?;
    push_set(out, alloc, labels)
}

/// Adds a sample, and what its reference stands for.
#[tactic(auto, unfolding(crate::specs::Finding::sample_text))]
fn push_sample(
    out: &mut Vec<u8>,
    reference: u64,
    t: i64,
    word: Word,
    known: &Known<'_>,
) -> Result<(), AllocError>
    ensures { OnOk result
        (out.new.items ≡ out.old.items ++ sample_text reference t word (standing_in known.now)) }
{
    out.extend_from_slice(b"sample ")?;
    push_number(out, reference)?;
    out.extend_from_slice(b" ")?;
    push_integer(out, t)?;
    out.extend_from_slice(b" ")?;
    push_value(out, word)?;
    out.extend_from_slice(b" ")?;
    push_known(out, known)
}

/// Adds an entry that is after those of the cache.
fn push_entry(
    out: &mut Vec<u8>,
    alloc: Global,
    cache: &Cache,
    entry: &Entry,
) -> Result<(), AllocError>
    requires { cache.now.choice ≡ any_names }
    ensures { (before : List Entry) → definitions_of before ≡ cache.now.definitions
        → OnOk result (out.new.items ≡ out.old.items ++ entry_text before entry.now) }
{
    match entry {
        Entry::Def { reference, labels } => push_series(out, alloc, *reference, labels),
        Entry::Sample { reference, t, word } => {
            push_sample(out, *reference, *t, *word, &cache.look(*reference))
        }
    }
}

/// Returns the text that is noted for a position.
fn text_noted<'a>(notes: &'a [(u64, Vec<u8>)], position: u64) -> Option<&'a [u8]>
    ensures { MatchOption result (noted_at (map told notes.now) position
        ≡ None) (λ text. noted_at (map told notes.now) position ≡ Some text.now) }
{
    for note in notes {
        if note.0 == position {
            return Some(&note.1);
        }
    }
    None
}

/// Returns the name of the segment in which a position is.
fn name_at<'a>(segments: &'a [Segment], position: u64) -> &'a str
    ensures { result.now ≡ name_at segments.now position }
{
    let mut left = position;
    for segment in segments {
        if left < segment.sums.entries {
            return segment.name.as_str();
        }
        left -= segment.sums.entries;
    }
    ""
}

/// Adds the line of a position that exists.
#[tactic(auto, unfolding(crate::specs::Finding::there_text))]
fn push_there(out: &mut Vec<u8>, position: u64, name: &str, text: &[u8]) -> Result<(), AllocError>
    ensures { OnOk result (out.new.items ≡ out.old.items ++ there_text position name.now text.now) }
{
    push_number(out, position)?;
    out.extend_from_slice(b" ")?;
    out.extend_from_slice(name.as_bytes())?;
    out.extend_from_slice(b" ")?;
    out.extend_from_slice(text)?;
    out.extend_from_slice(b"\n")
}

/// Adds the line of a position that does not exist.
#[tactic(auto, unfolding(crate::specs::Finding::not_there_text))]
fn push_not_there(out: &mut Vec<u8>, position: u64) -> Result<(), AllocError>
    ensures { OnOk result (out.new.items ≡ out.old.items ++ not_there_text position) }
{
    push_number(out, position)?;
    out.extend_from_slice(b" has no entry\n")
}

/// Takes the definition of an entry, if it is one.
fn define(cache: &mut Cache, entry: Entry) -> Result<(), AllocError>
    ensures choice { OnOk result (cache.new.choice ≡ cache.old.choice) }
    ensures defined { OnOk result
        ((before : List Entry) → definitions_of before ≡ cache.old.definitions
        → definitions_of (before ++ entry ∷ []) ≡ cache.new.definitions) }
    ensures err { OnErr result (cache.new ≡ cache.old) }
{
    match entry {
        Entry::Def { reference, labels } => cache.define(reference, labels),
        Entry::Sample { .. } => Ok(()),
    }
}

/// Adds the text of an entry, if there is one. This takes no memory.
fn add_note(notes: &mut Vec<(u64, Vec<u8>)>, position: u64, note: Option<Vec<u8>>)
    requires { vec_len notes.old < vec_capacity notes.old }
    ensures { map told notes.new.items ≡ map told notes.old.items ++ notes_in position note }
{
    if let Some(text) = note {
        notes.push_reserved((position, text));
    }
}

/// Notes the entries at some positions of a log. Contracts see the positions and the entries.
#[derive(Drop)]
struct Finder {
    alloc: Global,
    positions: Vec<u64>,
    taken: History<Entry>,
    /// How many were taken.
    count: u64,
    cache: Cache,
    /// The texts of those that are asked for, each with its position.
    notes: Vec<(u64, Vec<u8>)>,
}

impl Model for Finder {
    ghost use Rattle.rw_inspect.specs.inner.Finding.{Finding, IsFinder};

    ghost Value = { Finding };

    ghost view = { λ f. record { positions = f.positions; entries = f.taken } };

    ghost invariant = { λ f. IsFinder f.positions.items f.taken f.count f.cache f.notes.items };
}

impl Finder {
    /// Returns a finder before the first entry.
    fn new(alloc: Global, positions: Vec<u64>) -> Finder
        ensures { result ≡ record { positions = positions; entries = [] } }
    {
        Finder {
            alloc,
            positions,
            taken: History::new(),
            count: 0,
            cache: Cache::new(alloc, any_names(alloc)),
            notes: Vec::new(alloc),
        }
    }

    /// Returns the text of the next entry, if its position is asked for.
    fn note_of(&self, entry: &Entry) -> Result<Option<Vec<u8>>, AllocError>
        ensures { IfOk result (λ note. notes_in (length self.now.entries) note
            ≡ note_of self.now.positions.items self.now.entries entry.now) }
    {
        if !self.positions.contains(&self.count) {
            return Ok(None);
        }
        let mut text = Vec::new(self.alloc);
        push_entry(&mut text, self.alloc, &self.cache, entry)?;
        Ok(Some(text))
    }

    /// Adds the line of a position, and returns whether it has an entry.
    fn push_line(
        &self,
        out: &mut Vec<u8>,
        segments: &[Segment],
        position: u64,
    ) -> Result<bool, AllocError>
        requires { is_asked self.now.positions.items position ≡ true }
        ensures line { OnOk result (out.new.items
            ≡ out.old.items ++ position_text segments.now self.now.entries position) }
        ensures missing { IfOk result
            (λ is_there. not is_there ≡ is_missing self.now.entries position) }
    {
        match text_noted(&self.notes, position) {
            Some(text) => {
                push_there(out, position, name_at(segments, position), text)?;
                Ok(true)
            }
            None => {
                push_not_there(out, position)?;
                Ok(false)
            }
        }
    }

    /// Returns the lines of all positions, and how many of them have no entry.
    fn lines(&self, segments: &[Segment]) -> Result<(Vec<u8>, u64), AllocError>
        ensures text { IfOk result (λ found. found.0.items
            ≡ flat_map (position_text segments.now self.now.entries) self.now.positions.items) }
        ensures missing { IfOk result (λ found. found.1
            ≡ count_by (is_missing self.now.entries) self.now.positions.items) }
    {
        let mut text = Vec::new(self.alloc);
        let mut missing = 0;
        for position in &self.positions {
            if !self.push_line(&mut text, segments, *position)? {
                missing = one_more(missing)?;
            }
        }
        Ok((text, missing))
    }
}

impl Taker for Finder {
    ghost use Rattle.std.specs.Prelude.{ℕ, List};

    ghost taken = { λ f. f.entries };

    ghost Fixed = { List ℕ };

    ghost fixed = { λ f. f.positions.items };

    fn take(&mut self, entry: Entry) -> Result<(), AllocError> {
        let note = self.note_of(&entry)?;
        let count = one_more(self.count)?;
        self.notes.reserve(1)?;
        let mut taken = self.taken.again();
        taken.push(&entry);
        define(&mut self.cache, entry)?;
        add_note(&mut self.notes, self.count, note);
        self.taken = taken;
        self.count = count;
        Ok(())
    }
}

/// Reads the segments of a log in order, to the end of the last one or of the first one with a
/// fault, and returns for each position, in the order given, a line for the entry there: `POS
/// SEGMENT series REF LABELS`, or `POS SEGMENT sample REF T VALUE LABELS` with the label set that
/// its reference stands for there, each line ended by LF. `bad FAULT` stands for labels that are
/// not a label set, whatever names are accepted, `noseries` for those of a reference without a
/// definition before it, and `POS has no entry` if there is no entry. With `may_compress` records
/// may be Snappy blocks.
pub fn find_entries<S: Source + Drop>(
    alloc: Global,
    segments: Vec<Named<S>>,
    may_compress: bool,
    positions: Vec<u64>,
) -> Result<Found, UnreadLog>
    ensures ok { IfOk result
        (Finds may_compress (map (source_of S.remaining) segments.items) positions.items) }
    ensures sure { AreSure (map (source_of S.is_sure) segments.items)
        → (u : UnreadLog) → result ≡ Err u → u.error ≡ Failed → ⊥ }
{
    let finder = Finder::new(alloc, positions);
    let (read, finder) = read_named(alloc, segments, may_compress, finder)?;
    let LogRead {
        segments,
        damage,
        skipped: _,
    } = read;
    let (text, missing) = finder.lines(&segments)?;
    Ok(Found {
        text,
        missing,
        damage,
    })
}

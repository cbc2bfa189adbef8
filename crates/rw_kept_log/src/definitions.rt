//! The definitions of a log, kept as it is read, and written as segments.

ghost use Rattle.std.specs.Prelude.{◌≡◌, ◌++◌, [], List, IfOk, OnErr, OnOk, map};
ghost use Rattle.std.specs.List.{AllByRecursion};
ghost use Rattle.rw_kept_log.specs.Additions.{definition_entry};
ghost use Rattle.rw_kept_log.specs.Definitions.{definitions_in};
ghost use Rattle.rw_kept_log.specs.Logs.{IsWholeText, entries_of};
ghost use Rattle.rw_kept_log.specs.Retiring.{texts_of};
ghost use Rattle.rw_kept_log.specs.inner.Written.{AreWhole};
ghost use Rattle.rw_types.specs.declared.entry.Entry.{Entry};
ghost use Rattle.rw_wal_format.specs.Pieces.{page_size};
ghost use Rattle.rw_wal_format.specs.Segments.{segment};

use crate::append_error::AppendError;
use crate::append_laws::{a_next_segment_may_begin, an_empty_segment_ends_at_0};
use crate::log_end::LogEnd;
use rw_history::History;
use rw_types::{Entry, RawLabels};
use rw_wal_tail::Taker;
use std::alloc::{AllocError, Global};
use std::marker::Model;

/// The most pages of a segment that is written.
const PAGES: usize = 4096;

/// How many definitions a segment gets at most, and fewer if they have no room.
const MOST: usize = 10_000;

/// Keeps the definitions among the entries that it takes. Contracts see all entries.
#[derive(Drop)]
pub struct Definitions {
    found: Vec<(u64, RawLabels)>,
    taken: History<Entry>,
}

impl Model for Definitions {
    ghost use Rattle.std.specs.Prelude.{◌≡◌, List};
    ghost use Rattle.rw_kept_log.specs.Definitions.{definitions_in};
    ghost use Rattle.rw_types.specs.declared.entry.Entry.{Entry};

    ghost Value = { List Entry };

    ghost view = { λ d. d.taken };

    ghost invariant = { λ d. d.found.items ≡ definitions_in d.taken };
}

impl Definitions {
    /// Returns one that has taken nothing.
    pub fn new(alloc: Global) -> Definitions
        ensures { result ≡ [] }
    {
        Definitions {
            found: Vec::new(alloc),
            taken: History::new(),
        }
    }

    /// Returns the definitions among the entries, each as a reference and its labels, in order.
    pub fn found(&self) -> &[(u64, RawLabels)]
        ensures { result.now ≡ definitions_in self.now }
    {
        self.found.as_slice()
    }

    /// Returns these definitions, and keeps nothing.
    pub(crate) fn into_found(self) -> Vec<(u64, RawLabels)>
        ensures { result.items ≡ definitions_in self }
    {
        let Definitions { found, taken: _ } = self;
        found
    }
}

impl Taker for Definitions {
    ghost taken = { λ d. d };

    ghost Fixed = { Unit {0} };

    ghost fixed = { λ _. tt };

    #[tactic(auto, using(crate::proofs::shared::DefinitionLemmas::push_def, crate::proofs::shared::DefinitionLemmas::push_sample))]
    fn take(&mut self, entry: Entry) -> Result<(), AllocError> {
        self.found.reserve(1)?;
        self.taken.push(&entry);
        match entry {
            Entry::Def { reference, labels } => self.found.push_reserved((reference, labels)),
            Entry::Sample { .. } => {}
        }
        Ok(())
    }
}

/// Returns the bytes of a segment with these definitions.
fn segment_of(alloc: Global, definitions: &[(u64, RawLabels)]) -> Result<Vec<u8>, AppendError>
    ensures whole { IfOk result (λ text. IsWholeText page_size text.items) }
    ensures entries { IfOk result (λ text. (segment page_size text.items).entries
        ≡ map definition_entry definitions.now) }
{
    an_empty_segment_ends_at_0();
    a_next_segment_may_begin();
    let end = LogEnd::new(PAGES);
    let appended = end.append(alloc, definitions, &[])?;
    let (text, _) = appended;
    Ok(text)
}

/// Adds a segment with these definitions. An `Err` adds none.
fn push_segment(
    alloc: Global,
    texts: &mut Vec<Vec<u8>>,
    definitions: &[(u64, RawLabels)],
) -> Result<(), AppendError>
    ensures ok { OnOk result ((es : List Entry) → AreWhole (texts_of texts.old.items) es
        → AreWhole (texts_of texts.new.items) (es ++ map definition_entry definitions.now)) }
    ensures err { OnErr result (texts.new.items ≡ texts.old.items) }
{
    let text = segment_of(alloc, definitions)?;
    texts.reserve(1)?;
    texts.push_reserved(text);
    Ok(())
}

/// Returns segments with these definitions, in their order, and nothing else.
pub fn write_definitions(
    alloc: Global,
    definitions: &[(u64, RawLabels)],
) -> Result<Vec<Vec<u8>>, AppendError>
    ensures entries { IfOk result (λ texts. entries_of page_size (texts_of texts.items)
        ≡ map definition_entry definitions.now) }
    ensures whole { IfOk result
        (λ texts. AllByRecursion (IsWholeText page_size) (texts_of texts.items)) }
{
    let mut texts = Vec::new(alloc);
    let mut rest = definitions;
    let mut most = MOST;
    while !rest.is_empty() {
        let (part, later) = rest.split_at(most.min(rest.len()));
        match push_segment(alloc, &mut texts, part) {
            Ok(()) => rest = later,
            Err(AppendError::SegmentFull) if most > 1 => most /= 2,
            Err(error) => return Err(error),
        }
    }
    Ok(texts)
}

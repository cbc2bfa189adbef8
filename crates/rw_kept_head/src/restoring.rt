//! The head that a log says.

ghost use Rattle.std.specs.Prelude.{◌≡◌, ◌≢◌, ◌∷◌, ◌++◌, [], List, true, false, not, ◌||◌, nat_eq, map, ◌<◌, length, slice_index_or, Some, IfOk, OnOk, IfSome, None};
ghost use Rattle.std.specs.HashMap.{get};
ghost use Rattle.rw_types.specs.Beginnings.{Begins};
ghost use Rattle.rw_types.specs.Labels.{Labels, text_label};
ghost use Rattle.rw_types.specs.declared.entry.Entry.{Entry};
ghost use Rattle.rw_types.specs.declared.names.Names.TheVariants.{Utf8};
ghost use Rattle.rw_kept_log.specs.Additions.{samples_of_labels};
ghost use Rattle.rw_head.specs.declared.verdict.Verdict.TheVariants.{Stored};
ghost use Rattle.rw_head.specs.Placed.{one_sample};
ghost use Rattle.rw_head.specs.Store.{list_of};
ghost use Rattle.rw_kept_head.specs.Admitted.{MayHold, IsRefusedAt, label_limits};
ghost use Rattle.rw_kept_head.specs.inner.Noting.{AreNames};
ghost use Rattle.rw_kept_head.specs.inner.Restoring.{accepted_next, AddsOne, AddsTo, Defines, TakesSample, IsRestored, IsRestoredOrRefused, IsSeriesOf, HasPlace, ArePlaced};

use crate::oddities::Oddities;
use crate::reading_memory::{KeepFor, ReadingMemory, let_go, let_go_at_end};
use indexmap::IndexMap;
use rw_head::{Head, Limits, Memory, PlacedHead, Verdict};
use rw_history::History;
use rw_types::{Entry, LabelFault, LabelSet, Names, RawLabels, Word, utf8_takes_any_name};
use rw_wal_tail::Taker;
use rw_write_request::Series;
use std::alloc::{AllocError, Global};
use std::marker::Model;

/// Returns a copy of labels.
fn copy_of(alloc: Global, labels: &[(String, String)]) -> Result<Vec<(String, String)>, AllocError>
    ensures { IfOk result (λ v. map text_label v.items ≡ map text_label labels.now) }
{
    let mut copy = Vec::with_capacity(alloc, labels.len())?;
    for (name, value) in labels {
        copy.push((name.clone()?, value.clone()?))?;
    }
    Ok(copy)
}

/// Returns a series with these labels and no samples; `None` if they are not a label set.
fn empty_series(alloc: Global, labels: &RawLabels) -> Result<Option<Series>, AllocError>
    ensures { IfOk result (IsSeriesOf Utf8 labels.now) }
{
    let set = match LabelSet::check_as(alloc, Names::Utf8, labels) {
        Ok(set) => set,
        Err(LabelFault::OutOfMemory) => return Err(AllocError),
        Err(_) => return Ok(None),
    };
    let labels = copy_of(alloc, set.as_slice())?;
    Ok(Some(Series {
        labels,
        samples: Vec::new(alloc),
    }))
}

/// Gives a series this sample in place of those that it has.
fn set_sample(series: &mut Series, t: i64, word: Word) -> Result<(), AllocError>
    ensures { OnOk result (series.new
        ≡ record { labels = series.old.labels; samples = (word, t) ∷ [] }) }
{
    series.samples.clear();
    series.samples.push((word, t))?;
    Ok(())
}

/// Returns whether a message of one sample was taken, and the sample is new.
fn is_new(verdict: Verdict) -> bool
    ensures one { result ≡ true → verdict ≡ Stored 1 }
    ensures other { result ≡ false → verdict ≢ Stored 1 }
{
    match verdict {
        Verdict::Stored(count) => count == 1,
        _ => false,
    }
}

/// Appends the one sample of a series to what a head holds, and returns whether it did. A sample
/// that the head holds already, or refuses, is not appended.
fn append_series<M: Memory>(head: &mut PlacedHead<M>, series: &Series) -> Result<bool, AllocError>
    ensures done { IfOk result (AddsOne head.old.head.limits head.old.head.store
        head.new.head.store (series.now ∷ [])) }
    ensures held { OnOk result (MayHold head.old.head.limits (list_of head.old.head.store)
        → MayHold head.old.head.limits (list_of head.new.head.store)) }
    ensures limits { head.new.head.limits ≡ head.old.head.limits }
    ensures busy { head.new.head.busy ≡ head.old.head.busy }
    ensures places { Begins head.old.places head.new.places }
{
    match head.apply(series) {
        Verdict::NoMemory => Err(AllocError),
        verdict => Ok(is_new(verdict)),
    }
}

/// Appends a sample of the label set at a place, as `append_series` does.
fn append_at<M: Memory>(
    head: &mut PlacedHead<M>,
    place: usize,
    sample: (i64, Word),
) -> Result<bool, AllocError>
    requires { place < length head.old.places }
    ensures done { IfOk result (AddsOne head.old.head.limits head.old.head.store
        head.new.head.store
        (one_sample (slice_index_or head.old.places place []) sample.0 sample.1)) }
    ensures held { OnOk result (MayHold head.old.head.limits (list_of head.old.head.store)
        → MayHold head.old.head.limits (list_of head.new.head.store)) }
    ensures limits { head.new.head.limits ≡ head.old.head.limits }
    ensures busy { head.new.head.busy ≡ head.old.head.busy }
    ensures places { Begins head.old.places head.new.places }
{
    match head.apply_at(place, sample.0, sample.1) {
        Verdict::NoMemory => Err(AllocError),
        verdict => Ok(is_new(verdict)),
    }
}

/// Returns the place that is noted of a reference.
fn place_of(places: &IndexMap<u64, Option<usize>>, reference: u64) -> Option<usize>
    ensures { IfSome result (λ n. get nat_eq places.now reference ≡ Some (Some n)) }
{
    match places.get(&reference) {
        Some(place) => *place,
        None => None,
    }
}

/// Takes a definition, and returns whether the reference had none. If its labels are not a label
/// set, no head can hold samples of the reference. Nothing is noted of its place.
fn define(
    alloc: Global,
    series: &mut IndexMap<u64, Option<Series>>,
    places: &mut IndexMap<u64, Option<usize>>,
    reference: u64,
    labels: &RawLabels,
) -> Result<bool, AllocError>
    ensures defined { OnOk result (Defines Utf8 (λ n. get nat_eq series.old n)
        (λ n. get nat_eq series.new n) reference labels.now) }
    ensures places { OnOk result ((names : List Labels) → ArePlaced (λ n. get nat_eq places.old n)
        (λ n. get nat_eq series.old n) names
        → ArePlaced (λ n. get nat_eq places.new n) (λ n. get nat_eq series.new n) names) }
{
    let found = empty_series(alloc, labels)?;
    places.insert(reference, None)?;
    let before = series.insert(reference, found)?;
    Ok(before.is_none())
}

/// Takes a sample of a reference of which this series is noted, and returns whether the head
/// appended it, and the place of the label set if it is known. Without a series the head cannot
/// hold it.
fn add_to<M: Memory>(
    head: &mut PlacedHead<M>,
    known: &mut Option<Series>,
    sample: (i64, Word),
) -> Result<(bool, Option<usize>), AllocError>
    ensures done { IfOk result (λ x. AddsTo head.old.head.limits head.old.head.store
        head.new.head.store known.old known.new sample x.0) }
    ensures place { IfOk result (λ x.
        HasPlace (Some x.1) (Some known.new) head.new.places) }
    ensures held { OnOk result (MayHold head.old.head.limits (list_of head.old.head.store)
        → MayHold head.old.head.limits (list_of head.new.head.store)) }
    ensures limits { head.new.head.limits ≡ head.old.head.limits }
    ensures busy { head.new.head.busy ≡ head.old.head.busy }
    ensures places { Begins head.old.places head.new.places }
{
    let Some(mut found) = known.take() else {
        return Ok((false, None));
    };
    set_sample(&mut found, sample.0, sample.1)?;
    let done = append_series(head, &found)?;
    let place = head.place_of(&found.labels);
    *known = Some(found);
    Ok((done, place))
}

/// Takes a sample of a reference whose place is not known, and returns whether the head appended
/// it. The place is then noted. A sample without a definition is passed over.
fn add_first<M: Memory>(
    head: &mut PlacedHead<M>,
    series: &mut IndexMap<u64, Option<Series>>,
    places: &mut IndexMap<u64, Option<usize>>,
    oddities: &mut Oddities,
    reference: u64,
    sample: (i64, Word),
) -> Result<bool, AllocError>
    ensures done { IfOk result (TakesSample head.old.head.limits head.old.head.store
        head.new.head.store (λ n. get nat_eq series.old n) (λ n. get nat_eq series.new n)
        reference sample) }
    ensures held { OnOk result (MayHold head.old.head.limits (list_of head.old.head.store)
        → MayHold head.old.head.limits (list_of head.new.head.store)) }
    ensures limits { head.new.head.limits ≡ head.old.head.limits }
    ensures busy { head.new.head.busy ≡ head.old.head.busy }
    ensures places { OnOk result (ArePlaced (λ n. get nat_eq places.old n)
        (λ n. get nat_eq series.old n) head.old.places
        → ArePlaced (λ n. get nat_eq places.new n) (λ n. get nat_eq series.new n)
        head.new.places) }
{
    utf8_takes_any_name();
    match series.get_mut(&reference) {
        Some(known) => {
            let (done, place) = add_to(head, known, sample)?;
            places.insert(reference, place)?;
            Ok(done)
        }
        None => {
            oddities.pass_over();
            Ok(true)
        }
    }
}

/// Takes a sample, and returns whether the head appended it. If the place of its label set is
/// known, its labels are not looked at.
fn add_sample<M: Memory>(
    head: &mut PlacedHead<M>,
    series: &mut IndexMap<u64, Option<Series>>,
    places: &mut IndexMap<u64, Option<usize>>,
    oddities: &mut Oddities,
    reference: u64,
    sample: (i64, Word),
) -> Result<bool, AllocError>
    requires { ArePlaced (λ n. get nat_eq places.old n) (λ n. get nat_eq series.old n)
        head.old.places }
    ensures done { IfOk result (TakesSample head.old.head.limits head.old.head.store
        head.new.head.store (λ n. get nat_eq series.old n) (λ n. get nat_eq series.new n)
        reference sample) }
    ensures held { OnOk result (MayHold head.old.head.limits (list_of head.old.head.store)
        → MayHold head.old.head.limits (list_of head.new.head.store)) }
    ensures limits { head.new.head.limits ≡ head.old.head.limits }
    ensures busy { head.new.head.busy ≡ head.old.head.busy }
    ensures places { OnOk result (ArePlaced (λ n. get nat_eq places.new n)
        (λ n. get nat_eq series.new n) head.new.places) }
{
    match place_of(places, reference) {
        Some(place) => {
            let done = append_at(head, place, sample)?;
            Ok(done)
        }
        None => {
            let done = add_first(head, series, places, oddities, reference, sample)?;
            Ok(done)
        }
    }
}

/// Takes an entry, and returns whether a head like this one could be given it.
fn take_entry<M: Memory>(
    alloc: Global,
    head: &mut PlacedHead<M>,
    series: &mut IndexMap<u64, Option<Series>>,
    places: &mut IndexMap<u64, Option<usize>>,
    oddities: &mut Oddities,
    entry: &Entry,
) -> Result<bool, AllocError>
    requires { ArePlaced (λ n. get nat_eq places.old n) (λ n. get nat_eq series.old n)
        head.old.places }
    ensures done { IfOk result (λ done. (taken : List Entry)
        → IsRestored Utf8 taken (λ n. get nat_eq series.old n) head.old.head.store
        → IsRestoredOrRefused head.old.head.limits (taken ++ entry.now ∷ [])
        (λ n. get nat_eq series.new n) head.new.head.store done) }
    ensures held { OnOk result (MayHold head.old.head.limits (list_of head.old.head.store)
        → MayHold head.old.head.limits (list_of head.new.head.store)) }
    ensures limits { head.new.head.limits ≡ head.old.head.limits }
    ensures busy { head.new.head.busy ≡ head.old.head.busy }
    ensures places { OnOk result (ArePlaced (λ n. get nat_eq places.new n)
        (λ n. get nat_eq series.new n) head.new.places) }
{
    match entry {
        Entry::Def { reference, labels } => {
            let first = define(alloc, series, places, *reference, labels)?;
            oddities.count_definition(first);
            Ok(true)
        }
        Entry::Sample { reference, t, word } => {
            let sample = (*t, *word);
            let done = add_sample(head, series, places, oddities, *reference, sample)?;
            Ok(done)
        }
    }
}

/// Returns whether an entry was refused, with one more that was `done` or not.
fn is_refused(before: bool, done: bool) -> bool
    ensures { result ≡ (before || not done) }
{
    before || !done
}

/// Returns how many entries are accepted with one more, unless one was refused.
fn count_accepted(accepted: u64, refused: bool) -> u64
    ensures { result ≡ accepted_next accepted refused }
{
    if refused {
        accepted
    } else {
        accepted.saturating_add(1)
    }
}

/// What the entries of a log say: the head, the series of each reference, and what is odd of them.
#[derive(Drop)]
pub(crate) struct RestoredParts<M: Memory> {
    pub(crate) head: Head<M>,
    pub(crate) series: IndexMap<u64, Option<Series>>,
    pub(crate) oddities: Oddities,
}

/// Makes the head that a log says, as its entries come. Contracts see the entries, what the head
/// holds, whether an entry was refused, and whether memory ran out.
#[derive(Drop)]
pub(crate) struct Restoring<M: Memory> {
    alloc: Global,
    taken: History<Entry>,
    head: PlacedHead<M>,
    series: IndexMap<u64, Option<Series>>,
    /// The places in the head of the label sets of which samples came.
    places: IndexMap<u64, Option<usize>>,
    memory: ReadingMemory,
    oddities: Oddities,
    /// How many entries came before the first one that was refused.
    accepted: u64,
    /// Whether there is an entry that no head like this one was given.
    refused: bool,
    /// Whether memory ran out while an entry was taken.
    failed: bool,
}

impl<M: Memory> Model for Restoring<M> {
    ghost use Rattle.std.specs.Prelude.{◌≡◌, false, nat_eq};
    ghost use Rattle.std.specs.Coded.{codes};
    ghost use Rattle.std.specs.FinMap as map;
    ghost use Rattle.std.specs.HashMap.{get};
    ghost use Rattle.rw_kept_head.specs.inner.Restoring.{Restored, IsRestoring, ArePlaced};

    ghost Value = { Restored };

    ghost coded = { Prim.hlevel (codes, map.code) };

    ghost view = { λ r. record {
      taken = r.taken;
      head = r.head.head;
      accepted = r.accepted;
      refused = r.refused;
      failed = r.failed;
    } };

    ghost invariant = { λ r. r.failed ≡ false
        → IsRestoring r.taken (λ n. get nat_eq r.series n) r.head.head r.accepted r.refused
        × ArePlaced (λ n. get nat_eq r.places n) (λ n. get nat_eq r.series n) r.head.places };
}

impl<M: Memory> Restoring<M> {
    /// Begins with a head without samples, with these limits. If it may forget, samples stay in
    /// memory for as long as is said.
    pub(crate) fn new(alloc: Global, limits: &Limits, keep: Option<KeepFor>) -> Restoring<M>
        ensures taken { result.taken ≡ [] }
        ensures limits { result.head.limits ≡ label_limits limits.now }
        ensures busy { result.head.busy ≡ limits.now.busy_first }
        ensures whole { result.failed ≡ false }
    {
        Restoring {
            alloc,
            taken: History::new(),
            head: PlacedHead::new(alloc, limits),
            series: IndexMap::new(alloc),
            places: IndexMap::new(alloc),
            memory: ReadingMemory::new(keep),
            oddities: Oddities::none(),
            accepted: 0,
            refused: false,
            failed: false,
        }
    }

    /// Returns how many entries came before the first one that was refused.
    pub(crate) fn accepted(&self) -> u64
        ensures { result ≡ self.now.accepted }
    {
        self.accepted
    }

    /// Returns what the entries say; `None` if one of them was refused.
    pub(crate) fn into_parts(self) -> Option<RestoredParts<M>>
        requires whole { self.failed ≡ false }
        ensures says { IfSome result (λ p. (l : Labels)
            → list_of p.head.store l ≡ samples_of_labels self.taken l) }
        ensures holds { IfSome result (λ p. MayHold p.head.limits (list_of p.head.store)) }
        ensures same { IfSome result (λ p. p.head ≡ self.head) }
        ensures known { IfSome result (λ p. AreNames self.taken p.series.entries) }
        ensures refused { result ≡ None → MayHold self.head.limits (samples_of_labels self.taken)
            → ⊥ }
        ensures first { result ≡ None → IsRefusedAt self.head.limits self.taken self.accepted }
    {
        let Restoring {
            alloc: _,
            taken: _,
            head,
            series,
            places: _,
            memory,
            oddities,
            accepted: _,
            refused,
            failed: _,
        } = self;
        if refused {
            return None;
        }
        let mut head = head.into_head();
        let_go_at_end(&memory, &mut head);
        Some(RestoredParts {
            head,
            series,
            oddities,
        })
    }
}

impl<M: Memory> Taker for Restoring<M> {
    ghost use Rattle.rw_kept_head.specs.inner.Restoring.{Setting};

    ghost taken = { λ r. r.taken };

    ghost Fixed = { Setting };

    ghost fixed = { λ r. record {
      limits = r.head.limits;
      busy = r.head.busy;
      failed = r.failed;
    } };

    fn take(&mut self, entry: Entry) -> Result<(), AllocError> {
        if self.failed {
            return Err(AllocError);
        }
        self.failed = true;
        let done = take_entry(
            self.alloc,
            &mut self.head,
            &mut self.series,
            &mut self.places,
            &mut self.oddities,
            &entry,
        )?;
        let_go(&mut self.memory, &mut self.head, &entry);
        self.taken.push(&entry);
        self.refused = is_refused(self.refused, done);
        self.accepted = count_accepted(self.accepted, self.refused);
        self.failed = false;
        Ok(())
    }
}

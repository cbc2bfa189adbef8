//! The lists of all label sets, and what a message would make of them.

ghost use Rattle.std.specs.Prelude.{◌≡◌, ◌≢◌, ◌↔◌, ◌+◌, ◌-◌, ◌^◌, ◌<◌, ◌≤◌, [], ℕ, length, true, false, None, Some, IsTrue, IfOk, OnErr, IfSome, map, slice_index_or, slice_set, vec_len, vec_capacity};
ghost use Rattle.rw_types.specs.Beginnings.{Begins};
ghost use Rattle.rw_types.specs.Labels.{text_label};
ghost use Rattle.std.specs.BTreeMap.{get};
ghost use Rattle.std.specs.FinMap.{empty};
ghost use Rattle.rw_head.specs.declared.verdict.Verdict.TheVariants.{NoMemory};
ghost use Rattle.rw_head.specs.Order.{points, accept};
ghost use Rattle.rw_head.specs.Placed.{IsPlaced};
ghost use Rattle.rw_head.specs.Store.{list_of, total, label_sets, held_series, AreListsOf, HasNoEmptyList};
ghost use Rattle.rw_head.specs.Verdicts.{LabelLimits, accepted, taken};
ghost use Rattle.rw_head.specs.inner.Bodies.{known_of, KnownGives};
ghost use Rattle.rw_write_request.specs.Read.{read_series};
ghost use Rattle.rw_head.specs.inner.Growth.{HoldsNoneRefused};
ghost use Rattle.rw_head.specs.inner.Texts.{labels_of};
ghost use Rattle.rw_head.specs.Blocks.{sealed_of};
ghost use Rattle.rw_head.specs.inner.Blocks.{open_of};
ghost use Rattle.rw_head.specs.Added.{AddsUp};
ghost use Rattle.rw_head.specs.Capacity.{exceeds, is_above, unlimited};
ghost use Rattle.rw_head.specs.Lists.{no_lists};
ghost use Rattle.rw_head.specs.inner.Lists.{more_count, note_of, AllSettled, Settled, IsStagedAt, ListGives, StoreGives};

use crate::added::AllAdded;
use crate::block::Block;
use crate::capacity::Capacity;
use crate::in_memory::InMemory;
use crate::label_bounds::{LabelBounds, Texts};
use crate::name::Name;
use crate::places::{Entered, Found, Places, put};
use crate::sample_list::SampleList;
use crate::series::AllSeries;
use crate::verdict::Verdict;
use rw_types::{LabelSet, Word};
use rw_write_request::{Series, read_samples};
use std::alloc::{AllocError, Global};
use std::marker::Model;

/// How many samples all lists may have together.
const MOST_SAMPLES: u64 = 1 << 60;

/// A list of samples for each label set that has some. Those of a message that is not judged yet
/// are staged, and then kept or forgotten together, with the label sets that the message brought.
/// Contracts see the store that is kept, the store that it is with what is staged, what is staged
/// of each label set, how many places and label sets are noted for the message, and whether samples
/// may be gone from memory.
#[derive(Debug, Drop)]
pub(crate) struct Table {
    places: Places,
    lists: Vec<SampleList>,
    touched: Vec<usize>,
    fresh: Vec<Name>,
    count: u64,
    staged_count: u64,
    samples: Vec<(Word, i64)>,
    forgets: bool,
}

impl Model for Table {
    ghost use Rattle.std.specs.Prelude.{◌≡◌, ◌+◌, length};
    ghost use Rattle.std.specs.Coded.{codes};
    ghost use Rattle.std.specs.FinMap as map;
    ghost use Rattle.rw_head.specs.Lists.{added_of};
    ghost use Rattle.rw_head.specs.inner.Forgetting.{AreListed};
    ghost use Rattle.rw_head.specs.inner.Lists.{Stores, kept_store, staged_store, settled_names, IsSound};

    ghost Value = { Stores };

    ghost coded = { Prim.hlevel (codes, map.code) };

    ghost view = { λ t. record {
      kept = kept_store t.places.tree.entries t.lists.items;
      staged = staged_store t.places.tree.entries t.lists.items;
      added = added_of t.places.names.items t.lists.items t.touched.items;
      noted = length t.touched.items + length t.fresh.items;
      placed = settled_names t.places.names.items t.fresh.items;
      forgets = t.forgets;
    } };

    ghost invariant = { λ t. IsSound t.places.tree t.lists.items t.touched.items t.fresh.items
        t.count t.staged_count × AreListed (length t.places.names.items) t.forgets t.lists.items };
}

/// Returns whether there is room for `more` samples beside `count`.
fn has_room(count: u64, more: usize) -> bool
    requires { count ≤ 2 ^ 60 }
    ensures { IsTrue result ↔ (count + more ≤ 2 ^ 60) }
{
    more as u64 <= MOST_SAMPLES - count
}

/// Stages samples in the list at a place.
fn stage_at(
    lists: &mut Vec<SampleList>,
    place: usize,
    samples: &[(Word, i64)],
) -> Result<(), Verdict>
    requires place { place < length lists.old.items }
    requires room { length (slice_index_or lists.old.items place no_lists).staged
        + length samples.now ≤ 2 ^ 60 }
    ensures list { lists.new.items
        ≡ slice_set lists.old.items place (slice_index_or lists.new.items place no_lists) }
    ensures gone { (slice_index_or lists.new.items place no_lists).gone
        ≡ (slice_index_or lists.old.items place no_lists).gone }
    ensures kept { (slice_index_or lists.new.items place no_lists).kept
        ≡ (slice_index_or lists.old.items place no_lists).kept }
    ensures staged { ListGives result
        (accept (Some (slice_index_or lists.old.items place no_lists).staged)
        (points samples.now)) (slice_index_or lists.new.items place no_lists).staged }
    ensures grown { length (slice_index_or lists.old.items place no_lists).staged
        ≤ length (slice_index_or lists.new.items place no_lists).staged }
    ensures few { length (slice_index_or lists.new.items place no_lists).staged
        ≤ length (slice_index_or lists.old.items place no_lists).staged + length samples.now }
    ensures same { length samples.now ≤ 1
        → OnErr result ((slice_index_or lists.new.items place no_lists).staged
        ≡ (slice_index_or lists.old.items place no_lists).staged) }
{
    lists[place].stage_all(samples)
}

/// Returns how many samples are staged in the list at a place.
fn staged_count(lists: &[SampleList], place: usize) -> usize
    requires { place < length lists.now }
    ensures count { result ≡ more_count (slice_index_or lists.now place no_lists) }
    ensures begun { Begins (slice_index_or lists.now place no_lists).kept
        (slice_index_or lists.now place no_lists).staged }
    ensures more { length (slice_index_or lists.now place no_lists).kept
        ≤ length (slice_index_or lists.now place no_lists).staged }
{
    lists[place].staged_count()
}

/// Notes a place, if its list had no staged samples before a series and has some after it.
fn note(touched: &mut Vec<usize>, place: usize, before: usize, after: usize)
    requires { vec_len touched.old < vec_capacity touched.old }
    ensures { touched.new.items ≡ note_of touched.old.items place before after }
{
    if before == 0 && after != 0 {
        put(touched, place);
    }
}

/// Stages the samples of a label set that has a place, counts them and notes the place.
fn stage_held(
    lists: &mut Vec<SampleList>,
    touched: &mut Vec<usize>,
    count: &mut u64,
    place: usize,
    samples: &[(Word, i64)],
) -> Result<(), Verdict>
    requires place { place < length lists.old.items }
    requires room { length (slice_index_or lists.old.items place no_lists).staged
        + length samples.now ≤ 2 ^ 60 }
    requires most { count.old + length samples.now ≤ 2 ^ 60 }
    requires next { vec_len touched.old < vec_capacity touched.old }
    ensures held { IsStagedAt lists.old.items lists.new.items touched.old.items touched.new.items
        count.old count.new place }
    ensures staged { ListGives result
        (accept (Some (slice_index_or lists.old.items place no_lists).staged)
        (points samples.now)) (slice_index_or lists.new.items place no_lists).staged }
    ensures few { count.new ≤ count.old + length samples.now }
    ensures same { length samples.now ≤ 1
        → OnErr result ((slice_index_or lists.new.items place no_lists).staged
        ≡ (slice_index_or lists.old.items place no_lists).staged) }
{
    let before = staged_count(lists, place);
    let outcome = stage_at(lists, place, samples);
    let after = staged_count(lists, place);
    *count += (after - before) as u64;
    note(touched, place, before, after);
    outcome
}

/// Keeps what is staged in the lists at these places.
fn commit_all(lists: &mut Vec<SampleList>, touched: &[usize])
    requires { Settled touched.now lists.old.items }
    ensures len { length lists.new.items ≡ length lists.old.items }
    ensures kept { (n : ℕ) → n < length lists.new.items
        → (slice_index_or lists.new.items n no_lists).kept
        ≡ (slice_index_or lists.new.items n no_lists).staged }
    ensures staged { (n : ℕ) → (slice_index_or lists.new.items n no_lists).staged
        ≡ (slice_index_or lists.old.items n no_lists).staged }
    ensures gone { (n : ℕ) → (slice_index_or lists.new.items n no_lists).gone
        ≡ (slice_index_or lists.old.items n no_lists).gone }
{
    for place in touched {
        lists[*place].commit();
    }
}

/// Forgets what is staged in the lists at these places.
fn abort_all(lists: &mut Vec<SampleList>, touched: &[usize])
    requires { Settled touched.now lists.old.items }
    ensures len { length lists.new.items ≡ length lists.old.items }
    ensures staged { (n : ℕ) → n < length lists.new.items
        → (slice_index_or lists.new.items n no_lists).kept
        ≡ (slice_index_or lists.new.items n no_lists).staged }
    ensures kept { (n : ℕ) → (slice_index_or lists.new.items n no_lists).kept
        ≡ (slice_index_or lists.old.items n no_lists).kept }
    ensures gone { (n : ℕ) → (slice_index_or lists.new.items n no_lists).gone
        ≡ (slice_index_or lists.old.items n no_lists).gone }
{
    for place in touched {
        lists[*place].abort();
    }
}

/// Lets samples go that are earlier than `before`, as `SampleList::forget` does, and returns what
/// is left in memory.
fn forget_all(lists: &mut Vec<SampleList>, before: i64) -> InMemory
    requires { AllSettled lists.old.items }
    ensures len { length lists.new.items ≡ length lists.old.items }
    ensures kept { (n : ℕ) → (slice_index_or lists.new.items n no_lists).kept
        ≡ (slice_index_or lists.old.items n no_lists).kept }
    ensures staged { (n : ℕ) → (slice_index_or lists.new.items n no_lists).staged
        ≡ (slice_index_or lists.old.items n no_lists).staged }
{
    let mut memory = InMemory::none();
    for place in 0..lists.len() {
        lists[place].forget(before);
        memory.add(&mut lists[place]);
    }
    memory
}

/// Returns `Ok(true)` for a known series, or why it is refused.
fn was_known(outcome: Result<(), Verdict>) -> Result<bool, Verdict>
    ensures { result ≡ known_of outcome }
{
    match outcome {
        Ok(()) => Ok(true),
        Err(verdict) => Err(verdict),
    }
}

/// Returns whether a count grew and is above its limit.
fn is_above(limit: u64, before: u64, after: u64) -> bool
    ensures above { result ≡ is_above limit before after }
    ensures limited { IsTrue result → limit ≢ 2 ^ 64 - 1 }
{
    before < after && limit < after
}

impl Table {
    /// Returns a table without samples. This takes no memory.
    pub(crate) fn new(alloc: Global, forgets: bool) -> Table
        ensures { result ≡ record {
          kept = empty;
          staged = empty;
          added = [];
          noted = 0;
          placed = [];
          forgets = forgets;
        } }
    {
        Table {
            places: Places::new(alloc),
            lists: Vec::new(alloc),
            touched: Vec::new(alloc),
            fresh: Vec::new(alloc),
            count: 0,
            staged_count: 0,
            samples: Vec::new(alloc),
            forgets,
        }
    }

    /// Returns the allocator of the lists.
    pub(crate) fn allocator(&self) -> Global {
        *self.lists.allocator()
    }

    /// Returns how many samples are kept.
    pub(crate) fn total(&self) -> u64
        ensures { result ≡ total self.now.kept }
    {
        self.count
    }

    /// Stages samples of a label set that the head takes, one after the other, up to the first that
    /// is refused.
    fn stage_named(
        &mut self,
        alloc: Global,
        name: Name,
        samples: &[(Word, i64)],
    ) -> Result<(), Verdict>
        requires some { 0 < length samples.now }
        requires room { total self.old.staged + length samples.now ≤ 2 ^ 60 }
        ensures kept { self.new.kept ≡ self.old.kept }
        ensures staged { StoreGives result
            (accepted name self.old.staged
            (accept (Some (list_of self.old.staged name)) (points samples.now))) self.new.staged }
        ensures same { length samples.now ≤ 1
            → OnErr result (self.new.staged ≡ self.old.staged) }
        ensures placed { self.new.placed ≡ self.old.placed }
        ensures forgets { self.new.forgets ≡ self.old.forgets }
    {
        self.lists.reserve(1)?;
        self.touched.reserve(1)?;
        self.fresh.reserve(1)?;
        let share = name.share()?;
        match self.places.enter(alloc, name, samples)? {
            Entered::Had(place) => stage_held(
                &mut self.lists,
                &mut self.touched,
                &mut self.staged_count,
                place,
                samples,
            ),
            Entered::New(list) => {
                self.staged_count += list.staged_len() as u64;
                put(&mut self.touched, self.lists.len());
                put(&mut self.lists, list);
                put(&mut self.fresh, share);
                Ok(())
            }
        }
    }

    /// Stages a series: its labels are judged, and then its samples, one after the other, up to the
    /// first that is refused. If that is the only one, nothing changes.
    pub(crate) fn stage(
        &mut self,
        bounds: &LabelBounds,
        texts: Texts<'_>,
        samples: &[(Word, i64)],
    ) -> Result<(), Verdict>
        requires { HoldsNoneRefused bounds.now self.old.staged }
        ensures kept { self.new.kept ≡ self.old.kept }
        ensures staged { StoreGives result (taken bounds.now self.old.staged
            (record { labels = labels_of texts.entry; samples = samples.now })) self.new.staged }
        ensures same { length samples.now ≤ 1
            → OnErr result (self.new.staged ≡ self.old.staged) }
        ensures placed { self.new.placed ≡ self.old.placed }
        ensures forgets { self.new.forgets ≡ self.old.forgets }
    {
        let alloc = *self.lists.allocator();
        if samples.is_empty() {
            return bounds.judge(alloc, texts);
        }
        let found = self.places.find(alloc, bounds, texts)?;
        if !has_room(self.count + self.staged_count, samples.len()) {
            return Err(Verdict::NoMemory);
        }
        match found {
            Found::At(place) => {
                self.touched.reserve(1)?;
                stage_held(
                    &mut self.lists,
                    &mut self.touched,
                    &mut self.staged_count,
                    place,
                    samples,
                )
            }
            Found::Named(name) => self.stage_named(alloc, name, samples),
        }
    }

    /// Stages a series that the caller keeps, as `stage` does.
    pub(crate) fn stage_lent(
        &mut self,
        bounds: &LabelBounds,
        series: &Series,
    ) -> Result<(), Verdict>
        requires { HoldsNoneRefused bounds.now self.old.staged }
        ensures kept { self.new.kept ≡ self.old.kept }
        ensures staged { StoreGives result
            (taken bounds.now self.old.staged series.now) self.new.staged }
        ensures placed { self.new.placed ≡ self.old.placed }
        ensures forgets { self.new.forgets ≡ self.old.forgets }
    {
        self.stage(bounds, Texts::Lent(&series.labels), &series.samples)
    }

    /// Stages samples of the label set at this place, without a look at its labels.
    pub(crate) fn stage_placed(
        &mut self,
        place: usize,
        samples: &[(Word, i64)],
    ) -> Result<(), Verdict>
        requires { place < length self.old.placed }
        ensures kept { self.new.kept ≡ self.old.kept }
        ensures staged { (limits : LabelLimits) → HoldsNoneRefused limits self.old.staged
            → StoreGives result (taken limits self.old.staged (record {
              labels = slice_index_or self.old.placed place [];
              samples = samples.now;
            }))
            self.new.staged }
        ensures placed { self.new.placed ≡ self.old.placed }
        ensures forgets { self.new.forgets ≡ self.old.forgets }
    {
        if !has_room(self.count + self.staged_count, samples.len()) {
            return Err(Verdict::NoMemory);
        }
        self.touched.reserve(1)?;
        stage_held(
            &mut self.lists,
            &mut self.touched,
            &mut self.staged_count,
            place,
            samples,
        )
    }

    /// Returns the place of the series that was staged last, if it is that of the label set with
    /// these texts. This takes no memory.
    pub(crate) fn last_place(&self, texts: &[(String, String)]) -> Option<usize>
        requires { self.now.noted ≡ 0 }
        ensures { IfSome result (λ n. IsPlaced n (map text_label texts.now) self.now.placed) }
    {
        self.places.last(texts)
    }

    /// Stages a series from its bytes, if they begin with the head of the label set that is
    /// expected next, and returns whether they do. Its labels were judged when they came.
    pub(crate) fn stage_known(&mut self, bytes: &[u8]) -> Result<bool, Verdict>
        ensures kept { self.new.kept ≡ self.old.kept }
        ensures staged { (limits : LabelLimits) → HoldsNoneRefused limits self.old.staged
            → KnownGives result limits self.old.staged (read_series bytes.now) self.new.staged }
        ensures forgets { self.new.forgets ≡ self.old.forgets }
    {
        let Some((place, rest)) = self.places.known(bytes) else {
            return Ok(false);
        };
        if !read_samples(&mut self.samples, rest)? {
            return Ok(false);
        }
        if !has_room(self.count + self.staged_count, self.samples.len()) {
            return Err(Verdict::NoMemory);
        }
        self.touched.reserve(1)?;
        was_known(stage_held(
            &mut self.lists,
            &mut self.touched,
            &mut self.staged_count,
            place,
            &self.samples,
        ))
    }

    /// Keeps the head of the series that was staged last, for the next time. It may do nothing.
    pub(crate) fn learn(&mut self, bytes: &[u8])
        ensures { self.new ≡ self.old }
    {
        self.places.learn(bytes);
    }

    /// Returns whether what is staged would take the samples or the label sets above the capacity,
    /// if `places` label sets have a place without it.
    pub(crate) fn exceeds(&self, capacity: &Capacity, places: usize) -> bool
        requires { places ≡ length (label_sets self.now.kept) }
        ensures exceeds { result ≡ exceeds capacity.now self.now.kept self.now.staged }
        ensures limited { IsTrue result → capacity.now ≢ unlimited }
    {
        is_above(
            capacity.max_samples,
            self.count,
            self.count + self.staged_count,
        ) || is_above(capacity.max_series, places as u64, self.places() as u64)
    }

    /// Keeps what is staged, and returns how many samples that is. This takes no memory.
    pub(crate) fn commit(&mut self) -> u64
        ensures kept { self.new.kept ≡ self.old.staged }
        ensures staged { self.new.staged ≡ self.old.staged }
        ensures count { result ≡ total self.old.staged - total self.old.kept }
        ensures noted { self.new.noted ≡ 0 }
        ensures placed { Begins self.old.placed self.new.placed }
        ensures forgets { self.new.forgets ≡ self.old.forgets }
    {
        commit_all(&mut self.lists, &self.touched);
        self.touched.clear();
        self.fresh.clear();
        let count = self.staged_count;
        self.count += count;
        self.staged_count = 0;
        count
    }

    /// Forgets what is staged, with the label sets that came with it. This takes no memory.
    pub(crate) fn abort(&mut self)
        ensures kept { self.new.kept ≡ self.old.kept }
        ensures staged { self.new.staged ≡ self.old.kept }
        ensures noted { self.new.noted ≡ 0 }
        ensures placed { self.new.placed ≡ self.old.placed }
        ensures forgets { self.new.forgets ≡ self.old.forgets }
    {
        abort_all(&mut self.lists, &self.touched);
        let len = self.lists.len() - self.fresh.len();
        self.places.truncate(len);
        self.lists.truncate(len);
        self.touched.clear();
        self.fresh.clear();
        self.staged_count = 0;
    }

    /// Returns whether samples may be gone from memory.
    pub(crate) fn forgets(&self) -> bool
        ensures { result ≡ self.now.forgets }
    {
        self.forgets
    }

    /// Lets samples go that are earlier than `before`, if nothing is staged. To contracts they
    /// stay. Returns what is left in memory.
    pub(crate) fn forget(&mut self, before: i64) -> InMemory
        requires unnoted { self.old.noted ≡ 0 }
        requires forgets { self.old.forgets ≡ true }
        ensures { self.new ≡ self.old }
    {
        forget_all(&mut self.lists, before)
    }

    /// Returns how many label sets have a place.
    pub(crate) fn places(&self) -> usize
        ensures { result ≡ length (label_sets self.now.staged) }
    {
        self.places.len()
    }

    /// Returns a copy of the kept samples of a label set, if all are in memory.
    pub(crate) fn to_vec(
        &self,
        alloc: Global,
        labels: &LabelSet,
    ) -> Result<Vec<(i64, Word)>, AllocError>
        requires { self.now.forgets ≡ false }
        ensures { IfOk result (λ v. v.items ≡ list_of self.now.kept labels.now) }
    {
        match self.places.look(alloc, labels)? {
            Some(place) => self.lists[place].to_vec(alloc),
            None => Ok(Vec::new(alloc)),
        }
    }

    /// Returns the full blocks of a label set, if nothing is staged and all are in memory.
    pub(crate) fn sealed(&self, labels: &LabelSet) -> &[Box<Block>]
        requires settled { self.now.staged ≡ self.now.kept }
        requires whole { self.now.forgets ≡ false }
        ensures { map (λ b. b.value) result.now ≡ sealed_of (list_of self.now.kept labels.now) }
    {
        match self.places.get(labels) {
            Some(place) => self.lists[place].sealed(),
            None => &[],
        }
    }

    /// Returns the samples of a label set after its full blocks, if nothing is staged and all are
    /// in memory.
    pub(crate) fn open(&self, labels: &LabelSet) -> &[(i64, Word)]
        requires settled { self.now.staged ≡ self.now.kept }
        requires whole { self.now.forgets ≡ false }
        ensures samples { result.now ≡ open_of (list_of self.now.kept labels.now) }
        ensures few { length result.now < 120 }
    {
        match self.places.get(labels) {
            Some(place) => self.lists[place].open(),
            None => &[],
        }
    }

    /// Returns the label sets that have kept samples, in order, each with these, if all are in
    /// memory.
    pub(crate) fn series(&self) -> AllSeries<'_>
        requires { self.now.forgets ≡ false }
        ensures list { result ≡ held_series self.now.kept }
        ensures lists { AreListsOf self.now.kept result }
        ensures filled { HasNoEmptyList self.now.kept }
        ensures fits { length result < 2 ^ 63 }
    {
        AllSeries::new(self.places.iter(), self.lists.as_slice())
    }

    /// Returns what is staged, label set by label set. This takes no memory.
    pub(crate) fn added(&self) -> AllAdded<'_>
        ensures list { result ≡ self.now.added }
        ensures adds { AddsUp self.now.kept self.now.staged result }
    {
        AllAdded::new(
            self.touched.as_slice(),
            self.places.names(),
            self.lists.as_slice(),
        )
    }
}

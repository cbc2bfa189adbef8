//! The places of label sets.

ghost use Rattle.std.specs.Prelude.{◌≡◌, ◌≢◌, ◌+◌, map, take, ◌<◌, ◌≤◌, length, [], ◌^◌, ◌++◌, ◌∷◌, None, Some, IfOk, IfErr, IfSome, OnOk, OnErr, vec_len, vec_capacity};
ghost use Rattle.std.specs.List.{All};
ghost use Rattle.std.specs.BTreeMap.{get, IsOrdered};
ghost use Rattle.rw_types.specs.Labels.{Labels, text_label};
ghost use Rattle.rw_types.specs.LabelOrder.{labels_cmp};
ghost use Rattle.rw_head.specs.declared.verdict.Verdict.TheVariants.{NoMemory};
ghost use Rattle.rw_head.specs.Verdicts.{refusal};
ghost use Rattle.rw_head.specs.inner.Names.{below, AreNamed, HasNoneRefused};
ghost use Rattle.rw_head.specs.Order.{points};
ghost use Rattle.rw_head.specs.inner.Finds.{Finds, Enters, IsOutOfOrder, names_after};
ghost use Rattle.rw_head.specs.inner.Bodies.{IsKnown};
ghost use Rattle.rw_head.specs.inner.Texts.{labels_of};

use crate::label_bounds::{LabelBounds, Texts};
use crate::name::Name;
use crate::place::Place;
use crate::sample_list::SampleList;
use crate::verdict::Verdict;
use rw_types::{LabelSet, Word};
use std::alloc::{AllocError, Global};
use std::collections::btree_map::Entry;
use std::collections::{BTreeMap, btree_map};

/// How many samples are staged before it is known whether their label set has a place.
const FEW_SAMPLES: usize = 16;

/// The places of label sets: each has its own, in the order in which they came. For each it is
/// noted which one came after it the last time, and with which bytes a series of it began.
#[derive(Debug, Drop)]
pub(crate) struct Places {
    tree: BTreeMap<Name, usize>,
    names: Vec<Place>,
    after: Vec<usize>,
    last: usize,
    ghost named: { AreNamed tree names.items },
    ghost hinted: { length after.items ≡ length names.items },
}

/// Puts an item after the others, if there is room for it.
pub(crate) fn put<T: Drop>(items: &mut Vec<T>, item: T)
    requires { vec_len items.old < vec_capacity items.old }
    ensures { items.new.items ≡ items.old.items ++ item ∷ [] }
{
    match items.push(item) {
        Ok(()) => {}
        Err(_) => unreachable!(),
    }
}

/// What is known of a label set before its place is looked for in the map.
#[derive(Drop)]
pub(crate) enum Found {
    /// It has this place, which was expected.
    At(usize),
    /// This is a name for it. It may have a place.
    Named(Name),
}

/// What was found for a label set in the map.
#[derive(Drop)]
pub(crate) enum Entered {
    /// It had this place.
    Had(usize),
    /// It had none, and has the next one now. These are its samples, all of them staged.
    New(SampleList),
}

/// Returns the place of a label set. One that has none gets the next place, if its samples are
/// taken. They are staged before the map is searched, so that one search finds the place or where
/// it goes; if they are many, they are staged only if there is no place.
fn enter(
    tree: &mut BTreeMap<Name, usize>,
    name: Name,
    next: usize,
    alloc: Global,
    samples: &[(Word, i64)],
) -> Result<Entered, Verdict>
    requires { length samples.now ≤ 2 ^ 60 }
    ensures ok { IfOk result (λ e. Enters e tree.old tree.new name next (points samples.now)) }
    ensures tree { OnErr result (tree.new.entries ≡ tree.old.entries) }
    ensures err { IfErr result (λ v. v ≢ NoMemory
        → IsOutOfOrder v (get labels_cmp tree.old name) (points samples.now)) }
{
    if samples.len() > FEW_SAMPLES
        && let Some(place) = tree.get(&name)
    {
        return Ok(Entered::Had(*place));
    }
    match SampleList::of(alloc, samples) {
        Ok(list) => match tree.entry(name) {
            Err(_) => Err(Verdict::NoMemory),
            Ok(Entry::Occupied(entry)) => Ok(Entered::Had(*entry.get())),
            Ok(Entry::Vacant(entry)) => {
                entry.insert(next);
                Ok(Entered::New(list))
            }
        },
        Err(verdict) => match tree.get(&name) {
            Some(place) => Ok(Entered::Had(*place)),
            None => Err(verdict),
        },
    }
}

impl Places {
    /// Returns an empty list of places. This takes no memory.
    pub(crate) fn new(alloc: Global) -> Places
        ensures tree { result.tree.entries ≡ [] }
        ensures names { result.names.items ≡ [] }
    {
        Places {
            tree: BTreeMap::new(alloc),
            names: Vec::new(alloc),
            after: Vec::new(alloc),
            last: 0,
        }
    }

    /// Returns how many there are.
    pub(crate) fn len(&self) -> usize
        ensures len { result ≡ length self.now.tree.entries }
        ensures ordered { IsOrdered labels_cmp self.now.tree }
    {
        self.tree.len()
    }

    /// Returns the label sets at their places.
    pub(crate) fn names(&self) -> &[Place]
        ensures names { result.now ≡ self.now.names.items }
        ensures named { AreNamed self.now.tree result.now }
    {
        self.names.as_slice()
    }

    /// Returns this place, if it has the label set of these labels.
    fn if_at(&self, place: usize, texts: &[(String, String)]) -> Option<usize>
        ensures { IfSome result (λ n.
            get labels_cmp self.now.tree (map text_label texts.now) ≡ Some n) }
    {
        if place < self.names.len() && self.names[place].labels().as_slice() == texts {
            Some(place)
        } else {
            None
        }
    }

    /// Returns the place that is expected next, if it has the label set of these labels.
    fn expected(&self, texts: &[(String, String)]) -> Option<usize>
        ensures place { IfSome result (λ n.
            get labels_cmp self.now.tree (map text_label texts.now) ≡ Some n) }
    {
        let place = *self.after.get(self.last)?;
        self.if_at(place, texts)
    }

    /// Returns the place of the last series, if it has the label set of these labels.
    pub(crate) fn last(&self, texts: &[(String, String)]) -> Option<usize>
        ensures place { IfSome result (λ n.
            get labels_cmp self.now.tree (map text_label texts.now) ≡ Some n) }
    {
        self.if_at(self.last, texts)
    }

    /// Notes that the label set at a place came after the last one.
    fn follow(&mut self, place: usize)
        ensures tree { self.new.tree ≡ self.old.tree }
        ensures names { self.new.names.items ≡ self.old.names.items }
    {
        if let Some(after) = self.after.get_mut(self.last) {
            *after = place;
        }
        self.last = place;
    }

    /// Returns the place of the label set of these labels if it is the one that came after the last
    /// one the time before: then it was judged when it came, and this takes no memory. Otherwise
    /// judges the labels, and returns a name for their label set.
    pub(crate) fn find(
        &mut self,
        alloc: Global,
        bounds: &LabelBounds,
        texts: Texts<'_>,
    ) -> Result<Found, Verdict>
        requires { HasNoneRefused bounds.now self.old.tree }
        ensures tree { self.new.tree ≡ self.old.tree }
        ensures names { self.new.names.items ≡ self.old.names.items }
        ensures found { IfOk result
            (λ f. Finds f (labels_of texts.entry)
            (get labels_cmp self.old.tree (labels_of texts.entry))) }
        ensures taken { OnOk result (refusal bounds.now (labels_of texts.entry) ≡ None) }
        ensures err { IfErr result
            (λ v. v ≢ NoMemory → refusal bounds.now (labels_of texts.entry) ≡ Some v) }
    {
        if let Some(place) = self.expected(texts.as_slice()) {
            self.last = place;
            return Ok(Found::At(place));
        }
        let labels = bounds.take(alloc, texts)?;
        Ok(Found::Named(Name::of(alloc, labels)?))
    }

    /// Returns the place of a series and its bytes after the head, if it begins with the head of
    /// the label set that is expected next. This takes no memory.
    pub(crate) fn known<'a>(&mut self, series: &'a [u8]) -> Option<(usize, &'a [u8])>
        ensures tree { self.new.tree ≡ self.old.tree }
        ensures names { self.new.names.items ≡ self.old.names.items }
        ensures known { IfSome result (λ x. IsKnown self.old.tree series.now x.0 x.1.now) }
    {
        let place = *self.after.get(self.last)?;
        if place >= self.names.len() {
            return None;
        }
        let rest = self.names[place].behind_head(series)?;
        self.last = place;
        Some((place, rest))
    }

    /// Keeps the head of a series at the place of the last one, if it is a head of the label set
    /// there.
    pub(crate) fn learn(&mut self, series: &[u8])
        ensures tree { self.new.tree ≡ self.old.tree }
        ensures names { self.new.names.items ≡ self.old.names.items }
    {
        if let Some(place) = self.names.get_mut(self.last) {
            place.learn(series);
        }
    }

    /// Returns the place of a label set.
    pub(crate) fn look(&self, alloc: Global, labels: &LabelSet) -> Result<Option<usize>, AllocError>
        ensures { IfOk result (λ o. o ≡ get labels_cmp self.now.tree labels.now) }
    {
        let name = Name::copy_of(alloc, labels)?;
        Ok(self.tree.get(&name).copied())
    }

    /// Returns the place of a label set. This takes no memory, and time that grows with the number
    /// of places.
    pub(crate) fn get(&self, labels: &LabelSet) -> Option<usize>
        ensures { result ≡ get labels_cmp self.now.tree labels.now }
    {
        for (place, name) in self.names.iter().enumerate() {
            if name.labels() == labels {
                return Some(place);
            }
        }
        None
    }

    /// Returns the place of a label set. One that has none gets the next place, if its samples are
    /// taken: the map is searched once.
    pub(crate) fn enter(
        &mut self,
        alloc: Global,
        name: Name,
        samples: &[(Word, i64)],
    ) -> Result<Entered, Verdict>
        requires { length samples.now ≤ 2 ^ 60 }
        ensures ok { IfOk result (λ e. Enters e self.old.tree self.new.tree name
            (length self.old.names.items) (points samples.now)) }
        ensures names { IfOk result (λ e. self.new.names.items
            ≡ names_after e self.old.names.items name) }
        ensures tree { OnErr result (self.new.tree.entries ≡ self.old.tree.entries) }
        ensures err_names { OnErr result (self.new.names.items ≡ self.old.names.items) }
        ensures err { IfErr result (λ v. v ≢ NoMemory
            → IsOutOfOrder v (get labels_cmp self.old.tree name) (points samples.now)) }
    {
        self.names.reserve(1)?;
        self.after.reserve(1)?;
        let next = self.names.len();
        let share = name.share()?;
        match enter(&mut self.tree, share, next, alloc, samples)? {
            Entered::Had(place) => {
                self.follow(place);
                Ok(Entered::Had(place))
            }
            Entered::New(list) => {
                put(&mut self.names, Place::new(alloc, name));
                put(&mut self.after, 0);
                self.follow(next);
                Ok(Entered::New(list))
            }
        }
    }

    /// Removes the places from number `len` on.
    pub(crate) fn truncate(&mut self, len: usize)
        ensures below { (l : Labels)
            → get labels_cmp self.new.tree l ≡ below len (get labels_cmp self.old.tree l) }
        ensures names { self.new.names.items ≡ take len self.old.names.items }
    {
        while self.names.len() > len {
            if let Some(place) = self.names.pop() {
                let left = self.names.len();
                self.after.truncate(left);
                self.tree.remove(place.name());
            }
        }
    }

    /// Returns the label sets in order, with their places.
    pub(crate) fn iter(&self) -> btree_map::Iter<'_, Name, usize>
        ensures rest { result ≡ self.now.tree.entries }
        ensures ordered { IsOrdered labels_cmp self.now.tree }
        ensures fits { length self.now.tree.entries < 2 ^ 63 }
        ensures found { All
            (λ e. get labels_cmp self.now.tree e.0 ≡ Some e.1) self.now.tree.entries }
    {
        self.tree.iter()
    }
}

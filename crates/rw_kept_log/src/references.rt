//! The references that stand for label sets in a log that is being written.

ghost use Rattle.std.specs.Prelude.{◌≡◌, ◌≢◌, ℕ, ◌≤◌, ◌<◌, ◌^◌, ◌++◌, [], Some, None, IfSome, IfOk, OnOk, OnErr, if◌then◌else◌};
ghost use Rattle.std.specs.List.{AllByRecursion};
ghost use Rattle.rw_types.specs.Labels.{Labels, IsLabelSet};
ghost use Rattle.rw_types.specs.declared.names.Names.TheVariants.{Utf8};
ghost use Rattle.rw_types.specs.LabelOrder.{labels_eq};
ghost use Rattle.rw_kept_log.specs.Definitions.{IsOneOf};
ghost use Rattle.rw_kept_log.specs.References.{all_defined, AreReferenced, Grows, IsTable, labels_at, only_defined, pairs_of, points_of, undefined, with_pair, with_set};
ghost use Rattle.rw_kept_log.specs.inner.References.{with_reference};

use indexmap::IndexMap;
use rw_types::{LabelSet, Names, RawLabels, Word};
use std::alloc::{AllocError, Global};
use std::marker::Model;

/// Returns labels as they are written to a log.
fn raw_labels(alloc: Global, labels: &LabelSet) -> Result<RawLabels, AllocError>
    ensures { IfOk result (λ l. l ≡ labels.now) }
{
    let mut raw = RawLabels::new(alloc);
    let items = labels.as_slice();
    for label in items {
        raw.push(label.0.as_bytes(), label.1.as_bytes())?;
    }
    Ok(raw)
}

/// Returns a copy of a label set.
fn copy_of(alloc: Global, labels: &LabelSet) -> Result<LabelSet, AllocError>
    ensures { IfOk result (λ l. l ≡ labels.now) }
{
    let mut copy = LabelSet::empty(alloc);
    match copy.assign(Names::Utf8, labels.as_slice()) {
        Ok(()) => Ok(copy),
        Err(_) => Err(AllocError),
    }
}

/// Appends samples of one reference.
fn put_points(
    samples: &mut Vec<(u64, i64, Word)>,
    reference: u64,
    new: &[(i64, Word)],
) -> Result<(), AllocError>
    ensures { OnOk result
        (samples.new.items ≡ samples.old.items ++ with_reference reference new.now) }
{
    for point in new {
        samples.push((reference, point.0, point.1))?;
    }
    Ok(())
}

/// The references that stand for label sets in a log. Those that the log defines keep theirs, and
/// each other one that comes gets the next. Contracts see the references that the log defines, the
/// next one, and the label sets without a definition.
#[derive(Drop)]
pub struct References {
    alloc: Global,

    /// The reference of each label set, in the order in which they came.
    sets: IndexMap<LabelSet, u64>,

    /// Of how many label sets the log has the definition; they come first.
    defined: usize,

    /// The reference of the first label set without a definition.
    next: u64,

    /// The place after the label set that was found last: a target's next scrape has the same
    /// series in the same order, so the next label set is often there.
    likely: usize,
}

impl Model for References {
    ghost use Rattle.rw_kept_log.specs.References.{ReferenceTable};
    ghost use Rattle.rw_kept_log.specs.inner.References.{table_of, HasTable};

    ghost Value = { ReferenceTable };

    ghost view = { λ r. table_of r.sets.entries r.defined r.next };

    ghost invariant = { λ r. HasTable r.sets.entries r.defined r.next };
}

impl References {
    /// Returns references for a log that has none from `next` on. This takes no memory.
    pub fn new(alloc: Global, next: u64) -> References
        requires { next ≤ 2 ^ 63 }
        ensures { result ≡ record { known = []; next = next; fresh = [] } }
    {
        References {
            alloc,
            sets: IndexMap::new(alloc),
            defined: 0,
            next,
            likely: 0,
        }
    }

    /// Notes that a reference stands for a label set in the log, unless another one does already.
    /// Returns whether none did.
    pub fn note(&mut self, reference: u64, labels: LabelSet) -> Result<bool, AllocError>
        requires fresh { self.old.fresh ≡ [] }
        requires below { reference < self.old.next }
        requires unknown { AllByRecursion (λ p. p.0 ≢ reference) self.old.known }
        ensures known { OnOk result
            (self.new ≡ with_pair (reference, labels) self.old) }
        ensures err { OnErr result (self.new ≡ self.old) }
    {
        labels.conforms();
        let len = self.sets.len();
        if self.sets.contains_key(&labels) {
            return Ok(false);
        }
        self.sets.insert(labels, reference)?;
        self.defined = len + 1;
        Ok(true)
    }

    /// Returns the place and the reference of a label set, if it is there.
    fn place(&self, labels: &LabelSet) -> Option<(usize, u64)>
        ensures some { IfSome result (λ p. IsOneOf (pairs_of self.now) (p.1, labels.now)) }
        ensures none { result ≡ None → (k : ℕ) → IsOneOf (pairs_of self.now) (k, labels.now) → ⊥ }
    {
        if let Some((set, reference)) = self.sets.get_index(self.likely) {
            if *set == *labels {
                return Some((self.likely, *reference));
            }
        }
        let (place, _, reference) = self.sets.get_full(labels)?;
        Some((place, *reference))
    }

    /// Returns the reference of a label set, if it has one.
    fn find(&mut self, labels: &LabelSet) -> Option<u64>
        ensures some { IfSome result (λ r. labels_at self.new r ≡ Some labels.now) }
        ensures none { result ≡ None → (k : ℕ) → labels_at self.new k ≡ Some labels.now → ⊥ }
        ensures same { self.new ≡ self.old }
    {
        let (place, reference) = self.place(labels)?;
        self.likely = place.saturating_add(1);
        Some(reference)
    }

    /// Gives a label set without a reference the next one.
    fn insert(&mut self, labels: &LabelSet) -> Result<u64, AllocError>
        requires none { (k : ℕ) → labels_at self.old k ≡ Some labels.now → ⊥ }
        ensures is { IfOk result (λ r. labels_at self.new r ≡ Some labels.now) }
        ensures more { OnOk result (self.new ≡ with_set labels.now self.old) }
        ensures err { OnErr result (self.new ≡ self.old) }
    {
        labels.conforms();
        let set = copy_of(self.alloc, labels)?;
        let reference = self.next + (self.sets.len() - self.defined) as u64;
        self.sets.insert(set, reference)?;
        Ok(reference)
    }

    /// Returns the reference of a label set. One that has none gets the next reference.
    pub fn reference(&mut self, labels: &LabelSet) -> Result<u64, AllocError>
        ensures is { IfOk result (λ r. labels_at self.new r ≡ Some labels.now) }
        ensures grows { Grows labels.now self.old self.new }

        // A label set keeps its reference.
        ensures once { (k : ℕ) → labels_at self.old k ≡ Some labels.now → self.new ≡ self.old }

        ensures err { OnErr result (self.new ≡ self.old) }

        // The definitions that the log has are the same.
        ensures undone { only_defined self.new ≡ only_defined self.old }
    {
        match self.find(labels) {
            Some(reference) => Ok(reference),
            None => self.insert(labels),
        }
    }

    /// Appends new samples of a label set under its reference, each as (timestamp in milliseconds,
    /// value), to those of other label sets.
    pub fn add(
        &mut self,
        samples: &mut Vec<(u64, i64, Word)>,
        labels: &LabelSet,
        new: &[(i64, Word)],
    ) -> Result<(), AllocError>
        requires { AreReferenced self.old samples.old.items }
        ensures of { OnOk result (AreReferenced self.new samples.new.items) }
        ensures points { OnOk result ((l : Labels) → points_of self.new l samples.new.items
            ≡ points_of self.old l samples.old.items
            ++ (if labels_eq labels.now l then new.now else [])) }
        ensures grows { Grows labels.now self.old self.new }
        ensures undone { only_defined self.new ≡ only_defined self.old }
    {
        let reference = self.reference(labels)?;
        put_points(samples, reference, new)?;
        Ok(())
    }

    /// Returns the definitions that the log does not have, each as a reference and its labels.
    pub fn undefined(&self, alloc: Global) -> Result<Vec<(u64, RawLabels)>, AllocError>
        ensures definitions { IfOk result (λ v. v.items ≡ undefined self.now) }
        ensures table { IsTable self.now }
    {
        let mut definitions = Vec::new(alloc);
        let (_, rest) = self.sets.as_slice().split_at(self.defined);
        for (labels, reference) in rest.iter() {
            definitions.push((*reference, raw_labels(alloc, labels)?))?;
        }
        Ok(definitions)
    }

    /// Notes that the log has all definitions.
    pub fn commit(&mut self)
        ensures { self.new ≡ all_defined self.old }
    {
        let len = self.sets.len();
        self.next += (len - self.defined) as u64;
        self.defined = len;
    }

    /// Forgets the label sets whose definition the log does not have.
    pub fn abort(&mut self)
        ensures { self.new ≡ only_defined self.old }
    {
        self.sets.truncate(self.defined);
    }
}

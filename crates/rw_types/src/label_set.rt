//! Label sets, which identify series.

ghost use Rattle.std.specs.Prelude.{◌≡◌, ◌≢◌, ◌↔◌, Some, IfOk, IfErr, MatchOption, OnOk, map, take, true, string_bytes, length, vec_len, nat_lt, ◌||◌, ◌++◌, ◌≤◌, []};
ghost use Rattle.std.specs.Str.{is_utf8};
ghost use Rattle.std.specs.List.{list_all};
ghost use Rattle.std.specs.Ordering.{is_eq};
ghost use Rattle.rw_types.specs.Hashing.{labels_hash};
ghost use Rattle.rw_types.specs.LabelFields.{label_fields};
ghost use Rattle.rw_types.specs.LabelOrder.{labels_cmp};
ghost use Rattle.rw_types.specs.Labels.{Labels, IsLabelSet, bytes_label, text_label, is_text, text_len, label_fault};
ghost use Rattle.rw_types.specs.declared.label_fault.LabelFault.TheVariants.{OutOfMemory, BadName};
ghost use Rattle.rw_types.specs.declared.names.Names.TheVariants.{Legacy, Utf8};

use crate::judge::{are_longer_than, fault_of};
use crate::label_fault::LabelFault;
use crate::label_fields::{label_fields_len, put_label_fields};
use crate::names::Names;
use crate::raw_labels::RawLabels;
use std::alloc::{AllocError, Global};
use std::cmp::Ordering;
use std::hash::{FoldHasher, Hash, Hasher};
use std::marker::Model;

/// The labels that identify one series: sorted by name in byte order, no name twice, no name or
/// value empty, at most `MAX_LABELS` labels and `MAX_LABEL_BYTES` bytes. The names have the form
/// that was asked for when the set was made, and are UTF-8 in any case.
///
/// Contracts see the list of (name, value). Two label sets are equal exactly if these lists are.
#[derive(Debug, Drop)]
pub struct LabelSet {
    labels: Vec<(String, String)>,
    /// Their fields in a series of a message, kept so that a body gets them by one copy.
    fields: Vec<u8>,
    /// The hash of all strings, kept so that a map reads one number.
    hash: u64,
}

impl Model for LabelSet {
    ghost use Rattle.std.specs.Prelude.{◌≡◌, ℕ, List, map};
    ghost use Rattle.rw_types.specs.Hashing.{labels_hash};
    ghost use Rattle.rw_types.specs.LabelFields.{label_fields};
    ghost use Rattle.rw_types.specs.Labels.{IsLabelSet, text_label};
    ghost use Rattle.rw_types.specs.declared.names.Names.TheVariants.{Utf8};

    ghost Value = { List (List ℕ × List ℕ) };

    ghost view = { λ s. map text_label s.labels.items };

    ghost invariant = { λ s. IsLabelSet Utf8 (map text_label s.labels.items)
        × (s.fields.items ≡ label_fields (map text_label s.labels.items))
        × (s.hash ≡ labels_hash (map text_label s.labels.items)) };
}

/// Returns the hash that a label set of these labels keeps.
fn hash_of(labels: &[(String, String)]) -> u64
    ensures { result ≡ labels_hash (map text_label labels.now) }
{
    let mut state = FoldHasher::default();
    labels.hash(&mut state);
    state.finish()
}

/// Makes `fields` the fields of the labels, and reuses the memory that it has.
fn overwrite_fields(fields: &mut Vec<u8>, labels: &[(String, String)]) -> Result<(), AllocError>
    ensures { OnOk result (fields.new.items ≡ label_fields (map text_label labels.now)) }
{
    let Some(len) = label_fields_len(labels) else {
        return Err(AllocError);
    };
    fields.clear();
    fields.reserve_exact(len)?;
    put_label_fields(fields, labels);
    Ok(())
}

/// Returns the bytes as a string.
fn text_of(alloc: Global, bytes: &[u8]) -> Result<String, AllocError>
    requires { is_utf8 bytes.now ≡ true }
    ensures { IfOk result (λ t. string_bytes t ≡ bytes.now) }
{
    match str::from_utf8(bytes) {
        Ok(text) => String::from_str(alloc, text),
        Err(_) => unreachable!(),
    }
}

/// Returns a copy of a label as strings.
fn label_texts(alloc: Global, label: &(Vec<u8>, Vec<u8>)) -> Result<(String, String), AllocError>
    requires { is_text (bytes_label label.now) ≡ true }
    ensures { IfOk result (λ t. text_label t ≡ bytes_label label.now) }
{
    Ok((text_of(alloc, &label.0)?, text_of(alloc, &label.1)?))
}

/// Returns copies of labels as strings.
fn texts_of(
    alloc: Global,
    labels: &[(Vec<u8>, Vec<u8>)],
) -> Result<Vec<(String, String)>, AllocError>
    requires { list_all (λ l. is_text (bytes_label l)) labels.now ≡ true }
    ensures { IfOk result (λ v. map text_label v.items ≡ map bytes_label labels.now) }
{
    let mut texts = Vec::with_capacity(alloc, labels.len())?;
    for label in labels {
        texts.push(label_texts(alloc, label)?)?;
    }
    Ok(texts)
}

/// Overwrites a string, and reuses the memory that it has.
fn overwrite(text: &mut String, new: &str) -> Result<(), AllocError>
    ensures { OnOk result (string_bytes text.new ≡ new.now) }
{
    text.clear();
    text.push_str(new)
}

/// Overwrites a label, and reuses the memory that it has.
fn overwrite_label(label: &mut (String, String), new: &(String, String)) -> Result<(), AllocError>
    ensures { OnOk result (text_label label.new ≡ text_label new.now) }
{
    overwrite(&mut label.0, &new.0)?;
    overwrite(&mut label.1, &new.1)
}

/// Overwrites the labels with the first of the new ones.
fn overwrite_first(
    labels: &mut Vec<(String, String)>,
    new: &[(String, String)],
) -> Result<(), AllocError>
    requires { vec_len labels.old ≤ length new.now }
    ensures len { vec_len labels.new ≡ vec_len labels.old }
    ensures ok { OnOk result
        (map text_label labels.new.items ≡ map text_label (take (vec_len labels.new) new.now)) }
{
    for i in 0..labels.len() {
        overwrite_label(&mut labels[i], &new[i])?;
    }
    Ok(())
}

/// Returns a copy of a label.
fn copy_of(label: &(String, String)) -> Result<(String, String), AllocError>
    ensures { IfOk result (λ l. text_label l ≡ text_label label.now) }
{
    Ok((label.0.clone()?, label.1.clone()?))
}

/// Appends copies of the new labels that come after those that were overwritten.
fn append_copies(
    labels: &mut Vec<(String, String)>,
    new: &[(String, String)],
) -> Result<(), AllocError>
    ensures { OnOk result (map text_label labels.new.items
        ≡ map text_label labels.old.items ++ map text_label new.now) }
{
    labels.reserve_exact(new.len())?;
    for label in new {
        labels.push(copy_of(label)?)?;
    }
    Ok(())
}

/// Makes the labels the same as the new ones, and reuses the memory that they have.
fn replace_all(
    labels: &mut Vec<(String, String)>,
    new: &[(String, String)],
) -> Result<(), AllocError>
    ensures { OnOk result (map text_label labels.new.items ≡ map text_label new.now) }
{
    labels.truncate(new.len());
    overwrite_first(labels, new)?;
    append_copies(labels, &new[labels.len()..])
}

/// Makes the labels the same as the new ones, and `fields` their fields.
fn replace(
    labels: &mut Vec<(String, String)>,
    fields: &mut Vec<u8>,
    new: &[(String, String)],
) -> Result<(), AllocError>
    ensures labels { OnOk result (map text_label labels.new.items ≡ map text_label new.now) }
    ensures fields { OnOk result (fields.new.items ≡ label_fields (map text_label new.now)) }
{
    replace_all(labels, new)?;
    overwrite_fields(fields, new)
}

impl LabelSet {
    /// Returns the empty label set. This takes no memory.
    pub fn empty(alloc: Global) -> LabelSet
        ensures { result ≡ [] }
    {
        let labels = Vec::new(alloc);
        let hash = hash_of(&labels);
        LabelSet {
            labels,
            fields: Vec::new(alloc),
            hash,
        }
    }

    /// Returns the label set of these labels.
    fn of(labels: Vec<(String, String)>) -> Result<LabelSet, AllocError>
        requires { IsLabelSet Utf8 (map text_label labels.items) }
        ensures { IfOk result (λ s. s ≡ map text_label labels.items) }
    {
        let mut fields = Vec::new(*labels.allocator());
        overwrite_fields(&mut fields, &labels)?;
        let hash = hash_of(&labels);
        Ok(LabelSet {
            labels,
            fields,
            hash,
        })
    }

    /// Overwrites the set with the label set of `labels`, and reuses the memory that it has.
    /// `names` says which names are accepted. The first fault of the labels is found before memory
    /// is taken, and leaves the set as it was; after `OutOfMemory` the set is empty.
    pub fn assign(&mut self, names: Names, labels: &[(String, String)]) -> Result<(), LabelFault>
        ensures ok { OnOk result (self.new ≡ map text_label labels.now) }
        ensures label_set { OnOk result (IsLabelSet names (map text_label labels.now)) }
        ensures err { IfErr result (λ f. MatchOption (label_fault names (map text_label labels.now))
            ((f ≡ OutOfMemory) × (self.new ≡ []))
            (λ fault. (f ≡ fault) × (self.new ≡ self.old))) }
    {
        if let Some(fault) = fault_of(names, labels) {
            return Err(fault);
        }
        if replace(&mut self.labels, &mut self.fields, labels).is_err() {
            self.labels.clear();
            self.fields.clear();
            self.hash = hash_of(&self.labels);
            return Err(LabelFault::OutOfMemory);
        }
        self.hash = hash_of(&self.labels);
        Ok(())
    }

    /// Returns whether there are more than `max_labels` labels, or more than `max_bytes` bytes of
    /// names and values together.
    pub fn is_over(&self, max_labels: usize, max_bytes: usize) -> bool
        ensures { result
            ≡ (nat_lt max_labels (length self.now) || nat_lt max_bytes (text_len self.now)) }
    {
        self.labels.len() > max_labels || are_longer_than(self.labels.as_slice(), max_bytes)
    }

    /// Returns the label set of `labels`, with legacy names, or the first fault that keeps them
    /// from being one. A fault of the labels is found before memory is taken.
    pub fn check(alloc: Global, labels: &RawLabels) -> Result<LabelSet, LabelFault>
        ensures ok { IfOk result (λ s. s ≡ labels.now) }
        ensures label_set { IfOk result (λ _. IsLabelSet Legacy labels.now) }
        ensures err { IfErr result (λ f. MatchOption (label_fault Legacy labels.now) (f
            ≡ OutOfMemory) (λ fault. f ≡ fault)) }
    {
        LabelSet::check_as(alloc, Names::Legacy, labels)
    }

    /// Returns the label set of `labels`, or the first fault that keeps them from being one;
    /// `names` says which names are accepted. A fault of the labels is found before memory is
    /// taken.
    pub fn check_as(alloc: Global, names: Names, labels: &RawLabels) -> Result<LabelSet, LabelFault>
        ensures ok { IfOk result (λ s. s ≡ labels.now) }
        ensures label_set { IfOk result (λ _. IsLabelSet names labels.now) }
        ensures err { IfErr result (λ f. MatchOption (label_fault names labels.now) (f
            ≡ OutOfMemory) (λ fault. f ≡ fault)) }
    {
        let labels = labels.as_slice();
        if let Some(fault) = fault_of(names, labels) {
            return Err(fault);
        }
        Ok(LabelSet::of(texts_of(alloc, labels)?)?)
    }

    /// Returns the label set that these texts are, or the first fault that keeps them from being
    /// one; `names` says which names are accepted. The texts are not copied.
    pub fn of_texts(names: Names, labels: Vec<(String, String)>) -> Result<LabelSet, LabelFault>
        ensures ok { IfOk result (λ s. s ≡ map text_label labels.items) }
        ensures label_set { IfOk result (λ _. IsLabelSet names (map text_label labels.items)) }
        ensures err { IfErr result (λ f. MatchOption (label_fault names (map text_label labels.items))
            (f ≡ OutOfMemory) (λ fault. f ≡ fault)) }
    {
        if let Some(fault) = fault_of(names, &labels) {
            return Err(fault);
        }
        Ok(LabelSet::of(labels)?)
    }

    /// Law: it is a label set. The call does nothing.
    pub fn conforms(&self)
        ensures { IsLabelSet Utf8 self.now }
    {
        let _ = &self.labels;
    }

    /// Returns the labels as (name, value), sorted by name in byte order.
    pub fn as_slice(&self) -> &[(String, String)]
        ensures labels { map text_label result.now ≡ self.now }
        ensures label_set { IsLabelSet Utf8 self.now }
    {
        self.labels.as_slice()
    }

    /// Returns the fields of its labels in a series, in the canonical spelling (Remote-Write 1.0,
    /// `TimeSeries`).
    pub fn fields(&self) -> &[u8]
        ensures fields { result.now ≡ label_fields self.now }
        ensures label_set { IsLabelSet Utf8 self.now }
    {
        self.fields.as_slice()
    }
}

impl PartialEq for LabelSet {
    ghost use Rattle.rw_types.specs.LabelOrder.{labels_eq};
    ghost use Rattle.rw_types.specs.inner.LabelOrder.{labels_cmp-total};
    ghost use Rattle.std.proofs.lemmas.Cmp.{eq_by_cmp_equiv};
    ghost use Rattle.std.specs.Cmp.{partial_equiv_from_equiv};

    ghost eq = { labels_eq };

    ghost laws = { partial_equiv_from_equiv (eq_by_cmp_equiv labels_cmp-total) };

    // Label sets that differ have different fields, and one run of bytes is compared faster than
    // many strings.
    fn eq(&self, other: &LabelSet) -> bool {
        self.fields == other.fields
    }
}

impl Eq for LabelSet {
    ghost use Rattle.rw_types.specs.inner.LabelOrder.{labels_cmp-total};
    ghost use Rattle.std.proofs.lemmas.Cmp.{eq_by_cmp_equiv};

    ghost laws = { eq_by_cmp_equiv labels_cmp-total };
}

impl PartialOrd for LabelSet {
    ghost use Rattle.rw_types.specs.LabelOrder.{labels_cmp};
    ghost use Rattle.rw_types.specs.inner.LabelOrder.{labels_cmp-total};
    ghost use Rattle.std.proofs.Common.{refl};
    ghost use Rattle.std.specs.Ordering.{as_partial_cmp};
    ghost use Rattle.std.specs.Cmp.{partial_order_from_agreeing_total};

    ghost partial_cmp = { as_partial_cmp labels_cmp };

    ghost laws = { partial_order_from_agreeing_total labels_cmp labels_cmp-total (λ _ _. refl) (λ _ _. refl) };

    fn partial_cmp(&self, other: &LabelSet) -> Option<Ordering> {
        Some(self.cmp(other))
    }
}

impl Ord for LabelSet {
    ghost use Rattle.rw_types.specs.LabelOrder.{labels_cmp};
    ghost use Rattle.rw_types.specs.inner.LabelOrder.{labels_cmp-total};
    ghost use Rattle.std.proofs.Common.{refl};

    ghost cmp = { labels_cmp };

    ghost total = { labels_cmp-total };

    ghost matches_partial_cmp = { λ _ _. refl };

    ghost matches_eq = { λ _ _. refl };

    fn cmp(&self, other: &LabelSet) -> Ordering {
        self.labels.cmp(&other.labels)
    }
}

impl Hash for LabelSet {
    ghost use Rattle.rw_types.specs.Hashing.{hash_input};
    ghost use Rattle.rw_types.specs.inner.Hashing.{same_input};

    ghost hash_input = { hash_input };

    ghost respects_eq = { same_input };

    fn hash<H: Hasher>(&self, state: &mut H) {
        state.write_u64(self.hash);
    }
}

/// Law: the order of label sets calls two lists of labels equal exactly if they are the same list.
/// The call does nothing.
pub fn equal_where_same()
    ensures { (a b : Labels) → (is_eq (labels_cmp a b) ≡ true) ↔ (a ≡ b) }
{}

/// Law: with `Names::Utf8` every name is accepted, and labels that are a label set with legacy
/// names still are one. The call does nothing.
pub fn utf8_takes_any_name()
    ensures no_bad_name { (labels : Labels) → label_fault Utf8 labels ≢ Some BadName }
    ensures legacy { (labels : Labels) → IsLabelSet Legacy labels → IsLabelSet Utf8 labels }
{}

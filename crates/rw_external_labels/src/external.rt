//! The labels that are added, and the entries of a log with them.

ghost use Rattle.std.specs.Prelude.{◌≡◌, ◌≢◌, ◌++◌, [], map, IfOk, OnOk, OnErr};
ghost use Rattle.rw_types.specs.Labels.{bytes_label};
ghost use Rattle.rw_external_labels.specs.External.{with_label, with_labels, labelled_entry};

use rw_types::{Entry, LabelSet, RawLabels};
use std::alloc::{AllocError, Global};
use std::cmp::Ordering;
use std::marker::Model;

/// Labels that are added to each series of a log when it is sent (configuration manual of
/// Prometheus, `external_labels`): a label set, or none. A label that a series has already stays as
/// it is. Contracts see the list of (name, value).
#[derive(Debug, Drop)]
pub struct ExternalLabels {
    set: Option<LabelSet>,
}

impl Model for ExternalLabels {
    ghost use Rattle.std.specs.Prelude.{ℕ, List};
    ghost use Rattle.rw_external_labels.specs.inner.Sets.{labels_of_set};

    ghost Value = { List (List ℕ × List ℕ) };

    ghost view = { λ e. labels_of_set e.set };
}

/// Appends labels.
fn push_all(labels: &mut RawLabels, more: &[(Vec<u8>, Vec<u8>)]) -> Result<(), AllocError>
    ensures { OnOk result (labels.new ≡ labels.old ++ map bytes_label more.now) }
{
    for (name, value) in more {
        labels.push(name, value)?;
    }
    Ok(())
}

/// Returns labels with one more in its place by name, unless there is one of that name.
fn with_label(
    alloc: Global,
    labels: &RawLabels,
    name: &[u8],
    value: &[u8],
) -> Result<RawLabels, AllocError>
    ensures { IfOk result (λ l. l ≡ with_label labels.now (name.now, value.now)) }
{
    let mut longer = RawLabels::new(alloc);
    let mut rest = labels.as_slice();
    while let Some(((next, text), later)) = rest.split_first() {
        match name.cmp(next.as_slice()) {
            Ordering::Less => break,
            Ordering::Equal => {
                push_all(&mut longer, rest)?;
                return Ok(longer);
            }
            Ordering::Greater => {
                longer.push(next, text)?;
                rest = later;
            }
        }
    }
    longer.push(name, value)?;
    push_all(&mut longer, rest)?;
    Ok(longer)
}

impl ExternalLabels {
    /// Returns no labels.
    pub fn none() -> ExternalLabels
        ensures { result ≡ [] }
    {
        ExternalLabels { set: None }
    }

    /// Returns the labels of a set.
    pub fn new(set: LabelSet) -> ExternalLabels
        ensures { result ≡ set }
    {
        ExternalLabels { set: Some(set) }
    }

    /// Returns the labels of a series with these, where it has none of their name. Without external
    /// labels this takes no memory. An `Err` means that memory ran out.
    pub fn add_to(&self, alloc: Global, labels: RawLabels) -> Result<RawLabels, AllocError>
        ensures ok { IfOk result (λ l. l ≡ with_labels self.now labels) }
        ensures free { OnErr result (self.now ≢ []) }
    {
        let Some(set) = &self.set else {
            return Ok(labels);
        };
        let mut labels = labels;
        for (name, value) in set.as_slice() {
            labels = with_label(alloc, &labels, name.as_bytes(), value.as_bytes())?;
        }
        Ok(labels)
    }

    /// Returns an entry of a log with these labels, if it defines a series. Without external
    /// labels, and for a sample, this takes no memory. An `Err` means that memory ran out.
    pub fn label(&self, alloc: Global, entry: Entry) -> Result<Entry, AllocError>
        ensures ok { IfOk result (λ e. e ≡ labelled_entry self.now entry) }
        ensures free { OnErr result (self.now ≢ []) }
    {
        match entry {
            Entry::Def { reference, labels } => Ok(Entry::Def {
                reference,
                labels: self.add_to(alloc, labels)?,
            }),
            sample => Ok(sample),
        }
    }
}

//! Which label sets a head takes.

ghost use Rattle.std.specs.Prelude.{◌≡◌, ◌≢◌, MatchOption, None, Some, IfOk, OnOk, IfErr, map};
ghost use Rattle.rw_types.specs.Labels.{IsLabelSet, text_label, label_fault};
ghost use Rattle.rw_types.specs.declared.label_fault.LabelFault.TheVariants.{OutOfMemory};
ghost use Rattle.rw_head.specs.declared.verdict.Verdict.TheVariants.{NoMemory};
ghost use Rattle.rw_head.specs.Verdicts.{refusal};
ghost use Rattle.rw_head.specs.inner.Texts.{labels_of};

use crate::verdict::Verdict;
use rw_types::{LabelFault, LabelSet, Names};
use std::alloc::Global;
use std::marker::Model;

/// The texts of labels.
#[derive(Drop)]
pub(crate) enum Texts<'a> {
    /// A label set can take them over.
    Given(Vec<(String, String)>),
    /// A label set needs copies of them.
    Lent(&'a [(String, String)]),
}

impl Texts<'_> {
    /// Returns the texts.
    pub(crate) fn as_slice(&self) -> &[(String, String)]
        ensures { map text_label result.now ≡ labels_of self.now }
    {
        match self {
            Texts::Given(texts) => texts.as_slice(),
            Texts::Lent(texts) => texts,
        }
    }
}

/// Returns the label set of these texts.
fn set_of(alloc: Global, names: Names, texts: Texts<'_>) -> Result<LabelSet, LabelFault>
    ensures ok { IfOk result (λ s. s ≡ labels_of texts.entry) }
    ensures label_set { OnOk result (IsLabelSet names (labels_of texts.entry)) }
    ensures err { IfErr result (λ f. MatchOption (label_fault names (labels_of texts.entry))
        (f ≡ OutOfMemory) (λ fault. f ≡ fault)) }
{
    match texts {
        Texts::Given(texts) => LabelSet::of_texts(names, texts),
        Texts::Lent(texts) => {
            let mut labels = LabelSet::empty(alloc);
            labels.assign(names, texts)?;
            Ok(labels)
        }
    }
}

/// Which names label sets may have, and how large they may be.
#[derive(Debug, Drop)]
pub(crate) struct LabelBounds {
    pub(crate) names: Names,
    pub(crate) max_labels: usize,
    pub(crate) max_label_bytes: usize,
}

impl Model for LabelBounds {
    ghost use Rattle.rw_head.specs.Verdicts.{LabelLimits};

    ghost Value = { LabelLimits };

    ghost view = { λ b. record {
      names = b.names;
      max_labels = b.max_labels;
      max_label_bytes = b.max_label_bytes;
    } };
}

impl LabelBounds {
    /// Returns the label set of these texts, if the head takes it.
    pub(crate) fn take(&self, alloc: Global, texts: Texts<'_>) -> Result<LabelSet, Verdict>
        ensures ok { IfOk result (λ l. l ≡ labels_of texts.entry) }
        ensures taken { OnOk result (refusal self.now (labels_of texts.entry) ≡ None) }
        ensures err { IfErr result (λ v.
            v ≢ NoMemory → refusal self.now (labels_of texts.entry) ≡ Some v) }
        ensures memory { IfErr result (λ v.
            v ≡ NoMemory → label_fault self.now.names (labels_of texts.entry) ≡ None) }
    {
        let labels = match set_of(alloc, self.names, texts) {
            Ok(labels) => labels,
            Err(LabelFault::OutOfMemory) => return Err(Verdict::NoMemory),
            Err(_) => return Err(Verdict::BadLabels),
        };
        if labels.is_over(self.max_labels, self.max_label_bytes) {
            return Err(Verdict::OverLimit);
        }
        Ok(labels)
    }

    /// Judges these texts: whether the head takes their label set.
    pub(crate) fn judge(&self, alloc: Global, texts: Texts<'_>) -> Result<(), Verdict>
        ensures taken { OnOk result (refusal self.now (labels_of texts.entry) ≡ None) }
        ensures err { IfErr result (λ v.
            v ≢ NoMemory → refusal self.now (labels_of texts.entry) ≡ Some v) }
    {
        match self.take(alloc, texts) {
            Ok(_) => Ok(()),
            Err(verdict) => Err(verdict),
        }
    }
}

//! Label sets with several owners.

ghost use Rattle.std.specs.Prelude.{◌≡◌, ◌++◌, map, IfOk, OnOk};
ghost use Rattle.rw_head.specs.inner.Keys.{labels_key, raised_byte, text_key};

use rw_types::{LabelSet, Names};
use std::alloc::{AllocError, Global};
use std::cmp::Ordering;
use std::marker::Model;
use std::sync::Arc;

/// A label set, and the bytes by which it is found.
#[derive(Debug, Drop)]
struct Keyed {
    labels: LabelSet,
    key: Vec<u8>,
    ghost keyed: { key.items ≡ labels_key labels },
}

/// A label set with several owners. Contracts see its list of (name, value).
#[derive(Debug, Drop)]
pub(crate) struct Name {
    keyed: Arc<Keyed>,
}

impl Model for Name {
    ghost use Rattle.std.specs.Prelude.{ℕ, List};
    ghost use Rattle.std.specs.Arc.{arc_value};

    ghost Value = { List (List ℕ × List ℕ) };

    ghost view = { λ n. (arc_value n.keyed).labels };
}

/// Appends what becomes the key of a text once it is raised.
fn put_text(key: &mut Vec<u8>, text: &str) -> Result<(), AllocError>
    ensures { OnOk result
        (map raised_byte key.new.items ≡ map raised_byte key.old.items ++ text_key text.now) }
{
    key.extend_from_slice(text.as_bytes())?;
    key.push(255)?;
    Ok(())
}

/// Raises each byte by one, and 255 to 0. One pass over all bytes is faster than one a text.
fn raise(bytes: &mut [u8])
    ensures { bytes.new ≡ map raised_byte bytes.old }
{
    for byte in bytes.iter_mut() {
        *byte = byte.wrapping_add(1);
    }
}

/// Returns the key of a label set. In the fields of a label are at least four bytes more than in
/// its part of the key.
fn key_of(alloc: Global, labels: &LabelSet) -> Result<Vec<u8>, AllocError>
    ensures { IfOk result (λ k. k.items ≡ labels_key labels.now) }
{
    let texts = labels.as_slice();
    let room = labels
        .fields()
        .len()
        .saturating_sub(texts.len().saturating_mul(4));
    let mut key = Vec::with_capacity(alloc, room)?;
    for (name, value) in texts {
        put_text(&mut key, name)?;
        put_text(&mut key, value)?;
    }
    raise(&mut key);
    Ok(key)
}

impl Name {
    /// Returns the name of this label set.
    pub(crate) fn of(alloc: Global, labels: LabelSet) -> Result<Name, AllocError>
        ensures { IfOk result (λ n. n ≡ labels) }
    {
        let key = key_of(alloc, &labels)?;
        Ok(Name {
            keyed: Arc::new(alloc, Keyed { labels, key })?,
        })
    }

    /// Returns the name of a copy of the label set.
    pub(crate) fn copy_of(alloc: Global, labels: &LabelSet) -> Result<Name, AllocError>
        ensures { IfOk result (λ n. n ≡ labels.now) }
    {
        let mut copy = LabelSet::empty(alloc);
        match copy.assign(Names::Utf8, labels.as_slice()) {
            Ok(()) => Name::of(alloc, copy),
            Err(_) => Err(AllocError),
        }
    }

    /// Returns another share of the name, for another owner.
    pub(crate) fn share(&self) -> Result<Name, AllocError>
        ensures { IfOk result (λ n. n ≡ self.now) }
    {
        Ok(Name {
            keyed: Arc::try_clone(&self.keyed)?,
        })
    }

    /// Returns the label set.
    pub(crate) fn labels(&self) -> &LabelSet
        ensures { result.now ≡ self.now }
    {
        &self.keyed.labels
    }
}

impl PartialEq for Name {
    ghost use Rattle.rw_types.specs.LabelOrder.{labels_eq};
    ghost use Rattle.rw_types.specs.inner.LabelOrder.{labels_cmp-total};
    ghost use Rattle.std.proofs.lemmas.Cmp.{eq_by_cmp_equiv};
    ghost use Rattle.std.specs.Cmp.{partial_equiv_from_equiv};

    ghost eq = { labels_eq };

    ghost laws = { partial_equiv_from_equiv (eq_by_cmp_equiv labels_cmp-total) };

    fn eq(&self, other: &Name) -> bool {
        self.labels() == other.labels()
    }
}

impl Eq for Name {
    ghost use Rattle.rw_types.specs.inner.LabelOrder.{labels_cmp-total};
    ghost use Rattle.std.proofs.lemmas.Cmp.{eq_by_cmp_equiv};

    ghost laws = { eq_by_cmp_equiv labels_cmp-total };
}

impl PartialOrd for Name {
    ghost use Rattle.rw_types.specs.LabelOrder.{labels_cmp};
    ghost use Rattle.rw_types.specs.inner.LabelOrder.{labels_cmp-total};
    ghost use Rattle.std.proofs.Common.{refl};
    ghost use Rattle.std.specs.Ordering.{as_partial_cmp};
    ghost use Rattle.std.specs.Cmp.{partial_order_from_agreeing_total};

    ghost partial_cmp = { as_partial_cmp labels_cmp };

    ghost laws = { partial_order_from_agreeing_total labels_cmp labels_cmp-total (λ _ _. refl) (λ _ _. refl) };

    fn partial_cmp(&self, other: &Name) -> Option<Ordering> {
        Some(self.cmp(other))
    }
}

impl Ord for Name {
    ghost use Rattle.rw_types.specs.LabelOrder.{labels_cmp};
    ghost use Rattle.rw_types.specs.inner.LabelOrder.{labels_cmp-total};
    ghost use Rattle.std.proofs.Common.{refl};

    ghost cmp = { labels_cmp };

    ghost total = { labels_cmp-total };

    ghost matches_partial_cmp = { λ _ _. refl };

    ghost matches_eq = { λ _ _. refl };

    // One run of bytes is compared faster than many strings.
    #[tactic(auto, using(crate::proofs::KeyLemmas::keys_in_order))]
    fn cmp(&self, other: &Name) -> Ordering {
        self.keyed.key.cmp(&other.keyed.key)
    }
}

//! A label set at its place.

ghost use Rattle.std.specs.Prelude.{◌≡◌, ℕ, ◌++◌, List, length, map, IsTrue, IfSome};
ghost use Rattle.rw_types.specs.Labels.{text_label};
ghost use Rattle.std.specs.Int.{w64, to_le_bytes};
ghost use Rattle.rw_write_request.specs.Parts.{IsHeadOf};

use crate::name::Name;
use rw_types::LabelSet;
use rw_write_request::{head_of, read_series};
use std::alloc::Global;
use std::marker::Model;

/// The most bytes of a series head that is kept.
const MOST_HEAD_BYTES: usize = 1024;

/// A label set at its place, with the bytes with which a series of it began, before its samples,
/// once they were seen, unless they are the fields that the label set keeps. Contracts see the
/// label set.
#[derive(Debug, Drop)]
pub(crate) struct Place {
    name: Name,
    head: Vec<u8>,
}

impl Model for Place {
    ghost use Rattle.std.specs.Prelude.{ℕ, List, ◌≤◌, length};
    ghost use Rattle.rw_head.specs.inner.Bodies.{HasHead};

    ghost Value = { List (List ℕ × List ℕ) };

    ghost view = { λ p. p.name };

    ghost invariant = { λ p. HasHead p.head.items p.name × (length p.head.items ≤ 1024) };
}

/// Returns the word of eight bytes, which identifies them.
fn word_of(bytes: &[u8]) -> u64
    requires { length bytes.now ≡ 8 }
    ensures { to_le_bytes w64 result ≡ bytes.now }
{
    match <[u8; 8]>::try_from(bytes) {
        Ok(word) => u64::from_le_bytes(word),
        Err(_) => unreachable!(),
    }
}

/// Returns whether the bytes are the same. Eight of them are compared at a time.
fn is_same(one: &[u8], other: &[u8]) -> bool
    ensures { IsTrue result → one.now ≡ other.now }
{
    let mut left = one;
    let mut right = other;
    while left.len() >= 8 && right.len() >= 8 {
        let (a, left_rest) = left.split_at(8);
        let (b, right_rest) = right.split_at(8);
        if word_of(a) != word_of(b) {
            return false;
        }
        left = left_rest;
        right = right_rest;
    }
    left == right
}

/// Returns whether the texts are those of the labels.
fn are_texts_of(texts: &[(String, String)], labels: &LabelSet) -> bool
    ensures { IsTrue result → labels.now ≡ map text_label texts.now }
{
    labels.as_slice() == texts
}

/// Returns whether the bytes spell these labels, and no sample. They are read for that.
fn is_head_of(alloc: Global, bytes: &[u8], labels: &LabelSet) -> bool
    ensures { IsTrue result → IsHeadOf bytes.now labels.now }
{
    let Ok(series) = read_series(alloc, bytes) else {
        return false;
    };
    if !series.samples.is_empty() {
        return false;
    }
    are_texts_of(&series.labels, labels)
}

impl Place {
    /// Returns the place of this label set, before any head of a series was seen. This takes no
    /// memory.
    pub(crate) fn new(alloc: Global, name: Name) -> Place
        ensures { result ≡ name }
    {
        Place {
            name,
            head: Vec::new(alloc),
        }
    }

    /// Returns the label set.
    pub(crate) fn name(&self) -> &Name
        ensures { result.now ≡ self.now }
    {
        &self.name
    }

    /// Returns the label set.
    pub(crate) fn labels(&self) -> &LabelSet
        ensures { result.now ≡ self.now }
    {
        self.name.labels()
    }

    /// Returns the head that is kept, or otherwise the one that is spelled canonically. This takes
    /// no memory.
    fn head(&self) -> &[u8]
        ensures { IsHeadOf result.now self.now }
    {
        if self.head.is_empty() {
            self.name.labels().fields()
        } else {
            self.head.as_slice()
        }
    }

    /// Returns the bytes of a series after the head that is expected, if the series begins with it.
    pub(crate) fn behind_head<'a>(&self, series: &'a [u8]) -> Option<&'a [u8]>
        ensures { IfSome result (λ rest. (head : List ℕ)
            × IsHeadOf head self.now × (series.now ≡ head ++ rest.now)) }
    {
        let head = self.head();
        if series.len() < head.len() {
            return None;
        }
        let (front, rest) = series.split_at(head.len());
        if is_same(head, front) {
            Some(rest)
        } else {
            None
        }
    }

    /// Keeps the head of a series, if it spells this label set in another way than the fields that
    /// the label set keeps, is short, and none is kept. It is kept for speed alone: if memory runs
    /// out, it is not kept.
    pub(crate) fn learn(&mut self, series: &[u8])
        ensures { self.new ≡ self.old }
    {
        if !self.head.is_empty() || self.behind_head(series).is_some() {
            return;
        }
        let alloc = *self.head.allocator();
        let head = head_of(series);
        if head.len() > MOST_HEAD_BYTES {
            return;
        }
        if !is_head_of(alloc, head, self.name.labels()) {
            return;
        }
        if let Ok(copy) = head.to_vec(alloc) {
            self.head = copy;
        }
    }
}

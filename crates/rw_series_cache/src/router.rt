//! What becomes of the entries of a log, one after the other.

ghost use Rattle.std.specs.Prelude.{◌≡◌, ◌<◌, ◌^◌, [], ◌∷◌, ◌++◌, List, IfOk, IfSome, IfNone, OnErr};
ghost use Rattle.std.specs.FinMap as map;
ghost use Rattle.rw_types.specs.declared.entry.Entry.{Entry};
ghost use Rattle.rw_series_cache.specs.Routing.{Knows, Routes, KnowsMore, IsRising, IsSentNext, WouldSend, WouldKeep, TakesMemory};

use crate::sample::RoutedSample;
use crate::{Cache, Known};
use rw_ledger::Reason;
use rw_relabel::Choice;
use rw_types::{Entry, Word};
use std::alloc::{AllocError, Global};
use std::marker::Model;
use std::sync::Arc;

/// What becomes of an entry of a log.
#[derive(Drop)]
pub enum Routed {
    /// Nothing more is to be done: it is a definition, or a sample whose series the rules drop.
    Placed,
    /// It is a sample that has to be dropped, for this reason.
    Dropped(Reason),
    /// It is a sample that has to be sent.
    Sample(RoutedSample),
}

/// Decides what becomes of each entry of a log, in order. A sample is dropped if it has no series,
/// if the labels of its series are not a label set, or if it is not later than those before it in
/// its series. It is counted if the rules drop its series. Each other sample is sent.
///
/// The router keeps no sample. Contracts see what it knows of the series, and how many samples were
/// placed whose series the rules drop.
#[derive(Drop)]
pub struct Router {
    cache: Cache,
    filtered: u64,
}

impl Model for Router {
    ghost use Rattle.std.specs.Coded.{codes};
    ghost use Rattle.std.specs.FinMap as map;
    ghost use Rattle.rw_series_cache.specs.Routing.{Routing};

    ghost Value = { Routing };

    ghost coded = { Prim.hlevel (codes, map.code) };

    ghost view = { λ r. record { cache = r.cache; filtered = r.filtered } };
}

impl Router {
    /// Returns a router before the first entry of a log. `choice` says which series are sent. This
    /// takes no memory.
    pub fn new(alloc: Global, choice: Choice) -> Router
        ensures cache { result.cache
            ≡ record { choice = choice; definitions = []; noted = map.empty } }
        ensures filtered { result.filtered ≡ 0 }
        ensures knows { Knows [] result.cache }
    {
        Router {
            cache: Cache::new(alloc, choice),
            filtered: 0,
        }
    }

    /// Places the next entry of the log, which is at position `pos`, or returns what the caller has
    /// to do with its sample: list a dropped one in the ledger, or put one that is sent and then
    /// call `sent`. An `Err` changes nothing.
    pub fn place(&mut self, pos: u64, entry: Entry) -> Result<Routed, AllocError>
        requires few { self.old.filtered < 2 ^ 60 }
        ensures ok { (before : List Entry) → Knows before self.old.cache
            → IfOk result (λ r. Routes self.old before pos entry self.new r) }
        ensures knows { (before : List Entry) → Knows before self.old.cache
            → IfOk result (λ r. KnowsMore before entry self.new.cache r) }
        ensures err { OnErr result (self.new ≡ self.old) }
        ensures sound { (before : List Entry) → Knows before self.old.cache
            → OnErr result (TakesMemory self.old.cache.choice before entry) }
    {
        match entry {
            Entry::Def { reference, labels } => {
                self.cache.define(reference, labels)?;
                Ok(Routed::Placed)
            }
            Entry::Sample { reference, t, word } => self.place_sample(pos, reference, t, word),
        }
    }

    fn place_sample(
        &mut self,
        pos: u64,
        reference: u64,
        t: i64,
        word: Word,
    ) -> Result<Routed, AllocError>
        requires few { self.old.filtered < 2 ^ 60 }
        ensures ok { (before : List Entry) → Knows before self.old.cache
            → IfOk result
            (λ r. Routes self.old before pos (Entry.Sample reference t word) self.new r) }
        ensures knows { (before : List Entry) → Knows before self.old.cache
            → IfOk result (λ r. KnowsMore before (Entry.Sample reference t word) self.new.cache r) }
        ensures err { OnErr result (self.new ≡ self.old) }
        ensures sound { (before : List Entry) → Knows before self.old.cache
            → OnErr result
            (TakesMemory self.old.cache.choice before (Entry.Sample reference t word)) }
    {
        match self.cache.look(reference) {
            Known::Unknown => Ok(Routed::Dropped(Reason::NoSeries)),
            Known::Bad(fault) => {
                let number = fault.number();
                Ok(Routed::Dropped(Reason::BadLabels(number)))
            }
            Known::Filtered => {
                self.filtered += 1;
                Ok(Routed::Placed)
            }
            Known::Kept(series, labels) => {
                if !self.cache.rises(series, t) {
                    return Ok(Routed::Dropped(Reason::NotRising));
                }
                Ok(Routed::Sample(RoutedSample {
                    pos,
                    series,
                    t,
                    word,
                    labels: Arc::try_clone(labels)?,
                }))
            }
        }
    }

    /// Notes that the sample that `place` returned was put: one of series number `series`, at time
    /// `t` in milliseconds since the Unix epoch. This takes no memory.
    pub fn sent(&mut self, series: u64, t: i64)
        requires { IsRising self.old.cache series t }
        ensures noted { self.new
            ≡ record self.old {
              cache = record self.old.cache {
                noted = map.insert
                    self.old.cache.noted series t;
              };
            } }
        ensures knows { (before : List Entry) (entry : Entry) → Knows before self.old.cache
            → IsSentNext self.old.cache.choice before entry series t
            → Knows (before ++ entry ∷ []) self.new.cache }
    {
        self.cache.note(series, t);
    }

    /// Returns the number of the series in which a sample of `reference` at time `t` would be sent
    /// next, or `None` if it would not be sent. This takes no memory.
    pub fn would_send(&self, reference: u64, t: i64) -> Option<u64>
        ensures some { (before : List Entry) → Knows before self.now.cache
            → IfSome result (WouldSend self.now.cache.choice before reference t) }
        ensures none { (before : List Entry) → Knows before self.now.cache
            → IfNone result (WouldKeep self.now.cache.choice before reference t) }
    {
        match self.cache.look(reference) {
            Known::Kept(series, _) if self.cache.rises(series, t) => Some(series),
            _ => None,
        }
    }

    /// Returns how many samples were placed whose series the rules drop.
    pub fn filtered(&self) -> u64
        ensures { result ≡ self.now.filtered }
    {
        self.filtered
    }
}

//! Which series the references of a log stand for.

ghost use Rattle.std.specs.Prelude.{◌≡◌, ◌⊎◌, ◌<◌, ◌∷◌, ◌++◌, [], List, length, true, OnOk, OnErr, None};
ghost use Rattle.std.specs.FinMap as map;
ghost use Rattle.rw_types.specs.declared.entry.Entry.{Entry};
ghost use Rattle.rw_series_cache.specs.Known.{definitions_of, known, Unknown};
ghost use Rattle.rw_types.specs.Labels.{label_fault};
ghost use Rattle.rw_series_cache.specs.Numbers.{series_of};
ghost use Rattle.rw_series_cache.specs.Found.{IsLookedUp};
ghost use Rattle.rw_series_cache.specs.Rising.{is_after};

use crate::known::Known;
use crate::label_sets::LabelSets;
use crate::timestamps::Timestamps;
use crate::verdict::Verdict;
use crate::verdicts::Verdicts;
use rw_history::History;
use rw_relabel::Choice;
use rw_types::{Entry, Names, RawLabels};
use std::alloc::{AllocError, Global};
use std::marker::Model;

/// What the definitions of a log say of its references, and the latest timestamp that was noted of
/// each series. Contracts see the choice of series, the definitions taken so far, and what is
/// noted.
#[derive(Drop)]
pub struct Cache {
    taken: History<Entry>,
    sets: LabelSets,
    verdicts: Verdicts,
    latest: Timestamps,
}

impl Model for Cache {
    ghost use Rattle.std.specs.Prelude.{◌≤◌, length};
    ghost use Rattle.std.specs.Coded.{codes};
    ghost use Rattle.std.specs.FinMap as map;
    ghost use Rattle.rw_series_cache.specs.Cached.{Taken};
    ghost use Rattle.rw_series_cache.specs.inner.Cached.{IsCache};
    ghost use Rattle.rw_series_cache.specs.inner.Verdicts.{verdict_in, IsWithin};

    ghost Value = { Taken };

    ghost coded = { Prim.hlevel (codes, map.code) };

    ghost view = { λ c. record {
      choice = c.sets.choice;
      definitions = c.taken;
      noted = c.latest.times;
    } };

    ghost invariant = { λ c. IsCache c.sets.choice c.taken (verdict_in c.verdicts) c.sets.series
        × (length c.sets.series ≤ c.latest.places) × IsWithin c.verdicts (length c.taken) };
}

impl Cache {
    /// Returns a cache that has taken no definition. `choice` says which series are kept. This
    /// takes no memory.
    pub fn new(alloc: Global, choice: Choice) -> Cache
        ensures { result ≡ record { choice = choice; definitions = []; noted = map.empty } }
    {
        Cache {
            taken: History::new(),
            sets: LabelSets::new(alloc, choice),
            verdicts: Verdicts::new(alloc),
            latest: Timestamps::new(alloc),
        }
    }

    /// Returns which label names are accepted.
    pub fn names(&self) -> Names
        ensures { result ≡ self.now.choice.names }
    {
        self.sets.names()
    }

    /// Takes the next definition of the log: from here on `reference` stands for `labels`. A label
    /// set that came before is not stored again, and the rules are not evaluated for it again. An
    /// `Err` changes nothing.
    pub fn define(&mut self, reference: u64, labels: RawLabels) -> Result<(), AllocError>
        ensures ok { OnOk result (self.new
            ≡ record self.old {
              definitions = self.old.definitions ++ Entry.Def reference labels
                  ∷ [];
            }) }
        ensures err { OnErr result (self.new ≡ self.old) }

        // Memory can run out only for labels that are a label set, or for the first definition of a
        // reference.
        ensures sound { OnErr result
            ((label_fault self.old.choice.names labels ≡ None)
            ⊎ (known self.old.choice self.old.definitions reference ≡ Unknown)) }
    {
        // The room is made first: once a label set has its number, nothing can fail any more.
        self.verdicts.make_room(reference)?;
        let verdict = self.sets.judge(&labels, &mut self.latest)?;
        self.verdicts.put(reference, verdict);
        self.taken.push(&Entry::Def { reference, labels });
        Ok(())
    }

    /// Returns what is known of `reference`, by its last definition.
    pub fn look(&self, reference: u64) -> Known<'_>
        ensures answer { IsLookedUp self.now.choice self.now.definitions reference result }

        // What is known after some entries of a log is what its definitions say: the samples among
        // them change nothing.
        ensures log { (entries : List Entry) → definitions_of entries ≡ self.now.definitions
            → IsLookedUp self.now.choice entries reference result }
    {
        match self.verdicts.get(reference) {
            None => Known::Unknown,
            Some(Verdict::Bad(fault)) => Known::Bad(fault),
            Some(Verdict::Filtered) => Known::Filtered,
            Some(Verdict::Kept(number)) => Known::Kept(number as u64, self.sets.get(number)),
        }
    }

    /// Returns whether `t`, in milliseconds since the Unix epoch, is later than the noted timestamp
    /// of the series, or no timestamp is noted. This takes no memory.
    pub fn rises(&self, series: u64, t: i64) -> bool
        requires within { series < length (series_of self.now.choice self.now.definitions) }
        ensures { result ≡ is_after (map.get self.now.noted series) t }
    {
        match self.latest.get(series as usize) {
            Some(last) => last < t,
            None => true,
        }
    }

    /// Notes `t`, in milliseconds since the Unix epoch, as the latest timestamp of the series. This
    /// takes no memory.
    pub fn note(&mut self, series: u64, t: i64)
        requires within { series < length (series_of self.old.choice self.old.definitions) }
        requires rising { is_after (map.get self.old.noted series) t ≡ true }
        ensures { self.new ≡ record self.old { noted = map.insert self.old.noted series t } }
    {
        self.latest.set(series as usize, t);
    }

    /// Returns how many series the rules have kept so far.
    pub fn series_count(&self) -> usize
        ensures { result ≡ length (series_of self.now.choice self.now.definitions) }
    {
        self.sets.len()
    }
}

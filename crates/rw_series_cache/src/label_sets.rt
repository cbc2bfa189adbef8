//! Label sets, judged by the rules.

ghost use Rattle.std.specs.Prelude.{◌≡◌, ◌<◌, ◌≤◌, [], length, Some, None, slice_get, IfOk, OnErr};
ghost use Rattle.std.specs.Arc.{arc_value};
ghost use Rattle.rw_types.specs.Labels.{IsLabelSet, label_fault};
ghost use Rattle.rw_series_cache.specs.inner.Cached.{Judges};

use crate::timestamps::Timestamps;
use crate::verdict::Verdict;
use indexmap::IndexSet;
use rw_relabel::Choice;
use rw_types::{LabelFault, LabelSet, Names, RawLabels};
use std::alloc::{AllocError, Global};
use std::collections::HashSet;
use std::marker::Model;
use std::sync::Arc;

/// The rules, and the label sets for which they were evaluated, each once. Contracts see the rules
/// and the kept label sets, in the order in which they came.
#[derive(Drop)]
pub(crate) struct LabelSets {
    alloc: Global,
    choice: Choice,
    kept: IndexSet<Arc<LabelSet>>,
    dropped: HashSet<Arc<LabelSet>>,
}

impl Model for LabelSets {
    ghost use Rattle.std.specs.Prelude.{map, true, false};
    ghost use Rattle.std.specs.Arc.{arc_value};
    ghost use Rattle.rw_series_cache.specs.inner.Cached.{Judged, AllJudged};

    ghost Value = { Judged };

    ghost view = { λ s. record { choice = s.choice; series = map arc_value s.kept.keys } };

    ghost invariant = { λ s. AllJudged s.choice true s.kept.keys
        × AllJudged s.choice false s.dropped.keys };
}

impl LabelSets {
    pub(crate) fn new(alloc: Global, choice: Choice) -> LabelSets
        ensures { result ≡ record { choice = choice; series = [] } }
    {
        LabelSets {
            alloc,
            choice,
            kept: IndexSet::new(alloc),
            dropped: HashSet::new(alloc),
        }
    }

    /// Returns which names are accepted.
    pub(crate) fn names(&self) -> Names
        ensures { result ≡ self.now.choice.names }
    {
        self.choice.names
    }

    /// Returns what becomes of the labels. The rules are not evaluated again for a label set that
    /// was judged before. A new series gets a place in `latest` before it gets a number. Labels
    /// with a fault take no memory.
    pub(crate) fn judge(
        &mut self,
        labels: &RawLabels,
        latest: &mut Timestamps,
    ) -> Result<Verdict, AllocError>
        requires { length self.old.series ≤ latest.old.places }
        ensures ok { IfOk result (λ v. Judges self.old self.new labels.now v) }
        ensures err { OnErr result (self.new ≡ self.old) }
        ensures sound { OnErr result (label_fault self.old.choice.names labels.now ≡ None) }
        ensures places { length self.new.series ≤ latest.new.places }
        ensures times { latest.new.times ≡ latest.old.times }
    {
        match LabelSet::check_as(self.alloc, self.choice.names, labels) {
            Ok(set) => {
                latest.make_place(self.len())?;
                self.judge_set(set)
            }
            Err(LabelFault::OutOfMemory) => Err(AllocError),
            Err(fault) => Ok(Verdict::Bad(fault)),
        }
    }

    fn judge_set(&mut self, set: LabelSet) -> Result<Verdict, AllocError>
        requires { IsLabelSet self.old.choice.names set }
        ensures ok { IfOk result (λ v. Judges self.old self.new set v) }
        ensures err { OnErr result (self.new ≡ self.old) }
    {
        let set = Arc::new(self.alloc, set)?;
        if let Some(number) = self.kept.get_index_of(&set) {
            return Ok(Verdict::Kept(number));
        }
        if self.dropped.contains(&set) {
            return Ok(Verdict::Filtered);
        }
        if self.choice.rules.keeps(&set)? {
            let (number, _) = self.kept.insert_full(set)?;
            Ok(Verdict::Kept(number))
        } else {
            self.dropped.insert(set)?;
            Ok(Verdict::Filtered)
        }
    }

    /// Returns the series of a number.
    pub(crate) fn get(&self, number: usize) -> &Arc<LabelSet>
        requires within { number < length self.now.series }
        ensures { slice_get self.now.series number ≡ Some (arc_value result.now) }
    {
        match self.kept.get_index(number) {
            Some(set) => set,
            None => unreachable!(),
        }
    }

    /// Returns how many series there are.
    pub(crate) fn len(&self) -> usize
        ensures { result ≡ length self.now.series }
    {
        self.kept.len()
    }
}

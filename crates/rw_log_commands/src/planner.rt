//! The plan of a log, entry by entry.

ghost use Rattle.std.specs.Prelude.{◌≡◌, [], ◌∷◌, ◌++◌, List, false, true, IfOk, OnOk, OnErr};
ghost use Rattle.rw_external_labels.specs.External.{labelled};
ghost use Rattle.rw_types.specs.declared.entry.Entry.{Entry};
ghost use Rattle.rw_series_cache.specs.Known.{known, definitions_of};
ghost use Rattle.rw_log_commands.specs.Plan.{plan_line, plan_text};
ghost use Rattle.rw_log_commands.specs.inner.Planned.{with_sample};

use crate::counts::SampleCounts;
use crate::lines::{push_bad, push_found};
use rw_external_labels::ExternalLabels;
use rw_history::History;
use rw_relabel::Choice;
use rw_series_cache::Cache;
use rw_types::{Entry, LabelFault, LabelSet, RawLabels};
use std::alloc::{AllocError, Global};
use std::marker::Model;

/// The plan of the entries so far, with external labels. Contracts see the rules, these labels, the
/// entries without them, and whether a call has failed: then each later call fails too.
#[derive(Drop)]
pub struct Planner {
    alloc: Global,
    external: ExternalLabels,
    taken: History<Entry>,
    cache: Cache,
    lines: Vec<u8>,
    counts: SampleCounts,
    has_failed: bool,
}

impl Model for Planner {
    ghost use Rattle.std.specs.Prelude.{◌≡◌, false};
    ghost use Rattle.rw_external_labels.specs.External.{labelled};
    ghost use Rattle.rw_log_commands.specs.Planned.{Planned};
    ghost use Rattle.rw_log_commands.specs.inner.Planned.{IsPlanned};

    ghost Value = { Planned };

    ghost view = { λ p. record {
      choice = p.cache.choice;
      external = p.external;
      entries = p.taken;
      has_failed = p.has_failed;
    } };

    ghost invariant = { λ p. p.has_failed ≡ false
        → IsPlanned p.cache.choice (labelled p.external p.taken) p.cache p.lines.items p.counts };
}

/// Takes a definition, and adds its line.
fn define(
    alloc: Global,
    cache: &mut Cache,
    lines: &mut Vec<u8>,
    reference: u64,
    labels: RawLabels,
) -> Result<(), AllocError>
    ensures cache { OnOk result (cache.new
        ≡ record cache.old {
          definitions = cache.old.definitions ++ Entry.Def reference labels
              ∷ [];
        }) }
    ensures lines { (entries : List Entry) → definitions_of entries ≡ cache.old.definitions
        → OnOk result
        (lines.new.items
        ≡ lines.old.items ++ plan_line cache.old.choice entries (Entry.Def reference labels)) }
{
    match LabelSet::check_as(alloc, cache.names(), &labels) {
        Ok(set) => {
            cache.define(reference, labels)?;
            push_found(lines, reference, &set, &cache.look(reference))
        }
        Err(LabelFault::OutOfMemory) => Err(AllocError),
        Err(fault) => {
            cache.define(reference, labels)?;
            push_bad(lines, reference, fault)
        }
    }
}

/// Counts a sample.
fn count(cache: &Cache, counts: &mut SampleCounts, reference: u64) -> Result<(), AllocError>
    ensures { (entries : List Entry) → definitions_of entries ≡ cache.now.definitions
        → OnOk result
        (counts.new ≡ with_sample counts.old (known cache.now.choice entries reference)) }
{
    counts.count(&cache.look(reference))
}

impl Planner {
    /// Returns a planner before the first entry.
    pub fn new(alloc: Global, choice: Choice, external: ExternalLabels) -> Planner
        ensures { result
            ≡ record { choice = choice; external = external; entries = []; has_failed = false } }
    {
        Planner {
            alloc,
            external,
            taken: History::new(),
            cache: Cache::new(alloc, choice),
            lines: Vec::new(alloc),
            counts: SampleCounts {
                kept: 0,
                filtered: 0,
                bad: 0,
                noseries: 0,
            },
            has_failed: false,
        }
    }

    /// Takes the next entry.
    pub fn take(&mut self, entry: Entry) -> Result<(), AllocError>
        ensures ok { OnOk result
            (self.new ≡ record self.old { entries = self.old.entries ++ entry ∷ [] }) }
        ensures sound { OnOk result (self.old.has_failed ≡ false) }
        ensures err { OnErr result (self.new.has_failed ≡ true) }
        ensures kept { OnErr result (self.new.entries ≡ self.old.entries) }
    {
        if self.has_failed {
            return Err(AllocError);
        }
        self.has_failed = true;
        let mut taken = self.taken.again();
        taken.push(&entry);
        let labelled = self.external.label(self.alloc, entry)?;
        match labelled {
            Entry::Def { reference, labels } => define(
                self.alloc,
                &mut self.cache,
                &mut self.lines,
                reference,
                labels,
            )?,
            Entry::Sample { reference, .. } => {
                count(&self.cache, &mut self.counts, reference)?;
            }
        }
        self.taken = taken;
        self.has_failed = false;
        Ok(())
    }

    /// Returns the plan of the entries with the external labels. A planner of which a call has
    /// failed has none.
    pub fn into_text(self) -> Result<Vec<u8>, AllocError>
        ensures text { IfOk result
            (λ v. v.items ≡ plan_text self.choice (labelled self.external self.entries)) }
        ensures sound { OnOk result (self.has_failed ≡ false) }
    {
        let Planner {
            alloc: _,
            external: _,
            taken: _,
            cache: _,
            mut lines,
            counts,
            has_failed,
        } = self;
        if has_failed {
            return Err(AllocError);
        }
        counts.push_to(&mut lines)?;
        Ok(lines)
    }
}

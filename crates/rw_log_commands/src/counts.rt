//! Samples, counted.

ghost use Rattle.std.specs.Prelude.{◌≡◌, ◌+◌, ◌++◌, IfOk, OnOk};
ghost use Rattle.rw_series_cache.specs.Found.{standing_in};
ghost use Rattle.rw_log_commands.specs.Plan.{count_text, counts_text};
ghost use Rattle.rw_log_commands.specs.inner.Planned.{with_sample};

use rw_series_cache::Known;
use rw_text::push_number;
use std::alloc::AllocError;

/// How many samples there are of each kind.
#[derive(Clone, Copy, Debug, PartialEq, Eq)]
pub(crate) struct SampleCounts {
    /// Samples of series that the rules keep.
    pub(crate) kept: u64,
    /// Samples of series that the rules drop.
    pub(crate) filtered: u64,
    /// Samples whose labels are not a label set.
    pub(crate) bad: u64,
    /// Samples without a definition before them.
    pub(crate) noseries: u64,
}

/// Returns a count increased by one. A count that does not fit counts as out of memory.
fn one_more(count: u64) -> Result<u64, AllocError>
    ensures { IfOk result (λ n. n ≡ count + 1) }
{
    count.checked_add(1).ok_or(AllocError)
}

/// Adds a count after its word.
#[tactic(auto, unfolding(crate::specs::Plan::count_text))]
fn push_count(out: &mut Vec<u8>, word: &[u8], count: u64) -> Result<(), AllocError>
    ensures { OnOk result (out.new.items ≡ out.old.items ++ count_text word.now count) }
{
    out.extend_from_slice(word)?;
    push_number(out, count)
}

impl SampleCounts {
    /// Counts a sample by what is known of its reference.
    pub(crate) fn count(&mut self, found: &Known<'_>) -> Result<(), AllocError>
        ensures { OnOk result (self.new ≡ with_sample self.old (standing_in found.now)) }
    {
        match found {
            Known::Kept(_, _) => self.kept = one_more(self.kept)?,
            Known::Filtered => self.filtered = one_more(self.filtered)?,
            Known::Bad(_) => self.bad = one_more(self.bad)?,
            Known::Unknown => self.noseries = one_more(self.noseries)?,
        }
        Ok(())
    }

    /// Adds the line of the counts.
    pub(crate) fn push_to(&self, out: &mut Vec<u8>) -> Result<(), AllocError>
        ensures { OnOk result (out.new.items ≡ out.old.items ++ counts_text self.now) }
    {
        push_count(out, b"samples kept ", self.kept)?;
        push_count(out, b" filtered ", self.filtered)?;
        push_count(out, b" bad ", self.bad)?;
        push_count(out, b" noseries ", self.noseries)?;
        out.extend_from_slice(b"\n")
    }
}

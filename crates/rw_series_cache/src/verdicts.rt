//! The verdicts of references.

ghost use Rattle.std.specs.Prelude.{◌≡◌, ℕ, ◌+◌, ◌*◌, ◌≤◌, None, OnErr, OnOk, Some, nat_eq, if◌then◌else◌};
ghost use Rattle.rw_series_cache.specs.inner.Verdicts.{verdict_in, HasRoom, IsWithin};

use crate::verdict::Verdict;
use std::alloc::{AllocError, Global};
use std::collections::HashMap;

/// How many places the table may have for each definition, and beyond that.
const PLACES_FOR_EACH: usize = 4;

const PLACES_BEYOND: usize = 1024;

/// What was found of the last labels of each reference. References that are small for the number of
/// definitions, as those of a server that numbers its series from 1, are in a table; the others are
/// in a map beside it. If both have a reference, the table counts.
#[derive(Drop)]
pub(crate) struct Verdicts {
    table: Vec<Option<Verdict>>,
    beside: HashMap<u64, Verdict>,
    definitions: usize,
}

impl Verdicts {
    /// Returns an empty list of verdicts. This takes no memory.
    pub(crate) fn new(alloc: Global) -> Verdicts
        ensures empty { (r : ℕ) → verdict_in result r ≡ None }
        ensures within { IsWithin result 0 }
    {
        Verdicts {
            table: Vec::new(alloc),
            beside: HashMap::new(alloc),
            definitions: 0,
        }
    }

    /// Returns what was found of a reference. This takes no memory.
    pub(crate) fn get(&self, reference: u64) -> Option<Verdict>
        ensures { result ≡ verdict_in self.now reference }
    {
        match self.table.get(reference as usize) {
            Some(Some(verdict)) => Some(*verdict),
            _ => self.beside.get(&reference).copied(),
        }
    }

    /// Makes room for the verdict of a reference. A reference that has a verdict takes no memory.
    /// The table is extended only for a reference that is small for the number of definitions,
    /// since a log may use any number.
    pub(crate) fn make_room(&mut self, reference: u64) -> Result<(), AllocError>
        ensures ok { OnOk result (HasRoom self.new reference) }
        ensures sound { OnErr result (verdict_in self.old reference ≡ None) }
        ensures same { (r : ℕ) → verdict_in self.new r ≡ verdict_in self.old r }

        // However large the reference is, the table reaches no further than the definitions so far
        // allow.
        ensures within { (count : ℕ) → IsWithin self.old count → IsWithin self.new count }
    {
        let place = reference as usize;
        if place < self.table.len() || self.beside.contains_key(&reference) {
            return Ok(());
        }
        if place < self.most_places() {
            self.table.resize(place + 1, None)
        } else {
            self.beside.reserve(1)
        }
    }

    /// Puts the verdict of a reference. This takes no memory.
    pub(crate) fn put(&mut self, reference: u64, verdict: Verdict)
        requires { HasRoom self.old reference }
        ensures found { (r : ℕ) → verdict_in self.new r
            ≡ (if nat_eq reference r then Some verdict else verdict_in self.old r) }
        ensures within { (count : ℕ) → IsWithin self.old count → IsWithin self.new (count + 1) }
    {
        self.definitions = self.definitions.saturating_add(1);
        let place = reference as usize;
        if place < self.table.len() {
            self.table[place] = Some(verdict);
        } else {
            let put: Result<_, _> = self.beside.insert(reference, verdict);
            put.unwrap();
        }
    }

    /// Returns how many places the table may have by now.
    fn most_places(&self) -> usize
        ensures { result ≤ 4 * self.now.definitions + 1024 }
    {
        self.definitions
            .saturating_mul(PLACES_FOR_EACH)
            .saturating_add(PLACES_BEYOND)
    }
}

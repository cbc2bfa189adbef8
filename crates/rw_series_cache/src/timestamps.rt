//! The latest noted timestamps of series.

ghost use Rattle.std.specs.Prelude.{◌≡◌, ◌<◌, ◌≤◌, OnOk};
ghost use Rattle.std.specs.FinMap as map;

use std::alloc::{AllocError, Global};
use std::marker::Model;

/// Of each series, by its number, the latest timestamp that was noted, in milliseconds since the
/// Unix epoch. Contracts see the noted ones, and for how many series there is a place.
#[derive(Drop)]
pub(crate) struct Timestamps {
    latest: Vec<Option<i64>>,
}

impl Model for Timestamps {
    ghost use Rattle.std.specs.Prelude.{length};
    ghost use Rattle.std.specs.Coded.{codes};
    ghost use Rattle.std.specs.FinMap as map;
    ghost use Rattle.rw_series_cache.specs.inner.Noted.{Times, times_from};

    ghost Value = { Times };

    ghost coded = { Prim.hlevel (codes, map.code) };

    ghost view = { λ s. record {
      places = length s.latest.items;
      times = times_from 0 s.latest.items;
    } };
}

impl Timestamps {
    /// Returns timestamps without a place. This takes no memory.
    pub(crate) fn new(alloc: Global) -> Timestamps
        ensures places { result.places ≡ 0 }
        ensures times { result.times ≡ map.empty }
    {
        Timestamps {
            latest: Vec::new(alloc),
        }
    }

    /// Makes one more place, if there are at most `count`.
    pub(crate) fn make_place(&mut self, count: usize) -> Result<(), AllocError>
        requires { count ≤ self.old.places }
        ensures ok { OnOk result (count < self.new.places) }
        ensures grows { self.old.places ≤ self.new.places }
        ensures times { self.new.times ≡ self.old.times }
    {
        if self.latest.len() == count {
            self.latest.push(None)?;
        }
        Ok(())
    }

    /// Returns what is noted at a place.
    pub(crate) fn get(&self, place: usize) -> Option<i64>
        requires { place < self.now.places }
        ensures { result ≡ map.get self.now.times place }
    {
        self.latest[place]
    }

    /// Notes a timestamp at a place.
    pub(crate) fn set(&mut self, place: usize, t: i64)
        requires { place < self.old.places }
        ensures { self.new ≡ record self.old { times = map.insert self.old.times place t } }
    {
        self.latest[place] = Some(t);
    }
}

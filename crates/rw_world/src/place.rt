//! The placing of the next entry of the log.

ghost use Rattle.std.specs.Prelude.{◌≡◌, ◌<◌, ◌^◌, suc, OnOk, OnErr};
ghost use Rattle.std.specs.FinMap.{insert};
ghost use Rattle.rw_machine.specs.Steps.{place};
ghost use Rattle.rw_world.specs.inner.Machine.{IsDroppedNext, IsSampleNext, with_sample};

use crate::engine::Engine;
use rw_ledger::Reason;
use rw_series_cache::{Routed, RoutedSample};
use std::alloc::AllocError;

impl Engine {
    /// Names the next entry, a sample, as dropped.
    fn name_next(&mut self, reason: Reason) -> Result<(), AllocError>
        requires next { IsDroppedNext self.old reason }
        requires small { self.old.world.placed < 2 ^ 60 }
        ensures ok { OnOk result (self.new
            ≡ record self.old {
              world = record self.old.world {
                names = insert
                    self.old.world.names self.old.world.placed reason;
                placed = suc self.old.world.placed;
              };
            }) }
        ensures err { OnErr result (self.new ≡ self.old) }
    {
        self.senders.name(self.placed, reason)?;
        self.placed += 1;
        Ok(())
    }

    /// Puts the next entry, this sample, if there is room.
    fn put_next(&mut self, sample: RoutedSample) -> Result<(), AllocError>
        requires next { IsSampleNext self.old sample }
        requires small { self.old.world.placed < 2 ^ 60 }
        ensures ok { OnOk result (self.new ≡ with_sample self.old sample) }
        ensures err { OnErr result (self.new ≡ self.old) }
    {
        let RoutedSample {
            pos,
            series,
            t,
            word,
            labels,
        } = sample;
        let i = (series % self.senders.len() as u64) as usize;
        if !self.senders.has_room(i) {
            return Ok(());
        }
        self.senders.put(i, pos, series, t, word, labels)?;
        self.router.sent(series, t);
        self.placed += 1;
        Ok(())
    }

    /// Places the next entry, if there is one and it may be placed.
    pub(crate) fn place(&mut self) -> Result<(), AllocError>
        ensures ok { OnOk result
            (self.new ≡ record self.old { world = place self.old.setup self.old.world }) }
        ensures err { OnErr result (self.new ≡ self.old) }
    {
        if self.draining.is_some() || self.placed >= self.log.len() {
            return Ok(());
        }
        let Some(entry) = self.log.entry(self.placed)? else {
            return Ok(());
        };
        match self.router.place(self.placed, entry)? {
            Routed::Placed => {
                self.placed += 1;
                Ok(())
            }
            Routed::Dropped(reason) => self.name_next(reason),
            Routed::Sample(sample) => self.put_next(sample),
        }
    }
}

//! The world: whatever happens, each logged sample arrives once and in order.

ghost use Rattle.std.specs.Prelude.{◌≡◌, ◌<◌, ◌^◌, true, false, Some, length, take, slice_get, IsOk, IfOk, IfErr, OnOk, OnErr};
ghost use Rattle.rw_head.specs.Store.{list_of, label_sets};
ghost use Rattle.std.specs.Option.{option_map};
ghost use Rattle.rw_machine.specs.Worlds.{Request, start, report, is_over};
ghost use Rattle.rw_machine.specs.Promises.{IsSettled};
ghost use Rattle.rw_shard_core.specs.Endings.{ending_of};
ghost use Rattle.rw_machine.specs.Steps.{happens, run};
ghost use Rattle.rw_world.specs.Machine.{setup_of, takes_memory};
ghost use Rattle.rw_world.specs.Reached.{IsKept};
ghost use Rattle.rw_world.specs.Rounds.{HasShutDown};

use crate::engine::Engine;
use rw_head::{LabelSets, Limits};
use rw_ledger::Ledger;
use rw_machine::{
    Event, closed_queues_hand_out_nothing, each_batch_has_one_fate, each_sample_has_one_class,
    logged_samples_arrive_in_order, requests_carry_their_batches, shards_keep_their_lists,
    shutdown_comes_to_its_report,
};
use rw_shard_core::{Config, Outcome};
use rw_types::{LabelSet, Word};
use std::alloc::{AllocError, Global};
use std::marker::Model;

/// A sender, the network and a receiving head on one thread, moved by events.
///
/// Contracts see what it was set to and what it has come to. The receiver is at the path of the
/// sender's target.
#[derive(Drop)]
pub struct World {
    engine: Engine,
}

impl Model for World {
    ghost use Rattle.std.specs.Coded.{codes};
    ghost use Rattle.std.specs.FinMap as map;
    ghost use Rattle.rw_world.specs.Machine.{Machine};
    ghost use Rattle.rw_world.specs.inner.Reached.{IsReached};

    ghost Value = { Machine };

    ghost coded = { Prim.hlevel (codes, map.code) };

    ghost view = { λ w. w.engine };

    ghost invariant = { λ w. IsReached w.engine };
}

/// Memory ran out in the event at this index, counted from 0.
#[derive(Clone, Copy, Debug, PartialEq, Eq)]
pub struct Refused {
    pub at: usize,
}

impl World {
    /// Returns a world before the first event.
    pub fn new(alloc: Global, config: Config, limits: Limits) -> Result<World, AllocError>
        ensures { IfOk result
            (λ w. w ≡ record {
              setup = setup_of config limits;
              world = start (setup_of config limits);
            }) }
    {
        let engine = Engine::new(alloc, config, limits)?;
        Ok(World { engine })
    }

    fn happen(&mut self, event: &Event) -> Result<(), AllocError>
        ensures ok { OnOk result (self.new
            ≡ record self.old { world = happens self.old.setup self.old.world event.now }) }
        ensures err { OnErr result (self.new ≡ self.old) }
        ensures never { takes_memory event.now ≡ false → IsOk result }
    {
        self.engine.happen(event)
    }

    /// Law: what is true of every world.
    pub fn promises(&self)
        ensures { IsKept self.now.setup self.now.world }
    {
        self.engine.answers_bytes();
        logged_samples_arrive_in_order();
        closed_queues_hand_out_nothing();
        each_sample_has_one_class();
        each_batch_has_one_fate();
        requests_carry_their_batches();
        shards_keep_their_lists();
    }

    /// Lets one event happen. If memory runs out, the world is as it was.
    pub fn step(&mut self, event: Event) -> Result<(), AllocError>
        ensures ok { OnOk result
            (self.new ≡ record self.old { world = happens self.old.setup self.old.world event }) }
        ensures err { OnErr result (self.new ≡ self.old) }
        // An event that takes no memory never fails.
        ensures never { takes_memory event ≡ false → IsOk result }
        // What is true of every world.
        ensures kept { IsKept self.new.setup self.new.world }
    {
        let result = self.happen(&event);
        self.promises();
        result
    }

    /// Lets events happen, one after the other. If one fails, the world is as it was after the
    /// events before it.
    fn run_all(&mut self, events: &[Event]) -> Result<(), Refused>
        ensures ok { OnOk result
            (self.new ≡ record self.old { world = run self.old.setup events.now self.old.world }) }
        ensures err { IfErr result (λ r. (r.at < length events.now)
            × (self.new
            ≡ record self.old {
              world = run self.old.setup
                  (take r.at events.now) self.old.world;
            })) }
    {
        for at in 0..events.len() {
            match self.happen(&events[at]) {
                Ok(()) => {}
                Err(AllocError) => return Err(Refused { at }),
            }
        }
        Ok(())
    }

    /// Lets events happen, one after the other. If one fails, the world is as it was after the
    /// events before it.
    pub fn run(&mut self, events: &[Event]) -> Result<(), Refused>
        ensures ok { OnOk result
            (self.new ≡ record self.old { world = run self.old.setup events.now self.old.world }) }
        ensures err { IfErr result (λ r. (r.at < length events.now)
            × (self.new
            ≡ record self.old {
              world = run self.old.setup
                  (take r.at events.now) self.old.world;
            })) }
        // What is true of every world.
        ensures kept { IsKept self.new.setup self.new.world }
    {
        let result = self.run_all(events);
        self.promises();
        result
    }

    /// Plays rounds of an orderly shutdown until there is a report.
    fn shut_down(&mut self) -> Result<(), AllocError>
        ensures rounds { HasShutDown self.old self.new }
        ensures settled { OnOk result (IsSettled self.old.setup self.old.world self.new.world) }
        ensures stays { is_over self.old.world ≡ true → self.new ≡ self.old }
    {
        shutdown_comes_to_its_report();
        self.engine.settle()
    }

    /// Shuts the sender down in order: no more is read, all that was read is placed and sent.
    /// Returns how the work has ended. If memory runs out, some of the rounds were played, and a
    /// later call goes on from there.
    pub fn settle(&mut self) -> Result<Outcome, AllocError>
        ensures rounds { HasShutDown self.old self.new }
        ensures report { IfOk result (λ o. report self.new.world ≡ Some (ending_of o)) }
        // Everything is resolved, or the log is damaged.
        ensures settled { OnOk result (IsSettled self.old.setup self.old.world self.new.world) }
        // A world that has its report stays as it is.
        ensures stays { is_over self.old.world ≡ true → self.new ≡ self.old }
        // What is true of every world.
        ensures kept { IsKept self.new.setup self.new.world }
    {
        let result = self.shut_down();
        self.promises();
        result?;
        match self.report()? {
            Some(outcome) => Ok(outcome),
            None => unreachable!(),
        }
    }

    /// Returns how the work has ended, once it has. If the world was stopped, this looks each
    /// placed entry up among the samples that are not resolved.
    pub fn report(&self) -> Result<Option<Outcome>, AllocError>
        ensures report { IfOk result (λ r. option_map ending_of r ≡ report self.now.world) }
        // What is true of every world.
        ensures kept { IsKept self.now.setup self.now.world }
    {
        self.promises();
        self.engine.report()
    }

    /// Returns the samples that the receiver holds of a label set in order, as (timestamp in
    /// milliseconds, value).
    pub fn received(&self, labels: &LabelSet) -> Result<Vec<(i64, Word)>, AllocError>
        ensures list { IfOk result (λ v. v.items ≡ list_of self.now.world.head.store labels.now) }
        // What is true of every world.
        ensures kept { IsKept self.now.setup self.now.world }
    {
        self.promises();
        self.engine.received(labels)
    }

    /// Returns the label sets of which the receiver holds samples, by byte order of their lists of
    /// (name, value). This takes no memory.
    pub fn label_sets(&self) -> LabelSets<'_>
        ensures list { result ≡ label_sets self.now.world.head.store }
        ensures fits { length result < 2 ^ 63 }
    {
        self.engine.label_sets()
    }

    /// Returns the bytes of the request with this number, from 0, of all that were sent: what goes
    /// over the network.
    pub fn request(&self, k: usize) -> Option<&[u8]>
        ensures bytes { option_map (λ b. b.now) result
            ≡ option_map (λ (r : Request). r.bytes) (slice_get self.now.world.requests k) }
        // What is true of every world.
        ensures kept { IsKept self.now.setup self.now.world }
    {
        self.promises();
        self.engine.request(k)
    }

    /// Returns how many samples were placed whose series the rules drop.
    pub fn filtered(&self) -> u64
        ensures { result ≡ self.now.world.filtered }
    {
        self.engine.filtered()
    }

    /// Returns the dropped samples.
    pub fn ledger(&self) -> &Ledger
        ensures { result.now.names ≡ self.now.world.names }
    {
        self.engine.ledger()
    }
}

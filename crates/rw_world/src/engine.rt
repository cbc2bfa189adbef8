//! A sender, the network and a receiving head.

ghost use Rattle.std.specs.Prelude.{◌≡◌, ◌^◌, ◌<◌, true, false, Some, None, length, IfOk};
ghost use Rattle.rw_head.specs.Store.{list_of, label_sets};
ghost use Rattle.rw_machine.specs.Worlds.{start, is_finished, is_over};
ghost use Rattle.rw_machine.specs.Promises.{CanWork};
ghost use Rattle.rw_world.specs.Machine.{setup_of};

use crate::log::LogInPieces;
use crate::receiver::{copy_of, limits_at};
use crate::sent::{BatchReply, SentBatch};
use crate::shards::Shards;
use rw_head::{Head, LabelSets, Limits};
use rw_ledger::Ledger;
use rw_relabel::Choice;
use rw_series_cache::Router;
use rw_shard_core::{Config, ConfigFields};
use rw_types::{Bounded, HostName, LabelSet, Word};
use std::alloc::{AllocError, Global};
use std::marker::Model;

/// A sender, the network and a receiving head on one thread, moved by events.
#[derive(Drop)]
pub(crate) struct Engine {
    pub(crate) alloc: Global,
    /// The number of shards at the start.
    pub(crate) shards: Bounded<1, 1_000>,
    /// The host of the receiver.
    pub(crate) host: HostName,
    /// The limits of the receiver, which is at the target's path.
    pub(crate) limits: Limits,
    pub(crate) log: LogInPieces,
    pub(crate) placed: u64,
    pub(crate) router: Router,
    pub(crate) senders: Shards,
    pub(crate) requests: Vec<SentBatch>,
    pub(crate) replies: Vec<BatchReply>,
    pub(crate) head: Head,
    pub(crate) draining: Option<u64>,
    pub(crate) closed: Option<u64>,
    pub(crate) killed: bool,
}

impl Model for Engine {
    ghost use Rattle.std.specs.Coded.{codes};
    ghost use Rattle.std.specs.FinMap as map;
    ghost use Rattle.rw_series_cache.specs.Numbers.{series_of};
    ghost use Rattle.rw_world.specs.Machine.{Machine, label_limits};
    ghost use Rattle.rw_world.specs.inner.Machine.{IsWorld};
    ghost use Rattle.rw_world.specs.inner.Arriving.{IsServed};

    ghost Value = { Machine };

    ghost coded = { Prim.hlevel (codes, map.code) };

    ghost view = { λ w. record {
      setup = record {
        target = w.senders.target;
        shards = w.shards;
        capacity = w.senders.capacity;
        batch = w.senders.batch;
        choice = w.router.cache.choice;
        limits = label_limits w.limits;
        max_body = w.limits.max_body_bytes;
        busy = w.limits.busy_first;
      };
      world = record {
        pieces = w.log;
        placed = w.placed;
        series = series_of w.router.cache.choice w.router.cache.definitions;
        epoch = w.senders.epoch;
        shards = w.senders.shards;
        requests = w.requests.items;
        replies = w.replies.items;
        head = w.head;
        names = w.senders.names;
        filtered = w.router.filtered;
        draining = w.draining;
        closed = w.closed;
        killed = w.killed;
      };
    } };

    ghost invariant = { λ w. IsWorld w.senders.next w.placed w.log w.router w.draining
        × IsServed w.senders.target w.host w.limits.path w.requests.items };
}

impl Engine {
    /// Returns the engine before the first event.
    pub(crate) fn new(alloc: Global, config: Config, limits: Limits) -> Result<Engine, AllocError>
        ensures start { IfOk result (λ w. w
            ≡ record { setup = setup_of config limits; world = start (setup_of config limits) }) }
        ensures can { IfOk result (λ w. CanWork w.setup) }
    {
        let ConfigFields {
            target,
            shards,
            min_shards: _,
            max_shards: _,
            capacity,
            batch,
            min_backoff_ms: _,
            max_backoff_ms: _,
            timeout_ms: _,
            names,
            snappy: _,
            rules,
        } = config.into_fields();
        let host = copy_of(alloc, &target.host)?;
        let limits = limits_at(alloc, limits, &target.path)?;
        let senders = Shards::new(
            alloc,
            target,
            capacity.get() as usize,
            batch.get() as usize,
            shards.get() as usize,
        )?;
        Ok(Engine {
            alloc,
            shards,
            host,
            log: LogInPieces::new(alloc),
            placed: 0,
            router: Router::new(alloc, Choice { names, rules }),
            senders,
            requests: Vec::new(alloc),
            replies: Vec::new(alloc),
            head: Head::new(alloc, &limits),
            limits,
            draining: None,
            closed: None,
            killed: false,
        })
    }

    /// Returns whether all that is to be sent was placed.
    pub(crate) fn is_finished(&self) -> bool
        ensures { result ≡ is_finished self.now.world }
    {
        match self.closed {
            Some(end) => self.placed == end,
            None => false,
        }
    }

    /// Returns whether there is a report.
    pub(crate) fn is_over(&self) -> bool
        ensures { result ≡ is_over self.now.world }
    {
        if self.killed {
            return true;
        }
        if !self.is_finished() {
            return false;
        }
        self.senders.are_drained()
    }

    /// Returns the samples that the receiver holds of a label set in order, as (timestamp in
    /// milliseconds, value).
    pub(crate) fn received(&self, labels: &LabelSet) -> Result<Vec<(i64, Word)>, AllocError>
        ensures { IfOk result (λ v. v.items ≡ list_of self.now.world.head.store labels.now) }
    {
        self.head.samples(labels)
    }

    /// Returns the label sets of which the receiver holds samples, by byte order of their lists of
    /// (name, value). This takes no memory.
    pub(crate) fn label_sets(&self) -> LabelSets<'_>
        ensures list { result ≡ label_sets self.now.world.head.store }
        ensures fits { length result < 2 ^ 63 }
    {
        self.head.label_sets()
    }

    /// Returns how many samples were placed whose series the rules drop.
    pub(crate) fn filtered(&self) -> u64
        ensures { result ≡ self.now.world.filtered }
    {
        self.router.filtered()
    }

    /// Returns the dropped samples.
    pub(crate) fn ledger(&self) -> &Ledger
        ensures { result.now.names ≡ self.now.world.names }
    {
        self.senders.ledger()
    }
}

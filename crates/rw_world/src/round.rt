//! The rounds of an orderly shutdown.

ghost use Rattle.std.specs.Prelude.{◌≡◌, ◌||◌, [], ◌∷◌, true, None, Some, is_some, slice_get, if◌then◌else◌, OnOk, OnErr};
ghost use Rattle.std.specs.List.{position};
ghost use Rattle.rw_series_cache.specs.Known.{known};
ghost use Rattle.rw_machine.specs.Settling.{at_first, first_of_these, can_place, can_place_known, exchange_at, newest_from, next_events};
ghost use Rattle.rw_machine.specs.Steps.{happens, run};
ghost use Rattle.rw_machine.specs.Worlds.{is_finished, is_over};
ghost use Rattle.rw_machine.specs.declared.event.Event.TheVariants as event;
ghost use Rattle.rw_shard_core.specs.Shard.{same_id};
ghost use Rattle.rw_world.specs.Guards.{is_open, is_ready, may_take, may_flush};
ghost use Rattle.rw_world.specs.inner.Guards.{IsOpen};
ghost use Rattle.rw_world.specs.inner.Machine.{placed_entries};
ghost use Rattle.rw_world.specs.inner.Rounds.{events_of, HasSettled};

use crate::engine::Engine;
use crate::log::Ahead;
use crate::sent::SentBatch;
use rw_batch::BatchId;
use rw_machine::{Event, How};
use std::alloc::AllocError;

/// What comes next.
#[derive(Clone, Copy)]
pub(crate) enum Next {
    Place,
    /// The request with the first number arrives, and the reply with the second.
    Exchange(u64, u64),
    Send(u64),
    Freeze(u64),
    Take(u64),
    Flush(u64),
    Restart,
}

fn is_same(a: BatchId, b: BatchId) -> bool
    ensures { result ≡ same_id a b }
{
    a.epoch == b.epoch && a.shard == b.shard && a.seq == b.seq
}

/// Returns the number of the newest request with this id.
fn newest(requests: &[SentBatch], id: BatchId) -> u64
    ensures { result ≡ newest_from id 0 requests.now 0 }
{
    let mut k = requests.len();
    while k > 0 {
        k -= 1;
        let sent = &requests[k];
        if is_same(id, sent.id()) {
            return k as u64;
        }
    }
    0
}

impl Engine {
    /// Returns whether a sample of this reference and timestamp may be placed. Only one that is
    /// sent needs room.
    fn can_place_known(&self, reference: u64, t: i64) -> bool
        ensures { result
            ≡ can_place_known self.now.setup self.now.world t
            (known self.now.setup.choice (placed_entries self.now) reference) }
    {
        match self.router.would_send(reference, t) {
            Some(series) => {
                let i = (series % self.senders.len() as u64) as usize;
                self.senders.has_room(i)
            }
            None => true,
        }
    }

    /// Returns whether the next entry may be placed.
    fn can_place(&self) -> bool
        ensures { result ≡ can_place self.now.setup self.now.world }
    {
        if self.draining.is_some() {
            return false;
        }
        match self.log.ahead(self.placed) {
            Ahead::Nothing => false,
            Ahead::Definition => true,
            Ahead::Sample(reference, t) => self.can_place_known(reference, t),
        }
    }

    fn first_open(&self) -> Option<usize>
        ensures { result ≡ position is_open self.now.world.shards }
    {
        self.senders.first_open()
    }

    fn first_due(&self) -> Option<usize>
        ensures { result ≡ position is_ready self.now.world.shards }
    {
        self.senders.first_due()
    }

    fn first_taking(&self) -> Option<usize>
        ensures { result ≡ position may_take self.now.world.shards }
    {
        self.senders.first_taking()
    }

    fn first_flushing(&self) -> Option<usize>
        ensures { result ≡ position (may_flush self.now.setup.capacity) self.now.world.shards }
    {
        self.senders.first_flushing()
    }

    /// Returns the next event for this shard's open batch: it is sent, or, if it waits, its newest
    /// request arrives and is replied to.
    fn exchange(&self, i: usize) -> Next
        requires { IsOpen (slice_get self.now.world.shards i) }
        ensures { events_of result
            ≡ exchange_at self.now.world i (slice_get self.now.world.shards i) }
    {
        match self.senders.waiting_id(i) {
            Some(id) => Next::Exchange(newest(&self.requests, id), self.replies.len() as u64),
            None => Next::Send(i as u64),
        }
    }

    /// Returns whether each shard is to be put its End.
    fn is_ending(&self) -> bool
        ensures { result ≡ (is_finished self.now.world || is_some self.now.world.draining) }
    {
        if self.is_finished() {
            return true;
        }
        self.draining.is_some()
    }

    /// Returns the next mark, if one is to come and there is room for it, or else the change to the
    /// next shards.
    fn mark(&self) -> Next
        ensures { events_of result
            ≡ first_of_these (if is_finished self.now.world || is_some self.now.world.draining
            then at_first (may_flush self.now.setup.capacity) (λ i. event.Flush i ∷ [])
            self.now.world
            else None) (event.Restart ∷ []) }
    {
        if !self.is_ending() {
            return Next::Restart;
        }
        match self.first_flushing() {
            Some(i) => Next::Flush(i as u64),
            None => Next::Restart,
        }
    }

    /// Returns what comes next.
    fn next(&self) -> Next
        ensures { events_of result ≡ next_events self.now.setup self.now.world }
    {
        if self.can_place() {
            return Next::Place;
        }
        if let Some(i) = self.first_open() {
            return self.exchange(i);
        }
        if let Some(i) = self.first_due() {
            return Next::Freeze(i as u64);
        }
        if let Some(i) = self.first_taking() {
            return Next::Take(i as u64);
        }
        self.mark()
    }

    /// Lets this reply arrive.
    fn hear(&mut self, k: u64)
        ensures { self.new
            ≡ record self.old { world = happens self.old.setup self.old.world (event.Reply k) } }
    {
        if self.is_over() {
            return;
        }
        self.reply(k);
    }

    /// Stops the reading of the log.
    fn shut(&mut self)
        ensures { self.new
            ≡ record self.old { world = happens self.old.setup self.old.world event.Close } }
    {
        if self.is_over() {
            return;
        }
        self.close();
    }

    /// Plays the events of a round. If memory runs out, none of them has happened.
    fn play(&mut self, next: Next) -> Result<(), AllocError>
        ensures ok { OnOk result (self.new
            ≡ record self.old { world = run self.old.setup (events_of next) self.old.world }) }
        ensures err { OnErr result (self.new ≡ self.old) }
    {
        match next {
            Next::Place => self.happen(&Event::Place),
            Next::Exchange(k, r) => {
                self.happen(&Event::Arrive(k, How::Plain))?;
                self.hear(r);
                Ok(())
            }
            Next::Send(i) => self.happen(&Event::Send(i)),
            Next::Freeze(i) => self.happen(&Event::Freeze(i)),
            Next::Take(i) => self.happen(&Event::Take(i)),
            Next::Flush(i) => self.happen(&Event::Flush(i)),
            Next::Restart => self.happen(&Event::Restart),
        }
    }

    /// Plays rounds of an orderly shutdown until there is a report. If memory runs out in one of
    /// them, those before it were played.
    pub(crate) fn settle(&mut self) -> Result<(), AllocError>
        ensures over { OnOk result (is_over self.new.world ≡ true) }
        ensures rounds { HasSettled self.old self.new }
    {
        self.shut();
        'rounds: for _ in 0..u64::MAX {
            if self.is_over() {
                return Ok(());
            }
            let next = self.next();
            self.play(next)?;
        }
        Err(AllocError)
    }
}

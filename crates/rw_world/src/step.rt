//! A single event.

ghost use Rattle.std.specs.Prelude.{◌≡◌, true, false, not, ◌&&◌, Some, None, slice_get, IsOk, OnOk, OnErr};
ghost use Rattle.rw_machine.specs.Shards.{shard_take, shard_freeze, shard_lost};
ghost use Rattle.rw_machine.specs.Worlds.{is_finished, all_drained};
ghost use Rattle.rw_machine.specs.Steps.{changed, flush_shard, send_batch, take_reply, reshard, restart, close, feed, happens, act};
ghost use Rattle.rw_world.specs.Machine.{takes_memory};
ghost use Rattle.rw_world.specs.inner.Machine.{is_arrive, mark_kind};

use crate::engine::Engine;
use rw_machine::Event;
use rw_plain_queue::Kind;
use rw_wal_tail::Piece;
use std::alloc::AllocError;

/// Returns whether the event is a request's arrival.
fn is_arrive(event: &Event) -> bool
    ensures { result ≡ is_arrive event.now }
{
    match event {
        Event::Arrive(_, _) => true,
        _ => false,
    }
}

impl Engine {
    /// Returns the kind of the End that a shard is to be put, or `None` if the mark is a Flush.
    fn mark_kind(&self) -> Option<Kind>
        ensures { result ≡ mark_kind self.now.world }
    {
        if self.is_finished() {
            return Some(Kind::Orderly);
        }
        match self.draining {
            Some(_) => Some(Kind::Reshard),
            None => None,
        }
    }

    fn feed(&mut self, piece: &Piece) -> Result<(), AllocError>
        ensures ok { OnOk result
            (self.new ≡ record self.old { world = feed self.old.world piece.now }) }
        ensures err { OnErr result (self.new ≡ self.old) }
    {
        if self.closed.is_some() {
            return Ok(());
        }
        self.log.feed(piece)
    }

    pub(crate) fn close(&mut self)
        ensures { self.new ≡ record self.old { world = close self.old.world } }
    {
        if self.closed.is_none() {
            self.closed = Some(self.log.len());
        }
    }

    fn kill(&mut self)
        ensures { self.new ≡ record self.old { world = record self.old.world { killed = true } } }
    {
        self.killed = true;
    }

    fn flush(&mut self, i: u64)
        ensures { self.new
            ≡ record self.old {
              world = changed self.old.world i
                  (flush_shard self.old.setup self.old.world);
            } }
    {
        let kind = self.mark_kind();
        self.senders.flush(i as usize, kind);
    }

    fn take(&mut self, i: u64)
        ensures { self.new ≡ record self.old { world = changed self.old.world i shard_take } }
    {
        self.senders.take(i as usize);
    }

    fn freeze(&mut self, i: u64) -> Result<(), AllocError>
        ensures ok { OnOk result
            (self.new ≡ record self.old { world = changed self.old.world i shard_freeze }) }
        ensures err { OnErr result (self.new ≡ self.old) }
    {
        self.senders.freeze(i as usize)
    }

    fn lose(&mut self, i: u64)
        ensures { self.new ≡ record self.old { world = changed self.old.world i shard_lost } }
    {
        self.senders.lose(i as usize);
    }

    fn send(&mut self, i: u64) -> Result<(), AllocError>
        ensures ok { OnOk result (self.new
            ≡ record self.old {
              world = send_batch self.old.world i
                  (slice_get self.old.world.shards i);
            }) }
        ensures err { OnErr result (self.new ≡ self.old) }
    {
        self.requests.reserve(1)?;
        match self.senders.send(i as usize)? {
            Some(sent) => self.requests.push_reserved(sent),
            None => {}
        }
        Ok(())
    }

    pub(crate) fn reply(&mut self, k: u64)
        ensures { self.new
            ≡ record self.old {
              world = take_reply self.old.world
                  (slice_get self.old.world.replies k);
            } }
    {
        let k = k as usize;
        if k >= self.replies.len() {
            return;
        }
        let id = self.replies[k].id();
        let status = self.replies[k].status();
        self.senders.reply(id, status);
    }

    fn reshard(&mut self, n: u64)
        ensures { self.new ≡ record self.old { world = reshard self.old.world n } }
    {
        if self.draining.is_some() || self.is_finished() || n < 1 || n > 1000 {
            return;
        }
        self.draining = Some(n);
    }

    /// Returns whether the current shards have nothing left, and not all that is to be sent was
    /// placed.
    fn may_restart(&self) -> bool
        ensures { result ≡ (not (is_finished self.now.world) && all_drained self.now.world) }
    {
        if self.is_finished() {
            return false;
        }
        self.senders.are_drained()
    }

    fn restart(&mut self) -> Result<(), AllocError>
        ensures ok { OnOk result
            (self.new ≡ record self.old { world = restart self.old.setup self.old.world }) }
        ensures err { OnErr result (self.new ≡ self.old) }
    {
        let Some(n) = self.draining else {
            return Ok(());
        };
        if !self.may_restart() {
            return Ok(());
        }
        self.senders.restart(n as usize)?;
        self.draining = None;
        Ok(())
    }

    /// Does what one event does while there is no report.
    fn act(&mut self, event: &Event) -> Result<(), AllocError>
        ensures ok { OnOk result
            (self.new ≡ record self.old { world = act self.old.setup self.old.world event.now }) }
        ensures err { OnErr result (self.new ≡ self.old) }
        ensures never { takes_memory event.now ≡ false → IsOk result }
    {
        match event {
            Event::Feed(piece) => self.feed(piece),
            Event::Place => self.place(),
            Event::Flush(i) => {
                self.flush(*i);
                Ok(())
            }
            Event::Take(i) => {
                self.take(*i);
                Ok(())
            }
            Event::Freeze(i) => self.freeze(*i),
            Event::Send(i) => self.send(*i),
            Event::Arrive(k, how) => self.arrive(*k, *how),
            Event::Reply(k) => {
                self.reply(*k);
                Ok(())
            }
            Event::Lost(i) => {
                self.lose(*i);
                Ok(())
            }
            Event::Reshard(n) => {
                self.reshard(*n);
                Ok(())
            }
            Event::Restart => self.restart(),
            Event::Close => {
                self.close();
                Ok(())
            }
            Event::Kill => {
                self.kill();
                Ok(())
            }
        }
    }

    /// Lets one event happen.
    pub(crate) fn happen(&mut self, event: &Event) -> Result<(), AllocError>
        ensures ok { OnOk result (self.new
            ≡ record self.old { world = happens self.old.setup self.old.world event.now }) }
        ensures err { OnErr result (self.new ≡ self.old) }
        ensures never { takes_memory event.now ≡ false → IsOk result }
    {
        if is_arrive(event) {
            return self.act(event);
        }
        if self.is_over() {
            return Ok(());
        }
        self.act(event)
    }
}

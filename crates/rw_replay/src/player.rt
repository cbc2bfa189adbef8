//! Scripts played.

ghost use Rattle.std.specs.Prelude.{◌≡◌, ◌*◌, ◌<◌, ◌≤◌, [], ◌∷◌, length, map, IfOk, OnOk};
ghost use Rattle.std.specs.List.{AllByRecursion};
ghost use Rattle.rw_wal_format.specs.Pieces.{page_size};
ghost use Rattle.rw_wal_format.specs.Writing.{log_bytes};
ghost use Rattle.rw_replay.specs.declared.command.Command.TheVariants as command;
ghost use Rattle.rw_replay.specs.ScriptText.{logged, fed, order_of, order_of_event};
ghost use Rattle.rw_replay.specs.WorldText.{state_text};
ghost use Rattle.rw_wal_write.specs.Segment.{IsPlace};
ghost use Rattle.rw_world.specs.Machine.{setup_of};
ghost use Rattle.rw_replay.specs.Played.{segment_pages, next_segment, beginning, FeedsOrders, Plays, Follows};
ghost use Rattle.rw_replay.specs.inner.Played.{IsWritable};

use crate::command::Command;
use crate::log::{Written, write_behind};
use crate::state::text_of;
use rw_machine::Event;
use rw_settings::Settings;
use rw_wal_tail::Piece;
use rw_world::World;
use std::alloc::{AllocError, Global};
use std::marker::Model;

/// A world that carries out the lines of a script. Contracts see its machine, and how far its log
/// is written.
#[derive(Drop)]
pub(crate) struct Player {
    alloc: Global,
    world: World,
    /// How many bytes of the current segment are written.
    offset: usize,
}

impl Model for Player {
    ghost use Rattle.std.specs.Coded.{codes};
    ghost use Rattle.std.specs.FinMap as map;
    ghost use Rattle.rw_wal_write.specs.Segment.{IsPlace};
    ghost use Rattle.rw_replay.specs.Played.{Played, segment_pages};

    ghost Value = { Played };

    ghost coded = { Prim.hlevel (codes, map.code) };

    ghost view = { λ p. record { machine = p.world; offset = p.offset } };

    ghost invariant = { λ p. IsPlace segment_pages p.offset };
}

impl Player {
    /// Returns a player before the first line.
    pub(crate) fn new(alloc: Global, settings: Settings) -> Result<Player, AllocError>
        ensures { IfOk result (λ p. p ≡ beginning (setup_of settings.config settings.limits)) }
    {
        let Settings {
            config,
            limits,
            may_compress: _,
        } = settings;
        Ok(Player {
            alloc,
            world: World::new(alloc, config, limits)?,
            offset: 0,
        })
    }

    /// Feeds what was written to the log.
    fn feed(&mut self, written: Written) -> Result<(), AllocError>
        requires { IsPlace segment_pages written.offset }
        ensures { OnOk result
            (FeedsOrders self.old (fed written.bytes.items ∷ []) written.offset self.new) }
    {
        let Written { bytes, offset } = written;
        self.world.step(Event::Feed(Piece::Bytes(bytes)))?;
        self.offset = offset;
        Ok(())
    }

    /// Begins the next segment with a record.
    fn log_in_next(&mut self, rec: &[u8]) -> Result<(), AllocError>
        requires some { 0 < length rec.now }
        requires short { length rec.now ≤ 16 * 1024 * 1024 }
        ensures { OnOk result
            (FeedsOrders self.old (next_segment ∷ fed (log_bytes page_size 0 rec.now) ∷ [])
            (length (log_bytes page_size 0 rec.now)) self.new) }
    {
        self.world.step(Event::Feed(Piece::NextSegment))?;
        match write_behind(self.alloc, 0, rec)? {
            Some(written) => self.feed(written),
            None => unreachable!(),
        }
    }

    /// Writes a record after the others.
    fn log(&mut self, rec: &[u8]) -> Result<(), AllocError>
        requires some { 0 < length rec.now }
        requires short { length rec.now ≤ 16 * 1024 * 1024 }
        ensures { OnOk result (Plays self.old (logged rec.now) self.new) }
    {
        match write_behind(self.alloc, self.offset, rec)? {
            Some(written) => self.feed(written),
            None => self.log_in_next(rec),
        }
    }

    /// Lets one event happen.
    fn happen(&mut self, event: Event) -> Result<(), AllocError>
        ensures { OnOk result (Plays self.old (order_of_event event) self.new) }
    {
        self.world.step(event)
    }

    /// Shuts the sender down in order.
    fn settle(&mut self) -> Result<(), AllocError>
        ensures { OnOk result (Plays self.old (order_of command.Settle) self.new) }
    {
        let _outcome = self.world.settle()?;
        Ok(())
    }

    /// Carries out a line.
    fn play(&mut self, command: Command) -> Result<(), AllocError>
        requires { IsWritable (order_of command) }
        ensures { OnOk result (Plays self.old (order_of command) self.new) }
    {
        match command {
            Command::Log(rec) => self.log(&rec),
            Command::Event(event) => self.happen(event),
            Command::Settle => self.settle(),
        }
    }

    /// Carries out the lines of a script, one after the other.
    pub(crate) fn play_all(&mut self, commands: Vec<Command>) -> Result<(), AllocError>
        requires { AllByRecursion IsWritable (map order_of commands.items) }
        ensures { OnOk result (Follows self.old (map order_of commands.items) self.new) }
    {
        for command in commands {
            self.play(command)?;
        }
        Ok(())
    }

    /// Returns the state that the lines have led to, as text.
    pub(crate) fn state(&self) -> Result<Vec<u8>, AllocError>
        ensures { IfOk result (λ text. text.items ≡ state_text self.now.machine.world) }
    {
        text_of(self.alloc, &self.world)
    }
}

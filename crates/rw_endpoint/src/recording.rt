//! Devices that record what goes through them, for contracts alone.

ghost use Rattle.std.specs.Prelude.{◌≡◌, ◌++◌, [], true, not, take, is_ok, IsOk, IfOk, OnErr};
ghost use Rattle.std.specs.Io.{ReadsAtMost};
ghost use Rattle.std.specs.Io.KnownBytes.{ReadConsumes};

use rw_history::History;
use rw_types::{Failed, Sink, Source};
use std::marker::Model;

/// A reader or a writer that records what goes through it. Contracts see the device and the bytes
/// so far, which are not kept. What a socket will return cannot be known, but what it has returned
/// can.
#[derive(Drop)]
pub struct Recording<D> {
    device: D,
    past: History<u8>,
}

impl<D> Model for Recording<D> {
    ghost use Rattle.rw_endpoint.specs.Recordings.{Recorded};

    ghost Value = { Recorded D };

    ghost view = { λ r. record { device = r.device; past = r.past } };
}

impl<D> Recording<D> {
    /// Returns a device through which nothing has gone yet.
    pub fn new(device: D) -> Recording<D>
        ensures { result ≡ record { device = device; past = [] } }
    {
        Recording {
            device,
            past: History::new(),
        }
    }
}

impl<D: Drop> Recording<D> {
    /// Returns what went through it.
    pub fn into_past(self) -> History<u8>
        ensures { result ≡ self.past }
    {
        let Recording { device: _, past } = self;
        past
    }
}

impl<R: Source> Recording<R> {
    /// Reads as its device does, and records the bytes.
    pub(crate) fn read(&mut self, buf: &mut [u8]) -> Result<usize, Failed>
        ensures bound { ReadsAtMost result buf.new }
        ensures recorded { IfOk result (λ n. self.new.past ≡ self.old.past ++ take n buf.new) }
        ensures nothing { OnErr result (self.new.past ≡ self.old.past) }
        ensures bytes { ReadConsumes (R.remaining self.old.device) (R.remaining self.new.device)
            result buf.new }
        ensures failed { is_ok result ≡ not (R.has_failed self.new.device) }
        ensures stays { R.has_failed self.old.device ≡ true
            → R.has_failed self.new.device ≡ true }
        ensures sure { R.is_sure self.old.device ≡ true → IsOk result }
        ensures sure_stays { R.is_sure self.old.device ≡ true
            → R.is_sure self.new.device ≡ true }
    {
        match self.device.read(buf) {
            Ok(n) => {
                self.past.extend(&buf[..n]);
                Ok(n)
            }
            Err(failed) => Err(failed),
        }
    }
}

impl<W: Sink> Sink for Recording<W> {
    ghost use Rattle.std.specs.Prelude.{Some};

    ghost contents = { λ w. Some w.past };

    ghost has_failed = { λ w. W.has_failed w.device };

    ghost room = { λ w. W.room w.device };

    fn write(&mut self, bytes: &[u8]) -> Result<usize, Failed> {
        match self.device.write(bytes) {
            Ok(n) => {
                self.past.extend(&bytes[..n]);
                Ok(n)
            }
            Err(failed) => Err(failed),
        }
    }
}

//! Which samples were dropped, and why.

ghost use Rattle.std.specs.Prelude.{◌≡◌, ◌+◌, ◌<◌, ◌≤◌, None, OnOk, OnErr, IsTrue};
ghost use Rattle.std.specs.Slice.Iter.{iter_rest};
ghost use Rattle.std.specs.Ordering.{nat_cmp};
ghost use Rattle.std.specs.FinMap as map;
ghost use Rattle.rw_ledger.specs.Names.{IsPlaceOf};

use std::alloc::{AllocError, Global};
use std::marker::Model;
use std::slice;

/// Why a sample was dropped.
#[derive(Clone, Copy, Debug, PartialEq, Eq)]
pub enum Reason {
    /// The receiver refused its batch permanently, with this HTTP status.
    Status(u16),
    /// The labels of its series are not a label set. The number stands for the fault, as
    /// `LabelFault` counts them.
    BadLabels(u8),
    /// No definition of its reference comes before it in the log.
    NoSeries,
    /// A sample before it in its series has the same timestamp or a later one.
    NotRising,
}

/// The positions of dropped samples in the log, each with its reason, and room for more of them.
///
/// Naming a sample takes no memory, since the room is reserved before. Naming a position after all
/// others takes no longer as the ledger grows.
#[derive(Debug, Drop)]
pub struct Ledger {
    names: Vec<(u64, Reason)>,
    room: usize,
}

impl Model for Ledger {
    ghost use Rattle.std.specs.Prelude.{◌+◌, ◌≤◌, vec_len, vec_capacity, IsTrue};
    ghost use Rattle.std.specs.Ordering.{nat_cmp};
    ghost use Rattle.std.specs.FinMap as map;
    ghost use Rattle.std.specs.Coded.{codes};
    ghost use Rattle.rw_ledger.specs.Names.{Named};

    ghost Value = { Named };

    ghost coded = { Prim.hlevel (codes, map.code) };

    ghost view = { λ l. record { names = map.from_sorted l.names.items; room = l.room } };

    ghost invariant = { λ l. IsTrue (map.is_sorted nat_cmp l.names.items)
        × (vec_len l.names + l.room ≤ vec_capacity l.names) };
}

/// Returns the index of a position, or the index at which it would be inserted.
fn place_of(names: &[(u64, Reason)], pos: u64) -> usize
    requires { IsTrue (map.is_sorted nat_cmp names.now) }
    ensures { IsPlaceOf pos names.now result }
{
    match names.last() {
        Some(last) => {
            if last.0 < pos {
                return names.len();
            }
            names.partition_point(|name| name.0 < pos)
        }
        None => 0,
    }
}

impl Ledger {
    /// Returns a ledger without names and without room. This takes no memory.
    pub fn new(alloc: Global) -> Ledger
        ensures names { result.names ≡ map.empty }
        ensures room { result.room ≡ 0 }
    {
        Ledger {
            names: Vec::new(alloc),
            room: 0,
        }
    }

    /// Reserves room for `n` more names. An `Err` leaves the ledger as it was.
    pub fn room(&mut self, n: usize) -> Result<(), AllocError>
        ensures ok { OnOk result (self.new.room ≡ self.old.room + n) }
        ensures names { self.new.names ≡ self.old.names }
        ensures err { OnErr result (self.new ≡ self.old) }
    {
        let Some(room) = self.room.checked_add(n) else {
            return Err(AllocError);
        };
        self.names.reserve(room)?;
        self.room = room;
        Ok(())
    }

    /// Returns for how many more names there is room.
    pub fn left(&self) -> usize
        ensures { result ≡ self.now.room }
    {
        self.room
    }

    /// Gives back room for `n` names, which will not be used.
    pub fn give_back(&mut self, n: usize)
        requires { n ≤ self.old.room }
        ensures names { self.new.names ≡ self.old.names }
        ensures room { self.new.room + n ≡ self.old.room }
    {
        self.room -= n;
    }

    /// Names the sample at position `pos` as dropped, for `reason`. This uses the room for one
    /// name.
    pub fn name(&mut self, pos: u64, reason: Reason)
        requires room { 0 < self.old.room }
        requires unnamed { map.get self.old.names pos ≡ None }
        ensures names { self.new.names ≡ map.insert self.old.names pos reason }
        ensures room { self.new.room + 1 ≡ self.old.room }
    {
        let place = place_of(&self.names, pos);
        self.names.insert(place, (pos, reason)).unwrap();
        self.room -= 1;
    }

    /// Returns why the sample at position `pos` was dropped, or `None` if the ledger does not name
    /// it.
    pub fn get(&self, pos: u64) -> Option<Reason>
        ensures { result ≡ map.get self.now.names pos }
    {
        let place = place_of(&self.names, pos);
        if place < self.names.len() {
            let (named, reason) = self.names[place];
            if named == pos {
                return Some(reason);
            }
        }
        None
    }

    /// Returns the named positions in ascending order, each with its reason.
    pub fn iter(&self) -> slice::Iter<'_, (u64, Reason)>
        ensures { iter_rest result ≡ map.entries self.now.names }
    {
        self.names.iter()
    }

    /// Returns how many samples are named.
    pub fn total(&self) -> usize
        ensures { result ≡ map.len self.now.names }
    {
        self.names.len()
    }
}

//! Labels as they are in a log, not yet checked.

ghost use Rattle.std.specs.Prelude.{◌≡◌, ◌↔◌, ◌++◌, [], ◌∷◌, length, IsTrue, IfOk, OnOk, OnErr, map};
ghost use Rattle.rw_types.specs.Labels.{bytes_label};

use std::alloc::{AllocError, Global};
use std::marker::Model;

/// Labels that were not checked: in any order, with any bytes as names and values. Contracts see
/// the list of (name, value).
#[derive(Debug, Drop)]
pub struct RawLabels {
    list: Vec<(Vec<u8>, Vec<u8>)>,
}

impl Model for RawLabels {
    ghost use Rattle.std.specs.Prelude.{ℕ, List, map};
    ghost use Rattle.rw_types.specs.Labels.{bytes_label};

    ghost Value = { List (List ℕ × List ℕ) };

    ghost view = { λ l. map bytes_label l.list.items };
}

impl RawLabels {
    /// Returns an empty list of labels. This takes no memory.
    pub fn new(alloc: Global) -> RawLabels
        ensures { result ≡ [] }
    {
        RawLabels {
            list: Vec::new(alloc),
        }
    }

    /// Appends a label. An `Err` leaves the list as it was.
    pub fn push(&mut self, name: &[u8], value: &[u8]) -> Result<(), AllocError>
        ensures ok { OnOk result (self.new ≡ self.old ++ (name.now, value.now) ∷ []) }
        ensures err { OnErr result (self.new ≡ self.old) }
    {
        let alloc = *self.list.allocator();
        let name = name.to_vec(alloc)?;
        let value = value.to_vec(alloc)?;
        self.list.push((name, value))?;
        Ok(())
    }

    /// Returns a copy of the list.
    pub fn copy(&self, alloc: Global) -> Result<RawLabels, AllocError>
        ensures { IfOk result (λ l. l ≡ self.now) }
    {
        let mut copy = RawLabels::new(alloc);
        let items = self.as_slice();
        for (name, value) in items {
            copy.push(name, value)?;
        }
        Ok(copy)
    }

    /// Returns how many labels there are.
    pub fn len(&self) -> usize
        ensures { result ≡ length self.now }
    {
        self.list.len()
    }

    /// Returns whether there are no labels.
    pub fn is_empty(&self) -> bool
        ensures { IsTrue result ↔ (self.now ≡ []) }
    {
        self.list.is_empty()
    }

    /// Returns the labels as (name, value), in the order in which they were appended.
    pub fn as_slice(&self) -> &[(Vec<u8>, Vec<u8>)]
        ensures { map bytes_label result.now ≡ self.now }
    {
        self.list.as_slice()
    }
}

//! What a shared head is made of, beside the head itself.

ghost use Rattle.std.specs.Prelude.{◌≡◌, IfOk};
ghost use Rattle.rw_head.specs.Capacity.{unlimited};
ghost use Rattle.rw_recv_head.specs.inner.Questions.{nothing_known};

use crate::naming::HeadNaming;
use crate::questions::{Questions, Unnamed};
use rw_head::Capacity;
use std::alloc::{AllocError, Global};
use std::marker::Model;
use std::sync::ledger;

/// An unused ledger of `parts` parts, and the unused table by which seats know what their head was
/// asked, with the capacity of the head. Contracts see which they are.
#[derive(Drop)]
pub struct Blank {
    ledger: ledger::Blank,
    questions: Unnamed,
    capacity: Capacity,
}

impl Model for Blank {
    ghost use Rattle.rw_recv_head.specs.Seats.{Unused};

    ghost Value = { Unused };

    ghost view = { λ b. record {
      name = b.ledger.name;
      parts = b.ledger.parts;
      table = record { id = b.questions; capacity = b.capacity };
    } };
}

impl Blank {
    /// Returns a new blank of a head without limits. It takes memory for one word.
    pub fn new(alloc: Global, parts: u64) -> Result<Blank, AllocError>
        ensures parts { IfOk result (λ b. b.parts ≡ parts) }
        ensures unlimited { IfOk result (λ b. b.table.capacity ≡ unlimited) }
    {
        Blank::with_capacity(alloc, parts, Capacity::unlimited())
    }

    /// Returns a new blank of a head that takes no request above this capacity. It takes memory for
    /// one word.
    pub fn with_capacity(alloc: Global, parts: u64, capacity: Capacity) -> Result<Blank, AllocError>
        ensures parts { IfOk result (λ b. b.parts ≡ parts) }
        ensures capacity { IfOk result (λ b. b.table.capacity ≡ capacity) }
    {
        Ok(Blank {
            ledger: ledger::Blank::new(parts),
            questions: Unnamed::new(alloc)?,
            capacity,
        })
    }

    /// Returns the capacity of the head.
    pub(crate) fn capacity(&self) -> Capacity
        ensures { result ≡ self.now.table.capacity }
    {
        self.capacity
    }

    /// Returns the ledger and an empty list of questions, both under a name.
    pub(crate) fn named<L: HeadNaming>(self) -> (ledger::Blank, Questions<L>)
        requires { self.table ≡ L.table }
        ensures name { result.0.name ≡ self.name }
        ensures parts { result.0.parts ≡ self.parts }
        ensures questions { result.1 ≡ nothing_known }
    {
        let Blank {
            ledger,
            questions,
            ..
        } = self;
        (ledger, questions.named())
    }
}

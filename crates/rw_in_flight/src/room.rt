//! How many bytes of unfinished bodies may be in memory.

ghost use Rattle.std.specs.Prelude.{◌≡◌, ◌<◌, ◌≤◌, ◌+◌, ◌-◌, ◌++◌, ◌∷◌, ◌^◌, ◌==◌, [], ◌⊎◌, All, false, nat_lt, IfOk, OnErr};
ghost use Rattle.rw_in_flight.specs.InFlight.{held, open_held, first_open, HasGrown, IsGone, IsClosed};

use crate::body::Body;
use crate::sums::{first_open, held, open_held, place_of};
use std::alloc::{AllocError, Global};

/// What becomes of bytes that have come.
#[derive(Clone, Copy, Debug, PartialEq, Eq)]
pub enum Intake {
    /// They are counted.
    Taken,
    /// There is no room for them before others are closed or finished.
    Waits,
    /// Their body is to be closed.
    Closed,
}

/// The unfinished bodies of a service, in the order in which they began. Together they have no more
/// bytes than its limit.
#[derive(Drop)]
pub struct BodyRoom {
    limit: u64,
    /// The number of the next body.
    next: u64,
    /// Bodies with a smaller number are closed.
    first: u64,
    bodies: Vec<Body>,
    ghost small: { limit < 2 ^ 64 },
    ghost within: { held bodies.items ≤ limit },
    ghost numbered: { All (λ b. b.number < next) bodies.items },
}

impl BodyRoom {
    /// Returns room for this many bytes.
    pub fn new(alloc: Global, limit: u64) -> BodyRoom
        ensures limit { result.limit ≡ limit }
        ensures empty { result.bodies.items ≡ [] }
        ensures open { result.first ≡ 0 }
    {
        BodyRoom {
            limit,
            next: 0,
            first: 0,
            bodies: Vec::new(alloc),
        }
    }

    /// Begins a body of which nothing has come, and returns its number, which is greater than those
    /// before.
    pub fn begin(&mut self) -> Result<u64, AllocError>
        ensures kept { (self.new.limit ≡ self.old.limit) × (self.new.first ≡ self.old.first) }
        ensures ok { IfOk result (λ number. (number ≡ self.old.next) × (self.new.next ≡ number + 1)
            × (self.new.bodies.items
            ≡ self.old.bodies.items ++ record { number = number; bytes = 0 } ∷ [])) }
        ensures err { OnErr result ((self.new.bodies.items ≡ self.old.bodies.items)
            × (self.new.next ≡ self.old.next)) }
    {
        let number = self.next;
        let Some(next) = number.checked_add(1) else {
            return Err(AllocError);
        };
        self.bodies.push(Body { number, bytes: 0 })?;
        self.next = next;
        Ok(number)
    }

    /// Takes `more` bytes of the body with this number, if there is room for them. If there is
    /// none, as many of the bodies that began first are closed as are needed to have room once they
    /// are gone.
    pub fn grow(&mut self, number: u64, more: u64) -> Intake
        ensures kept { (self.new.limit ≡ self.old.limit) × (self.new.next ≡ self.old.next) }
        ensures within { held self.new.bodies.items ≤ self.new.limit }
        ensures taken { result ≡ Intake.Taken
            → HasGrown number more self.old.bodies.items self.new.bodies.items
            × (self.new.first ≡ self.old.first) × (self.old.first ≤ number) }
        ensures waits { result ≡ Intake.Waits
            → (self.new.bodies.items ≡ self.old.bodies.items)
            × (self.old.limit < held self.old.bodies.items + more)
            × (self.new.first ≡ first_open
            (open_held self.old.first self.old.bodies.items + more - self.old.limit)
            self.old.first self.old.bodies.items)
            × (self.new.first ≤ number) }
        ensures closed { result ≡ Intake.Closed
            → (self.new.bodies.items ≡ self.old.bodies.items)
            × IsClosed number more self.old.limit self.old.first self.old.bodies.items self.new.first }
    {
        if number < self.first {
            return Intake::Closed;
        }
        let Some(place) = place_of(number, &self.bodies) else {
            return Intake::Closed;
        };
        if more <= self.limit - held(&self.bodies) {
            self.bodies[place].bytes += more;
            return Intake::Taken;
        }
        let open = open_held(self.first, &self.bodies);
        let need = more.saturating_sub(self.limit - open);
        self.first = first_open(need, self.first, &self.bodies);
        if number < self.first {
            return Intake::Closed;
        }
        Intake::Waits
    }

    /// Returns whether the body with this number is closed.
    pub fn is_closed(&self, number: u64) -> bool
        ensures { result ≡ nat_lt number self.now.first }
    {
        number < self.first
    }

    /// Removes the body with this number: it has ended, or its connection has.
    pub fn end(&mut self, number: u64)
        ensures kept { (self.new.limit ≡ self.old.limit) × (self.new.next ≡ self.old.next)
            × (self.new.first ≡ self.old.first) }
        ensures gone { IsGone number self.old.bodies.items self.new.bodies.items
            ⊎ (All (λ b. (b.number == number) ≡ false) self.old.bodies.items
            × (self.new.bodies.items ≡ self.old.bodies.items)) }
    {
        if let Some(place) = place_of(number, &self.bodies) {
            self.bodies.remove(place);
        }
    }
}

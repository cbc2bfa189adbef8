//! What may be under the lock: a head, or something that has one.

ghost use Rattle.std.specs.Prelude.{◌≡◌, ◌≢◌, ℕ, ◌≤◌, List, length, true, IfOk};
ghost use Rattle.rw_head.specs.declared.capacity.Admission.TheVariants.{Full};
ghost use Rattle.rw_head.specs.Capacity.{exceeds, status_of_admission, unlimited, StaysWithin};
ghost use Rattle.rw_head.specs.Growth.{EachRises, HasStoredBody};
ghost use Rattle.rw_head.specs.Head.{State, answer, IsStatus, SpellsMessage};
ghost use Rattle.rw_head.specs.Partial.{takeable};
ghost use Rattle.rw_head.specs.Store.{total, label_sets};

use rw_head::{Admission, Capacity, Head, InMemory, Memory};
use rw_write_request::Message;
use std::alloc::AllocError;

/// A head, or something that has one and answers bodies as it does. What it does with the samples
/// besides, such as writing them to disk before it answers, its own contracts say.
pub trait Admit {
    /// The head.
    ghost state: { Self → State };

    /// What an answer to a body with a status does to it beside the head, from what it was to what
    /// it is then.
    ghost admits: { Self → List ℕ → ℕ → Self → Type 0 };

    /// Answers the body of a request, as `Head::admit` does.
    fn admit(&mut self, body: &[u8], capacity: &Capacity) -> Admission
        ensures status { status_of_admission result ≢ 503
            → status_of_admission result ≡ (answer (state self.old) body.now).status }
        ensures head { status_of_admission result ≢ 503
            → state self.new ≡ (answer (state self.old) body.now).head }
        ensures unavailable { status_of_admission result ≡ 503
            → (state self.new ≡ state self.old) × ((state self.old).busy ≡ 0) }
        ensures readable { status_of_admission result ≡ 503 → SpellsMessage body.now }
        ensures statuses { IsStatus (status_of_admission result) }
        ensures refused { status_of_admission result ≢ 204
            → (state self.new).store ≡ (state self.old).store }
        ensures taken { status_of_admission result ≡ 204
            → HasStoredBody body.now (state self.old).store (state self.new).store }
        ensures more { total (state self.old).store ≤ total (state self.new).store }
        ensures rises { EachRises (state self.new).store }
        ensures within { StaysWithin capacity.now (state self.old).store (state self.new).store }
        ensures full { result ≡ Full → exceeds capacity.now (state self.old).store
            (answer (state self.old) body.now).head.store ≡ true }
        ensures limited { result ≡ Full → capacity.now ≢ unlimited }
        ensures admits { admits self.old body.now (status_of_admission result) self.new };

    /// Returns what the head can take of a message, as `Head::takeable` does.
    fn takeable(&mut self, message: Message) -> Result<Message, AllocError>
        ensures same { self.new ≡ self.old }
        ensures takeable { IfOk result (λ m. m
            ≡ takeable (state self.old).limits (state self.old).store message) };

    /// Lets samples go from memory that are earlier than `before`, in milliseconds since the Unix
    /// epoch, as `Head::forget` does, if the head may forget. Returns what is left in memory.
    fn forget(&mut self, before: i64) -> InMemory
        ensures forgets { self.new ≡ self.old };

    /// Returns how many samples the head holds.
    fn total(&self) -> u64
        ensures total { result ≡ total (state self.now).store }
        ensures rises { EachRises (state self.now).store };

    /// Returns of how many label sets the head has samples.
    fn places(&self) -> usize
        ensures places { result ≡ length (label_sets (state self.now).store) };
}

/// A head that shows what it holds, or something that has one.
pub trait Show: Admit {
    /// Returns the head.
    fn head(&self) -> &Head
        ensures { result.now ≡ Self.state self.now };
}

impl<M: Memory> Admit for Head<M> {
    ghost state = { λ h. h };

    ghost admits = { λ old body status new. Unit {0} };

    fn admit(&mut self, body: &[u8], capacity: &Capacity) -> Admission {
        Head::admit(self, body, capacity)
    }

    fn takeable(&mut self, message: Message) -> Result<Message, AllocError> {
        Head::takeable(self, message)
    }

    fn forget(&mut self, before: i64) -> InMemory {
        Head::forget(self, before)
    }

    fn total(&self) -> u64 {
        Head::total(self)
    }

    fn places(&self) -> usize {
        Head::places(self)
    }
}

impl Show for Head {
    fn head(&self) -> &Head {
        self
    }
}

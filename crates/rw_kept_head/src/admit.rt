//! A head with a journal under a lock.

use crate::kept_head::KeptHead;
use rw_head::{Admission, Capacity, Head, InMemory, Memory};
use rw_kept_log::Journal;
use rw_recv_head::{Admit, Show};
use rw_write_request::Message;
use std::alloc::AllocError;

impl<J: Journal, M: Memory> Admit for KeptHead<J, M> {
    ghost use Rattle.rw_kept_head.specs.Answered.{IsKeptAnswer};

    ghost state = { λ k. k.head };

    ghost admits = { IsKeptAnswer J.seen J.may_leave J.moment J.left_since J.tears };

    fn admit(&mut self, body: &[u8], capacity: &Capacity) -> Admission {
        KeptHead::admit(self, body, capacity)
    }

    fn takeable(&mut self, message: Message) -> Result<Message, AllocError> {
        KeptHead::takeable(self, message)
    }

    fn forget(&mut self, before: i64) -> InMemory {
        KeptHead::forget(self, before)
    }

    fn total(&self) -> u64 {
        self.head.total()
    }

    fn places(&self) -> usize {
        self.head.places()
    }
}

impl<J: Journal> Show for KeptHead<J> {
    fn head(&self) -> &Head {
        KeptHead::head(self)
    }
}

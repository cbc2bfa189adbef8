//! A caller of the head, proved by the head's contracts alone.

ghost use Rattle.std.specs.Prelude.{IfOk};
ghost use Rattle.rw_head.specs.Growth.{EachRises};

use crate::messages::{UP, message};
use crate::rows::holds;
use rw_head::{Head, Limits, Verdict};
use rw_write_request::Message;
use std::alloc::Global;

/// Gives a message to a new head, in whose lists the timestamps then rise. If it is refused, its
/// verdict is returned.
fn head_of(alloc: Global, limits: &Limits, message: &Message) -> Result<Head, Verdict>
    ensures { IfOk result (λ head. EachRises head.store) }
{
    let mut head = Head::new(alloc, limits);
    match head.apply(message) {
        Verdict::Stored(_) => Ok(head),
        refused => Err(refused),
    }
}

/// Returns whether a new head with the standard limits holds a message of one sample.
fn holds_one(alloc: Global) -> bool {
    let (Ok(limits), Ok(message)) = (Limits::standard(alloc), message(alloc, &[(UP, &[(10, 1)])]))
    else {
        return false;
    };
    match head_of(alloc, &limits, &message) {
        Ok(head) => head.total() == 1,
        Err(_) => false,
    }
}

#[test]
fn a_new_head_takes_a_message(rt: HostRuntime) {
    holds(&rt, holds_one(rt.alloc()));
}

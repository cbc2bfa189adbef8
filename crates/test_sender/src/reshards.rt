//! How many shards are wanted, and the way from one epoch to the next.

use crate::rows::holds;
use rw_reshard::{Fleet, Make, NextFault, Running, Shard, want};
use std::alloc::{AllocError, Global};

#[derive(Debug, Drop)]
struct Part {
    epoch: u64,
    shard: u32,
    done: bool,
}

impl Shard for Part {
    ghost is_drained = { λ p. p.done };

    fn drained(&self) -> bool {
        self.done
    }
}

/// Makes a number of parts, and then no more.
#[derive(Drop)]
struct Maker {
    left: u32,
}

impl Make for Maker {
    type S = Part;

    ghost use Rattle.std.specs.Prelude.{◌≡◌};

    ghost is_new = { λ epoch shard p. (p.epoch ≡ epoch) × (p.shard ≡ shard) };

    fn make(&mut self, epoch: u64, shard: u32) -> Result<Part, AllocError> {
        if self.left == 0 {
            return Err(AllocError);
        }
        self.left -= 1;
        Ok(Part {
            epoch,
            shard,
            done: false,
        })
    }
}

fn are_wanted() -> bool {
    want(2, 100, 50, 0, 1, 50) == 4
        && want(10, 110, 100, 0, 1, 50) == 10
        && want(4, 0, 0, 9, 1, 50) == 4
        && want(4, 10, 40, 0, 1, 50) == 1
        && want(60, 0, 0, 0, 1, 50) == 50
        && want(1, 0, 1, u64::MAX, 1, 1000) == 1000
}

/// Returns the shards of the second epoch, if `next` came once before the old ones were drained and
/// once ran out of memory.
fn second_epoch(alloc: Global) -> Option<Fleet<Part, Running>> {
    let mut maker = Maker { left: 1 };
    let Ok(fleet) = Fleet::first(alloc, 2, &mut Maker { left: 2 }) else {
        return None;
    };
    let Err((mut fleet, fault)) = fleet.begin(3).next(&mut maker) else {
        return None;
    };
    if fault != NextFault::NotDrained || maker.left != 1 {
        return None;
    }
    for part in fleet.shards_mut() {
        part.done = true;
    }
    let Err((fleet, fault)) = fleet.next(&mut maker) else {
        return None;
    };
    if fault != NextFault::OutOfMemory {
        return None;
    }
    let Ok((fleet, old)) = fleet.next(&mut Maker { left: 2 }) else {
        return None;
    };
    if old.len() == 2 { Some(fleet) } else { None }
}

/// Returns whether these are the parts of the second epoch, in order.
fn are_numbered(parts: &[Part]) -> bool {
    for (i, part) in parts.iter().enumerate() {
        if part.epoch != 1 || part.shard as usize != i {
            return false;
        }
    }
    true
}

/// Returns whether these are the three shards of the second epoch, and no others were made.
fn are_second(fleet: Fleet<Part, Running>) -> bool {
    let (parts, made) = fleet.into_shards();
    made.len() == 0 && parts.len() == 3 && are_numbered(&parts)
}

fn is_second_epoch(alloc: Global) -> bool {
    match second_epoch(alloc) {
        Some(fleet) => are_second(fleet),
        None => false,
    }
}

#[test]
fn wanted_shards_and_next_epoch(rt: HostRuntime) {
    holds(&rt, are_wanted());
    holds(&rt, is_second_epoch(rt.alloc()));
}

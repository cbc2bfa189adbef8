//! The bytes that each shard may still be put before a mark.

ghost use Rattle.std.specs.Prelude.{◌≡◌, ◌+◌, ◌-◌, ◌<◌, ◌≤◌, ◌^◌, IfOk, IfSome, IfNone, None, Some, slice_index, EachIndex};
ghost use Rattle.rw_sender.specs.Sizes.{size_of_sample};
ghost use Rattle.rw_sender.specs.Rooms.{AreUncounted, Counts};

use rw_types::{LabelSet, Word};
use rw_write_request::series_field_len;
use std::alloc::{AllocError, Global};
use std::marker::Model;

/// The most shards of an epoch, and so of rooms.
const MAX_SHARDS: usize = 1000;

/// Returns how many bytes a message of a sample alone takes, or `None` if the number does not fit
/// 64 bits.
#[tactic(auto, unfolding(crate::specs::Sizes::size_of_sample))]
fn len_alone(labels: &LabelSet, word: Word, t: i64) -> Option<usize>
    ensures some { IfSome result (λ n. n ≡ size_of_sample labels.now (word, t)) }
    ensures none { IfNone result (2 ^ 64 ≤ size_of_sample labels.now (word, t)) }
{
    series_field_len(labels.as_slice(), &[(word, t)])
}

/// Returns what is left of a room after a sample, or `None` if the sample does not fit.
fn left_of(room: u64, labels: &LabelSet, word: Word, t: i64) -> Option<u64>
    ensures fits { IfSome result (λ left. room ≡ size_of_sample labels.now (word, t) + left) }
    ensures over { IfNone result (room < size_of_sample labels.now (word, t)) }
{
    match len_alone(labels, word, t) {
        Some(bytes) => room.checked_sub(bytes as u64),
        None => None,
    }
}

/// Sets each room to the limit.
fn fill(rooms: &mut [u64], limit: u64)
    ensures { EachIndex rooms.new (λ k. slice_index rooms.new k ≡ limit) }
{
    for room in rooms.iter_mut() {
        *room = limit;
    }
}

/// How many bytes the samples of each shard may still count before a mark, if batches have a limit.
/// A sample counts as many bytes as a message of it alone takes.
#[derive(Drop)]
pub struct Cuts {
    limit: Option<u64>,
    /// No rooms without a limit.
    rooms: Vec<u64>,
}

impl Model for Cuts {
    ghost use Rattle.rw_sender.specs.Rooms.{Counting};
    ghost use Rattle.rw_sender.specs.inner.Rooms.{HasRooms};

    ghost Value = { Counting };

    ghost view = { λ c. record { limit = c.limit; rooms = c.rooms.items } };

    ghost invariant = { λ c. HasRooms c.limit c.rooms.items };
}

impl Cuts {
    /// Returns counts that are all 0. Without a limit this takes no memory.
    pub fn within(alloc: Global, limit: Option<u64>) -> Result<Cuts, AllocError>
        ensures limit { IfOk result (λ c. c.limit ≡ limit) }
        ensures full { IfOk result (λ c. AreUncounted c.limit c.rooms) }
    {
        let Some(most) = limit else {
            return Ok(Cuts {
                limit,
                rooms: Vec::new(alloc),
            });
        };
        let mut rooms = vec![in alloc; 0; MAX_SHARDS]?;
        fill(&mut rooms, most);
        Ok(Cuts { limit, rooms })
    }

    /// Counts nothing for any shard, as after a mark in each queue.
    pub fn reset(&mut self)
        ensures limit { self.new.limit ≡ self.old.limit }
        ensures full { AreUncounted self.new.limit self.new.rooms }
    {
        if let Some(limit) = self.limit {
            fill(&mut self.rooms, limit);
        }
    }

    /// Counts a sample for the shard numbered `shard`. The result says whether a mark has to come
    /// before it, because it would take what was counted since the last one above the limit.
    pub fn count(&mut self, shard: usize, labels: &LabelSet, word: Word, t: i64) -> bool
        requires { shard < MAX_SHARDS }
        ensures limit { self.new.limit ≡ self.old.limit }
        ensures counts { Counts self.old.limit shard (size_of_sample labels.now (word, t))
            self.old.rooms self.new.rooms result }
    {
        let Some(limit) = self.limit else {
            return false;
        };
        if let Some(left) = left_of(self.rooms[shard], labels, word, t) {
            self.rooms[shard] = left;
            return false;
        }
        self.rooms[shard] = left_of(limit, labels, word, t).unwrap_or(0);
        true
    }
}

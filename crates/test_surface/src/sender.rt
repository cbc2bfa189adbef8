//! What the sender is made of: dropped samples, batches, queues, retries, epochs.

use rw_batch::{Batch, BatchId, Builder};
use rw_ledger::{Ledger, Reason};
use rw_reshard::{Draining, Fleet, Make, NextFault, Running, Shard, want};
use rw_retry::{Judgement, delay, judge};
use rw_shard_queue::{
    Drain, Ended, Feed, Gone, Item, Killed, Kind, Open, PlainQueue, PutFault, Taken, Whole, begins,
    compare, open,
};
use std::sync::Wait;

/// The types of rw_ledger, rw_batch, rw_shard_queue, rw_retry and rw_reshard.
pub type Types<S> = (
    (Ledger, Reason, Batch, BatchId, Builder),
    (Item, Kind, PlainQueue, PutFault, Taken, Gone, Whole),
    (
        Feed<Open>,
        Feed<Ended>,
        Drain<Open>,
        Drain<Ended>,
        Drain<Killed>,
    ),
    (Judgement, Fleet<S, Running>, Fleet<S, Draining>, NextFault),
);

/// The calls of rw_ledger and rw_batch.
pub fn of_batches() {
    let _ = (Ledger::new, Ledger::room, Ledger::name, Ledger::give_back);
    let _ = (Ledger::iter, Ledger::total, Ledger::left, Ledger::get);
    let _ = (
        Builder::new,
        Builder::take,
        Builder::is_full,
        Builder::freeze,
    );
    let _ = (Batch::id, Batch::places, Batch::body);
}

/// The calls of rw_shard_queue.
pub fn of_queues<R: Wait>() {
    let _ = (PlainQueue::new, PlainQueue::put, PlainQueue::take);
    let _ = (PlainQueue::close, PlainQueue::kill, PlainQueue::refusal);
    let _ = (PlainQueue::iter, PlainQueue::len, PlainQueue::is_empty);
    let _ = (open, begins::<Open, Open>, compare::<R>);
    let _ = (Feed::<Open>::put::<R>, Feed::<Open>::end::<R>);
    let _ = Feed::<Open>::hand_over::<R>;
    let _ = (Drain::<Open>::take::<R>, Drain::<Open>::kill);
}

/// The calls of rw_retry and rw_reshard.
pub fn of_epochs<M: Make>() {
    let _ = (judge, delay, want, M::make, M::S::drained);
    let _ = (
        Fleet::<M::S, Running>::first::<M>,
        Fleet::<M::S, Running>::begin,
    );
    let _ = (
        Fleet::<M::S, Draining>::next::<M>,
        Fleet::<M::S, Draining>::shards_mut,
    );
    let _ = Fleet::<M::S, Draining>::into_shards;
}

//! What the two ends of a queue know of each other.

ghost use Rattle.std.specs.Prelude.{◌≡◌, ◌+◌, ◌≤◌, length};
ghost use Rattle.rw_plain_queue.specs.History.{IsHistory, IsEnded};
ghost use Rattle.rw_types.specs.Beginnings.{Begins};

use crate::block::Block;
use crate::ends::{Drain, Feed};
use crate::rule::{Compares, InOrder, Log, Meets, Parts};
use crate::stage::{Ended, Stage};
use crossbeam_channel::{Pass, RuledReceiver, RuledSender};
use std::marker::{Model, PhantomData};

/// Both ends of a queue from which everything was taken that was put. Contracts see the queue and
/// its items.
#[derive(Drop)]
pub struct Whole {
    sender: RuledSender<Block, Log, InOrder>,
    receiver: Option<RuledReceiver<Block, Log, InOrder>>,
    pass: Pass<Block, Log>,
}

impl Model for Whole {
    ghost use Rattle.std.specs.Prelude.{◌≡◌};
    ghost use Rattle.rw_shard_queue.specs.Ends.{Passing, queue_of, known_log};
    ghost use Rattle.rw_shard_queue.specs.inner.Rule.{both};

    ghost Value = { Passing };

    ghost view = { λ w. record { queue = queue_of w.pass; items = (known_log w.pass).put } };

    ghost invariant = { λ w. known_log w.pass
        ≡ both (known_log w.pass).name (known_log w.pass).put (known_log w.pass).put };
}

/// Keeps the two ends of an ended queue together. By its contract, what was put is what was taken.
/// It never waits.
pub fn compare<R>(_rt: &R, feed: Feed<Ended>, drain: Drain<Ended>) -> Whole
    requires { feed.queue ≡ drain.queue }
    ensures queue { result.queue ≡ feed.queue }
    ensures put { result.items ≡ feed.put }
    ensures taken { result.items ≡ drain.taken }
    ensures history { IsHistory result.queue.epoch result.queue.shard result.items }
    ensures ended { IsEnded result.items }
{
    let Feed {
        sender,
        pass: mut both,
        ..
    } = feed;
    let Drain {
        receiver,
        pass: other,
        ..
    } = drain;
    sender.absorb::<Meets>(&mut both, other);
    sender.learn_as::<Compares>(&mut both);
    Whole {
        sender,
        receiver,
        pass: both,
    }
}

/// Returns both ends of a queue as they were. By its contract, what was taken is a prefix of what
/// was put, and no more is left than the queue may hold. It never waits.
pub fn begins<S: Stage, T: Stage>(feed: Feed<S>, drain: Drain<T>) -> (Feed<S>, Drain<T>)
    requires { feed.queue ≡ drain.queue }
    ensures same { (result.0 ≡ feed) × (result.1 ≡ drain) }
    ensures begins { Begins drain.taken feed.put }
    ensures handed { Begins drain.taken feed.handed × Begins feed.handed feed.put }
    ensures within { length feed.put ≤ length drain.taken + feed.queue.capacity }
{
    let Feed {
        sender,
        mut pass,
        block: held,
        spares,
        ..
    } = feed;
    let Drain {
        receiver,
        pass: other,
        block,
        returns,
        taken,
        ..
    } = drain;
    sender.absorb::<Meets>(&mut pass, other);
    sender.learn_as::<Compares>(&mut pass);
    let other = sender.another::<Parts>(&mut pass);
    let feed = Feed {
        sender,
        pass,
        block: held,
        spares,
        stage: PhantomData,
    };
    let drain = Drain {
        receiver,
        pass: other,
        block,
        returns,
        taken,
        stage: PhantomData,
    };
    (feed, drain)
}

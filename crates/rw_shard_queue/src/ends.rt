//! The two ends of a queue: `Feed` puts, `Drain` takes.

ghost use Rattle.std.specs.Prelude.{◌≡◌, ◌<◌, [], ◌∷◌, ◌++◌, ◌+◌, ◌≤◌, length, IfOk, OnOk, OnErr, MatchResult};
ghost use Rattle.crossbeam_channel.specs.Claims.{IsSeatAt};
ghost use Rattle.crossbeam_channel.specs.Ends.{sends_on, receives_on, ruled_capacity};
ghost use Rattle.rw_shard_queue.specs.Ends.{known_log, queue_of};
ghost use Rattle.rw_shard_queue.specs.inner.Rule.{feeder, drainer, name_of, IsNamed, IsRoomy, HandsOver};
ghost use Rattle.rw_plain_queue.specs.History.{MayFollow, IsHistory, IsOpen};
ghost use Rattle.rw_shard_queue.specs.Taken.{TakesFront};

use crate::block::Block;
use crate::rule::{InOrder, Log, Naming, Opens, Puts, Takes};
use crate::spares::{Returns, Spares, spare_blocks};
use crate::stage::{Deserted, Ended, Killed, Open, Stage};
use crossbeam_channel::{Pass, RuledReceiver, RuledSender, bounded_with};
use rw_history::History;
use rw_plain_queue::{Item, Kind};
use std::alloc::{AllocError, Global};
use std::error::Error;
use std::marker::{Brand, Model, PhantomData};
use std::sync::Wait;
use std::{fmt, mem};

/// The error of a call that found nobody at the other end of the queue. No clause says why.
#[derive(Clone, Copy, Debug, PartialEq, Eq)]
pub struct Gone;

impl fmt::Display for Gone {
    fn fmt<W: fmt::Write>(&self, f: &mut fmt::Formatter<W>) -> fmt::Result {
        f.write_str("the other end of the queue no longer exists")
    }
}

impl Error for Gone {}

/// The end of a queue that puts. Contracts see its queue, the greatest number of items that it
/// holds, what was put, and how much of it was handed over to the channel.
#[derive(Drop)]
pub struct Feed<S: Stage> {
    pub(crate) sender: RuledSender<Block, Log, InOrder>,
    pub(crate) pass: Pass<Block, Log>,
    /// What was put and is held back until a block is handed over.
    pub(crate) block: Block,
    pub(crate) spares: Spares,
    pub(crate) stage: PhantomData<S>,
}

impl<S: Stage> Model for Feed<S> {
    ghost use Rattle.std.specs.Prelude.{◌≡◌, ◌<◌, ◌++◌, length};
    ghost use Rattle.crossbeam_channel.specs.Claims.{IsSeatAt};
    ghost use Rattle.crossbeam_channel.specs.Ends.{sends_on, ruled_capacity};
    ghost use Rattle.rw_shard_queue.specs.Ends.{Feeding, queue_of, known_log};
    ghost use Rattle.rw_shard_queue.specs.inner.Rule.{feeder, IsNamed, IsRoomy};

    ghost Value = { Feeding };

    ghost view = { λ f. record {
      queue = queue_of f.pass;
      capacity = (known_log f.pass).name.capacity;
      handed = (known_log f.pass).put;
      put = (known_log f.pass).put ++ f.block.items;
    } };

    ghost invariant = { λ f. IsSeatAt (sends_on f.sender) f.pass
        × (known_log f.pass ≡ feeder (known_log f.pass).name (known_log f.pass).put)
        × IsNamed (known_log f.pass).name ((known_log f.pass).put ++ f.block.items)
        × S.stands ((known_log f.pass).put ++ f.block.items)
        × ((known_log f.pass).name.slots ≡ ruled_capacity (sends_on f.sender))
        × IsRoomy (known_log f.pass).name
        × (f.block.most ≡ (known_log f.pass).name.most)
        × (length f.block.items < (known_log f.pass).name.most)
        × S.held f.block.items
        × (f.spares ≡ (known_log f.pass).name.most) };
}

/// The end of a queue that takes. Contracts see its queue and what was taken.
#[derive(Drop)]
pub struct Drain<S: Stage> {
    pub(crate) receiver: Option<RuledReceiver<Block, Log, InOrder>>,
    pub(crate) pass: Pass<Block, Log>,
    /// What was received and is not taken yet.
    pub(crate) block: Block,
    /// `None` once the end was given up, as `receiver` is.
    pub(crate) returns: Option<Returns>,
    pub(crate) taken: History<Item>,
    pub(crate) stage: PhantomData<S>,
}

impl<S: Stage> Model for Drain<S> {
    ghost use Rattle.std.specs.Prelude.{◌≡◌, ◌<◌, ◌++◌, length, [], MatchOption};
    ghost use Rattle.crossbeam_channel.specs.Claims.{IsSeatAt};
    ghost use Rattle.crossbeam_channel.specs.Ends.{receives_on};
    ghost use Rattle.rw_shard_queue.specs.Ends.{Draining, queue_of, known_log};
    ghost use Rattle.rw_shard_queue.specs.inner.Rule.{drainer, IsNamed};

    ghost Value = { Draining };

    ghost view = { λ d. record { queue = queue_of d.pass; taken = d.taken } };

    ghost invariant = { λ d. MatchOption d.receiver S.let_go (λ r. IsSeatAt (receives_on r) d.pass)
        × (d.pass.me.1 ≡ [])
        × (known_log d.pass ≡ drainer (known_log d.pass).name (known_log d.pass).taken)
        × IsNamed (known_log d.pass).name (known_log d.pass).taken
        × ((known_log d.pass).taken ≡ d.taken ++ d.block.items)
        × S.stands d.taken
        × (length d.block.items < (known_log d.pass).name.most)
        × (d.block.most ≡ (known_log d.pass).name.most)
        × MatchOption d.returns S.let_go (λ r. r ≡ (known_log d.pass).name.most) };
}

/// What `Drain::take` returns, with the end as it then is.
#[derive(Drop)]
pub enum Taken {
    /// A sample or a Flush.
    Item(Item, Drain<Open>),
    /// The End, which is the last item.
    End(Kind, Drain<Ended>),
    /// Nothing, and nothing more will come: nobody is at the end that puts.
    Gone(Drain<Deserted>),
}

/// Hands over a block, and replaces it by an empty one. If nobody is at the other end, what was put
/// does not change.
fn send<R: Wait>(
    rt: &R,
    sender: &RuledSender<Block, Log, InOrder>,
    pass: &mut Pass<Block, Log>,
    block: &mut Block,
    spares: &mut Spares,
) -> Result<(), Gone>
    requires seat { IsSeatAt (sends_on sender.now) pass.old }
    requires log { known_log pass.old ≡ feeder (known_log pass.old).name (known_log pass.old).put }
    requires history { IsNamed (known_log pass.old).name ((known_log pass.old).put ++ block.old.items) }
    requires slots { (known_log pass.old).name.slots ≡ ruled_capacity (sends_on sender.now) }
    requires some { 0 < length block.old.items }
    requires most { length block.old.items ≤ (known_log pass.old).name.most }
    requires sized { block.old.most ≡ (known_log pass.old).name.most }
    requires spares { spares.old ≡ (known_log pass.old).name.most }
    ensures seat { IsSeatAt (sends_on sender.now) pass.new × (pass.new.id ≡ pass.old.id) }
    ensures room { block.new.most ≡ block.old.most }
    ensures spares { spares.new ≡ spares.old }
    ensures ok { OnOk result
        (HandsOver (known_log pass.old) (known_log pass.new) block.old.items block.new.items) }
    ensures err { OnErr result ((known_log pass.new ≡ known_log pass.old) × (block.new ≡ block.old)) }
{
    let Some(spare) = spares.take(rt) else {
        return Err(Gone);
    };
    let full = mem::replace(block, spare);
    if let Err(e) = sender.send_as::<Puts, R>(rt, pass, full) {
        *block = e.into_inner();
        return Err(Gone);
    }
    Ok(())
}

impl Feed<Open> {
    /// Puts a sample or a Flush at the back. It may wait for room. If nobody is at the other end,
    /// the item comes back, and what was put stays as it was.
    pub fn put<R: Wait>(&mut self, rt: &R, item: Item) -> Result<(), (Item, Gone)>
        requires { MayFollow self.old.queue.epoch self.old.queue.shard self.old.put item }
        ensures queue { (self.new.queue ≡ self.old.queue)
            × (self.new.capacity ≡ self.old.capacity) }
        ensures put { MatchResult result (λ _. self.new.put ≡ self.old.put ++ item ∷ [])
            (λ e. (e.0 ≡ item)
            × (self.new.put ≡ self.old.put)) }
        ensures hands_over { OnOk result (item ≡ Item.Flush → self.new.handed ≡ self.new.put) }
        ensures few { length self.new.put < length self.new.handed + self.new.queue.most }
        ensures history { IsHistory self.new.queue.epoch self.new.queue.shard self.new.put }
    {
        let waits = !matches!(item, Item::Flush);
        self.block.push(item);
        if waits && self.block.len() < self.block.most() {
            return Ok(());
        }
        if let Err(gone) = send(
            rt,
            &self.sender,
            &mut self.pass,
            &mut self.block,
            &mut self.spares,
        ) {
            let Some(item) = self.block.undo() else {
                unreachable!();
            };
            return Err((item, gone));
        }
        Ok(())
    }

    /// Hands over the items that are held back, so that the other end can take them. It may wait
    /// for room.
    pub fn hand_over<R: Wait>(&mut self, rt: &R) -> Result<(), Gone>
        ensures queue { (self.new.queue ≡ self.old.queue)
            × (self.new.capacity ≡ self.old.capacity) }
        ensures put { self.new.put ≡ self.old.put }
        ensures hands_over { OnOk result (self.new.handed ≡ self.new.put) }
        ensures err { OnErr result (self.new ≡ self.old) }
    {
        if self.block.len() == 0 {
            return Ok(());
        }
        send(
            rt,
            &self.sender,
            &mut self.pass,
            &mut self.block,
            &mut self.spares,
        )
    }

    /// Puts an End, the last item, of this kind. It may wait for room. If nobody is at the other
    /// end, this end comes back as it was.
    pub fn end<R: Wait>(self, rt: &R, kind: Kind) -> Result<Feed<Ended>, (Feed<Open>, Gone)>
        ensures put { MatchResult result (λ f. (f.queue ≡ self.queue) × (f.capacity ≡ self.capacity)
            × (f.put ≡ self.put ++ Item.End kind ∷ [])) (λ e. e.0 ≡ self) }
        ensures hands_over { IfOk result (λ f. f.handed ≡ f.put) }
        ensures history { IfOk result (λ f. IsHistory f.queue.epoch f.queue.shard f.put) }
    {
        let Feed {
            sender,
            mut pass,
            mut block,
            mut spares,
            ..
        } = self;
        block.push(Item::End(kind));
        if let Err(gone) = send(rt, &sender, &mut pass, &mut block, &mut spares) {
            let Some(_) = block.undo() else {
                unreachable!();
            };
            let feed = Feed {
                sender,
                pass,
                block,
                spares,
                stage: PhantomData,
            };
            return Err((feed, gone));
        }
        Ok(Feed {
            sender,
            pass,
            block,
            spares,
            stage: PhantomData,
        })
    }
}

/// Returns the item that was taken out of the block, with the end.
fn given(
    item: Item,
    receiver: RuledReceiver<Block, Log, InOrder>,
    pass: Pass<Block, Log>,
    block: Block,
    returns: Returns,
    taken: History<Item>,
) -> Taken
    requires seat { IsSeatAt (receives_on receiver) pass }
    requires log { known_log pass ≡ drainer (known_log pass).name (known_log pass).taken }
    requires history { IsNamed (known_log pass).name (known_log pass).taken }
    requires front { (known_log pass).taken ≡ taken ++ item ∷ block.items }
    requires open { IsOpen taken }
    requires most { length block.items < (known_log pass).name.most }
    requires sized { block.most ≡ (known_log pass).name.most }
    requires returns { returns ≡ (known_log pass).name.most }
    ensures { TakesFront (record { queue = queue_of pass; taken = taken }) result }
{
    let mut taken = taken;
    taken.push(&item);
    if let Item::End(kind) = item {
        return Taken::End(
            kind,
            Drain {
                receiver: Some(receiver),
                pass,
                block,
                returns: Some(returns),
                taken,
                stage: PhantomData,
            },
        );
    }
    Taken::Item(
        item,
        Drain {
            receiver: Some(receiver),
            pass,
            block,
            returns: Some(returns),
            taken,
            stage: PhantomData,
        },
    )
}

impl Drain<Open> {
    /// Takes the item at the front. It may wait for one.
    pub fn take<R: Wait>(self, rt: &R) -> Taken
        ensures { TakesFront self result }
    {
        let Drain {
            receiver,
            mut pass,
            mut block,
            returns,
            taken,
            ..
        } = self;
        let (Some(receiver), Some(mut returns)) = (receiver, returns) else {
            unreachable!();
        };
        if let Some(item) = block.pop() {
            return given(item, receiver, pass, block, returns, taken);
        }
        let Ok(mut next) = receiver.recv_as::<Takes, R>(rt, &mut pass) else {
            return Taken::Gone(Drain {
                receiver: Some(receiver),
                pass,
                block,
                returns: Some(returns),
                taken,
                stage: PhantomData,
            });
        };
        returns.give_back(rt, block);
        let Some(item) = next.pop() else {
            unreachable!();
        };
        given(item, receiver, pass, next, returns, taken)
    }
}

impl<S: Stage> Drain<S> {
    /// Gives this end up: nothing more is taken, and the end that puts finds nobody here.
    pub fn kill(self) -> Drain<Killed>
        ensures { result ≡ self }
    {
        let Drain {
            pass,
            block,
            taken,
            ..
        } = self;
        Drain {
            receiver: None,
            pass,
            block,
            returns: None,
            taken,
            stage: PhantomData,
        }
    }
}

fn open_named<Q: Naming>(
    alloc: Global,
    epoch: u64,
    shard: u32,
    capacity: usize,
    slots: usize,
    most: usize,
) -> Result<(Feed<Open>, Drain<Open>), AllocError>
    requires name { Q.name ≡ name_of epoch shard capacity slots most }
    requires roomy { IsRoomy Q.name }
    ensures same { IfOk result (λ r. r.0.queue ≡ r.1.queue) }
    ensures queue { IfOk result
        (λ r. (r.0.queue.epoch ≡ Q.name.epoch) × (r.0.queue.shard ≡ Q.name.shard)) }
    ensures capacity { IfOk result (λ r. r.0.capacity ≡ Q.name.capacity) }
    ensures most { IfOk result (λ r. r.0.queue.capacity ≡ Q.name.capacity) }
    ensures empty { IfOk result (λ r. (r.0.put ≡ []) × (r.1.taken ≡ [])) }
{
    let held = Block::new(alloc, most)?;
    let block = Block::new(alloc, most)?;
    let (spares, returns) = spare_blocks::<Q>(alloc, slots, most)?;
    let (sender, receiver, mut pass) = bounded_with::<Block, Log, InOrder, Global>(alloc, slots)?;
    let other = sender.another::<Opens<Q>>(&mut pass);
    let feed = Feed {
        sender,
        pass,
        block: held,
        spares,
        stage: PhantomData,
    };
    let drain = Drain {
        receiver: Some(receiver),
        pass: other,
        block,
        returns: Some(returns),
        taken: History::new(),
        stage: PhantomData,
    };
    Ok((feed, drain))
}

/// The most items of a block.
const LONGEST: usize = 64;

/// Returns the two ends of a new queue, for shard `shard` of epoch `epoch`. It holds at most
/// `capacity` items, marks included.
pub fn open(
    alloc: Global,
    epoch: u64,
    shard: u32,
    capacity: usize,
) -> Result<(Feed<Open>, Drain<Open>), AllocError>
    requires { 0 < capacity }
    ensures same { IfOk result (λ r. r.0.queue ≡ r.1.queue) }
    ensures queue { IfOk result (λ r. (r.0.queue.epoch ≡ epoch) × (r.0.queue.shard ≡ shard)
        × (r.0.capacity ≡ capacity)) }
    ensures most { IfOk result (λ r. r.0.queue.capacity ≡ capacity) }
    ensures empty { IfOk result (λ r. (r.0.put ≡ []) × (r.1.taken ≡ [])) }
{
    let eighth = capacity / 8;
    let held = if eighth < LONGEST {
        eighth
    } else {
        LONGEST - 1
    };
    let most = held + 1;
    let slots = (capacity - 2 * held) / most;
    open_named::<Brand>(alloc, epoch, shard, capacity, slots, most)
}

//! What may happen next to a sender, the network and a receiver.

use rw_wal_tail::Piece;

/// How the receiver answers a request that has arrived.
#[derive(Clone, Copy, Debug, PartialEq, Eq)]
pub enum How {
    /// It reads the request and judges its message.
    Plain,
    /// It is busy: 429 Too Many Requests.
    Busy,
    /// It has no memory left: 503 Service Unavailable.
    OutOfMemory,
}

/// One event. Shards, requests and replies are identified by their numbers, from 0.
///
/// An event whose guard fails changes nothing. A request or a reply that the network loses is one
/// that never arrives, and one that it repeats arrives again.
#[derive(Debug, Drop)]
pub enum Event {
    /// The next piece of the log is read.
    Feed(Piece),
    /// The next entry of the log is placed: a definition is taken, a sample is put into its shard's
    /// queue, named as dropped, or filtered.
    Place,
    /// A mark is put into this shard's queue: an End if all is placed after a `Close` or the number
    /// of shards changes, else a Flush.
    Flush(u64),
    /// This shard takes the front of its queue.
    Take(u64),
    /// This shard's builder becomes its open batch.
    Freeze(u64),
    /// This shard sends its open batch.
    Send(u64),
    /// The request with this number arrives at the receiver.
    Arrive(u64, How),
    /// The reply with this number arrives at the sender.
    Reply(u64),
    /// This shard gives up its attempt.
    Lost(u64),
    /// The number of shards is to become this.
    Reshard(u64),
    /// The next shards take over, once the current shards have nothing left.
    Restart,
    /// No more is read, and all is to be sent that was read.
    Close,
    /// Everything stops at once.
    Kill,
}

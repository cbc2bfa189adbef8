//! What was sent, and what was answered.

ghost use Rattle.std.specs.Prelude.{◌≡◌};
ghost use Rattle.rw_plain_queue.specs.Items.{samples_in};

use bytes::Bytes;
use http::StatusCode;
use rw_batch::BatchId;
use rw_history::History;
use rw_plain_queue::Item;
use rw_shard_core::Attempt;
use std::marker::Model;

/// A batch that was sent.
#[derive(Drop)]
pub struct SentBatch {
    id: BatchId,
    request: Bytes,
    samples: History<Item>,
}

impl Model for SentBatch {
    ghost use Rattle.rw_plain_queue.specs.Items.{samples_in};
    ghost use Rattle.rw_machine.specs.Worlds.{Request};

    ghost Value = { Request };

    ghost view = { λ s. record { id = s.id; batch = samples_in s.samples; bytes = s.request } };
}

/// A reply to a batch.
#[derive(Drop)]
pub struct BatchReply {
    id: BatchId,
    status: StatusCode,
}

impl Model for BatchReply {
    ghost use Rattle.rw_machine.specs.Worlds.{Reply};

    ghost Value = { Reply };

    ghost view = { λ r. record { id = r.id; status = r.status } };
}

impl SentBatch {
    /// Returns the batch of an attempt.
    pub(crate) fn of(attempt: Attempt, samples: History<Item>) -> SentBatch
        ensures { result
            ≡ record { id = attempt.id; batch = samples_in samples; bytes = attempt.request } }
    {
        let Attempt { id, request } = attempt;
        SentBatch {
            id,
            request,
            samples,
        }
    }

    /// Returns the id of the batch.
    pub fn id(&self) -> BatchId
        ensures { result ≡ self.now.id }
    {
        self.id
    }

    /// Returns the bytes of the request.
    pub fn request(&self) -> &[u8]
        ensures { result.now ≡ self.now.bytes }
    {
        self.request.as_slice()
    }
}

impl BatchReply {
    /// Returns a reply to this batch.
    pub fn new(id: BatchId, status: StatusCode) -> BatchReply
        ensures { result ≡ record { id = id; status = status } }
    {
        BatchReply { id, status }
    }

    /// Returns the id of the batch.
    pub fn id(&self) -> BatchId
        ensures { result ≡ self.now.id }
    {
        self.id
    }

    /// Returns the status of the reply.
    pub fn status(&self) -> StatusCode
        ensures { result ≡ self.now.status }
    {
        self.status
    }
}

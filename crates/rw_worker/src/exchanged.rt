//! The record that a transport keeps of its exchanges.

ghost use Rattle.std.specs.Prelude.{◌≡◌};
ghost use Rattle.rw_worker.specs.Transcript.{exchange_of};

use crate::transport::{Lost, Reply};
use rw_history::History;
use std::marker::Model;

/// A request and its answer, for contracts alone. A transport that records its exchanges has a
/// `History` of these. It keeps no byte of the request.
#[derive(Drop)]
pub struct Exchanged {
    request: History<u8>,
    answer: Result<Reply, Lost>,
}

impl Model for Exchanged {
    ghost use Rattle.rw_worker.specs.Transcript.{Exchange, exchange_of};

    ghost Value = { Exchange };

    ghost view = { λ e. exchange_of e.request e.answer };
}

impl Exchanged {
    /// Records a request and its answer.
    pub fn of(request: &[u8], answer: &Result<Reply, Lost>) -> Exchanged
        ensures { result ≡ exchange_of request.now answer.now }
    {
        Exchanged {
            request: History::of(request),
            answer: *answer,
        }
    }
}

//! A transport in memory.

ghost use Rattle.std.specs.Prelude.{◌≡◌, ℕ, List, true, [], ◌∷◌, ◌++◌, None, Some, IfOk};
ghost use Rattle.rw_types.specs.Requests.{is_host_name};
ghost use Rattle.rw_shard_core.specs.SentRequest.{request_of};
ghost use Rattle.rw_worker.specs.Transcript.{exchange_of};
ghost use Rattle.rw_in_memory.specs.Lines.{IsSeatLine};
ghost use Rattle.rw_in_memory.specs.inner.Lines.{IsAskedOnce};

use crate::asker::Asker;
use crate::receiver::{Endpoint, Receiver};
use http::StatusCode;
use rw_endpoint::serve;
use rw_head::Head;
use rw_history::History;
use rw_recv_head::{Holding, Seat};
use rw_types::Room;
use rw_worker::{Exchanged, Lost, Reply, Transport};
use std::alloc::Global;
use std::marker::Model;
use std::sync::{Arc, Wait};

/// The most bytes of a reply.
const REPLY_ROOM: usize = 86;

/// Serves a connection with one request. Returns what the seat answered, if it was asked.
fn ask<R: Wait, L: Endpoint + Holding<Head>>(
    alloc: Global,
    receiver: &Receiver<L>,
    asker: &mut Asker<R, L>,
    request: &[u8],
) -> Option<u16>
    ensures { (host body : List ℕ) → is_host_name host ≡ true
        → request.now ≡ request_of host L.path body
        → IsAskedOnce L.opening L.limit asker.old.seat body result asker.new.seat }
{
    let Ok(mut writer) = Room::new(alloc, REPLY_ROOM) else {
        return None;
    };
    let limits = receiver.limits();
    limits.path.conforms();
    let mut reader = request;
    asker.status = None;
    let _ = serve(alloc, &mut reader, &mut writer, asker, limits);
    asker.status
}

/// Returns the answer that a sender gets: a request for which no seat was asked is lost.
fn answer_of(status: Option<u16>) -> Result<Reply, Lost>
    ensures { IfOk result (λ r. status ≡ Some r.status) }
{
    let Some(number) = status else {
        return Err(Lost);
    };
    match StatusCode::from_u16(number) {
        Ok(status) => Ok(Reply { status }),
        Err(_) => Err(Lost),
    }
}

/// Records one exchange more.
fn note(seen: &mut History<Exchanged>, request: &[u8], answer: &Result<Reply, Lost>)
    ensures { seen.new ≡ seen.old ++ exchange_of request.now answer.now ∷ [] }
{
    seen.push(&Exchanged::of(request, answer));
}

/// A transport in memory: it lends each request to a receiver's endpoint, which asks a seat of a
/// shared head. Contracts see the seat, and the exchanges so far.
///
/// What the endpoint refuses without asking is reported as lost.
#[derive(Drop)]
pub struct Line<R, L: Endpoint + Holding<Head>> {
    alloc: Global,
    receiver: Arc<Receiver<L>>,
    asker: Asker<R, L>,
    seen: History<Exchanged>,
}

impl<R, L: Endpoint + Holding<Head>> Model for Line<R, L> {
    ghost use Rattle.rw_in_memory.specs.Lines.{SeatLine, IsSeatLine};

    ghost Value = { SeatLine };

    ghost view = { λ l. record { seat = l.asker.seat; seen = l.seen } };

    ghost invariant = { λ l. IsSeatLine L.opening L.path L.limit
        (record { seat = l.asker.seat; seen = l.seen }) };
}

impl<R, L: Endpoint + Holding<Head>> Line<R, L> {
    /// Returns a transport whose seat was not asked yet. It takes two shares of one receiver, since
    /// the seat asks while its limits are lent.
    pub fn new(
        rt: R,
        alloc: Global,
        ours: Arc<Receiver<L>>,
        theirs: Arc<Receiver<L>>,
        seat: Seat<L>,
    ) -> Line<R, L>
        requires { seat.asked ≡ [] }
        ensures { result ≡ record { seat = seat; seen = [] } }
    {
        let asker = Asker {
            rt,
            receiver: theirs,
            seat,
            status: None,
        };
        Line {
            alloc,
            receiver: ours,
            asker,
            seen: History::new(),
        }
    }
}

impl<R: Drop, L: Endpoint + Holding<Head>> Line<R, L> {
    /// Returns the seat.
    pub fn into_seat(self) -> Seat<L>
        ensures seat { result ≡ self.seat }
        ensures line { IsSeatLine L.opening L.path L.limit self }
    {
        let Line {
            alloc: _,
            receiver: _,
            asker,
            seen: _,
        } = self;
        asker.into_seat()
    }
}

impl<R: Wait, L: Endpoint + Holding<Head>> Transport for Line<R, L> {
    ghost use Rattle.std.specs.Prelude.{⊤};
    ghost use Rattle.rw_in_memory.specs.Lines.{IsSeatLine};

    ghost is_for = { λ _ _ _. ⊤ };

    ghost tells = { λ line. IsSeatLine L.opening L.path L.limit line };

    ghost seen = { λ line. line.seen };

    fn exchange(&mut self, request: &[u8]) -> Result<Reply, Lost> {
        let status = ask(self.alloc, &self.receiver, &mut self.asker, request);
        let answer = answer_of(status);
        note(&mut self.seen, request, &answer);
        answer
    }
}

//! A transport over TCP connections.

ghost use Rattle.std.specs.Prelude.{◌≡◌, ◌<◌, ◌*◌, [], Ok, IfOk, IfSome, length};
ghost use Rattle.rw_shard_core.specs.declared.replies.ReplyRead.TheVariants as read;
ghost use Rattle.rw_retry.specs.declared.judgement.Judgement.TheVariants as judgement;

use crate::access::Access;
use crate::asked_pause::AskedPause;
use crate::doubt::{is_unsure, may_be_taken};
use crate::packed::{Packer, copy_target};
use crate::refusal::RefusalStop;
use crate::repeats::{FailureWatch, GiveUp};
use crate::reply::{Heard, NoReply, hear_answer, hear_answer_to};
use crate::route::{Route, SharedRoute};
use rw_fields::ExtraFields;
use rw_history::History;
use rw_metrics::{Cause, SendCounters};
use rw_retry::{Judgement, judge};
use rw_shard_core::Target;
use rw_socket::{Deadline, Timely};
use rw_types::{Bounded, Sink, Source, Std};
use rw_worker::{Exchanged, Lost, Reply, Transport};
use std::alloc::{AllocError, AllocGlobal, Global};
use std::marker::Model;
use std::net::{Net, SocketAddr, TcpStream};
use std::rt::Files;
use std::sync::Arc;
use std::time::{Clock, Duration};

/// The most addresses that are tried.
const MOST_ADDRESSES: usize = 1_000;

/// Sends each request over its own connection, to the first of the addresses that answers. The next
/// request begins with the address that has answered last.
///
/// Whatever fails is `Lost`: a connect, a write or a read, whatever is not done when the timeout
/// has passed since the attempt began, and bytes that are not a reply. Contracts see the addresses,
/// the timeout, and the exchanges so far: each request that `exchange` was given, with the answer
/// that it returned. They say nothing about what went over a connection.
#[derive(Drop)]
pub struct TcpTransport<N> {
    alloc: Global,
    net: N,
    route: Route,
    timeout: Duration,
    counters: Arc<SendCounters, Global>,
    packer: Option<Packer>,
    refusal_stop: Option<Arc<RefusalStop, Global>>,
    asked_pause: Option<Arc<AskedPause, Global>>,
    /// The fields that are added to requests, and where they come from.
    fields: Option<ExtraFields>,
    access: Option<Arc<Access, Global>>,
    /// Whether the receiver may have taken the batch that is sent.
    may_be_taken: bool,
    failures: Option<FailureWatch>,
    seen: History<Exchanged>,
}

impl<N> Model for TcpTransport<N> {
    ghost use Rattle.std.specs.Duration.{as_nanos};
    ghost use Rattle.rw_tcp.specs.Receivers.{TcpTransport};

    ghost Value = { TcpTransport };

    ghost view = { λ t. record {
      receiver = record { addresses = t.route; timeout = as_nanos t.timeout };
      seen = t.seen;
    } };
}

impl<N: Net<Stream = TcpStream> + Clock + Files + AllocGlobal + Copy> TcpTransport<N> {
    /// Returns a transport to these addresses of one receiver, which are tried in turn. The timeout
    /// is in milliseconds, for a whole attempt: the connects, all writes and all reads together.
    /// `counters` count each attempt, and why it failed.
    pub fn new(
        alloc: Global,
        net: N,
        addresses: Vec<SocketAddr>,
        timeout_ms: Bounded<1, 3_600_000>,
        counters: Arc<SendCounters, Global>,
    ) -> TcpTransport<N>
        ensures addresses { result.receiver.addresses ≡ addresses.items }
        ensures timeout { result.receiver.timeout ≡ timeout_ms * 1_000_000 }
        ensures unused { result.seen ≡ [] }
    {
        TcpTransport {
            alloc,
            net,
            route: Route::new(addresses),
            timeout: Duration::from_millis(timeout_ms.get()),
            counters,
            packer: None,
            refusal_stop: None,
            asked_pause: None,
            fields: None,
            access: None,
            may_be_taken: false,
            failures: None,
            seen: History::new(),
        }
    }

    /// Returns the transport, which from here on sends the bodies of requests to this target as
    /// Snappy blocks. Each request is packed once, at its first attempt; further attempts in a row
    /// have the same bytes.
    pub fn with_snappy(self, target: &Target) -> Result<TcpTransport<N>, AllocError>
        ensures { IfOk result (λ t. t ≡ self) }
    {
        let mut transport = self;
        let target = copy_target(transport.alloc, target)?;
        transport.packer = Some(Packer::new(transport.alloc, target)?);
        Ok(transport)
    }

    /// Returns the transport, which from here on shares what it finds about the addresses with
    /// other transports to the receiver, and looks its name up again once attempts have failed for
    /// 30 seconds.
    pub fn with_shared_route(self, shared: Arc<SharedRoute, Global>) -> TcpTransport<N>
        ensures { result ≡ self }
    {
        let mut transport = self;
        transport.route.join(shared);
        transport
    }

    /// Returns the transport, which from here on reports the status of each answer to this stop.
    pub fn with_refusal_stop(self, stop: Arc<RefusalStop, Global>) -> TcpTransport<N>
        ensures { result ≡ self }
    {
        let mut transport = self;
        transport.refusal_stop = Some(stop);
        transport
    }

    /// Returns the transport, which from here on says what an answer asks for of the next pause.
    pub fn with_asked_pause(self, asked: Arc<AskedPause, Global>) -> TcpTransport<N>
        ensures { result ≡ self }
    {
        let mut transport = self;
        transport.asked_pause = Some(asked);
        transport
    }

    /// Returns the transport, which from here on adds these fields to each request. After a 401 it
    /// reads them again, if `access` has a token file, and sends the request once more if they have
    /// changed.
    pub fn with_fields(self, fields: ExtraFields, access: Arc<Access, Global>) -> TcpTransport<N>
        ensures { result ≡ self }
    {
        let mut transport = self;
        transport.fields = Some(fields);
        transport.access = Some(access);
        transport
    }

    /// Returns the transport, which from here on has the run given up if the same failure is
    /// answered for too long.
    pub fn with_give_up(self, give_up: Arc<GiveUp, Global>) -> TcpTransport<N>
        ensures { result ≡ self }
    {
        let mut transport = self;
        transport.failures = Some(FailureWatch::new(transport.alloc, give_up));
        transport
    }

    /// Returns a connection to the first address that answers, and the place of this address. Those
    /// that were not tried yet share the time that is left.
    fn connect(&self, deadline: &Deadline<N>) -> Option<(TcpStream, usize)>
        ensures { IfSome result (λ found. found.1 < length self.now.receiver.addresses) }
    {
        let addresses = self.route.addresses();
        let mut untried = addresses.len().min(MOST_ADDRESSES) as u32;
        for at in 0..addresses.len() {
            let share = deadline.left()?.checked_div(untried)?;
            if let Ok(stream) = TcpStream::connect_timeout(&self.net, &addresses[at], share) {
                return Some((stream, at));
            }
            untried = untried.saturating_sub(1);
        }
        None
    }

    /// Writes these bytes, with the fields that are added, to a connection of their own. Returns
    /// what is answered.
    fn ask(&mut self, deadline: Deadline<N>, bytes: &[u8]) -> Result<Heard, Cause>
        ensures { self.new.seen ≡ self.old.seen }
    {
        let Some((stream, at)) = self.connect(&deadline) else {
            return Err(Cause::Connect);
        };
        let heard = exchange_through(self.alloc, &stream, deadline, &self.fields, bytes)?;
        self.route.put_first(at);
        if let Some(asked) = &self.asked_pause {
            asked.hear(heard.text());
        }
        Ok(heard)
    }

    /// Sends a request over its own connection, packed by this packer if there is one.
    fn ask_packed(
        &mut self,
        packer: &mut Option<Packer>,
        deadline: Deadline<N>,
        request: &[u8],
    ) -> Result<Heard, Cause>
        ensures { self.new.seen ≡ self.old.seen }
    {
        match packer {
            None => self.ask(deadline, request),
            Some(packer) => match packer.pack(request) {
                Ok(()) => self.ask(deadline, packer.bytes()),
                Err(_) => Err(Cause::Memory),
            },
        }
    }

    /// Reads the token again, and returns whether the fields have changed.
    fn renew_fields(&mut self) -> bool
        ensures { self.new.seen ≡ self.old.seen }
    {
        let (Some(access), Some(fields)) = (&self.access, &self.fields) else {
            return false;
        };
        if !access.has_token_file() {
            return false;
        }
        let Ok(renewed) = access.fields(&self.net) else {
            return false;
        };
        if renewed.is_same(fields) {
            return false;
        }
        self.fields = Some(renewed);
        true
    }

    /// Takes what came of an attempt to send a request: whether the receiver may have taken it, and
    /// whether it answers the same failure for too long.
    fn note_answer(&mut self, request: &[u8], answer: &Result<Heard, Cause>)
        ensures { self.new.seen ≡ self.old.seen }
    {
        let heard = match answer {
            Ok(heard) => Some((heard.status().as_u16(), heard.text())),
            Err(_) => None,
        };
        self.may_be_taken = is_doubtful(&self.counters, self.may_be_taken, request, answer);
        let mut failures = self.failures.take();
        if let Some(watch) = &mut failures {
            watch.hear(&self.net, heard);
        }
        self.failures = failures;
    }

    /// Sends a request over its own connection, packed by this packer if there is one, and counts
    /// the attempt and its outcome. After a 401 it is sent once more if the token has changed.
    fn attempt(&mut self, packer: &mut Option<Packer>, request: &[u8]) -> Result<Reply, Lost>
        ensures { self.new.seen ≡ self.old.seen }
    {
        self.counters.attempt();
        self.route.catch_up();
        if let Some(asked) = &self.asked_pause {
            asked.clear();
        }
        let deadline = Deadline::new(self.net, self.timeout);
        let mut answer = self.ask_packed(packer, deadline, request);
        if is_unauthorized(&answer) && self.renew_fields() {
            answer = self.ask_packed(packer, deadline, request);
        }
        self.note_answer(request, &answer);
        counted(&self.counters, &deadline, request, answer)
    }

    /// Looks at an answer: whether it is a failure, and whether it stops the run.
    fn look_at(&mut self, answer: &Result<Reply, Lost>)
        ensures { self.new.seen ≡ self.old.seen }
    {
        let has_failed = match answer {
            Ok(reply) => judge(reply.status) == Judgement::Again,
            Err(_) => true,
        };
        self.route.note(&self.net, self.alloc, has_failed);
        if let (Some(stop), Ok(reply)) = (&self.refusal_stop, answer) {
            stop.hear(reply.status);
        }
    }
}

/// Returns whether the receiver wants to know who sends.
fn is_unauthorized(answer: &Result<Heard, Cause>) -> bool {
    match answer {
        Ok(heard) => heard.status().as_u16() == 401,
        Err(_) => false,
    }
}

/// Returns whether the receiver may have taken the batch that is sent, after this attempt. A batch
/// that is refused and may have been taken before is counted.
fn is_doubtful(
    counters: &SendCounters,
    before: bool,
    request: &[u8],
    answer: &Result<Heard, Cause>,
) -> bool {
    match answer {
        Err(Cause::Connect | Cause::Memory) => before,
        Err(_) => may_be_taken(before, None),
        Ok(heard) => {
            let status = heard.status();
            let number = status.as_u16();
            if is_unsure(before, number) {
                counters.doubt(request);
            }
            judge(status) == Judgement::Again && may_be_taken(before, Some(number))
        }
    }
}

/// Returns why an attempt without a reply failed.
fn cause_of(fault: NoReply) -> Cause {
    match fault {
        NoReply::OutOfMemory => Cause::Memory,
        NoReply::Device => Cause::Broken,
        NoReply::Ended => Cause::Ended,
        NoReply::Bad => Cause::BadReply,
    }
}

/// Returns this cause, or `Timeout` if the deadline has passed.
fn cause_at<C: Clock>(cause: Cause, deadline: &Deadline<C>) -> Cause {
    match deadline.left() {
        Some(_) => cause,
        None => Cause::Timeout,
    }
}

/// Sends a request over a connection, before the deadline.
fn exchange_through<C: Clock + Copy>(
    alloc: Global,
    stream: &TcpStream,
    deadline: Deadline<C>,
    fields: &Option<ExtraFields>,
    request: &[u8],
) -> Result<Heard, Cause> {
    let mut reader = Std::new(Timely::new(stream, deadline));
    let mut writer = Std::new(Timely::new(stream, deadline));
    let heard = match fields {
        None => hear_answer(alloc, &mut reader, &mut writer, request),
        Some(fields) => hear_answer_to(alloc, &mut reader, &mut writer, fields, request),
    };
    match heard {
        Ok(heard) => Ok(heard),
        Err(fault) => Err(cause_of(fault)),
    }
}

/// Counts an attempt to send a request that was answered: the samples of the request if they are
/// acknowledged or refused, and else a failure. What the receiver says of a failure is kept.
fn count_answer(counters: &SendCounters, request: &[u8], heard: &Heard) {
    let status = heard.status();
    let number = status.as_u16();
    match judge(status) {
        Judgement::Done => counters.acknowledge(request),
        Judgement::Refused => {
            counters.keep_reply(number, heard.text());
            counters.refuse(number, request);
        }
        Judgement::Again => {
            counters.keep_reply(number, heard.text());
            counters.fail(Cause::Status(number));
        }
    }
}

/// Returns the reply that was heard, and counts the attempt with its samples.
fn counted<C: Clock>(
    counters: &SendCounters,
    deadline: &Deadline<C>,
    request: &[u8],
    answer: Result<Heard, Cause>,
) -> Result<Reply, Lost>
    ensures { IfOk result (λ reply. answer ≡ Ok reply.status) }
{
    match answer {
        Ok(heard) => {
            count_answer(counters, request, &heard);
            Ok(heard.into_reply())
        }
        Err(cause) => {
            counters.fail(cause_at(cause, deadline));
            Err(Lost)
        }
    }
}

impl<N: Net<Stream = TcpStream> + Clock + Files + AllocGlobal + Copy> Transport
    for TcpTransport<N> {
    ghost use Rattle.std.specs.Prelude.{⊤};

    ghost is_for = { λ _ _ _. ⊤ };

    ghost tells = { λ _. ⊤ };

    ghost seen = { λ transport. transport.seen };

    fn exchange(&mut self, request: &[u8]) -> Result<Reply, Lost> {
        let mut packer = self.packer.take();
        let answer = self.attempt(&mut packer, request);
        self.packer = packer;
        self.look_at(&answer);
        self.seen.push(&Exchanged::of(request, &answer));
        answer
    }
}

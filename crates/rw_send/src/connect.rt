//! Connections over TCP for all workers.

ghost use Rattle.std.specs.Prelude.{◌≡◌, ◌*◌, [], IfOk};

use rw_fields::ExtraFields;
use rw_metrics::SendCounters;
use rw_sender::Connect;
use rw_shard_core::Target;
use rw_tcp::{
    Access, AskedPause, GiveUp, RefusalStop, SharedRoute, Sleep, TcpTransport, copy_target,
};
use rw_types::Bounded;
use std::alloc::{AllocError, AllocGlobal, Global};
use std::marker::Model;
use std::net::{Net, SocketAddr, TcpStream};
use std::rt::Files;
use std::sync::Arc;
use std::time::Clock;

/// Gives each worker a transport to the same receiver, with one connection for each attempt, and
/// pauses by the clock. Contracts see the addresses and the timeout.
#[derive(Drop)]
pub struct TcpConnect<N> {
    alloc: Global,
    net: N,
    addresses: Vec<SocketAddr>,
    timeout_ms: Bounded<1, 3_600_000>,
    counters: Arc<SendCounters, Global>,
    snappy_target: Option<Target>,
    shared_route: Option<Arc<SharedRoute, Global>>,
    refusal_stop: Option<Arc<RefusalStop, Global>>,
    give_up: Option<Arc<GiveUp, Global>>,
    /// The fields that are added to requests, and where they come from.
    fields: Option<(ExtraFields, Arc<Access, Global>)>,
    /// The longest pause that a receiver is granted, in milliseconds.
    asked_ms: u64,
}

impl<N> Model for TcpConnect<N> {
    ghost use Rattle.std.specs.Prelude.{◌*◌};
    ghost use Rattle.rw_tcp.specs.Receivers.{Receiver};

    ghost Value = { Receiver };

    ghost view = { λ c. record {
      addresses = c.addresses.items;
      timeout = c.timeout_ms * 1_000_000;
    } };
}

impl<N> TcpConnect<N> {
    /// Returns a source of transports to these addresses of one receiver, which are tried in turn.
    /// The timeout is in milliseconds, for a whole attempt. The counters count each attempt.
    pub fn new(
        alloc: Global,
        net: N,
        addresses: Vec<SocketAddr>,
        timeout_ms: Bounded<1, 3_600_000>,
        counters: Arc<SendCounters, Global>,
    ) -> TcpConnect<N>
        ensures addresses { result.addresses ≡ addresses.items }
        ensures timeout { result.timeout ≡ timeout_ms * 1_000_000 }
    {
        TcpConnect {
            alloc,
            net,
            addresses,
            timeout_ms,
            counters,
            snappy_target: None,
            shared_route: None,
            refusal_stop: None,
            give_up: None,
            fields: None,
            asked_ms: 0,
        }
    }
}

impl<N: Net<Stream = TcpStream> + Clock + Files + AllocGlobal + Copy> TcpConnect<N> {
    /// Returns the source, whose transports from here on send the bodies of requests to this target
    /// as Snappy blocks.
    pub fn with_snappy(self, target: &Target) -> Result<TcpConnect<N>, AllocError>
        ensures { IfOk result (λ c. c ≡ self) }
    {
        let mut connect = self;
        connect.snappy_target = Some(copy_target(connect.alloc, target)?);
        Ok(connect)
    }

    /// Returns the source, whose transports from here on share which address answers, and look this
    /// name up again once attempts have failed for 30 seconds.
    pub fn with_name(self, host: &str, port: u16) -> Result<TcpConnect<N>, AllocError>
        ensures { IfOk result (λ c. c ≡ self) }
    {
        let mut connect = self;
        let route = SharedRoute::new(connect.alloc, host, port)?;
        connect.shared_route = Some(Arc::new(connect.alloc, route)?);
        Ok(connect)
    }

    /// Returns the source, whose transports from here on report the status of each answer to this
    /// stop.
    pub fn with_refusal_stop(self, stop: Arc<RefusalStop, Global>) -> TcpConnect<N>
        ensures { result ≡ self }
    {
        let mut connect = self;
        connect.refusal_stop = Some(stop);
        connect
    }

    /// Returns the source, whose transports from here on have the run given up if the same failure
    /// is answered for too long.
    pub fn with_give_up(self, give_up: Arc<GiveUp, Global>) -> TcpConnect<N>
        ensures { result ≡ self }
    {
        let mut connect = self;
        connect.give_up = Some(give_up);
        connect
    }

    /// Returns the source, whose transports from here on add these fields to each request. After a
    /// 401 they are read again from `access`.
    pub fn with_fields(self, fields: ExtraFields, access: Arc<Access, Global>) -> TcpConnect<N>
        ensures { result ≡ self }
    {
        let mut connect = self;
        connect.fields = Some((fields, access));
        connect
    }

    /// Returns the source, whose pauses from here on are as long as the receiver asks for by
    /// `Retry-After`, but not for longer than `most_ms` milliseconds.
    pub fn with_asked_pause(self, most_ms: u64) -> TcpConnect<N>
        ensures { result ≡ self }
    {
        let mut connect = self;
        connect.asked_ms = most_ms;
        connect
    }

    /// Returns this transport, which shares with others what the source has for all of them.
    fn sharing(&self, transport: TcpTransport<N>) -> Result<TcpTransport<N>, AllocError>
        ensures { IfOk result (λ t. t ≡ transport) }
    {
        let mut transport = transport;
        if let Some(route) = &self.shared_route {
            transport = transport.with_shared_route(Arc::try_clone(route)?);
        }
        if let Some(stop) = &self.refusal_stop {
            transport = transport.with_refusal_stop(Arc::try_clone(stop)?);
        }
        Ok(transport)
    }

    /// Returns this transport, whose requests have the fields that are added, and which hears when
    /// the run gives up.
    fn extending(&self, transport: TcpTransport<N>) -> Result<TcpTransport<N>, AllocError>
        ensures { IfOk result (λ t. t ≡ transport) }
    {
        let mut transport = transport;
        if let Some(give_up) = &self.give_up {
            transport = transport.with_give_up(Arc::try_clone(give_up)?);
        }
        if let Some((fields, access)) = &self.fields {
            transport = transport.with_fields(fields.copy()?, Arc::try_clone(access)?);
        }
        Ok(transport)
    }

    /// Returns a transport to the addresses, with the timeout.
    fn to_receiver(&self) -> Result<TcpTransport<N>, AllocError>
        ensures receiver { IfOk result (λ transport. transport.receiver ≡ self.now) }
        ensures unused { IfOk result (λ transport. transport.seen ≡ []) }
    {
        let addresses = self.addresses.clone()?;
        let counters = Arc::try_clone(&self.counters)?;
        let transport = TcpTransport::new(
            self.alloc,
            self.net,
            addresses,
            self.timeout_ms,
            counters,
        );
        let transport = self.sharing(transport)?;
        let transport = self.extending(transport)?;
        match &self.snappy_target {
            None => Ok(transport),
            Some(target) => transport.with_snappy(target),
        }
    }
}

impl<N> Connect for TcpConnect<N>
where
    N: Net<Stream = TcpStream> + Clock + Files + AllocGlobal + Copy + Send + 'static,
{
    type T = TcpTransport<N>;

    type P = Sleep<N>;

    fn transport(
        &mut self,
        _epoch: u64,
        _shard: u32,
    ) -> Result<(TcpTransport<N>, Sleep<N>), AllocError>
        ensures receiver { IfOk result (λ r. r.0.receiver ≡ self.old) }
        ensures unused { IfOk result (λ r. r.0.seen ≡ []) }
        ensures stays { self.new ≡ self.old }
    {
        let asked = Arc::new(self.alloc, AskedPause::new(self.asked_ms))?;
        let ours = Arc::try_clone(&asked)?;
        let transport = self.to_receiver()?.with_asked_pause(ours);
        Ok((transport, Sleep::asked_for(self.net, asked)))
    }
}

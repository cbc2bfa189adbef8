//! The addresses of a receiver.

ghost use Rattle.std.specs.Prelude.{◌≡◌, ◌<◌, ◌≤◌, ◌*◌, ◌↔◌, IfOk, IsTrue, length, vec_len};
ghost use Rattle.std.specs.Duration.{as_nanos};
ghost use Rattle.std.specs.List.{swap};

use std::alloc::{AllocError, Global};
use std::marker::Model;
use std::net::{Net, SocketAddr, ToSocketAddrs};
use std::sync::atomic::{AtomicU64, Ordering};
use std::sync::{Arc, Mutex};
use std::time::{Clock, Duration, Instant};
use std::{io, mem};

/// For how many seconds attempts fail before the name of the receiver is looked up again.
const PATIENCE_SECONDS: u64 = 30;

/// Looks up the addresses of a host; there is at least one. An error of the kind `OutOfMemory`
/// means that memory ran out, any other that the look-up failed.
pub fn look_up<N: Net>(net: &N, alloc: Global, host: &str, port: u16) -> io::Result<Vec<SocketAddr>>
    ensures { IfOk result (λ v. 0 < vec_len v) }
{
    let mut addresses = Vec::new(alloc);
    for address in (host, port).to_socket_addrs(net)? {
        addresses.push(address)?;
    }
    if addresses.is_empty() {
        return Err(io::Error::from(io::ErrorKind::NotFound));
    }
    Ok(addresses)
}

/// What all transports to a receiver share: its name, and its addresses, once one of them has found
/// others than it began with, or another order. Nobody waits for it: what one transport finds while
/// another one looks is not shared.
#[derive(Drop)]
pub struct SharedRoute {
    host: String,
    port: u16,
    /// How often the addresses were shared.
    version: AtomicU64,
    addresses: Mutex<Vec<SocketAddr>>,
}

impl SharedRoute {
    /// Returns what transports to this host and port share in the beginning.
    pub fn new(alloc: Global, host: &str, port: u16) -> Result<SharedRoute, AllocError> {
        Ok(SharedRoute {
            host: String::from_str(alloc, host)?,
            port,
            version: AtomicU64::new(0),
            addresses: Mutex::new(Vec::new(alloc)),
        })
    }

    /// Shares these addresses, and returns their version; `None` if they cannot be shared now.
    fn share(&self, addresses: Vec<SocketAddr>) -> Option<u64> {
        let mut shared = self.addresses.try_lock()?;
        let _ = mem::replace(&mut *shared, addresses);
        let before = self.version.fetch_add(1, Ordering::SeqCst);
        Some(before.wrapping_add(1))
    }

    /// Returns the shared addresses with their version, unless it is this one; `None` also if they
    /// cannot be read now.
    fn other_than(&self, version: u64) -> Option<(Vec<SocketAddr>, u64)> {
        if self.version.load(Ordering::SeqCst) == version {
            return None;
        }
        let shared = self.addresses.try_lock()?;
        match shared.clone() {
            Ok(addresses) => Some((addresses, self.version.load(Ordering::SeqCst))),
            Err(_) => None,
        }
    }
}

/// Returns whether a name is looked up again after attempts have failed for this time.
fn is_look_up_due(failing: Duration) -> bool
    ensures { IsTrue result ↔ (PATIENCE_SECONDS * 1_000_000_000 ≤ as_nanos failing) }
{
    failing >= Duration::from_secs(PATIENCE_SECONDS)
}

/// The addresses of a receiver, in the order in which they are tried. Contracts see them.
#[derive(Drop)]
pub(crate) struct Route {
    addresses: Vec<SocketAddr>,
    shared: Option<Arc<SharedRoute, Global>>,
    /// The version of the shared addresses that was looked at last.
    version: u64,
    /// Since when attempts have failed, if the last one has.
    failing_since: Option<Instant>,
}

impl Model for Route {
    ghost use Rattle.std.specs.Prelude.{List};
    ghost use Rattle.std.specs.declared.net.socket_addr.SocketAddr.{SocketAddr};

    ghost Value = { List SocketAddr };

    ghost view = { λ r. r.addresses.items };
}

impl Route {
    /// Returns the route over these addresses.
    pub(crate) fn new(addresses: Vec<SocketAddr>) -> Route
        ensures { result ≡ addresses.items }
    {
        Route {
            addresses,
            shared: None,
            version: 0,
            failing_since: None,
        }
    }

    /// Shares what is found from here on with other routes.
    pub(crate) fn join(&mut self, shared: Arc<SharedRoute, Global>)
        ensures { self.new ≡ self.old }
    {
        self.shared = Some(shared);
    }

    /// Returns the addresses.
    pub(crate) fn addresses(&self) -> &[SocketAddr]
        ensures { result.now ≡ self.now }
    {
        self.addresses.as_slice()
    }

    /// Shares the addresses, unless memory runs out.
    fn publish(&mut self)
        ensures { self.new ≡ self.old }
    {
        let Some(shared) = &self.shared else {
            return;
        };
        if let Ok(copy) = self.addresses.clone() {
            if let Some(version) = shared.share(copy) {
                self.version = version;
            }
        }
    }

    /// Has the address at this place, which has answered, be tried first from here on: it and the
    /// first one change places.
    pub(crate) fn put_first(&mut self, at: usize)
        requires { at < length self.old }
        ensures { self.new ≡ swap self.old 0 at }
    {
        self.addresses.as_mut_slice().swap(0, at);
        if at > 0 {
            self.publish();
        }
    }

    /// Takes the addresses that another route has shared since the last call.
    pub(crate) fn catch_up(&mut self) {
        let Some(shared) = &self.shared else {
            return;
        };
        if let Some((addresses, version)) = shared.other_than(self.version) {
            self.addresses = addresses;
            self.version = version;
        }
    }

    /// Looks the name of the receiver up, if it is known.
    fn look_up_again<N: Net>(&mut self, net: &N, alloc: Global) {
        let Some(shared) = &self.shared else {
            return;
        };
        if let Ok(addresses) = look_up(net, alloc, shared.host.as_str(), shared.port) {
            self.addresses = addresses;
            self.publish();
        }
    }

    /// Takes whether an attempt failed. Once attempts have failed for 30 seconds, it looks up the
    /// name of the receiver, and again after 30 more.
    pub(crate) fn note<N: Net + Clock>(&mut self, net: &N, alloc: Global, has_failed: bool) {
        if !has_failed {
            self.failing_since = None;
            return;
        }
        let Ok(now) = Instant::now(net) else {
            return;
        };
        match self.failing_since {
            None => self.failing_since = Some(now),
            Some(since) if is_look_up_due(now.saturating_duration_since(since)) => {
                self.failing_since = Some(now);
                self.look_up_again(net, alloc);
            }
            Some(_) => {}
        }
    }
}

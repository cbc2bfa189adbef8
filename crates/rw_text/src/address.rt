//! HOST:PORT, the address of a receiver as a command-line argument.

ghost use Rattle.std.specs.Prelude.{◌≡◌, ℕ, List, MatchOption};
ghost use Rattle.rw_text.specs.Addresses.{IsPort, IsAddress, IsName};

use crate::numbers::read_number;

/// A host, to be looked up, and a port from 1 to 65,535.
#[derive(Clone, Copy, Debug)]
pub struct Address<'a> {
    /// The host as it was written, with any brackets.
    pub host: &'a str,
    /// The port.
    pub port: u16,
}

fn port_of(digits: &[u8]) -> Option<u16>
    ensures { MatchOption result ((port : ℕ) → IsPort digits.now port → ⊥) (IsPort digits.now) }
{
    let Some(port) = read_number(digits) else {
        return None;
    };
    if port == 0 || port > 65_535 {
        return None;
    }
    Some(port as u16)
}

impl<'a> Address<'a> {
    /// Returns the host without brackets around it, in which an IPv6 address may be (RFC 3986,
    /// section 3.2.2).
    pub fn name(&self) -> &'a str
        ensures { IsName self.now.host.now result.now }
    {
        let Some(rest) = self.host.strip_prefix('[') else {
            return self.host;
        };
        match rest.strip_suffix(']') {
            Some(name) => name,
            None => self.host,
        }
    }
}

/// Reads HOST:PORT, which is split at its last colon, so that a host may contain colons (`::1`,
/// `[::1]`). The port is 1 to 65,535, in decimal digits. Returns `None` for any other text.
pub fn read_address(text: &str) -> Option<Address<'_>>
    ensures { MatchOption result
        ((host : List ℕ) (port : ℕ) → IsAddress text.now host port → ⊥)
        (λ a. IsAddress text.now a.host.now a.port) }
{
    let Some((host, digits)) = text.rsplit_once(':') else {
        return None;
    };
    let Some(port) = port_of(digits.as_bytes()) else {
        return None;
    };
    Some(Address { host, port })
}

/// Law: a text is at most one address. The call does nothing.
pub fn address_is_one()
    ensures { (text host other : List ℕ) (port another : ℕ) → IsAddress text host port
        → IsAddress text other another → (host ≡ other) × (port ≡ another) }
{}

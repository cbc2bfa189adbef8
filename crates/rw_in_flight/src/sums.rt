//! What is counted of bodies.

ghost use Rattle.std.specs.Prelude.{◌≡◌, ◌==◌, ◌<◌, ◌-◌, ◌^◌, false, All, Some, slice_get, MatchOption};
ghost use Rattle.rw_in_flight.specs.InFlight.{held, open_held, first_open};

use crate::body::Body;

/// Returns how many bytes of bodies have come.
pub(crate) fn held(bodies: &[Body]) -> u64
    requires { held bodies.now < 2 ^ 64 }
    ensures { result ≡ held bodies.now }
{
    let mut sum = 0;
    for body in bodies {
        sum += body.bytes;
    }
    sum
}

/// Returns how many bytes have come of the bodies that are open.
pub(crate) fn open_held(first: u64, bodies: &[Body]) -> u64
    requires { held bodies.now < 2 ^ 64 }
    ensures { result ≡ open_held first bodies.now }
{
    let mut sum = 0;
    for body in bodies {
        if body.number >= first {
            sum += body.bytes;
        }
    }
    sum
}

/// Returns from which number on bodies stay open, if at least `need` bytes of open ones are closed:
/// those that began first.
pub(crate) fn first_open(need: u64, first: u64, bodies: &[Body]) -> u64
    requires { All (λ b. b.number < 2 ^ 64 - 1) bodies.now }
    ensures { result ≡ first_open need first bodies.now }
{
    let mut need = need;
    let mut first = first;
    for body in bodies {
        if need == 0 {
            return first;
        }
        if body.number >= first {
            need = need.saturating_sub(body.bytes);
            first = body.number + 1;
        }
    }
    first
}

/// Returns where the body with this number is.
pub(crate) fn place_of(number: u64, bodies: &[Body]) -> Option<usize>
    ensures { MatchOption result (All (λ b. (b.number == number) ≡ false) bodies.now)
        (λ i. (b : Body) × (slice_get bodies.now i ≡ Some b) × (b.number ≡ number)) }
{
    for (i, body) in bodies.iter().enumerate() {
        if body.number == number {
            return Some(i);
        }
    }
    None
}

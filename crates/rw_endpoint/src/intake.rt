//! What an endpoint takes of bodies.

ghost use Rattle.std.specs.Prelude.{◌≡◌};
ghost use Rattle.rw_endpoint.specs.Coding.{intake_of};

use rw_head::Limits;

/// What an endpoint takes of bodies.
#[derive(Clone, Copy)]
pub struct Intake {
    /// The most bytes of a body, and of what it decodes to.
    pub limit: u64,
    /// Whether a body may be a Snappy block.
    pub snappy: bool,
}

/// Returns what these limits say of bodies.
pub(crate) fn intake_of(limits: &Limits) -> Intake
    ensures { result ≡ intake_of limits.now }
{
    Intake {
        limit: limits.max_body_bytes.get(),
        snappy: limits.snappy,
    }
}

//! What workers send over, and how they wait.

ghost use Rattle.std.specs.Prelude.{◌≡◌, IfOk, []};

use rw_worker::{Pause, Transport};
use std::alloc::AllocError;

/// Makes the transport and the pause of each worker.
pub trait Connect {
    ghost use Rattle.std.specs.Prelude.{◌≡◌, IfOk, []};

    /// What a worker sends over.
    type T: Transport + Send + Drop + 'static;

    /// How a worker waits.
    type P: Pause + Send + Drop + 'static;

    /// Returns the transport and the pause for the worker of shard `shard` of epoch `epoch`. The
    /// transport has made no exchange yet.
    fn transport(&mut self, epoch: u64, shard: u32) -> Result<(Self::T, Self::P), AllocError>
        ensures unused { IfOk result (λ r. Self.T.seen r.0 ≡ []) }
        ensures made { IfOk result (λ r. Self.T.is_for epoch shard r.0) };
}

//! The transport that a worker sends over, and the pause by which it waits.

ghost use Rattle.std.specs.Prelude.{◌≡◌, List, [], ◌∷◌, ◌++◌};
ghost use Rattle.rw_worker.specs.Transcript.{Exchange, exchange_of};

use http::StatusCode;
use std::error::Error;
use std::fmt;

/// The answer to a request.
#[derive(Clone, Copy, PartialEq, Eq)]
pub struct Reply {
    pub status: StatusCode,
}

/// No answer came. The receiver may have the request or not.
#[derive(Clone, Copy, Debug, PartialEq, Eq)]
pub struct Lost;

impl fmt::Display for Lost {
    fn fmt<W: fmt::Write>(&self, f: &mut fmt::Formatter<W>) -> fmt::Result {
        f.write_str("no reply was received")
    }
}

impl Error for Lost {}

/// Sends a request and waits for the answer.
pub trait Transport {
    ghost use Rattle.std.specs.Prelude.{◌≡◌, ℕ, List, [], ◌∷◌, ◌++◌};
    ghost use Rattle.rw_worker.specs.Transcript.{Exchange, exchange_of};

    /// `is_for epoch shard t` says that the transport `t` was made for that worker. One that serves
    /// every worker holds for all of them.
    ghost is_for: { ℕ → ℕ → Self → Type 0 };

    /// Whether it has recorded each exchange so far. A transport need not record any.
    ghost tells: { Self → Type 0 };

    /// The exchanges so far.
    ghost seen: { Self → List Exchange };

    fn exchange(&mut self, request: &[u8]) -> Result<Reply, Lost>
        ensures { tells self.new → tells self.old
            × (seen self.new ≡ seen self.old ++ exchange_of request.now result ∷ []) };
}

/// Lets time pass.
pub trait Pause {
    ghost use Rattle.std.specs.Prelude.{◌≡◌, ℕ, List, [], ◌∷◌, ◌++◌};

    /// Whether it has recorded each pause so far. It need not record any.
    ghost tells: { Self → Type 0 };

    /// The pauses so far, in milliseconds.
    ghost paused: { Self → List ℕ };

    /// Waits for `ms` milliseconds.
    fn pause(&mut self, ms: u64)
        ensures { tells self.new
            → tells self.old × (paused self.new ≡ paused self.old ++ ms ∷ []) };
}

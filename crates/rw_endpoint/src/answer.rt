//! What answers the bodies of requests.

ghost use Rattle.std.specs.Prelude.{ℕ, List, IsTrue};
ghost use Rattle.rw_endpoint.specs.Replies.{is_verdict};

/// Answers the body of a sound request with an HTTP status: 204, 400, 429 or 503.
pub trait Answer {
    /// In the first state the body gets this status, and leaves the second state.
    ghost answers: { Self → List ℕ → ℕ → Self → Type 0 };

    /// Returns the status for this body.
    fn answer(&mut self, body: &[u8]) -> u16
        ensures given { answers self.old body.now result self.new }
        ensures verdict { IsTrue (is_verdict result) };
}

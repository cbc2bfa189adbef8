//! What a receiver takes of requests that it would otherwise refuse, and what it says of others.

ghost use Rattle.std.specs.Prelude.{◌≡◌, false};

/// What a receiver takes of requests that it would otherwise refuse, and what it says of others: by
/// default nothing.
#[derive(Clone, Copy, Debug, PartialEq, Eq, Drop)]
pub struct TakeOptions {
    /// Whether the labels of each series are sorted by name before the head is asked.
    pub sorts_labels: bool,
    /// Whether of a request that is refused as a whole the samples are taken that the head takes
    /// one after the other. It is answered with 400 all the same.
    pub is_partial: bool,
    /// Whether a reply 400 has a text that says why.
    pub explains: bool,
}

impl TakeOptions {
    /// Returns the options of a receiver that takes a request as a whole or not at all, with labels
    /// that are sorted, and whose replies have no text.
    pub fn whole() -> TakeOptions
        ensures { result ≡ record {
          sorts_labels = false;
          is_partial = false;
          explains = false;
        } }
    {
        TakeOptions {
            sorts_labels: false,
            is_partial: false,
            explains: false,
        }
    }
}

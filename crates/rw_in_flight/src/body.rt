//! A body that has come in part.

/// A body that has come in part. Numbers rise: the body with the least one began first.
#[derive(Clone, Copy, Debug, PartialEq, Eq)]
pub struct Body {
    pub number: u64,
    /// How many bytes of it have come.
    pub bytes: u64,
}

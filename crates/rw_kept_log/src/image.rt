//! What a journal in memory holds.

ghost use Rattle.std.specs.Prelude.{◌≤◌, length};

/// The segments before the last one, the last one, and how many bytes of it are synced.
#[derive(Drop)]
pub(crate) struct Image {
    pub(crate) done: Vec<Vec<u8>>,
    pub(crate) last: Vec<u8>,
    pub(crate) synced: usize,
    ghost within: { synced ≤ length last.items },
}

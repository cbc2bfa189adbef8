//! What a seat was asked.

use rw_history::History;

/// What a seat was asked, and the status that was answered. No value of it is kept.
#[derive(Drop)]
pub struct Question {
    /// The number of the seat.
    pub seat: u64,
    pub body: History<u8>,
    pub status: u16,
}

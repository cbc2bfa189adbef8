//! What a script asks for.

use rw_machine::Event;

/// What one line of a script asks for.
#[derive(Debug, Drop)]
pub enum Command {
    /// `log LINE`: this record is appended to the log, and what is written for it is read.
    Log(Vec<u8>),
    /// One event. `feed HEX` and `segment` are pieces of the log.
    Event(Event),
    /// `settle`: an orderly shutdown.
    Settle,
}

//! What ends a service.

use rw_follow::{StopRequest, StopSignal};

/// What ends a service.
#[derive(Clone, Copy, Drop)]
pub enum ServeUntil<'a> {
    /// This many connections have come. One that cannot be accepted or served ends it, too.
    Connections(u64),
    /// A stop is requested.
    Stop(&'a StopSignal),
}

impl ServeUntil<'_> {
    /// Returns what is asked of the connections now.
    pub(crate) fn request(&self) -> StopRequest {
        match self {
            ServeUntil::Connections(_) => StopRequest::Continue,
            ServeUntil::Stop(signal) => signal.request(),
        }
    }

    /// Returns whether no more connections are to be accepted after this many.
    pub(crate) fn is_reached(&self, accepted: u64) -> bool {
        match self {
            ServeUntil::Connections(count) => accepted >= *count,
            ServeUntil::Stop(_) => self.request() != StopRequest::Continue,
        }
    }
}

//! Follows a log that grows: its segments are read in order, while a writer goes on writing. Has
//! the stop signal of the services, and what sets it.
#![tactic(auto)]

mod follower;
mod memory;
mod queue;
mod segments;
mod signal;
mod single;
mod stop_sources;
mod timed;
mod to_the_end;
mod watch;

pub use follower::{Follower, SegmentError, Turn};
pub use memory::{Event, Listed};
pub use queue::Queue;
pub use segments::{Ahead, Segments};
pub use signal::{StopRequest, StopSignal};
pub use stop_sources::{watch_file, watch_input};
pub use timed::Timed;
pub use to_the_end::ToTheEnd;
pub use watch::Watch;

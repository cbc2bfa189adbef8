//! How a sender that is started again goes on where an earlier one was: the file that has its
//! position, which segments are read, and the definitions before them.
#![tactic(auto)]

mod after;
mod continuation;
mod filling;
mod front;
mod keeping;
pub mod laws;
mod midway;
mod passing;
mod position;
mod position_call;
mod position_file;
mod position_files;

pub use after::{After, Numbered};
pub use continuation::{Continuation, find_continuation};
pub use front::front_for;
pub use keeping::Keeping;
pub use midway::Midway;
pub use passing::{Passed, pass_over};
pub use position::{Position, read_position};
pub use position_file::PositionFile;
pub use position_files::{PositionFault, PositionFiles, write_position};
pub use rw_kept_log::{Definitions, write_definitions};

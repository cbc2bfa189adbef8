//! The command `replay`: event scripts are read, and played on a sender, a network and a receiver
//! in one thread.
#![tactic(auto)]

mod command;
mod fault;
mod growing;
mod laws;
mod lines;
mod log;
mod log_line;
mod player;
mod run;
mod script;
mod script_line;
mod shown;
mod state;
mod ways;
mod words;

pub use command::Command;
pub use fault::ScriptFault;
pub use laws::order_is_one;
pub use lines::read_command;
pub use log_line::log_line_note;
pub use run::run_replay;
pub use script::read_script;
pub use script_line::script_line_note;
pub use shown::{numbered_line, shown_line};

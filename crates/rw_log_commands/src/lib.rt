//! The commands `body`, `log` and `plan`, over any reader and writer.
#![tactic(auto)]

mod counts;
mod filled;
mod labelling;
mod lines;
mod log;
mod log_read;
mod log_text;
mod plan;
mod planner;
mod run;

pub use labelling::Labelling;
pub use log::{run_log, run_log_dir};
pub use plan::{plan_log, run_plan, run_plan_with};
pub use planner::Planner;
pub use run::{run_body, run_body_with};
pub use rw_text::ToolFault;

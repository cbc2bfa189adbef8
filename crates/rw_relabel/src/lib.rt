//! Which series are kept: the actions `keep` and `drop` of Prometheus' relabelling
//! (configuration manual, `relabel_config`).
#![tactic(auto)]

mod choice;
mod join;
mod pattern;
mod rule;
mod rule_fault;
mod rules;

pub use choice::Choice;
pub use rule::{Action, DEFAULT_PATTERN, DEFAULT_SEPARATOR, Rule};
pub use rule_fault::RuleFault;
pub use rules::Rules;

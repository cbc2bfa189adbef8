//! The samples that a sender has dropped, named by their positions in the log.
#![tactic(auto)]

mod ledger;

pub use ledger::{Ledger, Reason};

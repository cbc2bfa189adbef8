//! The receiving head: what a receiver of samples holds, for one thread or for many.
//!
//! Threads share a head under one lock. Each asks it from a seat, which is a handle to the shared
//! head that counts the samples that its requests stored.
#![tactic(auto)]

mod admit;
mod blank;
mod laws;
mod locked;
mod naming;
mod part_answer;
mod question;
mod questions;
mod seat;
mod shared_head;

pub use admit::{Admit, Show};
pub use blank::Blank;
pub use laws::{what_is_answered_204_is_held, what_is_stored_stays};
pub use naming::{HeadNaming, Holding};
pub use question::Question;
pub use rw_head::{
    AddedSeries, Admission, AllAdded, AllSamples, AllSeries, Block, Capacity, Head, HeldSeries,
    InMemory, LabelSets, Limits, Memory, RecentSamples, StagedHead, Verdict, stores_are_lists,
    stores_hold_no_empty_list,
};
pub use seat::{AskedPartly, Seat, SeatAnswer};
pub use shared_head::SharedHead;

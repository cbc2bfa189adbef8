//! The head of a receiver of samples: messages are taken whole or not at all, and each sample once,
//! in order.
#![tactic(auto)]

mod added;
mod admit;
mod block;
mod blocks;
mod body;
mod capacity;
mod forgotten;
mod head;
mod in_memory;
mod label_bounds;
mod label_sets;
mod laws;
mod limits;
mod memory;
mod memory_bound;
mod name;
mod partial;
mod place;
mod placed_head;
mod places;
mod sample_list;
mod series;
mod staged_head;
mod table;
mod verdict;

pub use added::{AddedSeries, AllAdded};
pub use block::Block;
pub use capacity::{Admission, Capacity};
pub use head::Head;
pub use in_memory::InMemory;
pub use label_sets::LabelSets;
pub use laws::{
    stores_are_lists, stores_hold_no_empty_list, three_samples_of_which_two_are_gone,
    what_can_be_judged, what_can_be_taken_is_taken,
};
pub use limits::Limits;
pub use memory::{AllSamples, Memory, RecentSamples};
pub use memory_bound::horizon;
pub use placed_head::PlacedHead;
pub use series::{AllSeries, HeldSeries};
pub use staged_head::StagedHead;
pub use verdict::Verdict;

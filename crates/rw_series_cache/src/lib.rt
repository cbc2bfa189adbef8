//! The series of a log: what its references stand for, which series the rules keep, their numbers,
//! and what becomes of each sample: sent, dropped or filtered.
//!
//! A series is identified by its label set and not by a reference. The last definition of a
//! reference counts, and a label set gets its number when it is first kept.
#![tactic(auto)]

mod cache;
mod known;
mod label_sets;
mod laws;
mod router;
mod sample;
mod timestamps;
mod verdict;
mod verdicts;

pub use cache::Cache;
pub use known::Known;
pub use laws::{
    known_at_a_position, notes_entry_by_entry, numbers_stay, points_below_a_position,
    points_entry_by_entry, samples_define_nothing,
};
pub use router::{Routed, Router};
pub use sample::RoutedSample;

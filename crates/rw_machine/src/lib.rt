//! A sender, the network and a receiving head as one machine of events, and what every schedule of
//! them keeps.
#![tactic(auto)]

mod event;
mod laws;

pub use event::{Event, How};
pub use laws::{
    closed_queues_hand_out_nothing, each_batch_has_one_fate, each_sample_has_one_class,
    logged_samples_arrive_in_order, requests_and_replies_stay, requests_carry_their_batches,
    shards_keep_their_lists, shutdown_comes_to_its_report,
};

//! Proves that the running shipper is a run of the machine of events.
#![tactic(auto)]

mod laws;

pub use laws::{
    a_shared_head_is_one_receiver, a_stopped_shard_is_a_run, a_stopped_shipper_is_a_run,
    a_worker_is_a_run, an_epoch_is_a_run, free_runs_keep_the_laws, one_receiver_holds_the_samples,
    seats_of_one_head_are_one_receiver,
};
